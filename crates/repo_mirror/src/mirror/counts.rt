ghost use Rattle.std.specs.Prelude.{◌≡◌, length};
ghost use Rattle.repo_plan.specs.Plan.{wanted};
ghost use Rattle.repo_holdings.specs.Listed.{member_catalogue};
ghost use Rattle.repo_mirror.specs.MirrorState.{fetch_plan};

use super::Mirror;

impl Mirror {
    /// How many parts the mirror stores. Takes no look-up.
    pub fn held_count(&self) -> u64
        ensures { result ≡ length (fetch_plan self.now).held }
    {
        self.held.held_count()
    }

    /// How many parts the mirror wants. Takes no look-up.
    //
    // `cite_soundness` states which parts these are.
    pub fn wanted_count(&self) -> u64
        ensures { result ≡ length (wanted (fetch_plan self.now)) }
    {
        self.held.wanted_count()
    }

    /// How many objects the mirror's catalogue lists.
    pub fn listed_count(&self) -> usize
        ensures { result ≡ length (member_catalogue self.now.store) }
    {
        self.held.catalogue().entries().len()
    }
}
