ghost use Rattle.std.specs.Prelude.{◌≡◌, length};
ghost use Rattle.repo_plan.specs.Plan.{wanted};
ghost use Rattle.repo_holdings.specs.Listed.{member_catalogue};
ghost use Rattle.repo_member.specs.MemberState.{member_plan};

use super::Member;

impl Member {
    /// How many parts the member holds. Takes no look-up.
    pub fn held_count(&self) -> u64
        ensures { result ≡ length (member_plan self.now).held }
    {
        self.held.held_count()
    }

    /// How many parts the member wants, those that its fetchers claim among them. Takes no look-up.
    pub fn wanted_count(&self) -> u64
        ensures { result ≡ length (wanted (member_plan self.now)) }
    {
        self.held.wanted_count()
    }

    /// How many objects the member's catalogue lists.
    pub fn listed_count(&self) -> usize
        ensures { result ≡ length (member_catalogue self.now.store) }
    {
        self.held.catalogue().entries().len()
    }
}
