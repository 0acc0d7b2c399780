ghost use Rattle.std.specs.Prelude.{◌≡◌, length};
ghost use Rattle.repo_plan.specs.Plan.{wanted};
ghost use Rattle.repo_holdings.specs.HoldingsState.{held_plan};

use super::Holdings;

impl Holdings {
    /// How many parts are held, as the plan counts them. Takes no look-up.
    pub fn held_count(&self) -> u64
        ensures { result ≡ length (held_plan self.now).held }
    {
        self.stock.plan.held_count()
    }

    /// How many parts are wanted, those that fetchers claim among them. Takes no look-up.
    pub fn wanted_count(&self) -> u64
        ensures { result ≡ length (wanted (held_plan self.now)) }
    {
        self.stock.plan.wanted_count()
    }
}
