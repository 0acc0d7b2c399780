ghost use Rattle.std.specs.Prelude.{◌≡◌, ◌↔◌, true, None, Some, IsOk, IsErr, IfSome, IfOk, IfErr, OnOk, OnErr};
ghost use Rattle.repo_plan.specs.Plan.{claim_of, unclaimed, first, is_wanted, no_claims};
ghost use Rattle.repo_plan.specs.Sound.{CanBeHeld};
ghost use Rattle.repo_plan.specs.Calls.{IsFetcher};
ghost use Rattle.repo_holdings.specs.HoldingsState.{held_plan, claims_too};

use super::Holdings;
use repo_plan::{FetcherBusy, FetcherIdle, Part};

impl Holdings {
    /// The fetcher claims the least part that is wanted and that no fetcher claims, or none where there is none. It
    /// allocates nothing.
    pub fn claim(&mut self, f: u8) -> Result<Option<Part>, FetcherBusy>
        requires { IsFetcher f }
        ensures idle { IsOk result ↔ (claim_of (held_plan self.old) f ≡ None) }
        ensures busy { IfErr result (λ e. claim_of (held_plan self.old) f ≡ Some e.part) }
        ensures part { IfOk result (λ claim. claim ≡ first (unclaimed (held_plan self.old))) }
        ensures new { IfOk result (λ claim. self.new ≡ claims_too f claim self.old) }
        ensures err { OnErr result (self.new ≡ self.old) }
    {
        self.stock.plan.claim(f)
    }

    /// The part that the fetcher claims. It is wanted, and so not held.
    pub fn claimed(&self, f: u8) -> Option<Part>
        requires { IsFetcher f }
        ensures claim { result ≡ claim_of (held_plan self.now) f }
        ensures wanted { IfSome result (λ part. is_wanted (held_plan self.now) part ≡ true) }
    {
        self.stock.plan.cite_soundness();
        self.stock.plan.claimed(f)
    }

    /// The fetcher's claim ends, and its part can be claimed again, or be held. It allocates nothing.
    pub fn release(&mut self, f: u8) -> Result<Part, FetcherIdle>
        requires { IsFetcher f }
        ensures busy { IfOk result (λ part. claim_of (held_plan self.old) f ≡ Some part) }
        ensures idle { IsErr result ↔ (claim_of (held_plan self.old) f ≡ None) }
        ensures ok { OnOk result (self.new ≡ claims_too f None self.old) }
        ensures free { IfOk result (CanBeHeld (held_plan self.new)) }
        ensures err { OnErr result (self.new ≡ self.old) }
    {
        self.stock.plan.release(f)
    }

    /// Every fetcher's claim ends. It allocates nothing.
    pub fn end_claims(&mut self)
        ensures { self.new ≡ record self.old { claims = no_claims } }
    {
        self.stock.plan.end_claims();
    }
}
