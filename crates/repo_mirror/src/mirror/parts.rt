ghost use Rattle.std.specs.Prelude.{◌≡◌, option_map};
ghost use Rattle.sorted_lists.specs.SortedList.{value_of};
ghost use Rattle.repo_plan.specs.Parts.{part_cmp};

use super::Mirror;
use repo_plan::{HasParts, Part};

impl HasParts for Mirror {
    ghost use Rattle.repo_plan.specs.Plan.{holds};
    ghost use Rattle.repo_mirror.specs.MirrorState.{fetch_plan};

    ghost has = { λ m t. holds (fetch_plan m) t };

    fn least_from(&self, part: Part) -> Option<Part> {
        self.held.least_from(part)
    }
}

impl Mirror {
    /// The octets of the packet of a part that the mirror stores. It allocates nothing.
    pub fn packet(&self, part: Part) -> Option<&[u8]>
        ensures { option_map (λ octets. octets.now) result ≡ value_of part_cmp self.now.store part }
    {
        self.held.packet(part)
    }
}
