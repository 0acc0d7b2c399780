// The search for parts that members lend of publications that were touched.
use crate::touched::Touched;
use repo_member::Member;
use repo_plan::{HasParts, Part, least_of_some};

/// Members that lend what they hold of publications that were touched.
#[derive(Clone, Copy, Drop)]
pub(crate) struct Lenders<'w> {
    pub(crate) members: &'w [Member],
    pub(crate) touched: &'w Touched,
}

impl<'w> HasParts for Lenders<'w> {
    ghost use Rattle.bench_world.specs.Touching.{lend_touched};

    ghost has = { λ l. lend_touched l.members.now l.touched.now };

    // From the next touched publication it leaps to the next part that a member holds, and from there to the next
    // touched publication.
    fn least_from(&self, part: Part) -> Option<Part> {
        let mut next = self.touched.first_from(part);
        while let Some(from) = next {
            let Some(held) = least_of_some(self.members, from) else {
                return None;
            };
            if self.touched.has(held) {
                return Some(held);
            }
            next = self.touched.first_from(held);
        }
        None
    }
}
