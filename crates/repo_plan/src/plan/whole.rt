ghost use Rattle.std.specs.Prelude.{◌≡◌, ◌≤◌, ◌<◌, ◌+◌};
ghost use Rattle.std.specs.Ordering.{nat_cmp};
ghost use Rattle.repo_plan.specs.Plan.{with_shape};
ghost use Rattle.sorted_lists.specs.Runs.{IsRuns};
ghost use Rattle.repo_plan.specs.PlanFields.{PartIsNoted};

use crate::shape::Shape;
use sorted_lists::{Runs, SortedMap};

// Notes what a record says, if the part that is held now is one.
pub(super) fn note_shape(
    shapes: &mut SortedMap<(u32, u16), Shape>,
    publication: (u32, u16),
    shape: Option<Shape>,
)
    requires { 0 < shapes.old.spare }
    ensures entries { shapes.new.entries ≡ with_shape publication shape shapes.old.entries }
    ensures room { shapes.old.spare ≤ shapes.new.spare + 1 }
{
    if let Some(shape) = shape {
        shapes.insert(publication, shape);
    }
}

// Notes that a part is held, by its number in its publication, which has `last_number` parts besides its record.
//
// Of a publication that is held whole its own number alone is kept.
pub(super) fn note_held(
    done: &mut Runs<u32>,
    held: &mut Runs<(u32, u16)>,
    number: ((u32, u16), u16),
    last_number: u32,
)
    requires done { IsRuns nat_cmp done.old.runs }
    requires spare_of_done { 0 < done.old.spare }
    requires spare_of_held { 0 < held.old.spare }
    ensures done { IsRuns nat_cmp done.new.runs }
    ensures noted { PartIsNoted number last_number done.old done.new held.old held.new }
    ensures spare_of_done { done.old.spare ≤ done.new.spare + 1 }
    ensures spare_of_held { held.old.spare ≤ held.new.spare + 1 }
{
    held.insert(number);
    let publication = number.0;
    if held.gap_from((publication, 0)) > last_number {
        held.remove_all(publication);
        done.insert(publication);
    }
}
