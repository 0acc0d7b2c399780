ghost use Rattle.std.specs.Prelude.{◌≡◌, All, IfOk};
ghost use Rattle.crossbeam_queue.specs.Passes.{view, IsPassOf};
ghost use Rattle.live_inbox.specs.Knowledge.{IsOpen, IsClosing};
ghost use Rattle.live_inbox.specs.Delivery.{Remain};
ghost use Rattle.live_inbox.specs.Ends.{knows_returned};

use crate::port::Port;
use crate::rule::{Place, Queue};
use crate::steps::{Takes, TakesBack};
use std::alloc::{AllocError, Global};
use std::sync::Wait;

/// The mouth's place with what all these ports knew.
pub fn taken_back<T: Drop>(queue: &Queue<T>, mut place: Place<T>, ports: Vec<Port<T>>) -> Place<T>
    requires queue { IsPassOf queue.now place }
    requires mouth { IsOpen (view place) }
    requires ports { All (λ port. port.inbox ≡ queue.now.table.shared.table_id) ports.items }
    ensures queue { IsPassOf queue.now result }
    ensures mouth { view result ≡ knows_returned ports.items (view place) }
{
    for port in ports {
        let Port { place: other, .. } = port;
        queue.absorb::<TakesBack>(&mut place, other);
    }
    place
}

/// The values that the queue holds, where nobody puts any more.
pub fn values_left<T: Drop, R: Wait>(
    rt: &R,
    alloc: Global,
    queue: &Queue<T>,
    mut place: Place<T>,
) -> Result<Vec<T>, AllocError>
    requires queue { IsPassOf queue.now place }
    requires mouth { IsClosing (view place).returned (view place) }
    ensures left { IfOk result (λ values. Remain (view place) values.items) }
{
    let mut values = Vec::new(alloc);
    for _ in rt.forever() {
        values.reserve(1)?;
        match queue.pop_as::<Takes, R>(rt, &mut place) {
            Some(sent) => values.push_reserved(sent.value),
            None => return Ok(values),
        }
    }
    unreachable!()
}
