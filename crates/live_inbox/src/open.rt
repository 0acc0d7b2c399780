ghost use Rattle.std.specs.Prelude.{◌≡◌, ◌+◌, ◌<◌, ◌≤◌, [], All, IfOk, OnOk};
ghost use Rattle.crossbeam_queue.specs.Passes.{view, IsPassOf};
ghost use Rattle.live_inbox.specs.Knowledge.{mouth_knows, IsDealing};
ghost use Rattle.live_inbox.specs.Ends.{fresh_port, fresh_ports};

use crate::port::Port;
use crate::rule::{Place, Queue};
use crate::steps::{Deals, PortCount};
use std::alloc::{AllocError, Global};

/// All ports of a queue. The mouth's place deals them out.
pub fn deal<N: PortCount, T: Drop>(
    alloc: Global,
    queue: &Queue<T>,
    place: &mut Place<T>,
    ports: usize,
) -> Result<Vec<Port<T>>, AllocError>
    requires count { ports ≡ N.count }
    requires some { 1 ≤ ports }
    requires queue { IsPassOf queue.now place.old }
    requires mouth { IsDealing ports 0 (view place.old) }
    ensures queue { OnOk result (IsPassOf queue.now place.new) }
    ensures mouth { OnOk result (view place.new ≡ mouth_knows ports ports [] [] []) }
    ensures own { IfOk result (λ all. All (λ port. port.inbox ≡ queue.now.table.shared.table_id) all.items) }
    ensures ports { IfOk result (λ all. all.items ≡ fresh_ports queue.now.table.shared.table_id ports ports) }
{
    let mut all = Vec::with_capacity(alloc, ports)?;
    for number in 0..ports {
        all.push(deal_next::<N, T>(queue, place, number))?;
    }
    Ok(all)
}

// The next port.
fn deal_next<N: PortCount, T: Drop>(
    queue: &Queue<T>,
    place: &mut Place<T>,
    number: usize,
) -> Port<T>
    requires number { number < N.count }
    requires queue { IsPassOf queue.now place.old }
    requires mouth { IsDealing N.count number (view place.old) }
    ensures queue { IsPassOf queue.now place.new }
    ensures mouth { view place.new ≡ mouth_knows N.count (number + 1) [] [] [] }
    ensures port { result ≡ fresh_port queue.now.table.shared.table_id N.count number }
{
    let place = queue.another::<Deals<N>>(place);
    Port { number, place }
}
