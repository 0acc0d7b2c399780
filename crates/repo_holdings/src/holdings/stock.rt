// The stored packets of publications, with their plan and their notes.
use crate::notes::Notes;
use repo_plan::Plan;
use repo_store::Store;

// The packets of the parts that are held, the plan of the parts, and what the stored records said. The plan and the
// notes agree with the packets.
#[derive(Drop)]
pub(super) struct Stock {
    pub(super) plan: Plan,
    pub(super) store: Store,
    pub(super) notes: Notes,
}
