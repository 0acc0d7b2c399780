// Changes of the catalogue that are made together.
ghost use Rattle.std.specs.Prelude.{◌≡◌, ◌<◌, ◌≤◌, length, vec_capacity};
ghost use Rattle.repo_holdings.specs.Changing.{fresh_with, gone_with};

use crate::changes::Change;
use repo_catalog::Entry;

// While packets are taken, the entries of objects that become whole wait here, and so do the publications whose entries
// are to be removed.
#[derive(Drop)]
pub(super) struct Pending {
    pub(super) fresh: Vec<Entry>,
    pub(super) gone: Vec<(u32, u16)>,
}

impl Pending {
    // Adds a change to those that wait. There is room for it.
    pub(super) fn push(&mut self, change: Change)
        requires fresh_room { length self.old.fresh.items < vec_capacity self.old.fresh }
        requires gone_room { length self.old.gone.items < vec_capacity self.old.gone }
        ensures fresh { self.new.fresh.items ≡ fresh_with self.old.fresh.items change }
        ensures gone { self.new.gone.items ≡ gone_with self.old.gone.items change }
        ensures fresh_room { vec_capacity self.old.fresh ≤ vec_capacity self.new.fresh }
        ensures gone_room { vec_capacity self.old.gone ≤ vec_capacity self.new.gone }
    {
        match change {
            Change::Nothing => {}
            Change::Lists(entry) => self.fresh.push(entry).unwrap(),
            Change::Removes { publisher, seq } => self.gone.push((publisher, seq)).unwrap(),
        }
    }
}
