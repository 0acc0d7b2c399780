// Notes of what stored records say, to be looked up later.
ghost use Rattle.std.specs.Prelude.{◌≡◌, ◌-◌, ◌<◌, ◌≤◌, [], not, OnOk};
ghost use Rattle.std.specs.List.{filter};
ghost use Rattle.std.specs.Ordering.{eq_by_cmp};
ghost use Rattle.sorted_lists.specs.SortedList.{contains, insert_key, value_of, with_value};
ghost use Rattle.repo_plan.specs.Parts.{pair_cmp};

use ndn_name::Name;
use sorted_lists::{SortedMap, table};
use std::alloc::{AllocError, Global};
use std::collections::HashMap;
use std::marker::Model;

/// The names of objects, by publication, until they are listed, and which publications are withdrawn.
#[derive(Drop)]
pub(crate) struct Notes {
    names: HashMap<(u32, u16), Name>,
    withdrawn: SortedMap<(u32, u16), ()>,
    // For how many more of each there is capacity.
    spare: usize,
}

impl Model for Notes {
    ghost use Rattle.repo_holdings.specs.Noted.{NotesState};

    ghost Value = { NotesState };

    ghost use Rattle.repo_holdings.specs.Noted.{noted, AreRoomy};

    ghost view = { noted };

    ghost invariant = { AreRoomy };
}

impl Notes {
    // Empty notes.
    pub(crate) fn new(alloc: Global) -> Notes
        ensures { result ≡ record { names = []; withdrawn = []; spare = 0 } }
    {
        Notes {
            names: HashMap::new(alloc),
            withdrawn: SortedMap::new(alloc),
            spare: 0,
        }
    }

    // Reserves capacity for `n` names and `n` withdrawn publications, unless there is as much already.
    pub(crate) fn reserve(&mut self, n: usize) -> Result<(), AllocError>
        ensures names { self.new.names ≡ self.old.names }
        ensures withdrawn { self.new.withdrawn ≡ self.old.withdrawn }
        ensures grows { self.old.spare ≤ self.new.spare }
        ensures room { OnOk result (n ≤ self.new.spare) }
    {
        table::reserve(&mut self.names, n)?;
        self.withdrawn.reserve(n)?;
        self.spare = self.spare.max(n);
        Ok(())
    }

    // Notes the name of the object of a publication. It uses up capacity for one.
    pub(crate) fn note_name(&mut self, publication: (u32, u16), name: Name)
        requires { 0 < self.old.spare }
        ensures names { self.new.names ≡ with_value pair_cmp publication name self.old.names }
        ensures withdrawn { self.new.withdrawn ≡ self.old.withdrawn }
        ensures spare { self.new.spare ≡ self.old.spare - 1 }
    {
        self.spare -= 1;
        table::set_value(&mut self.names, publication, name);
    }

    // Removes the noted name of the object of a publication, and gives it.
    pub(crate) fn take_name(&mut self, publication: (u32, u16)) -> Option<Name>
        ensures name { result ≡ value_of pair_cmp self.old.names publication }
        ensures left { self.new ≡ record self.old {
          names = filter (λ e. not (eq_by_cmp pair_cmp publication e.0)) self.old.names;
        } }
    {
        self.names.remove(&publication)
    }

    // Notes that the publication is withdrawn. It uses up capacity for one. The answer is whether it was not noted
    // before.
    pub(crate) fn note_withdrawn(&mut self, publication: (u32, u16)) -> bool
        requires { 0 < self.old.spare }
        ensures fresh { result ≡ not (contains pair_cmp self.old.withdrawn publication) }
        ensures names { self.new.names ≡ self.old.names }
        ensures withdrawn { self.new.withdrawn ≡ insert_key pair_cmp publication self.old.withdrawn }
        ensures spare { self.new.spare ≡ self.old.spare - 1 }
    {
        let fresh = !self.is_withdrawn(publication);
        self.spare -= 1;
        self.withdrawn.insert(publication, ());
        fresh
    }

    // Whether the publication is noted as withdrawn.
    pub(crate) fn is_withdrawn(&self, publication: (u32, u16)) -> bool
        ensures { result ≡ contains pair_cmp self.now.withdrawn publication }
    {
        self.withdrawn.get(publication).is_some()
    }
}
