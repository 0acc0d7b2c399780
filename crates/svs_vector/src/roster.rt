ghost use Rattle.std.specs.Prelude.{◌≡◌, ◌<◌, ◌≤◌, ◌↔◌, ◌++◌, ◌∷◌, [], ℕ, Some, None, length, slice_get, IfOk, OnOk};
ghost use Rattle.std.specs.Prelude.{OnErr, Err};
ghost use Rattle.svs_vector.specs.Format.{member_limit};
ghost use Rattle.svs_vector.specs.Rosters.{IsRoster, member_of};

use crate::roster_fault::RosterFault;
use indexmap::IndexMap;
use ndn_name::{Name, NameView};
use std::alloc::{AllocError, Global};
use std::marker::Model;

/// How many members a group may have.
pub const MEMBER_LIMIT: usize = 16;

/// The node names of a group's members, which are numbered from 0 as they are added.
#[derive(Drop)]
pub struct Roster {
    // Each under the octets of its value.
    members: IndexMap<Vec<u8>, Name>,
}

// A roster is seen as the list of the names.
impl Model for Roster {
    ghost use Rattle.std.specs.Prelude.{ℕ, List, map};
    ghost use Rattle.svs_vector.specs.Rosters.{AreMembers};

    ghost Value = { List (List (ℕ × List ℕ)) };

    ghost view = { λ roster. map (λ entry. entry.1) roster.members.entries };

    ghost invariant = { λ roster. AreMembers roster.members.entries };
}

impl Roster {
    /// A roster without members.
    pub fn new(alloc: Global) -> Roster
        ensures { result ≡ [] }
    {
        Roster {
            members: IndexMap::new(alloc),
        }
    }

    /// Adds a member whose name is not there, and gives its number.
    pub fn add(&mut self, name: &Name) -> Result<u32, RosterFault>
        ensures number { IfOk result (λ member. member ≡ length self.old) }
        ensures ok { OnOk result (self.new ≡ self.old ++ name.now ∷ []) }
        ensures duplicate { (member : ℕ)
            → (result ≡ Err (RosterFault.Duplicate member)) ↔ (member_of name.now self.old ≡ Some member) }
        ensures full { (result ≡ Err RosterFault.Full)
            ↔ ((member_of name.now self.old ≡ None) × (member_limit ≤ length self.old)) }
        ensures err { OnErr result (self.new ≡ self.old) }
    {
        if let Some(member) = self.find(&name.view()) {
            return Err(RosterFault::Duplicate { member });
        }
        let member = self.len();
        if member >= MEMBER_LIMIT {
            return Err(RosterFault::Full);
        }
        self.insert(name)?;
        Ok(member as u32)
    }

    // Adds a member whose name is not there.
    fn insert(&mut self, name: &Name) -> Result<(), AllocError>
        requires new_name { member_of name.now self.old ≡ None }
        requires room { length self.old < member_limit }
        ensures ok { OnOk result (self.new ≡ self.old ++ name.now ∷ []) }
        ensures err { OnErr result (self.new ≡ self.old) }
    {
        let octets = name.octets().to_vec(*self.members.allocator())?;
        let name = name.clone()?;
        self.members.insert(octets, name)?;
        Ok(())
    }

    /// The number of the member of this name.
    pub fn find(&self, name: &NameView<'_>) -> Option<u32>
        ensures { result ≡ member_of name.now self.now }
    {
        let member = self.members.get_index_of(name.octets())?;
        Some(member as u32)
    }

    /// The member's name.
    pub fn name(&self, member: u32) -> &Name
        requires { member < length self.now }
        ensures { slice_get self.now member ≡ Some result.now }
    {
        let (_, name) = self.members.get_index(member as usize).unwrap();
        name
    }

    /// How many members there are: at most 16.
    pub fn len(&self) -> usize
        ensures len { result ≡ length self.now }
        ensures few { result ≤ member_limit }
        ensures roster { IsRoster self.now }
    {
        self.members.len()
    }
}
