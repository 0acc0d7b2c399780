ghost use Rattle.std.specs.Prelude.{◌≡◌, ◌<◌, ◌≤◌, ◌∷◌, [], ◌++◌, None, length, IfOk, OnOk, OnErr};
ghost use Rattle.ndn_sign.specs.Ring.{pair};
ghost use Rattle.svs_vector.specs.Rosters.{member_of};
ghost use Rattle.repo_member.specs.Groups.{IsPlainNodeName, IsKey, HaveKeys, node_limit, no_nodes, with_node};

use ndn_name::Name;
use ndn_sign::KeyRing;
use repo_object::key_name;
use std::alloc::{AllocError, Global};
use std::marker::Model;
use svs_vector::Roster;

// The node names of a group's members, or of its clients, and under the same numbers their keys.
#[derive(Drop)]
pub(crate) struct Nodes {
    names: Roster,
    ring: KeyRing,
    alloc: Global,
}

impl Model for Nodes {
    ghost use Rattle.repo_member.specs.Groups.{NodeKeys, HaveKeys};

    ghost Value = { NodeKeys };

    ghost view = { λ nodes. record { names = nodes.names; ring = nodes.ring } };

    ghost invariant = { λ nodes. HaveKeys (record { names = nodes.names; ring = nodes.ring }) };
}

impl Nodes {
    pub(crate) fn new(alloc: Global) -> Nodes
        ensures { result ≡ no_nodes }
    {
        Nodes {
            names: Roster::new(alloc),
            ring: KeyRing::new(alloc),
            alloc,
        }
    }

    // The ring is copied, so that it stays as it was where there is no memory for the name.
    pub(crate) fn add(&mut self, node: &Name, key: &[u8]) -> Result<(), AllocError>
        requires name { IsPlainNodeName node.now }
        requires key { IsKey key.now }
        requires new_name { member_of node.now self.old.names ≡ None }
        requires room { length self.old.names < node_limit }
        ensures ok { OnOk result (self.new ≡ with_node node.now key.now self.old) }
        ensures err { OnErr result (self.new ≡ self.old) }
    {
        let name = key_name(node)?;
        let mut ring = copied(self.alloc, &self.ring, self.names.len() as u32)?;
        add_pair(&mut ring, name.octets(), key)?;
        add_name(&mut self.names, node)?;
        self.ring = ring;
        Ok(())
    }

    // What holds of all node names and keys. Costs nothing, and is called for its clause.
    pub(crate) fn cite_soundness(&self)
        ensures { HaveKeys self.now }
    {
        let _ = &self.names;
    }

    pub(crate) fn names(&self) -> &Roster
        ensures names { result.now ≡ self.now.names }
        ensures keys { HaveKeys self.now }
    {
        &self.names
    }

    pub(crate) fn ring(&self) -> &KeyRing
        ensures ring { result.now ≡ self.now.ring }
        ensures keys { HaveKeys self.now }
    {
        &self.ring
    }
}

// A ring of the `len` pairs of `ring`.
fn copied(alloc: Global, ring: &KeyRing, len: u32) -> Result<KeyRing, AllocError>
    requires { len ≡ length ring.now }
    ensures { IfOk result (λ copy. copy ≡ ring.now) }
{
    let mut copy = KeyRing::new(alloc);
    for number in 0..len {
        add_pair(&mut copy, ring.name(number), ring.key(number))?;
    }
    Ok(copy)
}

// Adds a pair whose name is not there.
fn add_pair(ring: &mut KeyRing, name: &[u8], key: &[u8]) -> Result<(), AllocError>
    requires { length ring.old < 4294967295 }
    ensures ok { OnOk result (ring.new ≡ ring.old ++ pair name.now key.now ∷ []) }
    ensures err { OnErr result (ring.new ≡ ring.old) }
{
    match ring.add(name, key) {
        Ok(_) => Ok(()),
        // The names of a ring differ, so the fault can only be that memory ran out.
        Err(_) => Err(AllocError),
    }
}

// Adds a name that is not there, where there is capacity for it.
fn add_name(names: &mut Roster, node: &Name) -> Result<(), AllocError>
    ensures ok { OnOk result (names.new ≡ names.old ++ node.now ∷ []) }
    ensures err { OnErr result (names.new ≡ names.old) }
{
    match names.add(node) {
        Ok(_) => Ok(()),
        // The name is not there and there is a number for it, so the fault can only be out of memory.
        Err(_) => Err(AllocError),
    }
}
