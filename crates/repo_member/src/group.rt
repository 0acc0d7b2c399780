ghost use Rattle.std.specs.Prelude.{◌≡◌, ◌≤◌, ◌↔◌, true, false, length, MatchResult, IfOk, OnOk, OnErr, Ok, Err};
ghost use Rattle.repo_member.specs.Groups.{IsPlainNodeName, IsKey, IsGroup, HaveKeys, is_name_taken, node_limit};
ghost use Rattle.repo_member.specs.Groups.{no_nodes, with_node};
ghost use Rattle.repo_member.specs.Verdicts.{group_verdict};

use crate::group_fault::GroupFault;
use crate::nodes::Nodes;
use ndn_name::Name;
use ndn_sign::KeyRing;
use std::alloc::{AllocError, Global};
use std::marker::Model;
use svs_sync::{SyncRefusal, check_numbers};
use svs_vector::{MEMBER_LIMIT, Roster, VectorNumbers};

/// How many clients a group may have.
const CLIENT_LIMIT: usize = MEMBER_LIMIT;

/// A group of repositories: its name, the node names and keys of its members, and those of the clients whose commands
/// they take.
///
/// Members and clients are numbered from 0, each kind by itself. No two of them have the same name.
pub struct Group {
    name: Name,
    members: Nodes,
    clients: Nodes,
}

// A group is dropped by one call, which is proved once, and not field by field wherever one goes out of scope.
impl Drop for Group {
    fn drop(self) {
        let Group {
            name: _,
            members: _,
            clients: _,
        } = self;
    }
}

impl Model for Group {
    ghost use Rattle.repo_member.specs.Groups.{GroupKeys};

    ghost Value = { GroupKeys };

    ghost use Rattle.repo_member.specs.Groups.{GroupIsNamed};

    ghost view = { λ group. record { name = group.name; members = group.members; clients = group.clients } };

    ghost invariant = { λ group. GroupIsNamed
        (record { name = group.name; members = group.members; clients = group.clients }) };
}

impl Group {
    /// A group of this name without members and clients.
    pub fn new(alloc: Global, name: &Name) -> Result<Group, AllocError>
        requires { IsPlainNodeName name.now }
        ensures { IfOk result (λ group.
            group ≡ record { name = name.now; members = no_nodes; clients = no_nodes }) }
    {
        Ok(Group {
            name: name.clone()?,
            members: Nodes::new(alloc),
            clients: Nodes::new(alloc),
        })
    }

    /// Adds a member, and gives its number.
    ///
    /// The member signs its packets with the key, under the name `node` with the component `KEY`.
    pub fn add_member(&mut self, node: &Name, key: &[u8]) -> Result<u32, GroupFault>
        requires node { IsPlainNodeName node.now }
        requires key { IsKey key.now }
        ensures number { IfOk result (λ number. number ≡ length self.old.members.names) }
        ensures ok { OnOk result
            (self.new ≡ record self.old { members = with_node node.now key.now self.old.members }) }
        ensures duplicate { (result ≡ Err GroupFault.Duplicate) ↔ (is_name_taken self.old node.now ≡ true) }
        ensures full { (result ≡ Err GroupFault.Full)
            ↔ ((is_name_taken self.old node.now ≡ false) × (node_limit ≤ length self.old.members.names)) }
        ensures err { OnErr result (self.new ≡ self.old) }
    {
        if self.is_taken(node) {
            return Err(GroupFault::Duplicate);
        }
        let number = self.members.names().len();
        if number >= MEMBER_LIMIT {
            return Err(GroupFault::Full);
        }
        self.members.add(node, key)?;
        Ok(number as u32)
    }

    /// Adds a client, and gives its number among the clients.
    ///
    /// The client signs its commands with the key, under the name `node` with the component `KEY`.
    pub fn add_client(&mut self, node: &Name, key: &[u8]) -> Result<u32, GroupFault>
        requires node { IsPlainNodeName node.now }
        requires key { IsKey key.now }
        ensures number { IfOk result (λ number. number ≡ length self.old.clients.names) }
        ensures ok { OnOk result
            (self.new ≡ record self.old { clients = with_node node.now key.now self.old.clients }) }
        ensures duplicate { (result ≡ Err GroupFault.Duplicate) ↔ (is_name_taken self.old node.now ≡ true) }
        ensures full { (result ≡ Err GroupFault.Full)
            ↔ ((is_name_taken self.old node.now ≡ false) × (node_limit ≤ length self.old.clients.names)) }
        ensures err { OnErr result (self.new ≡ self.old) }
    {
        if self.is_taken(node) {
            return Err(GroupFault::Duplicate);
        }
        let number = self.clients.names().len();
        if number >= CLIENT_LIMIT {
            return Err(GroupFault::Full);
        }
        self.clients.add(node, key)?;
        Ok(number as u32)
    }

    /// What holds of every group. Costs nothing, and is called for its clause.
    pub fn cite_soundness(&self)
        ensures { IsGroup self.now }
    {
        self.members.cite_soundness();
        self.clients.cite_soundness();
    }

    /// The members' names.
    pub fn roster(&self) -> &Roster
        ensures names { result.now ≡ self.now.members.names }
    {
        self.members.names()
    }

    /// The members' keys: that of member `number` has that number.
    pub fn members(&self) -> &KeyRing
        ensures ring { result.now ≡ self.now.members.ring }
        ensures keys { HaveKeys self.now.members }
    {
        self.members.ring()
    }

    /// The clients' names.
    pub fn client_names(&self) -> &Roster
        ensures names { result.now ≡ self.now.clients.names }
    {
        self.clients.names()
    }

    /// The clients' keys: that of client `number` has that number.
    pub fn clients(&self) -> &KeyRing
        ensures { result.now ≡ self.now.clients.ring }
    {
        self.clients.ring()
    }

    pub fn name(&self) -> &Name
        ensures { result.now ≡ self.now.name }
    {
        &self.name
    }

    /// The number of the member that signed a sync Interest of the group, and the numbers of its vector. It takes no
    /// memory.
    pub(crate) fn check_numbers(&self, octets: &[u8]) -> Result<(u32, VectorNumbers), SyncRefusal>
        ensures verdict { MatchResult result
            (λ received. group_verdict self.now octets.now ≡ Ok (received.0, received.1))
            (λ refusal. group_verdict self.now octets.now ≡ Err refusal) }
        ensures width { IfOk result (λ received. length received.1 ≡ length self.now.members.names) }
        ensures members { IfOk result (λ received. length received.1 ≤ node_limit) }
    {
        check_numbers(octets, &self.name, self.roster(), self.members())
    }

    // Whether a member or a client has the name.
    fn is_taken(&self, node: &Name) -> bool
        ensures { result ≡ is_name_taken self.now node.now }
    {
        let name = node.view();
        self.members.names().find(&name).is_some() || self.clients.names().find(&name).is_some()
    }
}
