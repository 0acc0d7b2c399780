ghost use Rattle.std.specs.Prelude.{◌≡◌, ◌+◌, ◌≤◌, ◌++◌, length, IfOk, OnOk};
ghost use Rattle.ndn_name.specs.Names.{encoding};
ghost use Rattle.repo_object.specs.Limits.{node_name_limit};
ghost use Rattle.repo_object.specs.Objects.{key_name, record_name, segment_name};

use ndn_name::{NAME_LIMIT, Name, NameFault};
use ndn_tlv::{Reader, types};
use std::alloc::AllocError;

/// How many octets of value the name of a node or a group may have.
pub const NODE_NAME_LIMIT: usize = 200;

/// The name of a node's key, which packets of the node name in their key locators.
pub fn key_name(node: &Name) -> Result<Name, AllocError>
    requires { length (encoding node.now) ≤ node_name_limit }
    ensures { IfOk result (λ name. name ≡ key_name node.now) }
{
    let mut name = node.clone()?;
    name.push(types::GENERIC_NAME_COMPONENT, b"KEY")
        .map_err(NameFault::only_memory)?;
    Ok(name)
}

// The name of the record of publication `seq` of `node` in `group`.
pub(crate) fn record_name(node: &Name, group: &Name, seq: u16) -> Result<Name, AllocError>
    requires node { length (encoding node.now) ≤ node_name_limit }
    requires group { length (encoding group.now) ≤ node_name_limit }
    ensures { IfOk result (λ name. name ≡ record_name node.now group.now seq) }
{
    let mut name = node.clone()?;
    append(&mut name, group)?;
    name.push_number(types::SEQUENCE_NUM_NAME_COMPONENT, u64::from(seq))
        .map_err(NameFault::only_memory)?;
    Ok(name)
}

// The name of a segment, made of its object's name, or of an index packet, made of its record's name.
pub(crate) fn segment_name(mut name: Name, i: u16) -> Result<Name, AllocError>
    requires { length (encoding name) ≤ 404 }
    ensures { IfOk result (λ numbered. numbered ≡ segment_name name i) }
{
    name.push_number(types::SEGMENT_NAME_COMPONENT, u64::from(i))
        .map_err(NameFault::only_memory)?;
    Ok(name)
}

// Appends the components of the name `more`.
fn append(name: &mut Name, more: &Name) -> Result<(), AllocError>
    requires { length (encoding name.old) + length (encoding more.now) ≤ NAME_LIMIT }
    ensures { OnOk result (name.new ≡ name.old ++ more.now) }
{
    let mut components = Reader::new(more.octets(), 0);
    while let Ok(Some(component)) = components.next() {
        name.push(component.typ as u16, component.value)
            .map_err(NameFault::only_memory)?;
    }
    Ok(())
}
