ghost use Rattle.std.specs.Prelude.{◌≡◌, ◌≤◌, length, IfOk};
ghost use Rattle.ndn_name.specs.Names.{encoding};
ghost use Rattle.repo_command.specs.Verbs.{verb_text, between, is_command_name, verb_in, command_name};

use ndn_name::{Name, NameFault, NameView};
use ndn_tlv::types;
use repo_object::NODE_NAME_LIMIT;
use std::alloc::AllocError;

/// The verbs of commands.
#[derive(Clone, Copy, Debug)]
pub(crate) enum Verb {
    Insert,
    Check,
    Delete,
}

impl Verb {
    // What the verb's component says.
    fn text(self) -> &'static [u8]
        ensures { result.now ≡ verb_text self }
    {
        match self {
            Verb::Insert => b"insert",
            Verb::Check => b"check",
            Verb::Delete => b"delete",
        }
    }

    // What stands between the node's name and the octets of the parameters digest: the verb's component, and the head
    // of the digest's.
    fn between(self) -> &'static [u8]
        ensures { result.now ≡ between self }
    {
        match self {
            Verb::Insert => b"\x08\x06insert\x02\x20",
            Verb::Check => b"\x08\x05check\x02\x20",
            Verb::Delete => b"\x08\x06delete\x02\x20",
        }
    }
}

// The name of a command for the node, without the parameters digest.
pub(crate) fn command_name(node: &Name, verb: Verb) -> Result<Name, AllocError>
    requires { length (encoding node.now) ≤ NODE_NAME_LIMIT }
    ensures { IfOk result (λ name. name ≡ command_name node.now verb) }
{
    let mut name = node.clone()?;
    name.push(types::GENERIC_NAME_COMPONENT, verb.text())
        .map_err(NameFault::only_memory)?;
    Ok(name)
}

// The verb of a command for the node that has this name.
pub(crate) fn verb_in(name: &NameView<'_>, node: &Name) -> Option<Verb>
    ensures { result ≡ verb_in node.now name.now }
{
    if is_command_name(name, node, Verb::Insert) {
        Some(Verb::Insert)
    } else if is_command_name(name, node, Verb::Check) {
        Some(Verb::Check)
    } else if is_command_name(name, node, Verb::Delete) {
        Some(Verb::Delete)
    } else {
        None
    }
}

// Whether the name is that of a command of this verb for the node, with a parameters digest after it.
fn is_command_name(name: &NameView<'_>, node: &Name, verb: Verb) -> bool
    ensures { result ≡ is_command_name node.now verb name.now }
{
    let Some(after) = name.octets().strip_prefix(node.octets()) else {
        return false;
    };
    match after.strip_prefix(verb.between()) {
        Some(digest) => digest.len() == 32,
        None => false,
    }
}
