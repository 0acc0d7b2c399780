ghost use Rattle.std.specs.Prelude.{◌≡◌, IfOk, IfErr};
ghost use Rattle.std.specs.String.{string_bytes};
ghost use Rattle.script_lang.specs.Checking.{has_label, is_party_among, parties_of, party, party_of, party_place};

use crate::check_fault::CheckFault;
use ndn_name::Name;

// A member or a client.
#[derive(Debug, Drop)]
pub(crate) struct Declaration {
    pub(crate) label: String,
    pub(crate) node: Name,
}

impl Declaration {
    pub(crate) fn new(label: &String, node: &Name) -> Result<Declaration, CheckFault>
        ensures ok { IfOk result (λ d. party_of d ≡ party (string_bytes label.now) node.now) }
        ensures err { IfErr result (λ fault. fault ≡ CheckFault.NoMemory) }
    {
        Ok(Declaration {
            label: label.clone()?,
            node: node.clone()?,
        })
    }
}

// The place of the first of `parties` with this label.
pub(crate) fn place_of(label: &str, parties: &[Declaration]) -> Option<usize>
    ensures { result ≡ party_place label.now (parties_of parties.now) }
{
    parties.iter().position(|one| one.label.as_str() == label)
}

// Whether one of `parties` has this label.
pub(crate) fn has_label(label: &str, parties: &[Declaration]) -> bool
    ensures { result ≡ has_label label.now (parties_of parties.now) }
{
    parties.iter().any(|one| one.label.as_str() == label)
}

// Whether one of `parties` has this label or this node name.
pub(crate) fn is_among(label: &str, node: &Name, parties: &[Declaration]) -> bool
    ensures { result ≡ is_party_among (party label.now node.now) (parties_of parties.now) }
{
    parties.iter().any(|one| one.label.as_str() == label || one.node.octets() == node.octets())
}
