ghost use Rattle.std.specs.Prelude.{◌≡◌, [], ◌∷◌, false, map};
ghost use Rattle.std.specs.String.{string_bytes};
ghost use Rattle.script_lang.specs.Forms.{publisher_value, stated};
ghost use Rattle.script_lang.specs.Checking.{Declared, are_known_by, are_members, declares, labels_in, parties_of};

use crate::declaration::{Declaration, has_label};
use crate::line::Line;
use crate::mirror::is_mirror;

// Whether each label of an event line is declared: as a member, a client or a mirror, as the form of the line has it.
pub(crate) fn are_known(
    members: &[Declaration],
    clients: &[Declaration],
    mirrors: &[String],
    line: &Line,
) -> bool
    requires { declares (stated line.now).verb ≡ false }
    ensures { (d : Declared)
        → d.members ≡ parties_of members.now
        → d.clients ≡ parties_of clients.now
        → d.mirrors ≡ map string_bytes mirrors.now
        → result ≡ are_known_by (stated line.now).verb d (labels_in (stated line.now).values) }
{
    match line {
        Line::Insert { m, client, .. }
        | Line::Status { m, client, .. }
        | Line::Delete { m, client, .. } => has_label(m, members) && has_label(client, clients),
        Line::Answer { m, q: other, .. }
        | Line::Dump { m, p: other, .. }
        | Line::Watch {
            m,
            p: Some(other),
            ..
        } => has_label(m, members) && has_label(other, members),
        Line::Publish { m, .. }
        | Line::Withdraw { m, .. }
        | Line::Deliver { m, .. }
        | Line::Fire { m }
        | Line::Restart { m }
        | Line::Vector { m }
        | Line::Catalogue { m }
        | Line::Claim { m, .. }
        | Line::Lose { m, .. }
        | Line::Fetch { m, .. }
        | Line::Hear { m, .. }
        | Line::Order { m, .. }
        | Line::Ask { m, .. }
        | Line::Feed { m, .. }
        | Line::Block { m, .. }
        | Line::Watch { m, p: None, .. }
        | Line::Told { m, .. } => has_label(m, members),
        Line::Mdeliver { l, .. } | Line::Mfetch { l, .. } | Line::Mcatalogue { l } => {
            is_mirror(l, mirrors)
        }
        Line::Sync { .. }
        | Line::Advance { .. }
        | Line::Settle { .. }
        | Line::Summary
        | Line::Traffic => true,
        Line::Group { .. } | Line::Member { .. } | Line::Client { .. } | Line::Mirror { .. } => {
            unreachable!()
        }
    }
}

// Whether a publisher is the label of a member, or `None`, which stands for every publisher.
pub(crate) fn is_publisher(p: &Option<String>, members: &[Declaration]) -> bool
    ensures { (d : Declared)
        → d.members ≡ parties_of members.now
        → result ≡ are_members d (labels_in (publisher_value p.now ∷ [])) }
{
    match p {
        Some(label) => has_label(label, members),
        None => true,
    }
}
