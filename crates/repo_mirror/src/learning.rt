// What a mirror hears.
ghost use Rattle.std.specs.Prelude.{◌≡◌, ◌≤◌, length, if◌then◌else◌};
ghost use Rattle.svs_vector.specs.Vectors.{join};
ghost use Rattle.repo_watch.specs.Patterns.{is_publisher};
ghost use Rattle.repo_mirror.specs.Asked.{asked_numbers};

use repo_holdings::Holdings;
use svs_vector::Vector;

// Joins `received` to the mirror's vector. Its holdings have the numbers of the publishers that are asked.
pub(crate) fn learn(asked: Option<u32>, vector: &mut Vector, held: &mut Holdings, received: &Vector)
    requires width { length received.now ≡ length vector.old }
    requires few { length received.now ≤ 16 }
    requires known { held.old.known ≡ asked_numbers asked 0 vector.old }
    ensures vector { vector.new ≡ join vector.old received.now }
    ensures width { length vector.new ≡ length vector.old }
    ensures held { held.new ≡ record held.old { known = asked_numbers asked 0 (join vector.old received.now) } }
{
    for member in 0..received.members() as u32 {
        let number = asked_number(asked, member, received.get(member));
        held.raise(member, number);
    }
    vector.join(received);
}

// The number of a publisher that is asked, and 0 of another.
fn asked_number(asked: Option<u32>, publisher: u32, number: u16) -> u16
    ensures { result ≡ (if is_publisher asked publisher then number else 0) }
{
    match asked {
        Some(one) if one != publisher => 0,
        _ => number,
    }
}
