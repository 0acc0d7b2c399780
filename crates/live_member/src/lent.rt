ghost use Rattle.std.specs.Prelude.{◌≡◌};
ghost use Rattle.live_member.specs.Reports.{loan, IsLoan};

use crate::lists::Lists;
use repo_plan::Part;
use std::marker::{Model, PhantomData};

/// A part of a publication of the lists, with a copy of its packet. The publisher lends it to a member that claims the
/// part.
#[derive(Drop)]
pub struct Lent<L: Lists> {
    part: Part,
    octets: Vec<u8>,
    of: PhantomData<L>,
}

impl<L: Lists> Model for Lent<L> {
    ghost use Rattle.live_member.specs.Reports.{Loan, loan, IsLoan};

    ghost Value = { Loan };

    ghost view = { λ l. loan l.part l.octets.items };

    ghost invariant = { λ l. IsLoan L.meaning (loan l.part l.octets.items) };
}

impl<L: Lists> Lent<L> {
    pub(crate) fn new(part: Part, octets: Vec<u8>) -> Lent<L>
        requires { IsLoan L.meaning (loan part octets.items) }
        ensures { result ≡ loan part octets.items }
    {
        Lent {
            part,
            octets,
            of: PhantomData,
        }
    }

    pub fn part(&self) -> Part
        ensures part { result ≡ self.now.part }
        ensures lent { IsLoan L.meaning self.now }
    {
        self.part
    }

    pub fn octets(&self) -> &[u8]
        ensures { result.now ≡ self.now.octets }
    {
        self.octets.as_slice()
    }
}
