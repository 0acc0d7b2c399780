ghost use Rattle.std.specs.Prelude.{◌≡◌, ◌==◌};

use crate::net::Net;
use std::marker::Model;

/// The network that passes each part's attempt of one number, and no other. Contracts see it as that number.
#[derive(Clone, Copy, Debug)]
pub struct TableNet {
    pass: u32,
}

impl Model for TableNet {
    ghost use Rattle.std.specs.Prelude.{ℕ};

    ghost Value = { ℕ };

    ghost view = { λ net. net.pass };

    ghost inverse = { λ pass. record { pass = pass } };
}

impl TableNet {
    pub fn new(pass: u32) -> TableNet
        ensures { result ≡ pass }
    {
        TableNet { pass }
    }
}

impl Net for TableNet {
    ghost passes = { λ pass asker publisher seq part attempt loss. attempt == pass };

    fn passes(
        &self,
        _asker: u32,
        _publisher: u32,
        _seq: u32,
        _part: u32,
        attempt: u32,
        _loss: u32,
    ) -> bool {
        attempt == self.pass
    }
}
