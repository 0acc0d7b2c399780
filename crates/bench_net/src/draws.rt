ghost use Rattle.std.specs.Prelude.{◌≡◌, ℕ};

use std::marker::Model;

/// The random draws of a group's members.
///
/// Each is a function of what the value holds. It can't fail.
pub trait Draws {
    /// The draw, from the same numbers in the same order.
    ghost draw: { Self → ℕ → ℕ → ℕ };

    /// A member's draw of the number `k`, counted from 0.
    fn draw(&self, member: u32, k: u64) -> u32
        ensures { result ≡ draw self.now member k };
}

/// Draws that all give one value. Contracts see them as that value.
#[derive(Clone, Copy, Debug)]
pub struct FixedDraws {
    value: u32,
}

impl Model for FixedDraws {
    ghost Value = { ℕ };

    ghost view = { λ draws. draws.value };

    ghost inverse = { λ value. record { value = value } };
}

impl FixedDraws {
    pub fn new(value: u32) -> FixedDraws
        ensures { result ≡ value }
    {
        FixedDraws { value }
    }
}

impl Draws for FixedDraws {
    ghost draw = { λ value member k. value };

    fn draw(&self, _member: u32, _k: u64) -> u32 {
        self.value
    }
}
