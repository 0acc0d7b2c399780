ghost use Rattle.std.specs.Prelude.{◌≡◌, ℕ, Option};

// What an attempt at an item of a board is. Threads see only this trait, and not that values borrow.
pub(crate) trait Trial {
    type Value: Send + Drop;

    ghost can: { Self → ℕ → ℕ → Type 0 };

    ghost packet_at: { Self → ℕ → ℕ → Option Self.Value };

    // The result of an attempt at the item, after `before` other attempts.
    fn attempt(&self, item: usize, before: u32) -> Option<Self::Value>
        requires { can self.now item before }
        ensures { result ≡ packet_at self.now item before };
}
