use ndn_name::Name;
use std::marker::Model;

/// An object whose blocks were all received: its name, and the blocks in order of index.
#[derive(Debug, Drop)]
pub struct Blocks {
    pub name: Name,
    pub contents: Vec<Vec<u8>>,
}

// A `Blocks` is seen as a name and a list of contents.
impl Model for Blocks {
    ghost use Rattle.std.specs.Prelude.{map};
    ghost use Rattle.repo_object.specs.Objects.{NamedContents};

    ghost Value = { NamedContents };

    ghost view = { λ b. record { name = b.name; contents = map (λ c. c.items) b.contents.items } };
}
