use std::marker::Brand;

/// A type that stands for a group, for what each of its members is to publish, and for the one value of all draws of
/// each member. All values of one run carry the same such type. Each call of a program picks what it means.
pub trait Lists {
    ghost use Rattle.live_member.specs.Meanings.{Meaning};

    ghost meaning: { Meaning };
}

impl Lists for Brand {
    ghost use Rattle.live_member.specs.Meanings.{no_meaning};

    ghost meaning = { no_meaning };
}
