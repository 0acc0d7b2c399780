// How the value of a component is written after an equals sign, and the component's type.
#[derive(Clone, Copy, Debug)]
pub(crate) enum Form {
    Digest(u16),
    Number(u16),
    Escaped(u16),
}

// The value of a component, as its text has it.
#[derive(Debug, Drop)]
pub(crate) enum PartValue {
    Octets(Vec<u8>),
    Number(u64),
}

// A component of a text, and the place where its own text begins.
#[derive(Debug, Drop)]
pub(crate) struct UriPart {
    pub(crate) at: usize,
    pub(crate) typ: u16,
    pub(crate) value: PartValue,
}

impl PartValue {
    ghost use Rattle.std.specs.Prelude.{◌≡◌, ◌==◌, length};
    ghost use Rattle.ndn_name.specs.UriReading.{value_octets};

    // Whether the value has as many octets as a digest.
    pub(crate) fn is_digest(&self) -> bool
        ensures { result ≡ (length (value_octets self.now) == 32) }
    {
        match self {
            PartValue::Octets(value) => value.len() == 32,
            PartValue::Number(_) => false,
        }
    }
}
