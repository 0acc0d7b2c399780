/// A component of a name, whose value is lent from a packet's octets.
#[derive(Clone, Copy, Debug, PartialEq, Eq)]
pub struct ComponentView<'p> {
    pub typ: u16,
    pub value: &'p [u8],
}
