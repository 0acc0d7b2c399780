/// A gate that each actor passes before each locked call. Threads share it.
pub trait Gate {
    fn at(&self, member: u32, actor: u32);
}

/// A gate that lets every actor pass at once.
#[derive(Clone, Copy, Debug, Default)]
pub struct OpenGate;

impl OpenGate {
    pub fn new() -> OpenGate {
        OpenGate
    }
}

impl Gate for OpenGate {
    fn at(&self, _member: u32, _actor: u32) {}
}
