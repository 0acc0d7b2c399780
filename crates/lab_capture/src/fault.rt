use std::alloc::AllocError;

/// Why octets were not read as a capture.
#[derive(Clone, Copy, Debug, PartialEq, Eq)]
pub enum CaptureFault {
    /// The octets are no capture of whole frames between stations.
    NoCapture,
    NoMemory,
}

impl From<AllocError> for CaptureFault {
    ghost use Rattle.std.specs.Prelude.{◌≡◌};
    ghost use Rattle.lab_capture.specs.declared.fault.CaptureFault.TheVariants.{NoMemory};

    ghost from_gives = { λ _ fault. fault ≡ NoMemory };

    fn from(_: AllocError) -> CaptureFault {
        CaptureFault::NoMemory
    }
}
