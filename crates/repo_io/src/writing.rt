ghost use Rattle.std.specs.Prelude.{◌<◌, ◌≤◌, length, take, IfErr, OnOk, OnErr};
ghost use Rattle.repo_io.specs.Outside.{GainsText, HasRisen};

use crate::sink::Sink;

/// A text was not written whole: its first `written` octets were, and the next was not.
#[derive(Clone, Copy, Debug, PartialEq, Eq)]
pub struct WriteFault {
    pub written: usize,
}

/// Writes the text whole, or a prefix of it.
pub fn write_whole<K: Sink>(sink: &mut K, text: &[u8]) -> Result<(), WriteFault>
    ensures whole { OnOk result (GainsText (K.out sink.old) (K.out sink.new) text.now) }
    ensures prefix { IfErr result (λ fault.
        GainsText (K.out sink.old) (K.out sink.new) (take fault.written text.now)) }
    ensures missing { IfErr result (λ fault. fault.written < length text.now) }
    ensures risen { OnErr result (HasRisen (K.faults sink.old) (K.faults sink.new)) }
    ensures faults { K.faults sink.old ≤ K.faults sink.new }
{
    let mut written = 0;
    while written < text.len() {
        let Ok(taken) = sink.write(&text[written..]) else {
            return Err(WriteFault { written });
        };
        if taken == 0 {
            return Err(WriteFault { written });
        }
        written += taken;
    }
    Ok(())
}
