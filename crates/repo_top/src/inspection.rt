ghost use Rattle.std.specs.Prelude.{◌≡◌, IfOk};
ghost use Rattle.repo_top.specs.Inspection.{inspect_run, is_space, octets_run, without_spaces};
ghost use Rattle.script_story.specs.ScriptRun.{refused};

use hex::FromHexError;
use script_report::{Refusal, put_refused};
use script_story::Ending;
use std::alloc::{AllocError, Global};

// The most octets of an input.
pub(crate) const MOST_OCTETS: usize = 16_777_216;

// The most octets of a packet.
const MOST_OF_PACKET: usize = 8_800;

// The result of an input: the text, and the end.
#[derive(Drop)]
pub(crate) struct Inspected {
    pub(crate) text: Vec<u8>,
    pub(crate) ending: Ending,
}

// Inspects the octets whose digits the input gives.
#[tactic(auto, unfolding(crate::specs::Inspection::inspect_run))]
pub(crate) fn tell_inspection(alloc: Global, input: Vec<u8>) -> Result<Inspected, AllocError>
    ensures text { IfOk result (λ printed. printed.text.items ≡ (inspect_run input.items).text) }
    ensures ending { IfOk result (λ printed. printed.ending ≡ (inspect_run input.items).ending) }
{
    if input.len() > MOST_OCTETS {
        return refuse(alloc, Refusal::Limit);
    }
    let digits = without_spaces(input);
    match hex::decode(alloc, digits.as_slice()) {
        Ok(octets) => tell_octets(alloc, &octets),
        Err(FromHexError::OutOfMemory) => Err(AllocError),
        Err(_) => refuse(alloc, Refusal::Syntax),
    }
}

// Inspects these octets, or refuses them where they are more than a packet may have.
fn tell_octets(alloc: Global, octets: &[u8]) -> Result<Inspected, AllocError>
    ensures text { IfOk result (λ printed. printed.text.items ≡ (octets_run octets.now).text) }
    ensures ending { IfOk result (λ printed. printed.ending ≡ (octets_run octets.now).ending) }
{
    if octets.len() > MOST_OF_PACKET {
        return refuse(alloc, Refusal::Limit);
    }
    let (text, sound) = ndn_inspect::inspect(alloc, octets)?;
    if sound {
        return Ok(Inspected {
            text,
            ending: Ending::Done,
        });
    }
    let ending = Ending::Refused {
        line: 1,
        number: Refusal::BadPacket.number(),
    };
    Ok(Inspected { text, ending })
}

// The result of an input whose first line is refused.
fn refuse(alloc: Global, refusal: Refusal) -> Result<Inspected, AllocError>
    ensures text { IfOk result (λ printed. printed.text.items ≡ (refused refusal).text) }
    ensures ending { IfOk result (λ printed. printed.ending ≡ (refused refusal).ending) }
{
    let mut text = Vec::new(alloc);
    let number = refusal.number();
    put_refused(&mut text, 1, u64::from(number), refusal.word())?;
    Ok(Inspected {
        text,
        ending: Ending::Refused { line: 1, number },
    })
}

// The input without its spaces, tabs, line feeds and carriage returns.
fn without_spaces(mut input: Vec<u8>) -> Vec<u8>
    ensures { result.items ≡ without_spaces input.items }
{
    input.retain(|octet| !is_space(*octet));
    input
}

fn is_space(octet: u8) -> bool
    ensures { result ≡ is_space octet }
{
    matches!(octet, b' ' | b'\t' | b'\n' | b'\r')
}
