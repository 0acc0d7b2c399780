ghost use Rattle.std.specs.Prelude.{◌≡◌, ◌<◌, ◌≤◌, ◌++◌, Err, OnOk, string_bytes};
ghost use Rattle.repo_top.specs.declared.generator.GenerateError.TheVariants.{Failed, NoMemory};
ghost use Rattle.repo_top.specs.Generator.{deliver_text, drawn, fetch_line, gen_text, member_text, next_state};
ghost use Rattle.repo_top.specs.Generator.{object_text, octet_text, publish_line, texts, turn_text, turns_text};
ghost use Rattle.repo_io.specs.Outside.{GainsText, GainsPrefix, HasRisen};

use repo_io::{Sink, WriteFault, write_whole};
use std::alloc::{AllocError, Global};

// How many members and objects a generated script has, and where its draws begin.
#[derive(Clone, Copy, Debug, PartialEq, Eq)]
pub(crate) struct GeneratorInputs {
    pub(crate) members: u64,
    pub(crate) objects: u64,
    pub(crate) seed: u64,
}

// Why a script was not written whole.
#[derive(Clone, Copy, Debug, PartialEq, Eq)]
pub(crate) enum GenerateError {
    Failed,
    NoMemory,
}

impl From<WriteFault> for GenerateError {
    ghost from_gives = { λ _ fault. fault ≡ Failed };

    fn from(_fault: WriteFault) -> GenerateError {
        GenerateError::Failed
    }
}

impl From<AllocError> for GenerateError {
    ghost from_gives = { λ _ fault. fault ≡ NoMemory };

    fn from(_error: AllocError) -> GenerateError {
        GenerateError::NoMemory
    }
}

// Each call writes its text, or a prefix of it. `line` is a buffer for one line.

// Writes the script line by line.
pub(crate) fn write_script<K: Sink>(
    alloc: Global,
    sink: &mut K,
    measures: GeneratorInputs,
) -> Result<(), GenerateError>
    requires { 0 < measures.members }
    ensures whole { OnOk result (GainsText (K.out sink.old) (K.out sink.new) (gen_text measures)) }
    ensures prefix { GainsPrefix (K.out sink.old) (K.out sink.new) (gen_text measures)
        (result ≡ Err Failed) }
    ensures risen { result ≡ Err Failed → HasRisen (K.faults sink.old) (K.faults sink.new) }
{
    let mut line = String::new(alloc);
    write_line(sink, "group /g\n")?;
    write_members(sink, &mut line, measures.members)?;
    write_objects(sink, &mut line, measures)?;
    write_line(sink, "settle 4\n")?;
    write_line(sink, "summary\n")?;
    Ok(())
}

fn write_members<K: Sink>(
    sink: &mut K,
    line: &mut String,
    members: u64,
) -> Result<(), GenerateError>
    ensures whole { OnOk result (GainsText (K.out sink.old) (K.out sink.new) (texts member_text members)) }
    ensures prefix { GainsPrefix (K.out sink.old) (K.out sink.new) (texts member_text members)
        (result ≡ Err Failed) }
    ensures risen { result ≡ Err Failed → HasRisen (K.faults sink.old) (K.faults sink.new) }
    ensures faults { K.faults sink.old ≤ K.faults sink.new }
{
    for before in 0..members {
        put_member(line, before + 1)?;
        write_line(sink, line)?;
    }
    Ok(())
}

fn write_objects<K: Sink>(
    sink: &mut K,
    line: &mut String,
    measures: GeneratorInputs,
) -> Result<(), GenerateError>
    requires { 0 < measures.members }
    ensures whole { OnOk result (GainsText (K.out sink.old) (K.out sink.new)
        (texts (object_text measures.members measures.seed) measures.objects)) }
    ensures prefix { GainsPrefix (K.out sink.old) (K.out sink.new)
        (texts (object_text measures.members measures.seed) measures.objects) (result ≡ Err Failed) }
    ensures risen { result ≡ Err Failed → HasRisen (K.faults sink.old) (K.faults sink.new) }
    ensures faults { K.faults sink.old ≤ K.faults sink.new }
{
    let mut state = measures.seed;
    for before in 0..measures.objects {
        state = next_state(state);
        write_object(sink, line, measures.members, before + 1, state >> 33)?;
    }
    Ok(())
}

fn next_state(state: u64) -> u64
    ensures { result ≡ next_state state }
{
    state
        .wrapping_mul(6_364_136_223_846_793_005)
        .wrapping_add(1_442_695_040_888_963_407)
}

fn write_object<K: Sink>(
    sink: &mut K,
    line: &mut String,
    members: u64,
    object: u64,
    draw: u64,
) -> Result<(), GenerateError>
    requires { 0 < members }
    ensures whole { OnOk result (GainsText (K.out sink.old) (K.out sink.new)
        (publish_line members object draw ++ turns_text members object)) }
    ensures prefix { GainsPrefix (K.out sink.old) (K.out sink.new)
        (publish_line members object draw ++ turns_text members object) (result ≡ Err Failed) }
    ensures risen { result ≡ Err Failed → HasRisen (K.faults sink.old) (K.faults sink.new) }
    ensures faults { K.faults sink.old ≤ K.faults sink.new }
{
    put_publish(line, members, object, draw)?;
    write_line(sink, line)?;
    write_turns(sink, line, members, object)
}

fn write_turns<K: Sink>(
    sink: &mut K,
    line: &mut String,
    members: u64,
    object: u64,
) -> Result<(), GenerateError>
    ensures whole { OnOk result (GainsText (K.out sink.old) (K.out sink.new) (turns_text members object)) }
    ensures prefix { GainsPrefix (K.out sink.old) (K.out sink.new) (turns_text members object)
        (result ≡ Err Failed) }
    ensures risen { result ≡ Err Failed → HasRisen (K.faults sink.old) (K.faults sink.new) }
    ensures faults { K.faults sink.old ≤ K.faults sink.new }
{
    if object % 10 != 0 {
        return Ok(());
    }
    for before in 0..members {
        write_turn(sink, line, object, before + 1)?;
    }
    Ok(())
}

fn write_turn<K: Sink>(
    sink: &mut K,
    line: &mut String,
    object: u64,
    member: u64,
) -> Result<(), GenerateError>
    ensures whole { OnOk result (GainsText (K.out sink.old) (K.out sink.new) (turn_text object member)) }
    ensures prefix { GainsPrefix (K.out sink.old) (K.out sink.new) (turn_text object member)
        (result ≡ Err Failed) }
    ensures risen { result ≡ Err Failed → HasRisen (K.faults sink.old) (K.faults sink.new) }
    ensures faults { K.faults sink.old ≤ K.faults sink.new }
{
    put_deliver(line, object, member)?;
    write_line(sink, line)?;
    put_fetch(line, member)?;
    write_line(sink, line)
}

fn write_line<K: Sink>(sink: &mut K, line: &str) -> Result<(), GenerateError>
    ensures whole { OnOk result (GainsText (K.out sink.old) (K.out sink.new) line.now) }
    ensures prefix { GainsPrefix (K.out sink.old) (K.out sink.new) line.now
        (result ≡ Err Failed) }
    ensures risen { result ≡ Err Failed → HasRisen (K.faults sink.old) (K.faults sink.new) }
    ensures faults { K.faults sink.old ≤ K.faults sink.new }
{
    write_whole(sink, line.as_bytes())?;
    Ok(())
}

// Each call writes one line into `line`, in place of its text.

#[tactic(auto, unfolding(crate::specs::Generator::member_text))]
fn put_member(line: &mut String, member: u64) -> Result<(), AllocError>
    ensures { OnOk result (string_bytes line.new ≡ member_text member) }
{
    line.clear();
    write!(line, "member m{member} /n/{member} 6b")?;
    put_octet(line, member)?;
    line.push_str("\n")
}

// Appends two digits.
fn put_octet(line: &mut String, octet: u64) -> Result<(), AllocError>
    ensures { OnOk result (string_bytes line.new ≡ string_bytes line.old ++ octet_text octet) }
{
    if octet < 16 {
        line.push_str("0")?;
    }
    write!(line, "{octet:x}")
}

#[tactic(auto, unfolding(crate::specs::Generator::publish_line))]
fn put_publish(line: &mut String, members: u64, object: u64, draw: u64) -> Result<(), AllocError>
    requires { 0 < members }
    ensures { OnOk result (string_bytes line.new ≡ publish_line members object draw) }
{
    let publisher = 1 + draw % members;
    let octets = 100 * (1 + draw / 16 % 5);
    let octet = draw / 128 % 256;
    line.clear();
    write!(
        line,
        "publish m{publisher} /o/{object} 100 fill:{octets}:{octet}\n"
    )
}

#[tactic(auto, unfolding(crate::specs::Generator::deliver_text))]
fn put_deliver(line: &mut String, object: u64, member: u64) -> Result<(), AllocError>
    ensures { OnOk result (string_bytes line.new ≡ deliver_text object member) }
{
    line.clear();
    write!(line, "deliver {object} m{member}\n")
}

#[tactic(auto, unfolding(crate::specs::Generator::fetch_line))]
fn put_fetch(line: &mut String, member: u64) -> Result<(), AllocError>
    ensures { OnOk result (string_bytes line.new ≡ fetch_line member) }
{
    line.clear();
    write!(line, "fetch m{member} 4 3 200\n")
}
