ghost use Rattle.std.specs.Prelude.{◌≡◌};
ghost use Rattle.script_lang.specs.Reading.{Gives, ReadsForm, left_of};
ghost use Rattle.script_lang.specs.declared.verb.Verb.TheVariants.{Answer, Ask, Block, Claim, Client, Delete};
ghost use Rattle.script_lang.specs.declared.verb.Verb.TheVariants.{Deliver, Dump, Feed, Fetch, Hear, Insert, Lose};
ghost use Rattle.script_lang.specs.declared.verb.Verb.TheVariants.{Mdeliver, Member, Mfetch, Mirror, Order, Publish};
ghost use Rattle.script_lang.specs.declared.verb.Verb.TheVariants.{Status, Told, Watch, Withdraw};
ghost use Rattle.script_lang.specs.Forms.{form, stated};
ghost use Rattle.script_lang.specs.Lines.{are_within, stated_of};

use crate::cursor::Cursor;
use crate::limits::{
    ADVANCE, ANY, BLOCK, BLOCKS, CONTENT, FETCHERS, INJECTION, KEY, LAST_PART, LOSS, NODE_NAME,
    NUMBERS, OBJECT_NAME, SEGMENT, SEGMENTS, TRIES, WORKERS,
};
use crate::line::Line;
use crate::line_fault::LineFault;
use crate::verb::Verb;
use std::alloc::Global;

// Reads the words after the verb as a line of its form.
pub(crate) fn line_of(alloc: Global, verb: Verb, words: Cursor<'_>) -> Result<Line, LineFault>
    ensures { Gives stated result (stated_of verb (left_of (form verb).kinds words.entry)) }
{
    let mut words = words;
    let line = read_form(alloc, verb, &mut words)?;
    words.end()?;
    if are_within(&line) {
        Ok(line)
    } else {
        Err(LineFault::Limit)
    }
}

// Reads the words of the form of `verb`, one after another.
fn read_form(alloc: Global, verb: Verb, words: &mut Cursor<'_>) -> Result<Line, LineFault>
    ensures { ReadsForm verb words.old words.new result }
{
    match verb {
        Verb::Group => Ok(Line::Group {
            name: words.name(alloc, 1, NODE_NAME)?,
        }),
        Verb::Member => member(alloc, words),
        Verb::Client => client(alloc, words),
        Verb::Mirror => mirror(alloc, words),
        Verb::Publish => publish(alloc, words),
        Verb::Withdraw => withdraw(alloc, words),
        Verb::Deliver => deliver(alloc, words),
        Verb::Sync => Ok(Line::Sync {
            k: words.small(1, u32::MAX)?,
        }),
        Verb::Advance => Ok(Line::Advance {
            ms: words.number(0, ADVANCE)?,
        }),
        Verb::Fire => Ok(Line::Fire {
            m: words.label(alloc)?,
        }),
        Verb::Restart => Ok(Line::Restart {
            m: words.label(alloc)?,
        }),
        Verb::Vector => Ok(Line::Vector {
            m: words.label(alloc)?,
        }),
        Verb::Catalogue => Ok(Line::Catalogue {
            m: words.label(alloc)?,
        }),
        Verb::Claim => claim(alloc, words),
        Verb::Lose => lose(alloc, words),
        Verb::Answer => answer(alloc, words),
        Verb::Fetch => fetch(alloc, words),
        Verb::Settle => Ok(Line::Settle {
            workers: words.small(1, WORKERS)?,
        }),
        Verb::Dump => dump(alloc, words),
        Verb::Hear => hear(alloc, words),
        Verb::Order => order(alloc, words),
        Verb::Ask => ask(alloc, words),
        Verb::Feed => feed(alloc, words),
        Verb::Insert => insert(alloc, words),
        Verb::Block => block(alloc, words),
        Verb::Status => status(alloc, words),
        Verb::Delete => delete(alloc, words),
        Verb::Watch => watch(alloc, words),
        Verb::Told => told(alloc, words),
        Verb::Mdeliver => mdeliver(alloc, words),
        Verb::Mfetch => mfetch(alloc, words),
        Verb::Mcatalogue => Ok(Line::Mcatalogue {
            l: words.label(alloc)?,
        }),
        Verb::Summary => Ok(Line::Summary),
        Verb::Traffic => Ok(Line::Traffic),
    }
}

// Each form of more than one word after its verb, in the order of the verbs.

fn member(alloc: Global, words: &mut Cursor<'_>) -> Result<Line, LineFault>
    ensures { ReadsForm Member words.old words.new result }
{
    Ok(Line::Member {
        label: words.label(alloc)?,
        name: words.name(alloc, 1, NODE_NAME)?,
        key: words.hex(alloc, KEY)?,
    })
}

fn client(alloc: Global, words: &mut Cursor<'_>) -> Result<Line, LineFault>
    ensures { ReadsForm Client words.old words.new result }
{
    Ok(Line::Client {
        label: words.label(alloc)?,
        name: words.name(alloc, 1, NODE_NAME)?,
        key: words.hex(alloc, KEY)?,
    })
}

fn mirror(alloc: Global, words: &mut Cursor<'_>) -> Result<Line, LineFault>
    ensures { ReadsForm Mirror words.old words.new result }
{
    Ok(Line::Mirror {
        label: words.label(alloc)?,
        p: words.publisher(alloc)?,
        name: words.name(alloc, 0, OBJECT_NAME)?,
    })
}

fn publish(alloc: Global, words: &mut Cursor<'_>) -> Result<Line, LineFault>
    ensures { ReadsForm Publish words.old words.new result }
{
    Ok(Line::Publish {
        m: words.label(alloc)?,
        name: words.name(alloc, 1, OBJECT_NAME)?,
        size: words.small(1, SEGMENT)?,
        content: words.content(alloc, 0, CONTENT)?,
    })
}

fn withdraw(alloc: Global, words: &mut Cursor<'_>) -> Result<Line, LineFault>
    ensures { ReadsForm Withdraw words.old words.new result }
{
    Ok(Line::Withdraw {
        m: words.label(alloc)?,
        s: words.small(1, NUMBERS)?,
    })
}

fn deliver(alloc: Global, words: &mut Cursor<'_>) -> Result<Line, LineFault>
    ensures { ReadsForm Deliver words.old words.new result }
{
    Ok(Line::Deliver {
        k: words.small(1, u32::MAX)?,
        m: words.label(alloc)?,
    })
}

fn claim(alloc: Global, words: &mut Cursor<'_>) -> Result<Line, LineFault>
    ensures { ReadsForm Claim words.old words.new result }
{
    Ok(Line::Claim {
        m: words.label(alloc)?,
        f: words.small(1, FETCHERS)?,
    })
}

fn lose(alloc: Global, words: &mut Cursor<'_>) -> Result<Line, LineFault>
    ensures { ReadsForm Lose words.old words.new result }
{
    Ok(Line::Lose {
        m: words.label(alloc)?,
        f: words.small(1, FETCHERS)?,
    })
}

fn answer(alloc: Global, words: &mut Cursor<'_>) -> Result<Line, LineFault>
    ensures { ReadsForm Answer words.old words.new result }
{
    Ok(Line::Answer {
        m: words.label(alloc)?,
        f: words.small(1, FETCHERS)?,
        q: words.label(alloc)?,
    })
}

fn fetch(alloc: Global, words: &mut Cursor<'_>) -> Result<Line, LineFault>
    ensures { ReadsForm Fetch words.old words.new result }
{
    Ok(Line::Fetch {
        m: words.label(alloc)?,
        workers: words.small(1, WORKERS)?,
        tries: words.small(1, TRIES)?,
        loss: words.small(0, LOSS)?,
    })
}

fn dump(alloc: Global, words: &mut Cursor<'_>) -> Result<Line, LineFault>
    ensures { ReadsForm Dump words.old words.new result }
{
    Ok(Line::Dump {
        m: words.label(alloc)?,
        p: words.label(alloc)?,
        s: words.small(1, NUMBERS)?,
        x: words.small(0, LAST_PART)?,
    })
}

fn hear(alloc: Global, words: &mut Cursor<'_>) -> Result<Line, LineFault>
    ensures { ReadsForm Hear words.old words.new result }
{
    Ok(Line::Hear {
        m: words.label(alloc)?,
        octets: words.hex(alloc, INJECTION)?,
    })
}

fn order(alloc: Global, words: &mut Cursor<'_>) -> Result<Line, LineFault>
    ensures { ReadsForm Order words.old words.new result }
{
    Ok(Line::Order {
        m: words.label(alloc)?,
        octets: words.hex(alloc, INJECTION)?,
    })
}

fn ask(alloc: Global, words: &mut Cursor<'_>) -> Result<Line, LineFault>
    ensures { ReadsForm Ask words.old words.new result }
{
    Ok(Line::Ask {
        m: words.label(alloc)?,
        octets: words.hex(alloc, INJECTION)?,
    })
}

fn feed(alloc: Global, words: &mut Cursor<'_>) -> Result<Line, LineFault>
    ensures { ReadsForm Feed words.old words.new result }
{
    Ok(Line::Feed {
        m: words.label(alloc)?,
        f: words.small(1, FETCHERS)?,
        octets: words.hex(alloc, INJECTION)?,
    })
}

fn insert(alloc: Global, words: &mut Cursor<'_>) -> Result<Line, LineFault>
    ensures { ReadsForm Insert words.old words.new result }
{
    Ok(Line::Insert {
        m: words.label(alloc)?,
        client: words.label(alloc)?,
        name: words.name(alloc, 1, OBJECT_NAME)?,
        first: words.number(0, ANY)?,
        last: words.number(0, ANY)?,
    })
}

fn block(alloc: Global, words: &mut Cursor<'_>) -> Result<Line, LineFault>
    ensures { ReadsForm Block words.old words.new result }
{
    Ok(Line::Block {
        m: words.label(alloc)?,
        process: words.small(1, u32::MAX)?,
        index: words.number(0, ANY)?,
        content: words.content(alloc, 1, BLOCK)?,
    })
}

fn status(alloc: Global, words: &mut Cursor<'_>) -> Result<Line, LineFault>
    ensures { ReadsForm Status words.old words.new result }
{
    Ok(Line::Status {
        m: words.label(alloc)?,
        client: words.label(alloc)?,
        process: words.small(1, u32::MAX)?,
    })
}

fn delete(alloc: Global, words: &mut Cursor<'_>) -> Result<Line, LineFault>
    ensures { ReadsForm Delete words.old words.new result }
{
    Ok(Line::Delete {
        m: words.label(alloc)?,
        client: words.label(alloc)?,
        name: words.name(alloc, 1, OBJECT_NAME)?,
    })
}

fn watch(alloc: Global, words: &mut Cursor<'_>) -> Result<Line, LineFault>
    ensures { ReadsForm Watch words.old words.new result }
{
    Ok(Line::Watch {
        m: words.label(alloc)?,
        p: words.publisher(alloc)?,
        name: words.name(alloc, 0, OBJECT_NAME)?,
    })
}

fn told(alloc: Global, words: &mut Cursor<'_>) -> Result<Line, LineFault>
    ensures { ReadsForm Told words.old words.new result }
{
    Ok(Line::Told {
        m: words.label(alloc)?,
        w: words.small(1, u32::MAX)?,
    })
}

fn mdeliver(alloc: Global, words: &mut Cursor<'_>) -> Result<Line, LineFault>
    ensures { ReadsForm Mdeliver words.old words.new result }
{
    Ok(Line::Mdeliver {
        k: words.small(1, u32::MAX)?,
        l: words.label(alloc)?,
    })
}

fn mfetch(alloc: Global, words: &mut Cursor<'_>) -> Result<Line, LineFault>
    ensures { ReadsForm Mfetch words.old words.new result }
{
    Ok(Line::Mfetch {
        l: words.label(alloc)?,
        workers: words.small(1, WORKERS)?,
        tries: words.small(1, TRIES)?,
        loss: words.small(0, LOSS)?,
    })
}

// A publication has at most 20,000 segments, an insertion at most 200 blocks.
fn are_within(line: &Line) -> bool
    ensures { result ≡ are_within (stated line.now).verb (stated line.now).values }
{
    match line {
        Line::Publish { size, content, .. } => content.len() as u64 <= SEGMENTS * u64::from(*size),
        Line::Insert { first, last, .. } => first <= last && *last - *first < BLOCKS,
        _ => true,
    }
}
