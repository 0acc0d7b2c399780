ghost use Rattle.std.specs.Prelude.{◌≡◌, ◌∷◌, [], true};
ghost use Rattle.std.specs.Option.{option_map};
ghost use Rattle.script_lang.specs.Forms.{publisher_value, stated};
ghost use Rattle.script_lang.specs.Checking.{are_known, are_members, has_label, is_mirror, labels_in};
ghost use Rattle.bench_world.specs.EventValues.{event_value};
ghost use Rattle.script_story.specs.StatedEvents.{mirror_number, party_number, pattern_for, publisher_number};
ghost use Rattle.script_story.specs.StatedEvents.{stated_event};
ghost use Rattle.script_story.specs.StatedEvents.{stated_of_commands, stated_of_group, stated_of_insertions};
ghost use Rattle.script_story.specs.StatedEvents.{stated_of_packets};
ghost use Rattle.script_story.specs.StatedEvents.{stated_of_parts};

use bench_world::Event;
use ndn_name::Name;
use repo_watch::Pattern;
use script_lang::{Line, Words};

// The event that a line states, whose labels are declared; none of a declaration or a line of watchers or mirrors.
//
// There is a function for each kind of lines, which passes a line of another kind on to the next function: to prove one
// function over all lines takes minutes.
pub(crate) fn event_of_line(words: &Words, line: Line) -> Option<Event>
    requires { are_known words.now (stated line) ≡ true }
    ensures { option_map event_value result ≡ stated_event words.now (stated line) }
{
    let event = match line {
        Line::Publish {
            m,
            name,
            size,
            content,
        } => Event::Publish {
            m: member(words, &m),
            name,
            size,
            content,
        },
        Line::Withdraw { m, s } => Event::Withdraw {
            m: member(words, &m),
            s,
        },
        Line::Deliver { k, m } => Event::Deliver {
            k,
            m: member(words, &m),
        },
        Line::Sync { k } => Event::Sync { k },
        Line::Advance { ms } => Event::Advance { ms },
        Line::Fire { m } => Event::Fire {
            m: member(words, &m),
        },
        Line::Restart { m } => Event::Restart {
            m: member(words, &m),
        },
        line => return stated_of_group(words, line),
    };
    Some(event)
}

// The event of a line that asks what members have or is of the whole group, or of a kind of `stated_of_parts`.
fn stated_of_group(words: &Words, line: Line) -> Option<Event>
    requires { are_known words.now (stated line) ≡ true }
    ensures { option_map event_value result ≡ stated_of_group (stated line).verb words.now (stated line).values }
{
    let event = match line {
        Line::Vector { m } => Event::Vector {
            m: member(words, &m),
        },
        Line::Catalogue { m } => Event::Catalogue {
            m: member(words, &m),
        },
        Line::Settle { workers } => Event::Settle { workers },
        Line::Summary => Event::Summary,
        Line::Traffic => Event::Traffic,
        line => return stated_of_parts(words, line),
    };
    Some(event)
}

// The event of a line of parts that are claimed, or of a kind of `stated_of_packets`.
fn stated_of_parts(words: &Words, line: Line) -> Option<Event>
    requires { are_known words.now (stated line) ≡ true }
    ensures { option_map event_value result ≡ stated_of_parts (stated line).verb words.now (stated line).values }
{
    let event = match line {
        Line::Claim { m, f } => Event::Claim {
            m: member(words, &m),
            f,
        },
        Line::Lose { m, f } => Event::Lose {
            m: member(words, &m),
            f,
        },
        Line::Answer { m, f, q } => Event::Answer {
            m: member(words, &m),
            f,
            q: member(words, &q),
        },
        line => return stated_of_packets(words, line),
    };
    Some(event)
}

// The event of a line that fetches, or gives a packet or asks for one, or of a kind of `stated_of_insertions`.
fn stated_of_packets(words: &Words, line: Line) -> Option<Event>
    requires { are_known words.now (stated line) ≡ true }
    ensures { option_map event_value result ≡ stated_of_packets (stated line).verb words.now (stated line).values }
{
    let event = match line {
        Line::Fetch {
            m,
            workers,
            tries,
            loss,
        } => Event::Fetch {
            m: member(words, &m),
            workers,
            tries,
            loss,
        },
        Line::Dump { m, p, s, x } => Event::Dump {
            m: member(words, &m),
            p: member(words, &p),
            s,
            x,
        },
        Line::Hear { m, octets } => Event::Hear {
            m: member(words, &m),
            octets,
        },
        Line::Ask { m, octets } => Event::Ask {
            m: member(words, &m),
            octets,
        },
        Line::Feed { m, f, octets } => Event::Feed {
            m: member(words, &m),
            f,
            octets,
        },
        line => return stated_of_insertions(words, line),
    };
    Some(event)
}

// The event of a line of an insertion and its blocks, or of a kind of `stated_of_commands`.
fn stated_of_insertions(words: &Words, line: Line) -> Option<Event>
    requires { are_known words.now (stated line) ≡ true }
    ensures { option_map event_value result ≡ stated_of_insertions (stated line).verb words.now (stated line).values }
{
    let event = match line {
        Line::Insert {
            m,
            client: label,
            name,
            first,
            last,
        } => Event::Insert {
            m: member(words, &m),
            client: client(words, &label),
            name,
            first,
            last,
        },
        Line::Block {
            m,
            process,
            index,
            content,
        } => Event::Block {
            m: member(words, &m),
            process,
            index,
            content,
        },
        Line::Status {
            m,
            client: label,
            process,
        } => Event::Status {
            m: member(words, &m),
            client: client(words, &label),
            process,
        },
        line => return stated_of_commands(words, line),
    };
    Some(event)
}

// The event of a line that gives a command as octets or deletes; none of any other line.
fn stated_of_commands(words: &Words, line: Line) -> Option<Event>
    requires { are_known words.now (stated line) ≡ true }
    ensures { option_map event_value result ≡ stated_of_commands (stated line).verb words.now (stated line).values }
{
    let event = match line {
        Line::Order { m, octets } => Event::Order {
            m: member(words, &m),
            octets,
        },
        Line::Delete {
            m,
            client: label,
            name,
        } => Event::Delete {
            m: member(words, &m),
            client: client(words, &label),
            name,
        },
        _ => return None,
    };
    Some(event)
}

// What a watcher or a mirror asks for: the publisher of a label, or every one, and the prefix of names.
pub(crate) fn pattern(words: &Words, p: &Option<String>, prefix: Name) -> Pattern
    requires { are_members words.now (labels_in (publisher_value p.now ∷ [])) ≡ true }
    ensures { result ≡ pattern_for (publisher_number words.now (publisher_value p.now)) prefix }
{
    let publisher = match p {
        Some(label) => Some(member(words, label)),
        None => None,
    };
    Pattern { publisher, prefix }
}

// The number of the member with this label.
pub(crate) fn member(words: &Words, label: &str) -> u32
    requires { has_label label.now words.now.members ≡ true }
    ensures { result ≡ party_number label.now words.now.members }
{
    words.member(label).unwrap()
}

// The number of the client with this label.
fn client(words: &Words, label: &str) -> u32
    requires { has_label label.now words.now.clients ≡ true }
    ensures { result ≡ party_number label.now words.now.clients }
{
    words.client(label).unwrap()
}

// The number of the mirror with this label.
pub(crate) fn mirror(words: &Words, label: &str) -> u32
    requires { is_mirror label.now words.now.mirrors ≡ true }
    ensures { result ≡ mirror_number label.now words.now.mirrors }
{
    words.mirror(label).unwrap()
}
