// Lines as they are printed from their values.
use ndn_name::Name;
use script_lang::*;
use std::alloc::{AllocError, Global};
use std::fmt::Write;

// What a line is read as: `-` says nothing, and `!` stands before why it is no line.
pub(super) fn put_told(
    alloc: Global,
    out: &mut String,
    read: &Result<Option<Line>, LineFault>,
) -> Result<(), AllocError> {
    match read {
        Ok(None) => out.push_str("-"),
        Ok(Some(line)) => put_line(alloc, out, line),
        Err(LineFault::Syntax) => out.push_str("!Syntax"),
        Err(LineFault::Limit) => out.push_str("!Limit"),
        Err(LineFault::NoMemory) => Err(AllocError),
    }
}

// A line as it is printed from its values: those with a name or octets, and the others.
fn put_line(alloc: Global, out: &mut String, line: &Line) -> Result<(), AllocError> {
    match line {
        Line::Group { name } => put_named(alloc, out, "group", name),
        Line::Member { label, name, key } => put_party(alloc, out, ("member", label), name, key),
        Line::Client { label, name, key } => put_party(alloc, out, ("client", label), name, key),
        Line::Publish {
            m,
            name,
            size,
            content,
        } => put_publication(alloc, out, m, name, *size, content),
        Line::Mirror { label, p, name } => put_pattern(alloc, out, ("mirror", label), p, name),
        Line::Watch { m, p, name } => put_pattern(alloc, out, ("watch", m), p, name),
        Line::Hear { m, octets } => put_given(out, ("hear", m), octets),
        Line::Order { m, octets } => put_given(out, ("order", m), octets),
        Line::Ask { m, octets } => put_given(out, ("ask", m), octets),
        Line::Feed { m, f, octets } => put_fed(out, m, *f, octets),
        Line::Insert {
            m,
            client,
            name,
            first,
            last,
        } => put_insertion(alloc, out, (m, client), name, (*first, *last)),
        Line::Block {
            m,
            process,
            index,
            content,
        } => put_block(out, m, (*process, *index), content),
        Line::Delete { m, client, name } => put_deletion(alloc, out, (m, client), name),
        _ => put_plain(out, line),
    }
}

fn put_plain(out: &mut String, line: &Line) -> Result<(), AllocError> {
    match line {
        Line::Deliver { k, m } => write!(out, "deliver {k} {m}"),
        Line::Sync { k } => write!(out, "sync {k}"),
        Line::Advance { ms } => write!(out, "advance {ms}"),
        Line::Withdraw { m, s } => put_labelled(out, "withdraw", m, &[*s]),
        Line::Fire { m } => put_labelled(out, "fire", m, &[]),
        Line::Restart { m } => put_labelled(out, "restart", m, &[]),
        Line::Vector { m } => put_labelled(out, "vector", m, &[]),
        Line::Catalogue { m } => put_labelled(out, "catalogue", m, &[]),
        Line::Claim { m, f } => put_labelled(out, "claim", m, &[*f]),
        Line::Lose { m, f } => put_labelled(out, "lose", m, &[*f]),
        Line::Answer { m, f, q } => write!(out, "answer {m} {f} {q}"),
        Line::Fetch {
            m,
            workers,
            tries,
            loss,
        } => put_labelled(out, "fetch", m, &[*workers, *tries, *loss]),
        Line::Settle { workers } => write!(out, "settle {workers}"),
        Line::Dump { m, p, s, x } => write!(out, "dump {m} {p} {s} {x}"),
        Line::Status { m, client, process } => write!(out, "status {m} {client} {process}"),
        Line::Told { m, w } => put_labelled(out, "told", m, &[*w]),
        Line::Mdeliver { k, l } => write!(out, "mdeliver {k} {l}"),
        Line::Mfetch {
            l,
            workers,
            tries,
            loss,
        } => put_labelled(out, "mfetch", l, &[*workers, *tries, *loss]),
        Line::Mcatalogue { l } => put_labelled(out, "mcatalogue", l, &[]),
        Line::Summary => out.push_str("summary"),
        Line::Traffic => out.push_str("traffic"),
        _ => out.push_str("no plain line"),
    }
}

fn put_labelled(
    out: &mut String,
    verb: &str,
    label: &str,
    numbers: &[u32],
) -> Result<(), AllocError> {
    write!(out, "{verb} {label}")?;
    for number in numbers {
        write!(out, " {number}")?;
    }
    Ok(())
}

fn put_hex(out: &mut String, octets: &[u8]) -> Result<(), AllocError> {
    for octet in octets {
        write!(out, "{octet:02x}")?;
    }
    Ok(())
}

// A word and a name after it.
fn put_named(alloc: Global, out: &mut String, prefix: &str, name: &Name) -> Result<(), AllocError> {
    write!(out, "{prefix} ")?;
    out.push_str(&name.to_uri(alloc)?)
}

fn put_given(out: &mut String, (verb, m): (&str, &str), octets: &[u8]) -> Result<(), AllocError> {
    write!(out, "{verb} {m} ")?;
    put_hex(out, octets)
}

fn put_fed(out: &mut String, m: &str, f: u32, octets: &[u8]) -> Result<(), AllocError> {
    write!(out, "feed {m} {f} ")?;
    put_hex(out, octets)
}

fn put_publication(
    alloc: Global,
    out: &mut String,
    m: &str,
    name: &Name,
    size: u32,
    content: &[u8],
) -> Result<(), AllocError> {
    write!(out, "publish ")?;
    put_named(alloc, out, m, name)?;
    write!(out, " {size} ")?;
    put_content(out, content)
}

fn put_insertion(
    alloc: Global,
    out: &mut String,
    (m, client): (&str, &str),
    name: &Name,
    (first, last): (u64, u64),
) -> Result<(), AllocError> {
    write!(out, "insert {m} ")?;
    put_named(alloc, out, client, name)?;
    write!(out, " {first} {last}")
}

fn put_block(
    out: &mut String,
    m: &str,
    (process, index): (u32, u64),
    content: &[u8],
) -> Result<(), AllocError> {
    write!(out, "block {m} {process} {index} ")?;
    put_content(out, content)
}

fn put_deletion(
    alloc: Global,
    out: &mut String,
    (m, client): (&str, &str),
    name: &Name,
) -> Result<(), AllocError> {
    write!(out, "delete {m} ")?;
    put_named(alloc, out, client, name)
}

fn put_party(
    alloc: Global,
    out: &mut String,
    (verb, label): (&str, &str),
    name: &Name,
    key: &[u8],
) -> Result<(), AllocError> {
    write!(out, "{verb} ")?;
    put_named(alloc, out, label, name)?;
    write!(out, " ")?;
    put_hex(out, key)
}

fn put_pattern(
    alloc: Global,
    out: &mut String,
    (verb, label): (&str, &str),
    publisher: &Option<String>,
    name: &Name,
) -> Result<(), AllocError> {
    let publisher = match publisher {
        Some(publisher) => publisher.as_str(),
        None => "*",
    };
    write!(out, "{verb} {label} ")?;
    put_named(alloc, out, publisher, name)
}

fn put_content(out: &mut String, content: &[u8]) -> Result<(), AllocError> {
    if content.len() <= 16 {
        write!(out, "hex:")?;
        return put_hex(out, content);
    }
    let last = content.last().copied().unwrap_or(0);
    write!(out, "{}*{last:02x}", content.len())
}
