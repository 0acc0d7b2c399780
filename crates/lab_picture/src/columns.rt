ghost use Rattle.std.specs.Prelude.{◌≡◌, ◌≤◌, ◌<◌, ◌++◌, length, map, true, false, MatchOption, IfOk, IfSome, OnOk};
ghost use Rattle.std.specs.List.{list_all};
ghost use Rattle.std.specs.String.{string_bytes};
ghost use Rattle.script_lang.specs.Checking.{mirror_place};
ghost use Rattle.script_lang.specs.Lines.{is_printable};
ghost use Rattle.bench_world.specs.Worlds.{world_of};
ghost use Rattle.script_story.specs.Mirrors.{mirror_as};
ghost use Rattle.lab_picture.specs.Sights.{column_label, columns_of, count_at, counts_of, heads_of, member_column};
ghost use Rattle.lab_picture.specs.Sights.{member_count, mirror_column, mirror_count, sender_column};

use crate::page::put_head;
use crate::words::number_of;
use bench_world::World;
use script_lang::Words;
use std::alloc::{AllocError, Global};

// How many columns there are: members come first, then mirrors.
pub(crate) fn columns_of(words: &Words) -> u32
    ensures count { result ≡ columns_of words.now }
    ensures few { result ≤ 20 }
{
    (words.members() + words.mirrors().len()) as u32
}

// A word that can be printed.
pub(crate) fn printed(word: &[u8]) -> Option<&str>
    ensures { MatchOption result (list_all is_printable word.now ≡ false)
        (λ text. (text.now ≡ word.now) × (list_all is_printable word.now ≡ true)) }
{
    if !are_printable(word) {
        return None;
    }
    // What is printable is ASCII.
    let Ok(text) = str::from_utf8(word) else {
        unreachable!()
    };
    Some(text)
}

fn are_printable(octets: &[u8]) -> bool
    ensures { result ≡ list_all is_printable octets.now }
{
    octets.iter().all(|octet| (b' '..=b'~').contains(octet))
}

// The column of the member that a word is the label of.
pub(crate) fn member_column(words: &Words, word: &[u8]) -> Option<u32>
    ensures { result ≡ member_column words.now word.now }
{
    match printed(word) {
        Some(label) => words.member(label),
        None => None,
    }
}

// The column of the mirror that a word is the label of.
pub(crate) fn mirror_column(words: &Words, word: &[u8]) -> Option<u32>
    ensures { result ≡ mirror_column words.now word.now }
{
    match printed(word) {
        Some(label) => match mirror_place(label, words.mirrors()) {
            Some(place) => Some((words.members() + place) as u32),
            None => None,
        },
        None => None,
    }
}

fn mirror_place(label: &str, mirrors: &[String]) -> Option<usize>
    ensures place { result ≡ mirror_place label.now (map string_bytes mirrors.now) }
    ensures within { IfSome result (λ place. place < length mirrors.now) }
{
    mirrors.iter().position(|mirror| mirror.as_str() == label)
}

// The column of the member that sent the sync Interest whose number a word is.
pub(crate) fn sender_column(world: &World, word: &[u8]) -> Option<u32>
    ensures { result ≡ sender_column (world_of world.now) word.now }
{
    match number_of(word) {
        Some(k) => world.sender(k),
        None => None,
    }
}

// Puts down the labels above all columns.
pub(crate) fn put_heads(out: &mut Vec<u8>, words: &Words) -> Result<(), AllocError>
    ensures { OnOk result (out.new.items ≡ out.old.items ++ heads_of words.now) }
{
    let members = words.members() as u32;
    for column in 0..columns_of(words) {
        put_head(out, members, column, column_label(words, column))?;
    }
    Ok(())
}

fn column_label(words: &Words, column: u32) -> &[u8]
    ensures { result.now ≡ column_label words.now column }
{
    let members = words.members();
    if (column as usize) < members {
        return words.label(column).as_bytes();
    }
    match words.mirrors().get(column as usize - members) {
        Some(label) => label.as_bytes(),
        None => &[],
    }
}

// How many entries the catalogue of each column lists.
pub(crate) fn counts_of(alloc: Global, words: &Words, world: &World) -> Result<Vec<u64>, AllocError>
    ensures { IfOk result (λ counts. counts.items
        ≡ counts_of words.now (world_of world.now) (map mirror_as world.now.mirrors)) }
{
    let mut counts = Vec::new(alloc);
    for column in 0..columns_of(words) {
        counts.push(count_at(words, world, column))?;
    }
    Ok(counts)
}

fn count_at(words: &Words, world: &World, column: u32) -> u64
    ensures { result ≡ count_at words.now (world_of world.now) (map mirror_as world.now.mirrors) column }
{
    if (column as usize) < words.members() {
        member_count(world, column)
    } else {
        mirror_count(world, column - words.members() as u32)
    }
}

fn member_count(world: &World, m: u32) -> u64
    ensures { result ≡ member_count (world_of world.now) m }
{
    if (m as usize) < world.members() {
        world.member(m).catalogue().entries().len() as u64
    } else {
        0
    }
}

fn mirror_count(world: &World, i: u32) -> u64
    ensures { result ≡ mirror_count (world_of world.now) (map mirror_as world.now.mirrors) i }
{
    if (i as usize) < world.mirrors() {
        world.mirror_catalogue(i).entries().len() as u64
    } else {
        0
    }
}
