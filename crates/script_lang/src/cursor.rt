ghost use Rattle.std.specs.Prelude.{◌≡◌, ◌≤◌, List, ◌∷◌, [], map, false, IfOk, IfErr, Ok};
ghost use Rattle.std.specs.String.{string_bytes};
ghost use Rattle.script_lang.specs.Forms.{publisher_value};
ghost use Rattle.script_lang.specs.Kinds.{URI, CONTENT, Named, Kind, LABEL, N, HEX, PUBLISHER, Text, Number, Octets};
ghost use Rattle.script_lang.specs.Reading.{left_of, KeepsValue, ReadsWord, IsReadFault};

use crate::line_fault::LineFault;
use crate::word::{content_in, hex_in, label_in, name_in, number_in, publisher_in, small_in};
use ndn_name::Name;
use std::alloc::Global;
use std::marker::Model;

// The words of a line that are still to be read.
//
// A value out of range doesn't stop reading: a later syntax error takes precedence. A placeholder is used, and `end`
// reports the range error.
#[derive(Drop)]
pub(crate) struct Cursor<'a> {
    rest: &'a [&'a str],
    // Whether a word that was read was out of range.
    over: bool,
}

impl<'a> Model for Cursor<'a> {
    ghost use Rattle.std.specs.Prelude.{map};
    ghost use Rattle.script_lang.specs.Reading.{Unread};

    ghost Value = { Unread };

    ghost view = { λ w. record { over = w.over; words = map (λ word. word.now) w.rest.now } };
}

impl<'a> Cursor<'a> {
    pub(crate) fn new(words: &'a [&'a str]) -> Cursor<'a>
        ensures { result ≡ record { over = false; words = map (λ word. word.now) words.now } }
    {
        Cursor {
            rest: words,
            over: false,
        }
    }

    // The next word.
    fn next(&mut self) -> Result<&'a str, LineFault>
        ensures ok { IfOk result (λ word. self.old
            ≡ record { over = self.new.over; words = word.now ∷ self.new.words }) }
        ensures err { IfErr result (λ fault. (kind : Kind) (kinds : List Kind)
            → IsReadFault fault (left_of (kind ∷ kinds) self.old)) }
    {
        let [word, rest @ ..] = self.rest else {
            return Err(LineFault::Syntax);
        };
        self.rest = rest;
        Ok(word)
    }

    // The value that was read, or its fault. For a value out of range it is `instead`, and `over` becomes true.
    fn kept<T: Drop>(&mut self, read: Result<T, LineFault>, instead: T) -> Result<T, LineFault>
        ensures { KeepsValue instead read self.old self.new result }
    {
        match read {
            Err(LineFault::Limit) => {
                self.over = true;
                Ok(instead)
            }
            read => read,
        }
    }

    // The next word as a label.
    pub(crate) fn label(&mut self, alloc: Global) -> Result<String, LineFault>
        ensures { ReadsWord (λ value. Text (string_bytes value)) (LABEL) self.old self.new result }
    {
        let word = self.next()?;
        self.kept(label_in(alloc, word), String::new(alloc))
    }

    // The next word as a publisher.
    pub(crate) fn publisher(&mut self, alloc: Global) -> Result<Option<String>, LineFault>
        ensures { ReadsWord publisher_value (PUBLISHER) self.old self.new result }
    {
        let word = self.next()?;
        self.kept(publisher_in(alloc, word), None)
    }

    // The next word as a number in this range.
    pub(crate) fn number(&mut self, least: u64, most: u64) -> Result<u64, LineFault>
        ensures { ReadsWord (λ value. Number value) (N least most) self.old self.new result }
    {
        let word = self.next()?;
        self.kept(number_in(least, most, word), 0)
    }

    // The next word as a number in this range, below 2 ^ 32.
    pub(crate) fn small(&mut self, least: u32, most: u32) -> Result<u32, LineFault>
        ensures { ReadsWord (λ value. Number value) (N least most) self.old self.new result }
    {
        let word = self.next()?;
        self.kept(small_in(least, most, word), 0)
    }

    // The next word as hexadecimal text of 1 to `most` octets.
    pub(crate) fn hex(&mut self, alloc: Global, most: u64) -> Result<Vec<u8>, LineFault>
        ensures { ReadsWord (λ value. Octets value.items) (HEX most) self.old self.new result }
    {
        let word = self.next()?;
        self.kept(hex_in(alloc, 1, most, word), Vec::new(alloc))
    }

    // The next word as the text of a name whose value has `least` to `most` octets.
    pub(crate) fn name(&mut self, alloc: Global, least: u64, most: u64) -> Result<Name, LineFault>
        requires { most ≤ 1000 }
        ensures { ReadsWord (λ value. Named value) (URI least most) self.old self.new result }
    {
        let word = self.next()?;
        self.kept(name_in(alloc, least, most, word), Name::new(alloc))
    }

    // The next word as a content of `least` to `most` octets.
    pub(crate) fn content(
        &mut self,
        alloc: Global,
        least: u64,
        most: u64,
    ) -> Result<Vec<u8>, LineFault>
        ensures { ReadsWord (λ value. Octets value.items) (CONTENT least most) self.old self.new result }
    {
        let word = self.next()?;
        self.kept(content_in(alloc, least, most, word), Vec::new(alloc))
    }

    // Ends reading: `Syntax` if a word is still to be read, else `Limit` if a word was out of range.
    #[tactic(auto, unfolding(crate::specs::Lines::values_of))]
    pub(crate) fn end(&self) -> Result<(), LineFault>
        ensures ok { IfOk result (λ _. left_of [] self.now ≡ Ok []) }
        ensures err { IfErr result (λ fault. IsReadFault fault (left_of [] self.now)) }
    {
        if !self.rest.is_empty() {
            return Err(LineFault::Syntax);
        }
        if self.over {
            return Err(LineFault::Limit);
        }
        Ok(())
    }
}
