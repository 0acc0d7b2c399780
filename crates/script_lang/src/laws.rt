ghost use Rattle.std.specs.Prelude.{◌≡◌, ◌≢◌, ◌≤◌, ◌+◌, ◌↔◌, [], ◌∷◌, ℕ, codes, length, true, List, None, Some};
ghost use Rattle.std.specs.Prelude.{IfErr, Ok, Err};
ghost use Rattle.script_lang.specs.declared.line_fault.LineFault.TheVariants as fault;
ghost use Rattle.script_lang.specs.declared.line_fault.LineFault.TheVariants.{Limit, Syntax};
ghost use Rattle.script_lang.specs.declared.check_fault.CheckFault.TheVariants as refusal;
ghost use Rattle.script_lang.specs.declared.check_fault.CheckFault.TheVariants.{TooLarge};
ghost use Rattle.script_lang.specs.declared.verb.Verb.{Verb};
ghost use Rattle.script_lang.specs.declared.verb.Verb.TheVariants.{Claim, Group, Mirror, Publish, Watch, Withdraw};
ghost use Rattle.script_lang.specs.Limits.{contents_limit, last_part, line_octets, members_limit, mirrors_limit};
ghost use Rattle.script_lang.specs.Limits.{parts_limit, script_lines, script_octets, segments_limit, settles_limit};
ghost use Rattle.script_lang.specs.Kinds.{Anyone, Kind, Named, Number, Octets, Text, Value, word_of};
ghost use Rattle.script_lang.specs.declared.line.Line.{Line};
ghost use Rattle.script_lang.specs.Forms.{AreShaped, Stated, form, statement, stated};
ghost use Rattle.script_lang.specs.Lines.{are_within, line_of};
ghost use Rattle.script_lang.specs.Checking.{Declared, after_line, are_within_limits, asks_the_group_first};
ghost use Rattle.script_lang.specs.Checking.{publication_parts};
ghost use Rattle.script_lang.specs.Texts.{AreOf, ArePlainValues, IsLineText, IsOfKind, IsWordText, printed_line};

use crate::limits::{
    CONTENTS_LIMIT, LINE_LIMIT, LINES_LIMIT, MEMBERS_LIMIT, MIRRORS_LIMIT, PARTS_LIMIT,
    SCRIPT_LIMIT, SETTLES_LIMIT,
};

/// The limits of a script.
pub fn limits_are_these()
    ensures octets { SCRIPT_LIMIT ≡ script_octets }
    ensures lines { LINES_LIMIT ≡ script_lines }
    ensures line { LINE_LIMIT ≡ line_octets }
    ensures members { MEMBERS_LIMIT ≡ members_limit }
    ensures mirrors { MIRRORS_LIMIT ≡ mirrors_limit }
    ensures contents { CONTENTS_LIMIT ≡ contents_limit }
    ensures parts { PARTS_LIMIT ≡ parts_limit }
    ensures settles { SETTLES_LIMIT ≡ settles_limit }
{}

/// `last_part` is the number of the last part of a publication of `segments_limit` segments.
pub fn last_part_is_of_the_largest_publication()
    ensures { publication_parts segments_limit ≡ 1 + last_part }
{}

/// A word is read as a value just where the value is in its range and the word is a text of it.
pub fn words_are_their_texts()
    ensures { (kind : Kind) (value : Value) (word : List ℕ)
        → (word_of kind word ≡ Ok value) ↔ (IsOfKind kind value × IsWordText kind value word) }
{}

/// Octets are read as a line just where they are a text of it. The texts of a line differ at most in spaces, the line's
/// end, the case of digits, and the forms in which a name or a content may be written.
pub fn lines_are_their_texts()
    ensures { (s : Stated) (octets : List ℕ) → (line_of octets ≡ Ok (Some s)) ↔ IsLineText s octets }
{}

/// A line that is printed from its values is read back.
pub fn printed_lines_are_read()
    ensures { (s : Stated) → ArePlainValues s.values → AreOf (form s.verb).kinds s.values
        → are_within s.verb s.values ≡ true → length (printed_line s) ≤ line_octets
        → line_of (printed_line s) ≡ Ok (Some s) }
{}

/// A line is refused for its octets or for the lines before it, never because memory ran out.
pub fn refusals_are_of_the_lines()
    ensures read { (octets : List ℕ) → IfErr (line_of octets) (λ f. f ≢ fault.NoMemory) }
    ensures checked { (d : Declared) (s : Stated) → AreShaped (form s.verb).kinds s.values
        → IfErr (after_line d s) (λ r. r ≢ refusal.NoMemory) }
{}

/// The values of a line are of the kinds of its form. So cases of definitions for other values concern no line.
pub fn lines_state_their_forms()
    ensures lines { (line : Line) → AreShaped (form (stated line).verb).kinds (stated line).values }
    ensures octets { (octets : List ℕ) (s : Stated) → line_of octets ≡ Ok (Some s)
        → AreShaped (form s.verb).kinds s.values }
{}

/// A line that names a packet's number or a fetcher, or sets up a watcher, exceeds no total if none was exceeded
/// before. So totals may be tested before the group's packets, fetchers and watchers or after them, with the
/// same result.
pub fn what_asks_the_group_first_adds_nothing()
    ensures { (d : Declared) (s : Stated) → are_within_limits d.totals ≡ true
        → asks_the_group_first s.verb ≡ true → after_line d s ≢ Err TooLarge }
{}

/// Worked lines that are read, as the definition computes them.
pub fn worked_lines()
    ensures group { line_of (codes "group /g") ≡ Ok (Some (statement Group (Named ((8, codes "g") ∷ []) ∷ []))) }
    ensures claim { line_of (codes " claim  bob 16 ")
        ≡ Ok (Some (statement Claim (Text (codes "bob") ∷ Number 16 ∷ []))) }
    ensures withdrawal { line_of (codes "withdraw a 65535")
        ≡ Ok (Some (statement Withdraw (Text (codes "a") ∷ Number 65535 ∷ []))) }
    ensures filled { line_of (codes "publish a /x 4 fill:3:65")
        ≡ Ok (Some (statement Publish (Text (codes "a") ∷ Named ((8, codes "x") ∷ []) ∷ Number 4
        ∷ Octets (codes "AAA") ∷ []))) }
    ensures mirror { line_of (codes "mirror mia alice /doc") ≡ Ok (Some
        (statement Mirror (Text (codes "mia") ∷ Text (codes "alice") ∷ Named ((8, codes "doc") ∷ []) ∷ []))) }
    ensures every_object { line_of (codes "watch bob * /")
        ≡ Ok (Some (statement Watch (Text (codes "bob") ∷ Anyone ∷ Named [] ∷ []))) }
    ensures comment { line_of (codes " # g") ≡ Ok None }
{}

/// Worked lines that are refused, with the fault that the definition computes.
pub fn worked_refusals()
    ensures over { line_of (codes "claim bob 17") ≡ Err Limit }
    ensures syntax_first { line_of (codes "answer bob 17 Bob") ≡ Err Syntax }
    ensures long_number { line_of (codes "claim bob 9999999999999999999") ≡ Err Syntax }
    ensures blocks { line_of (codes "insert a c /in 5 205") ≡ Err Limit }
{}
