ghost use Rattle.std.specs.Prelude.{◌≡◌, ◌<◌, ◌+◌, ◌∷◌, ◌++◌, ℕ, List, [], true, false, IfErr, IfNone, IfOk, IfSome};
ghost use Rattle.std.specs.Prelude.{None, OnOk, Some};
ghost use Rattle.std.specs.Prelude.{length, map, string_bytes};
ghost use Rattle.script_lang.specs.declared.verb.Verb.TheVariants as verb;
ghost use Rattle.script_lang.specs.Forms.{statement, stated};
ghost use Rattle.script_lang.specs.Kinds.{Text, Number, Named, Octets};
ghost use Rattle.repo_object.specs.Objects.{IsObject};
ghost use Rattle.repo_member.specs.Groups.{IsKey, IsPlainNodeName, is_name_taken, node_limit};
ghost use Rattle.live_script.specs.Evaluation.{counted, cut_object, is_within_input, evaluated, evaluated_line};
ghost use Rattle.live_script.specs.Evaluation.{nothing_reached, takes};
ghost use Rattle.live_script.specs.Evaluation.{with_member_too, with_object};
ghost use Rattle.live_script.specs.Scripts.{Gives, GivesNobody, IsLine, IsPublication};
ghost use Rattle.live_script.specs.LineErrors.{IsLineError};

use crate::error::LineError;
use crate::members::Members;
use crate::totals::Totals;
use ndn_name::Name;
use repo_member::Group;
use repo_object::{Object, cut};
use script_lang::{LINES_LIMIT, Line, SCRIPT_LIMIT, Words, read_line};
use script_report::Refusal;
use std::alloc::{AllocError, Global};
use std::marker::Model;

/// The result of the lines of an input so far: the group, and what its members are to publish.
#[derive(Drop)]
pub struct Script {
    alloc: Global,
    draft: Draft,
    totals: Totals,
    // How many lines were taken, and how many octets they have.
    lines: u32,
    octets: usize,
}

// A script is seen as the number of lines and octets taken, what they declare, the group, and the list of each member.
impl Model for Script {
    ghost use Rattle.std.specs.Prelude.{map, string_bytes};
    ghost use Rattle.live_script.specs.Evaluation.{Reached};
    ghost use Rattle.live_script.specs.Scripts.{IsKept, group_keys, totals_view};

    ghost Value = { Reached };

    ghost view = { λ s. record {
      lines = s.lines;
      octets = s.octets;
      declared = s.draft.words;
      keys = group_keys s.draft.group;
      lists = map (λ l. l.items) s.draft.lists.items;
    } };

    ghost invariant = { λ s. IsKept (map string_bytes s.draft.labels.items) s.draft.group
        (totals_view s.totals) (record {
          lines = s.lines;
          octets = s.octets;
          declared = s.draft.words;
          keys = group_keys s.draft.group;
          lists = map (λ l. l.items) s.draft.lists.items;
        }) };
}

impl Script {
    /// A script of which no line was taken.
    pub fn new(alloc: Global) -> Script
        ensures { result ≡ nothing_reached }
    {
        Script {
            alloc,
            draft: Draft {
                words: Words::new(alloc),
                labels: Vec::new(alloc),
                lists: Vec::new(alloc),
                group: None,
            },
            totals: Totals::none(),
            lines: 0,
            octets: 0,
        }
    }

    /// The number of the next line, counted from 1.
    pub fn next_line(&self) -> u32
        ensures { result ≡ self.now.lines + 1 }
    {
        self.lines + 1
    }

    /// Takes the next line, which includes its line feed, or returns why it isn't taken.
    ///
    /// Of an input that is too long the line suffices up to the octet that is one too many.
    pub fn take(self, line: &[u8]) -> Result<Script, LineError>
        ensures taken { IfOk result (λ next. evaluated self line.now ≡ takes next) }
        ensures stopped { IfErr result (IsLineError (evaluated self line.now)) }
    {
        if !self.has_room(line) {
            return Err(LineError::Refused(Refusal::Limit));
        }
        match read_line(self.alloc, line)? {
            Some(stated) => Ok(self.take_stated(&stated)?.counted(line)),
            None => Ok(self.counted(line)),
        }
    }

    // Whether the input may have this line too.
    fn has_room(&self, line: &[u8]) -> bool
        ensures { result ≡ is_within_input self.now line.now }
    {
        self.lines < LINES_LIMIT && line.len() <= SCRIPT_LIMIT - self.octets
    }

    // Counts the line as taken.
    fn counted(mut self, line: &[u8]) -> Script
        requires { is_within_input self line.now ≡ true }
        ensures { counted line.now self ≡ takes result }
    {
        self.lines += 1;
        self.octets += line.len();
        self
    }

    // Takes what a line states, and doesn't count the line. Whether the input of a live group may have the line is
    // tested first.
    fn take_stated(self, line: &Line) -> Result<Script, LineError>
        requires { IsLine (stated line.now) }
        ensures taken { IfOk result (λ next. (octets : List ℕ)
            → evaluated_line self octets (stated line.now) ≡ counted octets next) }
        ensures same { IfOk result (λ next. (next.lines ≡ self.lines) × (next.octets ≡ self.octets)) }
        ensures stopped { IfErr result (λ error. (octets : List ℕ)
            → IsLineError (evaluated_line self octets (stated line.now)) error) }
    {
        match line {
            Line::Group { name } => self.declare_group(line, name),
            Line::Member { label, name, key } => self.declare_member(line, label, name, key),
            Line::Publish {
                m,
                name,
                size,
                content,
            } => self.publish(line, m, name, *size as usize, content),
            _ => Err(LineError::Refused(Refusal::NotLive)),
        }
    }

    // Declares the group of this name, without members.
    fn declare_group(mut self, line: &Line, name: &Name) -> Result<Script, LineError>
        requires line { IsLine (stated line.now) }
        requires is { stated line.now ≡ statement verb.Group (Named name.now ∷ []) }
        ensures taken { IfOk result (λ next. (octets : List ℕ)
            → evaluated_line self octets (stated line.now) ≡ counted octets next) }
        ensures same { IfOk result (λ next. (next.lines ≡ self.lines) × (next.octets ≡ self.octets)) }
        ensures stopped { IfErr result (λ error. (octets : List ℕ)
            → IsLineError (evaluated_line self octets (stated line.now)) error) }
    {
        self.draft.words.check(line)?;
        name.cite_soundness();
        self.draft.group = Some(Group::new(self.alloc, name)?);
        Ok(self)
    }

    // Declares one more member, which is to publish nothing yet.
    fn declare_member(
        mut self,
        line: &Line,
        label: &str,
        node: &Name,
        key: &[u8],
    ) -> Result<Script, LineError>
        requires line { IsLine (stated line.now) }
        requires is { stated line.now ≡ statement verb.Member (Text label.now ∷ Named node.now ∷ Octets key.now ∷ []) }
        ensures taken { IfOk result (λ next. (octets : List ℕ)
            → evaluated_line self octets (stated line.now) ≡ counted octets next) }
        ensures same { IfOk result (λ next. (next.lines ≡ self.lines) × (next.octets ≡ self.octets)) }
        ensures stopped { IfErr result (λ error. (octets : List ℕ)
            → IsLineError (evaluated_line self octets (stated line.now)) error) }
    {
        let Some(group) = &mut self.draft.group else {
            return Err(LineError::Refused(Refusal::NoGroup));
        };
        self.draft.words.check(line)?;
        node.cite_soundness();
        add_member(group, node, key)?;
        add_list(
            self.alloc,
            &mut self.draft.labels,
            &mut self.draft.lists,
            label,
        )?;
        Ok(self)
    }

    // Adds an object to those that a member is to publish. Its segments are the content's pieces of this size.
    fn publish(
        mut self,
        line: &Line,
        m: &str,
        name: &Name,
        size: usize,
        content: &[u8],
    ) -> Result<Script, LineError>
        requires line { IsLine (stated line.now) }
        requires is { stated line.now ≡ statement verb.Publish
            (Text m.now ∷ Named name.now ∷ Number size ∷ Octets content.now ∷ []) }
        ensures taken { IfOk result (λ next. (octets : List ℕ)
            → evaluated_line self octets (stated line.now) ≡ counted octets next) }
        ensures same { IfOk result (λ next. (next.lines ≡ self.lines) × (next.octets ≡ self.octets)) }
        ensures stopped { IfErr result (λ error. (octets : List ℕ)
            → IsLineError (evaluated_line self octets (stated line.now)) error) }
    {
        self.draft.words.check(line)?;
        let object = object_of(self.alloc, name, size, content)?;
        let Some(totals) = self.totals.with(content.len(), object.contents().len()) else {
            return Err(LineError::Refused(Refusal::TooLarge));
        };
        let Some(member) = self.draft.words.member(m) else {
            unreachable!()
        };
        add_object(&mut self.draft.lists, member as usize, object)?;
        self.totals = totals;
        Ok(self)
    }

    /// The group, the labels and the lists, where a line named the group.
    pub fn into_members(self) -> Option<Members>
        ensures some { IfSome result (Gives self) }
        ensures none { IfNone result (GivesNobody self) }
    {
        let Script { draft, .. } = self;
        let Some(members) = draft.into_members() else {
            return None;
        };
        members.group.cite_soundness();
        Some(members)
    }
}

// The group as the lines so far make it. Where a line is refused it is dropped by one call, which is proved once, and
// not field by field at each `?`.
struct Draft {
    words: Words,
    // The labels of the members, and the objects of each.
    labels: Vec<String>,
    lists: Vec<Vec<Object>>,
    group: Option<Group>,
}

impl Drop for Draft {
    fn drop(self) {
        let Draft {
            words: _,
            labels: _,
            lists: _,
            group: _,
        } = self;
    }
}

impl Draft {
    fn into_members(self) -> Option<Members>
        ensures some { IfSome result (λ members. (self.group ≡ Some members.group) × (self.labels ≡ members.labels)
            × (self.lists ≡ members.lists)) }
        ensures none { IfNone result (self.group ≡ None) }
    {
        let Draft {
            labels,
            lists,
            group,
            words: _,
        } = self;
        let Some(group) = group else {
            return None;
        };
        Some(Members {
            group,
            labels,
            lists,
        })
    }
}

// The object of this name whose segments are the content's pieces of this size.
fn object_of(alloc: Global, name: &Name, size: usize, content: &[u8]) -> Result<Object, AllocError>
    requires { IsPublication name.now size content.now }
    ensures is { IfOk result (λ object. object ≡ cut_object name.now size content.now) }
    ensures object { IfOk result IsObject }
{
    // There are few enough segments, so `cut` fails only where memory runs out.
    let Ok(contents) = cut(alloc, content, size) else {
        return Err(AllocError);
    };
    Ok(Object::from_parts(name.clone()?, contents))
}

// Adds the object to the member's list, after the others.
fn add_object(lists: &mut Vec<Vec<Object>>, member: usize, object: Object) -> Result<(), AllocError>
    requires { member < length lists.old.items }
    ensures { OnOk result (map (λ l. l.items) lists.new.items
        ≡ with_object member object (map (λ l. l.items) lists.old.items)) }
{
    lists[member].push(object)?;
    Ok(())
}

// Adds the label of a new member, and an empty list for it.
fn add_list(
    alloc: Global,
    labels: &mut Vec<String>,
    lists: &mut Vec<Vec<Object>>,
    label: &str,
) -> Result<(), AllocError>
    ensures labels { OnOk result (map string_bytes labels.new.items
        ≡ map string_bytes labels.old.items ++ label.now ∷ []) }
    ensures lists { OnOk result (map (λ l. l.items) lists.new.items
        ≡ map (λ l. l.items) lists.old.items ++ [] ∷ []) }
{
    labels.push(label.to_string(alloc)?)?;
    lists.push(Vec::new(alloc))?;
    Ok(())
}

// Adds a member whose name no member or client has, to a group that isn't full.
fn add_member(group: &mut Group, node: &Name, key: &[u8]) -> Result<(), LineError>
    requires node { IsPlainNodeName node.now }
    requires key { IsKey key.now }
    requires apart { is_name_taken group.old node.now ≡ false }
    requires few { length group.old.members.names < node_limit }
    ensures ok { OnOk result (group.new ≡ with_member_too node.now key.now group.old) }
    ensures err { IfErr result (λ error. error ≡ LineError.NoMemory) }
{
    group.add_member(node, key)?;
    Ok(())
}
