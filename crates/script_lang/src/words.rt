ghost use Rattle.std.specs.Prelude.{◌≡◌, ◌<◌, ◌⊎◌, false, map, length, slice_get, IfErr, IfSome, OnOk, OnErr, Ok, Err};
ghost use Rattle.std.specs.Prelude.{◌≤◌, Some, [], ◌∷◌, string_bytes};
ghost use Rattle.script_lang.specs.Forms.{publisher_value, stated};
ghost use Rattle.script_lang.specs.Checking.{Declared, after_event, after_line, declares, labels_in, may_declare};
ghost use Rattle.script_lang.specs.Checking.{may_mirror, mirror_place, nothing_declared, party, party_label};
ghost use Rattle.script_lang.specs.Checking.{party_place};

use crate::check_fault::CheckFault;
use crate::declaration::{Declaration, has_label, is_among, place_of};
use crate::known::{are_known, is_publisher};
use crate::limits::{MEMBERS_LIMIT, MIRRORS_LIMIT};
use crate::line::Line;
use crate::mirror::{is_mirror, place_of_mirror};
use crate::script_totals::ScriptTotals;
use ndn_name::Name;
use std::alloc::Global;
use std::marker::Model;

/// What the lines of a script have declared: its members and clients by their labels and node names, its mirrors by
/// their labels, and the totals over its lines.
#[derive(Debug, Drop)]
pub struct Words {
    group: bool,
    members: Vec<Declaration>,
    clients: Vec<Declaration>,
    mirrors: Vec<String>,
    // Whether a line was an event.
    events: bool,
    sums: ScriptTotals,
}

// The view of `Words` is what the lines have declared.
impl Model for Words {
    ghost use Rattle.std.specs.Prelude.{◌≡◌, ◌≤◌, length, map, true};
    ghost use Rattle.std.specs.String.{string_bytes};
    ghost use Rattle.script_lang.specs.Checking.{Declared, are_within_limits, parties_of, line_totals};

    ghost Value = { Declared };

    ghost view = { λ w. record {
      group = w.group;
      members = parties_of w.members.items;
      clients = parties_of w.clients.items;
      mirrors = map string_bytes w.mirrors.items;
      events = w.events;
      totals = line_totals w.sums;
    } };

    ghost invariant = { λ w. (are_within_limits (line_totals w.sums) ≡ true)
        × (length w.members.items ≤ 16) × (length w.clients.items ≤ 16) × (length w.mirrors.items ≤ 4) };
}

impl Words {
    /// Nothing is declared.
    pub fn new(alloc: Global) -> Words
        ensures { result ≡ nothing_declared }
    {
        Words {
            group: false,
            members: Vec::new(alloc),
            clients: Vec::new(alloc),
            mirrors: Vec::new(alloc),
            events: false,
            sums: ScriptTotals::none(),
        }
    }

    /// Takes a line, or refuses it because of earlier lines.
    pub fn check(&mut self, line: &Line) -> Result<(), CheckFault>
        ensures ok { OnOk result (after_line self.old (stated line.now) ≡ Ok self.new) }
        ensures refused { IfErr result (λ fault. (fault ≡ CheckFault.NoMemory)
            ⊎ (after_line self.old (stated line.now) ≡ Err fault)) }
        ensures err { OnErr result (self.new ≡ self.old) }
    {
        match line {
            Line::Group { .. } => {
                if self.group {
                    return Err(CheckFault::Duplicate);
                }
                self.group = true;
                Ok(())
            }
            Line::Member { label, name, .. } => {
                self.may_declare(label, name, self.members.len())?;
                self.members.push(Declaration::new(label, name)?)?;
                Ok(())
            }
            Line::Client { label, name, .. } => {
                self.may_declare(label, name, self.clients.len())?;
                self.clients.push(Declaration::new(label, name)?)?;
                Ok(())
            }
            Line::Mirror { label, p, .. } => {
                self.may_mirror(label, p)?;
                self.mirrors.push(label.clone()?)?;
                Ok(())
            }
            _ => self.event(line),
        }
    }

    // Whether a member or client may be declared, if `count` of its kind are declared already.
    fn may_declare(&self, label: &str, node: &Name, count: usize) -> Result<(), CheckFault>
        ensures ok { OnOk result (may_declare self.now (party label.now node.now) count ≡ Ok tt) }
        ensures err { IfErr result (λ fault. may_declare self.now (party label.now node.now) count ≡ Err fault) }
    {
        if !self.group {
            return Err(CheckFault::NoGroup);
        }
        if self.events {
            return Err(CheckFault::Late);
        }
        if is_among(label, node, &self.members)
            || is_among(label, node, &self.clients)
            || is_mirror(label, &self.mirrors)
        {
            return Err(CheckFault::Duplicate);
        }
        if count >= MEMBERS_LIMIT {
            return Err(CheckFault::Limit);
        }
        Ok(())
    }

    // Whether a mirror of this publisher may be declared.
    fn may_mirror(&self, label: &str, p: &Option<String>) -> Result<(), CheckFault>
        ensures ok { OnOk result
            (may_mirror self.now label.now (labels_in (publisher_value p.now ∷ [])) ≡ Ok tt) }
        ensures err { IfErr result
            (λ fault. may_mirror self.now label.now (labels_in (publisher_value p.now ∷ [])) ≡ Err fault) }
    {
        if !self.group {
            return Err(CheckFault::NoGroup);
        }
        if self.events {
            return Err(CheckFault::Late);
        }
        if !is_publisher(p, &self.members) {
            return Err(CheckFault::UnknownLabel);
        }
        if has_label(label, &self.members)
            || has_label(label, &self.clients)
            || is_mirror(label, &self.mirrors)
        {
            return Err(CheckFault::Duplicate);
        }
        if self.mirrors.len() >= MIRRORS_LIMIT {
            return Err(CheckFault::Limit);
        }
        Ok(())
    }

    // Takes an event line.
    fn event(&mut self, line: &Line) -> Result<(), CheckFault>
        requires { declares (stated line.now).verb ≡ false }
        ensures ok { OnOk result (after_event self.old (stated line.now) ≡ Ok self.new) }
        ensures refused { IfErr result (λ fault. after_event self.old (stated line.now) ≡ Err fault) }
        ensures err { OnErr result (self.new ≡ self.old) }
    {
        if !self.group {
            return Err(CheckFault::NoGroup);
        }
        if !are_known(&self.members, &self.clients, &self.mirrors, line) {
            return Err(CheckFault::UnknownLabel);
        }
        let Some(sums) = self.sums.with(ScriptTotals::of_line(line)) else {
            return Err(CheckFault::TooLarge);
        };
        self.events = true;
        self.sums = sums;
        Ok(())
    }

    /// The number of the member with this label, in the order of their declarations from 0.
    pub fn member(&self, label: &str) -> Option<u32>
        ensures value { result ≡ party_place label.now self.now.members }
        ensures named { IfSome result
            (λ n. slice_get (map party_label self.now.members) n ≡ Some label.now) }
    {
        place_of(label, &self.members).map(|place| place as u32)
    }

    /// The number of the client with this label, in the order of their declarations from 0.
    pub fn client(&self, label: &str) -> Option<u32>
        ensures value { result ≡ party_place label.now self.now.clients }
        ensures named { IfSome result
            (λ n. slice_get (map party_label self.now.clients) n ≡ Some label.now) }
    {
        place_of(label, &self.clients).map(|place| place as u32)
    }

    /// The number of the mirror with this label, in the order of their declarations from 0.
    pub fn mirror(&self, label: &str) -> Option<u32>
        ensures value { result ≡ mirror_place label.now self.now.mirrors }
        ensures named { IfSome result (λ n. slice_get self.now.mirrors n ≡ Some label.now) }
    {
        place_of_mirror(label, &self.mirrors).map(|place| place as u32)
    }

    /// The label of a member.
    pub fn label(&self, member: u32) -> &str
        requires { member < length self.now.members }
        ensures { slice_get (map party_label self.now.members) member ≡ Some result.now }
    {
        self.members[member as usize].label.as_str()
    }

    /// How many members are declared.
    pub fn members(&self) -> usize
        ensures len { result ≡ length self.now.members }
        ensures few { result ≤ 16 }
    {
        self.members.len()
    }

    /// The labels of the mirrors, in the order of their declarations.
    pub fn mirrors(&self) -> &[String]
        ensures labels { map string_bytes result.now ≡ self.now.mirrors }
        ensures few { length result.now ≤ 4 }
    {
        self.mirrors.as_slice()
    }
}
