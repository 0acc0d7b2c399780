ghost use Rattle.std.specs.Prelude.{◌≡◌, ◌-◌, ◌<◌, ◌≤◌, true, false, option_map, IfOk, OnOk, OnErr, IsTrue};
ghost use Rattle.std.specs.List.{All};
ghost use Rattle.std.specs.Ordering.{nat_cmp};
ghost use Rattle.repo_object.specs.Objects.{is_object_name};
ghost use Rattle.sorted_lists.specs.SortedList.{Rises, value_of};
ghost use Rattle.repo_plan.specs.Parts.{pair_cmp};
ghost use Rattle.repo_plan.specs.Plan.{knows, claims_part_in};
ghost use Rattle.repo_command.specs.Commands.{is_command, CommandIsSpelled};
ghost use Rattle.repo_process.specs.Insertions.{next_number};
ghost use Rattle.group_model.specs.Steps.{check_answer};
ghost use Rattle.repo_holdings.specs.Listed.{is_withdrawal};
ghost use Rattle.repo_member.specs.MemberState.{IsOfGroup, member_plan};
ghost use Rattle.repo_member.specs.Deleting.{catalogued_named, member_deletes, member_drops};
ghost use Rattle.repo_member.specs.Commanded.{coded, order_of, member_after_order, member_obeys, IsAnswerTo};
ghost use Rattle.repo_member.specs.Commanded.{member_state_starts, answer_to, start_answer, delete_answer};
ghost use Rattle.repo_member.specs.Commanded.{reply_to_octets};
ghost use Rattle.repo_member.specs.Commanded.{reply_named};

use super::Member;
use crate::group::Group;
use ndn_data::write_signed;
use ndn_interest::InterestView;
use ndn_name::{Name, NameView, PacketWriteFault};
use repo_command::status_codes::{ACCEPTED, DONE, IN_PROGRESS, MALFORMED, NOT_FOUND};
use repo_command::{Answer, Command, CommandRefusal, check_command, write_answer};
use repo_object::key_name;
use repo_plan::Shape;
use repo_process::StartFault;
use std::alloc::AllocError;

/// How many octets of value a name may have that a reply repeats.
const REPLY_NAME_LIMIT: usize = 1_000;

/// What a member answers to a command.
#[derive(Debug, Drop)]
pub struct Answered {
    pub answer: Answer,
    /// The packet that says it; `None` where the octets are no Interest, or one whose name has more than 1,000 octets
    /// of value.
    pub reply: Option<Vec<u8>>,
}

// The catalogued publications of the objects of a name, and how many packets they have together.
#[derive(Drop)]
struct Found {
    publications: Vec<(u32, u16)>,
    packets: usize,
}

impl Member {
    /// Answers a command of the repo protocol, and does what it asks for, if it is one that a client of the group
    /// signed for this member.
    pub fn command(&mut self, g: &Group, octets: &[u8]) -> Result<Answered, AllocError>
        requires group { IsOfGroup g.now self.old }
        ensures answer { IfOk result (IsAnswerTo g.now octets.now self.old) }
        ensures ok { OnOk result
            (self.new ≡ member_after_order (order_of g.now self.old.number octets.now) self.old) }
        ensures err { OnErr result (self.new ≡ self.old) }
    {
        let alloc = *self.log.allocator();
        match check_command(alloc, octets, g.roster().name(self.number), g.clients()) {
            Err(CommandRefusal::NoMemory) => Err(AllocError),
            verdict => self.command_checked(g, octets, verdict),
        }
    }

    /// Octets that the caller has checked as a command for this member are answered, and what they ask for is done, as
    /// `command` does it. Running out of memory is no verdict on them.
    pub fn command_checked(
        &mut self,
        g: &Group,
        octets: &[u8],
        verdict: Result<(u32, Command), CommandRefusal>,
    ) -> Result<Answered, AllocError>
        requires group { IsOfGroup g.now self.old }
        requires verdict { coded verdict ≡ order_of g.now self.old.number octets.now }
        requires spelled { IfOk verdict (λ order. CommandIsSpelled order.1) }
        ensures answer { IfOk result (IsAnswerTo g.now octets.now self.old) }
        ensures ok { OnOk result
            (self.new ≡ member_after_order (order_of g.now self.old.number octets.now) self.old) }
        ensures err { OnErr result (self.new ≡ self.old) }
    {
        match verdict {
            Ok((_, command)) => self.obey(g, octets, command),
            Err(refusal) => self.answered(g, octets, Answer::only(refusal.status_code())),
        }
    }

    // Does what a client asks for, and answers.
    fn obey(&mut self, g: &Group, octets: &[u8], command: Command) -> Result<Answered, AllocError>
        requires group { IsOfGroup g.now self.old }
        requires command { IsTrue (is_command command) }
        ensures answer { IfOk result (λ answered. answered.answer ≡ answer_to command self.old) }
        ensures reply { IfOk result (λ answered. option_map (λ r. r.items) answered.reply
            ≡ reply_to_octets g.now self.old.number answered.answer octets.now) }
        ensures ok { OnOk result (self.new ≡ member_obeys command self.old) }
        ensures err { OnErr result (self.new ≡ self.old) }
    {
        match command {
            Command::Insert { name, first, last } => self.insert(g, octets, &name, first, last),
            Command::Check { process } => self.answered(g, octets, self.standing(process)),
            Command::Delete { name } => self.delete(g, octets, &name),
        }
    }

    // Starts an insertion, where there is a number for it.
    fn insert(
        &mut self,
        g: &Group,
        octets: &[u8],
        name: &Name,
        first: u64,
        last: u64,
    ) -> Result<Answered, AllocError>
        requires group { IsOfGroup g.now self.old }
        requires name { IsTrue (is_object_name name.now) }
        requires order { first ≤ last }
        requires few { last - first < 200 }
        ensures answer { IfOk result (λ answered. answered.answer
            ≡ start_answer (next_number self.old.insertions)) }
        ensures reply { IfOk result (λ answered. option_map (λ r. r.items) answered.reply
            ≡ reply_to_octets g.now self.old.number answered.answer octets.now) }
        ensures ok { OnOk result
            (self.new ≡ member_state_starts name.now first last self.old (next_number self.old.insertions)) }
        ensures err { OnErr result (self.new ≡ self.old) }
    {
        let Some(process) = self.processes.next() else {
            return self.answered(g, octets, Answer::only(MALFORMED));
        };
        let answer = Answer {
            process: Some(u64::from(process)),
            ..Answer::only(ACCEPTED)
        };
        let answered = self.answered(g, octets, answer)?;
        self.processes
            .start(name, first, last)
            .map_err(StartFault::only_memory)?;
        Ok(answered)
    }

    // The answer to a check of an insertion process.
    fn standing(&self, process: u64) -> Answer
        ensures { result ≡ check_answer (value_of nat_cmp self.now.insertions.processes process) }
    {
        match self.processes.status(process) {
            Some((blocks, published)) => {
                let code = if published { DONE } else { IN_PROGRESS };
                Answer {
                    inserted: Some(blocks),
                    ..Answer::only(code)
                }
            }
            None => Answer::only(NOT_FOUND),
        }
    }

    // Hides the catalogued publications of the objects of a name for good.
    fn delete(&mut self, g: &Group, octets: &[u8], name: &Name) -> Result<Answered, AllocError>
        requires group { IsOfGroup g.now self.old }
        ensures answer { IfOk result (λ answered. answered.answer ≡ delete_answer name.now self.old) }
        ensures reply { IfOk result (λ answered. option_map (λ r. r.items) answered.reply
            ≡ reply_to_octets g.now self.old.number answered.answer octets.now) }
        ensures ok { OnOk result (self.new ≡ member_deletes name.now self.old) }
        ensures err { OnErr result (self.new ≡ self.old) }
    {
        self.index_names()?;
        let found = self.found(name)?;
        if found.publications.is_empty() {
            return self.answered(g, octets, Answer::only(NOT_FOUND));
        }
        let answer = Answer {
            deleted: Some(found.packets as u64),
            ..Answer::only(DONE)
        };
        let answered = self.answered(g, octets, answer)?;
        self.held.hide_all(&found.publications)?;
        Ok(answered)
    }

    // Names are looked up by an index from now on, so that a deletion reads no entry of another name.
    fn index_names(&mut self) -> Result<(), AllocError>
        ensures { self.new ≡ self.old }
    {
        self.held.index_names()
    }

    // The catalogued publications of the objects of a name, in order. They aren't withdrawals, and their parts are
    // held, so that no fetcher claims one.
    fn found(&self, name: &Name) -> Result<Found, AllocError>
        ensures publications { IfOk result (λ found. found.publications.items ≡ catalogued_named name.now self.now) }
        ensures in_order { IfOk result (λ found. Rises pair_cmp found.publications.items) }
        ensures packets { IfOk result (λ found. found.packets ≡ member_drops name.now self.now) }
        ensures known { IfOk result (λ found.
            All (λ pair. knows (member_plan self.now) pair ≡ true) found.publications.items) }
        ensures unclaimed { IfOk result (λ found.
            All (λ pair. claims_part_in (member_plan self.now) pair ≡ false) found.publications.items) }
        ensures objects { IfOk result (λ found.
            All (λ pair. is_withdrawal self.now.store pair ≡ false) found.publications.items) }
    {
        let catalogue = self.held.catalogue();
        let publications = catalogue.named(*self.log.allocator(), &name.view())?;
        self.held.cite_soundness();
        let mut left = self.held.len();
        for (publisher, seq) in &publications {
            let entry = catalogue.entry(*publisher, *seq).unwrap();
            left -= 1 + Shape::of(entry.segments as u16).last_part() as usize;
        }
        Ok(Found {
            publications,
            packets: self.held.len() - left,
        })
    }

    // An answer with the packet that says it.
    fn answered(&self, g: &Group, octets: &[u8], answer: Answer) -> Result<Answered, AllocError>
        requires group { IsOfGroup g.now self.now }
        ensures answer { IfOk result (λ answered. answered.answer ≡ answer) }
        ensures reply { IfOk result (λ answered. option_map (λ r. r.items) answered.reply
            ≡ reply_to_octets g.now self.now.number answer octets.now) }
    {
        let reply = self.reply(g, octets, &answer)?;
        Ok(Answered { answer, reply })
    }

    /// The packet that says an answer to octets; `None` where the octets are no Interest, or one whose name has more
    /// than 1,000 octets of value.
    pub fn reply(
        &self,
        g: &Group,
        octets: &[u8],
        answer: &Answer,
    ) -> Result<Option<Vec<u8>>, AllocError>
        requires group { IsOfGroup g.now self.now }
        ensures { IfOk result (λ reply. option_map (λ r. r.items) reply
            ≡ reply_to_octets g.now self.now.number answer.now octets.now) }
    {
        match InterestView::read(octets) {
            Ok(interest) => self.reply_named(g, &interest.name, answer),
            Err(_) => Ok(None),
        }
    }

    // Data of this name that says the answer, unless the name is too long.
    fn reply_named(
        &self,
        g: &Group,
        name: &NameView<'_>,
        answer: &Answer,
    ) -> Result<Option<Vec<u8>>, AllocError>
        requires group { IsOfGroup g.now self.now }
        ensures { IfOk result (λ reply. option_map (λ r. r.items) reply
            ≡ reply_named g.now self.now.number answer.now name.now) }
    {
        if name.octets().len() > REPLY_NAME_LIMIT {
            return Ok(None);
        }
        let alloc = *self.log.allocator();
        let name = Name::from_short(alloc, name)?;
        let content = write_answer(alloc, answer)?;
        g.cite_soundness();
        let key_name = key_name(g.roster().name(self.number))?;
        let key = g.members().key(self.number);
        let packet = write_signed(alloc, &name, None, &content, &key_name, key);
        Ok(Some(packet.map_err(PacketWriteFault::only_memory)?))
    }
}
