ghost use Rattle.std.specs.Prelude.{◌≡◌, ◌<◌, ◌≤◌, ◌↔◌, ℕ, true, false, Err, IfOk, IfErr, IsTrue, length, map};
ghost use Rattle.std.specs.Prelude.{OnOk, OnErr, option_map, slice_set};
ghost use Rattle.std.specs.List.{All};
ghost use Rattle.repo_object.specs.Limits.{segment_limit};
ghost use Rattle.repo_object.specs.Objects.{is_object_name, IsContent, IsObject, IsPost};
ghost use Rattle.repo_object.specs.Objects.Post.{Offers, Withdraws};
ghost use Rattle.group_model.specs.Publications.{has_unwithdrawn};
ghost use Rattle.repo_member.specs.MemberState.{IsOfGroup, publication_limit, next_seq, logged};
ghost use Rattle.repo_member.specs.Posts.{post_of, IsNew};
ghost use Rattle.repo_member.specs.Verdicts.{sync_of};
ghost use Rattle.repo_holdings.specs.NewPublications.{ArePackets};
ghost use Rattle.repo_member.specs.Publishing.{IsPrepared, CanDraw, ArePublished, IsPublished};

use super::Member;
use super::syncing::sync_of;
use crate::group::Group;
use crate::post::{Post, has_unwithdrawn, packet_in, push};
use crate::refusals::{PublishRefusal, WithdrawRefusal};
use ndn_name::Name;
use repo_holdings::RecordSummary;
use repo_object::{Object, Packet, shared_packets_of, withdrawal_packet};
use repo_plan::{Part, Shape};
use std::alloc::AllocError;

/// How often a member may publish.
pub(super) const PUBLICATION_LIMIT: u32 = 65_535;

/// An object or a withdrawal that was published.
#[derive(Debug, Drop)]
pub struct Published {
    /// Its number: those of a member are 1, 2, 3 and so on.
    pub seq: u16,
    /// The sync Interest that reports it.
    pub sync: Vec<u8>,
}

// All that a publication makes.
#[derive(Drop)]
struct Prepared {
    summary: RecordSummary,
    packets: Vec<Packet>,
    sync: Vec<u8>,
}

impl Member {
    /// The member publishes an object under its next number, and holds all its packets.
    pub fn publish(
        &mut self,
        g: &Group,
        name: &Name,
        contents: &[Vec<u8>],
        now: u64,
        draw: u32,
    ) -> Result<Published, PublishRefusal>
        requires group { IsOfGroup g.now self.old }
        requires name { IsTrue (is_object_name name.now) }
        requires few { length contents.now ≤ segment_limit }
        requires contents { All (λ c. IsContent c.items) contents.now }
        requires draws { CanDraw now self.old }
        ensures published { IfOk result (IsPublished g.now self.old
            (Offers (record { name = name.now; contents = map (λ c. c.items) contents.now })) now draw self.new) }
        ensures spent { (log : ℕ) → (result ≡ Err (PublishRefusal.NumbersSpent log))
            ↔ ((log ≡ length self.old.log) × (publication_limit ≤ length self.old.log)) }
        ensures err { OnErr result (self.new ≡ self.old) }
    {
        let log = self.log_len();
        if log >= PUBLICATION_LIMIT {
            return Err(PublishRefusal::NumbersSpent { log });
        }
        let object = Object::new(*self.log.allocator(), name, contents)?;
        let post = Post::Object {
            object,
            withdrawn: false,
        };
        match self.publish_post(g, post, now, draw) {
            Ok(published) => Ok(published),
            Err(_) => Err(PublishRefusal::NoMemory),
        }
    }

    /// The member withdraws an object that it published under an earlier number, by a publication under its next
    /// number. A member or mirror that holds the record of the withdrawal doesn't list the object any more. The parts
    /// of the object stay wanted, held and served.
    ///
    /// An object that the member deleted can be withdrawn too. A withdrawal can't.
    pub fn withdraw(
        &mut self,
        g: &Group,
        seq: u16,
        now: u64,
        draw: u32,
    ) -> Result<Published, WithdrawRefusal>
        requires group { IsOfGroup g.now self.old }
        requires draws { CanDraw now self.old }
        ensures published { IfOk result (IsPublished g.now self.old (Withdraws seq) now draw self.new) }
        ensures object { OnOk result (has_unwithdrawn self.old.log seq ≡ true) }
        ensures no_object { (number : ℕ) → (result ≡ Err (WithdrawRefusal.NoSuchNumber number))
            ↔ ((number ≡ seq) × (has_unwithdrawn self.old.log seq ≡ false)) }
        ensures spent { (log : ℕ) → (result ≡ Err (WithdrawRefusal.NumbersSpent log))
            ↔ ((has_unwithdrawn self.old.log seq ≡ true)
            × (log ≡ length self.old.log) × (publication_limit ≤ length self.old.log)) }
        ensures err { OnErr result (self.new ≡ self.old) }
    {
        if !has_unwithdrawn(&self.log, seq) {
            return Err(WithdrawRefusal::NoSuchNumber { seq });
        }
        let log = self.log_len();
        if log >= PUBLICATION_LIMIT {
            return Err(WithdrawRefusal::NumbersSpent { log });
        }
        match self.publish_post(g, Post::Withdrawal { seq }, now, draw) {
            Ok(published) => Ok(published),
            Err(_) => Err(WithdrawRefusal::NoMemory),
        }
    }

    // Publishes an object or a withdrawal under the next number, or gives it back where memory runs out.
    pub(super) fn publish_post(
        &mut self,
        g: &Group,
        post: Post,
        now: u64,
        draw: u32,
    ) -> Result<Published, Post>
        requires group { IsOfGroup g.now self.old }
        requires numbers { length self.old.log < publication_limit }
        requires new { IsNew (next_seq self.old) post }
        requires draws { CanDraw now self.old }
        ensures published { IfOk result (IsPublished g.now self.old (post_of post) now draw self.new) }
        ensures back { IfErr result (λ back. back ≡ post) }
        ensures err { OnErr result (self.new ≡ self.old) }
    {
        let Ok(prepared) = self.prepare(g, &post) else {
            return Err(post);
        };
        self.publish_prepared(post, prepared, now, draw)
    }

    // Publishes what was prepared under the next number, or gives it back where memory runs out.
    fn publish_prepared(
        &mut self,
        post: Post,
        prepared: Prepared,
        now: u64,
        draw: u32,
    ) -> Result<Published, Post>
        requires numbers { length self.old.log < publication_limit }
        requires new { IsNew (next_seq self.old) post }
        requires post { IsPost (next_seq self.old) (post_of post) }
        requires parts { ArePackets prepared.summary prepared.packets.items }
        requires draws { CanDraw now self.old }
        ensures published { IfOk result
            (ArePublished self.old (post_of post) prepared.packets.items prepared.sync now draw self.new) }
        ensures back { IfErr result (λ back. back ≡ post) }
        ensures err { OnErr result (self.new ≡ self.old) }
    {
        let seq = self.next_seq();
        let number = self.number;
        // The member holds no part of the next number, under which nothing is published yet.
        self.held.cite_soundness();
        let Ok(()) = self.log.reserve(1) else {
            return Err(post);
        };
        let Ok(()) = self.held.reserve(prepared.packets.len()) else {
            return Err(post);
        };
        self.held.raise(number, seq);
        self.held
            .publish_parts(number, seq, prepared.summary, prepared.packets);
        push(&mut self.log, post);
        self.vector.raise(number, seq);
        self.machine.published(now, draw);
        Ok(Published {
            seq,
            sync: prepared.sync,
        })
    }

    /// The packet of an own part, whether it is still held or not; `None` where no such part was published.
    pub fn logged(&self, g: &Group, part: Part) -> Result<Option<Vec<u8>>, AllocError>
        requires { IsOfGroup g.now self.now }
        ensures { IfOk result (λ packet. option_map (λ p. p.items) packet ≡ logged g.now self.now part) }
    {
        if part.publisher != self.number || part.seq == 0 {
            return Ok(None);
        }
        let Some(post) = self.log.get(usize::from(part.seq) - 1) else {
            return Ok(None);
        };
        let alloc = *self.log.allocator();
        g.cite_soundness();
        let node = g.roster().name(self.number);
        let key = g.members().key(self.number);
        packet_in(alloc, post, part.seq, part.part, node, g.name(), key)
    }

    // The number of the next publication.
    fn next_seq(&self) -> u16
        requires { length self.now.log < publication_limit }
        ensures { result ≡ next_seq self.now }
    {
        self.log_len() as u16 + 1
    }

    // All that a publication under the next number makes.
    fn prepare(&self, g: &Group, post: &Post) -> Result<Prepared, AllocError>
        requires group { IsOfGroup g.now self.now }
        requires numbers { length self.now.log < publication_limit }
        requires new { IsNew (next_seq self.now) post.now }
        ensures post { OnOk result (IsPost (next_seq self.now) (post_of post.now)) }
        ensures prepared { IfOk result (λ prepared. IsPrepared g.now self.now (post_of post.now)
            prepared.summary prepared.packets.items prepared.sync.items) }
    {
        match post {
            Post::Object { object, .. } => self.prepare_object(g, object),
            Post::Withdrawal { seq } => self.prepare_withdrawal(g, *seq),
        }
    }

    // All that the publication of an object under the next number makes.
    fn prepare_object(&self, g: &Group, object: &Object) -> Result<Prepared, AllocError>
        requires group { IsOfGroup g.now self.now }
        requires numbers { length self.now.log < publication_limit }
        ensures within { OnOk result (IsObject object.now) }
        ensures prepared { IfOk result (λ prepared. IsPrepared g.now self.now (Offers object.now)
            prepared.summary prepared.packets.items prepared.sync.items) }
    {
        let alloc = *self.log.allocator();
        g.cite_soundness();
        let node = g.roster().name(self.number);
        let key = g.members().key(self.number);
        let packets = shared_packets_of(alloc, object, self.next_seq(), node, g.name(), key)?;
        let summary = RecordSummary::Object {
            shape: Shape::of(object.contents().len() as u16),
            name: object.name().clone()?,
        };
        let sync = self.next_sync(g)?;
        Ok(Prepared {
            summary,
            packets,
            sync,
        })
    }

    // All that the withdrawal of an object under the next number makes.
    fn prepare_withdrawal(&self, g: &Group, withdrawn: u16) -> Result<Prepared, AllocError>
        requires group { IsOfGroup g.now self.now }
        requires numbers { length self.now.log < publication_limit }
        requires earlier { IsPost (next_seq self.now) (Withdraws withdrawn) }
        ensures { IfOk result (λ prepared. IsPrepared g.now self.now (Withdraws withdrawn)
            prepared.summary prepared.packets.items prepared.sync.items) }
    {
        let alloc = *self.log.allocator();
        g.cite_soundness();
        let node = g.roster().name(self.number);
        let key = g.members().key(self.number);
        let seq = self.next_seq();
        let packet = withdrawal_packet(alloc, withdrawn, seq, node, g.name(), key)?;
        let mut packets = Vec::with_capacity(alloc, 1)?;
        packets.push(Packet::new(alloc, packet, None)?)?;
        let sync = self.next_sync(g)?;
        Ok(Prepared {
            summary: RecordSummary::Withdrawal { seq: withdrawn },
            packets,
            sync,
        })
    }

    // The sync Interest that reports the next publication.
    fn next_sync(&self, g: &Group) -> Result<Vec<u8>, AllocError>
        requires group { IsOfGroup g.now self.now }
        requires numbers { length self.now.log < publication_limit }
        ensures { IfOk result (λ sync. sync.items
            ≡ sync_of g.now self.now.number (slice_set self.now.known self.now.number (next_seq self.now))) }
    {
        let alloc = *self.log.allocator();
        let mut vector = self.vector.copy(alloc)?;
        vector.raise(self.number, self.next_seq());
        sync_of(alloc, g, self.number, &vector)
    }
}
