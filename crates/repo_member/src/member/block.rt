ghost use Rattle.std.specs.Prelude.{◌≡◌, ◌≤◌, ◌↔◌, ℕ, Err, IfOk, OnOk, OnErr, IsTrue, length};
ghost use Rattle.repo_object.specs.Objects.{IsContent};
ghost use Rattle.repo_process.specs.Arrivals.{is_last};
ghost use Rattle.repo_member.specs.MemberState.{IsOfGroup, publication_limit};
ghost use Rattle.repo_member.specs.Blocks.{member_block, member_blocks, CompletesAnObject, IsBlockAnswer};
ghost use Rattle.repo_member.specs.Publishing.{CanDraw};

use super::Member;
use super::publishing::{PUBLICATION_LIMIT, Published};
use crate::group::Group;
use crate::post::Post;
use crate::refusals::PublishRefusal;
use repo_object::Object;
use repo_process::BlockState;

/// The result of a block of an insertion.
#[derive(Debug, Drop)]
pub enum Blocked {
    /// There is no such process, or none of its blocks has that index.
    Unknown,
    /// Another block is still missing.
    Waiting,
    /// The object was published before.
    Already,
    /// No other block was missing, and the object is published.
    Published(Published),
}

impl Member {
    /// Takes a block of an insertion, unless the process has one of its index already. The last missing block publishes
    /// the object, and isn't taken where publishing is refused.
    pub fn block(
        &mut self,
        g: &Group,
        process: u32,
        index: u64,
        content: &[u8],
        now: u64,
        draw: u32,
    ) -> Result<Blocked, PublishRefusal>
        requires group { IsOfGroup g.now self.old }
        requires content { IsContent content.now }
        requires draws { CanDraw now self.old }
        ensures answer { IfOk result (IsBlockAnswer g.now self.old self.new
            (member_block self.old process index content.now)) }
        ensures ok { OnOk result
            (self.new ≡ member_blocks g.now process index content.now now draw self.old) }
        ensures object { OnOk result
            (CompletesAnObject (member_block self.old process index content.now)) }
        ensures spent { (log : ℕ) → (result ≡ Err (PublishRefusal.NumbersSpent log))
            ↔ (IsTrue (is_last (member_block self.old process index content.now))
            × (log ≡ length self.old.log) × (publication_limit ≤ length self.old.log)) }
        ensures err { OnErr result (self.new ≡ self.old) }
    {
        let is_last = self.processes.completes(process, index);
        let log = self.log_len();
        if is_last && log >= PUBLICATION_LIMIT {
            return Err(PublishRefusal::NumbersSpent { log });
        }
        match self.processes.block(process, index, content)? {
            BlockState::Unknown => return Ok(Blocked::Unknown),
            BlockState::Kept { .. } => return Ok(Blocked::Waiting),
            BlockState::Complete => {}
        }
        let Some((name, _)) = self.processes.whole(process) else {
            return Ok(Blocked::Already);
        };
        let Ok(name) = name.clone() else {
            self.processes.take_back(process, index);
            return Err(PublishRefusal::NoMemory);
        };
        // The blocks are moved into the object, and back where it is not published.
        let object = Object::from_parts(name, self.processes.hand_over(process));
        let post = Post::Object {
            object,
            withdrawn: false,
        };
        match self.publish_post(g, post, now, draw) {
            Ok(published) => Ok(Blocked::Published(published)),
            Err(post) => {
                let contents = post.into_contents(*self.log.allocator());
                self.processes.reopen(process, contents);
                self.processes.take_back(process, index);
                Err(PublishRefusal::NoMemory)
            }
        }
    }
}
