// A member's publications as it keeps them.
ghost use Rattle.std.specs.Prelude.{◌≡◌, ◌++◌, ◌∷◌, [], ◌<◌, ◌≤◌, ◌+◌, length, map, vec_capacity, option_map, IfOk};
ghost use Rattle.ndn_name.specs.Names.{encoding};
ghost use Rattle.group_model.specs.Publications.{has_unwithdrawn};
ghost use Rattle.repo_object.specs.Limits.{node_name_limit};
ghost use Rattle.repo_object.specs.Objects.{IsPost, publisher};
ghost use Rattle.repo_object.specs.Publication.{packet_at};
ghost use Rattle.repo_member.specs.Posts.{post_of, posts_of, contents_of, IsNew, IsKeptLog, with_mark};

use ndn_name::Name;
use repo_object::{Object, packet_of, withdrawal_packet};
use std::alloc::{AllocError, Global};

// What was published under a number.
#[derive(Drop)]
pub(crate) enum Post {
    // An object, and whether a later publication withdraws it.
    Object { object: Object, withdrawn: bool },
    // The withdrawal of what was published under an earlier number.
    Withdrawal { seq: u16 },
}

impl Post {
    // The contents of the object's segments, which are moved out of it. A withdrawal has none.
    pub(crate) fn into_contents(self, alloc: Global) -> Vec<Vec<u8>>
        ensures { map (λ c. c.items) result.items ≡ contents_of self }
    {
        match self {
            Post::Object { object, .. } => object.into_parts().1,
            Post::Withdrawal { .. } => Vec::new(alloc),
        }
    }
}

// Whether an object was published under the number that is not withdrawn.
pub(crate) fn has_unwithdrawn(log: &[Post], seq: u16) -> bool
    requires { IsKeptLog log.now }
    ensures { result ≡ has_unwithdrawn (posts_of log.now) seq }
{
    let Some(place) = usize::from(seq).checked_sub(1) else {
        return false;
    };
    match log.get(place) {
        Some(Post::Object { withdrawn, .. }) => !*withdrawn,
        Some(Post::Withdrawal { .. }) | None => false,
    }
}

// The packet of a part of what a node of a group published under that number, or `None` where it has no such part.
pub(crate) fn packet_in(
    alloc: Global,
    post: &Post,
    seq: u16,
    part: u16,
    node: &Name,
    group: &Name,
    key: &[u8],
) -> Result<Option<Vec<u8>>, AllocError>
    requires post { IsPost seq (post_of post.now) }
    requires node { length (encoding node.now) ≤ node_name_limit }
    requires group { length (encoding group.now) ≤ node_name_limit }
    ensures { IfOk result (λ packet. option_map (λ p. p.items) packet
        ≡ packet_at (publisher node.now group.now key.now) seq (post_of post.now) part) }
{
    match post {
        Post::Object { object, .. } => packet_of(alloc, object, seq, part, node, group, key),
        Post::Withdrawal { seq: withdrawn } => {
            if part != 0 {
                return Ok(None);
            }
            let packet = withdrawal_packet(alloc, *withdrawn, seq, node, group, key)?;
            Ok(Some(packet))
        }
    }
}

// Puts one more publication after the others, where capacity was reserved. What it withdraws is marked.
pub(crate) fn push(log: &mut Vec<Post>, post: Post)
    requires room { length log.old.items < vec_capacity log.old }
    requires log { IsKeptLog log.old.items }
    requires new { IsNew (length log.old.items + 1) post }
    requires post { IsPost (length log.old.items + 1) (post_of post) }
    ensures posts { posts_of log.new.items ≡ posts_of log.old.items ++ post_of post ∷ [] }
    ensures log { IsKeptLog log.new.items }
{
    if let Post::Withdrawal { seq } = &post {
        mark(log, *seq);
    }
    log.push(post).unwrap();
}

// Marks the object of that number, if there is one, as withdrawn.
fn mark(log: &mut [Post], seq: u16)
    requires some { 0 < seq }
    requires there { seq ≤ length log.old }
    ensures { log.new ≡ with_mark seq log.old }
{
    if let Post::Object { withdrawn, .. } = &mut log[usize::from(seq) - 1] {
        *withdrawn = true;
    }
}
