// A member of a group that is taken out for a while, and the others.
ghost use Rattle.std.specs.Prelude.{◌≡◌, ◌≢◌, ◌<◌, ◌≤◌, ◌+◌, length, option_map, vec_len, vec_capacity};
ghost use Rattle.std.specs.List.{insert};
ghost use Rattle.bench_world.specs.Worlds.{state_at};
ghost use Rattle.bench_world.specs.Others.{place_among_others, other_at};

use repo_member::Member;
use repo_plan::Part;

// The members of a group but one, by their numbers in the group.
#[derive(Clone, Copy, Drop)]
pub(crate) struct Others<'a> {
    pub(crate) members: &'a [Member],
    pub(crate) without: u32,
}

impl<'a> Others<'a> {
    // Member `number` of the group, or none where it is the one that was taken out.
    pub(crate) fn get(&self, number: u32) -> Option<&'a Member>
        requires there { number < length self.now.members.now + 1 }
        requires without { self.now.without < length self.now.members.now + 1 }
        ensures { option_map (λ member. member.now) result
            ≡ other_at self.now.without self.now.members.now number }
    {
        if number == self.without {
            return None;
        }
        Some(&self.members[self.place(number)])
    }

    // The publisher of a part, which isn't the one that was taken out.
    pub(crate) fn publisher(&self, part: Part) -> &'a Member
        requires there { part.publisher < length self.now.members.now + 1 }
        requires without { self.now.without < length self.now.members.now + 1 }
        requires other { part.publisher ≢ self.now.without }
        ensures { result.now ≡ state_at self.now.members.now (place_among_others self.now.without part.publisher) }
    {
        &self.members[self.place(part.publisher)]
    }

    // The place of member `number` among the others.
    fn place(&self, number: u32) -> usize
        requires { number ≢ self.now.without }
        ensures { result ≡ place_among_others self.now.without number }
    {
        if number < self.without {
            number as usize
        } else {
            number as usize - 1
        }
    }
}

// Puts a member or a mirror back where it was taken out. Its place is still allocated.
pub(crate) fn put_back<T: Drop>(row: &mut Vec<T>, place: u32, item: T)
    requires place { place ≤ vec_len row.old }
    requires room { vec_len row.old < vec_capacity row.old }
    ensures { row.new.items ≡ insert row.old.items place item }
{
    let Ok(()) = row.insert(place as usize, item) else {
        unreachable!()
    };
}
