ghost use Rattle.std.specs.Prelude.{ℕ};
ghost use Rattle.repo_member.specs.Groups.{GroupKeys};
ghost use Rattle.bench_world.specs.EventValues.{EventValue};
ghost use Rattle.bench_world.specs.Worlds.{GroupState, IsConsistentState};
ghost use Rattle.bench_world.specs.Answerable.{HoldersCanAnswer, PublishersCanAnswer};
ghost use Rattle.bench_world.specs.Runs.{GathersAgain, SettlesAgain};
ghost use Rattle.bench_world.specs.Workers.{ComeToTheSame};

/// Where index packets and segments are identified by their names and digests, an answer from a member that holds the
/// claimed part is kept. So is an answer from the publisher of the part, unless the publisher has deleted the
/// publication.
pub fn claimed_parts_can_be_answered()
    ensures holders { (s : GroupState) → IsConsistentState s → HoldersCanAnswer s }
    ensures publishers { (s : GroupState) → IsConsistentState s → PublishersCanAnswer s }
{}

/// A settle that ran out of memory can be made again, and then leaves the members that it would have left at first.
pub fn a_settle_can_be_made_again()
    ensures settle { GathersAgain }
    ensures step { SettlesAgain }
{}

/// The number of workers of a fetch or a settle changes neither its refusal, nor the world after it, nor its report.
pub fn workers_make_no_difference()
    ensures fetches { (g : GroupKeys) (m tries loss few many : ℕ)
        → ComeToTheSame g (EventValue.Fetch m few tries loss) (EventValue.Fetch m many tries loss) }
    ensures settles { (g : GroupKeys) (few many : ℕ)
        → ComeToTheSame g (EventValue.Settle few) (EventValue.Settle many) }
{}
