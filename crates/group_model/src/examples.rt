ghost use Rattle.group_model.specs.Examples.{Settles, NothingHappens, Delivers, OldRepeats, PartByPart};
ghost use Rattle.group_model.specs.Examples.{SameObjectTwice, ThreeMembers, SegmentCounts, SettleEndsClaims, Timers};
ghost use Rattle.group_model.specs.Examples.{Fetches, ThirdAttempts, FromOutside, RestartKeepsNumbers, Insertion};
ghost use Rattle.group_model.specs.Examples.{Blocks, DeletedBefore, InformedOfAll, JoinOfThem};
ghost use Rattle.group_model.specs.Examples.{UnsentIsRefused, BusyIsRefused, IdleIsRefused, HearIsForeign};
ghost use Rattle.group_model.specs.Examples.{FeedIsForeign, AnswerIsForeign, OrderIsForeign, SpentIsRefused};
ghost use Rattle.group_model.specs.KindExamples.{WithdrawnOnce, WithdrawnBefore, WithdrawnAfter, DeletedAndWithdrawn};
ghost use Rattle.group_model.specs.KindExamples.{WithdrawingIsSpent, JoinLessWithdrawn, PartsOfLongObjects};
ghost use Rattle.group_model.specs.KindExamples.{AfterIndexPackets, FetchesInTurn};

/// How small groups sync and settle, event by event, computed from the definitions.
pub fn groups_sync_so()
    ensures settles { Settles }
    ensures nothing { NothingHappens }
    ensures delivers { Delivers }
    ensures old_repeats { OldRepeats }
    ensures settle_ends_claims { SettleEndsClaims }
    ensures timers { Timers }
    ensures informed_of_all { InformedOfAll }
{}

/// Which objects small groups list after events, and the join of all, computed from the definitions.
pub fn groups_list_objects_so()
    ensures part_by_part { PartByPart }
    ensures same_object_twice { SameObjectTwice }
    ensures three_members { ThreeMembers }
    ensures segment_counts { SegmentCounts }
    ensures join_of_them { JoinOfThem }
{}

/// How small groups fetch parts, event by event, also after index packets, and take octets from outside, computed from
/// the definitions.
pub fn groups_fetch_so()
    ensures fetches { Fetches }
    ensures third_attempts { ThirdAttempts }
    ensures from_outside { FromOutside }
    ensures parts_of_long_objects { PartsOfLongObjects }
    ensures after_index_packets { AfterIndexPackets }
    ensures fetches_in_turn { FetchesInTurn }
{}

/// How small groups restart, delete objects and take insertions, event by event, computed from the definitions.
pub fn groups_obey_so()
    ensures restart_keeps_numbers { RestartKeepsNumbers }
    ensures insertion { Insertion }
    ensures blocks { Blocks }
    ensures deleted_before { DeletedBefore }
{}

/// How small groups withdraw objects, event by event, computed from the definitions.
pub fn groups_withdraw_so()
    ensures withdrawn_before { WithdrawnBefore }
    ensures withdrawn_after { WithdrawnAfter }
    ensures deleted_and_withdrawn { DeletedAndWithdrawn }
    ensures join_less_withdrawn { JoinLessWithdrawn }
{}

/// Which events small groups refuse, computed from the definitions.
pub fn groups_refuse_so()
    ensures unsent { UnsentIsRefused }
    ensures busy { BusyIsRefused }
    ensures idle { IdleIsRefused }
    ensures spent { SpentIsRefused }
    ensures withdrawn_once { WithdrawnOnce }
    ensures withdrawing_is_spent { WithdrawingIsSpent }
{}

/// Which octets, of those that pass all checks, small groups call foreign, computed from the definitions.
pub fn groups_call_octets_foreign_so()
    ensures hear { HearIsForeign }
    ensures feed { FeedIsForeign }
    ensures answer { AnswerIsForeign }
    ensures order { OrderIsForeign }
{}
