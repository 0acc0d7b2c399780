ghost use Rattle.repo_plan.specs.Sound.{PlanIsSound};
ghost use Rattle.repo_plan.specs.Calls.{ClaimsOnce};
ghost use Rattle.repo_member.specs.MemberState.{IsMemberState, ArePosts, IsOfGroup, member_plan};
ghost use Rattle.repo_member.specs.Blocks.{AreWithinLimits};
ghost use Rattle.repo_member.specs.InGroup.{BeginsAlike, PublishesAlike, HearsAlike, LearnsAlike, FiresAlike};
ghost use Rattle.repo_member.specs.InGroup.{ClaimsAlike, AcceptsAlike, TakesAlike, EndsClaimsAlike, ResetsAlike};
ghost use Rattle.repo_member.specs.InGroup.{RestartsAlike, StartsAlike, KeepsAlike, SoundStoresConsistently};
ghost use Rattle.repo_member.specs.InGroup.{PlansAlike};
ghost use Rattle.repo_member.specs.InGroup.{WantsAlike, ListsAlike, DeletesAlike, BeginsConsistently};
ghost use Rattle.repo_member.specs.InGroup.{GrowsConsistently};
ghost use Rattle.repo_member.specs.InGroup.{PublishesConsistently, AcceptsConsistently, TakesConsistently};
ghost use Rattle.repo_member.specs.InGroup.{StaysConsistent, LogsBegin, LogsGrow};
ghost use Rattle.repo_member.specs.InEvents.{PublishIsEvent, WithdrawIsEvent, DeliverIsEvent, HearIsEvent};
ghost use Rattle.repo_member.specs.InEvents.{FireIsEvent, RestartIsEvent};
ghost use Rattle.repo_member.specs.InEvents.{ClaimIsEvent, LoseIsEvent, AnswerIsEvent, FeedIsEvent, FetchIsEvent};
ghost use Rattle.repo_member.specs.InEvents.{OrderIsEvent, OrderIsAnswered, IssueIsEvent, IssueIsAnswered};
ghost use Rattle.repo_member.specs.InEvents.{BlockIsEvent, BlockStatesAlike, LearnsAtOnce, LearnsWhatAllKnow};
ghost use Rattle.repo_member.specs.InEvents.{GatheringIsEvent, SettleIsEvent, OpenPartsAlike, CataloguesAlike};
ghost use Rattle.repo_member.specs.Outcomes.{HolderJobsArePlanned, RisingJobsArePlanned, HolderJobsAreOutcomes};
ghost use Rattle.repo_member.specs.Outcomes.{JobsArePlanned, PlannedJobsAreOutcomes};
ghost use Rattle.repo_member.specs.ConsistentMembers.{ConsistentIsMemberState, ConsistentIsOf, ConsistentStores};
ghost use Rattle.repo_member.specs.ConsistentMembers.{StoresThose, LogsThose};
ghost use Rattle.repo_member.specs.ConsistentMembers.{WantsPublished, WantsAreConsistent, PacketsAreThere, PacketsPass};
ghost use Rattle.repo_member.specs.ConsistentMembers.{PacketsPassForMembers, AcceptsTheClaimed, TakesTheConsistent};
ghost use Rattle.repo_member.specs.ConsistentHolders.{MembersAreHolders, HoldersStoreConsistently, HoldersStoreThose};
ghost use Rattle.repo_member.specs.ConsistentHolders.{HoldersWantPublished, HoldersWantConsistently};
ghost use Rattle.repo_member.specs.ConsistentHolders.{PacketsPassForHolders};
ghost use Rattle.repo_member.specs.ConsistentHolders.{FetchedAreStored, MembersTakeAll, HoldersTakeConsistently};
ghost use Rattle.repo_member.specs.ConsistentChanges.{BeginsConsistent, PublishesConsistent, OthersPublish};
ghost use Rattle.repo_member.specs.ConsistentChanges.{LogsHaveGrown, LearnsConsistent};
ghost use Rattle.repo_member.specs.ConsistentChanges.{HearsConsistent, InsertsConsistent, BlocksConsistent};
ghost use Rattle.repo_member.specs.ConsistentChanges.{DeletesConsistent, ObeysConsistent, FiresConsistent};
ghost use Rattle.repo_member.specs.ConsistentChanges.{ResetsConsistent, RestartsConsistent, EndsClaimsConsistent};
ghost use Rattle.repo_member.specs.ConsistentChanges.{ClaimsConsistent, LosesConsistent};
ghost use Rattle.repo_member.specs.ConsistentChanges.{AcceptsConsistent, TakesConsistent};
ghost use Rattle.repo_member.specs.ConsistentSyncs.{KeysAreFound, SyncsAreReceived, SyncsAreTaken};
ghost use Rattle.repo_member.specs.Commanded.{MadeOrdersAreTaken, OrdersBeyondAreMalformed};
ghost use Rattle.repo_member.specs.Calls.{LogsGoOn, PublicationsStay, WithdrawalsStay, LoggedPacketsStay};
ghost use Rattle.repo_member.specs.Calls.{NumbersNeverFall};
ghost use Rattle.repo_member.specs.Calls.{KnownIsTheJoin, InEveryMember, HeldPacketsStay, HiddenForGood, HiddenIsGone};
ghost use Rattle.repo_member.specs.Calls.{OthersPassed, OwnStored};

/// A member by itself begins as its group has it. What publishing, hearing, learning, its timer and a restart change in
/// it is what the group changes in that member.
pub fn publishing_and_syncing_are_the_groups()
    ensures begins { BeginsAlike }
    ensures publishes { PublishesAlike }
    ensures hears { HearsAlike }
    ensures learns { LearnsAlike }
    ensures fires { FiresAlike }
    ensures resets { ResetsAlike }
    ensures restarts { RestartsAlike }
{}

/// What fetching and inserting change in a member by itself is what the group changes in that member.
pub fn fetching_and_inserting_are_the_groups()
    ensures claims { ClaimsAlike }
    ensures accepts { AcceptsAlike }
    ensures takes { TakesAlike }
    ensures ends_claims { EndsClaimsAlike }
    ensures starts { StartsAlike }
    ensures keeps { KeepsAlike }
{}

/// Where each stored packet is the published one of its part, a member's plan is its group's plan of it, and so it
/// wants the same parts.
pub fn members_want_what_the_group_says()
    ensures stores { SoundStoresConsistently }
    ensures plans { PlansAlike }
    ensures wants { WantsAlike }
{}

/// Where each stored packet is the published one of its part, a member's catalogue is its group's catalogue of it, and
/// so it hides the same publications of a name.
pub fn members_list_what_the_group_says()
    ensures lists { ListsAlike }
    ensures deletes { DeletesAlike }
{}

/// Stored packets are the published ones of their parts from the start on, and stay so: where others publish, where the
/// member publishes, and where it takes published packets.
pub fn consistently_stored_lasts()
    ensures begins { BeginsConsistently }
    ensures grows { GrowsConsistently }
    ensures publishes { PublishesConsistently }
    ensures accepts { AcceptsConsistently }
    ensures takes { TakesConsistently }
    ensures others { StaysConsistent }
    ensures logs_begin { LogsBegin }
    ensures logs_grow { LogsGrow }
{}

/// In any world of which it is part, a member changes by publishing, withdrawing, hearing a sync Interest, its timer
/// and a restart as the events of those names say.
pub fn publishing_and_syncing_are_events()
    ensures publish { PublishIsEvent }
    ensures withdraw { WithdrawIsEvent }
    ensures deliver { DeliverIsEvent }
    ensures hear { HearIsEvent }
    ensures fire { FireIsEvent }
    ensures restart { RestartIsEvent }
{}

/// In any world of which it is part, a member changes by a claim, a lost claim, an answer of another member, octets
/// from outside and a fetch as the events of those names say.
pub fn fetching_is_events()
    ensures claim { ClaimIsEvent }
    ensures lose { LoseIsEvent }
    ensures answer { AnswerIsEvent }
    ensures feed { FeedIsEvent }
    ensures fetch { FetchIsEvent }
{}

/// In any world of which it is part, a member changes by commands and blocks as the events of those names say, and the
/// world replies what the member answers.
pub fn commands_and_blocks_are_events()
    ensures order { OrderIsEvent }
    ensures order_answer { OrderIsAnswered }
    ensures issue { IssueIsEvent }
    ensures issue_answer { IssueIsAnswered }
    ensures block { BlockIsEvent }
    ensures block_state { BlockStatesAlike }
{}

/// In any world of which it is part, a member changes by a settle as that event says, in whatever order it receives
/// vectors and parts. The parts that it can claim and its catalogue are those that the world has for it.
pub fn settles_are_events()
    ensures learns { LearnsAtOnce }
    ensures learns_all { LearnsWhatAllKnow }
    ensures gathering { GatheringIsEvent }
    ensures settle { SettleIsEvent }
    ensures open_parts { OpenPartsAlike }
    ensures catalogue { CataloguesAlike }
{}

/// A command that a client of the group makes for a member is taken by it as that client's and that command, where it
/// is within the limits of commands.
pub fn made_orders_are_taken()
    ensures taken { MadeOrdersAreTaken }
    ensures beyond { OrdersBeyondAreMalformed }
{}

/// Whatever is called afterwards, a member's log has what it had as its prefix, a publication keeps its number, which
/// is one more than how many there were, and the packets of its parts stay what they are.
pub fn publications_last()
    ensures log { LogsGoOn }
    ensures numbers { PublicationsStay }
    ensures withdrawals { WithdrawalsStay }
    ensures packets { LoggedPacketsStay }
{}

/// No number that a member knows falls, whatever is called. What it knows is the join of what it knew and of the
/// vectors that it heard and took; of itself it knows how often it published.
pub fn vectors_only_rise()
    ensures rise { NumbersNeverFall }
    ensures join { KnownIsTheJoin }
{}

/// In every member that calls reach, no two fetchers claim one part, and what is claimed is wanted.
pub fn claims_differ()
    ensures { InEveryMember (λ g a. ClaimsOnce (member_plan a)) }
{}

/// In every member that calls reach, a stored packet of another publisher's part passes for the want that the member
/// has of that part now, which for a part after a record is of what the stored record or index packet lists. Of its
/// own parts it stores those that it published and did not hide, as they were published. What is stored stays, whatever
/// is called, as long as its publication is not hidden.
pub fn held_parts_passed_their_checks()
    ensures others { InEveryMember OthersPassed }
    ensures own { InEveryMember OwnStored }
    ensures stay { HeldPacketsStay }
{}

/// What a member hid stays hidden, whatever is called, and no part of it is wanted or stored, and so none is claimed or
/// served.
pub fn hidden_publications_are_gone()
    ensures stay { HiddenForGood }
    ensures gone { InEveryMember HiddenIsGone }
{}

/// Every member that calls reach is one of its group, knows all that it published, and has a sound plan. Its objects
/// and insertion processes are within the limits, and its withdrawals are of earlier numbers.
pub fn calls_keep_members_sound()
    ensures member_state { InEveryMember (λ g a. IsMemberState a) }
    ensures group { InEveryMember IsOfGroup }
    ensures plan { InEveryMember (λ g a. PlanIsSound (member_plan a)) }
    ensures posts { InEveryMember (λ g a. ArePosts a.log) }
    ensures insertions { InEveryMember (λ g a. AreWithinLimits a.insertions.processes) }
{}

/// A consistent member satisfies what holds of every member by itself. It stores the packets of the parts that it
/// holds, and its log gives those of its own.
pub fn consistent_members_store_what_was_published()
    ensures member_state { ConsistentIsMemberState }
    ensures group { ConsistentIsOf }
    ensures consistent { ConsistentStores }
    ensures stores { StoresThose }
    ensures logs { LogsThose }
{}

/// A consistent member wants parts that were published, by the want of the published part. A published part has a
/// packet of at most 8,800 octets, which passes for that want.
pub fn published_packets_pass()
    ensures published { WantsPublished }
    ensures wants { WantsAreConsistent }
    ensures there { PacketsAreThere }
    ensures passes { PacketsPass }
    ensures for_members { PacketsPassForMembers }
{}

/// A consistent member is a consistent holder. A consistent holder stores the packets of the parts that it holds. It
/// wants parts that were published, by the want of the published part, and the packet of the part passes for it.
pub fn holders_want_what_was_published()
    ensures members { MembersAreHolders }
    ensures consistent { HoldersStoreConsistently }
    ensures stores { HoldersStoreThose }
    ensures published { HoldersWantPublished }
    ensures wants { HoldersWantConsistently }
    ensures passes { PacketsPassForHolders }
{}

/// A consistent holder stays consistent where it takes published packets of wanted parts. It stores then the parts that
/// were received, and those before.
pub fn holders_take_what_was_published()
    ensures stored { FetchedAreStored }
    ensures members { MembersTakeAll }
    ensures consistent { HoldersTakeConsistently }
{}

/// Octets are accepted for the part that the fetcher claims, and a consistent member accepts the published packet of
/// that part.
pub fn claimed_parts_are_accepted()
    ensures claimed { AcceptsTheClaimed }
    ensures taken { TakesTheConsistent }
{}

/// A new member is consistent. It stays so when it publishes, with the last block of an insertion too, and when others
/// publish.
pub fn publishing_keeps_members_consistent()
    ensures begins { BeginsConsistent }
    ensures publishes { PublishesConsistent }
    ensures blocks { BlocksConsistent }
    ensures others { OthersPublish }
    ensures grown { LogsHaveGrown }
{}

/// A consistent member stays so when it takes or hears a vector of what was published, and when its timer fires or is
/// set anew, or it starts again.
pub fn syncing_keeps_members_consistent()
    ensures learns { LearnsConsistent }
    ensures hears { HearsConsistent }
    ensures fires { FiresConsistent }
    ensures resets { ResetsConsistent }
    ensures restarts { RestartsConsistent }
{}

/// A consistent member stays so when it inserts, deletes and answers commands, and when it fetches, as long as what it
/// takes is what was published.
pub fn fetching_and_obeying_keep_members_consistent()
    ensures inserts { InsertsConsistent }
    ensures deletes { DeletesConsistent }
    ensures obeys { ObeysConsistent }
    ensures ends_claims { EndsClaimsConsistent }
    ensures claims { ClaimsConsistent }
    ensures loses { LosesConsistent }
    ensures accepts { AcceptsConsistent }
    ensures takes { TakesConsistent }
{}

/// The key of each node is found under its number. A sync Interest of a member has its number and the vector, and
/// each member takes it.
pub fn syncs_of_members_are_taken()
    ensures keys { KeysAreFound }
    ensures received { SyncsAreReceived }
    ensures taken { SyncsAreTaken }
{}

/// Jobs that a member plans, or another holder of parts in its group, are of different parts, each wanted and claimed
/// by nobody; so are the jobs of any such parts in order. Any result of planned jobs that was checked for them is an
/// outcome that can be taken.
pub fn planned_jobs_can_be_taken()
    ensures holders { HolderJobsArePlanned }
    ensures rising { RisingJobsArePlanned }
    ensures taken { HolderJobsAreOutcomes }
    ensures planned { JobsArePlanned }
    ensures outcomes { PlannedJobsAreOutcomes }
{}
