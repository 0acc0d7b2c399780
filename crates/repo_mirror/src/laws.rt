ghost use Rattle.repo_mirror.specs.MirrorOutcomes.{HolderOutcomesAreMirrors, MirrorsPlanJobs, MirrorsPlanJobsThat};
ghost use Rattle.repo_mirror.specs.MirrorOutcomes.{PlannedJobsAreOutcomes, RisingJobsAreOutcomes};
ghost use Rattle.repo_mirror.specs.ConsistentMirrors.{MirrorsPlanAlike, MirrorsWantAlike, MirrorsListAlike};
ghost use Rattle.repo_mirror.specs.ConsistentMirrors.{MirrorsAreHolders};
ghost use Rattle.repo_mirror.specs.ConsistentMirrors.{MirrorsBeginConsistent, MirrorsLearnConsistent};
ghost use Rattle.repo_mirror.specs.ConsistentMirrors.{MirrorsGrowConsistent, MirrorsTakeConsistent};
ghost use Rattle.repo_mirror.specs.PacketsFor.{ArePacketsFor};
ghost use Rattle.repo_mirror.specs.WantedAlone.{WantsThose};
ghost use Rattle.repo_mirror.specs.MirrorCalls.{InEveryMirror, ListsAccepted, PassedIsGone, StoredStays, PassedStays};
ghost use Rattle.repo_mirror.specs.MirrorCalls.{KnowsTheJoin};

/// Every mirror that calls reach wants just the parts that a mirror with its pattern is to want, lists only objects
/// that its pattern accepts, and stores only packets that passed their checks and aren't records of other objects; and
/// it stores nothing of a publication that it passed over.
pub fn calls_keep_mirrors_sound()
    ensures wants { InEveryMirror WantsThose }
    ensures lists { InEveryMirror ListsAccepted }
    ensures packets { InEveryMirror (λ m. ArePacketsFor m.pattern m.store) }
    ensures gone { InEveryMirror PassedIsGone }
{}

/// Whatever is called, what a mirror stores stays stored, what it passed over stays passed over, and its vector is the
/// join of the one before and of those that it received.
pub fn calls_take_nothing_from_mirrors()
    ensures stored { StoredStays }
    ensures passed { PassedStays }
    ensures known { KnowsTheJoin }
{}

/// Any result of jobs that was checked for them is an outcome that the mirror can take, if the mirror planned the jobs,
/// or if they are of any parts that it wants, in order.
pub fn planned_jobs_can_be_taken()
    ensures planned { PlannedJobsAreOutcomes }
    ensures rising { RisingJobsAreOutcomes }
{}

/// A consistent mirror is a consistent holder. A mirror's jobs are those of a holder with its holdings, and an outcome
/// that this holder can take, the mirror can take.
pub fn mirrors_are_holders()
    ensures holders { MirrorsAreHolders }
    ensures jobs { MirrorsPlanJobs }
    ensures passing { MirrorsPlanJobsThat }
    ensures outcomes { HolderOutcomesAreMirrors }
{}

/// Where each stored packet is the published one of its part, a mirror's plan and catalogue are those that its group
/// has of it: it wants and lists just what a mirror with its pattern is to want and to list.
pub fn mirrors_are_the_groups()
    ensures plans { MirrorsPlanAlike }
    ensures wants { MirrorsWantAlike }
    ensures lists { MirrorsListAlike }
{}

/// Stored packets are the published ones of their parts from the start on, and stay so where others publish, and where
/// the mirror hears of what was published and takes published packets of wanted parts. It then holds just these too.
pub fn consistent_mirrors_stay_consistent()
    ensures begins { MirrorsBeginConsistent }
    ensures learns { MirrorsLearnConsistent }
    ensures grows { MirrorsGrowConsistent }
    ensures takes { MirrorsTakeConsistent }
{}
