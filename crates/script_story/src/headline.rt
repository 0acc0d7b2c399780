ghost use Rattle.std.specs.Prelude.{ℕ, List};
ghost use Rattle.script_story.specs.Headline.{BeginsWithReports, EachIsTaken, HidesByDeletionAlone, IsReportOf};
ghost use Rattle.script_story.specs.Headline.{PrintsCatalogues, PrintsLater, ReachSoundGroups, SettlesJoin};
ghost use Rattle.script_story.specs.Headline.{ReportChangesNothing};
ghost use Rattle.script_story.specs.HeldPackets.{EntriesTellOfDumped, MembersHoldChecked};
ghost use Rattle.script_story.specs.Evaluation.{RunEnvironment};
ghost use Rattle.script_report.specs.Labels.{MembersHaveLabels};
ghost use Rattle.repo_io.specs.Lines.{lines};
ghost use Rattle.script_story.specs.Listings.{ListedStay, SettledListWhatIsHeld, SettledListWhatIsLeft};
ghost use Rattle.script_story.specs.Listings.{InformedMembersJoin};
ghost use Rattle.script_story.specs.ShownCatalogues.{CatalogueLinesShow, SettleLinesShow};
ghost use Rattle.script_story.specs.ScriptRun.{nothing_reached, run_of};
ghost use Rattle.script_story.specs.InformedMembers.{ReportsNameOnlyMembers};
ghost use Rattle.script_story.specs.MirrorLaws.{MirrorsAreListed, MirrorsListTheirJoin};
ghost use Rattle.script_story.specs.Watchers.{SettledAreAnnounced, NewsIsAnnouncedWhole, NewsIsAnnouncedOnce};
ghost use Rattle.script_story.specs.Watchers.{ReportedIsPrinted};
ghost use Rattle.script_story.specs.Workers.{WorkersMakeNoDifference};

/// The run of an input is known by its lines: the first of them are taken one after the other, their reports are its
/// text, and the next line, if there is one, is refused or foreign. Each line that is taken has its report at its
/// place. However the script goes on after lines that are taken, its run begins with their reports.
pub fn runs_are_their_lines()
    ensures printed { (env : RunEnvironment) (input : List ℕ)
        → IsReportOf env nothing_reached (lines input) (run_of env input) }
    ensures each { EachIsTaken }
    ensures begins { BeginsWithReports }
{}

/// After any lines that are taken the group is sound, its members are those that the lines declared, no two under one
/// label, and what they published is within the limits of publications. Lines that only say what there is, and those
/// of watchers and of mirrors, leave it as it is.
pub fn lines_reach_sound_groups()
    ensures sound { ReachSoundGroups }
    ensures unchanged { ReportChangesNothing }
{}

/// In every run a printed catalogue lists exactly the objects that the member published or holds whole, undeleted
/// and not known withdrawn, each once under its publisher and number, in order, with what it says of the object. Until
/// a line changes something the same is printed.
pub fn printed_catalogues_list_what_is_held()
    ensures held { PrintsCatalogues }
    ensures later { PrintsLater }
{}

/// In every run each member that a report names was declared by a line, and is printed by its label.
pub fn printed_labels_are_declared()
    ensures reports { ReportsNameOnlyMembers }
    ensures labels { MembersHaveLabels }
{}

/// Right after a `settle` line, where nothing is deleted, every member's catalogue is the join of all publications,
/// less what was withdrawn, and `catalogue` lines print that until a line changes something. Nothing is deleted where
/// no line was taken that can delete.
pub fn a_settle_line_joins()
    ensures joins { SettlesJoin }
    ensures undeleted { HidesByDeletionAlone }
{}

/// Right after a `settle` line, whatever was deleted, each member lists exactly the objects of which the members held
/// every part between them before it, that it hasn't deleted and of which it holds no withdrawal. These are the objects
/// of the join of all publications that were held so and that it hasn't deleted.
pub fn settled_catalogues_list_what_was_held()
    ensures held { SettledListWhatIsHeld }
    ensures left { SettledListWhatIsLeft }
{}

/// In every run a member that lists an object lists it from then on, unchanged, until it deletes it or holds the record
/// of a withdrawal of it.
pub fn listed_objects_stay_listed()
    ensures { ListedStay }
{}

/// Where lines deliver to each member, for each other member that published, a sync Interest that reports its last
/// publication, and in the end nothing is wanted or deleted, every member's catalogue is the join of all publications,
/// and is printed so, without any `settle` line.
pub fn informed_members_join_without_a_settle()
    ensures { InformedMembersJoin }
{}

/// In every run the packet of each part that a member holds passes for the want of that part: by its name, its
/// publisher's key and signature, and for every part but a record its digest, which stands at its place in the
/// publication's record or in the index packet that lists it.
pub fn held_parts_passed_their_checks()
    ensures { MembersHoldChecked }
{}

/// In every run each entry of a catalogue tells what the dumped segments of its publication have: their contents,
/// joined, have the entry's number of octets, and their SHA-256 is its digest. After the record, which is part 0, come
/// the index packets, one for each 200 segments where there are more than 200, and then the segments.
pub fn entries_tell_what_dumps_show()
    ensures { EntriesTellOfDumped }
{}

/// Where the run of an input is done and one of its lines says `catalogue` and a label, the text is the reports of
/// the lines before it, then the entries of exactly the objects that the member published or fetched whole and
/// checked, undeleted and not known withdrawn, then the rest. Right after a `settle` line, where nothing was deleted,
/// these are all objects that were published and not withdrawn.
pub fn catalogue_lines_show_what_is_held()
    ensures held { CatalogueLinesShow }
    ensures settled { SettleLinesShow }
{}

/// In every run no two `told` lines of a watcher report one publication, whatever lines stand between them: also
/// restarts, deletions and withdrawals.
pub fn news_is_announced_once()
    ensures { NewsIsAnnouncedOnce }
{}

/// In every run, after a `told` line everything that the member lists and the watcher asks for is reported, and stays
/// so. Right after a `settle` line, where no line was taken that can delete, that is everything that the watcher asks
/// for in the join of all publications, less what was withdrawn.
pub fn news_is_announced_whole()
    ensures all { NewsIsAnnouncedWhole }
    ensures settled { SettledAreAnnounced }
{}

/// In every run, what counts as reported to a watcher was printed for it by a `told` line, or the member listed it when
/// the watcher was made: line by line, nothing else comes to count so.
pub fn reported_is_what_was_printed()
    ensures { ReportedIsPrinted }
{}

/// Two inputs that are read as the same lines, except how many workers their `fetch`, `mfetch` and `settle` lines ask
/// for, have the same run, where neither has more octets than a script may have.
pub fn workers_make_no_difference()
    ensures { WorkersMakeNoDifference }
{}

/// An `mcatalogue` line prints exactly the objects that the mirror's pattern accepts, of which it holds every part and
/// no withdrawal. After a `settle` line, where nothing is deleted and the lines between change nothing of group and
/// mirrors, that is what its pattern accepts of the join of publications. Nothing is deleted where no line was taken
/// that can delete: [`a_settle_line_joins`].
pub fn mirrors_list_what_they_ask_for()
    ensures listed { MirrorsAreListed }
    ensures joined { MirrorsListTheirJoin }
{}
