ghost use Rattle.live_top.specs.Printed.{JournalsArePrintedWhole, PublishersAreMembers};

/// Each entry of a journal of members that ran has a line.
pub fn journals_are_printed_whole()
    ensures { JournalsArePrintedWhole }
{}

/// The publisher in each line of a journal that names a part, and in each line of a catalogue, is a member of the
/// group, and has a label.
pub fn publishers_are_members()
    ensures { PublishersAreMembers }
{}
