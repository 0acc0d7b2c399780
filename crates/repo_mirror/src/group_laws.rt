ghost use Rattle.repo_mirror.specs.MirrorLaws.{MirrorsWantThose, MirrorsGain, MirrorsList, MirrorsJoin};
ghost use Rattle.repo_mirror.specs.MirrorLaws.{MirrorsLearnAll, SettledHoldThose, GatheringGainsThose};

/// The plan of a mirror wants just the parts that a mirror is to want: the records of the known publications of the
/// publishers that it asks, and the parts of the objects that its pattern accepts whose digests it holds, that aren't
/// held.
pub fn mirrors_want_those()
    ensures { MirrorsWantThose }
{}

/// A sound mirror that receives a wanted part holds it from then on, and stays sound.
pub fn mirrors_gain_what_comes()
    ensures { MirrorsGain }
{}

/// What a mirror lists are the objects that its pattern accepts of which it holds every part, and no withdrawal.
pub fn mirrors_list_what_is_accepted()
    ensures { MirrorsList }
{}

/// A mirror that takes one wanted part after another, until nobody holds what it wants, holds in the end every part
/// that it could take so, in whatever order.
pub fn settled_mirrors_hold_what_comes()
    ensures { SettledHoldThose }
{}

/// A mirror that gathers in a settle gains only parts that it can take one after another, as it comes to want them, in
/// whatever order and rounds, and in the end all of them.
pub fn gathering_gains_those()
    ensures { GatheringGainsThose }
{}

/// A mirror that joins the vectors of all members knows all publications.
pub fn mirrors_learn_all()
    ensures { MirrorsLearnAll }
{}

/// Where no member hides anything, and the mirror knows all publications and wants nothing that someone holds, it lists
/// all objects of the join of all publications that its pattern accepts.
pub fn a_settled_mirror_joins()
    ensures { MirrorsJoin }
{}
