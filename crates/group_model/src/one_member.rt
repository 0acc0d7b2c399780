ghost use Rattle.group_model.specs.OneMember.{JoinsByItself};

/// Over any publications, a member that knows of all, has deleted nothing and wants nothing lists their join, whatever
/// its group and the other members are.
pub fn one_member_joins_by_itself()
    ensures joins { JoinsByItself }
{}
