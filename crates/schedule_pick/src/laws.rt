//! What the choices of a schedule are.
ghost use Rattle.schedule_pick.specs.Choices.{FollowingLaw};

/// After one choice was taken, the t-th choice that is left is the one numbered `t + 1` before. So
/// `Schedule::next`, called the t-th time from 0, answers the t-th choice of the schedule.
pub fn one_choice_after_the_other()
    ensures { FollowingLaw }
{}
