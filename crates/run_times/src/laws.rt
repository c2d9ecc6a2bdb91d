//! Laws of times. The function does nothing: its contract is the laws.
ghost use Rattle.run_times.specs.{EachEndTimeIsItsOwn, EachForkTimeIsItsOwn, EachOpenTimeIsItsOwn, EachStartTimeIsItsOwn};

/// The reading of a task's start is that of the event by which this task started, and the reading of its end that of an
/// event by which it finished or was rejected. The reading of its fork is that of its own fork, and the reading of a
/// scope's opening is that of its own opening.
pub fn times_are_their_own()
    ensures forks { EachForkTimeIsItsOwn }
    ensures starts { EachStartTimeIsItsOwn }
    ensures ends { EachEndTimeIsItsOwn }
    ensures opens { EachOpenTimeIsItsOwn }
{}
