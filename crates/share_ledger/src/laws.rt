//! What holds of every list of steps. Each function does nothing: its contract is the law.

ghost use Rattle.share_ledger.specs.{AcceptedStepsAdd, BeginningsAreLegal, GivenTicketsWait, HistoriesAreLegal, SeenTicketsTell, StartedTicketsRun, StepsGoOn, TasksAreForks, TicketsTellStages};

/// A beginning of a legal list is legal.
pub fn beginnings_are_legal()
    ensures { BeginningsAreLegal }
{}

/// The history of a legal list is legal.
pub fn histories_are_legal()
    ensures { HistoriesAreLegal }
{}

/// A legal list goes on by a step that is accepted on its history, which goes on by that step.
pub fn steps_go_on()
    ensures { StepsGoOn }
{}

/// The tasks that were numbered so far are the forks of the list, over all retirements.
pub fn tasks_are_forks()
    ensures { TasksAreForks }
{}

/// The task of a ticket that was given a thread and isn't started waits, whatever happened since: no
/// retirement passed meanwhile.
pub fn given_tickets_wait()
    ensures { GivenTicketsWait }
{}

/// The task of a ticket that was given a thread and started, and isn't finished, runs, whatever happened
/// since.
pub fn started_tickets_run()
    ensures { StartedTicketsRun }
{}

/// A step that is accepted on a list with which its holder agrees makes a call that adds exactly it.
pub fn accepted_steps_add()
    ensures { AcceptedStepsAdd }
{}

/// What a ticket's own steps say is the same in the list that it has seen and in the whole list.
pub fn seen_tickets_tell()
    ensures { SeenTicketsTell }
{}

/// Of a task that was forked since the last retirement, the whole list says what the history says.
pub fn tickets_tell_stages()
    ensures { TicketsTellStages }
{}
