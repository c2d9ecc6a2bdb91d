ghost use Rattle.std.specs.Prelude.{◌↔◌, ◌≡◌, ◌≤◌, IfSome, IsSome};
ghost use Rattle.scope_rules.specs.declared.types.capacity.TheConstants.{LOAD_LIMIT, SCOPE_LIMIT, TASK_LIMIT};

/// The greatest number of scopes that a realm can be given.
pub const SCOPE_LIMIT: u32 = 4096;

/// The greatest number of tasks that a realm can be given.
pub const TASK_LIMIT: u32 = 65536;

/// The greatest load, in units, that a realm can be given.
pub const LOAD_LIMIT: u32 = 1048576;

/// How many scopes may lie within one another.
pub const LEVEL_LIMIT: u32 = 16;

/// The greatest number that a scope or a task can have.
pub const GREATEST_NUMBER: u32 = u32::MAX;

/// The load of an open, in units: it covers the scope's join and the two ends of its close.
pub const OPEN_LOAD: u64 = 4;

/// The load of a fork, in units: it covers the task's reject or start, and its end.
pub const FORK_LOAD: u64 = 3;

/// The load of each recorded cancel, move, tick, bind and unbind, in units.
pub const STEP_LOAD: u64 = 1;

/// How much a realm takes: scopes and tasks since it began or was last retired, and units of load.
/// Each is at least 1.
#[derive(Clone, Copy, PartialEq, Eq)]
pub struct Limits {
    pub scopes: u32,
    pub tasks: u32,
    pub load: u32,
    ghost some_scopes: { 1 ≤ scopes },
    ghost scopes_in_range: { scopes ≤ SCOPE_LIMIT },
    ghost some_tasks: { 1 ≤ tasks },
    ghost tasks_in_range: { tasks ≤ TASK_LIMIT },
    ghost some_load: { 1 ≤ load },
    ghost load_in_range: { load ≤ LOAD_LIMIT },
}

impl Limits {
    ghost use Rattle.scope_rules.specs.Capacity.{IsAllowed};

    /// The greatest limits.
    pub const GREATEST: Limits = Limits {
        scopes: SCOPE_LIMIT,
        tasks: TASK_LIMIT,
        load: LOAD_LIMIT,
    };

    /// These limits, if each is from 1 to its greatest value.
    pub fn new(scopes: u32, tasks: u32, load: u32) -> Option<Limits>
        ensures allowed { IsSome result ↔ IsAllowed scopes tasks load }
        ensures scopes { IfSome result (λ limits. limits.scopes ≡ scopes) }
        ensures tasks { IfSome result (λ limits. limits.tasks ≡ tasks) }
        ensures load { IfSome result (λ limits. limits.load ≡ load) }
    {
        let allowed = (1..=SCOPE_LIMIT).contains(&scopes)
            && (1..=TASK_LIMIT).contains(&tasks)
            && (1..=LOAD_LIMIT).contains(&load);
        if !allowed {
            return None;
        }
        Some(Limits {
            scopes,
            tasks,
            load,
        })
    }
}
