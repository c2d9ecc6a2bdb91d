//! What the codes of events leave out.

ghost use Rattle.std.specs.Prelude.{[], ◌+◌, ◌-◌, ◌<◌, ◌^◌, ◌↔◌, ◌≡◌, ◌≤◌, IfOk, IsTrue, OnErr, OnOk, length};
ghost use Rattle.scope_journal.specs.{AreAtMost, Codes.Codes, EntryTable, HasEntry, HasMoreRoom, IsLast, IsPlaced, Keeps, event_of, weight};
ghost use Rattle.scope_rules.specs.declared.types.events.Event.TheVariants as event;

use crate::codes::Code;
use scope_rows::make_room;
use scope_rules::types::values::Fault;
use scope_rules::{Actor, End, Event, Label, Name, ScopeId, TaskId, Value};
use std::alloc::{AllocError, Global};
use std::marker::Model;

/// The entries of codes: wide events, labels and names.
#[derive(Drop)]
pub(crate) struct Entries {
    wides: Vec<Event>,
    labels: Vec<Label>,
    names: Vec<Name>,
}

impl Model for Entries {
    ghost use Rattle.std.specs.Prelude.{◌-◌, min, vec_capacity, vec_len};
    ghost use Rattle.scope_journal.specs.Codes.{EntryTable};

    ghost Value = { EntryTable };

    ghost view = { λ e. record { wides = e.wides.items; labels = e.labels.items; names = e.names.items; name_room = vec_capacity e.names; spare = min (vec_capacity e.wides - vec_len e.wides) (vec_capacity e.labels - vec_len e.labels) } };
}

impl Entries {
    /// No entries. They take no memory; that of later calls comes from `alloc`.
    pub(crate) fn new(alloc: Global) -> Entries
        ensures { result ≡ record { wides = []; labels = []; names = []; name_room = 0; spare = 0 } }
    {
        Entries {
            wides: Vec::new(alloc),
            labels: Vec::new(alloc),
            names: Vec::new(alloc),
        }
    }

    /// The allocator that the entries grow by.
    pub(crate) fn allocator(&self) -> Global {
        *self.names.allocator()
    }

    /// Makes room for so many names in all, and for entries of so much load more.
    ///
    /// # Errors
    ///
    /// If memory is refused. Then the entries are the same.
    pub(crate) fn reserve(&mut self, names: usize, units: usize) -> Result<(), AllocError>
        ensures names { OnOk result (names ≤ self.new.name_room) }
        ensures units { OnOk result (units ≤ self.new.spare) }
        ensures kept { HasMoreRoom self.old self.new }
    {
        let more = names.saturating_sub(self.names.len());
        self.names.reserve(more)?;
        make_room(&mut self.wides, units)?;
        make_room(&mut self.labels, units)
    }

    /// Takes the entry of the event, for which there is room, if it has one. The code says the event.
    pub(crate) fn code_of(&mut self, event: &Event) -> Code
        requires few { AreAtMost self.old (2 ^ 32 - 1) }
        requires names { length self.old.names < self.old.name_room }
        requires spare { weight event.now ≤ self.old.spare }
        ensures { Codes self.old event.now result self.new }
    {
        match *event {
            Event::Open { .. } | Event::Bind { .. } => Code::Wide(self.add_wide(event)),
            Event::Fork {
                actor,
                scope,
                label,
            } => Code::Fork {
                actor,
                scope,
                label: self.add_label(&label),
            },
            Event::Finish { task, end } => self.code_of_end(task, &end),
            Event::Move {
                scope,
                deadline: Some(deadline),
            } => Code::Move { scope, deadline },
            Event::Move {
                scope,
                deadline: None,
            } => Code::MoveAway(scope),
            Event::Reject { task } => Code::Reject(task),
            Event::Start { task } => Code::Start(task),
            Event::Cancel { scope } => Code::Cancel(scope),
            Event::Tick { now } => Code::Tick(now),
            Event::Unbind { actor } => Code::Unbind(actor),
            Event::Join { actor, scope } => Code::Join { actor, scope },
            Event::BeginClose { actor, scope } => Code::BeginClose { actor, scope },
            Event::EndClose { actor, scope } => Code::EndClose { actor, scope },
        }
    }

    /// The same of the end of a task.
    fn code_of_end(&mut self, task: TaskId, end: &End) -> Code
        requires few { length self.old.names < 2 ^ 32 }
        requires room { length self.old.names < self.old.name_room }
        ensures { Codes self.old (event.Finish task end.now) result self.new }
    {
        match *end {
            Ok(Value::Num(value)) => Code::Number { task, value },
            Ok(Value::Text(name)) => Code::Text {
                task,
                name: self.add_name(name),
            },
            Err(Fault(name)) => Code::Fail {
                task,
                name: self.add_name(name),
            },
        }
    }

    /// Adds the event, and gives its place.
    fn add_wide(&mut self, event: &Event) -> u32
        requires few { length self.old.wides < 2 ^ 32 }
        requires room { 1 ≤ self.old.spare }
        ensures place { IsPlaced self.new.wides result event.now }
        ensures keeps { Keeps self.old 1 self.new }
    {
        let place = self.wides.len();
        self.wides.push_reserved(*event);
        place as u32
    }

    /// The place of the label, which is added unless it is the last one there.
    fn add_label(&mut self, label: &Label) -> u32
        requires few { length self.old.labels < 2 ^ 32 }
        requires room { 1 ≤ self.old.spare }
        ensures place { IsPlaced self.new.labels result label.now }
        ensures keeps { Keeps self.old 1 self.new }
        ensures shared { IsLast self.old.labels label.now → self.new ≡ self.old }
    {
        let place = self.labels.len();
        if is_last(&self.labels, label) {
            return (place - 1) as u32;
        }
        self.labels.push_reserved(*label);
        place as u32
    }

    /// Adds the name, and gives its place.
    fn add_name(&mut self, name: Name) -> u32
        requires few { length self.old.names < 2 ^ 32 }
        requires room { length self.old.names < self.old.name_room }
        ensures place { IsPlaced self.new.names result name }
        ensures keeps { Keeps self.old 0 self.new }
    {
        let place = self.names.len();
        self.names.push_reserved(name);
        place as u32
    }

    /// Discards the entries, and keeps their memory.
    pub(crate) fn clear(&mut self)
        ensures { self.new ≡ record { wides = []; labels = []; names = []; name_room = self.old.name_room; spare = self.new.spare } }
    {
        self.wides.clear();
        self.labels.clear();
        self.names.clear();
    }

    /// The event of the code.
    pub(crate) fn event_of(&self, code: Code) -> Event
        requires { HasEntry self.now code }
        ensures { result ≡ event_of self.now code }
    {
        match code {
            Code::Wide(place) => self.wides[place as usize],
            Code::Fork {
                actor,
                scope,
                label,
            } => Event::Fork {
                actor,
                scope,
                label: self.labels[label as usize],
            },
            Code::Reject(task) => Event::Reject { task },
            Code::Start(task) => Event::Start { task },
            Code::Number { task, value } => Event::Finish {
                task,
                end: Ok(Value::Num(value)),
            },
            Code::Text { task, name } => Event::Finish {
                task,
                end: Ok(Value::Text(self.names[name as usize])),
            },
            Code::Fail { task, name } => Event::Finish {
                task,
                end: Err(Fault(self.names[name as usize])),
            },
            Code::Cancel(scope) => Event::Cancel { scope },
            Code::Move { scope, deadline } => Event::Move {
                scope,
                deadline: Some(deadline),
            },
            Code::MoveAway(scope) => Event::Move {
                scope,
                deadline: None,
            },
            Code::Tick(now) => Event::Tick { now },
            Code::Unbind(actor) => Event::Unbind { actor },
            Code::Join { actor, scope } => Event::Join { actor, scope },
            Code::BeginClose { actor, scope } => Event::BeginClose { actor, scope },
            Code::EndClose { actor, scope } => Event::EndClose { actor, scope },
        }
    }
}

/// Whether the label is the last of these.
fn is_last(labels: &[Label], label: &Label) -> bool
    ensures { IsTrue result ↔ IsLast labels.now label.now }
{
    match labels.last() {
        Some(last) => is_same_label(last, label),
        None => false,
    }
}

/// Whether the two labels are one.
fn is_same_label(left: &Label, right: &Label) -> bool
    ensures { IsTrue result ↔ (left.now ≡ right.now) }
{
    left.name.is_same(&right.name) && is_same_due(left, right)
}

/// Whether the same end is expected by the two labels, or none by both.
fn is_same_due(left: &Label, right: &Label) -> bool
    ensures { IsTrue result ↔ (left.now.due ≡ right.now.due) }
{
    match &right.due {
        Some(end) => left.expects(end),
        None => left.due.is_none(),
    }
}
