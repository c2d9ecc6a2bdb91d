//! The rows of a picture: a task, a scope, a closed scope with all that lies in it, or tasks of one scope that have ended.
ghost use Rattle.std.specs.Prelude.{◌<◌, ◌∷◌, ◌≡◌};
ghost use Rattle.run_picture.specs.{IfOk, StandFor, begun, begun_with, class_of, counted, fits, is_done, is_ended_as, is_failed, is_task, length, more_if, plain, taken_in};

use crate::columns::Columns;
use crate::placed::Placed;
use scope_rules::{Stage, State};
use std::alloc::{AllocError, Global};

/// What a folded row takes in.
#[derive(Clone, Copy)]
pub enum Fold {
    /// What lies below a closed scope.
    Below,
    /// Tasks behind the first that have ended like it, which failed or not.
    Alike(bool),
    /// All tasks of the scope behind the first.
    Rest,
}

/// How many tasks lie in a folded row.
#[derive(Clone, Copy)]
pub struct Folded {
    pub tasks: u32,
    /// How many of them failed.
    pub failed: u32,
    /// How many of them have not ended.
    pub unended: u32,
    pub fold: Fold,
}

/// A row of a picture.
#[derive(Clone, Copy, Drop)]
pub struct Row {
    /// The node that begins it.
    pub node: u32,
    /// How deep it lies.
    pub depth: u32,
    /// What lies in it, if it is folded.
    pub folded: Option<Folded>,
}

/// What a node is for a fold.
#[derive(Clone, Copy)]
pub enum Class {
    /// A task, failed or not, which has ended or not.
    Task { failed: bool, ended: bool },
    /// A scope, closed or not.
    Scope { closed: bool },
}

/// Whether it is the state of a task that failed.
fn is_failed(state: State) -> bool
    ensures { result ≡ is_failed state }
{
    matches!(state, State::Failed(_))
}

/// What the node is for a fold.
fn class_of(columns: &Columns, node: u32) -> Class
    ensures { result ≡ class_of columns.now node }
{
    let node = node as usize;
    if let Some(row) = columns.tasks.get(node) {
        return Class::Task {
            failed: is_failed(row.state),
            ended: matches!(row.stage, Stage::Never | Stage::Finished),
        };
    }
    match columns.scopes.get(node.saturating_sub(columns.tasks.len())) {
        Some(row) => Class::Scope {
            closed: row.closed.is_some(),
        },
        None => Class::Scope { closed: false },
    }
}

/// The count, with one more if so.
fn more_if(more: bool, count: u32) -> u32
    ensures { result ≡ more_if more count }
{
    if more { count.saturating_add(1) } else { count }
}

impl Folded {
    /// One node more.
    fn with(self, class: Class) -> Folded
        ensures { result ≡ counted self class }
    {
        match class {
            Class::Task { failed, ended } => Folded {
                tasks: self.tasks.saturating_add(1),
                failed: more_if(failed, self.failed),
                unended: more_if(!ended, self.unended),
                fold: self.fold,
            },
            Class::Scope { .. } => self,
        }
    }
}

/// The row by itself.
fn plain(placed: Placed) -> Row
    ensures { result ≡ plain placed }
{
    Row {
        node: placed.node,
        depth: placed.depth,
        folded: None,
    }
}

/// The row that the node begins, with nothing else in it yet.
fn begun_with(placed: Placed, fold: Fold) -> Row
    ensures { result ≡ begun_with placed fold }
{
    Row {
        node: placed.node,
        depth: placed.depth,
        folded: Some(Folded {
            tasks: 0,
            failed: 0,
            unended: 0,
            fold,
        }),
    }
}

/// The row that the node begins, in a picture that is folded: a closed scope takes in what lies below it, and a task that
/// has ended takes in those behind it in the same scope that ended alike. If there are many rows already, a task takes in
/// all that are behind it in the same scope.
fn begun(full: bool, placed: Placed, class: Class) -> Row
    ensures { result ≡ begun full placed class }
{
    match class {
        Class::Scope { closed: true } => begun_with(placed, Fold::Below),
        Class::Scope { closed: false } => plain(placed),
        Class::Task { .. } if full => begun_with(placed, Fold::Rest),
        Class::Task {
            failed,
            ended: true,
        } => begun_with(placed, Fold::Alike(failed)),
        Class::Task { ended: false, .. } => plain(placed),
    }
}

/// Whether the node is a task.
fn is_task(class: Class) -> bool
    ensures { result ≡ is_task class }
{
    matches!(class, Class::Task { .. })
}

/// Whether the node is a task that has ended, or a closed scope.
fn is_done(class: Class) -> bool
    ensures { result ≡ is_done class }
{
    match class {
        Class::Task { ended, .. } => ended,
        Class::Scope { closed } => closed,
    }
}

/// Whether the node is a task that ended so.
fn is_ended_as(as_failed: bool, class: Class) -> bool
    ensures { result ≡ is_ended_as as_failed class }
{
    match class {
        Class::Task { failed, ended } => ended && as_failed == failed,
        Class::Scope { .. } => false,
    }
}

/// Whether the row takes in the node.
fn fits(fold: Fold, row: Row, placed: Placed, class: Class) -> bool
    ensures { result ≡ fits fold row placed class }
{
    let lower = row.depth < placed.depth;
    let beside = row.depth == placed.depth;
    match fold {
        Fold::Below => lower,
        Fold::Alike(failed) => (lower && is_done(class)) || (beside && is_ended_as(failed, class)),
        Fold::Rest => lower || (beside && is_task(class)),
    }
}

/// The row with the node in it, if it is folded and takes the node in.
fn taken_in(row: Row, placed: Placed, class: Class) -> Option<Row>
    ensures { result ≡ taken_in row placed class }
{
    match row.folded {
        Some(folded) if fits(folded.fold, row, placed, class) => Some(Row {
            node: row.node,
            depth: row.depth,
            folded: Some(folded.with(class)),
        }),
        _ => None,
    }
}

/// So many rows a folded picture has, before the rest of each scope's tasks is one row.
const MANY: usize = 1000;

/// The rows of the nodes: each by itself, or folded, if they are more than so many. A folded row counts just the tasks of its
/// own stretch of the nodes, those that failed, and those that have not ended.
///
/// # Errors
/// It is refused for memory alone.
pub fn rows_of(
    alloc: Global,
    columns: &Columns,
    placed: &[Placed],
    limit: u32,
) -> Result<Vec<Row>, AllocError>
    requires few { length placed.now < 4294967295 }
    ensures own { IfOk result (λ rows. StandFor (class_of columns.now) rows.items placed.now) }
{
    match placed.split_first() {
        Some((first, rest)) if placed.len() > limit as usize => {
            folded_rows(alloc, columns, *first, rest, MANY.max(limit as usize))
        },
        _ => plain_rows(alloc, columns, placed),
    }
}

/// The rows of the nodes, each by itself. It is refused for memory alone.
fn plain_rows(alloc: Global, columns: &Columns, placed: &[Placed]) -> Result<Vec<Row>, AllocError>
    ensures { IfOk result (λ rows. StandFor (class_of columns.now) rows.items placed.now) }
{
    let _columns = columns;
    let mut rows = Vec::new(alloc);
    for one in placed {
        rows.push(plain(*one))?;
    }
    Ok(rows)
}

/// The rows of the first node and the others, folded, and from so many rows on the rest of each scope's tasks in one. It is
/// refused for memory alone.
fn folded_rows(
    alloc: Global,
    columns: &Columns,
    first: Placed,
    others: &[Placed],
    many: usize,
) -> Result<Vec<Row>, AllocError>
    requires { length others.now < 4294967294 }
    ensures { IfOk result (λ rows. StandFor (class_of columns.now) rows.items (first ∷ others.now)) }
{
    let mut rows = Vec::new(alloc);
    let mut last = begun(false, first, class_of(columns, first.node));
    for one in others {
        let class = class_of(columns, one.node);
        match taken_in(last, *one, class) {
            Some(taken) => last = taken,
            None => {
                rows.push(last)?;
                last = begun(many <= rows.len(), *one, class);
            },
        }
    }
    rows.push(last)?;
    Ok(rows)
}
