ghost use Rattle.std.specs.Prelude.{◌≡◌, ℕ, List, slice_get, vec_len};
ghost use Rattle.scope_rules.specs.Origin.{the_start};
ghost use Rattle.scope_rules.specs.Replies.{starting, base_check, AnswersOrMemory};
ghost use Rattle.scope_index.specs.CancelsOf.{IsCancelOrderOf};
ghost use Rattle.realm_state.specs.Fits.{Fitting};
ghost use Rattle.scope_checks.specs.Ruled.{IsRuled};

use join_rules::StoredTest;
use realm_state::{FittingRealm, RealmState};
use scope_rules::{Base, Catalog, Limits, Refusal, ScopeId};
use std::alloc::Global;

/// The book of a realm: it applies each command, and answers each query by the rules. It is the
/// replay of its history, which is legal, within the limits, and fitting by the catalog `C`.
///
/// The callers' closures lie beside the realm, one place for each scope since the base. No fact ties
/// the two: a closure that is asked is of the scope's own rule, or the totals answer in its place.
///
/// A scope with one task, as a test of `part_tests` plays it:
///
/// ```rust
/// fn one_task(
///     book: &mut BookState<AnyEnd>,
///     options: Options,
///     label: Label,
/// ) -> Result<(Outcome, Verdict), Fail> {
///     let Ok(scope) = book.open(MAIN, Joiner::AwaitOk, options) else {
///         return Err(Fail::from("a fresh realm opens a scope"));
///     };
///     book.fork(MAIN, scope, label)?; // it answers whether task 1 gets a thread
///     book.start(1)?; // the thread has come
///     book.tick(99)?; // the clock: the deadline is at 100
///     book.finish(1, Ok(Value::Num(7)))?; // the thread has ended
///     book.join_now(MAIN, scope)?;
///     let outcome = book.outcome(scope)?; // Outcome::Done
///     book.begin_close(MAIN, scope)?;
///     let verdict = book.end_close(MAIN, scope)?; // Verdict::Plain
///     Ok((outcome, verdict))
/// }
/// ```
#[derive(Drop)]
pub struct BookState<C: Catalog> {
    pub(crate) realm: FittingRealm<C>,
    pub(crate) tests: Vec<Option<StoredTest>>,
}

impl<C: Catalog> BookState<C> {
    ghost use Rattle.scope_book.specs.Books.{realm_of, history_of, realm_given};

    /// The book of a fresh realm. It takes no memory.
    pub fn new(alloc: Global, limits: Limits) -> BookState<C>
        ensures { realm_of result ≡ starting limits the_start }
    {
        BookState::over(alloc, limits, Vec::new(alloc))
    }

    /// The same, with the list that the callers' closures come to lie in, which is empty. A crate
    /// above that gives out books makes them by this call: the check on calls that may give out a
    /// stored closure wants that such a maker takes one, and has a condition.
    pub fn over(alloc: Global, limits: Limits, tests: Vec<Option<StoredTest>>) -> BookState<C>
        requires { vec_len tests ≡ 0 }
        ensures { realm_of result ≡ starting limits the_start }
    {
        let realm = FittingRealm::over(RealmState::new(alloc, limits));
        BookState { realm, tests }
    }

    /// The book of a realm that begins with the base, as a retirement leaves it. Refused if the base
    /// has more pairs than the limit of load (`TooMany`), and if memory is refused (`Memory`).
    pub fn with_base(alloc: Global, limits: Limits, base: Base) -> Result<BookState<C>, Refusal>
        ensures { AnswersOrMemory (base_check limits base) (starting limits base) (realm_given result) }
    {
        let realm = FittingRealm::over(RealmState::with_base(alloc, limits, base)?);
        let tests = Vec::new(alloc);
        Ok(BookState { realm, tests })
    }

    /// The realm's limits. It also says of the history that it is legal, within the limits (the load and
    /// the numbers too, the base's counted) and fitting.
    pub fn limits(&self) -> Limits
        ensures ruled { IsRuled (realm_of self.now) result }
        ensures fitting { Fitting C.fitting (history_of self.now) }
    {
        self.realm.limits()
    }

    /// The realm state that queries read, as they read any other history (`scope_checks`).
    pub fn realm(&self) -> &RealmState
        ensures { result.now ≡ realm_of self.now }
    {
        self.realm.realm()
    }

    /// The n-th scope to be cancelled, from 0, if so many are: those that one event cancelled come in
    /// order of their numbers. It takes no memory, and time by the scopes that were cancelled since it was
    /// last called, with those of the last event before them.
    pub fn nth_cancelled(&mut self, n: usize) -> Option<ScopeId>
        ensures kept { realm_of self.new ≡ realm_of self.old }
        ensures order { (list : List ℕ) × IsCancelOrderOf (history_of self.old) list × (result ≡ slice_get list n) }
    {
        self.realm.nth_cancelled(n)
    }
}
