ghost use Rattle.std.specs.Prelude.{[], ◌++◌, ◌+◌, ◌<◌, ◌^◌, ◌∷◌, ◌≡◌, IfOk, MatchResult, Some, false, length, option_map, true};
ghost use Rattle.realm_core.specs.{ArePrepared, AreReported, CanClose, Ends.Ends, InEndOrder, IsPrepared, IsReported, Memory, SeesAll, closed, closing, history_of, log, numbers, with_end};

use crate::ending::end_all;
use crate::{RealmCore, RealmName};
use realm_state::RealmState;
use scope_checks::Readings;
use scope_log::{LogEntry, ScopeLog};
use scope_rules::{Actor, Catalog, Refusal, ScopeId, Verdict};
use share_ledger::OwnerShare;
use std::alloc::{AllocError, Global};

/// What the close of a scope shows: how the scope was closed and its log, and the same of each scope that
/// was closed with it, since its owner had opened it later and not closed it, in the order of their ends.
#[derive(Drop)]
pub struct CloseReport {
    pub verdict: Verdict,
    pub log: ScopeLog,
    pub nested: Vec<(ScopeId, Verdict, ScopeLog)>,
}

/// Closes the scope and all that its owner opened later and has not closed, where the close can end, and
/// the token has seen the whole list. All that is shown is made first: if memory is refused for it
/// (`Memory`), nothing is done, and there is no other refusal.
pub fn close_with_report<C: Catalog, N: RealmName>(
    core: &mut RealmCore<C, N>,
    alloc: Global,
    token: &mut OwnerShare,
    scope: ScopeId,
) -> Result<CloseReport, Refusal>
    requires named { token.old.table ≡ N.table }
    requires shown { token.old.seen ≡ core.old.steps }
    requires can { CanClose (history_of core.old.steps) token.old.actor scope }
    ensures seen { SeesAll core.old core.new token.old token.new }
    ensures ends { IfOk result (λ report. Ends token.old.limits token.old.actor scope (numbers report.nested.items) token.old.seen token.new.seen) }
    ensures report { IfOk result (λ report. IsReported (history_of token.new.seen) scope report.verdict report.log × AreReported (history_of token.new.seen) report.nested.items) }
    ensures refused { MatchResult result (λ _. Unit {0}) (λ refusal. (refusal ≡ Memory) × (token.new ≡ token.old)) }
{
    let actor = token.actor();
    let (log, nested) = prepared(core.realm(), alloc, actor, scope)?;
    let verdict = end_all(core, token, scope);
    Ok(CloseReport {
        verdict,
        log,
        nested,
    })
}

/// What will be shown of the scope, and of those that are closed with it.
fn prepared(
    realm: &RealmState,
    alloc: Global,
    actor: Actor,
    scope: ScopeId,
) -> Result<(ScopeLog, Vec<(ScopeId, Verdict, ScopeLog)>), Refusal>
    requires can { CanClose realm.now.history actor scope }
    ensures own { IfOk result (λ made. option_map (with_end actor) (log realm.now.history scope) ≡ Some made.0) }
    ensures nested { IfOk result (λ made. InEndOrder realm.now.history actor scope (numbers made.1.items) × ArePrepared realm.now.history actor made.1.items) }
    ensures refused { MatchResult result (λ _. Unit {0}) (λ refusal. refusal ≡ Memory) }
{
    let log = closing_log(realm, alloc, actor, scope)?;
    let nested = nested_logs(realm, alloc, actor, scope)?;
    Ok((log, nested))
}

/// What will be shown of the scopes inside the scope, the latest first.
fn nested_logs(
    realm: &RealmState,
    alloc: Global,
    actor: Actor,
    scope: ScopeId,
) -> Result<Vec<(ScopeId, Verdict, ScopeLog)>, Refusal>
    requires can { CanClose realm.now.history actor scope }
    ensures order { IfOk result (λ v. InEndOrder realm.now.history actor scope (numbers v.items)) }
    ensures prepared { IfOk result (λ v. ArePrepared realm.now.history actor v.items) }
    ensures refused { MatchResult result (λ _. Unit {0}) (λ refusal. refusal ≡ Memory) }
{
    let _legal = realm.limits();
    let mut shown = Vec::new(alloc);
    let mut next = realm.inner(scope);
    while let Some(here) = next {
        let log = closing_log(realm, alloc, actor, here)?;
        let Ok(()) = shown.push((here, realm.verdict(here), log)) else {
            return Err(Refusal::Memory);
        };
        next = realm.inner(here);
    }
    shown.reverse();
    Ok(shown)
}

/// The log that the scope, whose close has begun, has once the actor's end of it is added.
fn closing_log(
    realm: &RealmState,
    alloc: Global,
    actor: Actor,
    scope: ScopeId,
) -> Result<ScopeLog, Refusal>
    requires begun { closing realm.now.history scope ≡ true }
    ensures log { IfOk result (λ l. option_map (with_end actor) (log realm.now.history scope) ≡ Some l) }
    ensures refused { MatchResult result (λ _. Unit {0}) (λ refusal. refusal ≡ Memory) }
{
    let _legal = realm.limits();
    let Ok(log) = realm.project(scope) else {
        return Err(Refusal::Memory);
    };
    match with_one_more(alloc, log.entries(), LogEntry::EndClose { actor }) {
        Ok(entries) => Ok(ScopeLog::new(log.scope(), log.policy(), log.expiry(), entries)),
        Err(_) => Err(Refusal::Memory),
    }
}

/// The entries, and one more.
fn with_one_more(
    alloc: Global,
    entries: &[LogEntry],
    last: LogEntry,
) -> Result<Vec<LogEntry>, AllocError>
    ensures { IfOk result (λ v. v.items ≡ entries.now ++ last ∷ []) }
{
    let mut all = Vec::new(alloc);
    all.extend_from_slice(entries)?;
    all.push(last)?;
    Ok(all)
}
