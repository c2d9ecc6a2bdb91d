//! Scripts as calls of a realm under its lock, by one thread that plays all actors.
ghost use Rattle.std.specs.Prelude.{◌≡◌};

use super::parts::{Part, SIGN, limits_of, part_of};
use crate::driving::driven;
use crate::hands::Hands;
use crate::said::Said;
use realm_lock::{Realm, RealmName, Seed};
use scope_rules::types::values::MAIN;
use scope_rules::{AnyEnd, Refusal, ScopeId};
use scope_script::{Command, Reply};
use std::alloc::Global;
use std::sync::Wait;

/// Plays the script, and writes what it is answered: false where a call counted or told otherwise than it should. None
/// where memory is refused, or the limits are in no form.
pub fn play<N: RealmName, R: Wait + Print>(
    rt: &R,
    alloc: Global,
    seed: Seed,
    script: &String,
) -> Option<bool>
    requires { seed ≡ N.table }
{
    let limits = limits_of(script.as_str())?;
    let mut said = Said::new(alloc)?;
    let Ok((realm, main)) = Realm::<AnyEnd, N>::new(alloc, seed, limits) else {
        return None;
    };
    let mut hands = Hands::<N>::new(alloc, main)?;
    let is_right = play_on(rt, alloc, &realm, &mut hands, script.as_str(), &mut said);
    Some(said.write(rt) && is_right)
}

/// The same on a realm that is there.
fn play_on<N: RealmName, R: Wait>(
    rt: &R,
    alloc: Global,
    realm: &Realm<AnyEnd, N>,
    hands: &mut Hands<N>,
    script: &str,
    said: &mut Said,
) -> bool {
    for line in script.lines() {
        tell(rt, alloc, realm, hands, line, said);
    }
    hands.is_right()
}

/// Tells it the line.
fn tell<N: RealmName, R: Wait>(
    rt: &R,
    alloc: Global,
    realm: &Realm<AnyEnd, N>,
    hands: &mut Hands<N>,
    line: &str,
    said: &mut Said,
) {
    match part_of(line) {
        Part::Silent => {}
        Part::BadWord => said.say(&Reply::Refused(Refusal::BadWord)),
        Part::Command(command) => answer(rt, realm, hands, command, said),
        Part::Show(most) => {
            for scope in 0..=most {
                show(rt, alloc, realm, hands, scope, said);
            }
        }
    }
}

/// Says what it answers to the command; a `-` where nobody holds what the call needs.
fn answer<N: RealmName, R: Wait>(
    rt: &R,
    realm: &Realm<AnyEnd, N>,
    hands: &mut Hands<N>,
    command: Command,
    said: &mut Said,
) {
    match driven(rt, realm, hands, command) {
        Some(reply) => said.say(&reply),
        None => said.add(b"-\n"),
    }
}

/// Notes what main sees of the scope.
fn show<N: RealmName, R: Wait>(
    rt: &R,
    alloc: Global,
    realm: &Realm<AnyEnd, N>,
    hands: &mut Hands<N>,
    scope: ScopeId,
    said: &mut Said,
) {
    let Some(mut main) = hands.token(MAIN) else {
        return;
    };
    match realm.view(rt, &mut main, scope) {
        Ok(view) => {
            said.note(SIGN, &Reply::Moment(view.moment));
            said.note_lines(SIGN, format!(in alloc; "{}", view.log));
        }
        Err(refusal) => said.note(SIGN, &Reply::Refused(refusal)),
    }
    hands.keep_token(MAIN, main);
}
