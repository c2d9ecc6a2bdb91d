//! The parts below a book, each call that takes memory: what it answers, and what the part tells then.
use crate::refusals::{Call, Refusals};
use cancel_tree::Tree;
use deadline_core::Deadlines;
use scope_rules::{Name, Value};
use scoped_env::Env;
use std::alloc::Global;

/// As `again` is, for calls that are refused for memory alone.
macro_rules! once_more {
    ($refusals:expr, $call:expr, $made:expr) => {
        match $made {
            Err(_) => {
                $refusals.note($call);
                $made
            }
            answer => answer,
        }
    };
}

/// Three deadlines, of which two pass.
fn pass(deadlines: &mut Deadlines, refusals: &Refusals) -> bool {
    for scope in 1..4u32 {
        let deadline = u64::from(scope).saturating_mul(100);
        let is_new = deadlines.get(scope).is_none();
        let is_set = once_more!(
            refusals,
            Call::SetDeadline,
            deadlines.set(scope, deadline)
        ).is_ok();
        if !(is_new && is_set) {
            return false;
        }
    }
    is_passed(deadlines, refusals) && deadlines.earliest() == Some((300, 3))
}

/// Two have passed at 200.
fn is_passed(deadlines: &mut Deadlines, refusals: &Refusals) -> bool {
    match once_more!(refusals, Call::Expire, deadlines.expire(200)) {
        Ok(passed) => passed.as_slice() == [1, 2].as_slice(),
        Err(_) => false,
    }
}

/// Three deadlines, as where nothing has passed.
fn are_three(deadlines: &Deadlines) -> bool {
    let moments = (deadlines.get(1), deadlines.get(2), deadlines.get(3));
    moments == (Some(100), Some(200), Some(300)) && deadlines.earliest() == Some((100, 1))
}

/// Two of the three pass at 200. Where memory is refused, all three are there still, and the call is made again.
fn pass_again(deadlines: &mut Deadlines, refusals: &Refusals) -> bool {
    let passed = match deadlines.expire(200) {
        Err(_) => {
            refusals.note(Call::Expire);
            if !are_three(deadlines) {
                return false;
            }
            deadlines.expire(200)
        }
        passed => passed,
    };
    let are_two = match passed {
        Ok(passed) => passed.as_slice() == [1, 2].as_slice(),
        Err(_) => false,
    };
    are_two && deadlines.get(1).is_none() && deadlines.earliest() == Some((300, 3))
}

/// Deadlines that pass: false where they are otherwise than without a refusal. None where memory was refused before.
pub fn expire(alloc: Global, refusals: &Refusals) -> Option<bool> {
    let mut deadlines = Deadlines::new(alloc);
    for scope in 1..4u32 {
        deadlines
            .set(scope, u64::from(scope).saturating_mul(100))
            .ok()?;
    }
    Some(pass_again(&mut deadlines, refusals))
}

/// Two scopes, one in the other.
fn grow(alloc: Global, refusals: &Refusals) -> bool {
    let mut tree = Tree::new(alloc);
    if once_more!(refusals, Call::AddScope, tree.add(1, None, false, 0)).is_err() {
        return false;
    }
    let is_added = once_more!(refusals, Call::AddScope, tree.add(2, Some(1), true, 1)).is_ok();
    is_added && tree.len() == 2 && tree.level(2) == 2
}

/// A binding, an environment that inherits it, and one that binds anew there.
fn bind(env: &mut Env, key: Name, refusals: &Refusals) -> bool {
    let is_bound = once_more!(refusals, Call::BindPair, env.bind(key, Value::Num(1))).is_ok();
    let is_one = env.depth() == 1;
    let Ok(mut inner) = once_more!(refusals, Call::Inherit, env.inherit()) else {
        return false;
    };
    let is_hidden = once_more!(refusals, Call::BindPair, inner.bind(key, Value::Num(2))).is_ok();
    let sees = env.get(key) == Some(Value::Num(1)) && inner.get(key) == Some(Value::Num(2));
    is_bound && is_one && is_hidden && sees && inner.unbind().is_ok() && env.depth() == 1
}

/// All parts: false where one is otherwise than without a refusal. None where memory was refused before.
pub fn play(alloc: Global, refusals: &Refusals) -> Option<bool> {
    let key = Name::new(b"user")?;
    let is_passed = pass(&mut Deadlines::new(alloc), refusals);
    let is_bound = bind(&mut Env::new(alloc), key, refusals);
    Some(is_passed && is_bound && grow(alloc, refusals))
}
