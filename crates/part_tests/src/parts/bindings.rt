//! Environments that go to other threads. What scripts can say of bindings, `crates/scopectl/rows` does.

use super::name;
use scope_rules::{Name, Value};
use scoped_env::Env;
use std::process::Abort;
use std::test::Fail;
use std::thread;
use std::thread::Threads;

/// What a task does in its own thread: it looks the key up, and binds it to 2.
fn task(mut env: Env, key: Name) -> (Option<Value>, Option<Value>, usize) {
    let inherited = env.get(key);
    let _bound = env.bind(key, Value::Num(2));
    (inherited, env.get(key), env.depth())
}

/// Hands a child of the environment to a thread, and unbinds the environment meanwhile.
fn check_crossing<R: Threads + Abort>(rt: &R, parent: &mut Env, key: Name) -> Result<(), Fail> {
    parent.bind(key, Value::Num(1))?;
    let child = parent.inherit()?;
    let Ok(thread) = thread::spawn(rt, move || task(child, key)) else {
        return Err("no thread")?;
    };
    let unbound = parent.unbind();
    let seen = thread.join(rt);
    let wanted = (Some(Value::Num(1)), Some(Value::Num(2)), 2);
    assert!(rt; seen == wanted && unbound == Ok(()) && parent.depth() == 0);
    Ok(())
}

#[test]
fn an_environment_crosses_threads(rt: HostRuntime) -> Result<(), Fail> {
    let key = name(b"user")?;
    let mut parent = Env::new(rt.alloc());
    check_crossing(&rt, &mut parent, key)
}
