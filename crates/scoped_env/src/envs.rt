ghost use Rattle.std.specs.Prelude.{[], ℕ, ◌++◌, ◌+◌, ◌<◌, ◌∷◌, ◌≡◌, IfOk, OnErr, OnOk, length};
ghost use Rattle.scoped_env.specs.{AreEnvsOf, Bind, Fork, HasEnv, History, Label, Legal, Limits, Unbind, Words.stack, Words.tasks, all_pairs, base_of, beginning, bindings, bound_to, followed, layers_in, place_in, restarted};
ghost use Rattle.scoped_env.specs.{the_start, with_fork, with_layers, with_pair, without_last_pair};

use crate::Env;
use scope_rules::types::values::MAIN;
use scope_rules::{Actor, Base, Binding, Name, Value};
use std::alloc::{AllocError, Global};
use std::marker::Model;

/// What the actors of a realm see bound: one environment for main, and one for each task that was
/// forked since the realm began, in order of their numbers.
#[derive(Drop)]
pub struct Envs {
    // How many tasks were numbered before the first that has an environment here.
    before: u32,
    main: Env,
    tasks: Vec<Env>,
}

impl Model for Envs {
    ghost use Rattle.scoped_env.specs.EnvTable.{EnvTable};

    ghost Value = { EnvTable };

    ghost view = { λ e. record { before = e.before; main = e.main; tasks = e.tasks.items } };
}

impl Envs {
    /// The environments of a fresh realm: main's, in which nothing is bound. It takes no memory.
    pub fn new(alloc: Global) -> Envs
        ensures begins { result ≡ beginning the_start }
        ensures agrees { AreEnvsOf (record { base = the_start; events = [] }) result }
    {
        Envs {
            before: 0,
            main: Env::new(alloc),
            tasks: Vec::new(alloc),
        }
    }

    /// The environments of a realm that begins with the base: main's, with the pairs of the base.
    /// It is refused for memory alone.
    pub fn with_base(alloc: Global, base: &Base) -> Result<Envs, AllocError>
        ensures begins { IfOk result (λ envs. envs ≡ beginning base.now) }
        ensures agrees { IfOk result (λ envs. AreEnvsOf (record { base = base.now; events = [] }) envs) }
    {
        let main = Env::with_stack(alloc, base.binds())?;
        Ok(Envs {
            before: base.tasks(),
            main,
            tasks: Vec::new(alloc),
        })
    }

    /// The value of the last pair with the key that the actor sees, own or inherited, if there is
    /// one. It takes no memory.
    pub fn get(&self, actor: Actor, key: Name) -> Option<Value>
        requires { HasEnv self.now actor }
        ensures kept { result ≡ bound_to key (all_pairs (layers_in self.now actor)) }
        ensures agrees { (L : Limits) (h : History) → Legal L h → AreEnvsOf h self.now → result ≡ bound_to key (bindings h actor) }
    {
        self.env(actor).get(key)
    }

    /// How many own pairs the actor has.
    pub fn stack_len(&self, actor: Actor) -> usize
        requires { HasEnv self.now actor }
        ensures kept { result ≡ length (layers_in self.now actor).stack }
        ensures agrees { (h : History) → AreEnvsOf h self.now → result ≡ length (stack h actor) }
    {
        self.env(actor).stack_len()
    }

    /// The base of main's own pairs, which it shares: called again before they change, it copies none of
    /// them. It is refused for memory, or if std's count of holders is full.
    pub fn base(&mut self, moment: u64, scopes: u32, tasks: u32) -> Result<Base, AllocError>
        ensures kept { IfOk result (λ base. base ≡ record { moment = moment; scopes = scopes; tasks = tasks; binds = all_pairs self.old.main }) }
        ensures agrees { IfOk result (λ base. (h : History) → AreEnvsOf h self.old → base ≡ record { moment = moment; scopes = scopes; tasks = tasks; binds = stack h 0 }) }
        ensures unchanged { self.new ≡ self.old }
    {
        self.main.base(moment, scopes, tasks)
    }

    /// Binds the key to the value, above all other pairs that the actor sees. It is refused for
    /// memory alone, and then changes nothing.
    pub fn bind(&mut self, actor: Actor, key: Name, value: Value) -> Result<(), AllocError>
        requires { HasEnv self.old actor }
        ensures kept { OnOk result (self.new ≡ with_layers self.old actor (with_pair (layers_in self.old actor) (record { key = key; value = value }))) }
        ensures agrees { OnOk result ((h : History) → AreEnvsOf h self.old → AreEnvsOf (followed h (Bind actor (record { key = key; value = value }))) self.new) }
        ensures err { OnErr result (self.new ≡ self.old) }
    {
        if actor == MAIN {
            self.main.bind(key, value)
        } else {
            let place = self.place(actor);
            self.tasks[place].bind(key, value)
        }
    }

    /// Takes away the actor's last own pair, if it has one. It takes no memory.
    pub fn unbind(&mut self, actor: Actor)
        requires { HasEnv self.old actor }
        ensures kept { self.new ≡ with_layers self.old actor (without_last_pair (layers_in self.old actor)) }
        ensures agrees { (h : History) → AreEnvsOf h self.old → AreEnvsOf (followed h (Unbind actor)) self.new }
    {
        let _ = if actor == MAIN {
            self.main.unbind()
        } else {
            let place = self.place(actor);
            self.tasks[place].unbind()
        };
    }

    /// Adds the environment of the task that the actor forks now, which has the next number: it
    /// inherits all pairs that the actor sees. It is refused for memory, or if std's count of
    /// holders is full, and then changes nothing.
    pub fn fork(&mut self, actor: Actor) -> Result<(), AllocError>
        requires { HasEnv self.old actor }
        ensures kept { OnOk result (self.new ≡ with_fork self.old actor) }
        ensures agrees { OnOk result ((L : Limits) (h : History) (scope : ℕ) (label : Label) → Legal L h → AreEnvsOf h self.old → AreEnvsOf (followed h (Fork actor scope label)) self.new) }
        ensures err { OnErr result (self.new ≡ self.old) }
    {
        self.tasks.reserve(1)?;
        let env = if actor == MAIN {
            self.main.inherit()?
        } else {
            let place = self.place(actor);
            self.tasks[place].inherit()?
        };
        self.tasks.push(env)?;
        Ok(())
    }

    /// Drops the environments of all tasks, and keeps main's: so many tasks were numbered before.
    /// It takes no memory.
    pub fn reset(&mut self, before: u32)
        ensures kept { self.new ≡ restarted self.old before }
        ensures agrees { (h : History) → AreEnvsOf h self.old → before ≡ tasks h → AreEnvsOf (record { base = base_of h; events = [] }) self.new }
    {
        self.before = before;
        self.tasks.clear();
    }

    /// The actor's environment.
    fn env(&self, actor: Actor) -> &Env
        requires { HasEnv self.now actor }
        ensures { result.now ≡ layers_in self.now actor }
    {
        if actor == MAIN {
            &self.main
        } else {
            &self.tasks[self.place(actor)]
        }
    }

    /// The place of the task's environment in the list.
    fn place(&self, actor: Actor) -> usize
        requires env { HasEnv self.now actor }
        requires task { 0 < actor }
        ensures place { result ≡ place_in self.now actor }
        ensures within { result < length self.now.tasks }
    {
        (actor - self.before - 1) as usize
    }
}
