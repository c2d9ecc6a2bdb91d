ghost use Rattle.std.specs.Prelude.{[], ◌++◌, ◌↔◌, ◌∷◌, ◌≡◌, IfErr, IfOk, IfSome, IsErr, IsNone, OnErr, OnOk, length};
ghost use Rattle.scoped_env.specs.{HasNone, IsLastBound, bound_to};

use crate::own::OwnPairs;
use crate::shared::SharedPairs;
use crate::stack::PairStack;
use scope_rules::{Base, Binding, Name, Refusal, Value};
use std::alloc::{AllocError, Global};
use std::marker::Model;
use std::mem;

/// The bindings that an actor sees: the pairs that it inherited at its fork, then its own stack.
/// The last pair with a key wins. An inherited pair is never taken away, and never changes when the
/// actor that it came from binds or unbinds, as JEP 506 has it of scoped values.
#[derive(Drop)]
pub struct Env {
    pairs: Pairs,
    alloc: Global,
}

// It takes no more, since a realm keeps one for each task that was ever forked, and few of these
// bind anything.
const _: () = prove!(size_of::<Env>() <= 24);

/// The pairs of an actor. Room for pairs of its own is made at its first bind, and kept from then
/// on.
#[derive(Drop)]
enum Pairs {
    Inherited(SharedPairs),
    WithOwn(Box<OwnPairs>),
}

impl Model for Env {
    ghost use Rattle.scoped_env.specs.Layers.{Layers};

    ghost Value = { Layers };

    ghost use Rattle.scoped_env.specs.Pairs.{layers};

    ghost view = { λ e. layers e.pairs };
}

impl Env {
    ghost use Rattle.scoped_env.specs.Layers.{all_pairs, no_pairs, with_pair, without_last_pair, inheriting};

    /// The environment in which nothing is bound. Its pairs will lie in memory of `alloc`.
    pub fn new(alloc: Global) -> Env
        ensures { result ≡ no_pairs }
    {
        Env::above(SharedPairs::empty(), alloc)
    }

    /// The environment of an actor that inherited nothing, and has bound these pairs, the latest
    /// last. It is refused for memory alone.
    pub fn with_stack(alloc: Global, stack: &[Binding]) -> Result<Env, AllocError>
        ensures { IfOk result (λ env. env ≡ record { inherited = []; stack = stack.now }) }
    {
        let stack = PairStack::of(alloc, stack)?;
        let own = Box::new(alloc, OwnPairs::above(SharedPairs::empty(), stack))?;
        Ok(Env {
            pairs: Pairs::WithOwn(own),
            alloc,
        })
    }

    /// The environment of an actor that has bound nothing itself.
    fn above(inherited: SharedPairs, alloc: Global) -> Env
        ensures { result ≡ record { inherited = inherited; stack = [] } }
    {
        Env {
            pairs: Pairs::Inherited(inherited),
            alloc,
        }
    }

    /// Binds the key to the value, above all other pairs. It is refused for memory alone, and then
    /// changes nothing.
    pub fn bind(&mut self, key: Name, value: Value) -> Result<(), AllocError>
        ensures ok { OnOk result (self.new ≡ with_pair self.old (record { key = key; value = value })) }
        ensures err { OnErr result (self.new ≡ self.old) }
    {
        match &mut self.pairs {
            Pairs::WithOwn(own) => own.bind(key, value),
            Pairs::Inherited(inherited) => {
                // All memory is taken before anything changes.
                let nothing = OwnPairs::above(SharedPairs::empty(), PairStack::new(self.alloc));
                let mut own = Box::new(self.alloc, nothing)?;
                let mut stack = PairStack::new(self.alloc);
                stack.push(Binding { key, value })?;
                *own = OwnPairs::above(mem::replace(inherited, SharedPairs::empty()), stack);
                self.pairs = Pairs::WithOwn(own);
                Ok(())
            }
        }
    }

    /// Takes away the last pair of the own stack. It is refused `NotBound` exactly if that is
    /// empty: an inherited pair stays. It takes no memory.
    pub fn unbind(&mut self) -> Result<(), Refusal>
        ensures ok { OnOk result (self.new ≡ without_last_pair self.old) }
        ensures empty { IsErr result ↔ (self.old.stack ≡ []) }
        ensures refusal { IfErr result (λ refusal. refusal ≡ Refusal.NotBound) }
        ensures err { OnErr result (self.new ≡ self.old) }
    {
        match &mut self.pairs {
            Pairs::WithOwn(own) => own.unbind(),
            Pairs::Inherited(_) => Err(Refusal::NotBound),
        }
    }

    /// The value of the last pair with the key, own or inherited, if there is one. It takes no
    /// memory.
    pub fn get(&self, key: Name) -> Option<Value>
        ensures value { result ≡ bound_to key (all_pairs self.now) }
        ensures last { IfSome result (IsLastBound (all_pairs self.now) key) }
        ensures none { IsNone result ↔ HasNone (all_pairs self.now) key }
    {
        self.value_of(&key)
    }

    /// The value that the key is bound to.
    fn value_of(&self, key: &Name) -> Option<Value>
        ensures { result ≡ bound_to key.now (all_pairs self.now) }
    {
        match &self.pairs {
            Pairs::WithOwn(own) => own.value_of(key),
            Pairs::Inherited(inherited) => inherited.value_of(key),
        }
    }

    /// The environment of a task that this one's actor forks now: all pairs of this one are its
    /// inherited pairs, and its own stack is empty. The pairs here stay as they are. It shares them all,
    /// and takes time for those that were bound since the last call. It is refused for memory, or
    /// if std's count of holders is full.
    pub fn inherit(&mut self) -> Result<Env, AllocError>
        ensures ok { IfOk result (λ env. env ≡ inheriting self.old) }
        ensures unchanged { self.new ≡ self.old }
    {
        let inherited = match &mut self.pairs {
            Pairs::WithOwn(own) => own.share_all()?,
            Pairs::Inherited(inherited) => inherited.share()?,
        };
        Ok(Env::above(inherited, self.alloc))
    }

    /// A base with all pairs of this environment: it shares them. Called again before they change, it
    /// copies none of them. It is refused for memory, or if std's count of holders is full.
    pub fn base(&mut self, moment: u64, scopes: u32, tasks: u32) -> Result<Base, AllocError>
        ensures ok { IfOk result (λ base. base ≡ record { moment = moment; scopes = scopes; tasks = tasks; binds = all_pairs self.old }) }
        ensures unchanged { self.new ≡ self.old }
    {
        match &mut self.pairs {
            Pairs::WithOwn(own) => {
                let binds = own.list_all()?;
                Ok(Base::sharing(moment, scopes, tasks, binds))
            }
            Pairs::Inherited(inherited) => {
                let binds = inherited.to_vec(self.alloc)?;
                Ok(Base::new(moment, scopes, tasks, binds))
            }
        }
    }

    /// How many pairs there are, inherited and own.
    pub fn depth(&self) -> usize
        ensures { result ≡ length (all_pairs self.now) }
    {
        match &self.pairs {
            Pairs::WithOwn(own) => own.depth(),
            Pairs::Inherited(inherited) => inherited.len(),
        }
    }

    /// How many own pairs there are. By this number a caller tells whether the bindings are those
    /// of an earlier moment, if no pair of that moment was taken away since.
    pub fn stack_len(&self) -> usize
        ensures { result ≡ length self.now.stack }
    {
        self.stack().len()
    }

    /// The own pairs, the latest last.
    pub fn stack(&self) -> &[Binding]
        ensures { result.now ≡ self.now.stack }
    {
        match &self.pairs {
            Pairs::WithOwn(own) => own.stack(),
            Pairs::Inherited(_) => &[],
        }
    }
}
