//! One thread that plays all actors of a realm: it holds their tokens and tickets.
ghost use Rattle.std.specs.Prelude.{◌≡◌, IfSome};
ghost use Rattle.share_ledger.specs.Values.{IsWaiting};

use realm_lock::{ActorToken, RealmName, Ticket};
use scope_rules::{Actor, TaskId};
use share_ledger::OfRealm;
use std::alloc::Global;

/// The tokens by actor, and the tickets by task, of those that there are.
#[derive(Drop)]
pub struct Hands<N: RealmName> {
    tokens: Vec<Option<OfRealm<N, ActorToken>>>,
    tickets: Vec<Option<OfRealm<N, Ticket>>>,
    is_right: bool,
}

/// For how many actors there is room from the beginning.
const ROOM: usize = 16;

impl<N: RealmName> Hands<N> {
    /// Main's token alone, and room for the tokens and tickets of 15 tasks. None where memory is refused.
    pub fn new(alloc: Global, main: ActorToken) -> Option<Hands<N>>
        requires { main.table ≡ N.table }
    {
        let mut hands = Hands {
            tokens: Vec::new(alloc),
            tickets: Vec::new(alloc),
            is_right: true,
        };
        let has_room = hands.tokens.reserve(ROOM).is_ok() && hands.tickets.reserve(ROOM).is_ok();
        hands.keep_token(0, main);
        has_room.then_some(hands)
    }

    /// Whether each ticket counted and told what it should, and none was lost for want of memory.
    pub fn is_right(&self) -> bool {
        self.is_right
    }

    /// Notes it, if something is wrong.
    pub(crate) fn check(&mut self, is_right: bool) {
        self.is_right = self.is_right && is_right;
    }

    /// Takes out the token of the actor, if it has one.
    pub fn token(&mut self, actor: Actor) -> Option<ActorToken>
        ensures { IfSome result (λ token. token.table ≡ N.table) }
    {
        let held = self.tokens.get_mut(actor as usize)?.take()?;
        Some(held.into_held())
    }

    /// Takes out the ticket of the task, if it has one.
    pub fn ticket(&mut self, task: TaskId) -> Option<Ticket>
        ensures { IfSome result (λ ticket. ticket.table ≡ N.table) }
    {
        let held = self.tickets.get_mut(task as usize)?.take()?;
        Some(held.into_held())
    }

    /// Puts the token of the actor in.
    pub fn keep_token(&mut self, actor: Actor, token: ActorToken)
        requires { token.table ≡ N.table }
    {
        let is_put = put(&mut self.tokens, actor as usize, OfRealm::new(token));
        self.check(is_put);
    }

    /// Puts the ticket of the task in.
    pub fn keep_ticket(&mut self, task: TaskId, ticket: Ticket)
        requires { ticket.table ≡ N.table }
    {
        let is_put = put(&mut self.tickets, task as usize, OfRealm::new(ticket));
        self.check(is_put);
    }
}

/// Puts it at the place, for which room is made; false where there was none.
fn put<T: Drop>(held: &mut Vec<Option<T>>, place: usize, one: T) -> bool {
    for _ in held.len()..=place {
        if held.push(None).is_err() {
            return false;
        }
    }
    match held.get_mut(place) {
        Some(slot) => {
            *slot = Some(one);
            true
        }
        None => false,
    }
}
