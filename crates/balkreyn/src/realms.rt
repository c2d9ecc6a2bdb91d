//! A realm and its tokens, for a host that makes its own.

pub use realm_lock::{ActorToken, CloseReport, Realm, RealmName, Seed, View};
pub use std::marker::Brand;
