//! The request that a service took from its source, and that no realm had room for yet.
ghost use Rattle.std.specs.Prelude.{◌≡◌, IsNone, IsSomeAnd, option_map};
ghost use Rattle.balkreyn.specs.{IsThread};

use scope_rules::{ForkReply, Name};

/// A request that the source gave, and that is neither begun nor lost yet. It can't be dropped: if it would be, the
/// program doesn't compile. Pass it to `begun` if its job has a thread, to `lost`, or to `Intake::put_back`.
pub(crate) struct Asked {
    pub(crate) name: Name,
}

impl Asked {
    /// Its job has a thread, as its fork was answered.
    pub(crate) fn begun(self, _reply: ForkReply)
        requires { IsThread _reply }
    {
        let _name = self.lost();
    }

    /// It is lost: its name, by which the source is told.
    pub(crate) fn lost(self) -> Name
        ensures { result ≡ self.name }
    {
        let Asked { name } = self;
        name
    }
}

/// What was put back, which is the next request for whoever has the baton.
pub(crate) struct Intake<W> {
    back: Option<(Asked, W)>,
}

impl<W: Drop> Intake<W> {
    /// Nothing was put back.
    pub(crate) fn new() -> Intake<W>
        ensures { IsNone result.back }
    {
        Intake { back: None }
    }

    /// The request that was put back, if one was.
    pub(crate) fn take(&mut self) -> Option<(Asked, W)>
        ensures { (result ≡ self.old.back) × IsNone self.new.back }
    {
        self.back.take()
    }

    /// Puts back a request. The one that was put back before comes out.
    pub(crate) fn put_back(&mut self, asked: Asked, job: W) -> Option<Asked>
        ensures put { IsSomeAnd self.new.back (λ back. (back.0 ≡ asked) × (back.1 ≡ job)) }
        ensures before { result ≡ option_map (λ back. back.0) self.old.back }
    {
        match self.back.replace((asked, job)) {
            Some((before, _job)) => Some(before),
            None => None,
        }
    }

    /// The name of the request that was put back, if one was, for whom nobody comes any more.
    pub(crate) fn end(self) -> Option<Name>
        ensures { result ≡ option_map (λ back. back.0.name) self.back }
    {
        let Intake { back } = self;
        match back {
            Some((asked, _job)) => Some(asked.lost()),
            None => None,
        }
    }
}
