/// The threads at work are quick if they take so many items between two looks of a called thread, some five
/// microseconds: so a work takes less than three.
const QUICK: usize = 2;

/// After so many looks in turn at which they were not a called thread comes.
const PATIENCE: u32 = 4;

/// How quickly the threads at work take items. It decides only when a called thread comes: for such short works one thread
/// more costs more than it does, since all contend for the same locks. No clause speaks of it; a thread that was called
/// comes at the latest once the others took fewer items between two of its looks.
#[derive(Drop)]
pub(crate) struct Pace {
    /// How many threads are at work, but for those that were made for their first item.
    at_work: usize,
    /// How many items were taken since the last look.
    taken: usize,
    /// Whether they were taken quickly at a look, since a thread came for want of that.
    is_quick: bool,
    /// At how many looks in turn they were not.
    slow: u32,
}

impl Pace {
    /// No item was taken yet.
    pub(crate) fn new() -> Pace {
        Pace {
            at_work: 0,
            taken: 0,
            is_quick: false,
            slow: 0,
        }
    }

    /// A thread that was at work took one more item.
    pub(crate) fn take(&mut self) {
        self.taken = self.taken.saturating_add(1);
    }

    /// A thread is at work no longer.
    pub(crate) fn rest(&mut self) {
        self.at_work = self.at_work.saturating_sub(1);
    }

    /// The thread that was called has come.
    pub(crate) fn come(&mut self) {
        self.at_work = self.at_work.saturating_add(1);
        self.slow = 0;
    }

    /// The thread that was called looks: whether it is to wait, and look again. If nobody is at work, it is not.
    pub(crate) fn is_to_wait(&mut self) -> bool {
        if self.taken >= QUICK {
            self.is_quick = true;
            self.slow = 0;
        } else {
            self.slow = self.slow.saturating_add(1);
        }
        self.taken = 0;
        self.is_quick = self.is_quick && self.slow <= PATIENCE;
        self.is_quick && self.at_work > 0
    }
}
