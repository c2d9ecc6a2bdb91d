//! Who waits for something that is had in the order of asking, each at a bell of its own.

use cancel_marks::Bell;
use std::alloc::Global;
use std::collections::VecDeque;

/// Those who wait, in the order in which they asked.
#[derive(Drop)]
pub(crate) struct Waiting {
    places: VecDeque<Place>,
    next: u64,
}

/// One of them. It has no bell where memory for one was refused: then it looks again and again.
#[derive(Drop)]
struct Place {
    number: u64,
    bell: Option<Bell>,
}

/// The place of one who waits. It is not `Drop`: who forgets to leave the line does not compile.
pub(crate) struct Turn {
    /// None where memory was refused: such a one comes behind all others, and looks again and again.
    number: Option<u64>,
    bell: Option<Bell>,
}

impl Turn {
    /// The bell that is rung once there may be something for who has the place, if it has one.
    pub(crate) fn bell(&self) -> Option<&Bell> {
        self.bell.as_ref()
    }

    /// A place outside any line, with this number, at this bell.
    pub(crate) fn at(number: Option<u64>, bell: &Option<Bell>) -> Turn {
        let bell = share_of(bell);
        Turn { number, bell }
    }

    /// The end of such a place, and its number.
    pub(crate) fn end(self) -> Option<u64> {
        let Turn {
            number,
            bell: _bell,
        } = self;
        number
    }
}

impl Waiting {
    /// Nobody.
    pub(crate) fn new(alloc: Global) -> Waiting {
        Waiting {
            places: VecDeque::new(alloc),
            next: 0,
        }
    }

    /// A place behind those who wait, with this bell.
    pub(crate) fn ask(&mut self, bell: Option<Bell>) -> Turn {
        let number = self.next;
        let shared = share_of(&bell);
        match self.places.push_back(Place { number, bell }) {
            Ok(()) => {
                self.next = number.wrapping_add(1);
                Turn {
                    number: Some(number),
                    bell: shared,
                }
            }
            Err(_) => Turn {
                number: None,
                bell: None,
            },
        }
    }

    /// Whether nobody who waits asked before; who has no place comes behind all who wait.
    pub(crate) fn is_first(&self, turn: Option<&Turn>) -> bool {
        match (self.places.front(), number_of(turn)) {
            (Some(first), Some(number)) => first.number == number,
            (first, _) => first.is_none(),
        }
    }

    /// The place is free.
    pub(crate) fn leave(&mut self, turn: Turn) {
        let Turn {
            number,
            bell: _bell,
        } = turn;
        for place in 0..self.places.len() {
            if self.number_at(place) == number {
                let _place = self.places.remove(place);
                return;
            }
        }
    }

    /// The number of who has this place in the line.
    fn number_at(&self, place: usize) -> Option<u64> {
        match self.places.get(place) {
            Some(there) => Some(there.number),
            None => None,
        }
    }

    /// The bell of the first, which is to be rung once the line's lock is given up. If std's count of holders is full it is
    /// rung at once.
    pub(crate) fn first(&self) -> Option<Bell> {
        let bell = self.places.front()?.bell.as_ref()?;
        match bell.share() {
            Ok(share) => Some(share),
            Err(_) => {
                bell.ring();
                None
            }
        }
    }

    /// Rings the bells of all. A ring takes no lock.
    pub(crate) fn ring_all(&self) {
        for place in 0..self.places.len() {
            if let Some(there) = self.places.get(place) {
                if let Some(bell) = &there.bell {
                    bell.ring();
                }
            }
        }
    }
}

/// The number of the place, if there is one.
fn number_of(turn: Option<&Turn>) -> Option<u64> {
    turn?.number
}

/// The same bell for one holder more. None if std's count of holders is full.
fn share_of(bell: &Option<Bell>) -> Option<Bell> {
    bell.as_ref()?.share().ok()
}

/// Rings the bell, if there is one.
pub(crate) fn ring(bell: Option<Bell>) {
    if let Some(bell) = bell {
        bell.ring();
    }
}
