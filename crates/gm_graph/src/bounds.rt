//! The bounds of node numbers.

ghost use Rattle.std.specs.Prelude.{◌<◌, ◌≤◌, ◌-◌, ◌+◌, ◌^◌, ◌↔◌, ◌≡◌, ◌++◌, IsTrue, Contains};
ghost use Rattle.gm_graph.specs.Numberings.{AreWithin, IsWidened};

use crate::node_numbers::NodeNumbers;

// The least and the greatest of some numbers. Where there is no number, the least is above the greatest.
#[derive(Clone, Copy, Debug)]
pub(crate) struct Bounds {
    pub(crate) least: u64,
    pub(crate) greatest: u64,
}

impl Bounds {
    // The bounds of three lists of numbers.
    pub(crate) fn of(from: &NodeNumbers, to: &NodeNumbers, extra: &NodeNumbers) -> Self
        ensures from { AreWithin result from.now }
        ensures to { AreWithin result to.now }
        ensures extra { AreWithin result extra.now }
        ensures least { result.least ≤ result.greatest → Contains (from.now ++ to.now ++ extra.now) result.least }
        ensures greatest { result.least ≤ result.greatest → Contains (from.now ++ to.now ++ extra.now) result.greatest }
    {
        let none = Bounds {
            least: u64::MAX,
            greatest: 0,
        };
        none.widened(from).widened(to).widened(extra)
    }

    // The bounds of these numbers and those of a list.
    fn widened(self, numbers: &NodeNumbers) -> Self
        ensures { IsWidened self numbers.now result }
    {
        let mut bounds = self;
        for place in 0..numbers.len() {
            let number = numbers.get(place);
            bounds.least = bounds.least.min(number);
            bounds.greatest = bounds.greatest.max(number);
        }
        bounds
    }

    // Whether there are numbers, and no more numbers lie between the bounds than a count.
    pub(crate) fn are_dense(self, count: usize) -> bool
        ensures { IsTrue result ↔ ((self.least ≤ self.greatest) × (self.greatest - self.least < count)) }
    {
        self.least <= self.greatest && self.greatest - self.least < count as u64
    }

    // How many numbers lie between the bounds, both included.
    pub(crate) fn span(self) -> usize
        requires ordered { self.least ≤ self.greatest }
        requires fits { self.greatest - self.least < 2 ^ 63 }
        ensures { self.least + result ≡ self.greatest + 1 }
    {
        (self.greatest - self.least) as usize + 1
    }
}
