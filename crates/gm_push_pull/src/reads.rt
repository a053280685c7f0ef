//! What values read of the nodes and edges around a loop.

ghost use Rattle.std.specs.Prelude.{◌≡◌, ◌<◌, ◌⊎◌};
ghost use Rattle.gm_push_pull.specs.Places.{earlier, place_rank};
ghost use Rattle.gm_push_pull.specs.Reads.{joined, reads_rank};

use gm_base::Place;

// What some values read: whether a property or degree through a loop's iterator is among it, and the first place at
// which an edge's property is read.
#[derive(Clone, Copy, PartialEq, Eq, Debug)]
pub struct Reads {
    pub neighbour: bool,
    pub edge: Option<Place>,
}

// What a constant reads.
pub const NOTHING: Reads = Reads {
    neighbour: false,
    edge: None,
};

// The earlier of two places, where there are any.
pub fn earlier(a: Option<Place>, b: Option<Place>) -> Option<Place>
    ensures place { result ≡ earlier a b }
    ensures lower { (result ≡ a) ⊎ (place_rank result < place_rank a) }
{
    match a {
        None => match b {
            None => None,
            Some(_) => b,
        },
        Some(first) => match b {
            None => a,
            Some(second) => { if second.comes_before(first) { b } else { a } }
        },
    }
}

impl Reads {
    // What is read by these values or others.
    pub fn join(self, other: Reads) -> Reads
        ensures reads { result ≡ joined self other }
        ensures lower { (result ≡ self) ⊎ (reads_rank result < reads_rank self) }
    {
        Reads {
            neighbour: self.neighbour || other.neighbour,
            edge: earlier(self.edge, other.edge),
        }
    }
}
