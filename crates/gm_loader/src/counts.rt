//! How many different node numbers stand on the lines.

ghost use Rattle.std.specs.Prelude.{◌≡◌, ◌∷◌, ◌++◌, [], ℕ, List, true, nat_lt, length, OnOk};
ghost use Rattle.gm_graph.specs.Builds.{distinct};
ghost use Rattle.gm_loader.specs.Sets.{Counts, IsSetOf, SameNumbers};

use crate::sets::NumberSet;
use gm_base::NoMemory;
use gm_graph::NodeNumbers;
use std::alloc::Global;

// A count of the node numbers. As long as each is below the limit on nodes, there are no more of them than the limit, and
// they are not counted: the set is empty. From the first other number on, the set has them all.
#[derive(Drop)]
pub struct NodeCount {
    pub counted: bool,
    pub set: NumberSet,
}

impl NodeCount {
    // A count of no numbers.
    pub fn new(alloc: Global) -> Self
        ensures { (most : ℕ) → Counts most [] result }
    {
        NodeCount {
            counted: false,
            set: NumberSet::new(alloc),
        }
    }

    // Begins to count: these are all numbers so far.
    fn begin(
        &mut self,
        from: &NodeNumbers,
        to: &NodeNumbers,
        extra: &NodeNumbers,
    ) -> Result<(), NoMemory>
        ensures counted { OnOk result (self.new.counted ≡ true) }
        ensures set { OnOk result (IsSetOf [] self.old.set → IsSetOf (from.now ++ to.now ++ extra.now) self.new.set) }
    {
        self.set.insert_all(from)?;
        self.set.insert_all(to)?;
        self.set.insert_all(extra)?;
        self.counted = true;
        Ok(())
    }

    // Takes in the two numbers of the last line, or its one number twice. `from`, `to` and `extra` have all numbers so
    // far, with these.
    pub fn add(
        &mut self,
        most: u32,
        ends: (u64, u64),
        from: &NodeNumbers,
        to: &NodeNumbers,
        extra: &NodeNumbers,
    ) -> Result<(), NoMemory>
        ensures { OnOk result ((before numbers : List ℕ) → Counts most before self.old
            → SameNumbers (before ++ ends.0 ∷ ends.1 ∷ []) numbers → SameNumbers (from.now ++ to.now ++ extra.now) numbers
            → Counts most numbers self.new) }
    {
        let most = u64::from(most);
        if self.counted {
            self.set.insert(ends.0)?;
            self.set.insert(ends.1)?;
        } else if ends.0 >= most || ends.1 >= most {
            self.begin(from, to, extra)?;
        }
        Ok(())
    }

    // Whether there are more different numbers than the limit.
    pub fn exceeds(&self, most: u32) -> bool
        ensures { (numbers : List ℕ) → Counts most numbers self.now → result ≡ nat_lt most (length (distinct numbers)) }
    {
        self.counted && self.set.count > u64::from(most)
    }
}
