//! Rows of node numbers.

ghost use Rattle.std.specs.Prelude.{◌≡◌, ◌<◌, ◌≤◌, ◌++◌, ◌∷◌, [], IfOk, OnOk, length, slice_index};

use gm_base::NoMemory;
use std::alloc::{AllocError, Global};
use std::marker::Model;

// No more numbers than these have room in memory.
const MOST: usize = 9_223_372_036_854_775_807;

/// Node numbers in an order, such as those from which the edges of a text lead. Contracts see the list of them. Up to the
/// first one of more than 32 bits each takes 4 bytes, from there on each takes 8.
#[derive(Debug, Drop)]
pub struct NodeNumbers {
    small: Vec<u32>,
    // From the first large number on.
    large: Vec<u64>,
}

impl Model for NodeNumbers {
    ghost use Rattle.std.specs.Prelude.{ℕ, List, ◌++◌};

    ghost Value = { List ℕ };

    ghost view = { λ it. it.small.items ++ it.large.items };

    ghost use Rattle.gm_graph.specs.NodeNumbers.{AreFew};

    ghost invariant = { AreFew };
}

impl NodeNumbers {
    /// No numbers. It takes no memory.
    pub fn new(alloc: Global) -> Self
        ensures { result ≡ [] }
    {
        NodeNumbers {
            small: Vec::new(alloc),
            large: Vec::new(alloc),
        }
    }

    /// No numbers, with room for some that are small.
    pub fn with_capacity(alloc: Global, room: usize) -> Result<Self, AllocError>
        ensures { IfOk result (λ numbers. numbers ≡ []) }
    {
        Ok(NodeNumbers {
            small: Vec::with_capacity(alloc, room)?,
            large: Vec::new(alloc),
        })
    }

    /// The numbers of a slice.
    pub fn from_slice(alloc: Global, numbers: &[u64]) -> Result<Self, NoMemory>
        ensures { IfOk result (λ row. row ≡ numbers.now) }
    {
        let mut row = NodeNumbers::new(alloc);
        for number in numbers {
            row.push(*number)?;
        }
        Ok(row)
    }

    /// Adds a number at the end.
    #[inline]
    pub fn push(&mut self, number: u64) -> Result<(), NoMemory>
        ensures { OnOk result (self.new ≡ self.old ++ number ∷ []) }
    {
        if self.len() == MOST {
            return Err(NoMemory);
        }
        if self.large.is_empty() && number <= u64::from(u32::MAX) {
            self.small.push(number as u32)?;
        } else {
            self.large.push(number)?;
        }
        Ok(())
    }

    /// How many numbers there are.
    #[inline]
    pub fn len(&self) -> usize
        ensures len { result ≡ length self.now }
        ensures few { result ≤ 9223372036854775807 }
    {
        self.small.len() + self.large.len()
    }

    /// The number at a place, from 0.
    #[inline]
    pub fn get(&self, place: usize) -> u64
        requires { place < length self.now }
        ensures { result ≡ slice_index self.now place }
    {
        let small = self.small.len();
        if place < small {
            u64::from(self.small[place])
        } else {
            self.large[place - small]
        }
    }
}
