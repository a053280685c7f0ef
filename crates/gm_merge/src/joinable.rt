//! Whether a block and the one that runs after it may be one, by what is kept of the first: the globals that it puts, a
//! bound of its places, and whether it sends or can fault. So each line is read once.

ghost use Rattle.std.specs.Prelude.{◌≡◌, ◌&&◌, ◌||◌, ◌++◌, List, IfOk, OnOk, map};
ghost use Rattle.gm_image.specs.Views.{line, block};
ghost use Rattle.gm_image.specs.Program as P;
ghost use Rattle.gm_merge_laws.specs.Joins.{block_lines, are_joinable};
ghost use Rattle.gm_merge.specs.Earlier.{Shows};

use crate::bounds::{block_bound, lines_bound};
use crate::puts::{add_puts, block_puts};
use crate::tests::{Test, block_holds, lines_hold};
use gm_image::{Block, VertexLine};
use std::alloc::{AllocError, Global};
use std::collections::HashSet;

/// What a test for a join asks of the first of two blocks.
#[derive(Drop)]
pub struct Earlier {
    puts: HashSet<u32>,
    bound: u64,
    is_silent: bool,
    is_calm: bool,
}

// Whether all parts of a test hold.
fn all_hold(silent: bool, apart: bool, behind: bool, quiet: bool, calm: bool) -> bool
    ensures { result ≡ (silent && apart && behind && (quiet || calm)) }
{
    silent && apart && behind && (quiet || calm)
}

// Whether two tests hold.
fn both_hold(first: bool, second: bool) -> bool
    ensures { result ≡ (first && second) }
{
    first && second
}

impl Earlier {
    /// What a test asks of a block.
    ///
    /// # Errors
    ///
    /// If there is not enough memory.
    pub fn new(alloc: Global, first: &Block) -> Result<Earlier, AllocError>
        ensures { IfOk result (λ e. Shows e (block_lines (block first.now))) }
    {
        let puts = block_puts(alloc, first)?;
        let bound = block_bound(first);
        let is_silent = block_holds(Test::SendsNothing, first);
        let is_calm = block_holds(Test::CannotFault, first);
        Ok(Earlier {
            puts,
            bound,
            is_silent,
            is_calm,
        })
    }

    /// What a test asks of the block with more lines behind its own.
    ///
    /// # Errors
    ///
    /// If there is not enough memory. Then it stands for no block.
    pub fn add(&mut self, more: &[VertexLine]) -> Result<(), AllocError>
        ensures { OnOk result ((ls : List P.Line) → Shows self.old ls → Shows self.new (ls ++ map line more.now)) }
    {
        add_puts(&mut self.puts, more)?;
        let silent = lines_hold(Test::SendsNothing, more);
        let calm = lines_hold(Test::CannotFault, more);
        self.bound = lines_bound(self.bound, more);
        self.is_silent = both_hold(self.is_silent, silent);
        self.is_calm = both_hold(self.is_calm, calm);
        Ok(())
    }

    /// Whether the block and one that runs after it may be one. It takes no memory.
    pub fn is_joinable(&self, second: &Block) -> bool
        ensures { (a : P.Block) → Shows self.now (block_lines a) → result ≡ are_joinable a (block second.now) }
    {
        let apart = block_holds(
            Test::TouchesNone {
                globals: &self.puts,
            },
            second,
        );
        let behind = block_holds(Test::PlacesFrom { bound: self.bound }, second);
        let quiet = block_holds(Test::SendsNothing, second);
        all_hold(self.is_silent, apart, behind, quiet, self.is_calm)
    }
}
