//! The blocks that no step runs are dropped. What goes in are the blocks and the master list of an image; what comes out
//! are the blocks that some step runs, in their order, and the list with their new numbers. Blocks are moved.

ghost use Rattle.std.specs.Prelude.{◌≡◌, ◌<◌, ◌++◌, ℕ, [], IfOk, OnOk, length, map};
ghost use Rattle.gm_image.specs.Program.{Command};
ghost use Rattle.gm_image.specs.Views.{block, command};
ghost use Rattle.gm_merge.specs.Trimmed.{is_run, kept_before, kept_blocks, counted_before, kept_count, renumbered};
ghost use Rattle.gm_merge.specs.Numbers.{flag_at, count_at, numbered, StepsInside};

use crate::numbers::find_runs;
use gm_image::{Block, MasterLine};
use std::alloc::{AllocError, Global};

// One more than a number, if a flag is set.
fn count_flag(number: u32, flag: bool) -> u32
    requires { number < 4294967295 }
    ensures { result ≡ counted_before flag number }
{
    if flag { number + 1 } else { number }
}

// Of each block, how many of those before it are kept.
fn find_numbers(alloc: Global, flags: &[bool]) -> Result<Vec<u32>, AllocError>
    requires { length flags.now < 4294967295 }
    ensures long { IfOk result (λ ns. length ns.items ≡ length flags.now) }
    ensures numbers { IfOk result (λ ns. (q : ℕ) → q < length flags.now → count_at ns.items q ≡ kept_count (flag_at flags.now) 0 q) }
{
    let mut numbers = Vec::with_capacity(alloc, flags.len())?;
    let mut next = 0;
    for flag in flags {
        numbers.push(next)?;
        next = count_flag(next, *flag);
    }
    Ok(numbers)
}

// Adds a block to those that are kept, if it is one of them.
fn keep_block(kept: &mut Vec<Block>, one: Block, flag: bool) -> Result<(), AllocError>
    ensures { OnOk result (map block kept.new.items ≡ map block kept.old.items ++ kept_before flag (block one) []) }
{
    if flag {
        kept.push(one)?;
    }
    Ok(())
}

// The blocks whose flags are set.
fn keep_blocks(alloc: Global, blocks: Vec<Block>, flags: &[bool]) -> Result<Vec<Block>, AllocError>
    requires { length flags.now ≡ length blocks.items }
    ensures { IfOk result (λ r. map block r.items ≡ kept_blocks (flag_at flags.now) 0 (map block blocks.items)) }
{
    let mut kept = Vec::new(alloc);
    let mut number = 0;
    for one in blocks {
        keep_block(&mut kept, one, flags[number])?;
        number += 1;
    }
    Ok(kept)
}

// A line of the master list with the new number of its block, if it is a step.
fn renumber_line(line: MasterLine, numbers: &[u32]) -> MasterLine
    ensures { command result ≡ numbered (count_at numbers.now) (command line) }
{
    match line {
        MasterLine::Step(old) => match numbers.get(old as usize) {
            Some(new) => MasterLine::Step(*new),
            None => MasterLine::Step(0),
        },
        other => other,
    }
}

// A master list with the new numbers of the blocks.
fn renumber(
    alloc: Global,
    master: Vec<MasterLine>,
    numbers: &[u32],
) -> Result<Vec<MasterLine>, AllocError>
    ensures { IfOk result (λ r. map command r.items ≡ map (numbered (count_at numbers.now)) (map command master.items)) }
{
    let mut lines = Vec::new(alloc);
    for line in master {
        lines.push(renumber_line(line, numbers))?;
    }
    Ok(lines)
}

// The blocks that some step of a master list runs, and the list with their new numbers.
pub fn trim_lists(
    alloc: Global,
    blocks: Vec<Block>,
    master: Vec<MasterLine>,
) -> Result<(Vec<Block>, Vec<MasterLine>), AllocError>
    requires few { length blocks.items < 4294967295 }
    requires inside { StepsInside (length blocks.items) (map command master.items) }
    ensures blocks { IfOk result (λ r. map block r.0.items ≡ kept_blocks (is_run (map command master.items)) 0 (map block blocks.items)) }
    ensures master { IfOk result (λ r. map command r.1.items ≡ map (renumbered (is_run (map command master.items))) (map command master.items)) }
{
    let runs = find_runs(alloc, blocks.len(), master.as_slice())?;
    let numbers = find_numbers(alloc, runs.as_slice())?;
    let kept = keep_blocks(alloc, blocks, runs.as_slice())?;
    let lines = renumber(alloc, master, numbers.as_slice())?;
    Ok((kept, lines))
}
