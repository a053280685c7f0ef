//! What is found of a master list in one pass: the lines that others jump to, the blocks that its steps run, and how many
//! steps run each.

ghost use Rattle.std.specs.Prelude.{◌≡◌, ◌<◌, ◌||◌, ℕ, IfOk, length, map, min};
ghost use Rattle.gm_image.specs.Views.{command};
ghost use Rattle.gm_merge.specs.Trimmed.{is_run, counted_before};
ghost use Rattle.gm_merge.specs.Numbers.{step_block, jump_line, is_named, is_target, step_count, flag_at, count_at};

use gm_image::MasterLine;
use std::alloc::{AllocError, Global};

// The block of a line of the master list, if it is a step.
pub fn step_block(line: &MasterLine) -> Option<u32>
    ensures { result ≡ step_block (command line.now) }
{
    match line {
        MasterLine::Step(number) => Some(*number),
        _ => None,
    }
}

// The line that a line of the master list jumps to, if it has one.
fn jump_line(line: &MasterLine) -> Option<u32>
    ensures { result ≡ jump_line (command line.now) }
{
    match line {
        MasterLine::Jump(target) | MasterLine::Test(target, _) => Some(*target),
        MasterLine::Turn(exit, _) => Some(*exit),
        MasterLine::Back(head) => Some(*head),
        MasterLine::SetGlobal(_, _) | MasterLine::Step(_) | MasterLine::Finish => None,
    }
}

// Sets the flag of a number, if there is one.
fn set_flag(flags: &mut Vec<bool>, number: Option<u32>)
    ensures long { length flags.new.items ≡ length flags.old.items }
    ensures flags { (q : ℕ) → q < length flags.old.items → flag_at flags.new.items q ≡ (flag_at flags.old.items q || is_named number q) }
{
    if let Some(number) = number {
        let at = number as usize;
        if at < flags.len() {
            flags[at] = true;
        }
    }
}

// Counts one more of a number, at most 255.
fn add_one(counts: &mut Vec<u8>, number: Option<u32>)
    ensures long { length counts.new.items ≡ length counts.old.items }
    ensures counts { (q : ℕ) → q < length counts.old.items → count_at counts.new.items q ≡ min (counted_before (is_named number q) (count_at counts.old.items q)) 255 }
{
    if let Some(number) = number {
        let at = number as usize;
        if at < counts.len() {
            counts[at] = counts[at].saturating_add(1);
        }
    }
}

// Of each line of a master list, whether some line jumps to it.
pub fn find_targets(alloc: Global, master: &[MasterLine]) -> Result<Vec<bool>, AllocError>
    ensures long { IfOk result (λ fs. length fs.items ≡ length master.now) }
    ensures targets { IfOk result (λ fs. (j : ℕ) → j < length master.now → flag_at fs.items j ≡ is_target (map command master.now) j) }
{
    let mut flags = vec![in alloc; false; master.len()]?;
    for line in master {
        set_flag(&mut flags, jump_line(line));
    }
    Ok(flags)
}

// Of each block, whether some step runs it.
pub fn find_runs(
    alloc: Global,
    blocks: usize,
    master: &[MasterLine],
) -> Result<Vec<bool>, AllocError>
    ensures long { IfOk result (λ fs. length fs.items ≡ blocks) }
    ensures runs { IfOk result (λ fs. (q : ℕ) → q < blocks → flag_at fs.items q ≡ is_run (map command master.now) q) }
{
    let mut flags = vec![in alloc; false; blocks]?;
    for line in master {
        set_flag(&mut flags, step_block(line));
    }
    Ok(flags)
}

// Of each block, how many steps run it, at most 255.
pub fn count_steps(
    alloc: Global,
    blocks: usize,
    master: &[MasterLine],
) -> Result<Vec<u8>, AllocError>
    ensures long { IfOk result (λ cs. length cs.items ≡ blocks) }
    ensures counts { IfOk result (λ cs. (q : ℕ) → q < blocks → count_at cs.items q ≡ min (step_count q (map command master.now)) 255) }
{
    let mut counts = vec![in alloc; 0u8; blocks]?;
    for line in master {
        add_one(&mut counts, step_block(line));
    }
    Ok(counts)
}
