//! Steps are joined line by line, from the first line of the master list to the last. What goes in is a sound image; what
//! comes out are its blocks with all that were joined, and its master list. One pass: beside the block that was joined
//! last stands what a test for a join asks of it, so that a test costs the next block alone, and lines are moved.

ghost use Rattle.std.specs.Prelude.{◌≡◌, ◌<◌, ◌≤◌, ◌+◌, ℕ, Some, None, IfOk, OnOk, IsTrue, length, map, min, nat_lt, slice_get, slice_index_or};
ghost use Rattle.gm_image.specs.Program as P;
ghost use Rattle.gm_image.specs.Program.{Step, Jump, Program};
ghost use Rattle.gm_image.specs.Soundness.{is_sound};
ghost use Rattle.gm_image.specs.Views.{line, block, command, program};
ghost use Rattle.gm_machine.specs.Machine.{no_block, block_at};
ghost use Rattle.gm_merge_laws.specs.Joins.{Joinable, restarts, joined_block, replaced};
ghost use Rattle.gm_merge.specs.Joining.{with_line_joined, all_joined};
ghost use Rattle.gm_merge.specs.Numbers.{flag_at, count_at, is_target, step_count};
ghost use Rattle.gm_merge.specs.Walk.{Keeps, IfKept, step_of, with_bodies, TakenOne, Joined, WalkStands, StandsFor};

use crate::copies::copy_block;
use crate::counts::{count_lines, with_block, with_lines};
use crate::joinable::Earlier;
use crate::numbers::{count_steps, find_targets, step_block};
use crate::registers::{add_set, find_restarts};
use gm_base::Items;
use gm_image::{Block, Image, MasterLine, VertexLine};
use gm_value::VType;
use std::alloc::{AllocError, Global};
use std::collections::HashSet;
use std::mem::replace;

// What is kept of the block that the next one may be joined to: what a test asks of it, the registers that it sets, and
// how many lines its text has, at most the limit.
#[derive(Drop)]
pub struct Kept {
    earlier: Earlier,
    set: HashSet<u32>,
    rows: u64,
}

// What is found of an image before its steps are joined: the types of its registers, the lines that others jump to, and
// how many steps run each block, at most 255.
#[derive(Drop)]
pub struct Plan {
    registers: Items<VType>,
    targets: Vec<bool>,
    steps: Vec<u8>,
}

// An image whose steps are being joined: its blocks, of which those that no step runs any more may be empty, its master
// list, how many lines its text has, and what is kept of the block of the next line, if it was just joined.
#[derive(Drop)]
pub struct Walk {
    blocks: Vec<Block>,
    master: Vec<MasterLine>,
    lines: u64,
    kept: Option<Kept>,
}

impl Kept {
    // What is kept of a block.
    fn new(alloc: Global, one: &Block) -> Result<Kept, AllocError>
        ensures { IfOk result (λ k. Keeps k (block one.now)) }
    {
        let earlier = Earlier::new(alloc, one)?;
        let mut set = HashSet::new(alloc);
        add_set(&mut set, one.body.as_slice())?;
        let rows = with_block(0, one);
        Ok(Kept { earlier, set, rows })
    }

    // What is kept of a block, if nothing is yet.
    fn of(alloc: Global, kept: Option<Kept>, one: &Block) -> Result<Kept, AllocError>
        requires { IfKept kept (block one.now) }
        ensures { IfOk result (λ k. Keeps k (block one.now)) }
    {
        match kept {
            Some(kept) => Ok(kept),
            None => Kept::new(alloc, one),
        }
    }

    // The lines between the bodies of a block and of one that is joined to it; what is kept is then of both.
    fn join(
        &mut self,
        alloc: Global,
        registers: &[VType],
        second: &Block,
    ) -> Result<Vec<VertexLine>, AllocError>
        requires { self.old.rows ≤ 4294967296 }
        ensures between { IfOk result (λ ls. (a : P.Block) → Keeps self.old a → map line ls.items ≡ restarts registers.now a.body (block second.now).body) }
        ensures keeps { OnOk result ((a : P.Block) → Keeps self.old a → Keeps self.new (joined_block registers.now a (block second.now))) }
    {
        let body = second.body.as_slice();
        let between = find_restarts(alloc, registers, &self.set, body)?;
        self.earlier.add(body)?;
        add_set(&mut self.set, body)?;
        self.rows = with_lines(with_lines(self.rows, between.len()), body.len());
        Ok(between)
    }
}

// A block, which is moved where no other step runs it.
fn take_block(
    alloc: Global,
    blocks: &mut Vec<Block>,
    steps: &[u8],
    number: usize,
) -> Result<Block, AllocError>
    requires { number < length blocks.old.items }
    ensures taken { IfOk result (λ b. block b ≡ slice_index_or (map block blocks.old.items) number no_block) }
    ensures others { OnOk result (TakenOne steps.now number (map block blocks.old.items) (map block blocks.new.items)) }
{
    if is_shared(steps, number) {
        let copy = copy_block(alloc, &blocks[number])?;
        return Ok(copy);
    }
    let empty = Block {
        handlers: Items::new(Vec::new(alloc)),
        body: Items::new(Vec::new(alloc)),
    };
    Ok(replace(&mut blocks[number], empty))
}

// Whether more than one step runs a block. One that was joined is run by one step.
fn is_shared(steps: &[u8], number: usize) -> bool
    ensures { result ≡ nat_lt 1 (count_at steps.now number) }
{
    match steps.get(number) {
        Some(count) => *count > 1,
        None => false,
    }
}

// Two blocks as one, with some lines between their bodies. The lines are moved.
fn join_blocks(
    first: Block,
    mut between: Vec<VertexLine>,
    second: Block,
) -> Result<Block, AllocError>
    ensures { IfOk result (λ b. block b ≡ with_bodies (block first) (map line between.items) (block second)) }
{
    let mut body = first.body.into_vec();
    let mut more = second.body.into_vec();
    body.append(&mut between)?;
    body.append(&mut more)?;
    Ok(Block {
        handlers: first.handlers,
        body: Items::new(body),
    })
}

// Two blocks are taken, and joined to one behind all blocks.
fn put_joined(
    alloc: Global,
    blocks: &mut Vec<Block>,
    steps: &[u8],
    a: usize,
    b: usize,
    between: Vec<VertexLine>,
) -> Result<(), AllocError>
    requires first { a < length blocks.old.items }
    requires second { b < length blocks.old.items }
    requires apart { a ≡ b → 1 < count_at steps.now a }
    ensures { OnOk result (Joined steps.now a b (with_bodies (slice_index_or (map block blocks.old.items) a no_block) (map line between.items) (slice_index_or (map block blocks.old.items) b no_block)) (map block blocks.old.items) (map block blocks.new.items)) }
{
    let first = take_block(alloc, blocks, steps, a)?;
    let second = take_block(alloc, blocks, steps, b)?;
    let joined = join_blocks(first, between, second)?;
    blocks.push(joined)?;
    Ok(())
}

// A master list in which a line leads to the one below it, which is a step of another block.
fn put_step(master: &mut Vec<MasterLine>, i: usize, number: u32)
    requires inside { i + 1 < length master.old.items }
    requires small { i + 1 < 4294967296 }
    ensures { map command master.new.items ≡ replaced i (Jump (i + 1)) (Step number) (map command master.old.items) }
{
    master[i] = MasterLine::Jump((i + 1) as u32);
    master[i + 1] = MasterLine::Step(number);
}

impl Plan {
    // What is found of an image.
    fn new(
        alloc: Global,
        registers: Items<VType>,
        blocks: usize,
        master: &[MasterLine],
    ) -> Result<Plan, AllocError>
        ensures registers { IfOk result (λ p. p.registers ≡ registers) }
        ensures marks { IfOk result (λ p. length p.targets.items ≡ length master.now) }
        ensures targets { IfOk result (λ p. (j : ℕ) → j < length master.now → flag_at p.targets.items j ≡ is_target (map command master.now) j) }
        ensures steps { IfOk result (λ p. (q : ℕ) → q < blocks → count_at p.steps.items q ≡ min (step_count q (map command master.now)) 255) }
    {
        let targets = find_targets(alloc, master)?;
        let steps = count_steps(alloc, blocks, master)?;
        Ok(Plan {
            registers,
            targets,
            steps,
        })
    }
}

impl Walk {
    // The block of a line, if it is a step.
    fn step_at(&self, i: usize) -> Option<u32>
        ensures { result ≡ step_of (slice_get (map command self.now.master.items) i) }
    {
        match self.master.get(i) {
            Some(line) => step_block(line),
            None => None,
        }
    }

    // Joins line i, a step, with the one below it, another step, whose blocks may be one, if the text does not become too
    // long.
    fn join_pair(
        &mut self,
        alloc: Global,
        plan: &Plan,
        i: usize,
        a: u32,
        b: u32,
        mut kept: Kept,
    ) -> Result<(), AllocError>
        ghost image: { Program }
        requires pair { Joinable image i a b }
        requires kept { Keeps kept (block_at image a) }
        requires stands { WalkStands self.old plan.now i image }
        requires none { self.old.kept ≡ None }
        ensures { OnOk result (WalkStands self.new plan.now (i + 1) (with_line_joined image i)) }
    {
        let between = kept.join(alloc, plan.registers.as_slice(), &self.blocks[b as usize])?;
        if self.lines + kept.rows >= 4_294_967_296 {
            return Ok(());
        }
        let number = self.blocks.len() as u32;
        put_joined(
            alloc,
            &mut self.blocks,
            plan.steps.as_slice(),
            a as usize,
            b as usize,
            between,
        )?;
        put_step(&mut self.master, i, number);
        self.lines += kept.rows;
        self.kept = Some(kept);
        Ok(())
    }

    // Joins line i, a step, with the one below it, another step, if they may be joined.
    fn join_steps(
        &mut self,
        alloc: Global,
        plan: &Plan,
        i: usize,
        a: u32,
        b: u32,
        kept: Option<Kept>,
    ) -> Result<(), AllocError>
        ghost image: { Program }
        requires first { slice_get image.master i ≡ Some (Step a) }
        requires second { slice_get image.master (i + 1) ≡ Some (Step b) }
        requires kept { IfKept kept (block_at image a) }
        requires stands { WalkStands self.old plan.now i image }
        requires none { self.old.kept ≡ None }
        ensures { OnOk result (WalkStands self.new plan.now (i + 1) (with_line_joined image i)) }
    {
        if plan.targets[i + 1] {
            return Ok(());
        }
        let kept = Kept::of(alloc, kept, &self.blocks[a as usize])?;
        if !kept.earlier.is_joinable(&self.blocks[b as usize]) {
            return Ok(());
        }
        self.join_pair(alloc, plan, i, a, b, kept)
    }

    // Joins a line with the one below it, if they are steps that may be joined.
    fn join_line(&mut self, alloc: Global, plan: &Plan, i: usize) -> Result<(), AllocError>
        ghost image: { Program }
        requires inside { i < length self.old.master.items }
        requires stands { WalkStands self.old plan.now i image }
        ensures { OnOk result (WalkStands self.new plan.now (i + 1) (with_line_joined image i)) }
    {
        let kept = self.kept.take();
        let Some(a) = self.step_at(i) else {
            return Ok(());
        };
        let Some(b) = self.step_at(i + 1) else {
            return Ok(());
        };
        self.join_steps(alloc, plan, i, a, b, kept)
    }

    // Joins each line with the one below it, from the first to the last.
    fn join_lines(&mut self, alloc: Global, plan: &Plan) -> Result<(), AllocError>
        ghost image: { Program }
        requires { WalkStands self.old plan.now 0 image }
        ensures { OnOk result (WalkStands self.new plan.now (length image.master) (all_joined image)) }
    {
        let count = self.master.len();
        for i in 0..count {
            self.join_line(alloc, plan, i)?;
        }
        Ok(())
    }
}

// The image with its steps joined. The blocks that no step runs any more may be empty.
pub fn join_image(alloc: Global, mut image: Image) -> Result<Image, AllocError>
    ghost start: { Program }
    requires same { program image ≡ start }
    requires sound { IsTrue (is_sound start) }
    ensures { IfOk result (λ r. StandsFor (program r) (all_joined start)) }
{
    let lines = count_lines(&image);
    let plan = Plan::new(
        alloc,
        image.registers,
        image.blocks.len(),
        image.master.as_slice(),
    )?;
    let mut walk = Walk {
        blocks: image.blocks.into_vec(),
        master: image.master.into_vec(),
        lines,
        kept: None,
    };
    walk.join_lines(alloc, &plan)?;
    image.registers = plan.registers;
    image.blocks = Items::new(walk.blocks);
    image.master = Items::new(walk.master);
    Ok(image)
}
