//! The registers that one body leaves to another: those that the first sets and the second reads start again between them.

ghost use Rattle.std.specs.Prelude.{◌≡◌, ◌||◌, ◌++◌, ℕ, List, IfOk, OnOk, map, nat_eq, slice_get};
ghost use Rattle.std.specs.HashSet.{contains};
ghost use Rattle.std.specs.List.Sorted.{IsStrictlyIncreasing};
ghost use Rattle.gm_image.specs.Program.{Line};
ghost use Rattle.gm_image.specs.Parts.{is_among, terms_of};
ghost use Rattle.gm_image.specs.Shapes.{leaf_term};
ghost use Rattle.gm_image.specs.Views.{term, target, line};
ghost use Rattle.gm_merge_laws.specs.Joins.{sets_register, restarts};
ghost use Rattle.gm_merge.specs.Registers.{sets_some, reads_some, line_reads, term_reads, terms_read, leaf_register, restart_if, restarts_among};
ghost use Rattle.gm_merge.specs.Numbers.{is_named};

use crate::copies::leaf_expr;
use gm_image::{Expr, Leaf, Shape, VertexLine};
use gm_value::VType;
use std::alloc::{AllocError, Global};
use std::collections::HashSet;

// Adds the registers that some lines set to a set.
pub fn add_set(set: &mut HashSet<u32>, lines: &[VertexLine]) -> Result<(), AllocError>
    ensures { OnOk result ((r : ℕ) → contains nat_eq set.new r ≡ (contains nat_eq set.old r || sets_some (map line lines.now) r)) }
{
    for vertex_line in lines {
        add_line_set(set, vertex_line)?;
    }
    Ok(())
}

// Adds the register that a line sets to a set, if it sets one.
fn add_line_set(set: &mut HashSet<u32>, vertex_line: &VertexLine) -> Result<(), AllocError>
    ensures { OnOk result ((r : ℕ) → contains nat_eq set.new r ≡ (contains nat_eq set.old r || sets_register r (line vertex_line.now))) }
{
    if let VertexLine::SetRegister(register, _) = vertex_line {
        set.insert(*register)?;
    }
    Ok(())
}

// The register that a leaf reads, if it reads one.
fn leaf_register(leaf: Leaf) -> Option<u32>
    ensures { result ≡ leaf_register (leaf_term leaf) }
{
    match leaf {
        Leaf::Register(register) => Some(register),
        _ => None,
    }
}

// Adds a register to a list, if there is one.
fn add_register(reads: &mut Vec<u32>, register: Option<u32>) -> Result<(), AllocError>
    ensures { OnOk result ((r : ℕ) → is_among r reads.new.items ≡ (is_among r reads.old.items || is_named register r)) }
{
    if let Some(register) = register {
        reads.push(register)?;
    }
    Ok(())
}

// Adds the registers that an expression reads to a list.
fn add_term(reads: &mut Vec<u32>, expr: &Expr) -> Result<(), AllocError>
    ensures { OnOk result ((r : ℕ) → is_among r reads.new.items ≡ (is_among r reads.old.items || term_reads (term expr.now) r)) }
{
    match expr.shape() {
        Shape::Leaf(leaf) => {
            add_register(reads, leaf_register(leaf))?;
            Ok(())
        }
        Shape::One(_, a) => {
            add_term(reads, a)?;
            Ok(())
        }
        Shape::Two(_, a, b) => {
            add_term(reads, a)?;
            add_term(reads, b)?;
            Ok(())
        }
        Shape::Choose(c, a, b) => {
            add_term(reads, c)?;
            add_term(reads, a)?;
            add_term(reads, b)?;
            Ok(())
        }
    }
}

// Adds the registers that some expressions read to a list.
fn add_terms(reads: &mut Vec<u32>, exprs: &[Expr]) -> Result<(), AllocError>
    ensures { OnOk result ((r : ℕ) → is_among r reads.new.items ≡ (is_among r reads.old.items || terms_read (map term exprs.now) r)) }
{
    for expr in exprs {
        add_term(reads, expr)?;
    }
    Ok(())
}

// Adds the registers that the values of a reduction read to a list.
fn add_targets(reads: &mut Vec<u32>, targets: &[(u32, Expr)]) -> Result<(), AllocError>
    ensures { OnOk result ((r : ℕ) → is_among r reads.new.items ≡ (is_among r reads.old.items || terms_read (terms_of (map target targets.now)) r)) }
{
    for target in targets {
        add_term(reads, &target.1)?;
    }
    Ok(())
}

// Adds the registers that a line reads to a list.
fn add_line_read(reads: &mut Vec<u32>, vertex_line: &VertexLine) -> Result<(), AllocError>
    ensures { OnOk result ((r : ℕ) → is_among r reads.new.items ≡ (is_among r reads.old.items || line_reads (line vertex_line.now) r)) }
{
    match vertex_line {
        VertexLine::SetField(_, a) | VertexLine::SetRegister(_, a) | VertexLine::Skip(_, a) => {
            add_term(reads, a)?;
            Ok(())
        }
        VertexLine::Fold { slots, .. } | VertexLine::Put { slots, .. } => {
            add_targets(reads, slots.as_slice())?;
            Ok(())
        }
        VertexLine::Send { to, values, .. } => {
            add_term(reads, to)?;
            add_terms(reads, values.as_slice())?;
            Ok(())
        }
        VertexLine::EachOut(_) | VertexLine::EachIn(_) => Ok(()),
    }
}

// Adds the registers that some lines read to a list.
fn add_read(reads: &mut Vec<u32>, lines: &[VertexLine]) -> Result<(), AllocError>
    ensures { OnOk result ((r : ℕ) → is_among r reads.new.items ≡ (is_among r reads.old.items || reads_some (map line lines.now) r)) }
{
    for vertex_line in lines {
        add_line_read(reads, vertex_line)?;
    }
    Ok(())
}

// The registers that some lines read, in ascending order.
fn find_read(alloc: Global, lines: &[VertexLine]) -> Result<Vec<u32>, AllocError>
    ensures rising { IfOk result (λ rs. IsStrictlyIncreasing rs.items) }
    ensures read { IfOk result (λ rs. (r : ℕ) → is_among r rs.items ≡ reads_some (map line lines.now) r) }
{
    let mut reads = Vec::new(alloc);
    add_read(&mut reads, lines)?;
    reads.sort_unstable();
    reads.dedup();
    Ok(reads)
}

// The type of a register, if there is one.
fn register_type(registers: &[VType], register: u32) -> Option<VType>
    ensures { result ≡ slice_get registers.now register }
{
    match registers.get(register as usize) {
        Some(vtype) => Some(*vtype),
        None => None,
    }
}

// Adds the line by which a register starts again, if it is set and there is one.
fn add_restart(
    lines: &mut Vec<VertexLine>,
    registers: &[VType],
    register: u32,
    set: &HashSet<u32>,
) -> Result<(), AllocError>
    ensures { OnOk result (map line lines.new.items ≡ map line lines.old.items ++ restart_if (contains nat_eq set.now register) register (slice_get registers.now register)) }
{
    if set.contains(&register) {
        if let Some(vtype) = register_type(registers, register) {
            lines.push(VertexLine::SetRegister(register, leaf_expr(Leaf::Const(vtype.zero()))))?;
        }
    }
    Ok(())
}

// The lines by which those of some registers that are set start again.
fn restart_lines(
    alloc: Global,
    registers: &[VType],
    set: &HashSet<u32>,
    reads: &[u32],
) -> Result<Vec<VertexLine>, AllocError>
    ensures { IfOk result (λ ls. map line ls.items ≡ restarts_among (contains nat_eq set.now) registers.now reads.now) }
{
    let mut lines = Vec::new(alloc);
    for register in reads {
        add_restart(&mut lines, registers, *register, set)?;
    }
    Ok(lines)
}

// The lines between two bodies, of which the first sets some registers: those that the second reads start again. Time is
// near linear in the second body, however many registers there are.
pub fn find_restarts(
    alloc: Global,
    registers: &[VType],
    set: &HashSet<u32>,
    body: &[VertexLine],
) -> Result<Vec<VertexLine>, AllocError>
    ensures { IfOk result (λ ls. (first : List Line) → ((r : ℕ) → contains nat_eq set.now r ≡ sets_some first r) → map line ls.items ≡ restarts registers.now first (map line body.now)) }
{
    let reads = find_read(alloc, body)?;
    let lines = restart_lines(alloc, registers, set, reads.as_slice())?;
    Ok(lines)
}
