//! The globals that the lines of a block put, as a set.

ghost use Rattle.std.specs.Prelude.{◌≡◌, ◌||◌, ◌∷◌, [], ℕ, nat_eq, OnOk, IfOk, map};
ghost use Rattle.std.specs.HashSet.{contains};
ghost use Rattle.gm_image.specs.Views.{target, line, handler, block};
ghost use Rattle.gm_image.specs.Parts.{slots_of, is_among};
ghost use Rattle.gm_merge_laws.specs.Joins.{block_lines, put_globals};
ghost use Rattle.gm_merge.specs.Tests.{lines_of};

use gm_image::{Block, Expr, Handler, VertexLine};
use std::alloc::{AllocError, Global};
use std::collections::HashSet;

// Adds the slots of a reduction to a set.
fn add_slots(set: &mut HashSet<u32>, targets: &[(u32, Expr)]) -> Result<(), AllocError>
    ensures { OnOk result ((n : ℕ) → contains nat_eq set.new n ≡ (contains nat_eq set.old n || is_among n (slots_of (map target targets.now)))) }
{
    for target in targets {
        set.insert(target.0)?;
    }
    Ok(())
}

// Adds the globals that a line puts to a set.
fn add_line(set: &mut HashSet<u32>, vertex_line: &VertexLine) -> Result<(), AllocError>
    ensures { OnOk result ((n : ℕ) → contains nat_eq set.new n ≡ (contains nat_eq set.old n || is_among n (put_globals (line vertex_line.now ∷ [])))) }
{
    match vertex_line {
        VertexLine::Put { slots, .. } => {
            add_slots(set, slots.as_slice())?;
            Ok(())
        }
        VertexLine::SetField(_, _)
        | VertexLine::SetRegister(_, _)
        | VertexLine::Fold { .. }
        | VertexLine::Send { .. }
        | VertexLine::Skip(_, _)
        | VertexLine::EachOut(_)
        | VertexLine::EachIn(_) => Ok(()),
    }
}

// Adds the globals that some lines put to a set.
pub fn add_puts(set: &mut HashSet<u32>, lines: &[VertexLine]) -> Result<(), AllocError>
    ensures { OnOk result ((n : ℕ) → contains nat_eq set.new n ≡ (contains nat_eq set.old n || is_among n (put_globals (map line lines.now)))) }
{
    for vertex_line in lines {
        add_line(set, vertex_line)?;
    }
    Ok(())
}

// Adds the globals that the lines of some handlers put to a set.
fn add_handlers(set: &mut HashSet<u32>, handlers: &[Handler]) -> Result<(), AllocError>
    ensures { OnOk result ((n : ℕ) → contains nat_eq set.new n ≡ (contains nat_eq set.old n || is_among n (put_globals (lines_of (map handler handlers.now))))) }
{
    for handled in handlers {
        add_puts(set, handled.lines.as_slice())?;
    }
    Ok(())
}

// The globals that the lines of a block put.
pub fn block_puts(alloc: Global, one: &Block) -> Result<HashSet<u32>, AllocError>
    ensures { IfOk result (λ set. (n : ℕ) → contains nat_eq set n ≡ is_among n (put_globals (block_lines (block one.now)))) }
{
    let mut set = HashSet::new(alloc);
    add_handlers(&mut set, one.handlers.as_slice())?;
    add_puts(&mut set, one.body.as_slice())?;
    Ok(set)
}
