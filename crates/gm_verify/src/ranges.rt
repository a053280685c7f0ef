//! Whether the indices of an image's lines are in range.

ghost use Rattle.std.specs.Prelude.{◌≡◌, ◌&&◌, map};
ghost use Rattle.std.specs.List.{list_all};
ghost use Rattle.gm_image.specs.Views.{program, target, line, command};
ghost use Rattle.gm_image.specs.Parts.{line_terms, command_terms};
ghost use Rattle.gm_image.specs.Indices.{slots_in_range, line_in_range, command_in_range, term_in_range};
ghost use Rattle.gm_verify.specs.Tests.{term_holds};

use crate::leaves::{Test, line_holds, term_holds};
use gm_image::{Expr, Image, MasterLine, VertexLine};
use gm_value::VType;

// Whether the slots of a reduction are in range.
fn slots_in_range(types: &[VType], targets: &[(u32, Expr)]) -> bool
    ensures { result ≡ slots_in_range types.now (map target targets.now) }
{
    for target in targets {
        if target.0 as usize >= types.len() {
            return false;
        }
    }
    true
}

// Whether the indices of a vertex line outside its expressions are in range.
fn line_in_range(image: &Image, vertex_line: &VertexLine) -> bool
    ensures { result ≡ line_in_range (program image.now) (line vertex_line.now) }
{
    match vertex_line {
        VertexLine::SetField(f, _) => (*f as usize) < image.fields.len(),
        VertexLine::SetRegister(r, _) => (*r as usize) < image.registers.len(),
        VertexLine::Fold { place, slots, .. } => {
            (*place as usize) < image.places.len()
                && slots_in_range(image.fields.as_slice(), slots.as_slice())
        }
        VertexLine::Put { place, slots, .. } => {
            (*place as usize) < image.places.len()
                && slots_in_range(image.globals.as_slice(), slots.as_slice())
        }
        VertexLine::Send { kind, .. } => (*kind as usize) < image.kinds.len(),
        VertexLine::Skip(_, _) | VertexLine::EachOut(_) | VertexLine::EachIn(_) => true,
    }
}

// Whether the indices of a vertex line are in range, in a handler of a kind or in none.
pub fn line_keeps_range(image: &Image, kind: Option<u32>, vertex_line: &VertexLine) -> bool
    ensures { result ≡ (line_in_range (program image.now) (line vertex_line.now)
        && list_all (term_in_range (program image.now) kind) (line_terms (line vertex_line.now))) }
{
    line_in_range(image, vertex_line) && line_holds(Test::InRange { image, kind }, vertex_line)
}

// Whether the indices of a master line outside its expression are in range.
fn command_in_range(image: &Image, master_line: &MasterLine) -> bool
    ensures { result ≡ command_in_range (program image.now) (command master_line.now) }
{
    match master_line {
        MasterLine::SetGlobal(g, _) => (*g as usize) < image.globals.len(),
        MasterLine::Step(q) => (*q as usize) < image.blocks.len(),
        MasterLine::Jump(_)
        | MasterLine::Test(_, _)
        | MasterLine::Turn(_, _)
        | MasterLine::Back(_)
        | MasterLine::Finish => true,
    }
}

// Whether a test holds of a master line's expression.
pub fn command_holds(test: Test, master_line: &MasterLine) -> bool
    ensures { result ≡ list_all (term_holds test.entry) (command_terms (command master_line.now)) }
{
    match master_line {
        MasterLine::SetGlobal(_, a) | MasterLine::Test(_, a) | MasterLine::Turn(_, a) => {
            term_holds(test, a)
        }
        MasterLine::Step(_) | MasterLine::Jump(_) | MasterLine::Back(_) | MasterLine::Finish => {
            true
        }
    }
}

// Whether the indices of a master line are in range.
pub fn command_keeps_range(image: &Image, master_line: &MasterLine) -> bool
    ensures { result ≡ (command_in_range (program image.now) (command master_line.now)
        && list_all (term_in_range (program image.now) None) (command_terms (command master_line.now))) }
{
    command_in_range(image, master_line)
        && command_holds(Test::InRange { image, kind: None }, master_line)
}
