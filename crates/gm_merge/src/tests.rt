//! Tests of the expressions of a block that is to be joined to another one before it.

ghost use Rattle.std.specs.Prelude.{◌≡◌, nat_eq, not, map};
ghost use Rattle.std.specs.HashSet.{contains};
ghost use Rattle.std.specs.List.{list_all, flat_map};
ghost use Rattle.gm_image.specs.Views.{term, target, line, handler, block};
ghost use Rattle.gm_image.specs.Parts.{all_leaves, all_places, place_holds, terms_of, line_terms, slots_of};
ghost use Rattle.gm_image.specs.Shapes.{leaf_term};
ghost use Rattle.gm_merge.specs.Tests.{leaf_holds, place_fits, term_holds, fold_holds, put_holds, send_holds, own_holds, line_holds, lines_of};
ghost use Rattle.gm_merge_laws.specs.Joins.{block_lines};

use gm_image::{Block, Expr, Handler, Leaf, Shape, VertexLine};
use gm_value::Reduce;
use std::collections::HashSet;

// A test of lines: whether they read and put none of some globals, whether each place that they name is at least a bound,
// whether they have nothing that can fault, or whether they send no message.
#[derive(Clone, Copy)]
pub enum Test<'a> {
    TouchesNone { globals: &'a HashSet<u32> },
    PlacesFrom { bound: u64 },
    CannotFault,
    SendsNothing,
}

// Whether a test holds of a leaf.
fn leaf_holds(test: Test, leaf: Leaf) -> bool
    ensures { result ≡ leaf_holds test.entry (leaf_term leaf) }
{
    match test {
        Test::TouchesNone { globals } => match leaf {
            Leaf::Global(g) => !globals.contains(&g),
            _ => true,
        },
        Test::PlacesFrom { .. } | Test::CannotFault | Test::SendsNothing => true,
    }
}

// Whether a test holds of an operation's place, if it has one.
fn place_holds(test: Test, place: Option<u32>) -> bool
    ensures { result ≡ place_holds (place_fits test.entry) place }
{
    match place {
        None => true,
        Some(place) => match test {
            Test::TouchesNone { .. } | Test::SendsNothing => true,
            Test::PlacesFrom { bound } => bound <= place as u64,
            Test::CannotFault => false,
        },
    }
}

// Whether a test holds of each leaf of an expression.
#[tactic(auto, using(gm_image::proofs::ByShape::leaves_leaf, gm_image::proofs::ByShape::leaves_one, gm_image::proofs::ByShape::leaves_two))]
fn leaves_hold(test: Test, expr: &Expr) -> bool
    ensures { result ≡ all_leaves (leaf_holds test.entry) (term expr.now) }
{
    match expr.shape() {
        Shape::Leaf(leaf) => leaf_holds(test, leaf),
        Shape::One(_, a) => leaves_hold(test, a),
        Shape::Two(_, a, b) => leaves_hold(test, a) && leaves_hold(test, b),
        Shape::Choose(c, a, b) => {
            leaves_hold(test, c) && leaves_hold(test, a) && leaves_hold(test, b)
        }
    }
}

// Whether a test holds of each place that an expression names.
#[tactic(auto, using(gm_image::proofs::ByShape::places_leaf, gm_image::proofs::ByShape::places_one, gm_image::proofs::ByShape::places_two))]
fn places_hold(test: Test, expr: &Expr) -> bool
    ensures { result ≡ all_places (place_fits test.entry) (term expr.now) }
{
    match expr.shape() {
        Shape::Leaf(_) => true,
        Shape::One(op, a) => place_holds(test, op.place()) && places_hold(test, a),
        Shape::Two(op, a, b) => {
            place_holds(test, op.place()) && places_hold(test, a) && places_hold(test, b)
        }
        Shape::Choose(c, a, b) => {
            places_hold(test, c) && places_hold(test, a) && places_hold(test, b)
        }
    }
}

// Whether a test holds of an expression.
fn term_holds(test: Test, expr: &Expr) -> bool
    ensures { result ≡ term_holds test.entry (term expr.now) }
{
    match test {
        Test::TouchesNone { .. } => leaves_hold(test, expr),
        Test::PlacesFrom { .. } | Test::CannotFault => places_hold(test, expr),
        Test::SendsNothing => true,
    }
}

// Whether a test holds of some expressions.
fn terms_hold(test: Test, exprs: &[Expr]) -> bool
    ensures { result ≡ list_all (term_holds test.entry) (map term exprs.now) }
{
    for expr in exprs {
        if !term_holds(test, expr) {
            return false;
        }
    }
    true
}

// Whether a test holds of the values of a reduction.
fn targets_hold(test: Test, targets: &[(u32, Expr)]) -> bool
    ensures { result ≡ list_all (term_holds test.entry) (terms_of (map target targets.now)) }
{
    for target in targets {
        if !term_holds(test, &target.1) {
            return false;
        }
    }
    true
}

// Whether a test holds of a vertex line's expressions.
fn terms_of_line_hold(test: Test, vertex_line: &VertexLine) -> bool
    ensures { result ≡ list_all (term_holds test.entry) (line_terms (line vertex_line.now)) }
{
    match vertex_line {
        VertexLine::SetField(_, a) | VertexLine::SetRegister(_, a) | VertexLine::Skip(_, a) => {
            term_holds(test, a)
        }
        VertexLine::Fold { slots, .. } | VertexLine::Put { slots, .. } => {
            targets_hold(test, slots.as_slice())
        }
        VertexLine::Send { to, values, .. } => {
            term_holds(test, to) && terms_hold(test, values.as_slice())
        }
        VertexLine::EachOut(_) | VertexLine::EachIn(_) => true,
    }
}

// Whether none of the slots of a reduction is among some globals.
fn slots_apart(globals: &HashSet<u32>, targets: &[(u32, Expr)]) -> bool
    ensures { result ≡ list_all (λ s. not (contains nat_eq globals.now s)) (slots_of (map target targets.now)) }
{
    for target in targets {
        if globals.contains(&target.0) {
            return false;
        }
    }
    true
}

// Whether a test holds of a reduction of fields, but for its values.
fn fold_holds(test: Test, reduce: Reduce, place: u32) -> bool
    ensures { result ≡ fold_holds test.entry reduce place }
{
    match test {
        Test::TouchesNone { .. } | Test::SendsNothing => true,
        Test::PlacesFrom { bound } => bound <= place as u64,
        Test::CannotFault => reduce.picks(),
    }
}

// Whether a test holds of a reduction of globals, but for its values.
fn put_holds(test: Test, reduce: Reduce, place: u32, targets: &[(u32, Expr)]) -> bool
    ensures { result ≡ put_holds test.entry reduce place (slots_of (map target targets.now)) }
{
    match test {
        Test::TouchesNone { globals } => slots_apart(globals, targets),
        Test::PlacesFrom { bound } => bound <= place as u64,
        Test::CannotFault => reduce.picks(),
        Test::SendsNothing => true,
    }
}

// Whether a test holds of a send, but for its values.
fn send_holds(test: Test) -> bool
    ensures { result ≡ send_holds test.entry }
{
    match test {
        Test::TouchesNone { .. } | Test::PlacesFrom { .. } | Test::CannotFault => true,
        Test::SendsNothing => false,
    }
}

// Whether a test holds of a line, but for its expressions.
fn own_holds(test: Test, vertex_line: &VertexLine) -> bool
    ensures { result ≡ own_holds test.entry (line vertex_line.now) }
{
    match vertex_line {
        VertexLine::Fold { reduce, place, .. } => fold_holds(test, *reduce, *place),
        VertexLine::Put {
            reduce,
            place,
            slots,
        } => { put_holds(test, *reduce, *place, slots.as_slice()) }
        VertexLine::Send { .. } => send_holds(test),
        VertexLine::SetField(_, _)
        | VertexLine::SetRegister(_, _)
        | VertexLine::Skip(_, _)
        | VertexLine::EachOut(_)
        | VertexLine::EachIn(_) => true,
    }
}

// Whether a test holds of a line.
fn line_holds(test: Test, vertex_line: &VertexLine) -> bool
    ensures { result ≡ line_holds test.entry (line vertex_line.now) }
{
    own_holds(test, vertex_line) && terms_of_line_hold(test, vertex_line)
}

// Whether a test holds of some lines.
pub fn lines_hold(test: Test, vertex_lines: &[VertexLine]) -> bool
    ensures { result ≡ list_all (line_holds test.entry) (map line vertex_lines.now) }
{
    for vertex_line in vertex_lines {
        if !line_holds(test, vertex_line) {
            return false;
        }
    }
    true
}

// Whether a test holds of the lines of some handlers.
fn handlers_hold(test: Test, handlers: &[Handler]) -> bool
    ensures { result ≡ list_all (line_holds test.entry) (lines_of (map handler handlers.now)) }
{
    for handled in handlers {
        if !lines_hold(test, handled.lines.as_slice()) {
            return false;
        }
    }
    true
}

// Whether a test holds of all lines of a block.
pub fn block_holds(test: Test, one: &Block) -> bool
    ensures { result ≡ list_all (line_holds test.entry) (block_lines (block one.now)) }
{
    handlers_hold(test, one.handlers.as_slice()) && lines_hold(test, one.body.as_slice())
}
