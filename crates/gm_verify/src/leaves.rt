//! Tests of expressions by their leaves.

ghost use Rattle.std.specs.Prelude.{◌≡◌, nat_le, nat_lt, length, slice_get, option_map, map};
ghost use Rattle.std.specs.List.{list_all};
ghost use Rattle.gm_image.specs.Views.{term, program, target, line};
ghost use Rattle.gm_image.specs.Parts.{is_shallow, all_leaves, terms_of, line_terms};
ghost use Rattle.gm_image.specs.Shapes.{leaf_term};
ghost use Rattle.gm_image.specs.Sorts.{kind_at};
ghost use Rattle.gm_image.specs.Indices.{value_in_range, term_in_range};
ghost use Rattle.gm_image.specs.Term.{Global, Field, Register, Message, Neighbour, Column};
ghost use Rattle.gm_verify.specs.Tests.{allows_vertex, leaf_holds, term_holds};

use crate::expressions::{is_shallow, places_in_range};
use gm_image::{Direction, Expr, Image, Kind, Leaf, Shape, VertexLine};
use std::collections::HashSet;

// A test of expressions: whether their indices are in range, in a handler of a kind or in none; whether their leaves
// may stand in the master list, or at a vertex; whether they read none of some fields.
#[derive(Clone, Copy)]
pub enum Test<'a> {
    InRange {
        image: &'a Image,
        kind: Option<u32>,
    },
    InMaster,
    AtVertex {
        kind: Option<u32>,
        each: Option<Direction>,
    },
    NoneOf {
        fields: &'a HashSet<u32>,
    },
}

// The kind of a handler's messages, where there is one.
pub fn kind_at(image: &Image, kind: Option<u32>) -> Option<&Kind>
    ensures { option_map (λ k. k.now) result ≡ kind_at (program image.now) kind }
{
    match kind {
        None => None,
        Some(k) => image.kinds.as_slice().get(k as usize),
    }
}

// Whether a message's value is one of its kind's.
fn value_in_range(image: &Image, kind: Option<u32>, i: u32) -> bool
    ensures { result ≡ value_in_range (kind_at (program image.now) kind) i }
{
    match kind_at(image, kind) {
        None => true,
        Some(k) => (i as usize) < k.values.len(),
    }
}

impl<'a> Test<'a> {
    // Whether the test allows what stands at a vertex alone, and has no index.
    fn allows_vertex(self) -> bool
        ensures { result ≡ allows_vertex self.entry }
    {
        match self {
            Test::InRange { .. } => true,
            Test::InMaster => false,
            Test::AtVertex { .. } => true,
            Test::NoneOf { .. } => true,
        }
    }

    fn allows_global(self, g: u32) -> bool
        ensures { result ≡ leaf_holds self.entry (Global g) }
    {
        match self {
            Test::InRange { image, .. } => (g as usize) < image.globals.len(),
            Test::InMaster => true,
            Test::AtVertex { .. } => true,
            Test::NoneOf { .. } => true,
        }
    }

    fn allows_field(self, f: u32) -> bool
        ensures { result ≡ leaf_holds self.entry (Field f) }
    {
        match self {
            Test::InRange { image, .. } => (f as usize) < image.fields.len(),
            Test::InMaster => false,
            Test::AtVertex { .. } => true,
            Test::NoneOf { fields } => !fields.contains(&f),
        }
    }

    fn allows_register(self, r: u32) -> bool
        ensures { result ≡ leaf_holds self.entry (Register r) }
    {
        match self {
            Test::InRange { image, .. } => (r as usize) < image.registers.len(),
            Test::InMaster => false,
            Test::AtVertex { .. } => true,
            Test::NoneOf { .. } => true,
        }
    }

    fn allows_message(self, i: u32) -> bool
        ensures { result ≡ leaf_holds self.entry (Message i) }
    {
        match self {
            Test::InRange { image, kind } => value_in_range(image, kind, i),
            Test::InMaster => false,
            Test::AtVertex { kind, .. } => kind.is_some(),
            Test::NoneOf { .. } => true,
        }
    }

    fn allows_neighbour(self) -> bool
        ensures { result ≡ leaf_holds self.entry Neighbour }
    {
        match self {
            Test::InRange { .. } => true,
            Test::InMaster => false,
            Test::AtVertex { each, .. } => each.is_some(),
            Test::NoneOf { .. } => true,
        }
    }

    fn allows_column(self, w: u32) -> bool
        ensures { result ≡ leaf_holds self.entry (Column w) }
    {
        match self {
            Test::InRange { image, .. } => (w as usize) < image.columns.len(),
            Test::InMaster => false,
            Test::AtVertex { each, .. } => match each {
                None => false,
                Some(Direction::Out) => true,
                Some(Direction::In) => false,
            },
            Test::NoneOf { .. } => true,
        }
    }
}

// Whether a test holds of a leaf.
fn allows(test: Test, leaf: Leaf) -> bool
    ensures { result ≡ leaf_holds test.entry (leaf_term leaf) }
{
    match leaf {
        Leaf::Const(_) | Leaf::NodeCount | Leaf::EdgeCount => true,
        Leaf::Id | Leaf::OutDegree | Leaf::InDegree => test.allows_vertex(),
        Leaf::Global(g) => test.allows_global(g),
        Leaf::Field(f) => test.allows_field(f),
        Leaf::Register(r) => test.allows_register(r),
        Leaf::Message(i) => test.allows_message(i),
        Leaf::Neighbour => test.allows_neighbour(),
        Leaf::Column(w) => test.allows_column(w),
    }
}

// Whether a test holds of each leaf of an expression.
#[tactic(auto, using(gm_image::proofs::ByShape::leaves_leaf, gm_image::proofs::ByShape::leaves_one, gm_image::proofs::ByShape::leaves_two))]
fn all_leaves(test: Test, expr: &Expr) -> bool
    ensures { result ≡ all_leaves (leaf_holds test.entry) (term expr.now) }
{
    match expr.shape() {
        Shape::Leaf(leaf) => allows(test, leaf),
        Shape::One(_, a) => all_leaves(test, a),
        Shape::Two(_, a, b) => all_leaves(test, a) && all_leaves(test, b),
        Shape::Choose(c, a, b) => {
            all_leaves(test, c) && all_leaves(test, a) && all_leaves(test, b)
        }
    }
}

// Whether a test holds of an expression. The indices of one that is too deep are not judged.
pub fn term_holds(test: Test, expr: &Expr) -> bool
    ensures { result ≡ term_holds test.entry (term expr.now) }
{
    match test {
        Test::InRange { image, .. } => {
            !is_shallow(expr) || (all_leaves(test, expr) && places_in_range(image, expr))
        }
        _ => all_leaves(test, expr),
    }
}

// Whether a test holds of some expressions.
pub fn terms_hold(test: Test, exprs: &[Expr]) -> bool
    ensures { result ≡ list_all (term_holds test.entry) (map term exprs.now) }
{
    for expr in exprs {
        if !term_holds(test, expr) {
            return false;
        }
    }
    true
}

// Whether a test holds of the values of a reduction.
fn targets_hold(test: Test, targets: &[(u32, Expr)]) -> bool
    ensures { result ≡ list_all (term_holds test.entry) (terms_of (map target targets.now)) }
{
    for target in targets {
        if !term_holds(test, &target.1) {
            return false;
        }
    }
    true
}

// Whether a test holds of a vertex line's expressions.
pub fn line_holds(test: Test, vertex_line: &VertexLine) -> bool
    ensures { result ≡ list_all (term_holds test.entry) (line_terms (line vertex_line.now)) }
{
    match vertex_line {
        VertexLine::SetField(_, a) | VertexLine::SetRegister(_, a) | VertexLine::Skip(_, a) => {
            term_holds(test, a)
        }
        VertexLine::Fold { slots, .. } | VertexLine::Put { slots, .. } => {
            targets_hold(test, slots.as_slice())
        }
        VertexLine::Send { to, values, .. } => {
            term_holds(test, to) && terms_hold(test, values.as_slice())
        }
        VertexLine::EachOut(_) | VertexLine::EachIn(_) => true,
    }
}
