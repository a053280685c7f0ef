//! The types of expressions.

ghost use Rattle.std.specs.Prelude.{◌≡◌, slice_get};
ghost use Rattle.gm_image.specs.Views.{term, program};
ghost use Rattle.gm_image.specs.Sorts.{expects, sort_by, sort_at, sort_if, takes, one_sort, two_sort, three_sort, node_at_sort, live_sort, unary_sort, binary_sort, logic_sort, choice_sort, constant_sort, value_sort, kind_at, sort_of};
ghost use Rattle.gm_image.specs.Fits.{has_type};
ghost use Rattle.gm_image.specs.Shapes.{leaf_term};
ghost use Rattle.gm_verify.specs.ShapeSorts.{sort_by_one, sort_by_two};

use crate::expressions::is_shallow;
use crate::leaves::kind_at;
use gm_image::{Expr, Image, Leaf, One, Shape, Sort, Two};
use gm_value::{Op1, Op2, VType, Value};

// Whether an expression of a sort may stand where a type is wanted.
fn expects(t: VType, s: Sort) -> bool
    ensures { result ≡ expects t s }
{
    match s {
        Sort::Known(u) => t == u,
        Sort::Unknown => true,
        Sort::Clash => false,
    }
}

// The type of a slot, where there is one.
pub fn type_at(types: &[VType], i: u32) -> Option<VType>
    ensures { result ≡ slice_get types.now i }
{
    types.get(i as usize).copied()
}

// The sort of a slot.
fn sort_at(types: &[VType], i: u32) -> Sort
    ensures { result ≡ sort_at types.now i }
{
    match type_at(types, i) {
        None => Sort::Unknown,
        Some(t) => Sort::Known(t),
    }
}

// A type where a test holds of its parts.
fn sort_if(fits: bool, t: VType) -> Sort
    ensures { result ≡ sort_if fits t }
{
    if fits { Sort::Known(t) } else { Sort::Clash }
}

// Whether an operation on one value takes a type.
fn takes(op: Op1, t: VType) -> bool
    ensures { result ≡ takes op t }
{
    match op {
        Op1::ToI32 => t == VType::I64,
        Op1::ToI64 => t == VType::I32,
        Op1::Neg | Op1::Not => op.fits(t),
    }
}

// The sort of a node by its index.
fn node_at_sort(s: Sort) -> Sort
    ensures { result ≡ one_sort node_at_sort s }
{
    match s {
        Sort::Known(t) => sort_if(t == VType::I64, VType::Node),
        Sort::Unknown | Sort::Clash => s,
    }
}

// The sort of a node that is not NIL.
fn live_sort(s: Sort) -> Sort
    ensures { result ≡ one_sort live_sort s }
{
    match s {
        Sort::Known(t) => sort_if(t == VType::Node, VType::Node),
        Sort::Unknown | Sort::Clash => s,
    }
}

// The sort of an operation on one value.
fn unary_sort(op: Op1, s: Sort) -> Sort
    ensures { result ≡ one_sort (unary_sort op) s }
{
    match s {
        Sort::Known(t) => sort_if(takes(op, t), op.result_type(t)),
        Sort::Unknown | Sort::Clash => s,
    }
}

// The sort of an operation on two values.
fn binary_sort(op: Op2, s: Sort, r: Sort) -> Sort
    ensures { result ≡ two_sort (binary_sort op) s r }
{
    match (s, r) {
        (Sort::Known(t), Sort::Known(u)) => sort_if(op.fits(t, u), op.result_type(t)),
        (Sort::Clash, _) | (_, Sort::Clash) => Sort::Clash,
        _ => Sort::Unknown,
    }
}

// The sort of `&&` and `||`.
fn logic_sort(s: Sort, r: Sort) -> Sort
    ensures { result ≡ two_sort logic_sort s r }
{
    match (s, r) {
        (Sort::Known(t), Sort::Known(u)) => {
            sort_if(t == VType::Flag && u == VType::Flag, VType::Flag)
        }
        (Sort::Clash, _) | (_, Sort::Clash) => Sort::Clash,
        _ => Sort::Unknown,
    }
}

// The sort of two parts of which one counts, where a truth value of a type decides.
fn chosen_sort(c: VType, s: Sort, r: Sort) -> Sort
    ensures { result ≡ two_sort (choice_sort c) s r }
{
    match (s, r) {
        (Sort::Known(t), Sort::Known(u)) => sort_if(c == VType::Flag && t == u, t),
        (Sort::Clash, _) | (_, Sort::Clash) => Sort::Clash,
        _ => Sort::Unknown,
    }
}

// The sort of a choice.
fn choice_sort(c: Sort, s: Sort, r: Sort) -> Sort
    ensures { result ≡ three_sort choice_sort c s r }
{
    match c {
        Sort::Known(t) => chosen_sort(t, s, r),
        Sort::Clash => Sort::Clash,
        Sort::Unknown => match (s, r) {
            (Sort::Clash, _) | (_, Sort::Clash) => Sort::Clash,
            _ => Sort::Unknown,
        },
    }
}

// The sort of a constant.
fn constant_sort(value: Value) -> Sort
    ensures { result ≡ constant_sort value }
{
    match value {
        Value::At(Some(_)) => Sort::Clash,
        Value::At(None) => Sort::Known(VType::Node),
        Value::I32(_) => Sort::Known(VType::I32),
        Value::I64(_) => Sort::Known(VType::I64),
        Value::Flag(_) => Sort::Known(VType::Flag),
    }
}

// The sort of a message's value.
fn value_sort(image: &Image, kind: Option<u32>, i: u32) -> Sort
    ensures { result ≡ value_sort (kind_at (program image.now) kind) i }
{
    match kind_at(image, kind) {
        None => Sort::Unknown,
        Some(k) => sort_at(k.values.as_slice(), i),
    }
}

// The sort of a leaf.
fn leaf_sort(image: &Image, kind: Option<u32>, leaf: Leaf) -> Sort
    ensures { result ≡ sort_of (program image.now) kind (leaf_term leaf) }
{
    match leaf {
        Leaf::Const(value) => constant_sort(value),
        Leaf::Global(g) => sort_at(image.globals.as_slice(), g),
        Leaf::Field(f) => sort_at(image.fields.as_slice(), f),
        Leaf::Register(r) => sort_at(image.registers.as_slice(), r),
        Leaf::Message(i) => value_sort(image, kind, i),
        Leaf::Column(w) => sort_at(image.columns.as_slice(), w),
        Leaf::NodeCount | Leaf::EdgeCount | Leaf::OutDegree | Leaf::InDegree => {
            Sort::Known(VType::I32)
        }
        Leaf::Id | Leaf::Neighbour => Sort::Known(VType::Node),
    }
}

// The sort of an operation with one operand.
fn one_sort(op: One, s: Sort) -> Sort
    ensures { result ≡ sort_by_one op s }
{
    match op {
        One::NodeAt => node_at_sort(s),
        One::Live(_) => live_sort(s),
        One::Op(op, _) => unary_sort(op, s),
    }
}

// The sort of an operation with two operands.
fn two_sort(op: Two, s: Sort, r: Sort) -> Sort
    ensures { result ≡ sort_by_two op s r }
{
    match op {
        Two::Op(op, _) => binary_sort(op, s, r),
        Two::And | Two::Or => logic_sort(s, r),
    }
}

// The sort of an expression in a handler of a kind, or in none.
#[tactic(auto, using(crate::proofs::ShapeSorts::sort_one, crate::proofs::ShapeSorts::sort_two))]
fn sort_of(image: &Image, kind: Option<u32>, expr: &Expr) -> Sort
    ensures { result ≡ sort_of (program image.now) kind (term expr.now) }
{
    match expr.shape() {
        Shape::Leaf(leaf) => leaf_sort(image, kind, leaf),
        Shape::One(op, a) => one_sort(op, sort_of(image, kind, a)),
        Shape::Two(op, a, b) => two_sort(op, sort_of(image, kind, a), sort_of(image, kind, b)),
        Shape::Choose(c, a, b) => choice_sort(
            sort_of(image, kind, c),
            sort_of(image, kind, a),
            sort_of(image, kind, b),
        ),
    }
}

// Whether an expression has a type and is not too deep.
pub fn has_type(image: &Image, kind: Option<u32>, t: VType, expr: &Expr) -> bool
    ensures { result ≡ has_type (program image.now) kind t (term expr.now) }
{
    is_shallow(expr) && expects(t, sort_of(image, kind, expr))
}
