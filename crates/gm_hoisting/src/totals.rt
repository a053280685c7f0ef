//! Where the total of a reduction stands in the order of faults, as that of its loop's statement.
//!
//! A reduction of conditions without braces has its total at its word, before the faults of its range and its filter. It
//! cannot fault; as the total of a loop's statement it stands right behind the latest of these.

ghost use Rattle.std.specs.Prelude.{◌≡◌, IfOk};
ghost use Rattle.gm_ast.specs.Program as Program;
ghost use Rattle.gm_ast.specs.Tree.{expr_of};
ghost use Rattle.gm_forms.specs.Order as Order;
ghost use Rattle.gm_forms.specs.Order.{fault_if, fault_of, rest_in};
ghost use Rattle.gm_semantics.specs.Expressions.{reduce_of};
ghost use Rattle.gm_hoisting.specs.Hoisting as Hoisting;
ghost use Rattle.gm_hoisting.specs.Hoisting.{later_of, latest_of};

use gm_ast::surface::ReductionWord;
use gm_ast::tree::{Expr, Fold, Head, Key, TotalKey};
use gm_base::Place;
use gm_facts::faults::{can_fail1, can_fail2};
use gm_value::{Reduce, Value};
use std::alloc::AllocError;

// The reduction that a word stands for.
pub(crate) fn reduce_of(word: ReductionWord) -> Reduce
    ensures { result ≡ reduce_of word }
{
    match word {
        ReductionWord::Sum | ReductionWord::Count => Reduce::Sum,
        ReductionWord::Product => Reduce::Product,
        ReductionWord::Min => Reduce::Min,
        ReductionWord::Max => Reduce::Max,
        ReductionWord::Exist => Reduce::Or,
        ReductionWord::All => Reduce::And,
    }
}

// Whether a word's reduction is one of conditions.
fn takes_conditions(word: ReductionWord) -> bool
    ensures { result ≡ Order.takes_conditions word }
{
    match word {
        ReductionWord::Sum | ReductionWord::Product | ReductionWord::Min | ReductionWord::Max =>
            false,
        ReductionWord::Count | ReductionWord::Exist | ReductionWord::All => true,
    }
}

// The place of the later of two faults under one key.
#[tactic(auto, using(crate::proofs::LatestFaults::later_yes, crate::proofs::LatestFaults::later_no))]
fn later(key: Key, place: Place, other: Place) -> Place
    ensures { fault_of key result ≡ later_of (fault_of key place) (fault_of key other) }
{
    if place.comes_before(other) {
        other
    } else {
        place
    }
}

// The same, where the second may not be a fault at all.
fn later_if(fails: bool, key: Key, place: Place, other: Place) -> Place
    ensures { fault_of key result ≡ latest_of (fault_of key place) (fault_if fails key other) }
{
    if fails {
        later(key, place, other)
    } else {
        place
    }
}

// The place of the latest of a fault and those of an expression outside of reductions, all under one key.
#[tactic(auto, using(crate::proofs::LatestFaults::latest_append))]
fn latest(key: Key, place: Place, e: &Expr) -> Place
    ensures { fault_of key result ≡ latest_of (fault_of key place) (rest_in (expr_of e.now) key) }
{
    match e {
        Expr::Const(_) => place,
        Expr::Var { .. } => place,
        Expr::Property { .. } => place,
        Expr::EdgeProperty { .. } => place,
        Expr::Degree { .. } => place,
        Expr::NodeCount => place,
        Expr::EdgeCount => place,
        Expr::Fold { .. } => place,
        Expr::Live { place: at, .. } => later(key, place, *at),
        Expr::Unary {
            op,
            place: at,
            inner,
        } => {
            let own = later_if(can_fail1(*op), key, place, *at);
            latest(key, own, inner)
        }
        Expr::Binary {
            op,
            place: at,
            left,
            right,
        } => {
            let own = later_if(can_fail2(*op), key, place, *at);
            let first = latest(key, own, left);
            latest(key, first, right)
        }
        Expr::Both(left, right) => {
            let first = latest(key, place, left);
            latest(key, first, right)
        }
        Expr::Either(left, right) => {
            let first = latest(key, place, left);
            latest(key, first, right)
        }
        Expr::Choose(test, yes, no) => {
            let first = latest(key, place, test);
            let second = latest(key, first, yes);
            latest(key, second, no)
        }
    }
}

// Whether a reduction with a constant in its braces has none in the text.
fn is_bare_constant(fold: Fold, value: Value) -> bool
    ensures { result ≡ Hoisting.is_bare fold (Program.Const value) }
{
    match value {
        Value::Flag(true) => {
            takes_conditions(fold.word) && reduce_of(fold.word).fits(fold.vtype)
        }
        Value::Flag(false) => false,
        Value::I32(_) => false,
        Value::I64(_) => false,
        Value::At(_) => false,
    }
}

// Whether a reduction of conditions has no braces.
fn is_bare(fold: Fold, body: &Expr) -> bool
    ensures { result ≡ Hoisting.is_bare fold (expr_of body.now) }
{
    match body {
        Expr::Const(value) => is_bare_constant(fold, *value),
        Expr::Var { .. } => false,
        Expr::Property { .. } => false,
        Expr::EdgeProperty { .. } => false,
        Expr::Degree { .. } => false,
        Expr::NodeCount => false,
        Expr::EdgeCount => false,
        Expr::Live { .. } => false,
        Expr::Unary { .. } => false,
        Expr::Binary { .. } => false,
        Expr::Both(_, _) => false,
        Expr::Either(_, _) => false,
        Expr::Choose(_, _, _) => false,
        Expr::Fold { .. } => false,
    }
}

// A reduction with its total right behind a fault under the key of its filter.
fn total_behind(fold: Fold, place: Place) -> Result<Fold, AllocError>
    ensures { IfOk result (λ r. r ≡ Hoisting.total_behind fold (fault_of fold.filter place)) }
{
    match place.col.checked_add(1) {
        Some(col) => {
            let total = TotalKey {
                key: fold.filter,
                place: Place {
                    line: place.line,
                    col,
                },
                shown: fold.total.shown,
            };
            Ok(Fold { total, ..fold })
        }
        None => Err(AllocError),
    }
}

// The reduction that a loop stands for.
pub(crate) fn placed(fold: Fold, head: Head, filter: &Expr, body: &Expr) -> Result<Fold, AllocError>
    ensures { IfOk result (λ r. r ≡ Hoisting.placed fold head (expr_of filter.now) (expr_of body.now)) }
{
    if is_bare(fold, body) {
        total_behind(fold, latest(fold.filter, head.place, filter))
    } else {
        Ok(fold)
    }
}
