//! A reduction as a loop onto a local.
//!
//! `Sum(t: n.Nbrs)(f){e}` is `Int s = 0; Foreach (t: n.Nbrs)(f) { s += e; }` under the keys of the reduction. A count adds
//! 1: under its filter and its braces together, where both have one key, and else `If (e) s += 1;` under its filter.

ghost use Rattle.std.specs.Prelude.{◌≡◌, ◌++◌, false, [], ◌∷◌, pos, IfOk, OnOk, map};
ghost use Rattle.gm_value.specs.Numbers.{value_at};
ghost use Rattle.gm_ast.specs.Keys.{stage_rank};
ghost use Rattle.gm_ast.specs.Program as Program;
ghost use Rattle.gm_ast.specs.Tree.{expr_of, stmt_of};
ghost use Rattle.gm_ast.specs.declared.tree.Target.TheVariants as Targets;
ghost use Rattle.gm_desugar.specs.Conditions as Conditions;
ghost use Rattle.gm_reductions.specs.Folds as Folds;
ghost use Rattle.gm_hoisting.specs.Hoisting as Hoisting;

use crate::totals::reduce_of;
use gm_ast::surface::ReductionWord;
use gm_ast::tree::{Expr, Fold, Head, Key, Stage, Stmt, Target, TotalKey};
use gm_base::Place;
use gm_trees::places::{beside, taken_value, with_both_boxed};
use gm_value::{Reduce, VType, Value, unit};
use std::alloc::{AllocError, Global};

// What a reduction gives over nothing.
#[tactic(auto, using(crate::proofs::Units::unit_is))]
fn unit_for(fold: Fold) -> Value
    ensures { result ≡ Folds.unit_for fold }
{
    unit(reduce_of(fold.word), fold.vtype)
}

// One, as a value of a type.
fn one(vtype: VType) -> Value
    ensures { result ≡ value_at vtype (pos 1) }
{
    match vtype {
        VType::I32 => Value::I32(1),
        VType::I64 => Value::I64(1),
        VType::Flag => Value::Flag(true),
        VType::Node => Value::At(Some(1)),
    }
}

// A stage's number in the order of faults.
fn rank(stage: Stage) -> u32
    ensures { result ≡ stage_rank stage }
{
    match stage {
        Stage::Inner => 0,
        Stage::Operator => 1,
        Stage::Total => 2,
    }
}

// Whether two keys are one.
fn key_eq(a: Key, b: Key) -> bool
    ensures { result ≡ Hoisting.key_eq a b }
{
    a.statement == b.statement && rank(a.stage) == rank(b.stage)
}

// Whether the braces of a reduction may stand in the filter of its loop.
fn joins(fold: Fold) -> bool
    ensures { result ≡ Hoisting.joins fold.word fold }
{
    match fold.word {
        ReductionWord::Count => key_eq(fold.filter, fold.body),
        ReductionWord::Sum
        | ReductionWord::Product
        | ReductionWord::Min
        | ReductionWord::Max
        | ReductionWord::Exist
        | ReductionWord::All => false,
    }
}

// A contribution of a value to a local.
fn contribution(
    alloc: Global,
    key: Key,
    total: TotalKey,
    reduce: Reduce,
    variable: u32,
    value: Expr,
) -> Result<Stmt, AllocError>
    ensures { IfOk result (λ r. stmt_of r ≡ Program.Combine key total reduce (Targets.Scalar variable Conditions.nowhere ∷ []) (expr_of value ∷ [])) }
{
    let target = Target::Scalar {
        variable,
        place: Place { line: 0, col: 0 },
    };
    let values = vec![in alloc; value]?;
    let (values, targets) = beside(values, vec![in alloc; target])?;
    Ok(Stmt::Reduce {
        key,
        total,
        reduce,
        targets,
        values,
    })
}

// A one for the count of a local.
fn adds(alloc: Global, variable: u32, fold: Fold) -> Result<Stmt, AllocError>
    ensures { IfOk result (λ r. stmt_of r ≡ Hoisting.adds variable fold) }
{
    let one = Expr::Const(one(fold.vtype));
    contribution(alloc, fold.body, fold.total, Reduce::Sum, variable, one)
}

// A one for each element whose braces hold. The braces are taken out.
fn counted(alloc: Global, variable: u32, fold: Fold, body: &mut Expr) -> Result<Stmt, AllocError>
    ensures { IfOk result (λ r. stmt_of r ≡ Program.If fold.body (expr_of body.old) (Hoisting.adds variable fold) Program.Skip) }
{
    let more = adds(alloc, variable, fold)?;
    let nothing = Stmt::Block(Vec::new(alloc));
    let (test, yes, no) = with_both_boxed(alloc, taken_value(body), more, nothing)?;
    Ok(Stmt::If {
        key: fold.body,
        test,
        yes,
        no,
    })
}

// What an element that passes gives to the local, where the braces do not stand in the filter. The braces are taken out.
fn giving(alloc: Global, variable: u32, fold: Fold, body: &mut Expr) -> Result<Stmt, AllocError>
    ensures { IfOk result (λ r. stmt_of r ≡ Hoisting.giving false fold.word variable fold (expr_of body.old)) }
{
    match fold.word {
        ReductionWord::Count => counted(alloc, variable, fold, body),
        word => {
            let value = taken_value(body);
            let reduce = reduce_of(word);
            contribution(alloc, fold.body, fold.total, reduce, variable, value)
        }
    }
}

// A loop over the elements of a reduction.
fn over_elements(
    alloc: Global,
    fold: Fold,
    head: Head,
    filter: Expr,
    gives: Stmt,
) -> Result<Stmt, AllocError>
    ensures { IfOk result (λ r. stmt_of r ≡ Program.Foreach fold.filter fold.total.shown head (expr_of filter) (stmt_of gives)) }
{
    let (filter, body) = beside(filter, Box::new(alloc, gives))?;
    Ok(Stmt::Foreach {
        key: fold.filter,
        place: fold.total.shown,
        head,
        filter,
        body,
    })
}

// A count whose braces stand in the filter. Both are taken out.
fn joined(
    alloc: Global,
    variable: u32,
    fold: Fold,
    head: Head,
    filter: &mut Expr,
    body: &mut Expr,
) -> Result<Stmt, AllocError>
    ensures { IfOk result (λ r. stmt_of r ≡ Program.Foreach fold.filter fold.total.shown head (Program.Both (expr_of filter.old) (expr_of body.old)) (Hoisting.adds variable fold)) }
{
    let more = adds(alloc, variable, fold)?;
    let filter = taken_value(filter);
    let body = taken_value(body);
    let (gives, first, second) = with_both_boxed(alloc, more, filter, body)?;
    over_elements(alloc, fold, head, Expr::Both(first, second), gives)
}

// A reduction as a loop. Its filter and its value are taken out.
fn looped(
    alloc: Global,
    variable: u32,
    fold: Fold,
    head: Head,
    filter: &mut Expr,
    body: &mut Expr,
) -> Result<Stmt, AllocError>
    ensures { IfOk result (λ r. stmt_of r ≡ Hoisting.looped variable fold head (expr_of filter.old) (expr_of body.old)) }
{
    if joins(fold) {
        return joined(alloc, variable, fold, head, filter, body);
    }
    let gives = giving(alloc, variable, fold, body)?;
    let filter = taken_value(filter);
    over_elements(alloc, fold, head, filter, gives)
}

// Adds a local set to what a reduction gives over nothing, and the loop onto it. The filter and the value of the reduction
// are taken out.
pub(crate) fn fold_set(
    alloc: Global,
    variable: u32,
    key: Key,
    fold: Fold,
    head: Head,
    filter: &mut Expr,
    body: &mut Expr,
    before: &mut Vec<Stmt>,
) -> Result<(), AllocError>
    ensures { OnOk result (map stmt_of before.new.items ≡ map stmt_of before.old.items ++ Hoisting.fold_set variable key fold head (expr_of filter.old) (expr_of body.old)) }
{
    let unit = Expr::Const(unit_for(fold));
    before.push(Stmt::Declare {
        key,
        variable,
        value: Some(unit),
    })?;
    let turns = looped(alloc, variable, fold, head, filter, body)?;
    before.push(turns)?;
    Ok(())
}
