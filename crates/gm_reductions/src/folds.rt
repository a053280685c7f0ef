//! Reductions of the sequential phase as loops.
//!
//! `x = Sum(n: G.Nodes)(f){e};` is `x = 0; Foreach (n: G.Nodes)(f) { x += e; }`, where neither f nor e names x: the
//! scalar is set to what the reduction gives over nothing, and takes the total of the loop's contributions. A count
//! adds 1 under its braces, `If (e) x += 1;`, Exist is `||=`, All `&&=`. The loop has the keys of the reduction: its
//! filter's, its braces', its total's. Where these rise, faults come as before: those of the elements before that of
//! the total. Reductions within the filter and the braces stay as they are.

ghost use Rattle.std.specs.Prelude.{◌≡◌, [], ◌∷◌, pos, IfOk, Some, option_map};
ghost use Rattle.gm_value.specs.Numbers.{value_at};
ghost use Rattle.gm_ast.specs.Program as Program;
ghost use Rattle.gm_ast.specs.Tree.{expr_of, program_of, stmt_of};
ghost use Rattle.gm_ast.specs.declared.surface.ReductionWord.TheVariants.{Count};
ghost use Rattle.gm_ast.specs.declared.tree.Target.TheVariants as Targets;
ghost use Rattle.gm_semantics.specs.Expressions.{reduce_of};
ghost use Rattle.gm_forms.specs.Meanings.{SameMeaning};
ghost use Rattle.gm_desugar.specs.Conditions.{nowhere};
ghost use Rattle.gm_reductions.specs.Folds as Folds;
ghost use Rattle.gm_reductions.specs.Folds.{folds_out, without_folds};
ghost use Rattle.gm_reductions.specs.Phases.{KeepsNoPicks};
ghost use Rattle.gm_reductions.specs.Stages.{WithLoopsAlone, WithRisingKeys, WithoutAccesses, WithoutFolds};

use gm_ast::forms::Work;
use gm_ast::surface::ReductionWord;
use gm_ast::tree::{Expr, Fold, Head, Key, Stmt, Target, TotalKey, Tree};
use gm_base::{NoMemory, Place};
use gm_trees::places::in_turn;
use gm_value::{Reduce, VType, Value, unit};
use std::alloc::{AllocError, Global};

/// Writes each reduction that a scalar of the sequential phase is set to as a loop onto the scalar. Where each read
/// stands alone and the keys of reductions rise, the program means the same, is as ready for the passes as it was, and
/// nothing is set to a reduction. Where no access through a node variable was left, none is, and no pick comes in.
pub fn folds_out(alloc: Global, program: Work) -> Result<Work, NoMemory>
    ensures made { IfOk result (λ r. program_of r ≡ without_folds (program_of program)) }
    ensures same { IfOk result (λ r. WithRisingKeys (program_of program) → SameMeaning (program_of program) (program_of r)) }
    ensures ready { IfOk result (λ r. WithRisingKeys (program_of program) → WithoutFolds (program_of r)) }
    ensures alone { IfOk result (λ r. WithoutAccesses (program_of program) → WithLoopsAlone (program_of r)) }
    ensures picks { IfOk result (λ r. KeepsNoPicks (program_of program) (program_of r)) }
{
    let tree = program.into_tree();
    let body = unfold(alloc, tree.body)?;
    Ok(Work::new(Tree { body, ..tree }))
}

// The reduction that a word stands for.
fn reduce_of(word: ReductionWord) -> Reduce
    ensures { result ≡ reduce_of word }
{
    match word {
        ReductionWord::Sum | ReductionWord::Count => Reduce::Sum,
        ReductionWord::Product => Reduce::Product,
        ReductionWord::Min => Reduce::Min,
        ReductionWord::Max => Reduce::Max,
        ReductionWord::Exist => Reduce::Or,
        ReductionWord::All => Reduce::And,
    }
}

// What a reduction gives over nothing.
#[tactic(auto, using(crate::proofs::Units::unit_is))]
fn unit_for(fold: Fold) -> Value
    ensures { result ≡ Folds.unit_for fold }
{
    unit(reduce_of(fold.word), fold.vtype)
}

// One, as a value of a type.
fn one(vtype: VType) -> Value
    ensures { result ≡ value_at vtype (pos 1) }
{
    match vtype {
        VType::I32 => Value::I32(1),
        VType::I64 => Value::I64(1),
        VType::Flag => Value::Flag(true),
        VType::Node => Value::At(Some(1)),
    }
}

// A contribution of a value to a scalar.
fn contribution(
    alloc: Global,
    key: Key,
    total: TotalKey,
    reduce: Reduce,
    variable: u32,
    value: Expr,
) -> Result<Stmt, AllocError>
    ensures { IfOk result (λ r. stmt_of r ≡ Program.Combine key total reduce (Targets.Scalar variable nowhere ∷ []) (expr_of value ∷ [])) }
{
    let mut targets = Vec::new(alloc);
    targets.push(Target::Scalar {
        variable,
        place: Place { line: 0, col: 0 },
    })?;
    let mut values = Vec::new(alloc);
    values.push(value)?;
    Ok(Stmt::Reduce {
        key,
        total,
        reduce,
        targets,
        values,
    })
}

// A one for each element whose braces hold.
fn counted(alloc: Global, fold: Fold, variable: u32, body: Expr) -> Result<Stmt, AllocError>
    ensures { IfOk result (λ r. stmt_of r ≡ Folds.given Count fold variable (expr_of body)) }
{
    let one = Expr::Const(one(fold.vtype));
    let adds = contribution(
        alloc,
        fold.total.key,
        fold.total,
        Reduce::Sum,
        variable,
        one,
    )?;
    let yes = Box::new(alloc, adds)?;
    let no = Box::new(alloc, Stmt::Block(Vec::new(alloc)))?;
    Ok(Stmt::If {
        key: fold.body,
        test: body,
        yes,
        no,
    })
}

// What an element gives to the scalar that takes the total.
fn given(alloc: Global, fold: Fold, variable: u32, body: Expr) -> Result<Stmt, AllocError>
    ensures { IfOk result (λ r. stmt_of r ≡ Folds.given fold.word fold variable (expr_of body)) }
{
    match fold.word {
        ReductionWord::Count => counted(alloc, fold, variable, body),
        word => contribution(
            alloc,
            fold.body,
            fold.total,
            reduce_of(word),
            variable,
            body,
        ),
    }
}

// A loop over the elements of a reduction.
fn over_elements(
    alloc: Global,
    variable: u32,
    fold: Fold,
    head: Head,
    filter: Expr,
    body: Expr,
) -> Result<Stmt, AllocError>
    ensures { IfOk result (λ r. stmt_of r ≡ Program.Foreach fold.filter fold.total.shown head (expr_of filter) (Folds.given fold.word fold variable (expr_of body))) }
{
    let adds = given(alloc, fold, variable, body)?;
    let body = Box::new(alloc, adds)?;
    Ok(Stmt::Foreach {
        key: fold.filter,
        place: fold.total.shown,
        head,
        filter,
        body,
    })
}

// A reduction as a loop, after a scalar was set to what it gives over nothing.
fn looped(
    alloc: Global,
    first: Stmt,
    variable: u32,
    fold: Fold,
    head: Head,
    filter: Expr,
    body: Expr,
) -> Result<Stmt, AllocError>
    ensures { IfOk result (λ r. stmt_of r ≡ Folds.looped (stmt_of first) variable fold head (expr_of filter) (expr_of body)) }
{
    let turns = over_elements(alloc, variable, fold, head, filter, body)?;
    in_turn(alloc, first, turns)
}

// An assignment to a scalar, as a loop where its value is a reduction.
fn scalar_out(
    alloc: Global,
    key: Key,
    variable: u32,
    place: Place,
    value: Expr,
) -> Result<Stmt, AllocError>
    ensures { IfOk result (λ r. stmt_of r ≡ Folds.assigned_out key (Targets.Scalar variable place) (expr_of value)) }
{
    let target = Target::Scalar { variable, place };
    match value {
        Expr::Fold {
            fold,
            head,
            filter,
            body,
        } => {
            let value = Expr::Const(unit_for(fold));
            let first = Stmt::Assign { key, target, value };
            let filter = Box::into_inner(filter);
            let body = Box::into_inner(body);
            looped(alloc, first, variable, fold, head, filter, body)
        }
        Expr::Const(_)
        | Expr::Var { .. }
        | Expr::Property { .. }
        | Expr::EdgeProperty { .. }
        | Expr::Degree { .. }
        | Expr::NodeCount
        | Expr::EdgeCount
        | Expr::Live { .. }
        | Expr::Unary { .. }
        | Expr::Binary { .. }
        | Expr::Both(_, _)
        | Expr::Either(_, _)
        | Expr::Choose(_, _, _) => Ok(Stmt::Assign { key, target, value }),
    }
}

// An assignment, as a loop where a scalar is set to a reduction.
fn assigned_out(alloc: Global, key: Key, target: Target, value: Expr) -> Result<Stmt, AllocError>
    ensures { IfOk result (λ r. stmt_of r ≡ Folds.assigned_out key target (expr_of value)) }
{
    match target {
        Target::Scalar { variable, place } => scalar_out(alloc, key, variable, place, value),
        Target::Property { .. } => Ok(Stmt::Assign { key, target, value }),
    }
}

// A declaration with a value, as a loop where the value is a reduction.
fn initial_out(alloc: Global, key: Key, variable: u32, value: Expr) -> Result<Stmt, AllocError>
    ensures { IfOk result (λ r. stmt_of r ≡ Folds.declared_out key variable (Some (expr_of value))) }
{
    match value {
        Expr::Fold {
            fold,
            head,
            filter,
            body,
        } => {
            let value = Some(Expr::Const(unit_for(fold)));
            let first = Stmt::Declare {
                key,
                variable,
                value,
            };
            let filter = Box::into_inner(filter);
            let body = Box::into_inner(body);
            looped(alloc, first, variable, fold, head, filter, body)
        }
        Expr::Const(_)
        | Expr::Var { .. }
        | Expr::Property { .. }
        | Expr::EdgeProperty { .. }
        | Expr::Degree { .. }
        | Expr::NodeCount
        | Expr::EdgeCount
        | Expr::Live { .. }
        | Expr::Unary { .. }
        | Expr::Binary { .. }
        | Expr::Both(_, _)
        | Expr::Either(_, _)
        | Expr::Choose(_, _, _) => Ok(Stmt::Declare {
            key,
            variable,
            value: Some(value),
        }),
    }
}

// A declaration, as a loop where its value is a reduction.
fn declared_out(
    alloc: Global,
    key: Key,
    variable: u32,
    value: Option<Expr>,
) -> Result<Stmt, AllocError>
    ensures { IfOk result (λ r. stmt_of r ≡ Folds.declared_out key variable (option_map expr_of value)) }
{
    match value {
        Some(value) => initial_out(alloc, key, variable, value),
        None => Ok(Stmt::Declare {
            key,
            variable,
            value: None,
        }),
    }
}

// The sequential phase with its reductions as loops.
fn unfold(alloc: Global, s: Stmt) -> Result<Stmt, AllocError>
    ensures { IfOk result (λ r. stmt_of r ≡ folds_out (stmt_of s)) }
{
    match s {
        Stmt::Block(stmts) => {
            let mut out = Vec::new(alloc);
            for stmt in stmts {
                let changed = unfold(alloc, stmt)?;
                out.push(changed)?;
            }
            Ok(Stmt::Block(out))
        }
        Stmt::Declare {
            key,
            variable,
            value,
        } => declared_out(alloc, key, variable, value),
        Stmt::Assign { key, target, value } => assigned_out(alloc, key, target, value),
        Stmt::For {
            key,
            place,
            head,
            filter,
            body,
        } => {
            let changed = unfold(alloc, Box::into_inner(body))?;
            let body = Box::new(alloc, changed)?;
            Ok(Stmt::For {
                key,
                place,
                head,
                filter,
                body,
            })
        }
        Stmt::If { key, test, yes, no } => {
            let changed = unfold(alloc, Box::into_inner(yes))?;
            let yes = Box::new(alloc, changed)?;
            let changed = unfold(alloc, Box::into_inner(no))?;
            let no = Box::new(alloc, changed)?;
            Ok(Stmt::If { key, test, yes, no })
        }
        Stmt::While {
            key,
            place,
            test,
            body,
        } => {
            let changed = unfold(alloc, Box::into_inner(body))?;
            let body = Box::new(alloc, changed)?;
            Ok(Stmt::While {
                key,
                place,
                test,
                body,
            })
        }
        Stmt::Do {
            key,
            place,
            body,
            test,
        } => {
            let changed = unfold(alloc, Box::into_inner(body))?;
            let body = Box::new(alloc, changed)?;
            Ok(Stmt::Do {
                key,
                place,
                body,
                test,
            })
        }
        other => Ok(other),
    }
}
