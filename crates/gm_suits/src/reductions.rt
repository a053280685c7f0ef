//! Where reductions go, and what comes before their totals.

ghost use Rattle.std.specs.Prelude.{◌≡◌, ◌||◌, map};
ghost use Rattle.std.specs.List.{list_all, list_any};
ghost use Rattle.gm_ast.specs.Keys as Keys;
ghost use Rattle.gm_ast.specs.Names.{is};
ghost use Rattle.gm_ast.specs.Tree.{expr_of};
ghost use Rattle.gm_ast.specs.declared.tree.Sort.TheVariants.{Scalar};
ghost use Rattle.gm_forms.specs.Order.{fault_of};
ghost use Rattle.gm_lowering.specs.Layouts as Layouts;
ghost use Rattle.gm_plain_loops.specs.Tests as Tests;
ghost use Rattle.gm_semantics.specs.Statements as Statements;

use gm_ast::tree::{Declaration, Expr, Key, Sort, Stage, Target, TotalKey};
use gm_base::Place;
use gm_facts::faults::{can_fail1, can_fail2};
use gm_message::{is_global, variable_at};
use gm_trees::variables::is_in;

// A stage's number in the order of faults of one statement.
fn stage_rank(stage: Stage) -> u32
    ensures { result ≡ Keys.stage_rank stage }
{
    match stage {
        Stage::Inner => 0,
        Stage::Operator => 1,
        Stage::Total => 2,
    }
}

// Whether an operator's fault, under a key and at a place, comes before a total's.
fn is_before(key: Key, place: Place, total: TotalKey) -> bool
    ensures { result ≡ Keys.fault_lt (fault_of key place) (Keys.total_fault total) }
{
    let first = stage_rank(key.stage);
    let second = stage_rank(total.key.stage);
    key.statement < total.key.statement
        || (key.statement == total.key.statement
            && (first < second || (first == second && place.comes_before(total.place))))
}

// Whether a total comes behind what may fault in the operators and checks of an expression, which have a key.
fn comes_behind(total: TotalKey, key: Key, e: &Expr) -> bool
    ensures { result ≡ Tests.comes_behind (Keys.total_fault total) key (expr_of e.now) }
{
    match e {
        Expr::Live { place, .. } => is_before(key, *place, total),
        Expr::Unary { op, place, inner } => {
            (!can_fail1(*op) || is_before(key, *place, total)) && comes_behind(total, key, inner)
        }
        Expr::Binary {
            op,
            place,
            left,
            right,
        } => {
            (!can_fail2(*op) || is_before(key, *place, total))
                && (comes_behind(total, key, left) && comes_behind(total, key, right))
        }
        Expr::Both(left, right) | Expr::Either(left, right) => {
            comes_behind(total, key, left) && comes_behind(total, key, right)
        }
        Expr::Choose(test, yes, no) => {
            comes_behind(total, key, test)
                && (comes_behind(total, key, yes) && comes_behind(total, key, no))
        }
        Expr::Const(_)
        | Expr::Var { .. }
        | Expr::Property { .. }
        | Expr::EdgeProperty { .. }
        | Expr::Degree { .. }
        | Expr::NodeCount
        | Expr::EdgeCount
        | Expr::Fold { .. } => true,
    }
}

// Whether it comes behind that of all values.
fn comes_behind_all(total: TotalKey, key: Key, values: &[Expr]) -> bool
    ensures { result ≡ list_all (Tests.comes_behind (Keys.total_fault total) key) (map expr_of values.now) }
{
    for value in values {
        if !comes_behind(total, key, value) {
            return false;
        }
    }
    true
}

// Whether a total comes behind the check of a target's node variable, unless it is one of some iterators.
fn is_behind_target(iterators: &[u32], total: TotalKey, key: Key, target: Target) -> bool
    ensures { result ≡ Tests.is_behind_target iterators.now (Keys.total_fault total) key target }
{
    match target {
        Target::Scalar { .. } => true,
        Target::Property { owner, place, .. } => {
            is_in(iterators, owner) || is_before(key, place, total)
        }
    }
}

// Whether it comes behind those of all targets.
fn is_behind_targets(iterators: &[u32], total: TotalKey, key: Key, targets: &[Target]) -> bool
    ensures { result ≡ list_all (Tests.is_behind_target iterators.now (Keys.total_fault total) key) targets.now }
{
    targets
        .iter()
        .all(|target| is_behind_target(iterators, total, key, *target))
}

/// Whether what may fault in a reduction's values and targets comes before its total.
pub fn total_follows(
    iterators: &[u32],
    key: Key,
    total: TotalKey,
    targets: &[Target],
    values: &[Expr],
) -> bool
    ensures { result ≡ Tests.total_follows iterators.now key total targets.now (map expr_of values.now) }
{
    comes_behind_all(total, key, values) && is_behind_targets(iterators, total, key, targets)
}

// Whether a target is a scalar of the procedure.
fn is_plain(declarations: &[Declaration], target: Target) -> bool
    ensures { result ≡ Layouts.is_scalar_of Layouts.is_global declarations.now target }
{
    match target {
        Target::Scalar { variable, .. } => is_global(variable_at(declarations, variable)),
        Target::Property { .. } => false,
    }
}

// Whether all targets are.
fn are_plain(declarations: &[Declaration], targets: &[Target]) -> bool
    ensures { result ≡ list_all (Layouts.is_scalar_of Layouts.is_global declarations.now) targets.now }
{
    targets.iter().all(|target| is_plain(declarations, *target))
}

// Whether some target is.
fn some_plain(declarations: &[Declaration], targets: &[Target]) -> bool
    ensures { result ≡ list_any (Layouts.is_scalar_of Layouts.is_global declarations.now) targets.now }
{
    targets.iter().any(|target| is_plain(declarations, *target))
}

/// Whether all of some targets are scalars of the procedure, or none is.
pub fn end_together(declarations: &[Declaration], targets: &[Target]) -> bool
    ensures { result ≡ Tests.end_together declarations.now targets.now }
{
    are_plain(declarations, targets) || !some_plain(declarations, targets)
}

// Whether a variable is declared as a scalar, or as an iterator, such as that of a For around.
fn may_hold_node(declarations: &[Declaration], variable: u32) -> bool
    ensures { result ≡ (is Scalar (Statements.variable_at declarations.now variable) || Layouts.is_global (Statements.variable_at declarations.now variable)) }
{
    let declared = variable_at(declarations, variable);
    matches!(declared.sort, Sort::Scalar) || is_global(declared)
}

// Whether a target goes through one of some iterators, or in a body that may send through a scalar or an iterator around.
fn goes_well(declarations: &[Declaration], inner: bool, iterators: &[u32], target: Target) -> bool
    ensures { result ≡ Tests.goes_well declarations.now inner iterators.now target }
{
    match target {
        Target::Scalar { .. } => true,
        Target::Property { owner, .. } => {
            is_in(iterators, owner) || (!inner && may_hold_node(declarations, owner))
        }
    }
}

/// Whether all targets do.
pub fn go_well(
    declarations: &[Declaration],
    inner: bool,
    iterators: &[u32],
    targets: &[Target],
) -> bool
    ensures { result ≡ list_all (Tests.goes_well declarations.now inner iterators.now) targets.now }
{
    targets.iter().all(|target| goes_well(declarations, inner, iterators, *target))
}
