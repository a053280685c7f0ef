//! What expressions and targets of an inner body tell and touch, as sets of variables.

ghost use Rattle.std.specs.Prelude.{◌≡◌, true, OnOk, map, option_map};
ghost use Rattle.std.specs.List.{list_any};
ghost use Rattle.gm_ast.specs.Tree.{expr_of};
ghost use Rattle.gm_forms.specs.Sharing as Sharing;
ghost use Rattle.gm_slices.specs.Needs as Needs;
ghost use Rattle.gm_slices.specs.Sets.{set_of};

use crate::members::Members;
use gm_ast::tree::{Declaration, Expr, Target};
use gm_facts::ways::depth_at;
use std::alloc::AllocError;

/// The iterators of a loop and of its inner loop.
#[derive(Clone, Copy)]
pub(crate) struct Ends {
    pub(crate) outer: u32,
    pub(crate) inner: u32,
}

// Gathers the scalars and nodes that an expression reads by their names.
pub(crate) fn tell(e: &Expr, needs: &mut Members) -> Result<(), AllocError>
    ensures { OnOk result (set_of needs.new ≡ Needs.with_told (expr_of e.now) (set_of needs.old)) }
{
    match e {
        Expr::Var { variable, .. } | Expr::Live { variable, .. } => needs.add(*variable),
        Expr::Property { owner, .. } | Expr::Degree { owner, .. } => needs.add(*owner),
        Expr::Unary { inner, .. } => tell(inner, needs),
        Expr::Binary { left, right, .. } => {
            tell(left, needs)?;
            tell(right, needs)
        }
        Expr::Both(left, right) | Expr::Either(left, right) => {
            tell(left, needs)?;
            tell(right, needs)
        }
        Expr::Choose(test, yes, no) => {
            tell(test, needs)?;
            tell(yes, needs)?;
            tell(no, needs)
        }
        Expr::Fold {
            head,
            filter,
            body,
            ..
        } => {
            needs.add(head.owner)?;
            tell(filter, needs)?;
            tell(body, needs)
        }
        _ => Ok(()),
    }
}

// The same of some expressions.
pub(crate) fn tell_all(values: &[Expr], needs: &mut Members) -> Result<(), AllocError>
    ensures { OnOk result (set_of needs.new ≡ Needs.with_all_told (map expr_of values.now) (set_of needs.old)) }
{
    for value in values {
        tell(value, needs)?;
    }
    Ok(())
}

// The same of an expression, where there is one.
pub(crate) fn tell_option(value: &Option<Expr>, needs: &mut Members) -> Result<(), AllocError>
    ensures { OnOk result (set_of needs.new ≡ Needs.with_told_option (option_map expr_of value.now) (set_of needs.old)) }
{
    match value {
        None => Ok(()),
        Some(value) => tell(value, needs),
    }
}

// Whether a target's variable is one of a set.
pub(crate) fn is_touched(members: &Members, target: Target) -> bool
    ensures { result ≡ Needs.is_touched (set_of members.now) target }
{
    match target {
        Target::Scalar { variable, .. } => members.has(variable),
        Target::Property { property, .. } => members.has(property),
    }
}

// Whether one of some targets is.
pub(crate) fn any_touched(members: &Members, targets: &[Target]) -> bool
    ensures { result ≡ list_any (Needs.is_touched (set_of members.now)) targets.now }
{
    for target in targets {
        if is_touched(members, *target) {
            return true;
        }
    }
    false
}

// Whether a reduction to a target is done at once in an inner body: it is a local of it.
fn is_at_once(declarations: &[Declaration], outer: u32, target: Target) -> bool
    ensures { result ≡ Sharing.is_at_once declarations.now outer true target }
{
    match target {
        Target::Scalar { variable, .. } => 1 < depth_at(declarations, variable),
        Target::Property { .. } => false,
    }
}

// Whether a reduction to some targets is.
pub(crate) fn are_at_once(declarations: &[Declaration], outer: u32, targets: &[Target]) -> bool
    ensures { result ≡ Sharing.are_at_once declarations.now outer true targets.now }
{
    targets
        .iter()
        .all(|target| is_at_once(declarations, outer, *target))
}
