//! How a body that is evaluated at a node reduces.

ghost use Rattle.std.specs.Prelude.{◌≡◌};
ghost use Rattle.std.specs.List.{list_all, list_any};
ghost use Rattle.gm_lowering.specs.Layouts as Layouts;
ghost use Rattle.gm_lowering.specs.Plans as Plans;
ghost use Rattle.gm_message.specs.Views.{as_way};

use crate::variables::{is_global, is_register, variable_at};
use gm_ast::tree::{Declaration, Target};

/// How a body that is evaluated at a node reduces to targets.
#[derive(Clone, Copy, Debug)]
pub enum Way {
    /// It puts to scalars of the procedure.
    Puts,
    /// It folds to properties of the node.
    Folds,
    /// It sends to properties of other nodes.
    Sends,
    /// It picks by itself what its locals hold.
    Picks,
}

// Whether a target is a scalar of the procedure.
fn is_plain(declarations: &[Declaration], target: Target) -> bool
    ensures { result ≡ Layouts.is_scalar_of Layouts.is_global declarations.now target }
{
    match target {
        Target::Scalar { variable, .. } => is_global(variable_at(declarations, variable)),
        Target::Property { .. } => false,
    }
}

// Whether all targets are.
fn are_plain(declarations: &[Declaration], targets: &[Target]) -> bool
    ensures { result ≡ list_all (Layouts.is_scalar_of Layouts.is_global declarations.now) targets.now }
{
    targets.iter().all(|target| is_plain(declarations, *target))
}

// Whether a target is a local.
fn is_local(declarations: &[Declaration], target: Target) -> bool
    ensures { result ≡ Layouts.is_scalar_of Layouts.is_register declarations.now target }
{
    match target {
        Target::Scalar { variable, .. } => is_register(variable_at(declarations, variable)),
        Target::Property { .. } => false,
    }
}

// Whether all targets are.
pub(crate) fn are_locals(declarations: &[Declaration], targets: &[Target]) -> bool
    ensures { result ≡ list_all (Layouts.is_scalar_of Layouts.is_register declarations.now) targets.now }
{
    targets.iter().all(|target| is_local(declarations, *target))
}

// Whether a target is a property of a node.
fn is_property_of(node: u32, target: Target) -> bool
    ensures { result ≡ Plans.is_property_of node target }
{
    match target {
        Target::Scalar { .. } => false,
        Target::Property { owner, .. } => owner == node,
    }
}

// Whether all targets are.
pub(crate) fn are_properties_of(node: u32, targets: &[Target]) -> bool
    ensures { result ≡ list_all (Plans.is_property_of node) targets.now }
{
    targets.iter().all(|target| is_property_of(node, *target))
}

// Whether a target is a property of another node.
fn is_property_off(node: u32, target: Target) -> bool
    ensures { result ≡ Plans.is_property_off node target }
{
    match target {
        Target::Scalar { .. } => false,
        Target::Property { owner, .. } => owner != node,
    }
}

// Whether some target is.
fn some_property_off(node: u32, targets: &[Target]) -> bool
    ensures { result ≡ list_any (Plans.is_property_off node) targets.now }
{
    targets.iter().any(|target| is_property_off(node, *target))
}

/// How a body that is evaluated at a node reduces to targets.
pub fn way_of(declarations: &[Declaration], node: u32, targets: &[Target]) -> Way
    ensures { as_way result ≡ Plans.way_of declarations.now node targets.now }
{
    if are_plain(declarations, targets) {
        Way::Puts
    } else if are_properties_of(node, targets) {
        Way::Folds
    } else if some_property_off(node, targets) {
        Way::Sends
    } else {
        Way::Picks
    }
}
