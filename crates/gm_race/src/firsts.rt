//! The earliest of some reductions, and the earliest of those that do something else.

ghost use Rattle.std.specs.Prelude.{◌≡◌, map};
ghost use Rattle.gm_ast.specs.Races.{reduce_eq, variables_eq, operation_eq};
ghost use Rattle.gm_ast.specs.Loops.{target_variable};
ghost use Rattle.gm_race.specs.Views.{operation_of};

use crate::found::{Reduction, target_variable};
use gm_ast::tree::Target;
use gm_base::Place;
use gm_value::Reduce;

// The earliest of some reductions, and the earliest place of those that do something else than that one.
#[derive(Clone, Copy)]
pub struct Firsts<'a> {
    pub reduction: Reduction<'a>,
    pub place: Place,
    pub other: Option<Place>,
}

// Whether two reductions have the same word.
fn same_reduce(a: Reduce, b: Reduce) -> bool
    ensures { result ≡ reduce_eq a b }
{
    match a {
        Reduce::Sum => matches!(b, Reduce::Sum),
        Reduce::Product => matches!(b, Reduce::Product),
        Reduce::Min => matches!(b, Reduce::Min),
        Reduce::Max => matches!(b, Reduce::Max),
        Reduce::And => matches!(b, Reduce::And),
        Reduce::Or => matches!(b, Reduce::Or),
    }
}

// Whether two lists of targets write the same variables.
fn same_targets(a: &[Target], b: &[Target]) -> bool
    ensures { result ≡ variables_eq (map target_variable a.now) (map target_variable b.now) }
{
    for (i, target) in a.iter().enumerate() {
        let Some(other) = b.get(i) else {
            return false;
        };
        if target_variable(*target) != target_variable(*other) {
            return false;
        }
    }
    a.len() == b.len()
}

// Whether two reductions do the same.
pub fn same_operation(a: Reduction<'_>, b: Reduction<'_>) -> bool
    ensures { result ≡ operation_eq (operation_of a.entry) (operation_of b.entry) }
{
    same_reduce(a.reduce, b.reduce) && same_targets(a.targets, b.targets)
}
