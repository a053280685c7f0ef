//! Reductions over all nodes of the graph, by the column of their elements.

ghost use Rattle.std.specs.Prelude.{◌≡◌, ◌≤◌, not, IfSome, Ok, length, map};
ghost use Rattle.std.specs.List.{list_any};
ghost use Rattle.gm_value.specs.declared.values.VType.TheVariants as types;
ghost use Rattle.gm_value.specs.declared.values.Value.TheVariants.{Flag};
ghost use Rattle.gm_value.specs.Totals.{HasRoom, IsTotal};
ghost use Rattle.gm_ast.specs.Program as program;
ghost use Rattle.gm_ast.specs.Tree.{expr_of};
ghost use Rattle.gm_semantics.specs.Expressions.{evaluated, members_of, plain, reduce_of};
ghost use Rattle.gm_semantics.specs.Faults.{joined};
ghost use Rattle.gm_columns.specs.Cells.{values_of};
ghost use Rattle.gm_loops.specs.Sights.{view_of, Fits};

use crate::faultless::sound;
use crate::renewals::passes_all;
use crate::runnings::{added, closed_total, reduce_of};
use crate::scopes::Scope;
use crate::sights::Sight;
use gm_ast::surface::ReductionWord;
use gm_ast::tree::{Domain, Expr, Fold, Head};
use gm_columns::Cells;
use gm_store::Store;
use gm_value::{Total, VType, Value, total_unit, totals_have_room};

// The total of a reduction of all values of a column.
fn total_of(fold: &Fold, cells: &Cells) -> Total
    requires { length (values_of cells.now) ≤ 2147483647 }
    ensures total { IsTotal (reduce_of fold.now.word) fold.now.vtype result (joined (map (members_of fold.now.word) (values_of cells.now))) }
    ensures room { HasRoom result }
{
    if let (Cells::Flags(flags), VType::Flag) = (cells, fold.vtype) {
        if let Some(total) = total_of_flags(fold.word, flags.as_slice()) {
            return total;
        }
    }
    total_one_by_one(fold, cells)
}

// The total of a reduction of all values of a column, taken one by one from the last.
fn total_one_by_one(fold: &Fold, cells: &Cells) -> Total
    requires { length (values_of cells.now) ≤ 2147483647 }
    ensures total { IsTotal (reduce_of fold.now.word) fold.now.vtype result (joined (map (members_of fold.now.word) (values_of cells.now))) }
    ensures room { HasRoom result }
{
    totals_have_room();
    let reduce = reduce_of(fold.word);
    let mut total = total_unit(reduce, fold.vtype);
    let mut k = cells.len();
    'elements: while k > 0 {
        k -= 1;
        total = added(fold.word, reduce, total, cells.get(k));
    }
    total
}

// Whether one of some truth values is True.
fn any_true(flags: &[bool]) -> bool
    ensures { result ≡ list_any (λ b. b) flags.now }
{
    flags.iter().any(|flag| *flag)
}

// Whether one of some truth values is False.
fn any_false(flags: &[bool]) -> bool
    ensures { result ≡ list_any not flags.now }
{
    flags.iter().any(|flag| !*flag)
}

// The total of an Exist or an All of truth values.
fn total_of_flags(word: ReductionWord, flags: &[bool]) -> Option<Total>
    ensures total { IfSome result (λ total. IsTotal (reduce_of word) types.Flag total (joined (map (members_of word) (map (λ b. Flag b) flags.now)))) }
    ensures room { IfSome result HasRoom }
{
    match word {
        ReductionWord::Exist => Some(Total::Small(Value::Flag(any_true(flags)))),
        ReductionWord::All => Some(Total::Small(Value::Flag(!any_false(flags)))),
        _ => None,
    }
}

impl Sight<'_> {
    // The value of a reduction over all nodes that passes each, if there is a column of its elements and nothing
    // faults.
    pub(crate) fn fold_of_column(
        &self,
        fold: &Fold,
        head: &Head,
        filter: &Expr,
        body: &Expr,
        scope: &Scope,
        store: &Store,
    ) -> Option<Value>
        requires { Fits self.now.setting.now store.now }
        ensures { IfSome result (λ v. evaluated (program.Folded fold.now head.now (expr_of filter.now) (expr_of body.now)) (view_of self.now scope.now store.now) ≡ plain (Ok v)) }
    {
        if let Domain::Nodes = head.domain {
            if passes_all(filter) {
                // Read, so that it is known how few nodes there are.
                let _nodes = self.setting.graph.node_count();
                let taking = self.entered(fold.body);
                let found = taking.operand(store.allocator(), body, head.iterator, scope, store);
                if let Ok(Some(operand)) = found {
                    return sound(closed_total(fold, total_of(fold, operand.cells())));
                }
            }
        }
        None
    }
}
