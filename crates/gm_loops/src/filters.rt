//! The filter of an outermost loop, found for all nodes at once.

ghost use Rattle.std.specs.Prelude.{◌≡◌, ◌≤◌, IsTrue, IfOk, IfSome, Some, ℕ};
ghost use Rattle.gm_value.specs.declared.values.Value.TheVariants.{At};
ghost use Rattle.gm_ast.specs.Program as program;
ghost use Rattle.gm_ast.specs.Tree.{expr_of};
ghost use Rattle.gm_semantics.specs.declared.slots.Slot.TheVariants.{Scalar};
ghost use Rattle.gm_semantics.specs.Expressions.{View};
ghost use Rattle.gm_semantics.specs.Iterations as iterations;
ghost use Rattle.gm_semantics.specs.Iterations.{begun, does, turn_at};
ghost use Rattle.gm_semantics.specs.Stores.{write};
ghost use Rattle.gm_store.specs.Held.{shape_of};
ghost use Rattle.gm_loops.specs.Around.{body_of, loop_of};
ghost use Rattle.gm_loops.specs.Bounds.{bound_of};
ghost use Rattle.gm_loops.specs.Columns.{here, IsColumn};
ghost use Rattle.gm_loops.specs.Filters.{Fails, IsFilter};
ghost use Rattle.gm_loops.specs.Goings.{IsReady};
ghost use Rattle.gm_loops.specs.Shorts.{after_deed, IsOwn, IsWithin};
ghost use Rattle.gm_loops.specs.Sights.{Fits};
ghost use Rattle.gm_loops.specs.Turns.{seen};
ghost use Rattle.gm_graph.specs.Serving.{Serve};
ghost use Rattle.gm_loops.specs.Asking.{goes_outward, reads_outward};

use crate::around::{Around, Mode};
use crate::goings::Going;
use crate::loops::LoopNodes;
use crate::renewals::passes_all;
use crate::scopes::Scope;
use crate::shorts::Deed;
use gm_ast::tree::{Expr, Key};
use gm_base::NoMemory;
use gm_columns::Cells;

// Whether the column of a filter, if there is one, does not pass a node.
#[inline(always)]
fn is_over(passing: &Option<Cells>, node: u32) -> bool
    ensures { (test : program.Expr) (w : View) (i : ℕ) → IfSome passing.now (IsColumn test w i) → IsTrue result → Fails test (here w i node) }
{
    match passing {
        Some(Cells::Flags(flags)) => {
            let at = node as usize;
            at < flags.len() && !flags[at]
        }
        _ => false,
    }
}

impl Going {
    // The column of a loop's filter, if the loop is over all nodes, the filter may refuse one, and nothing faults.
    pub(crate) fn passing(
        &self,
        around: &Around,
        key: Key,
        filter: &Expr,
        nodes: LoopNodes,
    ) -> Result<Option<Cells>, NoMemory>
        requires { Fits around.now.setting.now self.now.store }
        ensures { IfOk result (IsFilter around.now key (expr_of filter.now) (seen around.now.setting.now self.now)) }
    {
        if !nodes.are_all(around.setting.graph) || passes_all(filter) {
            return Ok(None);
        }
        let sight = around.sight(Mode::Outermost, key);
        sight.column(
            self.alloc,
            filter,
            around.outer,
            &Scope::Nothing,
            &self.store,
        )
    }

    // What an iteration of an outermost loop does, if it is one deed and nothing faults: nothing, where the column of
    // the filter does not pass its node.
    #[inline(always)]
    pub(crate) fn deed_by(
        &self,
        key: Key,
        filter: &Expr,
        passing: &Option<Cells>,
        node: u32,
        around: &Around,
    ) -> Option<Deed>
        requires ready { IsReady around.now.setting.now self.now }
        requires bound { bound_of (body_of around.now.body) ≤ around.now.setting.now.variables }
        requires filter { IsFilter around.now key (expr_of filter.now) (seen around.now.setting.now self.now) passing.now }
        requires filter_asked { Serve around.now.setting.now.in_rows.now (reads_outward (expr_of filter.now)) }
        requires body_asked { Serve around.now.setting.now.in_rows.now (goes_outward (body_of around.now.body)) }
        ensures turn { let s = seen around.now.setting.now self.now in
            IfSome result (λ deed. turn_at (loop_of around.now) iterations.Outermost key (expr_of filter.now) (does (body_of around.now.body) iterations.Outermost (loop_of around.now)) around.now.outer node s
            ≡ after_deed deed (begun (write s (Scalar around.now.outer) (At (Some node))))) }
        ensures within { IfSome result (IsWithin (shape_of self.now.store)) }
        ensures own { IfSome result (IsOwn node) }
    {
        if is_over(passing, node) {
            return Some(Deed::Nothing);
        }
        self.deed_at(
            key,
            around.outer,
            around.body,
            filter,
            node,
            Mode::Outermost,
            around,
        )
    }
}
