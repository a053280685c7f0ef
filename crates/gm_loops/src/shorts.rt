//! Iterations that do one thing, of which nothing faults: they are done without the store.

ghost use Rattle.std.specs.Prelude.{◌≡◌, ◌≤◌, ◌<◌, ◌∷◌, ◌++◌, [], ℕ, Option, Some, None, IfSome, OnOk};
ghost use Rattle.gm_value.specs.declared.values.Value.TheVariants.{At};
ghost use Rattle.gm_model.specs.Graphs.{NumberedGraph};
ghost use Rattle.gm_ast.specs.Tree.{expr_of, stmt_of};
ghost use Rattle.gm_ast.specs.Program as program;
ghost use Rattle.gm_semantics.specs.declared.slots.Slot.TheVariants.{Scalar};
ghost use Rattle.gm_semantics.specs.Stores.{Store as Stored, write};
ghost use Rattle.gm_semantics.specs.Iterations as iterations;
ghost use Rattle.gm_semantics.specs.Iterations.{Iteration, Loop, begun, does, turn_at};
ghost use Rattle.gm_store.specs.Held.{shape_of, store_of, HasSlot};
ghost use Rattle.gm_loops.specs.declared.sights.Setting.{Setting};
ghost use Rattle.gm_loops.specs.Around.{body_of, loop_of, mode_in};
ghost use Rattle.gm_loops.specs.Bounds.{bound_of, target_bound, targets_bound};
ghost use Rattle.gm_loops.specs.Goings.{IsReady};
ghost use Rattle.gm_loops.specs.Scopes.{inside};
ghost use Rattle.gm_loops.specs.Sights.{edges_in};
ghost use Rattle.gm_loops.specs.Shorts.{after_deed, own_of, IsOwn, IsWithin};
ghost use Rattle.gm_loops.specs.Turns.{seen, DoesTurns};
ghost use Rattle.gm_graph.specs.Serving.{Serve};
ghost use Rattle.gm_loops.specs.Asking.{goes_outward, reads_outward};

use crate::around::{Around, Body, Ends, Mode};
use crate::goings::{Going, contribution};
use crate::own::is_at;
use crate::parts::is_true;
use crate::scopes::Scope;
use gm_ast::tree::{Expr, Key, Stmt, Target, TotalKey};
use gm_base::NoMemory;
use gm_semantics::slots::Write;
use gm_totals::Contribution;
use gm_value::Reduce;

// What an iteration does: nothing, a write at its own node, or a contribution that ends with the outermost loop.
#[derive(Clone, Copy)]
pub(crate) enum Deed {
    Nothing,
    Writes(Write),
    Gives(Contribution),
}

// The statement of a block of one, which may stand behind the declaration of an edge. Others are their own.
#[inline(always)]
#[tactic(auto, using(crate::proofs::Serving::block_served, crate::proofs::Serving::stmt_item))]
fn lone(s: &Stmt) -> &Stmt
    ensures does { (m : iterations.Mode) (loop : Loop) (it : Iteration) → it.fault ≡ None → does (stmt_of result.now) m loop it ≡ does (stmt_of s.now) m loop it }
    ensures bound { bound_of (stmt_of result.now) ≤ bound_of (stmt_of s.now) }
    ensures asked { (rows : Option NumberedGraph) → Serve rows (goes_outward (stmt_of s.now)) → Serve rows (goes_outward (stmt_of result.now)) }
{
    match s {
        Stmt::Block(stmts) => {
            if stmts.len() == 1 {
                &stmts[0]
            } else if stmts.len() == 2 {
                match &stmts[0] {
                    Stmt::DeclareEdge { .. } => &stmts[1],
                    _ => s,
                }
            } else {
                s
            }
        }
        _ => s,
    }
}

impl Deed {
    // Puts what it leaves at the iteration's own node behind what is kept.
    #[inline(always)]
    pub fn keep(self, own: &mut Vec<Write>) -> Result<(), NoMemory>
        ensures { OnOk result (own.new.items ≡ own.old.items ++ own_of self) }
    {
        if let Deed::Writes(write) = self {
            own.push(write)?;
        }
        Ok(())
    }
}

impl Going {
    // An assignment, if it is to the iteration's own node and nothing faults.
    #[inline(always)]
    fn assigns(
        &self,
        key: Key,
        target: &Target,
        value: &Expr,
        scope: &Scope,
        node: u32,
        mode: Mode,
        around: &Around,
    ) -> Option<Deed>
        requires ready { IsReady around.now.setting.now self.now }
        requires bound { target_bound target.now ≤ around.now.setting.now.variables }
        requires asked { Serve around.now.setting.now.in_rows.now (reads_outward (expr_of value.now)) }
        ensures does { let it = begun (inside scope.now (store_of (edges_in around.now.setting.now) self.now.store)) in
            IfSome result (λ deed. does (program.Assign key target.now (expr_of value.now)) (mode_in around.now mode) (loop_of around.now) it ≡ after_deed deed it) }
        ensures within { IfSome result (IsWithin (shape_of self.now.store)) }
        ensures own { IfSome result (IsOwn node) }
    {
        let write = around
            .sight(mode, key)
            .faultless_write(scope, &self.store, target, value)?;
        if is_at(node, write.slot) {
            Some(Deed::Writes(write))
        } else {
            None
        }
    }

    // A reduction assignment, if it ends with the outermost loop and nothing faults.
    #[inline(always)]
    fn gives(
        &self,
        key: Key,
        total: TotalKey,
        reduce: Reduce,
        target: &Target,
        value: &Expr,
        scope: &Scope,
        mode: Mode,
        around: &Around,
    ) -> Option<Deed>
        requires ready { IsReady around.now.setting.now self.now }
        requires bound { target_bound target.now ≤ around.now.setting.now.variables }
        requires asked { Serve around.now.setting.now.in_rows.now (reads_outward (expr_of value.now)) }
        ensures does { let it = begun (inside scope.now (store_of (edges_in around.now.setting.now) self.now.store)) in
            IfSome result (λ deed. does (program.Combine key total reduce (target.now ∷ []) (expr_of value.now ∷ [])) (mode_in around.now mode) (loop_of around.now) it ≡ after_deed deed it) }
        ensures within { IfSome result (IsWithin (shape_of self.now.store)) }
        ensures own { (node : ℕ) → IfSome result (IsOwn node) }
    {
        if let Ends::WithOutermost = around.ends_of(mode, target) {
            let write = around
                .sight(mode, key)
                .faultless_write(scope, &self.store, target, value)?;
            return Some(Deed::Gives(contribution(total, reduce, write)));
        }
        None
    }

    // What a statement of a body does, if it is one deed and nothing faults.
    #[inline(always)]
    #[tactic(auto, using(crate::proofs::Serving::assign_value, crate::proofs::Serving::reduce_values, crate::proofs::Serving::value_item))]
    fn deed_of(
        &self,
        s: &Stmt,
        scope: &Scope,
        node: u32,
        mode: Mode,
        around: &Around,
    ) -> Option<Deed>
        requires ready { IsReady around.now.setting.now self.now }
        requires bound { bound_of (stmt_of s.now) ≤ around.now.setting.now.variables }
        requires asked { Serve around.now.setting.now.in_rows.now (goes_outward (stmt_of s.now)) }
        ensures does { let it = begun (inside scope.now (store_of (edges_in around.now.setting.now) self.now.store)) in
            IfSome result (λ deed. does (stmt_of s.now) (mode_in around.now mode) (loop_of around.now) it ≡ after_deed deed it) }
        ensures within { IfSome result (IsWithin (shape_of self.now.store)) }
        ensures own { IfSome result (IsOwn node) }
    {
        match s {
            Stmt::Assign { key, target, value } => {
                self.assigns(*key, target, value, scope, node, mode, around)
            }
            Stmt::Reduce {
                key,
                total,
                reduce,
                targets,
                values,
            } => {
                if targets.len() == 1 && values.len() == 1 {
                    self.gives(
                        *key,
                        *total,
                        *reduce,
                        &targets[0],
                        &values[0],
                        scope,
                        mode,
                        around,
                    )
                } else {
                    None
                }
            }
            _ => None,
        }
    }

    // What a body does, if it is one deed and nothing faults.
    #[inline(always)]
    fn deed_of_body(
        &self,
        body: Body,
        scope: &Scope,
        node: u32,
        mode: Mode,
        around: &Around,
    ) -> Option<Deed>
        requires ready { IsReady around.now.setting.now self.now }
        requires bound { bound_of (body_of body) ≤ around.now.setting.now.variables }
        requires asked { Serve around.now.setting.now.in_rows.now (goes_outward (body_of body)) }
        ensures does { let it = begun (inside scope.now (store_of (edges_in around.now.setting.now) self.now.store)) in
            IfSome result (λ deed. does (body_of body.entry) (mode_in around.now mode) (loop_of around.now) it ≡ after_deed deed it) }
        ensures within { IfSome result (IsWithin (shape_of self.now.store)) }
        ensures own { IfSome result (IsOwn node) }
    {
        match body {
            Body::Assignment { key, target, value } => {
                self.assigns(key, &target, value, scope, node, mode, around)
            }
            Body::Statement(s) => self.deed_of(lone(s), scope, node, mode, around),
        }
    }

    // What an iteration at a node does, if it is one deed and nothing faults.
    #[inline(always)]
    pub(crate) fn deed_at(
        &self,
        key: Key,
        iterator: u32,
        body: Body,
        filter: &Expr,
        node: u32,
        mode: Mode,
        around: &Around,
    ) -> Option<Deed>
        requires ready { IsReady around.now.setting.now self.now }
        requires bound { bound_of (body_of body) ≤ around.now.setting.now.variables }
        requires filter_asked { Serve around.now.setting.now.in_rows.now (reads_outward (expr_of filter.now)) }
        requires body_asked { Serve around.now.setting.now.in_rows.now (goes_outward (body_of body)) }
        ensures turn { let s = seen around.now.setting.now self.now in
            IfSome result (λ deed. turn_at (loop_of around.now) (mode_in around.now mode) key (expr_of filter.now) (does (body_of body.entry) (mode_in around.now mode) (loop_of around.now)) iterator node s
            ≡ after_deed deed (begun (write s (Scalar iterator) (At (Some node))))) }
        ensures within { IfSome result (IsWithin (shape_of self.now.store)) }
        ensures own { IfSome result (IsOwn node) }
    {
        let scope = Scope::Bound {
            iterator,
            node,
            outer: &Scope::Nothing,
        };
        let passed = around
            .sight(mode, key)
            .faultless(filter, &scope, &self.store)?;
        if is_true(passed) {
            self.deed_of_body(body, &scope, node, mode, around)
        } else {
            Some(Deed::Nothing)
        }
    }

    // An iteration of one deed is done. What it leaves at its own node is kept elsewhere.
    #[inline(always)]
    pub(crate) fn take(&mut self, deed: Deed) -> Result<(), NoMemory>
        requires { IsWithin (shape_of self.old.store) deed }
        ensures { OnOk result ((f : Setting) (m : iterations.Mode) (turn : Stored → Iteration) (s : Stored)
            → turn (seen f self.old) ≡ after_deed deed (begun s) → DoesTurns f m self.old self.new self.new.fault (λ s. turn s ∷ [])) }
    {
        self.fault = None;
        if let Deed::Gives(contribution) = deed {
            self.outermost.give(contribution)?;
        }
        Ok(())
    }
}
