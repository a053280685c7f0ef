//! What the bodies of parallel loops do.

ghost use Rattle.std.specs.Prelude.{◌≡◌, ◌≤◌, ◌<◌, ◌∷◌, [], IfOk, OnOk, map};
ghost use Rattle.gm_base.specs.declared.places.Place.{Place};
ghost use Rattle.gm_ast.specs.declared.tree.Key.{Key};
ghost use Rattle.gm_ast.specs.Program as program;
ghost use Rattle.gm_ast.specs.Tree.{expr_of, stmt_of};
ghost use Rattle.gm_semantics.specs.Expressions.{steps_in};
ghost use Rattle.gm_semantics.specs.Iterations as iterations;
ghost use Rattle.gm_semantics.specs.Iterations.{does, view_in, begun};
ghost use Rattle.gm_loops.specs.Around.{loop_of, mode_in};
ghost use Rattle.gm_loops.specs.Bounds.{bound_of};
ghost use Rattle.gm_loops.specs.Goings.{Does, IsReady};
ghost use Rattle.gm_loops.specs.Ranges.{step_of};
ghost use Rattle.gm_loops.specs.Turns.{inner_turn, DoesTurns};
ghost use Rattle.gm_graph.specs.Serving.{Serve};
ghost use Rattle.gm_loops.specs.Asking.{goes_outward, reads_outward, runs_outward};

use crate::around::{Around, Body, Mode};
use crate::goings::Going;
use crate::parts::is_true;
use crate::ranges::Hop;
use crate::turns::keep_least;
use gm_ast::tree::{Expr, Head, Key, Stmt};
use gm_base::NoMemory;
use gm_semantics::faults::Fault;

impl Going {
    // What the statements of a block do, until one faults.
    #[cycle(doing)]
    #[tactic(auto, using(crate::proofs::Statements::item_bound))]
    fn does_all(&mut self, stmts: &Vec<Stmt>, mode: Mode, around: &Around) -> Result<(), NoMemory>
        requires ready { IsReady around.now.setting.now self.old }
        requires bound { bound_of (program.sequence (map stmt_of stmts.now.items)) ≤ around.now.setting.now.variables }
        requires asked { Serve around.now.setting.now.in_rows.now (goes_outward (program.sequence (map stmt_of stmts.now.items))) }
        ensures { OnOk result (Does around.now.setting.now (mode_in around.now mode) self.old self.new (does (program.sequence (map stmt_of stmts.now.items)) (mode_in around.now mode) (loop_of around.now))) }
    {
        for stmt in stmts {
            self.does(stmt, mode, around)?;
            if self.fault.is_some() {
                return Ok(());
            }
        }
        Ok(())
    }

    // What a statement of a body does.
    #[cycle(doing)]
    #[tactic(auto, using(crate::proofs::Statements::block_bound, crate::proofs::Statements::first_bound, crate::proofs::Statements::other_bound, crate::proofs::Statements::body_bound, crate::proofs::Statements::iterator_bound, crate::proofs::Serving::block_served, crate::proofs::Serving::declare_value, crate::proofs::Serving::assign_value, crate::proofs::Serving::defer_value, crate::proofs::Serving::reduce_values, crate::proofs::Serving::if_test, crate::proofs::Serving::if_first, crate::proofs::Serving::if_other, crate::proofs::Serving::foreach_range, crate::proofs::Serving::foreach_filter, crate::proofs::Serving::foreach_body))]
    pub(crate) fn does(&mut self, s: &Stmt, mode: Mode, around: &Around) -> Result<(), NoMemory>
        requires ready { IsReady around.now.setting.now self.old }
        requires bound { bound_of (stmt_of s.now) ≤ around.now.setting.now.variables }
        requires asked { Serve around.now.setting.now.in_rows.now (goes_outward (stmt_of s.now)) }
        ensures { OnOk result (Does around.now.setting.now (mode_in around.now mode) self.old self.new (does (stmt_of s.now) (mode_in around.now mode) (loop_of around.now))) }
    {
        match s {
            Stmt::Block(stmts) => self.does_all(stmts, mode, around)?,
            Stmt::Declare {
                key,
                variable,
                value,
            } => self.declare(*key, *variable, value, mode, around)?,
            Stmt::Assign { key, target, value } => {
                self.assign(*key, target, value, mode, around)?;
            }
            Stmt::Defer { key, target, value } => {
                if let Mode::Outermost = mode {
                    self.assign_deferred(*key, target, value, around)?;
                }
            }
            Stmt::Reduce {
                key,
                total,
                reduce,
                targets,
                values,
            } => {
                self.reduce_all(
                    *key,
                    *total,
                    *reduce,
                    targets.as_slice(),
                    values.as_slice(),
                    mode,
                    around,
                )?;
            }
            Stmt::If { key, test, yes, no } => {
                match around.sight(mode, *key).value(test, &self.store) {
                    Ok(holds) => {
                        if is_true(holds) {
                            self.does(yes, mode, around)?;
                        } else {
                            self.does(no, mode, around)?;
                        }
                    }
                    Err(fault) => self.fail(fault),
                }
            }
            Stmt::Foreach {
                key,
                head,
                filter,
                body,
                ..
            } => {
                if let Mode::Outermost = mode {
                    self.inner_loop(*key, head, body, filter, around)?;
                }
            }
            _ => {}
        }
        Ok(())
    }

    // An inner loop: its iterations, and then what ends with it.
    #[cycle(doing)]
    fn inner_loop(
        &mut self,
        key: Key,
        head: &Head,
        body: &Stmt,
        filter: &Expr,
        around: &Around,
    ) -> Result<(), NoMemory>
        requires ready { IsReady around.now.setting.now self.old }
        requires iterator { head.now.iterator < around.now.setting.now.variables }
        requires bound { bound_of (stmt_of body.now) ≤ around.now.setting.now.variables }
        requires range_asked { Serve around.now.setting.now.in_rows.now (runs_outward head.now.domain) }
        requires filter_asked { Serve around.now.setting.now.in_rows.now (reads_outward (expr_of filter.now)) }
        requires body_asked { Serve around.now.setting.now.in_rows.now (goes_outward (stmt_of body.now)) }
        ensures { OnOk result ((at : Place) → Does around.now.setting.now iterations.Outermost self.old self.new
            (does (program.Foreach key at head.now (expr_of filter.now) (stmt_of body.now)) iterations.Outermost (loop_of around.now))) }
    {
        let least = self.inner_turns(key, head, body, filter, around)?;
        self.close_inner(least)?;
        Ok(())
    }

    // The iterations of an inner loop, and their least fault. The store is as it was.
    #[cycle(doing)]
    fn inner_turns(
        &mut self,
        key: Key,
        head: &Head,
        body: &Stmt,
        filter: &Expr,
        around: &Around,
    ) -> Result<Option<Fault>, NoMemory>
        requires ready { IsReady around.now.setting.now self.old }
        requires iterator { head.now.iterator < around.now.setting.now.variables }
        requires bound { bound_of (stmt_of body.now) ≤ around.now.setting.now.variables }
        requires range_asked { Serve around.now.setting.now.in_rows.now (runs_outward head.now.domain) }
        requires filter_asked { Serve around.now.setting.now.in_rows.now (reads_outward (expr_of filter.now)) }
        requires body_asked { Serve around.now.setting.now.in_rows.now (goes_outward (stmt_of body.now)) }
        ensures { IfOk result (λ fault. DoesTurns around.now.setting.now (iterations.AtEdge 0) self.old self.new fault
            (λ s. map (λ step. inner_turn (loop_of around.now) key (expr_of filter.now) (stmt_of body.now) head.now.iterator step s)
            (steps_in (view_in (loop_of around.now) iterations.Outermost (begun s) key) head.now))) }
    {
        let hops = self.inner_steps(key, head, around)?;
        let mut least = None;
        for hop in &hops {
            self.inner_turn(key, head.iterator, body, filter, *hop, around)?;
            keep_least(&mut least, &self.fault);
        }
        self.hops = hops;
        Ok(least)
    }

    // One iteration of an inner loop, after which the store is as it was.
    #[cycle(doing)]
    fn inner_turn(
        &mut self,
        key: Key,
        iterator: u32,
        body: &Stmt,
        filter: &Expr,
        hop: Hop,
        around: &Around,
    ) -> Result<(), NoMemory>
        requires ready { IsReady around.now.setting.now self.old }
        requires iterator { iterator < around.now.setting.now.variables }
        requires bound { bound_of (stmt_of body.now) ≤ around.now.setting.now.variables }
        requires filter_asked { Serve around.now.setting.now.in_rows.now (reads_outward (expr_of filter.now)) }
        requires body_asked { Serve around.now.setting.now.in_rows.now (goes_outward (stmt_of body.now)) }
        ensures { OnOk result (DoesTurns around.now.setting.now (iterations.AtEdge 0) self.old self.new self.new.fault
            (λ s. inner_turn (loop_of around.now) key (expr_of filter.now) (stmt_of body.now) iterator (step_of around.now.setting.now.graph.now hop) s ∷ [])) }
    {
        match self.deed_at(
            key,
            iterator,
            Body::Statement(body),
            filter,
            hop.node,
            Mode::AtEdge(hop.row),
            around,
        ) {
            Some(deed) => self.take(deed)?,
            None => self.long_inner_turn(key, iterator, body, filter, hop, around)?,
        }
        Ok(())
    }

    // One iteration of an inner loop, done in the store and taken back.
    #[cycle(doing)]
    fn long_inner_turn(
        &mut self,
        key: Key,
        iterator: u32,
        body: &Stmt,
        filter: &Expr,
        hop: Hop,
        around: &Around,
    ) -> Result<(), NoMemory>
        requires ready { IsReady around.now.setting.now self.old }
        requires iterator { iterator < around.now.setting.now.variables }
        requires bound { bound_of (stmt_of body.now) ≤ around.now.setting.now.variables }
        requires filter_asked { Serve around.now.setting.now.in_rows.now (reads_outward (expr_of filter.now)) }
        requires body_asked { Serve around.now.setting.now.in_rows.now (goes_outward (stmt_of body.now)) }
        ensures { OnOk result (DoesTurns around.now.setting.now (iterations.AtEdge 0) self.old self.new self.new.fault
            (λ s. inner_turn (loop_of around.now) key (expr_of filter.now) (stmt_of body.now) iterator (step_of around.now.setting.now.graph.now hop) s ∷ [])) }
    {
        let mark = self.store.mark();
        let mode = Mode::AtEdge(hop.row);
        if self.begins(key, iterator, filter, hop.node, mode, around)? {
            self.does(body, mode, around)?;
        }
        self.store.roll_back(mark)?;
        Ok(())
    }
}
