//! What single statements of a body do in an iteration.

ghost use Rattle.std.specs.Prelude.{◌≡◌, ◌≤◌, ◌<◌, ◌∷◌, [], map, option_map, IfOk, OnOk, Ok, Some, None};
ghost use Rattle.std.specs.List.{list_all};
ghost use Rattle.gm_ast.specs.declared.tree.Key.{Key};
ghost use Rattle.gm_ast.specs.Program as program;
ghost use Rattle.gm_ast.specs.Tree.{expr_of};
ghost use Rattle.gm_semantics.specs.declared.slots.Slot.TheVariants.{Scalar};
ghost use Rattle.gm_semantics.specs.Faults.{then_with};
ghost use Rattle.gm_semantics.specs.Iterations as iterations;
ghost use Rattle.gm_semantics.specs.Iterations.{does};
ghost use Rattle.gm_loops.specs.Around.{loop_of, mode_in};
ghost use Rattle.gm_loops.specs.Bounds.{target_bound, targets_bound};
ghost use Rattle.gm_loops.specs.Goings.{Does, IsReady};
ghost use Rattle.gm_loops.specs.Targets.{pair_of, AreSeveral};
ghost use Rattle.gm_graph.specs.Serving.{Serve};
ghost use Rattle.gm_loops.specs.Asking.{reads_outward, value_outward};

use crate::around::{Around, Ends, Mode};
use crate::goings::Going;
use crate::parts::Answer;
use gm_ast::tree::{Expr, Key, Target, TotalKey};
use gm_base::NoMemory;
use gm_semantics::faults::Fault;
use gm_semantics::slots::{Slot, Write};
use gm_value::Reduce;

impl Going {
    // An assignment.
    pub(crate) fn assign(
        &mut self,
        key: Key,
        target: &Target,
        value: &Expr,
        mode: Mode,
        around: &Around,
    ) -> Result<(), NoMemory>
        requires ready { IsReady around.now.setting.now self.old }
        requires bound { target_bound target.now ≤ around.now.setting.now.variables }
        requires asked { Serve around.now.setting.now.in_rows.now (reads_outward (expr_of value.now)) }
        ensures { OnOk result (Does around.now.setting.now (mode_in around.now mode) self.old self.new (does (program.Assign key target.now (expr_of value.now)) (mode_in around.now mode) (loop_of around.now))) }
    {
        let answer = around.sight(mode, key).assigned(&self.store, target, value);
        self.put(answer)?;
        Ok(())
    }

    // A declaration without a value, which has the first one of its type.
    pub(crate) fn declare_first(&mut self, x: u32, around: &Around) -> Result<(), NoMemory>
        requires ready { IsReady around.now.setting.now self.old }
        requires bound { x < around.now.setting.now.variables }
        ensures { OnOk result ((m : iterations.Mode) (key : Key) → Does around.now.setting.now m self.old self.new (does (program.Declare key x None) m (loop_of around.now))) }
    {
        let value = around.setting.variable(x).vtype.zero();
        self.write(Write {
            slot: Slot::Scalar(x),
            value,
        })?;
        Ok(())
    }

    // A declaration with a value.
    pub(crate) fn declare_value(
        &mut self,
        key: Key,
        x: u32,
        value: &Expr,
        mode: Mode,
        around: &Around,
    ) -> Result<(), NoMemory>
        requires ready { IsReady around.now.setting.now self.old }
        requires bound { x < around.now.setting.now.variables }
        requires asked { Serve around.now.setting.now.in_rows.now (reads_outward (expr_of value.now)) }
        ensures { OnOk result (Does around.now.setting.now (mode_in around.now mode) self.old self.new (does (program.Declare key x (Some (expr_of value.now))) (mode_in around.now mode) (loop_of around.now))) }
    {
        let answer = around.sight(mode, key).value(value, &self.store);
        self.put(for_scalar(x, answer))?;
        Ok(())
    }

    // A declaration.
    #[tactic(auto, using(crate::proofs::Serving::some_value))]
    pub(crate) fn declare(
        &mut self,
        key: Key,
        x: u32,
        value: &Option<Expr>,
        mode: Mode,
        around: &Around,
    ) -> Result<(), NoMemory>
        requires ready { IsReady around.now.setting.now self.old }
        requires bound { x < around.now.setting.now.variables }
        requires asked { Serve around.now.setting.now.in_rows.now (value_outward (option_map expr_of value.now)) }
        ensures { OnOk result (Does around.now.setting.now (mode_in around.now mode) self.old self.new (does (program.Declare key x (option_map expr_of value.now)) (mode_in around.now mode) (loop_of around.now))) }
    {
        match value {
            None => self.declare_first(x, around)?,
            Some(value) => self.declare_value(key, x, value, mode, around)?,
        }
        Ok(())
    }

    // A deferred assignment in an outer body.
    pub(crate) fn assign_deferred(
        &mut self,
        key: Key,
        target: &Target,
        value: &Expr,
        around: &Around,
    ) -> Result<(), NoMemory>
        requires ready { IsReady around.now.setting.now self.old }
        requires bound { target_bound target.now ≤ around.now.setting.now.variables }
        requires asked { Serve around.now.setting.now.in_rows.now (reads_outward (expr_of value.now)) }
        ensures { OnOk result (Does around.now.setting.now iterations.Outermost self.old self.new (does (program.Defer key target.now (expr_of value.now)) iterations.Outermost (loop_of around.now))) }
    {
        let answer = around
            .sight(Mode::Outermost, key)
            .assigned(&self.store, target, value);
        self.defer(answer)?;
        Ok(())
    }

    // A reduction assignment to one target: a write at once, or a contribution.
    pub(crate) fn reduce(
        &mut self,
        key: Key,
        total: TotalKey,
        reduce: Reduce,
        target: &Target,
        value: &Expr,
        mode: Mode,
        around: &Around,
    ) -> Result<(), NoMemory>
        requires ready { IsReady around.now.setting.now self.old }
        requires bound { target_bound target.now ≤ around.now.setting.now.variables }
        requires asked { Serve around.now.setting.now.in_rows.now (reads_outward (expr_of value.now)) }
        ensures { OnOk result (Does around.now.setting.now (mode_in around.now mode) self.old self.new (does (program.Combine key total reduce (target.now ∷ []) (expr_of value.now ∷ [])) (mode_in around.now mode) (loop_of around.now))) }
    {
        let sight = around.sight(mode, key);
        match (around.ends_of(mode, target), mode) {
            (Ends::AtOnce, _) => {
                let answer = sight.at_once(&self.store, total.place, reduce, target, value);
                self.put(answer)?;
            }
            (Ends::WithInner, Mode::AtEdge(_)) => {
                let answer = sight.assigned(&self.store, target, value);
                self.add_inner(total, reduce, answer)?;
            }
            (Ends::WithInner, Mode::Outermost) => unreachable!(),
            (Ends::WithOutermost, _) => {
                let answer = sight.assigned(&self.store, target, value);
                self.add_outermost(total, reduce, answer)?;
            }
        }
        Ok(())
    }

    // An argument reduction, whose targets count as one: writes at once, or a contribution.
    fn reduce_tuple(
        &mut self,
        key: Key,
        total: TotalKey,
        reduce: Reduce,
        targets: &[Target],
        values: &[Expr],
        mode: Mode,
        around: &Around,
    ) -> Result<(), NoMemory>
        requires ready { IsReady around.now.setting.now self.old }
        requires bound { targets_bound targets.now ≤ around.now.setting.now.variables }
        requires several { AreSeveral targets.now values.now }
        requires asked { Serve around.now.setting.now.in_rows.now (list_all reads_outward (map expr_of values.now)) }
        ensures { OnOk result (Does around.now.setting.now (mode_in around.now mode) self.old self.new (does (program.Combine key total reduce targets.now (map expr_of values.now)) (mode_in around.now mode) (loop_of around.now))) }
    {
        let sight = around.sight(mode, key);
        match (around.ends_of_all(mode, targets), mode) {
            (Ends::AtOnce, _) => {
                let place = total.place;
                let answer = sight.together(
                    self.alloc,
                    &self.store,
                    place,
                    reduce,
                    targets,
                    values,
                )?;
                self.put_all(answer)?;
            }
            (Ends::WithInner, Mode::AtEdge(_)) => {
                let answer = sight.assigned_all(self.alloc, &self.store, targets, values)?;
                self.add_inner_all(total, reduce, answer)?;
            }
            (Ends::WithInner, Mode::Outermost) => unreachable!(),
            (Ends::WithOutermost, _) => {
                let answer = sight.assigned_all(self.alloc, &self.store, targets, values)?;
                self.add_outermost_all(total, reduce, answer)?;
            }
        }
        Ok(())
    }

    // A reduction assignment to a list of targets. One with one target and one value goes a fast way.
    #[tactic(auto, using(crate::proofs::Serving::value_item))]
    pub(crate) fn reduce_all(
        &mut self,
        key: Key,
        total: TotalKey,
        reduce: Reduce,
        targets: &[Target],
        values: &[Expr],
        mode: Mode,
        around: &Around,
    ) -> Result<(), NoMemory>
        requires ready { IsReady around.now.setting.now self.old }
        requires bound { targets_bound targets.now ≤ around.now.setting.now.variables }
        requires asked { Serve around.now.setting.now.in_rows.now (list_all reads_outward (map expr_of values.now)) }
        ensures { OnOk result (Does around.now.setting.now (mode_in around.now mode) self.old self.new (does (program.Combine key total reduce targets.now (map expr_of values.now)) (mode_in around.now mode) (loop_of around.now))) }
    {
        if targets.len() == 1 && values.len() == 1 {
            self.reduce(key, total, reduce, &targets[0], &values[0], mode, around)?;
        } else {
            self.reduce_tuple(key, total, reduce, targets, values, mode, around)?;
        }
        Ok(())
    }
}

// A value for a scalar.
fn for_scalar(x: u32, answer: Answer) -> Result<Write, Fault>
    ensures pair { pair_of result ≡ then_with answer (λ v. Ok (Scalar x, v)) }
    ensures slot { IfOk result (λ w. w.slot ≡ Scalar x) }
{
    match answer {
        Ok(value) => Ok(Write {
            slot: Slot::Scalar(x),
            value,
        }),
        Err(fault) => Err(fault),
    }
}
