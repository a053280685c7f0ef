//! How an iteration of a loop begins, and how an inner loop ends.

ghost use Rattle.std.specs.Prelude.{◌≡◌, ◌<◌, All, IfOk, OnOk, map};
ghost use Rattle.gm_ast.specs.Tree.{expr_of};
ghost use Rattle.gm_semantics.specs.Expressions.{steps_in};
ghost use Rattle.gm_semantics.specs.Iterations.{Outermost, begun, turn_at, view_in};
ghost use Rattle.gm_store.specs.Held.{HasSlot, shape_of};
ghost use Rattle.gm_totals.specs.Standing.{Within};
ghost use Rattle.gm_loops.specs.declared.sights.Setting.{Setting};
ghost use Rattle.gm_loops.specs.Around.{loop_of, mode_in};
ghost use Rattle.gm_loops.specs.Goings.{IsReady};
ghost use Rattle.gm_loops.specs.Parts.{sooner};
ghost use Rattle.gm_loops.specs.Ranges.{step_of};
ghost use Rattle.gm_loops.specs.Turns.{seen, Begins, Closes, Keeps, Overlays};
ghost use Rattle.gm_graph.specs.Serving.{Serve};
ghost use Rattle.gm_loops.specs.Asking.{reads_outward, runs_outward};

use crate::around::{Around, Mode};
use crate::goings::Going;
use crate::parts::is_true;
use crate::ranges::Hop;
use crate::scopes::Scope;
use gm_ast::tree::{Expr, Head, Key};
use gm_base::NoMemory;
use gm_semantics::faults::Fault;
use gm_semantics::slots::{Slot, Write};
use gm_store::Store;
use gm_totals::lesser;
use gm_value::Value;
use std::mem::replace;

// The lesser of what may be two faults.
pub(crate) fn sooner(a: Option<Fault>, b: Option<Fault>) -> Option<Fault>
    ensures { result ≡ sooner a b }
{
    match a {
        None => b,
        Some(fault) => lesser(fault, b),
    }
}

// Keeps the lesser of what may be two faults.
#[tactic(auto, using(crate::proofs::Parting::sooner_none))]
#[inline(always)]
pub(crate) fn keep_least(least: &mut Option<Fault>, fault: &Option<Fault>)
    ensures { least.new ≡ sooner least.old fault.now }
{
    if let Some(_) = fault {
        *least = sooner(*least, *fault);
    }
}

// Writes in order, of which the last to a slot counts. They are logged.
fn write_all(store: &mut Store, writes: &[Write]) -> Result<(), NoMemory>
    requires { All (λ w. HasSlot (shape_of store.old) w.slot) writes.now }
    ensures { OnOk result (Overlays store.old store.new writes.now) }
{
    for write in writes {
        store.write(write.slot, write.value)?;
    }
    Ok(())
}

impl Going {
    // Begins an iteration with a node in its iterator, and answers whether its filter passes it.
    pub(crate) fn begins(
        &mut self,
        key: Key,
        iterator: u32,
        filter: &Expr,
        node: u32,
        mode: Mode,
        around: &Around,
    ) -> Result<bool, NoMemory>
        requires ready { IsReady around.now.setting.now self.old }
        requires bound { iterator < around.now.setting.now.variables }
        requires asked { Serve around.now.setting.now.in_rows.now (reads_outward (expr_of filter.now)) }
        ensures { IfOk result (λ passed. Begins around.now.setting.now (mode_in around.now mode) self.old self.new passed
            (λ body s. turn_at (loop_of around.now) (mode_in around.now mode) key (expr_of filter.now) body iterator node s)) }
    {
        self.fault = None;
        self.write(Write {
            slot: Slot::Scalar(iterator),
            value: Value::At(Some(node)),
        })?;
        match around.sight(mode, key).value(filter, &self.store) {
            Ok(passed) => Ok(is_true(passed)),
            Err(fault) => {
                self.fail(fault);
                Ok(false)
            }
        }
    }

    // The steps of an inner loop, in the room that is kept for them.
    pub(crate) fn inner_steps(
        &mut self,
        key: Key,
        head: &Head,
        around: &Around,
    ) -> Result<Vec<Hop>, NoMemory>
        requires ready { IsReady around.now.setting.now self.old }
        requires asked { Serve around.now.setting.now.in_rows.now (runs_outward head.now.domain) }
        ensures steps { IfOk result (λ hops. map (step_of around.now.setting.now.graph.now) hops.items
            ≡ steps_in (view_in (loop_of around.now) Outermost (begun (seen around.now.setting.now self.old)) key) head.now) }
        ensures keeps { Keeps self.old self.new }
    {
        let mut hops = replace(&mut self.hops, Vec::new(self.alloc));
        let sight = around.sight(Mode::Outermost, key);
        sight
            .range(&Scope::Nothing, &self.store, head)
            .gather(&mut hops)?;
        Ok(hops)
    }

    // The end of an inner loop: its totals are closed, and its fault is the least of its iterations and totals.
    pub(crate) fn close_inner(&mut self, least: Option<Fault>) -> Result<(), NoMemory>
        requires { Within (shape_of self.old.store) self.old.inner }
        ensures { OnOk result ((f : Setting) → Closes f self.old self.new least) }
    {
        if self.inner.is_empty() {
            self.fault = least;
            return Ok(());
        }
        let closed = self.inner.closed(self.alloc, &self.store)?;
        self.inner.clear();
        self.fault = sooner(least, closed.fault);
        write_all(&mut self.store, closed.writes.as_slice())?;
        Ok(())
    }
}
