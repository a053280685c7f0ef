//! Parallel loops of sequential phases.

ghost use Rattle.std.specs.Prelude.{◌≡◌, ◌<◌, ◌≤◌, ◌∷◌, ◌++◌, [], List, All, IfOk, OnOk, length, map, slice_index_or, ℕ};
ghost use Rattle.gm_model.specs.Graphs.{node_count};
ghost use Rattle.gm_ast.specs.Tree.{expr_of};
ghost use Rattle.gm_semantics.specs.Iterations as iterations;
ghost use Rattle.gm_semantics.specs.Iterations.{does};
ghost use Rattle.gm_semantics.specs.Loops.{iteration, parallel};
ghost use Rattle.gm_store.specs.Held.{shape_of, store_of, HasSlot};
ghost use Rattle.gm_totals.specs.Standing.{Within};
ghost use Rattle.gm_loops.specs.declared.sights.Setting.{Setting};
ghost use Rattle.gm_loops.specs.Around.{body_of, loop_of};
ghost use Rattle.gm_loops.specs.Bounds.{bound_of};
ghost use Rattle.gm_loops.specs.Filters.{IsFilter};
ghost use Rattle.gm_loops.specs.Goings.{Before, Does, IsReady};
ghost use Rattle.gm_loops.specs.LoopEnds.{ended, nodes_in, AtRest, Finishes};
ghost use Rattle.gm_loops.specs.Sights.{edges_in, Fits};
ghost use Rattle.gm_loops.specs.Turns.{seen, DoesTurn, DoesTurns, Follows, KeepsOwn};
ghost use Rattle.gm_graph.specs.Serving.{Serve};
ghost use Rattle.gm_loops.specs.Asking.{goes_outward, reads_outward};

use crate::around::{Around, Body, Mode};
use crate::goings::Going;
use crate::own::{keep_own, set_all};
use crate::turns::{keep_least, sooner};
use gm_ast::tree::{Expr, Key};
use gm_base::NoMemory;
use gm_columns::Cells;
use gm_semantics::faults::Fault;
use gm_semantics::slots::Write;
use gm_store::Store;
use gm_totals::Totals;
use std::alloc::Global;

/// The nodes of a loop, by their indices: all below a count, or some, in their order.
#[derive(Clone, Copy)]
pub enum LoopNodes<'a> {
    Below(u32),
    Listed(&'a [u32]),
}

impl Going {
    /// No loop has begun on a store. It takes no memory.
    pub fn new(alloc: Global, store: Store) -> Self
        ensures store { result.store ≡ store }
        ensures rest { (f : Setting) → Fits f store → store.undo ≡ [] → AtRest f result }
    {
        Going {
            alloc,
            store,
            inner: Totals::new(alloc),
            outermost: Totals::new(alloc),
            deferred: Vec::new(alloc),
            fault: None,
            hops: Vec::new(alloc),
        }
    }

    /// Runs a parallel loop over some nodes of the graph: where it answers no fault the store is the one after the
    /// loop, and else the fault is the least one of its iterations and of their totals, and what the store holds then
    /// counts for nothing.
    pub fn parallel(
        &mut self,
        around: &Around,
        key: Key,
        filter: &Expr,
        nodes: LoopNodes,
    ) -> Result<Option<Fault>, NoMemory>
        requires rest { AtRest around.now.setting.now self.old }
        requires iterator { around.now.outer < around.now.setting.now.variables }
        requires bound { bound_of (body_of around.now.body) ≤ around.now.setting.now.variables }
        requires known { All (λ n. n < node_count around.now.setting.now.graph.now) (nodes_in nodes) }
        requires filter_asked { Serve around.now.setting.now.in_rows.now (reads_outward (expr_of filter.now)) }
        requires body_asked { Serve around.now.setting.now.in_rows.now (goes_outward (body_of around.now.body)) }
        ensures meaning { IfOk result (λ fault.
            ended fault (store_of (edges_in around.now.setting.now) self.new.store)
            ≡ parallel (loop_of around.now) key (expr_of filter.now) (body_of around.now.body) (nodes_in nodes.entry)
            (store_of (edges_in around.now.setting.now) self.old.store)) }
        ensures rest { IfOk result (λ fault. AtRest around.now.setting.now self.new) }
    {
        if self.renews(around, filter, nodes)? {
            return Ok(None);
        }
        self.turn_by_turn(around, key, filter, nodes)
    }

    // A parallel loop, done iteration by iteration.
    fn turn_by_turn(
        &mut self,
        around: &Around,
        key: Key,
        filter: &Expr,
        nodes: LoopNodes,
    ) -> Result<Option<Fault>, NoMemory>
        requires rest { AtRest around.now.setting.now self.old }
        requires iterator { around.now.outer < around.now.setting.now.variables }
        requires bound { bound_of (body_of around.now.body) ≤ around.now.setting.now.variables }
        requires known { All (λ n. n < node_count around.now.setting.now.graph.now) (nodes_in nodes) }
        requires filter_asked { Serve around.now.setting.now.in_rows.now (reads_outward (expr_of filter.now)) }
        requires body_asked { Serve around.now.setting.now.in_rows.now (goes_outward (body_of around.now.body)) }
        ensures meaning { IfOk result (λ fault.
            ended fault (store_of (edges_in around.now.setting.now) self.new.store)
            ≡ parallel (loop_of around.now) key (expr_of filter.now) (body_of around.now.body) (nodes_in nodes.entry)
            (store_of (edges_in around.now.setting.now) self.old.store)) }
        ensures rest { IfOk result (λ fault. AtRest around.now.setting.now self.new) }
    {
        let passing = self.passing(around, key, filter, nodes)?;
        let mut own = Vec::new(self.alloc);
        let least = self.outer_turns(around, key, filter, nodes, &passing, &mut own)?;
        set_all(&mut self.store, own.as_slice())?;
        let fault = self.close_outermost(least)?;
        Ok(fault)
    }

    // The iterations of an outermost loop, and their least fault. The store is as it was, and what they wrote at their
    // own nodes is kept apart.
    fn outer_turns(
        &mut self,
        around: &Around,
        key: Key,
        filter: &Expr,
        nodes: LoopNodes,
        passing: &Option<Cells>,
        own: &mut Vec<Write>,
    ) -> Result<Option<Fault>, NoMemory>
        requires rest { AtRest around.now.setting.now self.old }
        requires iterator { around.now.outer < around.now.setting.now.variables }
        requires bound { bound_of (body_of around.now.body) ≤ around.now.setting.now.variables }
        requires filter { IsFilter around.now key (expr_of filter.now) (seen around.now.setting.now self.old) passing.now }
        requires none { own.old.items ≡ [] }
        requires filter_asked { Serve around.now.setting.now.in_rows.now (reads_outward (expr_of filter.now)) }
        requires body_asked { Serve around.now.setting.now.in_rows.now (goes_outward (body_of around.now.body)) }
        ensures turns { IfOk result (λ fault. DoesTurns around.now.setting.now iterations.Outermost self.old self.new fault
            (λ s. map (iteration (loop_of around.now) key (expr_of filter.now) (body_of around.now.body) s) (nodes_in nodes.entry))) }
        ensures own { let s = seen around.now.setting.now self.old in IfOk result (λ fault. KeepsOwn s own.new.items (nodes_in nodes.entry)
            (iteration (loop_of around.now) key (expr_of filter.now) (body_of around.now.body) s)) }
        ensures slots { IfOk result (λ fault. All (λ w. HasSlot (shape_of self.old.store) w.slot) own.new.items) }
    {
        let mut least = None;
        for k in 0..nodes.count() {
            self.outer_turn(around, key, filter, passing, nodes.at(k), own)?;
            keep_least(&mut least, &self.fault);
        }
        Ok(least)
    }

    // One iteration of an outermost loop, after which the store is as it was. What it wrote at its own node is kept.
    #[inline(always)]
    fn outer_turn(
        &mut self,
        around: &Around,
        key: Key,
        filter: &Expr,
        passing: &Option<Cells>,
        node: u32,
        own: &mut Vec<Write>,
    ) -> Result<(), NoMemory>
        requires ready { IsReady around.now.setting.now self.old }
        requires quiet { self.old.store.undo ≡ [] }
        requires iterator { around.now.outer < around.now.setting.now.variables }
        requires bound { bound_of (body_of around.now.body) ≤ around.now.setting.now.variables }
        requires filter { IsFilter around.now key (expr_of filter.now) (seen around.now.setting.now self.old) passing.now }
        requires slots { All (λ w. HasSlot (shape_of self.old.store) w.slot) own.old.items }
        requires filter_asked { Serve around.now.setting.now.in_rows.now (reads_outward (expr_of filter.now)) }
        requires body_asked { Serve around.now.setting.now.in_rows.now (goes_outward (body_of around.now.body)) }
        ensures turn { OnOk result (DoesTurns around.now.setting.now iterations.Outermost self.old self.new self.new.fault
            (λ s. iteration (loop_of around.now) key (expr_of filter.now) (body_of around.now.body) s node ∷ [])) }
        ensures own { let s = seen around.now.setting.now self.old in
            let turn = iteration (loop_of around.now) key (expr_of filter.now) (body_of around.now.body) s in
            OnOk result ((b : Before) (ks : List ℕ) → Follows iterations.Outermost b self.old → KeepsOwn s own.old.items ks turn → KeepsOwn s own.new.items (ks ++ node ∷ []) turn) }
        ensures slots { OnOk result (All (λ w. HasSlot (shape_of self.old.store) w.slot) own.new.items) }
    {
        match self.deed_by(key, filter, passing, node, around) {
            Some(deed) => {
                self.take(deed)?;
                deed.keep(own)?;
            }
            None => self.long_turn(around, key, filter, node, own)?,
        }
        Ok(())
    }

    // One iteration of an outermost loop, done in the store and taken back. What it wrote at its own node is kept.
    fn long_turn(
        &mut self,
        around: &Around,
        key: Key,
        filter: &Expr,
        node: u32,
        own: &mut Vec<Write>,
    ) -> Result<(), NoMemory>
        requires ready { IsReady around.now.setting.now self.old }
        requires quiet { self.old.store.undo ≡ [] }
        requires iterator { around.now.outer < around.now.setting.now.variables }
        requires bound { bound_of (body_of around.now.body) ≤ around.now.setting.now.variables }
        requires slots { All (λ w. HasSlot (shape_of self.old.store) w.slot) own.old.items }
        requires filter_asked { Serve around.now.setting.now.in_rows.now (reads_outward (expr_of filter.now)) }
        requires body_asked { Serve around.now.setting.now.in_rows.now (goes_outward (body_of around.now.body)) }
        ensures turn { OnOk result (DoesTurns around.now.setting.now iterations.Outermost self.old self.new self.new.fault
            (λ s. iteration (loop_of around.now) key (expr_of filter.now) (body_of around.now.body) s node ∷ [])) }
        ensures own { let s = seen around.now.setting.now self.old in
            let turn = iteration (loop_of around.now) key (expr_of filter.now) (body_of around.now.body) s in
            OnOk result ((b : Before) (ks : List ℕ) → Follows iterations.Outermost b self.old → KeepsOwn s own.old.items ks turn → KeepsOwn s own.new.items (ks ++ node ∷ []) turn) }
        ensures slots { OnOk result (All (λ w. HasSlot (shape_of self.old.store) w.slot) own.new.items) }
    {
        self.run_turn(around, key, filter, node)?;
        keep_own(&self.store, node, own)?;
        self.store.roll_back(0)?;
        Ok(())
    }

    // What one iteration of an outermost loop does.
    fn run_turn(
        &mut self,
        around: &Around,
        key: Key,
        filter: &Expr,
        node: u32,
    ) -> Result<(), NoMemory>
        requires ready { IsReady around.now.setting.now self.old }
        requires iterator { around.now.outer < around.now.setting.now.variables }
        requires bound { bound_of (body_of around.now.body) ≤ around.now.setting.now.variables }
        requires filter_asked { Serve around.now.setting.now.in_rows.now (reads_outward (expr_of filter.now)) }
        requires body_asked { Serve around.now.setting.now.in_rows.now (goes_outward (body_of around.now.body)) }
        ensures { OnOk result (DoesTurn around.now.setting.now iterations.Outermost self.old self.new
            (λ s. iteration (loop_of around.now) key (expr_of filter.now) (body_of around.now.body) s node)) }
    {
        if self.begins(key, around.outer, filter, node, Mode::Outermost, around)? {
            self.does_body(around)?;
        }
        Ok(())
    }

    // What the body of an outermost loop does.
    fn does_body(&mut self, around: &Around) -> Result<(), NoMemory>
        requires ready { IsReady around.now.setting.now self.old }
        requires bound { bound_of (body_of around.now.body) ≤ around.now.setting.now.variables }
        requires asked { Serve around.now.setting.now.in_rows.now (goes_outward (body_of around.now.body)) }
        ensures { OnOk result (Does around.now.setting.now iterations.Outermost self.old self.new (does (body_of around.now.body) iterations.Outermost (loop_of around.now))) }
    {
        match around.body {
            Body::Statement(body) => self.does(body, Mode::Outermost, around)?,
            Body::Assignment { key, target, value } => {
                self.assign(key, &target, value, Mode::Outermost, around)?;
            }
        }
        Ok(())
    }

    // The end of an outermost loop: its totals are closed, and then the deferred writes are done.
    fn close_outermost(&mut self, least: Option<Fault>) -> Result<Option<Fault>, NoMemory>
        requires within { Within (shape_of self.old.store) self.old.outermost }
        requires deferred { All (λ w. HasSlot (shape_of self.old.store) w.slot) self.old.deferred.items }
        ensures { IfOk result (λ fault. Finishes self.old self.new least fault) }
    {
        let closed = self.outermost.closed(self.alloc, &self.store)?;
        self.outermost.clear();
        set_all(&mut self.store, closed.writes.as_slice())?;
        set_all(&mut self.store, self.deferred.as_slice())?;
        self.deferred.clear();
        Ok(sooner(least, closed.fault))
    }
}

impl LoopNodes<'_> {
    // How many nodes there are.
    fn count(&self) -> usize
        ensures { result ≡ length (nodes_in self.now) }
    {
        match self {
            LoopNodes::Below(count) => *count as usize,
            LoopNodes::Listed(nodes) => nodes.len(),
        }
    }

    // The k-th node.
    #[inline(always)]
    fn at(&self, k: usize) -> u32
        requires { k < length (nodes_in self.now) }
        ensures { (d : ℕ) → result ≡ slice_index_or (nodes_in self.now) k d }
    {
        match self {
            LoopNodes::Below(count) => {
                // Read, so that its range is known.
                let _count = *count;
                k as u32
            }
            LoopNodes::Listed(nodes) => listed(nodes, k),
        }
    }
}

// The k-th of some nodes.
fn listed(nodes: &[u32], k: usize) -> u32
    requires { k < length nodes.now }
    ensures { (d : ℕ) → result ≡ slice_index_or nodes.now k d }
{
    nodes[k]
}
