//! A run of a procedure's body so far, and the statements that hold no other.

ghost use Rattle.std.specs.Prelude.{◌≡◌, ◌<◌, ◌≤◌, ℕ, suc, ◌∷◌, [], nat_lt, IsTrue, IfOk, OnOk, All, length, map, option_map};
ghost use Rattle.gm_model.specs.Graphs.{node_count};
ghost use Rattle.gm_ast.specs.Program as program;
ghost use Rattle.gm_ast.specs.Tree.{expr_of, stmt_of};
ghost use Rattle.gm_semantics.specs.Expressions.{value};
ghost use Rattle.gm_semantics.specs.Statements.{sequential, declared, loops, writes, writes_all};
ghost use Rattle.gm_semantics.specs.Stores.{write_all};
ghost use Rattle.gm_store.specs.Held.{Held, HasSlot, shape_of, store_of};
ghost use Rattle.gm_loops.specs.Around.{body_of};
ghost use Rattle.gm_loops.specs.Bounds.{bound_of, target_bound, targets_bound};
ghost use Rattle.gm_loops.specs.LoopEnds.{nodes_in, AtRest};
ghost use Rattle.gm_loops.specs.Scopes.{no_scope};
ghost use Rattle.gm_loops.specs.Sights.{level_in, view_of, Fits};
ghost use Rattle.gm_loops.specs.Targets.{pair_of, tuple_of, AreSeveral};
ghost use Rattle.gm_meaning.specs.Phases.{run_of, state_in, state_of, seen_by, Runs};
ghost use Rattle.std.specs.List.{list_all};
ghost use Rattle.gm_graph.specs.Serving.{Serve};
ghost use Rattle.gm_loops.specs.Asking.{goes_outward, reads_outward};

use gm_ast::tree::{Expr, Head, Key, Sort, Stmt, Target, TotalKey, Variable};
use gm_base::{NoMemory, Place};
use gm_loops::{Answer, Around, Body, Going, LoopNodes, Setting, Sight, Tuple};
use gm_semantics::faults::Fault;
use gm_semantics::slots::{Slot, Write};
use gm_store::Store;
use gm_value::{Reduce, Value};

// What a statement leads to: the next one, the end of the procedure, a fault, or the cut.
#[derive(Clone, Copy)]
pub(crate) enum Course {
    Goes,
    Returns(Option<Value>),
    Faults(Fault),
    Stops,
}

// A run so far: the store, with nothing that waits for a loop's end, and how many turns have begun.
#[derive(Drop)]
pub(crate) struct Phase {
    pub going: Going,
    pub turns: u64,
}

// What the operators of a statement see.
pub(crate) fn sight<'a>(setting: &'a Setting<'a>, key: Key) -> Sight<'a>
    ensures setting { result.setting.now ≡ setting.now }
    ensures seen { (h : Held) (turns : ℕ) → view_of result no_scope h ≡ seen_by setting.now (state_in setting.now h turns) key }
{
    Sight {
        setting,
        levels: None,
        parallel: false,
        row: None,
        key,
    }
}

// Sets a variable to the first value of its type, a property at every node. Other variables hold no value of their own.
fn set_first(store: &mut Store, variable: Variable, x: u32)
    requires scalars { x < length store.old.scalars }
    requires rows { x < length store.old.rows }
    ensures store { (edge : ℕ → ℕ → Value) → store_of edge store.new ≡ declared variable.sort variable.vtype x (store_of edge store.old) }
    ensures undo { store.new.undo ≡ store.old.undo }
    ensures shape { shape_of store.new ≡ shape_of store.old }
{
    match variable.sort {
        Sort::Scalar => store.set_scalar(x, variable.vtype.zero()),
        Sort::NodeProperty => store.fill(x, variable.vtype.zero()),
        _ => {}
    }
}

// Sets slots to values, one after another.
fn set_each(store: &mut Store, slots: &[Slot], values: &[Value]) -> Result<(), NoMemory>
    requires { All (HasSlot (shape_of store.old)) slots.now }
    ensures store { OnOk result ((edge : ℕ → ℕ → Value) → store_of edge store.new ≡ write_all (store_of edge store.old) slots.now values.now) }
    ensures undo { OnOk result (store.new.undo ≡ store.old.undo) }
    ensures shape { OnOk result (shape_of store.new ≡ shape_of store.old) }
{
    let count = slots.len().min(values.len());
    for k in 0..count {
        store.set(slots[k], values[k])?;
    }
    Ok(())
}

impl Phase {
    // The value of an expression.
    pub fn value(&self, setting: &Setting, key: Key, e: &Expr) -> Answer
        requires fits { Fits setting.now self.now.going.store }
        requires asked { Serve setting.now.in_rows.now (reads_outward (expr_of e.now)) }
        ensures { result ≡ value (expr_of e.now) (seen_by setting.now (state_of setting.now self.now) key) }
    {
        sight(setting, key).value(e, &self.going.store)
    }

    // One more turn, if the bound leaves one.
    pub fn begin_turn(&mut self, setting: &Setting) -> bool
        ensures within { result ≡ nat_lt self.old.turns setting.now.bound }
        ensures turns { IsTrue result → self.new.turns ≡ suc self.old.turns }
        ensures going { self.new.going ≡ self.old.going }
    {
        if self.turns < setting.bound {
            self.turns += 1;
            true
        } else {
            false
        }
    }

    // A write, or a fault.
    pub fn writes(
        &mut self,
        setting: &Setting,
        answer: Result<Write, Fault>,
    ) -> Result<Course, NoMemory>
        requires rest { AtRest setting.now self.old.going }
        requires known { IfOk answer (λ w. HasSlot (shape_of self.old.going.store) w.slot) }
        ensures { IfOk result (λ c. Runs setting.now self.old self.new c (λ s. writes s (pair_of answer))) }
    {
        match answer {
            Ok(write) => {
                self.going.store.set(write.slot, write.value)?;
                Ok(Course::Goes)
            }
            Err(fault) => Ok(Course::Faults(fault)),
        }
    }

    // A declaration without a value sets the first one of its type anew.
    pub fn declare_first(&mut self, setting: &Setting, key: Key, x: u32) -> Course
        requires rest { AtRest setting.now self.old.going }
        requires bound { x < setting.now.variables }
        ensures { Runs setting.now self.old self.new result (sequential (program.Declare key x None) (run_of setting.now)) }
    {
        set_first(&mut self.going.store, setting.variable(x), x);
        Course::Goes
    }

    // A declaration with a value.
    pub fn declare_value(&mut self, setting: &Setting, key: Key, x: u32, e: &Expr) -> Course
        requires rest { AtRest setting.now self.old.going }
        requires bound { x < setting.now.variables }
        requires asked { Serve setting.now.in_rows.now (reads_outward (expr_of e.now)) }
        ensures { Runs setting.now self.old self.new result (sequential (program.Declare key x (Some (expr_of e.now))) (run_of setting.now)) }
    {
        match self.value(setting, key, e) {
            Ok(value) => {
                self.going.store.set_scalar(x, value);
                Course::Goes
            }
            Err(fault) => Course::Faults(fault),
        }
    }

    // An assignment.
    pub fn assign(
        &mut self,
        setting: &Setting,
        key: Key,
        target: &Target,
        e: &Expr,
    ) -> Result<Course, NoMemory>
        requires rest { AtRest setting.now self.old.going }
        requires bound { target_bound target.now ≤ setting.now.variables }
        requires asked { Serve setting.now.in_rows.now (reads_outward (expr_of e.now)) }
        ensures { IfOk result (λ c. Runs setting.now self.old self.new c (sequential (program.Assign key target.now (expr_of e.now)) (run_of setting.now))) }
    {
        let answer = sight(setting, key).assigned(&self.going.store, target, e);
        self.writes(setting, answer)
    }

    // A reduction assignment to one target, which is done at once.
    pub fn reduce(
        &mut self,
        setting: &Setting,
        key: Key,
        total: TotalKey,
        reduce: Reduce,
        target: &Target,
        e: &Expr,
    ) -> Result<Course, NoMemory>
        requires rest { AtRest setting.now self.old.going }
        requires bound { target_bound target.now ≤ setting.now.variables }
        requires asked { Serve setting.now.in_rows.now (reads_outward (expr_of e.now)) }
        ensures { IfOk result (λ c. Runs setting.now self.old self.new c (sequential (program.Combine key total reduce (target.now ∷ []) (expr_of e.now ∷ [])) (run_of setting.now))) }
    {
        let answer = sight(setting, key).at_once(&self.going.store, total.place, reduce, target, e);
        self.writes(setting, answer)
    }

    // Writes to several slots, or a fault.
    fn writes_all(
        &mut self,
        setting: &Setting,
        answer: Result<Tuple, Fault>,
    ) -> Result<Course, NoMemory>
        requires rest { AtRest setting.now self.old.going }
        requires known { IfOk answer (λ t. All (HasSlot (shape_of self.old.going.store)) t.slots.items) }
        ensures { IfOk result (λ c. Runs setting.now self.old self.new c (λ s. writes_all s (tuple_of answer))) }
    {
        match answer {
            Ok(tuple) => {
                set_each(
                    &mut self.going.store,
                    tuple.slots.as_slice(),
                    tuple.values.as_slice(),
                )?;
                Ok(Course::Goes)
            }
            Err(fault) => Ok(Course::Faults(fault)),
        }
    }

    // An argument reduction, which is done at once.
    fn reduce_tuple(
        &mut self,
        setting: &Setting,
        key: Key,
        total: TotalKey,
        reduce: Reduce,
        targets: &[Target],
        values: &[Expr],
    ) -> Result<Course, NoMemory>
        requires rest { AtRest setting.now self.old.going }
        requires bound { targets_bound targets.now ≤ setting.now.variables }
        requires several { AreSeveral targets.now values.now }
        requires asked { Serve setting.now.in_rows.now (list_all reads_outward (map expr_of values.now)) }
        ensures { IfOk result (λ c. Runs setting.now self.old self.new c (sequential (program.Combine key total reduce targets.now (map expr_of values.now)) (run_of setting.now))) }
    {
        let place = total.place;
        let answer = sight(setting, key).together(
            self.going.alloc,
            &self.going.store,
            place,
            reduce,
            targets,
            values,
        )?;
        self.writes_all(setting, answer)
    }

    // A reduction assignment to a list of targets, which is done at once. One with one target and one value goes a fast
    // way.
    pub fn reduces(
        &mut self,
        setting: &Setting,
        key: Key,
        total: TotalKey,
        reduce: Reduce,
        targets: &[Target],
        values: &[Expr],
    ) -> Result<Course, NoMemory>
        requires rest { AtRest setting.now self.old.going }
        requires bound { targets_bound targets.now ≤ setting.now.variables }
        requires asked { Serve setting.now.in_rows.now (list_all reads_outward (map expr_of values.now)) }
        ensures { IfOk result (λ c. Runs setting.now self.old self.new c (sequential (program.Combine key total reduce targets.now (map expr_of values.now)) (run_of setting.now))) }
    {
        if targets.len() == 1 && values.len() == 1 {
            self.reduce(setting, key, total, reduce, &targets[0], &values[0])
        } else {
            self.reduce_tuple(setting, key, total, reduce, targets, values)
        }
    }

    // A parallel loop over nodes.
    pub fn loops(
        &mut self,
        around: &Around,
        key: Key,
        filter: &Expr,
        nodes: LoopNodes,
    ) -> Result<Course, NoMemory>
        requires rest { AtRest around.now.setting.now self.old.going }
        requires iterator { around.now.outer < around.now.setting.now.variables }
        requires bound { bound_of (body_of around.now.body) ≤ around.now.setting.now.variables }
        requires known { All (λ n. n < node_count around.now.setting.now.graph.now) (nodes_in nodes) }
        requires filter_asked { Serve around.now.setting.now.in_rows.now (reads_outward (expr_of filter.now)) }
        requires body_asked { Serve around.now.setting.now.in_rows.now (goes_outward (body_of around.now.body)) }
        ensures { IfOk result (λ c. Runs around.now.setting.now self.old self.new c
            (loops (run_of around.now.setting.now) (level_in (option_map (λ l. l.now) around.now.levels)) around.now.outer key
            (expr_of filter.now) (body_of around.now.body) (nodes_in nodes.entry))) }
    {
        let fault = self.going.parallel(around, key, filter, nodes)?;
        match fault {
            None => Ok(Course::Goes),
            Some(fault) => Ok(Course::Faults(fault)),
        }
    }

    // The assignment of a property at all nodes.
    pub fn group<'x>(
        &mut self,
        setting: &'x Setting<'x>,
        key: Key,
        place: Place,
        graph: u32,
        property: u32,
        e: &'x Expr,
    ) -> Result<Course, NoMemory>
        requires rest { AtRest setting.now self.old.going }
        requires graph { graph < setting.now.variables }
        requires property { property < setting.now.variables }
        requires asked { Serve setting.now.in_rows.now (reads_outward (expr_of e.now)) }
        ensures { IfOk result (λ c. Runs setting.now self.old self.new c (sequential (program.Group key place graph property (expr_of e.now)) (run_of setting.now))) }
    {
        let target = Target::Property {
            owner: graph,
            property,
            place,
        };
        let around = Around {
            setting,
            levels: None,
            outer: graph,
            body: Body::Assignment {
                key,
                target,
                value: e,
            },
        };
        let always = Expr::Const(Value::Flag(true));
        let nodes = LoopNodes::Below(setting.graph.node_count());
        self.loops(&around, key, &always, nodes)
    }

    // A parallel loop over all nodes.
    pub fn foreach<'x>(
        &mut self,
        setting: &'x Setting<'x>,
        key: Key,
        place: Place,
        head: &Head,
        filter: &Expr,
        body: &'x Stmt,
    ) -> Result<Course, NoMemory>
        requires rest { AtRest setting.now self.old.going }
        requires iterator { head.now.iterator < setting.now.variables }
        requires bound { bound_of (stmt_of body.now) ≤ setting.now.variables }
        requires filter_asked { Serve setting.now.in_rows.now (reads_outward (expr_of filter.now)) }
        requires body_asked { Serve setting.now.in_rows.now (goes_outward (stmt_of body.now)) }
        ensures { IfOk result (λ c. Runs setting.now self.old self.new c (sequential (program.Foreach key place head.now (expr_of filter.now) (stmt_of body.now)) (run_of setting.now))) }
    {
        let around = Around {
            setting,
            levels: None,
            outer: head.iterator,
            body: Body::Statement(body),
        };
        let nodes = LoopNodes::Below(setting.graph.node_count());
        self.loops(&around, key, filter, nodes)
    }

    // The end of the procedure with a value.
    pub fn return_value(&self, setting: &Setting, key: Key, place: Place, e: &Expr) -> Course
        requires rest { AtRest setting.now self.now.going }
        requires asked { Serve setting.now.in_rows.now (reads_outward (expr_of e.now)) }
        ensures { Runs setting.now self.now self.now result (sequential (program.Return key place (Some (expr_of e.now))) (run_of setting.now)) }
    {
        match self.value(setting, key, e) {
            Ok(value) => Course::Returns(Some(value)),
            Err(fault) => Course::Faults(fault),
        }
    }
}
