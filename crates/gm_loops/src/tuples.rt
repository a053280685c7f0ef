//! Argument reductions: several targets that count as one, with a value for each.

ghost use Rattle.std.specs.Prelude.{◌≡◌, [], All, IfOk, None, Ok, map};
ghost use Rattle.std.specs.List.{list_all};
ghost use Rattle.gm_model.specs.Graphs.{node_count};
ghost use Rattle.gm_ast.specs.Tree.{expr_of};
ghost use Rattle.gm_semantics.specs.Expressions.{evaluated_all};
ghost use Rattle.gm_semantics.specs.Iterations.{assigned_all, slots_of, target_value, together};
ghost use Rattle.gm_store.specs.Held.{HasSlot};
ghost use Rattle.gm_loops.specs.Bounds.{targets_bound};
ghost use Rattle.gm_loops.specs.Parts.{parts};
ghost use Rattle.gm_loops.specs.Scopes.{no_scope};
ghost use Rattle.gm_loops.specs.Sights.{view_of, Fits};
ghost use Rattle.gm_loops.specs.Targets.{all_parts, closed_by_one, items_of, and_next, rest_and_one, room, tuple_of};
ghost use Rattle.gm_graph.specs.Serving.{Serve};
ghost use Rattle.gm_loops.specs.Asking.{reads_outward};

use crate::parts::{Answer, Evaluated, first};
use crate::sights::Sight;
use gm_ast::tree::{Expr, Target};
use gm_base::{NoMemory, Place};
use gm_semantics::faults::Fault;
use gm_semantics::slots::Slot;
use gm_store::Store;
use gm_totals::close_tuple;
use gm_value::{FaultKind, Reduce, Value};
use std::alloc::Global;

/// The slots of several targets, and a value for each.
#[derive(Drop)]
pub struct Tuple {
    pub slots: Vec<Slot>,
    pub values: Vec<Value>,
}

// The values of several expressions in two parts: the first fault of what is hoisted, and what the rest gives.
#[derive(Drop)]
struct AllEvaluated {
    hoisted: Option<Fault>,
    rest: Result<Vec<Value>, Fault>,
}

// One more answer behind others.
fn and_answer(
    answers: Result<Vec<Value>, Fault>,
    answer: Answer,
) -> Result<Result<Vec<Value>, Fault>, NoMemory>
    ensures { IfOk result (λ all. items_of all ≡ rest_and_one (items_of answers) answer) }
{
    match (answers, answer) {
        (Err(fault), _) => Ok(Err(fault)),
        (Ok(_), Err(fault)) => Ok(Err(fault)),
        (Ok(mut values), Ok(value)) => {
            values.push(value)?;
            Ok(Ok(values))
        }
    }
}

impl AllEvaluated {
    // No expression.
    fn none(alloc: Global) -> Self
        ensures { all_parts result ≡ record { hoisted = None; rest = Ok [] } }
    {
        AllEvaluated {
            hoisted: None,
            rest: Ok(Vec::new(alloc)),
        }
    }

    // One more expression behind others: what is hoisted of all comes before the rest of all.
    fn and(self, next: Evaluated) -> Result<AllEvaluated, NoMemory>
        ensures { IfOk result (λ all. all_parts all ≡ and_next (all_parts self) (parts next)) }
    {
        Ok(AllEvaluated {
            hoisted: first(self.hoisted, next.hoisted),
            rest: and_answer(self.rest, next.rest)?,
        })
    }
}

impl Sight<'_> {
    // The values of several expressions, from left to right.
    #[tactic(auto, using(crate::proofs::Serving::value_item))]
    fn evaluated_all(
        &self,
        alloc: Global,
        es: &[Expr],
        store: &Store,
    ) -> Result<AllEvaluated, NoMemory>
        requires fits { Fits self.now.setting.now store.now }
        requires asked { Serve self.now.setting.now.in_rows.now (list_all reads_outward (map expr_of es.now)) }
        ensures { IfOk result (λ all. all_parts all ≡ evaluated_all (map expr_of es.now) (view_of self.now no_scope store.now)) }
    {
        let mut all = AllEvaluated::none(alloc);
        for e in es {
            all = all.and(self.parts_of(e, store))?;
        }
        Ok(all)
    }

    // What several targets hold, as values that are read.
    fn target_values(
        &self,
        alloc: Global,
        targets: &[Target],
        store: &Store,
    ) -> Result<AllEvaluated, NoMemory>
        requires { Fits self.now.setting.now store.now }
        ensures { IfOk result (λ all. all_parts all ≡ evaluated_all (map target_value targets.now) (view_of self.now no_scope store.now)) }
    {
        let mut all = AllEvaluated::none(alloc);
        for target in targets {
            all = all.and(self.target_value(store, target))?;
        }
        Ok(all)
    }

    // The slots of targets, or NilNode at the first node variable that holds none.
    fn slots_of(
        &self,
        alloc: Global,
        store: &Store,
        targets: &[Target],
    ) -> Result<Result<Vec<Slot>, Fault>, NoMemory>
        requires { Fits self.now.setting.now store.now }
        ensures slots { IfOk result (λ found. items_of found ≡ slots_of (view_of self.now no_scope store.now) targets.now) }
        ensures known { IfOk result (λ found. IfOk found (λ slots. All (HasSlot (room (node_count self.now.setting.now.graph.now) (targets_bound targets.now))) slots.items)) }
    {
        let mut slots = Vec::with_capacity(alloc, targets.len())?;
        for target in targets {
            match self.slot_of(store, target) {
                Ok(slot) => slots.push(slot)?,
                Err(fault) => return Ok(Err(fault)),
            }
        }
        Ok(Ok(slots))
    }

    // The slots of targets, and the values for them: what is hoisted of the values, then the targets, then the rest of
    // the values.
    fn put_all_together(
        &self,
        alloc: Global,
        store: &Store,
        targets: &[Target],
        values: AllEvaluated,
    ) -> Result<Result<Tuple, Fault>, NoMemory>
        requires { Fits self.now.setting.now store.now }
        ensures pair { IfOk result (λ answer. tuple_of answer ≡ assigned_all (view_of self.now no_scope store.now) targets.now (all_parts values)) }
        ensures known { IfOk result (λ answer. IfOk answer (λ t. All (HasSlot (room (node_count self.now.setting.now.graph.now) (targets_bound targets.now))) t.slots.items)) }
    {
        if let Some(fault) = values.hoisted {
            return Ok(Err(fault));
        }
        let slots = match self.slots_of(alloc, store, targets)? {
            Ok(slots) => slots,
            Err(fault) => return Ok(Err(fault)),
        };
        match values.rest {
            Ok(values) => Ok(Ok(Tuple { slots, values })),
            Err(fault) => Ok(Err(fault)),
        }
    }

    // The slots of targets, and the values of expressions for them.
    pub fn assigned_all(
        &self,
        alloc: Global,
        store: &Store,
        targets: &[Target],
        es: &[Expr],
    ) -> Result<Result<Tuple, Fault>, NoMemory>
        requires fits { Fits self.now.setting.now store.now }
        requires asked { Serve self.now.setting.now.in_rows.now (list_all reads_outward (map expr_of es.now)) }
        ensures pair { let w = view_of self.now no_scope store.now in
            IfOk result (λ answer. tuple_of answer ≡ assigned_all w targets.now (evaluated_all (map expr_of es.now) w)) }
        ensures known { IfOk result (λ answer. IfOk answer (λ t. All (HasSlot (room (node_count self.now.setting.now.graph.now) (targets_bound targets.now))) t.slots.items)) }
    {
        let values = self.evaluated_all(alloc, es, store)?;
        self.put_all_together(alloc, store, targets, values)
    }

    // Held values closed with one tuple at a place, or Overflow there.
    fn closed_answers(
        &self,
        alloc: Global,
        place: Place,
        reduce: Reduce,
        held: Result<Vec<Value>, Fault>,
        new: Result<Vec<Value>, Fault>,
    ) -> Result<Result<Vec<Value>, Fault>, NoMemory>
        ensures { IfOk result (λ values. items_of values ≡ closed_by_one reduce self.now.key place (items_of held) (items_of new)) }
    {
        let held = match held {
            Ok(held) => held,
            Err(fault) => return Ok(Err(fault)),
        };
        let new = match new {
            Ok(new) => new,
            Err(fault) => return Ok(Err(fault)),
        };
        match close_tuple(alloc, reduce, held.as_slice(), new.as_slice())? {
            Some(values) => Ok(Ok(values)),
            None => Ok(Err(Fault {
                kind: FaultKind::Overflow,
                shown: place,
                key: self.key,
                place,
            })),
        }
    }

    // The slots of several targets, and the tuple that they hold or the one of the values, by an operator at a place.
    pub fn together(
        &self,
        alloc: Global,
        store: &Store,
        place: Place,
        reduce: Reduce,
        targets: &[Target],
        es: &[Expr],
    ) -> Result<Result<Tuple, Fault>, NoMemory>
        requires fits { Fits self.now.setting.now store.now }
        requires asked { Serve self.now.setting.now.in_rows.now (list_all reads_outward (map expr_of es.now)) }
        ensures pair { IfOk result (λ answer. tuple_of answer ≡ together (view_of self.now no_scope store.now) place reduce targets.now (map expr_of es.now)) }
        ensures known { IfOk result (λ answer. IfOk answer (λ t. All (HasSlot (room (node_count self.now.setting.now.graph.now) (targets_bound targets.now))) t.slots.items)) }
    {
        let held = self.target_values(alloc, targets, store)?;
        let new = self.evaluated_all(alloc, es, store)?;
        let values = AllEvaluated {
            hoisted: first(held.hoisted, new.hoisted),
            rest: self.closed_answers(alloc, place, reduce, held.rest, new.rest)?,
        };
        self.put_all_together(alloc, store, targets, values)
    }
}
