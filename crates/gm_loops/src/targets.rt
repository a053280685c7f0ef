//! Targets of assignments, with the values for them.

ghost use Rattle.std.specs.Prelude.{◌≡◌, ◌∷◌, [], IfOk, IfSome, Ok};
ghost use Rattle.gm_value.specs.Reductions.{close};
ghost use Rattle.gm_model.specs.Graphs.{node_count};
ghost use Rattle.gm_ast.specs.Tree.{expr_of};
ghost use Rattle.gm_semantics.specs.Expressions.{evaluated, value};
ghost use Rattle.gm_semantics.specs.Iterations.{alone, assigned, at_once, slot_of, target_value};
ghost use Rattle.gm_semantics.specs.Loops.{is_elsewhere};
ghost use Rattle.gm_store.specs.Held.{HasSlot};
ghost use Rattle.gm_loops.specs.Bounds.{target_bound};
ghost use Rattle.gm_loops.specs.Parts.{parts};
ghost use Rattle.gm_loops.specs.Scopes.{no_scope};
ghost use Rattle.gm_loops.specs.Sights.{view_of, Fits};
ghost use Rattle.gm_loops.specs.Targets.{pair_of, put_together, room};
ghost use Rattle.gm_graph.specs.Serving.{Serve};
ghost use Rattle.gm_loops.specs.Asking.{reads_outward};

use crate::parts::{Answer, Evaluated};
use crate::scopes::Scope;
use crate::sights::Sight;
use gm_ast::tree::{Expr, Target};
use gm_base::Place;
use gm_semantics::faults::Fault;
use gm_semantics::slots::{Slot, Write};
use gm_store::Store;
use gm_value::Reduce;

// Whether a target is a property through another node than the outer iterator's.
pub(crate) fn is_elsewhere(outer: u32, property: u32, target: Target) -> bool
    ensures { result ≡ is_elsewhere outer property target }
{
    match target {
        Target::Scalar { .. } => false,
        Target::Property {
            owner,
            property: reduced,
            ..
        } => owner != outer && reduced == property,
    }
}

// A slot and the value for it: what is hoisted of the value, then the target, then the rest of the value.
fn put_together(
    hoisted: Option<Fault>,
    slot: Result<Slot, Fault>,
    rest: Answer,
) -> Result<Write, Fault>
    ensures pair { pair_of result ≡ put_together hoisted slot rest }
    ensures slot { IfOk result (λ w. slot ≡ Ok w.slot) }
{
    match (hoisted, slot, rest) {
        (Some(fault), _, _) => Err(fault),
        (None, Err(fault), _) => Err(fault),
        (None, Ok(_), Err(fault)) => Err(fault),
        (None, Ok(slot), Ok(value)) => Ok(Write { slot, value }),
    }
}

impl Sight<'_> {
    // The value of an expression in two parts. Most expressions fault nowhere: the parts are asked for where one may.
    pub(crate) fn parts_of(&self, e: &Expr, store: &Store) -> Evaluated
        requires fits { Fits self.now.setting.now store.now }
        requires asked { Serve self.now.setting.now.in_rows.now (reads_outward (expr_of e.now)) }
        ensures { parts result ≡ evaluated (expr_of e.now) (view_of self.now no_scope store.now) }
    {
        match self.faultless(e, &Scope::Nothing, store) {
            Some(value) => Evaluated::plain(Ok(value)),
            None => self.evaluated(e, &Scope::Nothing, store),
        }
    }

    // The value of an expression, or its fault.
    pub fn value(&self, e: &Expr, store: &Store) -> Answer
        requires fits { Fits self.now.setting.now store.now }
        requires asked { Serve self.now.setting.now.in_rows.now (reads_outward (expr_of e.now)) }
        ensures { result ≡ value (expr_of e.now) (view_of self.now no_scope store.now) }
    {
        self.parts_of(e, store).settled()
    }

    // The slot of a target, or NilNode at its node variable.
    pub(crate) fn slot_of(&self, store: &Store, target: &Target) -> Result<Slot, Fault>
        requires { Fits self.now.setting.now store.now }
        ensures slot { result ≡ slot_of (view_of self.now no_scope store.now) target.now }
        ensures known { IfOk result (HasSlot (room (node_count self.now.setting.now.graph.now) (target_bound target.now))) }
    {
        match *target {
            Target::Scalar { variable, .. } => Ok(Slot::Scalar(variable)),
            Target::Property {
                owner,
                property,
                place,
            } => match self.node_of(&Scope::Nothing, store, owner, place) {
                Ok(node) => Ok(Slot::Node { property, node }),
                Err(fault) => Err(fault),
            },
        }
    }

    // A target's slot, and the value of an expression for it.
    pub fn assigned(&self, store: &Store, target: &Target, e: &Expr) -> Result<Write, Fault>
        requires fits { Fits self.now.setting.now store.now }
        requires asked { Serve self.now.setting.now.in_rows.now (reads_outward (expr_of e.now)) }
        ensures pair { let w = view_of self.now no_scope store.now in pair_of result ≡ assigned w target.now (evaluated (expr_of e.now) w) }
        ensures known { IfOk result (λ w. HasSlot (room (node_count self.now.setting.now.graph.now) (target_bound target.now)) w.slot) }
    {
        let value = self.parts_of(e, store);
        put_together(value.hoisted, self.slot_of(store, target), value.rest)
    }

    // The slot of a target, if its node variable holds a node.
    #[inline(always)]
    fn slot_held(&self, scope: &Scope, store: &Store, target: &Target) -> Option<Slot>
        requires { Fits self.now.setting.now store.now }
        ensures slot { IfSome result (λ slot. slot_of (view_of self.now scope.now store.now) target.now ≡ Ok slot) }
        ensures known { IfSome result (HasSlot (room (node_count self.now.setting.now.graph.now) (target_bound target.now))) }
    {
        match *target {
            Target::Scalar { variable, .. } => Some(Slot::Scalar(variable)),
            Target::Property {
                owner,
                property,
                ..
            } => {
                let node = self.node_held(scope, store, owner)?;
                Some(Slot::Node { property, node })
            }
        }
    }

    // A target's slot, and the value of an expression for it, where nothing faults.
    #[inline(always)]
    pub(crate) fn faultless_write(
        &self,
        scope: &Scope,
        store: &Store,
        target: &Target,
        e: &Expr,
    ) -> Option<Write>
        requires fits { Fits self.now.setting.now store.now }
        requires asked { Serve self.now.setting.now.in_rows.now (reads_outward (expr_of e.now)) }
        ensures pair { let w = view_of self.now scope.now store.now in IfSome result (λ found. assigned w target.now (evaluated (expr_of e.now) w) ≡ Ok (found.slot, found.value)) }
        ensures known { IfSome result (λ w. HasSlot (room (node_count self.now.setting.now.graph.now) (target_bound target.now)) w.slot) }
    {
        let value = self.faultless(e, scope, store)?;
        let slot = self.slot_held(scope, store, target)?;
        Some(Write { slot, value })
    }

    // What a target holds, as a value that is read.
    pub(crate) fn target_value(&self, store: &Store, target: &Target) -> Evaluated
        requires { Fits self.now.setting.now store.now }
        ensures { parts result ≡ evaluated (target_value target.now) (view_of self.now no_scope store.now) }
    {
        match *target {
            Target::Scalar { variable, .. } => {
                Evaluated::plain(Ok(self.setting.scalar(&Scope::Nothing, store, variable)))
            }
            Target::Property {
                owner,
                property,
                place,
            } => Evaluated::read(
                self.parallel,
                self.property(&Scope::Nothing, store, owner, property, place),
            ),
        }
    }

    // A target's slot, and what it holds combined with the value of an expression, by an operator at a place.
    pub fn at_once(
        &self,
        store: &Store,
        place: Place,
        reduce: Reduce,
        target: &Target,
        e: &Expr,
    ) -> Result<Write, Fault>
        requires fits { Fits self.now.setting.now store.now }
        requires asked { Serve self.now.setting.now.in_rows.now (reads_outward (expr_of e.now)) }
        ensures pair { alone (pair_of result) ≡ at_once (view_of self.now no_scope store.now) place reduce (target.now ∷ []) (expr_of e.now ∷ []) }
        ensures known { IfOk result (λ w. HasSlot (room (node_count self.now.setting.now.graph.now) (target_bound target.now)) w.slot) }
    {
        let held = self.target_value(store, target);
        let other = self.parts_of(e, store);
        let value = held.combined(reduce, self.key, place, other);
        put_together(value.hoisted, self.slot_of(store, target), value.rest)
    }
}
