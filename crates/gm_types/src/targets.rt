//! What assignments write, and the values that go there.

ghost use Rattle.std.specs.Prelude.{◌≡◌, IfOk, OnOk, option_map};
ghost use Rattle.gm_base.specs.Rules.{least_from};
ghost use Rattle.gm_ast.specs.Judged.{ok_of, errs_of, both_of, part_by, broken_by};
ghost use Rattle.gm_ast.specs.Kinds.{accepts, fitted};
ghost use Rattle.gm_ast.specs.Statements.{scalar_goal, property_goal, goal, fits_goal, is_among, at_iterator};
ghost use Rattle.gm_ast.specs.SurfaceTree.{name_of, target_of};
ghost use Rattle.gm_ast.specs.Tree.{expr_of};
ghost use Rattle.gm_types.specs.Parts.{part_of};
ghost use Rattle.gm_types.specs.Views.{env_of, Judges};

use crate::leaves::is_node;
use crate::names::Checker;
use crate::notes::note;
use crate::parts::{Part, taken};
use gm_ast::kinds::{Binding, Goal, Kind};
use gm_ast::surface::{Name, SpelledTarget};
use gm_ast::tree::{Expr, Sort, Target};
use gm_base::{Place, Refusal, Rule};
use gm_value::VType;
use std::alloc::{AllocError, Global};

// A name alone as a target.
fn scalar_goal_of(
    deferred: bool,
    place: Place,
    found: Binding,
    least: &mut Option<Refusal>,
) -> Option<Goal>
    ensures part { result ≡ ok_of (scalar_goal deferred place found) }
    ensures least { least.new ≡ least_from least.old (errs_of (scalar_goal deferred place found)) }
{
    let target = Target::Scalar {
        variable: found.index,
        place,
    };
    match found.variable.sort {
        Sort::NodeProperty => {
            return Some(Goal {
                wanted: None,
                target,
            });
        }
        Sort::Scalar => {
            if !deferred {
                return Some(Goal {
                    wanted: Some(found.variable.vtype),
                    target,
                });
            }
        }
        Sort::Graph | Sort::Iterator | Sort::Edge | Sort::EdgeProperty => {}
    }
    note(least, Rule::T12, place);
    None
}

// A name alone as a target, which may not be known.
fn scalar_goal(
    deferred: bool,
    place: Place,
    found: Option<Binding>,
    least: &mut Option<Refusal>,
) -> Option<Goal>
    ensures part { result ≡ part_by found (scalar_goal deferred place) }
    ensures least { least.new ≡ least_from least.old (broken_by found (scalar_goal deferred place)) }
{
    let found = found?;
    scalar_goal_of(deferred, place, found, least)
}

// A property as a target.
fn property_goal_of(
    place: Place,
    owner: Binding,
    property: Binding,
    least: &mut Option<Refusal>,
) -> Option<Goal>
    ensures part { result ≡ ok_of (property_goal place (owner, property)) }
    ensures least { least.new ≡ least_from least.old (errs_of (property_goal place (owner, property))) }
{
    if is_node(owner.variable) && property.variable.sort == Sort::NodeProperty {
        return Some(Goal {
            wanted: Some(property.variable.vtype),
            target: Target::Property {
                owner: owner.index,
                property: property.index,
                place,
            },
        });
    }
    if owner.variable.sort == Sort::Edge && property.variable.sort == Sort::EdgeProperty {
        note(least, Rule::T12, place);
        return None;
    }
    note(least, Rule::T7, place);
    None
}

// A property as a target, of which the names may not be known.
fn property_goal(
    place: Place,
    owner: Option<Binding>,
    property: Option<Binding>,
    least: &mut Option<Refusal>,
) -> Option<Goal>
    ensures part { result ≡ part_by (both_of owner property) (property_goal place) }
    ensures least { least.new ≡ least_from least.old (broken_by (both_of owner property) (property_goal place)) }
{
    let owner = owner?;
    let property = property?;
    property_goal_of(place, owner, property, least)
}

fn accepts(vtype: VType, kind: Kind) -> bool
    ensures { result ≡ accepts vtype kind }
{
    match (vtype, kind) {
        (VType::I32 | VType::I64, Kind::Flexible) => true,
        (VType::I32, Kind::Of(VType::I32)) => true,
        (VType::I64, Kind::Of(VType::I32 | VType::I64)) => true,
        (VType::Flag, Kind::Of(VType::Flag)) => true,
        (VType::Node, Kind::Of(VType::Node)) => true,
        _ => false,
    }
}

// A part as a value of the type that is wanted.
pub fn fitted(
    alloc: Global,
    vtype: VType,
    rule: Rule,
    place: Place,
    part: Part,
    least: &mut Option<Refusal>,
) -> Result<Option<Expr>, AllocError>
    ensures part { IfOk result (λ r. option_map expr_of r ≡ ok_of (fitted vtype rule place (part_of part))) }
    ensures least { OnOk result (least.new ≡ least_from least.old (errs_of (fitted vtype rule place (part_of part)))) }
{
    if accepts(vtype, part.kind) {
        return taken(alloc, Kind::Of(vtype), place, part, least);
    }
    note(least, rule, place);
    Ok(None)
}

// A part as a value of its target.
pub fn fits_goal(
    alloc: Global,
    wanted: Option<VType>,
    rule: Rule,
    place: Place,
    part: Part,
    least: &mut Option<Refusal>,
) -> Result<Option<Expr>, AllocError>
    ensures part { IfOk result (λ r. option_map expr_of r ≡ ok_of (fits_goal wanted rule place (part_of part))) }
    ensures least { OnOk result (least.new ≡ least_from least.old (errs_of (fits_goal wanted rule place (part_of part)))) }
{
    match wanted {
        None => {
            note(least, rule, place);
            Ok(None)
        }
        Some(vtype) => fitted(alloc, vtype, rule, place, part, least),
    }
}

// Whether an index is among some.
fn is_among(index: u32, indices: &[u32]) -> bool
    ensures { result ≡ is_among index indices.now }
{
    for other in indices {
        if index == *other {
            return true;
        }
    }
    false
}

impl<'a> Checker<'a> {
    // The left side of an assignment that is no group assignment.
    pub fn goal(&mut self, deferred: bool, target: &SpelledTarget) -> Option<Goal>
        ensures { Judges self.old self.new (goal deferred (target_of target.now) (env_of self.old)) result }
    {
        let place = target.owner.place;
        let owner = self.used(&target.owner);
        match &target.property {
            None => scalar_goal(deferred, place, owner, &mut self.least),
            Some(name) => {
                let property = self.used(name);
                property_goal(place, owner, property, &mut self.least)
            }
        }
    }

    // Whether the name after `@`, if there is one, breaks no rule.
    pub fn at_iterator(&mut self, name: &Option<Name>) -> Option<u32>
        ensures { Judges self.old self.new (at_iterator (option_map name_of name.now) (env_of self.old)) result }
    {
        let Some(name) = name else {
            return Some(0);
        };
        let found = self.used(name)?;
        if is_among(found.index, &self.iterators) {
            return Some(found.index);
        }
        note(&mut self.least, Rule::T13, name.place);
        None
    }
}
