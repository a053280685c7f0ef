//! Reduction assignments: lists of targets and values.

ghost use Rattle.std.specs.Prelude.{◌≡◌, ◌≤◌, [], ◌∷◌, length, drop, map, IfOk, OnOk, option_map, not, ◌&&◌};
ghost use Rattle.gm_base.specs.Rules.{least_from};
ghost use Rattle.gm_ast.specs.Judged.{ok_of, errs_of, both_of, part_by, broken_by};
ghost use Rattle.gm_ast.specs.Statements.{reduces_type, reduces, first_wanted, fits_each, all_answers, combined, name_eq, goes_with, apart, apart_from_first, goals, goals_together, typed_all, reduced};
ghost use Rattle.gm_ast.specs.SurfaceTree.{name_of, target_of, expr_of as spelled_of};
ghost use Rattle.gm_ast.specs.Tree.{expr_of, stmt_of};
ghost use Rattle.gm_types.specs.Parts.{part_of};
ghost use Rattle.gm_types.specs.Views.{env_of, Judges};
ghost use Rattle.gm_types.specs.OwnNames.{own_name, Tells};
ghost use Rattle.gm_types.specs.Shapes.{with_last};

use crate::assignments::total_at;
use crate::kinds::{is_flag_type, is_number_type};
use crate::names::Checker;
use crate::notes::note;
use crate::parts::Part;
use crate::targets::fits_goal;
use gm_ast::kinds::Goal;
use gm_ast::surface::{Name, SpelledExpr, SpelledTarget};
use gm_ast::tree::{Expr, Key, Stmt, Target};
use gm_base::{Place, Refusal, Rule};
use gm_value::{Reduce, VType};
use std::alloc::{AllocError, Global};
use std::collections::BTreeSet;

// Whether a reduction takes values of a type.
fn reduces_type(reduce: Reduce, vtype: VType) -> bool
    ensures { result ≡ reduces_type reduce vtype }
{
    match reduce {
        Reduce::Sum | Reduce::Product | Reduce::Min | Reduce::Max => is_number_type(vtype),
        Reduce::And | Reduce::Or => is_flag_type(vtype),
    }
}

// Whether a reduction may go to a target that takes such values.
fn reduces(reduce: Reduce, wanted: Option<VType>) -> bool
    ensures { result ≡ reduces reduce wanted }
{
    match wanted {
        None => false,
        Some(vtype) => reduces_type(reduce, vtype),
    }
}

// The type that the first of some targets takes.
fn first_wanted(goals: &[Goal]) -> Option<VType>
    ensures { result ≡ first_wanted goals.now }
{
    match goals {
        [] => None,
        [first, ..] => first.wanted,
    }
}

// Whether two names have the same letters.
fn name_eq(x: &Name, y: &Name) -> bool
    ensures { result ≡ name_eq (name_of x.now) (name_of y.now) }
{
    x.text.as_slice() == y.text.as_slice()
}

// Whether a target may stand beside the first: scalars together, or properties through one name.
fn goes_with(first: &SpelledTarget, t: &SpelledTarget) -> bool
    ensures { result ≡ goes_with (target_of first.now) (target_of t.now) }
{
    if first.property.is_some() {
        t.property.is_some() && name_eq(&first.owner, &t.owner)
    } else {
        t.property.is_none()
    }
}

// The name by which a target differs from others that go with the same first one: that of its property, or its own.
fn own_name(t: &SpelledTarget) -> &[u8]
    ensures { result.now ≡ own_name (target_of t.now) }
{
    match &t.property {
        None => &t.owner.text,
        Some(property) => &property.text,
    }
}

// Whether a target may stand behind the first of some and is spelled like none of them, of which a set has the own
// names. It has that of this one then too.
fn belongs<'t>(
    first: &SpelledTarget,
    t: &'t SpelledTarget,
    names: &mut BTreeSet<&'t [u8]>,
) -> Result<bool, AllocError>
    ensures { IfOk result (λ fits. Tells (target_of first.now) names.old names.new (target_of t.now) fits) }
{
    if !goes_with(first, t) {
        return Ok(false);
    }
    let new = names.insert(own_name(t))?;
    Ok(new)
}

// Notes those of some targets that do not belong with the first, by the names of those before.
fn note_each(
    alloc: Global,
    least: &mut Option<Refusal>,
    first: &SpelledTarget,
    targets: &[SpelledTarget],
) -> Result<(), AllocError>
    ensures { OnOk result (least.new ≡ least_from least.old (apart (target_of first.now) [] (map target_of targets.now))) }
{
    let mut names = BTreeSet::new(alloc);
    for target in targets {
        if !belongs(first, target, &mut names)? {
            note(least, Rule::T12, target.owner.place);
        }
    }
    Ok(())
}

// Notes the targets of one reduction that do not belong together.
fn note_apart(
    alloc: Global,
    least: &mut Option<Refusal>,
    targets: &[SpelledTarget],
) -> Result<(), AllocError>
    ensures { OnOk result (least.new ≡ least_from least.old (apart_from_first (map target_of targets.now))) }
{
    match targets {
        [] => Ok(()),
        [first, ..] => note_each(alloc, least, first, targets),
    }
}

// The targets that assignments write.
fn targets_of(alloc: Global, goals: &[Goal]) -> Result<Vec<Target>, AllocError>
    ensures { IfOk result (λ r. r.items ≡ map (λ g. g.target) goals.now) }
{
    let mut targets = Vec::new(alloc);
    for goal in goals {
        targets.push(goal.target)?;
    }
    Ok(targets)
}

// What is held together of some parts and one more.
pub fn pushed<T: Drop>(held: Option<Vec<T>>, part: Option<T>) -> Result<Option<Vec<T>>, AllocError>
    ensures { IfOk result (λ r. option_map (λ v. v.items) r ≡ with_last (option_map (λ v. v.items) held) part) }
{
    match held {
        None => Ok(None),
        Some(items) => match part {
            None => Ok(None),
            Some(part) => {
                let mut items = items;
                items.push(part)?;
                Ok(Some(items))
            }
        },
    }
}

// The values of a reduction against its targets, one by one.
fn fits_each(
    alloc: Global,
    place: Place,
    goals: &[Goal],
    parts: Vec<Part>,
    least: &mut Option<Refusal>,
) -> Result<Option<Vec<Expr>>, AllocError>
    ensures part { IfOk result (λ r. option_map (λ v. map expr_of v.items) r ≡ ok_of (all_answers (fits_each place goals.now (map part_of parts.items)))) }
    ensures least { OnOk result (least.new ≡ least_from least.old (errs_of (all_answers (fits_each place goals.now (map part_of parts.items))))) }
{
    let mut values = Some(Vec::new(alloc));
    let mut at = 0;
    let count = parts.len();
    for part in parts {
        if at < goals.len() {
            let value = fits_goal(alloc, goals[at].wanted, Rule::T9, place, part, least)?;
            values = pushed(values, value)?;
            at += 1;
        }
    }
    if goals.len() != count {
        note(least, Rule::T9, place);
        return Ok(None);
    }
    Ok(values)
}

// A reduction assignment whose targets and values have types.
fn combined_of(
    alloc: Global,
    key: Key,
    place: Place,
    reduce: Reduce,
    goals: Vec<Goal>,
    parts: Vec<Part>,
    least: &mut Option<Refusal>,
) -> Result<Option<Stmt>, AllocError>
    ensures part { IfOk result (λ r. option_map stmt_of r ≡ ok_of (combined key place reduce (goals.items, map part_of parts.items))) }
    ensures least { OnOk result (least.new ≡ least_from least.old (errs_of (combined key place reduce (goals.items, map part_of parts.items)))) }
{
    let fits = reduces(reduce, first_wanted(&goals));
    if !fits {
        note(least, Rule::T11, place);
    }
    let targets = targets_of(alloc, &goals)?;
    match fits_each(alloc, place, &goals, parts, least)? {
        None => Ok(None),
        Some(values) => {
            if fits {
                Ok(Some(Stmt::Reduce {
                    key,
                    total: total_at(key, place),
                    reduce,
                    targets,
                    values,
                }))
            } else {
                Ok(None)
            }
        }
    }
}

// A reduction assignment whose targets and values may have no types.
fn combined(
    alloc: Global,
    key: Key,
    place: Place,
    reduce: Reduce,
    goals: Option<Vec<Goal>>,
    parts: Option<Vec<Part>>,
    least: &mut Option<Refusal>,
) -> Result<Option<Stmt>, AllocError>
    ensures part { IfOk result (λ r. option_map stmt_of r ≡ part_by (both_of (option_map (λ v. v.items) goals) (option_map (λ v. map part_of v.items) parts)) (combined key place reduce)) }
    ensures least { OnOk result (least.new ≡ least_from least.old (broken_by (both_of (option_map (λ v. v.items) goals) (option_map (λ v. map part_of v.items) parts)) (combined key place reduce))) }
{
    match goals {
        None => Ok(None),
        Some(goals) => match parts {
            None => Ok(None),
            Some(parts) => combined_of(alloc, key, place, reduce, goals, parts, least),
        },
    }
}

impl<'a> Checker<'a> {
    // Several targets.
    fn goals(
        &mut self,
        alloc: Global,
        targets: &[SpelledTarget],
    ) -> Result<Option<Vec<Goal>>, AllocError>
        ensures { IfOk result (λ r. Judges self.old self.new (goals (map target_of targets.now) (env_of self.old)) (option_map (λ v. v.items) r)) }
    {
        let mut held = Some(Vec::new(alloc));
        for target in targets {
            let goal = self.goal(false, target);
            held = pushed(held, goal)?;
        }
        Ok(held)
    }

    // The targets of a reduction assignment, which belong together.
    fn goals_together(
        &mut self,
        alloc: Global,
        targets: &[SpelledTarget],
    ) -> Result<Option<Vec<Goal>>, AllocError>
        ensures { IfOk result (λ r. Judges self.old self.new (goals_together (map target_of targets.now) (env_of self.old)) (option_map (λ v. v.items) r)) }
    {
        let goals = self.goals(alloc, targets)?;
        note_apart(alloc, &mut self.least, targets)?;
        Ok(goals)
    }

    // The types of several expressions.
    fn typed_all(
        &mut self,
        alloc: Global,
        values: &'a [SpelledExpr],
    ) -> Result<Option<Vec<Part>>, AllocError>
        ensures { IfOk result (λ r. Judges self.old self.new (typed_all (map spelled_of values.now) (env_of self.old)) (option_map (λ v. map part_of v.items) r)) }
    {
        let mut held = Some(Vec::new(alloc));
        for value in values {
            let part = self.typed(alloc, value)?;
            held = pushed(held, part)?;
        }
        Ok(held)
    }

    // A reduction assignment.
    pub fn reduced(
        &mut self,
        alloc: Global,
        targets: &[SpelledTarget],
        reduce: Reduce,
        place: Place,
        values: &'a [SpelledExpr],
    ) -> Result<Option<Stmt>, AllocError>
        ensures { IfOk result (λ r. Judges self.old self.new (reduced (map target_of targets.now) reduce place (map spelled_of values.now) (env_of self.old)) (option_map stmt_of r)) }
    {
        let key = self.key;
        let goals = self.goals_together(alloc, targets)?;
        let parts = self.typed_all(alloc, values)?;
        let stmt = combined(alloc, key, place, reduce, goals, parts, &mut self.least)?;
        Ok(stmt)
    }
}
