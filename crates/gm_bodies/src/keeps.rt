//! Reductions that are done at once: the better one of what is held and what is new is kept.
//!
//! One value is kept by a choice. The values of a tuple are saved in spare slots first, with one more for whether they are
//! better; then each slot takes its value by that one. Vertices keep by registers, the master list by globals.

ghost use Rattle.std.specs.Prelude.{◌≡◌, ◌++◌, ◌∷◌, [], IfOk, OnOk, None, map};
ghost use Rattle.gm_ast.specs.Tree.{expr_of};
ghost use Rattle.gm_image.specs.Term as Term;
ghost use Rattle.gm_image.specs.Views.{term};
ghost use Rattle.gm_lowering.specs.Bodies as Bodies;
ghost use Rattle.gm_terms.specs.Environments.{env_of};
ghost use Rattle.gm_bodies.specs.Keeps as Keeps;
ghost use Rattle.gm_bodies.specs.Keeps.{judging, keeping_one, keeps_tuple, kept, pairs_from, saved_of, saves, saving, settings, takes, taking};
ghost use Rattle.gm_value.specs.declared.operations.Op1.TheVariants as One;

use gm_ast::tree::{Expr, Key, Target};
use gm_base::NoMemory;
use gm_image::Expr as Lowered;
use gm_layouts::{next, small};
use gm_message::target_type;
use gm_terms::{Environment, lower_expr};
use gm_value::{Reduce, VType, Value};
use std::alloc::Global;

/// What is set: a target, or a spare slot.
#[derive(Clone, Copy)]
pub enum Slot {
    Target(Target),
    Spare { position: u32, vtype: VType },
}

/// A slot and what it is set to.
#[derive(Drop)]
pub struct Setting {
    pub slot: Slot,
    pub value: Lowered,
}

/// Where tuples are kept: by registers of a vertex, or by globals.
#[derive(Clone, Copy)]
pub struct Keeper<'a> {
    pub env: &'a Environment<'a>,
    pub by_registers: bool,
}

// What a target holds.
fn held(env: &Environment<'_>, target: Target) -> Result<Lowered, NoMemory>
    ensures { IfOk result (λ r. term r ≡ Bodies.held_term (env_of env.now) target) }
{
    match target {
        Target::Scalar { variable, .. } => env.scalar(variable),
        Target::Property {
            owner,
            property,
            ..
        } => env.property(owner, property),
    }
}

// What a spare slot holds.
fn saved(keeper: &Keeper<'_>, position: u32, vtype: VType) -> Result<Lowered, NoMemory>
    ensures { IfOk result (λ r. term r ≡ Keeps.saved keeper.now position vtype) }
{
    if keeper.by_registers {
        Ok(Lowered::Register(keeper.env.layout.spare_register(position, vtype)?))
    } else {
        Ok(Lowered::Global(keeper.env.layout.spare_global(position, vtype)?))
    }
}

// Whether one value is better than another.
fn compare(alloc: Global, greatest: bool, a: Lowered, b: Lowered) -> Result<Lowered, NoMemory>
    ensures { IfOk result (λ r. term r ≡ Bodies.compared (Keeps.operator greatest) (term a) (term b)) }
{
    let a = Box::new(alloc, a)?;
    let b = Box::new(alloc, b)?;
    if greatest {
        Ok(Lowered::Gt(a, b))
    } else {
        Ok(Lowered::Lt(a, b))
    }
}

// Whether a reduction keeps the greatest.
fn is_greatest(reduce: Reduce) -> bool
    ensures { Keeps.operator result ≡ Bodies.better reduce }
{
    matches!(reduce, Reduce::Max)
}

// One value of a choice.
fn choose(alloc: Global, c: Lowered, a: Lowered, b: Lowered) -> Result<Lowered, NoMemory>
    ensures { IfOk result (λ r. term r ≡ Term.Choose (term c) (term a) (term b)) }
{
    let c = Box::new(alloc, c)?;
    let a = Box::new(alloc, a)?;
    let b = Box::new(alloc, b)?;
    Ok(Lowered::Choose(c, a, b))
}

// Whether the saved values from a position on take the place of the held ones, where the first comparison is by an operator.
#[tactic(auto, using(crate::proofs::BodyLines::replacing_is))]
fn replacing(
    alloc: Global,
    keeper: &Keeper<'_>,
    greatest: bool,
    position: u32,
    targets: &[Target],
) -> Result<Lowered, NoMemory>
    ensures { IfOk result (λ r. term r ≡ Bodies.replacing (Keeps.operator greatest) (pairs_from keeper.now position targets.now)) }
{
    let Some((target, rest)) = targets.split_first() else {
        return Ok(Lowered::Const(Value::Flag(false)));
    };
    let first = compare_at(alloc, keeper, greatest, position, *target)?;
    if rest.is_empty() {
        return Ok(first);
    }
    let more = replacing(alloc, keeper, false, next(position)?, rest)?;
    let worse = worse_at(alloc, keeper, greatest, position, *target)?;
    replace_by(alloc, first, worse, more)
}

// Whether a saved value is better than the held one.
fn compare_at(
    alloc: Global,
    keeper: &Keeper<'_>,
    greatest: bool,
    position: u32,
    target: Target,
) -> Result<Lowered, NoMemory>
    ensures { IfOk result (λ r. term r ≡ Bodies.compared (Keeps.operator greatest) (saved_of keeper.now position target) (Bodies.held_term (env_of keeper.now.env.now) target)) }
{
    let vtype = target_type(keeper.env.layout.declarations(), target);
    let a = saved(keeper, position, vtype)?;
    let b = held(keeper.env, target)?;
    compare(alloc, greatest, a, b)
}

// Whether a held value is better than the saved one.
fn worse_at(
    alloc: Global,
    keeper: &Keeper<'_>,
    greatest: bool,
    position: u32,
    target: Target,
) -> Result<Lowered, NoMemory>
    ensures { IfOk result (λ r. term r ≡ Bodies.compared (Keeps.operator greatest) (Bodies.held_term (env_of keeper.now.env.now) target) (saved_of keeper.now position target)) }
{
    let vtype = target_type(keeper.env.layout.declarations(), target);
    let a = held(keeper.env, target)?;
    let b = saved(keeper, position, vtype)?;
    compare(alloc, greatest, a, b)
}

// The first is better, or the second is not and the rest is better.
fn replace_by(
    alloc: Global,
    first: Lowered,
    worse: Lowered,
    more: Lowered,
) -> Result<Lowered, NoMemory>
    ensures { IfOk result (λ r. term r ≡ Term.Or (term first) (Term.And (Term.Unary One.Not None (term worse)) (term more))) }
{
    let first = Box::new(alloc, first)?;
    let worse = Box::new(alloc, worse)?;
    let not_worse = Box::new(alloc, Lowered::Not(worse))?;
    let more = Box::new(alloc, more)?;
    let rest = Box::new(alloc, Lowered::And(not_worse, more))?;
    Ok(Lowered::Or(first, rest))
}

// Adds the setting that saves a value at a position.
fn save_one(
    alloc: Global,
    keeper: &Keeper<'_>,
    key: Key,
    position: u32,
    target: Target,
    value: &Expr,
    out: &mut Vec<Setting>,
) -> Result<(), NoMemory>
    ensures { OnOk result (settings out.new.items ≡ settings out.old.items ++ saving keeper.now key position target (expr_of value.now) ∷ []) }
{
    let vtype = target_type(keeper.env.layout.declarations(), target);
    let value = lower_expr(alloc, keeper.env, key, value)?;
    out.push(Setting {
        slot: Slot::Spare { position, vtype },
        value,
    })?;
    Ok(())
}

// Adds the settings that save values, one for each target.
fn save(
    alloc: Global,
    keeper: &Keeper<'_>,
    key: Key,
    targets: &[Target],
    values: &[Expr],
    out: &mut Vec<Setting>,
) -> Result<(), NoMemory>
    ensures { OnOk result (settings out.new.items ≡ settings out.old.items ++ saves keeper.now key 0 targets.now (map expr_of values.now)) }
{
    let mut position = 0;
    let mut rest = targets;
    for value in values {
        let Some((target, others)) = rest.split_first() else {
            return Ok(());
        };
        save_one(alloc, keeper, key, position, *target, value, out)?;
        position = next(position)?;
        rest = others;
    }
    Ok(())
}

// Adds the setting by which a target takes the saved value, where the tuple is better.
fn take_one(
    alloc: Global,
    keeper: &Keeper<'_>,
    flag: u32,
    position: u32,
    target: Target,
    out: &mut Vec<Setting>,
) -> Result<(), NoMemory>
    ensures { OnOk result (settings out.new.items ≡ settings out.old.items ++ taking keeper.now flag position target ∷ []) }
{
    let vtype = target_type(keeper.env.layout.declarations(), target);
    let better = saved(keeper, flag, VType::Flag)?;
    let new = saved(keeper, position, vtype)?;
    let old = held(keeper.env, target)?;
    let value = choose(alloc, better, new, old)?;
    out.push(Setting {
        slot: Slot::Target(target),
        value,
    })?;
    Ok(())
}

// Adds the settings by which targets take the saved values, where the tuple is better.
fn take(
    alloc: Global,
    keeper: &Keeper<'_>,
    flag: u32,
    targets: &[Target],
    out: &mut Vec<Setting>,
) -> Result<(), NoMemory>
    ensures { OnOk result (settings out.new.items ≡ settings out.old.items ++ takes keeper.now flag 0 targets.now) }
{
    let mut position = 0;
    for target in targets {
        take_one(alloc, keeper, flag, position, *target, out)?;
        position = next(position)?;
    }
    Ok(())
}

// Adds the setting of the spare slot that says whether a tuple is better.
fn judge(
    alloc: Global,
    keeper: &Keeper<'_>,
    reduce: Reduce,
    flag: u32,
    targets: &[Target],
    out: &mut Vec<Setting>,
) -> Result<(), NoMemory>
    ensures { OnOk result (settings out.new.items ≡ settings out.old.items ++ judging keeper.now reduce flag targets.now ∷ []) }
{
    let value = replacing(alloc, keeper, is_greatest(reduce), 0, targets)?;
    out.push(Setting {
        slot: Slot::Spare {
            position: flag,
            vtype: VType::Flag,
        },
        value,
    })?;
    Ok(())
}

// Adds the settings that keep the better tuple.
fn keep_tuple(
    alloc: Global,
    keeper: &Keeper<'_>,
    reduce: Reduce,
    key: Key,
    targets: &[Target],
    values: &[Expr],
    out: &mut Vec<Setting>,
) -> Result<(), NoMemory>
    ensures { OnOk result (settings out.new.items ≡ settings out.old.items ++ keeps_tuple keeper.now reduce key targets.now (map expr_of values.now)) }
{
    let flag = small(targets.len())?;
    save(alloc, keeper, key, targets, values, out)?;
    judge(alloc, keeper, reduce, flag, targets, out)?;
    take(alloc, keeper, flag, targets, out)?;
    Ok(())
}

// Adds the setting that keeps the better value.
fn keep_one(
    alloc: Global,
    keeper: &Keeper<'_>,
    reduce: Reduce,
    key: Key,
    target: Target,
    value: &Expr,
    out: &mut Vec<Setting>,
) -> Result<(), NoMemory>
    ensures { OnOk result (settings out.new.items ≡ settings out.old.items ++ keeping_one keeper.now reduce key target (expr_of value.now) ∷ []) }
{
    let new = lower_expr(alloc, keeper.env, key, value)?;
    let old = held(keeper.env, target)?;
    let better = compare(alloc, is_greatest(reduce), new, old)?;
    let new = lower_expr(alloc, keeper.env, key, value)?;
    let old = held(keeper.env, target)?;
    let value = choose(alloc, better, new, old)?;
    out.push(Setting {
        slot: Slot::Target(target),
        value,
    })?;
    Ok(())
}

/// Adds the settings that keep the better one of what targets hold and of values.
pub fn keep(
    alloc: Global,
    keeper: &Keeper<'_>,
    reduce: Reduce,
    key: Key,
    targets: &[Target],
    values: &[Expr],
    out: &mut Vec<Setting>,
) -> Result<(), NoMemory>
    ensures { OnOk result (settings out.new.items ≡ settings out.old.items ++ kept keeper.now reduce key targets.now (map expr_of values.now)) }
{
    match (targets, values) {
        ([target], [value]) => {
            keep_one(alloc, keeper, reduce, key, *target, value, out)?;
            Ok(())
        }
        _ => {
            keep_tuple(alloc, keeper, reduce, key, targets, values, out)?;
            Ok(())
        }
    }
}
