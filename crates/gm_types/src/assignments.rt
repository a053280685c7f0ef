//! Assignments whose targets and values have types.

ghost use Rattle.std.specs.Prelude.{◌≡◌, [], ◌∷◌, IfOk, OnOk, option_map};
ghost use Rattle.gm_base.specs.Rules.{least_from};
ghost use Rattle.gm_base.specs.declared.rules.Rule.TheVariants.{T9};
ghost use Rattle.gm_ast.specs.Judged.{ok_of, errs_of, both_of, part_by, broken_by, then_answer};
ghost use Rattle.gm_ast.specs.Kinds.{fitted};
ghost use Rattle.gm_ast.specs.Program as Program;
ghost use Rattle.gm_ast.specs.Statements.{fits_goal, group_goal, returned, total_at, one_of, incremented};
ghost use Rattle.gm_ast.specs.Tree.{expr_of, stmt_of};
ghost use Rattle.gm_types.specs.Parts.{part_of};
ghost use Rattle.gm_types.specs.Groups.{group_of};

use crate::notes::note;
use crate::parts::Part;
use crate::targets::{fits_goal, fitted};
use gm_ast::kinds::{Binding, Goal};
use gm_ast::tree::{Expr, Key, Sort, Stage, Stmt, TotalKey};
use gm_base::{Place, Refusal, Rule};
use gm_value::{Reduce, VType, Value};
use std::alloc::{AllocError, Global};

// An assignment whose sides may have no types.
pub fn assign(
    alloc: Global,
    key: Key,
    place: Place,
    goal: Option<Goal>,
    part: Option<Part>,
    least: &mut Option<Refusal>,
) -> Result<Option<Stmt>, AllocError>
    ensures part { IfOk result (λ r. option_map stmt_of r ≡ part_by (both_of goal (option_map part_of part)) (λ p. then_answer (fits_goal p.0.wanted T9 place p.1) (Program.Assign key p.0.target))) }
    ensures least { OnOk result (least.new ≡ least_from least.old (broken_by (both_of goal (option_map part_of part)) (λ p. then_answer (fits_goal p.0.wanted T9 place p.1) (Program.Assign key p.0.target)))) }
{
    match goal {
        None => Ok(None),
        Some(goal) => match part {
            None => Ok(None),
            Some(part) => match fits_goal(alloc, goal.wanted, Rule::T9, place, part, least)? {
                None => Ok(None),
                Some(value) => Ok(Some(Stmt::Assign {
                    key,
                    target: goal.target,
                    value,
                })),
            },
        },
    }
}

// A deferred assignment whose sides may have no types.
pub fn defer(
    alloc: Global,
    key: Key,
    place: Place,
    goal: Option<Goal>,
    part: Option<Part>,
    least: &mut Option<Refusal>,
) -> Result<Option<Stmt>, AllocError>
    ensures part { IfOk result (λ r. option_map stmt_of r ≡ part_by (both_of goal (option_map part_of part)) (λ p. then_answer (fits_goal p.0.wanted T9 place p.1) (Program.Defer key p.0.target))) }
    ensures least { OnOk result (least.new ≡ least_from least.old (broken_by (both_of goal (option_map part_of part)) (λ p. then_answer (fits_goal p.0.wanted T9 place p.1) (Program.Defer key p.0.target)))) }
{
    match goal {
        None => Ok(None),
        Some(goal) => match part {
            None => Ok(None),
            Some(part) => match fits_goal(alloc, goal.wanted, Rule::T9, place, part, least)? {
                None => Ok(None),
                Some(value) => Ok(Some(Stmt::Defer {
                    key,
                    target: goal.target,
                    value,
                })),
            },
        },
    }
}

// What a group assignment writes: the graph, the property, and its type.
#[derive(Clone, Copy)]
pub struct GroupGoal {
    pub graph: u32,
    pub property: u32,
    pub vtype: VType,
}

fn group_goal_of(
    place: Place,
    graph: Binding,
    property: Binding,
    least: &mut Option<Refusal>,
) -> Option<GroupGoal>
    ensures part { option_map group_of result ≡ ok_of (group_goal place (graph, property)) }
    ensures least { least.new ≡ least_from least.old (errs_of (group_goal place (graph, property))) }
{
    if property.variable.sort == Sort::NodeProperty {
        return Some(GroupGoal {
            graph: graph.index,
            property: property.index,
            vtype: property.variable.vtype,
        });
    }
    note(least, Rule::T7, place);
    None
}

// What a group assignment writes, of which the names may not be known.
pub fn group_goal(
    place: Place,
    graph: Option<Binding>,
    property: Option<Binding>,
    least: &mut Option<Refusal>,
) -> Option<GroupGoal>
    ensures part { option_map group_of result ≡ part_by (both_of graph property) (group_goal place) }
    ensures least { least.new ≡ least_from least.old (broken_by (both_of graph property) (group_goal place)) }
{
    let graph = graph?;
    let property = property?;
    group_goal_of(place, graph, property, least)
}

// A group assignment whose sides may have no types.
pub fn group(
    alloc: Global,
    key: Key,
    start: Place,
    place: Place,
    goal: Option<GroupGoal>,
    part: Option<Part>,
    least: &mut Option<Refusal>,
) -> Result<Option<Stmt>, AllocError>
    ensures part { IfOk result (λ r. option_map stmt_of r ≡ part_by (both_of (option_map group_of goal) (option_map part_of part)) (λ ps. then_answer (fitted ps.0.1.1 T9 place ps.1) (Program.Group key start ps.0.0 ps.0.1.0))) }
    ensures least { OnOk result (least.new ≡ least_from least.old (broken_by (both_of (option_map group_of goal) (option_map part_of part)) (λ ps. then_answer (fitted ps.0.1.1 T9 place ps.1) (Program.Group key start ps.0.0 ps.0.1.0)))) }
{
    match goal {
        None => Ok(None),
        Some(goal) => match part {
            None => Ok(None),
            Some(part) => match fitted(alloc, goal.vtype, Rule::T9, place, part, least)? {
                None => Ok(None),
                Some(value) => Ok(Some(Stmt::Group {
                    key,
                    place: start,
                    graph: goal.graph,
                    property: goal.property,
                    value,
                })),
            },
        },
    }
}

// The key of a reduction assignment's total, which stands at its token.
pub fn total_at(key: Key, place: Place) -> TotalKey
    ensures { result ≡ total_at key place }
{
    TotalKey {
        key: Key {
            statement: key.statement,
            stage: Stage::Total,
        },
        place,
        shown: place,
    }
}

// The 1 that `++` adds to a target.
fn one_of(wanted: Option<VType>, place: Place, least: &mut Option<Refusal>) -> Option<Expr>
    ensures part { option_map expr_of result ≡ ok_of (one_of wanted place) }
    ensures least { least.new ≡ least_from least.old (errs_of (one_of wanted place)) }
{
    match wanted {
        Some(VType::I32) => Some(Expr::Const(Value::I32(1))),
        Some(VType::I64) => Some(Expr::Const(Value::I64(1))),
        Some(VType::Flag) | Some(VType::Node) | None => {
            note(least, Rule::T11, place);
            None
        }
    }
}

// A reduction assignment of one value to one target.
fn reduce_one(
    alloc: Global,
    key: Key,
    place: Place,
    reduce: Reduce,
    goal: Goal,
    value: Expr,
) -> Result<Stmt, AllocError>
    ensures { IfOk result (λ r. stmt_of r ≡ Program.Combine key (total_at key place) reduce (goal.target ∷ []) (expr_of value ∷ [])) }
{
    let mut targets = Vec::new(alloc);
    targets.push(goal.target)?;
    let mut values = Vec::new(alloc);
    values.push(value)?;
    Ok(Stmt::Reduce {
        key,
        total: total_at(key, place),
        reduce,
        targets,
        values,
    })
}

// `++`, whose target may have no type.
pub fn increment(
    alloc: Global,
    key: Key,
    place: Place,
    goal: Option<Goal>,
    least: &mut Option<Refusal>,
) -> Result<Option<Stmt>, AllocError>
    ensures part { IfOk result (λ r. option_map stmt_of r ≡ part_by goal (incremented key place)) }
    ensures least { OnOk result (least.new ≡ least_from least.old (broken_by goal (incremented key place))) }
{
    match goal {
        None => Ok(None),
        Some(goal) => match one_of(goal.wanted, place, least) {
            None => Ok(None),
            Some(value) => {
                let stmt = reduce_one(alloc, key, place, Reduce::Sum, goal, value)?;
                Ok(Some(stmt))
            }
        },
    }
}

// A returned value, which may have no type.
pub fn give_back(
    alloc: Global,
    key: Key,
    place: Place,
    wanted: Option<VType>,
    part: Option<Part>,
    least: &mut Option<Refusal>,
) -> Result<Option<Stmt>, AllocError>
    ensures part { IfOk result (λ r. option_map stmt_of r ≡ part_by (option_map part_of part) (returned key place wanted)) }
    ensures least { OnOk result (least.new ≡ least_from least.old (broken_by (option_map part_of part) (returned key place wanted))) }
{
    match part {
        None => Ok(None),
        Some(part) => match fits_goal(alloc, wanted, Rule::T14, place, part, least)? {
            None => Ok(None),
            Some(value) => Ok(Some(Stmt::Return {
                key,
                place,
                value: Some(value),
            })),
        },
    }
}
