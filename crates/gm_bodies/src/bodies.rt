//! Bodies of loops as lines of a vertex.

ghost use Rattle.std.specs.Prelude.{◌≡◌, ◌+◌, ◌++◌, ◌∷◌, [], IfOk, OnOk, length, map, option_map};
ghost use Rattle.gm_ast.specs.Program.{sequence};
ghost use Rattle.gm_ast.specs.Tree.{expr_of, stmt_of};
ghost use Rattle.gm_image.specs.Shapes.{leaf_term};
ghost use Rattle.gm_image.specs.Views.{line, target, term};
ghost use Rattle.gm_lowering.specs.Bodies as Bodies;
ghost use Rattle.gm_lowering.specs.Bodies.{lines_of};
ghost use Rattle.gm_lowering.specs.Plans as Plans;
ghost use Rattle.gm_lowering.specs.Terms as Terms;
ghost use Rattle.gm_terms.specs.Environments.{env_of};
ghost use Rattle.gm_layouts.specs.Where.{where_of};
ghost use Rattle.gm_bodies.specs.Keeps as Keeps;
ghost use Rattle.gm_bodies.specs.Sites as Sites;
ghost use Rattle.gm_bodies.specs.Sites.{line_by, site_of};

use crate::keeps::{Keeper, Setting, Slot, keep};
use gm_ast::tree::{Expr, Key, Stmt, Target, TotalKey};
use gm_base::{Items, NoMemory, Place};
use gm_image::{Expr as Lowered, Leaf, Shape, VertexLine};
use gm_layouts::{Layout, next, small};
use gm_message::{Way, type_at, way_of};
use gm_terms::{Environment, lower_all, lower_expr, lower_or_zero};
use gm_trees::variables::is_in;
use gm_value::{Reduce, VType, Value};
use std::alloc::Global;

/// Where a body is evaluated. Nodes of the iterators around are never NIL. In no inner loop what is reduced to the node's
/// properties is taken at once.
#[derive(Clone, Copy)]
pub struct Site<'a> {
    /// How its expressions are found.
    pub env: &'a Environment<'a>,
    /// The node's iterator.
    pub node: u32,
    /// The iterators around.
    pub iterators: &'a [u32],
    /// Whether it stands in no inner loop.
    pub at_once: bool,
}

// What a site reduces by one statement: its keys, its reduction, its targets and its values.
#[derive(Clone, Copy)]
pub(crate) struct Reduction<'a> {
    pub(crate) key: Key,
    pub(crate) total: TotalKey,
    pub(crate) reduce: Reduce,
    pub(crate) targets: &'a [Target],
    pub(crate) values: &'a [Expr],
}

// Whether a value is the flag of what holds.
fn is_true_flag(value: Value) -> bool
    ensures { result ≡ Sites.is_true_flag value }
{
    match value {
        Value::Flag(holds) => holds,
        _ => false,
    }
}

// Whether what has no operands always holds.
fn is_true_leaf(leaf: Leaf) -> bool
    ensures { result ≡ Sites.is_always (leaf_term leaf) }
{
    match leaf {
        Leaf::Const(value) => is_true_flag(value),
        _ => false,
    }
}

/// Whether a condition is the one that always holds.
pub fn is_always(condition: &Lowered) -> bool
    ensures { result ≡ Sites.is_always (term condition.now) }
{
    match condition.shape() {
        Shape::Leaf(leaf) => is_true_leaf(leaf),
        _ => false,
    }
}

/// Adds lines under a condition, which is left out where it always holds.
#[tactic(auto, using(crate::proofs::BodyLines::under_is))]
pub fn add_under(
    condition: Lowered,
    lines: Vec<VertexLine>,
    out: &mut Vec<VertexLine>,
) -> Result<(), NoMemory>
    ensures { OnOk result (map line out.new.items ≡ map line out.old.items ++ Bodies.under (term condition) (map line lines.items)) }
{
    let mut lines = lines;
    if !is_always(&condition) {
        out.push(VertexLine::Skip(small(lines.len())?, condition))?;
    }
    out.append(&mut lines)?;
    Ok(())
}

// Adds lines behind those of the first way, which are skipped after it.
#[tactic(auto, using(crate::proofs::BodyLines::else_is))]
fn add_else(lines: Vec<VertexLine>, out: &mut Vec<VertexLine>) -> Result<(), NoMemory>
    ensures { OnOk result (map line out.new.items ≡ map line out.old.items ++ Bodies.else_lines (map line lines.items)) }
{
    if lines.is_empty() {
        return Ok(());
    }
    let mut lines = lines;
    let count = small(lines.len())?;
    out.push(VertexLine::Skip(count, Lowered::Const(Value::Flag(false))))?;
    out.append(&mut lines)?;
    Ok(())
}

// How many lines are skipped where the first way is not taken: those of it, and one more where there is another way.
fn first_way(first: &[VertexLine], second: &[VertexLine]) -> Result<u32, NoMemory>
    ensures { IfOk result (λ r. r ≡ Sites.first_way (length first.now) (length second.now)) }
{
    let count = small(first.len())?;
    if second.is_empty() {
        return Ok(count);
    }
    next(count)
}

// Adds the lines of a choice.
#[tactic(auto, using(crate::proofs::BodyLines::choice_is))]
fn add_choice(
    condition: Lowered,
    first: Vec<VertexLine>,
    second: Vec<VertexLine>,
    out: &mut Vec<VertexLine>,
) -> Result<(), NoMemory>
    ensures { OnOk result (map line out.new.items ≡ map line out.old.items ++ Bodies.choice_by (term condition) (map line first.items) (map line second.items)) }
{
    let count = first_way(&first, &second)?;
    out.push(VertexLine::Skip(count, condition))?;
    let mut first = first;
    out.append(&mut first)?;
    add_else(second, out)?;
    Ok(())
}

// A line that sets a target.
fn set_line(layout: &Layout<'_>, target: Target, value: Lowered) -> Result<VertexLine, NoMemory>
    ensures { IfOk result (λ r. line r ≡ Bodies.set_line (where_of layout.now) target (term value)) }
{
    match target {
        Target::Scalar { variable, .. } => {
            Ok(VertexLine::SetRegister(layout.register(variable)?, value))
        }
        Target::Property { property, .. } => {
            Ok(VertexLine::SetField(layout.field(property)?, value))
        }
    }
}

// A line that sets a slot.
fn line_of(layout: &Layout<'_>, setting: Setting) -> Result<VertexLine, NoMemory>
    ensures { IfOk result (λ r. line r ≡ line_by (where_of layout.now) (Keeps.setting setting)) }
{
    match setting.slot {
        Slot::Target(target) => set_line(layout, target, setting.value),
        Slot::Spare { position, vtype } => Ok(VertexLine::SetRegister(
            layout.spare_register(position, vtype)?,
            setting.value,
        )),
    }
}

// Adds the lines that set slots.
fn add_settings(
    layout: &Layout<'_>,
    settings: Vec<Setting>,
    out: &mut Vec<VertexLine>,
) -> Result<(), NoMemory>
    ensures { OnOk result (map line out.new.items ≡ map line out.old.items ++ map (line_by (where_of layout.now)) (map Keeps.setting settings.items)) }
{
    for setting in settings {
        let set = line_of(layout, setting)?;
        out.push(set)?;
    }
    Ok(())
}

// Adds the lines of a reduction that is done at once.
#[tactic(auto, using(crate::proofs::BodyLines::kept_is))]
fn add_kept(
    alloc: Global,
    site: &Site<'_>,
    reduction: &Reduction<'_>,
    out: &mut Vec<VertexLine>,
) -> Result<(), NoMemory>
    ensures { OnOk result (map line out.new.items ≡ map line out.old.items ++ Sites.kept_at (site_of site.now) reduction.now) }
{
    let keeper = Keeper {
        env: site.env,
        by_registers: true,
    };
    let mut settings = Vec::new(alloc);
    keep(
        alloc,
        &keeper,
        reduction.reduce,
        reduction.key,
        reduction.targets,
        reduction.values,
        &mut settings,
    )?;
    add_settings(site.env.layout, settings, out)
}

/// The number of a target's slot, as a global or a field.
pub fn slot_number(layout: &Layout<'_>, target: Target) -> Result<u32, NoMemory>
    ensures { IfOk result (λ r. r ≡ Bodies.slot_number (where_of layout.now) target) }
{
    match target {
        Target::Scalar { variable, .. } => layout.global(variable),
        Target::Property { property, .. } => layout.field(property),
    }
}

// Slots with their values.
fn slots(
    alloc: Global,
    env: &Environment<'_>,
    key: Key,
    targets: &[Target],
    values: &[Expr],
) -> Result<Vec<(u32, Lowered)>, NoMemory>
    ensures { IfOk result (λ r. map target r.items ≡ Bodies.image_targets (where_of env.now.layout.now) targets.now (map (Terms.term (env_of env.now) key) (map expr_of values.now))) }
{
    let mut out = Vec::new(alloc);
    let mut rest = targets;
    for value in values {
        let Some((first, others)) = rest.split_first() else {
            return Ok(out);
        };
        let number = slot_number(env.layout, *first)?;
        let lowered = lower_expr(alloc, env, key, value)?;
        out.push((number, lowered))?;
        rest = others;
    }
    Ok(out)
}

// The node of a property: one of an iterator is none that is NIL.
fn owner_node(
    alloc: Global,
    site: &Site<'_>,
    key: Key,
    owner: u32,
    place: Place,
) -> Result<Lowered, NoMemory>
    ensures { IfOk result (λ r. term r ≡ Sites.owner_node (site_of site.now) key owner place) }
{
    let node = site.env.scalar(owner)?;
    if is_in(site.iterators, owner) {
        return Ok(node);
    }
    let index = site.env.place(key, place)?;
    let node = Box::new(alloc, node)?;
    Ok(Lowered::Live(index, node))
}

// The node of the first property among targets.
fn target_node(
    alloc: Global,
    site: &Site<'_>,
    key: Key,
    targets: &[Target],
) -> Result<Lowered, NoMemory>
    ensures { IfOk result (λ r. term r ≡ Bodies.target_node (site_of site.now) key targets.now) }
{
    for target in targets {
        match *target {
            Target::Scalar { .. } => {}
            Target::Property { owner, place, .. } => {
                return owner_node(alloc, site, key, owner, place);
            }
        }
    }
    Ok(Lowered::Const(Value::At(None)))
}

// The index of the place at which a taking onto the node's own properties fails.
fn fold_place(site: &Site<'_>, reduction: &Reduction<'_>) -> Result<u32, NoMemory>
    ensures { IfOk result (λ r. r ≡ Bodies.fold_place (site_of site.now) reduction.now.key reduction.now.total) }
{
    let total = reduction.total;
    if site.at_once {
        site.env.place(reduction.key, total.place)
    } else {
        site.env.place(total.key, total.place)
    }
}

// The line of a reduction that puts.
fn put_line(
    alloc: Global,
    site: &Site<'_>,
    reduction: &Reduction<'_>,
) -> Result<VertexLine, NoMemory>
    ensures { IfOk result (λ r. line r ∷ [] ≡ Sites.reduced (site_of site.now) 0 Plans.Puts reduction.now) }
{
    let total = reduction.total;
    let place = site.env.place(total.key, total.place)?;
    let slots = slots(
        alloc,
        site.env,
        reduction.key,
        reduction.targets,
        reduction.values,
    )?;
    Ok(VertexLine::Put {
        reduce: reduction.reduce,
        place,
        slots: Items::new(slots),
    })
}

// The line of a reduction that folds.
fn fold_line(
    alloc: Global,
    site: &Site<'_>,
    reduction: &Reduction<'_>,
) -> Result<VertexLine, NoMemory>
    ensures { IfOk result (λ r. line r ∷ [] ≡ Sites.reduced (site_of site.now) 0 Plans.Folds reduction.now) }
{
    let place = fold_place(site, reduction)?;
    let slots = slots(
        alloc,
        site.env,
        reduction.key,
        reduction.targets,
        reduction.values,
    )?;
    Ok(VertexLine::Fold {
        reduce: reduction.reduce,
        place,
        slots: Items::new(slots),
    })
}

// The line of a reduction that sends.
fn send_line(
    alloc: Global,
    site: &Site<'_>,
    kind: u32,
    reduction: &Reduction<'_>,
) -> Result<VertexLine, NoMemory>
    ensures { IfOk result (λ r. line r ∷ [] ≡ Sites.reduced (site_of site.now) kind Plans.Sends reduction.now) }
{
    let to = target_node(alloc, site, reduction.key, reduction.targets)?;
    let values = lower_all(alloc, site.env, reduction.key, reduction.values)?;
    Ok(VertexLine::Send {
        kind,
        to,
        values: Items::new(values),
    })
}

// Adds the lines of a reduction, and gives the kind of the next message.
fn add_reduction(
    alloc: Global,
    site: &Site<'_>,
    kind: u32,
    reduction: &Reduction<'_>,
    out: &mut Vec<VertexLine>,
) -> Result<u32, NoMemory>
    ensures lines { OnOk result (map line out.new.items ≡ map line out.old.items ++ Sites.reduced_here (site_of site.now) kind reduction.now) }
    ensures kinds { IfOk result (λ r. r ≡ kind + Sites.sent (site_of site.now) reduction.now) }
{
    match way_of(site.env.layout.declarations(), site.node, reduction.targets) {
        Way::Puts => {
            out.push(put_line(alloc, site, reduction)?)?;
            Ok(kind)
        }
        Way::Folds => {
            out.push(fold_line(alloc, site, reduction)?)?;
            Ok(kind)
        }
        Way::Sends => {
            out.push(send_line(alloc, site, kind, reduction)?)?;
            next(kind)
        }
        Way::Picks => {
            add_kept(alloc, site, reduction, out)?;
            Ok(kind)
        }
    }
}

// The line of a declaration.
fn declare_line(
    alloc: Global,
    site: &Site<'_>,
    key: Key,
    variable: u32,
    value: &Option<Expr>,
) -> Result<VertexLine, NoMemory>
    ensures { IfOk result (λ r. line r ∷ [] ≡ Sites.declared (site_of site.now) key variable (option_map expr_of value.now)) }
{
    let vtype = type_at(site.env.layout.declarations(), variable);
    let register = site.env.layout.register(variable)?;
    let lowered = lower_or_zero(alloc, site.env, key, vtype, value)?;
    Ok(VertexLine::SetRegister(register, lowered))
}

// The line of an assignment.
fn assign_line(
    alloc: Global,
    site: &Site<'_>,
    key: Key,
    target: Target,
    value: &Expr,
) -> Result<VertexLine, NoMemory>
    ensures { IfOk result (λ r. line r ≡ Bodies.set_line (where_of site.now.env.now.layout.now) target (Terms.term (env_of site.now.env.now) key (expr_of value.now))) }
{
    let lowered = lower_expr(alloc, site.env, key, value)?;
    set_line(site.env.layout, target, lowered)
}

// Adds the lines of a block of a body, whose first message is of a kind, and gives the kind of the next one.
#[cycle(lowering)]
fn add_block(
    alloc: Global,
    site: &Site<'_>,
    kind: u32,
    stmts: &Vec<Stmt>,
    out: &mut Vec<VertexLine>,
) -> Result<u32, NoMemory>
    ensures lines { OnOk result (map line out.new.items ≡ map line out.old.items ++ lines_of (site_of site.now) kind (sequence (map stmt_of stmts.now.items))) }
    ensures kinds { IfOk result (λ r. r ≡ kind + Sites.sends (site_of site.now) (sequence (map stmt_of stmts.now.items))) }
{
    let mut kind = kind;
    for stmt in stmts {
        kind = add_lines(alloc, site, kind, stmt, out)?;
    }
    Ok(kind)
}

/// Adds the lines of a body, whose first message is of a kind, and gives the kind of the next one. It takes time linear in
/// the body, times how deep its Ifs stand in each other.
#[cycle(lowering)]
pub fn add_lines(
    alloc: Global,
    site: &Site<'_>,
    kind: u32,
    s: &Stmt,
    out: &mut Vec<VertexLine>,
) -> Result<u32, NoMemory>
    ensures lines { OnOk result (map line out.new.items ≡ map line out.old.items ++ lines_of (site_of site.now) kind (stmt_of s.now)) }
    ensures kinds { IfOk result (λ r. r ≡ kind + Sites.sends (site_of site.now) (stmt_of s.now)) }
{
    match s {
        Stmt::Block(stmts) => add_block(alloc, site, kind, stmts, out),
        Stmt::Declare {
            key,
            variable,
            value,
        } => {
            out.push(declare_line(alloc, site, *key, *variable, value)?)?;
            Ok(kind)
        }
        Stmt::Assign { key, target, value } => {
            out.push(assign_line(alloc, site, *key, *target, value)?)?;
            Ok(kind)
        }
        Stmt::Reduce {
            key,
            total,
            reduce,
            targets,
            values,
        } => {
            let reduction = Reduction {
                key: *key,
                total: *total,
                reduce: *reduce,
                targets,
                values,
            };
            add_reduction(alloc, site, kind, &reduction, out)
        }
        Stmt::If { key, test, yes, no } => {
            let condition = lower_expr(alloc, site.env, *key, test)?;
            let mut first = Vec::new(alloc);
            let kind = add_lines(alloc, site, kind, yes, &mut first)?;
            let mut second = Vec::new(alloc);
            let kind = add_lines(alloc, site, kind, no, &mut second)?;
            add_choice(condition, first, second, out)?;
            Ok(kind)
        }
        _ => Ok(kind),
    }
}
