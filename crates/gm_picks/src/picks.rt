//! Each pick of the sequential phase becomes one onto scalars, of what scalars and counts tell.
//!
//! The pass goes along the phase once and gives out variables in the order of its statements: for each pick first a
//! node and a value for each property that takes it, then one for each read of its values. An iterator of a For around
//! always holds a node: a property of it takes a value alone, without a check.

ghost use Rattle.std.specs.Prelude.{◌≡◌, ◌+◌, ◌++◌, true, [], ◌∷◌, IfOk, OnOk, map};
ghost use Rattle.gm_ast.specs.Program as Program;
ghost use Rattle.gm_ast.specs.Program.{sequence};
ghost use Rattle.gm_ast.specs.Tree.{expr_of, program_of, stmt_of};
ghost use Rattle.gm_forms.specs.Meanings.{SameMeaning};
ghost use Rattle.gm_forms.specs.Uses.{is_named};
ghost use Rattle.gm_forms.specs.Typing.{type_at};
ghost use Rattle.gm_desugar.specs.Compounds.{has_no_compounds};
ghost use Rattle.gm_desugar.specs.Conditions as Conditions;
ghost use Rattle.gm_desugar.specs.Reads as Reads;
ghost use Rattle.gm_reductions.specs.Stages.{WithTypedRuns};
ghost use Rattle.gm_picks.specs.Laws.{WithPlainPicks};
ghost use Rattle.gm_picks.specs.Picks as Picks;
ghost use Rattle.gm_picks.specs.Picks.{count_all, count_alone, count_held, count_picks, onto_scalars, picked_alone, with_plain_picks};

use gm_ast::forms::Work;
use gm_ast::tree::{Declaration, Expr, Key, Stmt, Target, TotalKey, Tree};
use gm_base::{NoMemory, Place};
use gm_desugar::conditions::{asked, set_to};
use gm_desugar::reads::{add_fresh, reads_set, take_next, tell, type_of, types_read};
use gm_trees::places::put;
use gm_trees::variables::is_in;
use gm_value::{Reduce, VType};
use std::alloc::{AllocError, Global};
use std::mem;

/// Writes each pick of the sequential phase as one onto scalars, of what scalars and counts tell: the nodes of its
/// targets, but those of iterators of Fors around, are checked and their values read before, then what its values read,
/// and what was picked is written back.
/// Where each variable stands in the table as it is used, and nothing else is reduced at once, the program means the
/// same. If it was ready for the loops of its accesses, it still is, and its picks are so. Answers want of memory too
/// where the table has no room for the variables.
pub fn picks_out(alloc: Global, program: Work) -> Result<Work, NoMemory>
    ensures made { IfOk result (λ r. program_of r ≡ with_plain_picks (program_of program)) }
    ensures same { IfOk result (λ r. is_named (program_of program) ≡ true → has_no_compounds (program_of program).declarations (program_of program).body ≡ true → SameMeaning (program_of program) (program_of r)) }
    ensures ready { IfOk result (λ r. WithTypedRuns (program_of program) → WithPlainPicks (program_of r)) }
{
    let mut tree = program.into_tree();
    match pick_tree(alloc, &mut tree) {
        Ok(()) => Ok(Work::new(tree)),
        Err(error) => {
            drop(tree);
            Err(error)
        }
    }
}

// The same of a tree.
fn pick_tree(alloc: Global, tree: &mut Tree) -> Result<(), NoMemory>
    ensures { OnOk result (program_of tree.new ≡ with_plain_picks (program_of tree.old)) }
{
    let Ok(first) = u32::try_from(tree.declarations.len()) else {
        return Err(NoMemory);
    };
    let mut types = Vec::new(alloc);
    types_picked(alloc, &tree.declarations, &[], &tree.body, &mut types)?;
    add_fresh(alloc, types, &mut tree.declarations)?;
    let mut next = first;
    pick_onto(alloc, &mut next, &[], &mut tree.body)?;
    Ok(())
}

// The iterator of a For and those around it.
fn inside(alloc: Global, iterator: u32, around: &[u32]) -> Result<Vec<u32>, AllocError>
    ensures { IfOk result (λ r. r.items ≡ iterator ∷ around.now) }
{
    let mut iterators = Vec::new(alloc);
    iterators.push(iterator)?;
    iterators.extend_from_slice(around)?;
    Ok(iterators)
}

// Adds the types of a property's node, unless an iterator holds it, and of its value.
fn types_of_property(
    declarations: &[Declaration],
    is_iterator: bool,
    property: u32,
    types: &mut Vec<VType>,
) -> Result<(), AllocError>
    ensures { OnOk result (types.new.items ≡ types.old.items ++ Picks.property_types is_iterator (type_at declarations.now property)) }
{
    if !is_iterator {
        types.push(VType::Node)?;
    }
    types.push(type_of(declarations, property))?;
    Ok(())
}

// The same, if a target is a property.
fn type_held(
    declarations: &[Declaration],
    around: &[u32],
    target: Target,
    types: &mut Vec<VType>,
) -> Result<(), AllocError>
    ensures { OnOk result (types.new.items ≡ types.old.items ++ Picks.types_held declarations.now around.now (target ∷ [])) }
{
    match target {
        Target::Scalar { .. } => Ok(()),
        Target::Property {
            owner,
            property,
            ..
        } => types_of_property(declarations, is_in(around, owner), property, types),
    }
}

// Adds the types of nodes and values of the properties among some targets.
fn types_held(
    declarations: &[Declaration],
    around: &[u32],
    targets: &[Target],
    types: &mut Vec<VType>,
) -> Result<(), AllocError>
    ensures { OnOk result (types.new.items ≡ types.old.items ++ Picks.types_held declarations.now around.now targets.now) }
{
    for target in targets {
        type_held(declarations, around, *target, types)?;
    }
    Ok(())
}

// Adds the types of the reads of some values.
fn types_all(
    declarations: &[Declaration],
    values: &[Expr],
    types: &mut Vec<VType>,
) -> Result<(), AllocError>
    ensures { OnOk result (types.new.items ≡ types.old.items ++ Picks.types_all declarations.now (map expr_of values.now)) }
{
    for value in values {
        types_read(declarations, value, types)?;
    }
    Ok(())
}

// Adds the types of a pick's variables.
fn types_of_pick(
    declarations: &[Declaration],
    around: &[u32],
    targets: &[Target],
    values: &[Expr],
    types: &mut Vec<VType>,
) -> Result<(), AllocError>
    ensures { OnOk result (types.new.items ≡ types.old.items ++ (Picks.types_held declarations.now around.now targets.now ++ Picks.types_all declarations.now (map expr_of values.now))) }
{
    types_held(declarations, around, targets, types)?;
    types_all(declarations, values, types)
}

// Adds the types of the variables of a block's picks.
#[cycle(typing)]
fn types_among(
    alloc: Global,
    declarations: &[Declaration],
    around: &[u32],
    stmts: &Vec<Stmt>,
    types: &mut Vec<VType>,
) -> Result<(), AllocError>
    ensures { OnOk result (types.new.items ≡ types.old.items ++ Picks.types_picked declarations.now around.now (sequence (map stmt_of stmts.now.items))) }
{
    for stmt in stmts {
        types_picked(alloc, declarations, around, stmt, types)?;
    }
    Ok(())
}

// Adds the types of the variables of the picks in a For's body.
#[cycle(typing)]
fn types_inside(
    alloc: Global,
    declarations: &[Declaration],
    around: &[u32],
    iterator: u32,
    body: &Stmt,
    types: &mut Vec<VType>,
) -> Result<(), AllocError>
    ensures { OnOk result (types.new.items ≡ types.old.items ++ Picks.types_picked declarations.now (iterator ∷ around.now) (stmt_of body.now)) }
{
    let iterators = inside(alloc, iterator, around)?;
    let added = types_picked(alloc, declarations, &iterators, body, types);
    drop(iterators);
    added
}

// Adds the types of the variables of the picks in a part of a sequential phase.
#[cycle(typing)]
fn types_picked(
    alloc: Global,
    declarations: &[Declaration],
    around: &[u32],
    s: &Stmt,
    types: &mut Vec<VType>,
) -> Result<(), AllocError>
    ensures { OnOk result (types.new.items ≡ types.old.items ++ Picks.types_picked declarations.now around.now (stmt_of s.now)) }
{
    match s {
        Stmt::Block(stmts) => types_among(alloc, declarations, around, stmts, types),
        Stmt::Reduce {
            targets,
            values,
            ..
        } => types_of_pick(declarations, around, targets, values, types),
        Stmt::For { head, body, .. } => {
            types_inside(alloc, declarations, around, head.iterator, body, types)
        }
        Stmt::If { yes, no, .. } => {
            types_picked(alloc, declarations, around, yes, types)?;
            types_picked(alloc, declarations, around, no, types)
        }
        Stmt::While { body, .. } => types_picked(alloc, declarations, around, body, types),
        Stmt::Do { body, .. } => types_picked(alloc, declarations, around, body, types),
        _ => Ok(()),
    }
}

// The variable that is given out for the node of a property, unless an iterator holds it: then none is.
fn take_node(next: &mut u32, is_iterator: bool, owner: u32) -> Result<u32, AllocError>
    ensures node { IfOk result (λ r. r ≡ Picks.node_variable is_iterator next.old owner) }
    ensures next { OnOk result (next.new ≡ Picks.value_variable is_iterator next.old) }
{
    if is_iterator {
        return Ok(owner);
    }
    take_next(next)
}

// Adds the check of a property's node, unless an iterator holds it, and the read of its value, each set to the next
// variable.
fn hold_property(
    next: &mut u32,
    key: Key,
    is_iterator: bool,
    owner: u32,
    property: u32,
    place: Place,
    set: &mut Vec<Stmt>,
) -> Result<(), AllocError>
    ensures set { OnOk result (map stmt_of set.new.items ≡ map stmt_of set.old.items ++ Picks.property_set is_iterator next.old key owner property place) }
    ensures next { OnOk result (next.new ≡ next.old + Picks.taken is_iterator) }
{
    if !is_iterator {
        let node = take_next(next)?;
        let variable = owner;
        set.push(set_to(node, key, Expr::Live { variable, place }))?;
    }
    let value = take_next(next)?;
    let read = Expr::Property {
        owner,
        property,
        place,
    };
    set.push(set_to(value, key, read))?;
    Ok(())
}

// The same, if a target is a property.
fn hold(
    next: &mut u32,
    key: Key,
    around: &[u32],
    target: Target,
    set: &mut Vec<Stmt>,
) -> Result<(), AllocError>
    ensures set { OnOk result (map stmt_of set.new.items ≡ map stmt_of set.old.items ++ Picks.held_set around.now next.old key (target ∷ [])) }
    ensures next { OnOk result (next.new ≡ next.old + count_held around.now (target ∷ [])) }
{
    match target {
        Target::Scalar { .. } => Ok(()),
        Target::Property {
            owner,
            property,
            place,
        } => {
            let is_iterator = is_in(around, owner);
            hold_property(next, key, is_iterator, owner, property, place, set)
        }
    }
}

// The same of all targets.
fn hold_all(
    next: &mut u32,
    key: Key,
    around: &[u32],
    targets: &[Target],
    set: &mut Vec<Stmt>,
) -> Result<(), AllocError>
    ensures set { OnOk result (map stmt_of set.new.items ≡ map stmt_of set.old.items ++ Picks.held_set around.now next.old key targets.now) }
    ensures next { OnOk result (next.new ≡ next.old + count_held around.now targets.now) }
{
    for target in targets {
        hold(next, key, around, *target, set)?;
    }
    Ok(())
}

// Adds the reads of values, each set to the next variable.
fn set_reads(
    alloc: Global,
    next: &mut u32,
    key: Key,
    values: &[Expr],
    set: &mut Vec<Stmt>,
) -> Result<(), AllocError>
    ensures set { OnOk result (map stmt_of set.new.items ≡ map stmt_of set.old.items ++ Picks.all_set next.old key (map expr_of values.now)) }
    ensures next { OnOk result (next.new ≡ next.old + count_all (map expr_of values.now)) }
{
    for value in values {
        reads_set(alloc, next, key, value, set)?;
    }
    Ok(())
}

// The scalar that takes a pick for a target.
fn holder(next: &mut u32, around: &[u32], target: Target) -> Result<Target, AllocError>
    ensures held { IfOk result (λ r. r ∷ [] ≡ Picks.held around.now next.old (target ∷ [])) }
    ensures next { OnOk result (next.new ≡ next.old + count_held around.now (target ∷ [])) }
{
    match target {
        Target::Scalar { .. } => Ok(target),
        Target::Property { owner, .. } => {
            let _node = take_node(next, is_in(around, owner), owner)?;
            let variable = take_next(next)?;
            Ok(Target::Scalar {
                variable,
                place: Place { line: 0, col: 0 },
            })
        }
    }
}

// The scalars that take a pick.
fn holders(
    alloc: Global,
    next: &mut u32,
    around: &[u32],
    targets: &[Target],
) -> Result<Vec<Target>, AllocError>
    ensures held { IfOk result (λ r. r.items ≡ Picks.held around.now next.old targets.now) }
    ensures next { OnOk result (next.new ≡ next.old + count_held around.now targets.now) }
{
    let mut scalars = Vec::new(alloc);
    for target in targets {
        scalars.push(holder(next, around, *target)?)?;
    }
    Ok(scalars)
}

// The reads of all values become the next variables.
fn tell_all(next: &mut u32, values: &mut Vec<Expr>) -> Result<(), AllocError>
    ensures told { OnOk result (map expr_of values.new.items ≡ Picks.all_told next.old (map expr_of values.old.items)) }
    ensures next { OnOk result (next.new ≡ next.old + count_all (map expr_of values.old.items)) }
{
    for i in 0..values.len() {
        tell(next, &mut values[i])?;
    }
    Ok(())
}

// Adds the write of what a value's variable holds to the property of a target, at the node that was checked or that an
// iterator holds.
fn write_back(
    next: &mut u32,
    key: Key,
    around: &[u32],
    target: Target,
    set: &mut Vec<Stmt>,
) -> Result<(), AllocError>
    ensures set { OnOk result (map stmt_of set.new.items ≡ map stmt_of set.old.items ++ Picks.written_back around.now next.old key (target ∷ [])) }
    ensures next { OnOk result (next.new ≡ next.old + count_held around.now (target ∷ [])) }
{
    match target {
        Target::Scalar { .. } => Ok(()),
        Target::Property {
            owner,
            property,
            place,
        } => {
            let owner = take_node(next, is_in(around, owner), owner)?;
            let value = asked(take_next(next)?);
            let target = Target::Property {
                owner,
                property,
                place,
            };
            set.push(Stmt::Assign { key, target, value })?;
            Ok(())
        }
    }
}

// The same of all targets, whose variables stand from a number on.
fn write_all_back(
    first: u32,
    key: Key,
    around: &[u32],
    targets: &[Target],
    set: &mut Vec<Stmt>,
) -> Result<(), AllocError>
    ensures { OnOk result (map stmt_of set.new.items ≡ map stmt_of set.old.items ++ Picks.written_back around.now first key targets.now) }
{
    let mut next = first;
    for target in targets {
        write_back(&mut next, key, around, *target, set)?;
    }
    Ok(())
}

// Adds what comes before a pick whose variables stand from a number on: what its targets hold, and its reads.
fn set_before(
    alloc: Global,
    first: u32,
    key: Key,
    around: &[u32],
    targets: &[Target],
    values: &[Expr],
    set: &mut Vec<Stmt>,
) -> Result<(), AllocError>
    ensures { OnOk result (map stmt_of set.new.items ≡ map stmt_of set.old.items ++ (Picks.held_set around.now first key targets.now ++ Picks.all_set (first + count_held around.now targets.now) key (map expr_of values.now))) }
{
    let mut next = first;
    hold_all(&mut next, key, around, targets, set)?;
    set_reads(alloc, &mut next, key, values, set)
}

// The pick onto scalars, with the next variables.
fn scalar_pick(
    alloc: Global,
    next: &mut u32,
    key: Key,
    total: TotalKey,
    reduce: Reduce,
    around: &[u32],
    targets: &[Target],
    values: &mut Vec<Expr>,
) -> Result<Stmt, AllocError>
    ensures onto { IfOk result (λ r. stmt_of r ≡ Program.Combine key total reduce (Picks.held around.now next.old targets.now) (Picks.all_told (next.old + count_held around.now targets.now) (map expr_of values.old.items))) }
    ensures next { OnOk result (next.new ≡ next.old + (count_held around.now targets.now + count_all (map expr_of values.old.items))) }
{
    let targets = holders(alloc, next, around, targets)?;
    tell_all(next, values)?;
    let values = mem::replace(values, Vec::new(alloc));
    Ok(Stmt::Reduce {
        key,
        total,
        reduce,
        targets,
        values,
    })
}

// Adds a pick with what comes before and after it.
fn add_pick(
    alloc: Global,
    next: &mut u32,
    key: Key,
    total: TotalKey,
    reduce: Reduce,
    around: &[u32],
    targets: &[Target],
    values: &mut Vec<Expr>,
    set: &mut Vec<Stmt>,
) -> Result<(), AllocError>
    ensures picked { OnOk result (map stmt_of set.new.items ≡ map stmt_of set.old.items ++ (Picks.held_set around.now next.old key targets.now ++ (Picks.all_set (next.old + count_held around.now targets.now) key (map expr_of values.old.items) ++ (Program.Combine key total reduce (Picks.held around.now next.old targets.now) (Picks.all_told (next.old + count_held around.now targets.now) (map expr_of values.old.items)) ∷ Picks.written_back around.now next.old key targets.now)))) }
    ensures next { OnOk result (next.new ≡ next.old + (count_held around.now targets.now + count_all (map expr_of values.old.items))) }
{
    let first = *next;
    set_before(alloc, first, key, around, targets, values, set)?;
    set.push(scalar_pick(alloc, next, key, total, reduce, around, targets, values)?)?;
    write_all_back(first, key, around, targets, set)
}

// A pick with what comes before and after it.
fn pick_parts(
    alloc: Global,
    next: &mut u32,
    key: Key,
    total: TotalKey,
    reduce: Reduce,
    around: &[u32],
    targets: &[Target],
    values: &mut Vec<Expr>,
) -> Result<Vec<Stmt>, AllocError>
    ensures picked { IfOk result (λ r. sequence (map stmt_of r.items) ≡ Picks.picked around.now next.old key total reduce targets.now (map expr_of values.old.items)) }
    ensures next { OnOk result (next.new ≡ next.old + (count_held around.now targets.now + count_all (map expr_of values.old.items))) }
{
    let mut set = Vec::new(alloc);
    match add_pick(
        alloc, next, key, total, reduce, around, targets, values, &mut set,
    ) {
        Ok(()) => Ok(set),
        Err(error) => {
            drop(set);
            Err(error)
        }
    }
}

// A statement that is no part of others, if it is a pick, becomes one onto scalars.
fn pick_alone(alloc: Global, next: &mut u32, around: &[u32], s: &mut Stmt) -> Result<(), AllocError>
    ensures picked { OnOk result (stmt_of s.new ≡ picked_alone around.now next.old (stmt_of s.old)) }
    ensures next { OnOk result (next.new ≡ next.old + count_alone around.now (stmt_of s.old)) }
{
    match s {
        Stmt::Block(_) => Ok(()),
        Stmt::Reduce {
            key,
            total,
            reduce,
            targets,
            values,
        } => {
            let stmts = pick_parts(alloc, next, *key, *total, *reduce, around, targets, values)?;
            put(s, Stmt::Block(stmts));
            Ok(())
        }
        _ => Ok(()),
    }
}

// The picks of a block come to be onto scalars.
#[cycle(picking)]
fn pick_block(
    alloc: Global,
    next: &mut u32,
    around: &[u32],
    stmts: &mut Vec<Stmt>,
) -> Result<(), AllocError>
    ensures onto { OnOk result (sequence (map stmt_of stmts.new.items) ≡ onto_scalars around.now next.old (sequence (map stmt_of stmts.old.items))) }
    ensures next { OnOk result (next.new ≡ next.old + count_picks around.now (sequence (map stmt_of stmts.old.items))) }
{
    for i in 0..stmts.len() {
        pick_onto(alloc, next, around, &mut stmts[i])?;
    }
    Ok(())
}

// The same of a part of a sequential phase in a box.
#[cycle(picking)]
fn pick_part(
    alloc: Global,
    next: &mut u32,
    around: &[u32],
    s: &mut Box<Stmt>,
) -> Result<(), AllocError>
    ensures onto { OnOk result (stmt_of s.new.value ≡ onto_scalars around.now next.old (stmt_of s.old.value)) }
    ensures next { OnOk result (next.new ≡ next.old + count_picks around.now (stmt_of s.old.value)) }
{
    pick_onto(alloc, next, around, s)?;
    Ok(())
}

// The same of a For's body.
#[cycle(picking)]
fn pick_inside(
    alloc: Global,
    next: &mut u32,
    around: &[u32],
    iterator: u32,
    body: &mut Box<Stmt>,
) -> Result<(), AllocError>
    ensures onto { OnOk result (stmt_of body.new.value ≡ onto_scalars (iterator ∷ around.now) next.old (stmt_of body.old.value)) }
    ensures next { OnOk result (next.new ≡ next.old + count_picks (iterator ∷ around.now) (stmt_of body.old.value)) }
{
    let iterators = inside(alloc, iterator, around)?;
    let picked = pick_part(alloc, next, &iterators, body);
    drop(iterators);
    picked
}

// The same of a part of a sequential phase.
#[cycle(picking)]
fn pick_onto(alloc: Global, next: &mut u32, around: &[u32], s: &mut Stmt) -> Result<(), AllocError>
    ensures onto { OnOk result (stmt_of s.new ≡ onto_scalars around.now next.old (stmt_of s.old)) }
    ensures next { OnOk result (next.new ≡ next.old + count_picks around.now (stmt_of s.old)) }
{
    match s {
        Stmt::Block(stmts) => pick_block(alloc, next, around, stmts),
        Stmt::Reduce { .. } => pick_alone(alloc, next, around, s),
        Stmt::For { head, body, .. } => { pick_inside(alloc, next, around, head.iterator, body) }
        Stmt::If { yes, no, .. } => {
            pick_part(alloc, next, around, yes)?;
            pick_part(alloc, next, around, no)
        }
        Stmt::While { body, .. } => pick_part(alloc, next, around, body),
        Stmt::Do { body, .. } => pick_part(alloc, next, around, body),
        _ => Ok(()),
    }
}
