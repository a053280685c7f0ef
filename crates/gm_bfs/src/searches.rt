//! The loops of a search.

ghost use Rattle.std.specs.Prelude.{◌≡◌, [], ◌∷◌, ◌++◌, ◌&&◌, false, true, IfOk, OnOk, map};
ghost use Rattle.gm_value.specs.declared.operations.Op2.TheVariants.{Ge};
ghost use Rattle.gm_value.specs.declared.values.Value.TheVariants.{Flag};
ghost use Rattle.gm_ast.specs.Program.{Binary, Const, Foreach, Skip, While};
ghost use Rattle.gm_ast.specs.Tree.{expr_of, stmt_of};
ghost use Rattle.gm_bfs.specs.Searches as Searches;
ghost use Rattle.gm_bfs.specs.Variables as Variables;

use crate::fresh::{Fresh, Site};
use crate::marked::Marks;
use crate::marks::{asks_down, asks_up, copied};
use crate::pieces::{
    activate, add, at_node, begin, binary, block, copy, level_before, look, next_level, over_nodes,
    reach, scalar, set,
};
use crate::quiet::{is_idle, is_safe};
use crate::readings::{by_levels, conjunction};
use gm_ast::tree::{Expr, Key, Search, Stmt};
use gm_base::NoMemory;
use gm_trees::places::{taken, taken_value};
use gm_value::{Op2, Value};
use std::alloc::Global;

// A search among so many declared variables: where it stands, and its iterator.
#[derive(Clone, Copy)]
struct Around {
    site: Site,
    fresh: Fresh,
    count: usize,
    iterator: u32,
}

// No statement.
fn nothing(alloc: Global) -> Stmt
    ensures { stmt_of result ≡ Skip }
{
    Stmt::Block(Vec::new(alloc))
}

// Whether a part does nothing and cannot fault.
fn is_left_out(around: Around, filter: &Expr, body: &Stmt) -> bool
    ensures { result ≡ (Searches.is_idle (stmt_of body.now) && Searches.is_safe around.iterator (expr_of filter.now)) }
{
    is_idle(body) && is_safe(around.iterator, filter)
}

// The condition of a part's loop over the active nodes.
fn where_active(alloc: Global, around: Around, filter: Expr) -> Result<Expr, NoMemory>
    ensures { IfOk result (λ r. expr_of r ≡ Searches.conjunction (Searches.at_node around.site around.iterator around.fresh.active) (expr_of filter)) }
{
    let active = at_node(around.site, around.iterator, around.fresh.active);
    conjunction(alloc, active, filter)
}

// The loop of a part over the active nodes, made of what the part has.
fn visits(
    alloc: Global,
    around: Around,
    marks: &Marks,
    key: Key,
    filter: &mut Expr,
    body: &mut Stmt,
) -> Result<Stmt, NoMemory>
    ensures { IfOk result (λ r. stmt_of r ≡ Foreach key around.site.place (Searches.over_nodes around.site around.iterator) (Searches.conjunction (Searches.at_node around.site around.iterator around.fresh.active) (expr_of filter.old)) (Searches.by_levels around.fresh marks.now (stmt_of body.old))) }
{
    by_levels(alloc, around.fresh, marks, body)?;
    let filter = where_active(alloc, around, taken_value(filter))?;
    let body = Box::new(alloc, taken(alloc, body))?;
    Ok(Stmt::Foreach {
        key,
        place: around.site.place,
        head: over_nodes(around.site, around.iterator),
        filter,
        body,
    })
}

// The loop of a part over the active nodes, or nothing where it does nothing and cannot fault.
fn visit(
    alloc: Global,
    around: Around,
    marks: &Marks,
    key: Key,
    filter: &mut Expr,
    body: &mut Stmt,
) -> Result<Stmt, NoMemory>
    ensures { IfOk result (λ r. stmt_of r ≡ Searches.visit around.site around.fresh marks.now key around.iterator (expr_of filter.old) (stmt_of body.old)) }
{
    if is_left_out(around, filter, body) {
        Ok(nothing(alloc))
    } else {
        visits(alloc, around, marks, key, filter, body)
    }
}

// The next level, where a test holds.
fn next_level_where(alloc: Global, around: Around, test: bool) -> Result<Stmt, NoMemory>
    ensures { IfOk result (λ r. stmt_of r ≡ Searches.where_asked test (Searches.next_level around.site around.fresh)) }
{
    if test {
        next_level(alloc, around.site, around.fresh)
    } else {
        Ok(nothing(alloc))
    }
}

// The level before the current one, where a test holds.
fn level_before_where(alloc: Global, around: Around, test: bool) -> Result<Stmt, NoMemory>
    ensures { IfOk result (λ r. stmt_of r ≡ Searches.where_asked test (Searches.level_before around.site around.fresh around.fresh.up)) }
{
    if test {
        level_before(alloc, around.site, around.fresh, around.fresh.up)
    } else {
        Ok(nothing(alloc))
    }
}

// Says that no node of the next level was found.
fn none_found(around: Around) -> Stmt
    ensures { stmt_of result ≡ Searches.set around.site around.fresh.found (Const (Flag false)) }
{
    set(
        around.site,
        around.fresh.found,
        Expr::Const(Value::Flag(false)),
    )
}

// Says that there is another level where a node of it was found.
fn more_where_found(around: Around) -> Stmt
    ensures { stmt_of result ≡ Searches.set around.site around.fresh.more (Searches.scalar around.site around.fresh.found) }
{
    set(
        around.site,
        around.fresh.more,
        scalar(around.site, around.fresh.found),
    )
}

// Goes to the next level.
fn go_down(around: Around) -> Stmt
    ensures { stmt_of result ≡ Searches.set around.site around.fresh.current (Searches.scalar around.site around.fresh.down) }
{
    set(
        around.site,
        around.fresh.current,
        scalar(around.site, around.fresh.down),
    )
}

// Adds what comes before the visits of a level.
fn start_turn(
    alloc: Global,
    around: Around,
    marks: &Marks,
    up: bool,
    stmts: &mut Vec<Stmt>,
) -> Result<(), NoMemory>
    ensures { OnOk result (map stmt_of stmts.new.items ≡ map stmt_of stmts.old.items ++ (
        Searches.next_level around.site around.fresh ∷
        Searches.where_asked up (Searches.level_before around.site around.fresh around.fresh.up) ∷
        Searches.set around.site around.fresh.found (Const (Flag false)) ∷
        Searches.activate around.site around.fresh ∷
        Searches.copy around.site around.fresh marks.now ∷ [])) }
{
    add(stmts, next_level(alloc, around.site, around.fresh)?)?;
    add(stmts, level_before_where(alloc, around, up)?)?;
    add(stmts, none_found(around))?;
    add(stmts, activate(alloc, around.site, around.fresh)?)?;
    add(stmts, copy(alloc, around.site, around.fresh, marks)?)?;
    Ok(())
}

// Finds the next level, and then visits this one.
fn reach_and_visit(
    alloc: Global,
    around: Around,
    marks: &Marks,
    key: Key,
    filter: &mut Expr,
    body: &mut Stmt,
) -> Result<Stmt, NoMemory>
    ensures { IfOk result (λ r. stmt_of r ≡ Searches.first_where true (Searches.reach around.site around.fresh) (Searches.visit around.site around.fresh marks.now key around.iterator (expr_of filter.old) (stmt_of body.old))) }
{
    let mut stmts = Vec::new(alloc);
    add(&mut stmts, reach(alloc, around.site, around.fresh)?)?;
    add(&mut stmts, visit(alloc, around, marks, key, filter, body)?)?;
    Ok(block(stmts))
}

// Visits a level, and then finds the next one.
fn visit_and_reach(
    alloc: Global,
    around: Around,
    marks: &Marks,
    key: Key,
    filter: &mut Expr,
    body: &mut Stmt,
) -> Result<Stmt, NoMemory>
    ensures { IfOk result (λ r. stmt_of r ≡ Searches.first_where false (Searches.reach around.site around.fresh) (Searches.visit around.site around.fresh marks.now key around.iterator (expr_of filter.old) (stmt_of body.old))) }
{
    let mut stmts = Vec::new(alloc);
    add(&mut stmts, visit(alloc, around, marks, key, filter, body)?)?;
    add(&mut stmts, reach(alloc, around.site, around.fresh)?)?;
    Ok(block(stmts))
}

// The visits of a level, behind what finds the next level where a test holds, else before it.
fn visit_level(
    alloc: Global,
    around: Around,
    marks: &Marks,
    below: bool,
    key: Key,
    filter: &mut Expr,
    body: &mut Stmt,
) -> Result<Stmt, NoMemory>
    ensures { IfOk result (λ r. stmt_of r ≡ Searches.first_where below (Searches.reach around.site around.fresh) (Searches.visit around.site around.fresh marks.now key around.iterator (expr_of filter.old) (stmt_of body.old))) }
{
    if below {
        reach_and_visit(alloc, around, marks, key, filter, body)
    } else {
        visit_and_reach(alloc, around, marks, key, filter, body)
    }
}

// Adds what comes behind the visits of a level.
fn end_turn(alloc: Global, around: Around, stmts: &mut Vec<Stmt>) -> Result<(), NoMemory>
    ensures { OnOk result (map stmt_of stmts.new.items ≡ map stmt_of stmts.old.items ++ (
        Searches.look around.site around.fresh ∷
        Searches.set around.site around.fresh.more (Searches.scalar around.site around.fresh.found) ∷
        Searches.set around.site around.fresh.current (Searches.scalar around.site around.fresh.down) ∷ [])) }
{
    add(stmts, look(alloc, around.site, around.fresh)?)?;
    add(stmts, more_where_found(around))?;
    add(stmts, go_down(around))?;
    Ok(())
}

// The turn of a level.
fn forward_turn(
    alloc: Global,
    around: Around,
    key: Key,
    filter: &mut Expr,
    body: &mut Stmt,
) -> Result<Stmt, NoMemory>
    ensures { IfOk result (λ r. stmt_of r ≡ Searches.forward_turn around.site around.fresh around.count key around.iterator (expr_of filter.old) (stmt_of body.old)) }
{
    let marks = copied(alloc, around.count, body)?;
    let up = asks_up(body);
    let below = asks_down(body);
    let mut stmts = Vec::new(alloc);
    start_turn(alloc, around, &marks, up, &mut stmts)?;
    let visits = visit_level(alloc, around, &marks, below, key, filter, body)?;
    add(&mut stmts, visits)?;
    end_turn(alloc, around, &mut stmts)?;
    Ok(block(stmts))
}

// The levels from that of the root on.
fn forward(
    alloc: Global,
    around: Around,
    key: Key,
    filter: &mut Expr,
    body: &mut Stmt,
) -> Result<Stmt, NoMemory>
    ensures { IfOk result (λ r. stmt_of r ≡ Searches.forward around.site around.fresh around.count key around.iterator (expr_of filter.old) (stmt_of body.old)) }
{
    let turn = forward_turn(alloc, around, key, filter, body)?;
    Ok(Stmt::While {
        key: around.site.filter_key(),
        place: around.site.place,
        test: scalar(around.site, around.fresh.more),
        body: Box::new(alloc, turn)?,
    })
}

// Adds what comes before the visits of a level on the way back.
fn start_back_turn(
    alloc: Global,
    around: Around,
    marks: &Marks,
    up: bool,
    below: bool,
    stmts: &mut Vec<Stmt>,
) -> Result<(), NoMemory>
    ensures { OnOk result (map stmt_of stmts.new.items ≡ map stmt_of stmts.old.items ++ (
        Searches.where_asked below (Searches.next_level around.site around.fresh) ∷
        Searches.where_asked up (Searches.level_before around.site around.fresh around.fresh.up) ∷
        Searches.activate around.site around.fresh ∷
        Searches.copy around.site around.fresh marks.now ∷ [])) }
{
    add(stmts, next_level_where(alloc, around, below)?)?;
    add(stmts, level_before_where(alloc, around, up)?)?;
    add(stmts, activate(alloc, around.site, around.fresh)?)?;
    add(stmts, copy(alloc, around.site, around.fresh, marks)?)?;
    Ok(())
}

// The turn of a level on the way back.
fn back_turn(
    alloc: Global,
    around: Around,
    key: Key,
    filter: &mut Expr,
    body: &mut Stmt,
) -> Result<Stmt, NoMemory>
    ensures { IfOk result (λ r. stmt_of r ≡ Searches.back_turn around.site around.fresh around.count key around.iterator (expr_of filter.old) (stmt_of body.old)) }
{
    let marks = copied(alloc, around.count, body)?;
    let up = asks_up(body);
    let below = asks_down(body);
    let mut stmts = Vec::new(alloc);
    start_back_turn(alloc, around, &marks, up, below, &mut stmts)?;
    let visits = visit(alloc, around, &marks, key, filter, body)?;
    add(&mut stmts, visits)?;
    add(
        &mut stmts,
        level_before(alloc, around.site, around.fresh, around.fresh.current)?,
    )?;
    Ok(block(stmts))
}

// Whether the current level is one.
fn is_level(alloc: Global, around: Around) -> Result<Expr, NoMemory>
    ensures { IfOk result (λ r. expr_of r ≡ Binary Ge around.site.place (Searches.scalar around.site around.fresh.current) (Searches.number 0)) }
{
    let site = around.site;
    let fresh = around.fresh;
    let zero = Expr::Const(Value::I32(0));
    let is_level = binary(alloc, site, Op2::Ge, scalar(site, fresh.current), zero)?;
    Ok(is_level)
}

// The turns of the levels on the way back.
fn back_turns(
    alloc: Global,
    around: Around,
    key: Key,
    filter: &mut Expr,
    body: &mut Stmt,
) -> Result<Stmt, NoMemory>
    ensures { IfOk result (λ r. stmt_of r ≡ While (Variables.filter_key around.site) around.site.place (Binary Ge around.site.place (Searches.scalar around.site around.fresh.current) (Searches.number 0)) (Searches.back_turn around.site around.fresh around.count key around.iterator (expr_of filter.old) (stmt_of body.old))) }
{
    let turn = back_turn(alloc, around, key, filter, body)?;
    let body = Box::new(alloc, turn)?;
    let test = is_level(alloc, around)?;
    Ok(Stmt::While {
        key: around.site.filter_key(),
        place: around.site.place,
        test,
        body,
    })
}

// The levels from the last one back to the root's.
fn backward(
    alloc: Global,
    around: Around,
    key: Key,
    filter: &mut Expr,
    body: &mut Stmt,
) -> Result<Stmt, NoMemory>
    ensures { IfOk result (λ r. stmt_of r ≡ Searches.backward around.site around.fresh around.count key around.iterator (expr_of filter.old) (stmt_of body.old)) }
{
    let mut stmts = Vec::new(alloc);
    add(
        &mut stmts,
        level_before(alloc, around.site, around.fresh, around.fresh.current)?,
    )?;
    add(&mut stmts, back_turns(alloc, around, key, filter, body)?)?;
    Ok(block(stmts))
}

// A search without a way back.
pub(crate) fn search_out(
    alloc: Global,
    fresh: Fresh,
    count: usize,
    key: Key,
    search: Search,
    filter: &mut Expr,
    body: &mut Stmt,
) -> Result<Stmt, NoMemory>
    ensures { IfOk result (λ r. stmt_of r ≡ Searches.search_out fresh count key search (expr_of filter.old) (stmt_of body.old)) }
{
    let around = Around {
        site: Site::new(key, search),
        fresh,
        count,
        iterator: search.iterator,
    };
    let mut stmts = Vec::new(alloc);
    add(
        &mut stmts,
        begin(alloc, around.site, fresh, key, search.root)?,
    )?;
    add(&mut stmts, forward(alloc, around, key, filter, body)?)?;
    Ok(block(stmts))
}

// A search with a way back.
pub(crate) fn search_both(
    alloc: Global,
    fresh: Fresh,
    count: usize,
    key: Key,
    search: Search,
    filter: &mut Expr,
    body: &mut Stmt,
    back_key: Key,
    back_filter: &mut Expr,
    back: &mut Stmt,
) -> Result<Stmt, NoMemory>
    ensures { IfOk result (λ r. stmt_of r ≡ Searches.search_both fresh count key search (expr_of filter.old) (stmt_of body.old) back_key (expr_of back_filter.old) (stmt_of back.old)) }
{
    let around = Around {
        site: Site::new(key, search),
        fresh,
        count,
        iterator: search.iterator,
    };
    let mut stmts = Vec::new(alloc);
    add(
        &mut stmts,
        begin(alloc, around.site, fresh, key, search.root)?,
    )?;
    add(&mut stmts, forward(alloc, around, key, filter, body)?)?;
    add(
        &mut stmts,
        backward(alloc, around, back_key, back_filter, back)?,
    )?;
    Ok(block(stmts))
}
