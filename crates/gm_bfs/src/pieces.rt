//! The statements that keep levels.

ghost use Rattle.std.specs.Prelude.{◌≡◌, [], ◌∷◌, ◌++◌, IfOk, OnOk, map};
ghost use Rattle.gm_ast.specs.Program.{Assign, Binary, Live, always, sequence};
ghost use Rattle.gm_ast.specs.declared.tree.Target.TheVariants.{Scalar};
ghost use Rattle.gm_ast.specs.Tree.{expr_of, stmt_of};
ghost use Rattle.gm_bfs.specs.Searches as Searches;

use crate::fresh::{Fresh, Site, copy_of};
use crate::marked::Marks;
use gm_ast::tree::{Domain, Expr, Head, Key, Stage, Stmt, Target};
use gm_base::NoMemory;
use gm_value::{Op2, Reduce, Value};
use std::alloc::Global;

// The condition that always holds.
fn always() -> Expr
    ensures { expr_of result ≡ always }
{
    Expr::Const(Value::Flag(true))
}

// A scalar.
pub(crate) fn scalar(site: Site, variable: u32) -> Expr
    ensures { expr_of result ≡ Searches.scalar site variable }
{
    Expr::Var {
        variable,
        place: site.place,
    }
}

// A property through a variable.
pub(crate) fn at_node(site: Site, owner: u32, property: u32) -> Expr
    ensures { expr_of result ≡ Searches.at_node site owner property }
{
    Expr::Property {
        owner,
        property,
        place: site.place,
    }
}

// An operation on two values.
pub(crate) fn binary(
    alloc: Global,
    site: Site,
    op: Op2,
    left: Expr,
    right: Expr,
) -> Result<Expr, NoMemory>
    ensures { IfOk result (λ r. expr_of r ≡ Binary op site.place (expr_of left) (expr_of right)) }
{
    Ok(Expr::Binary {
        op,
        place: site.place,
        left: Box::new(alloc, left)?,
        right: Box::new(alloc, right)?,
    })
}

// An assignment to a scalar.
pub(crate) fn set(site: Site, variable: u32, value: Expr) -> Stmt
    ensures { stmt_of result ≡ Searches.set site variable (expr_of value) }
{
    Stmt::Assign {
        key: site.body_key(),
        target: Target::Scalar {
            variable,
            place: site.place,
        },
        value,
    }
}

// An assignment to a property through a variable.
fn set_at(site: Site, owner: u32, property: u32, value: Expr) -> Stmt
    ensures { stmt_of result ≡ Searches.set_at site owner property (expr_of value) }
{
    Stmt::Assign {
        key: site.body_key(),
        target: Target::Property {
            owner,
            property,
            place: site.place,
        },
        value,
    }
}

// The nodes of the graph.
pub(crate) fn over_nodes(site: Site, iterator: u32) -> Head
    ensures { result ≡ Searches.over_nodes site iterator }
{
    Head {
        iterator,
        domain: Domain::Nodes,
        owner: site.graph,
        place: site.place,
    }
}

// A loop over all nodes that pass a filter, which cannot fault: its key comes before all others.
fn each_node(
    alloc: Global,
    site: Site,
    fresh: Fresh,
    filter: Expr,
    body: Stmt,
) -> Result<Stmt, NoMemory>
    ensures { IfOk result (λ r. stmt_of r ≡ Searches.each_node site fresh (expr_of filter) (stmt_of body)) }
{
    let first = Key {
        statement: 0,
        stage: Stage::Inner,
    };
    Ok(Stmt::Foreach {
        key: first,
        place: site.place,
        head: over_nodes(site, fresh.node),
        filter,
        body: Box::new(alloc, body)?,
    })
}

// The levels before the first turn: the root's, and no level.
fn first_levels(alloc: Global, site: Site, fresh: Fresh) -> Result<Stmt, NoMemory>
    ensures { IfOk result (λ r. stmt_of r ≡ Searches.first_levels site fresh) }
{
    let node = scalar(site, fresh.node);
    let root = scalar(site, fresh.root);
    let is_root = binary(alloc, site, Op2::Eq, node, root)?;
    let zero = Expr::Const(Value::I32(0));
    let unreached = Expr::Const(Value::I32(2_147_483_647));
    let level = Expr::Choose(
        Box::new(alloc, is_root)?,
        Box::new(alloc, zero)?,
        Box::new(alloc, unreached)?,
    );
    let body = set_at(site, fresh.node, fresh.level, level);
    each_node(alloc, site, fresh, always(), body)
}

// Adds a statement to those of a block.
pub(crate) fn add(stmts: &mut Vec<Stmt>, stmt: Stmt) -> Result<(), NoMemory>
    ensures { OnOk result (map stmt_of stmts.new.items ≡ map stmt_of stmts.old.items ++ (stmt_of stmt ∷ [])) }
{
    stmts.push(stmt)?;
    Ok(())
}

// The block of statements.
pub(crate) fn block(stmts: Vec<Stmt>) -> Stmt
    ensures { stmt_of result ≡ sequence (map stmt_of stmts.items) }
{
    Stmt::Block(stmts)
}

// Looks the root up.
fn find_root(site: Site, fresh: Fresh, key: Key, root: u32) -> Stmt
    ensures { stmt_of result ≡ Assign key (Scalar fresh.root site.place) (Live root site.place) }
{
    Stmt::Assign {
        key,
        target: Target::Scalar {
            variable: fresh.root,
            place: site.place,
        },
        value: Expr::Live {
            variable: root,
            place: site.place,
        },
    }
}

// Sets the current level to that of the root.
fn set_first(site: Site, fresh: Fresh) -> Stmt
    ensures { stmt_of result ≡ Searches.set site fresh.current (Searches.number 0) }
{
    set(site, fresh.current, Expr::Const(Value::I32(0)))
}

// Says that there is a level whose turn is to come.
fn set_more(site: Site, fresh: Fresh) -> Stmt
    ensures { stmt_of result ≡ Searches.set site fresh.more always }
{
    set(site, fresh.more, always())
}

// What comes before the first level.
pub(crate) fn begin(
    alloc: Global,
    site: Site,
    fresh: Fresh,
    key: Key,
    root: u32,
) -> Result<Stmt, NoMemory>
    ensures { IfOk result (λ r. stmt_of r ≡ Searches.begin site fresh key root) }
{
    let mut stmts = Vec::new(alloc);
    add(&mut stmts, find_root(site, fresh, key, root))?;
    add(&mut stmts, first_levels(alloc, site, fresh)?)?;
    add(&mut stmts, set_first(site, fresh))?;
    add(&mut stmts, set_more(site, fresh))?;
    Ok(block(stmts))
}

// Sets the next level.
pub(crate) fn next_level(alloc: Global, site: Site, fresh: Fresh) -> Result<Stmt, NoMemory>
    ensures { IfOk result (λ r. stmt_of r ≡ Searches.next_level site fresh) }
{
    let one = Expr::Const(Value::I32(1));
    let next = binary(alloc, site, Op2::Add, scalar(site, fresh.current), one)?;
    Ok(set(site, fresh.down, next))
}

// Sets a variable to the level before the current one.
pub(crate) fn level_before(
    alloc: Global,
    site: Site,
    fresh: Fresh,
    variable: u32,
) -> Result<Stmt, NoMemory>
    ensures { IfOk result (λ r. stmt_of r ≡ Searches.level_before site fresh variable) }
{
    let one = Expr::Const(Value::I32(1));
    let before = binary(alloc, site, Op2::Sub, scalar(site, fresh.current), one)?;
    Ok(set(site, variable, before))
}

// Activates the nodes on the current level.
pub(crate) fn activate(alloc: Global, site: Site, fresh: Fresh) -> Result<Stmt, NoMemory>
    ensures { IfOk result (λ r. stmt_of r ≡ Searches.activate site fresh) }
{
    let level = at_node(site, fresh.node, fresh.level);
    let current = scalar(site, fresh.current);
    let is_current = binary(alloc, site, Op2::Eq, level, current)?;
    let body = set_at(site, fresh.node, fresh.active, is_current);
    each_node(alloc, site, fresh, always(), body)
}

// The ends of the edges of active nodes are reached.
pub(crate) fn reach(alloc: Global, site: Site, fresh: Fresh) -> Result<Stmt, NoMemory>
    ensures { IfOk result (λ r. stmt_of r ≡ Searches.reach site fresh) }
{
    let target = Target::Property {
        owner: fresh.neighbour,
        property: fresh.level,
        place: site.place,
    };
    let least = Stmt::Reduce {
        key: site.body_key(),
        total: site.total(),
        reduce: Reduce::Min,
        targets: vec![in alloc; target]?,
        values: vec![in alloc; scalar(site, fresh.down)]?,
    };
    let along = Stmt::Foreach {
        key: site.filter_key(),
        place: site.place,
        head: Head {
            iterator: fresh.neighbour,
            domain: Domain::OutNbrs,
            owner: fresh.node,
            place: site.place,
        },
        filter: always(),
        body: Box::new(alloc, least)?,
    };
    let active = at_node(site, fresh.node, fresh.active);
    each_node(alloc, site, fresh, active, along)
}

// Looks whether a node is on the next level.
pub(crate) fn look(alloc: Global, site: Site, fresh: Fresh) -> Result<Stmt, NoMemory>
    ensures { IfOk result (λ r. stmt_of r ≡ Searches.look site fresh) }
{
    let level = at_node(site, fresh.node, fresh.level);
    let is_next = binary(alloc, site, Op2::Eq, level, scalar(site, fresh.down))?;
    let target = Target::Scalar {
        variable: fresh.found,
        place: site.place,
    };
    let any = Stmt::Reduce {
        key: site.body_key(),
        total: site.total(),
        reduce: Reduce::Or,
        targets: vec![in alloc; target]?,
        values: vec![in alloc; is_next]?,
    };
    each_node(alloc, site, fresh, always(), any)
}

// The assignment of a property's copy.
fn copy_property(site: Site, fresh: Fresh, property: u32) -> Result<Stmt, NoMemory>
    ensures { IfOk result (λ r. stmt_of r ≡ Searches.copy_property site fresh property) }
{
    let copy = copy_of(fresh, property)?;
    Ok(set_at(site, fresh.node, copy, at_node(site, fresh.node, property)))
}

// The assignments of the copies of properties.
fn copy_each(
    alloc: Global,
    site: Site,
    fresh: Fresh,
    properties: &[u32],
) -> Result<Vec<Stmt>, NoMemory>
    ensures { IfOk result (λ r. map stmt_of r.items ≡ map (Searches.copy_property site fresh) properties.now) }
{
    let mut copies = Vec::with_capacity(alloc, properties.len())?;
    for property in properties {
        copies.push(copy_property(site, fresh, *property)?)?;
    }
    Ok(copies)
}

// The assignments of the copies of marked properties.
fn copies(alloc: Global, site: Site, fresh: Fresh, marks: &Marks) -> Result<Vec<Stmt>, NoMemory>
    ensures { IfOk result (λ r. map stmt_of r.items ≡ Searches.copies_from site fresh 0 marks.now) }
{
    let properties = marks.in_order(alloc)?;
    copy_each(alloc, site, fresh, &properties)
}

// The copies of a part.
pub(crate) fn copy(alloc: Global, site: Site, fresh: Fresh, marks: &Marks) -> Result<Stmt, NoMemory>
    ensures { IfOk result (λ r. stmt_of r ≡ Searches.copy site fresh marks.now) }
{
    let copies = copies(alloc, site, fresh, marks)?;
    if copies.is_empty() {
        return Ok(Stmt::Block(copies));
    }
    each_node(alloc, site, fresh, always(), Stmt::Block(copies))
}
