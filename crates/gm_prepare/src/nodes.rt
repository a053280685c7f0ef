//! Nodes through which a loop that is cut reduces, read into locals of their own just before.
//!
//! A local of the loop's body through which a reduction reaches a node could not go to a property. So the node is read
//! into a local that nothing else names: `x.p += e` is `Node y = x; y.p += e`, both a piece of their own.

ghost use Rattle.std.specs.Prelude.{◌≡◌, ◌+◌, ◌∷◌, [], ◌++◌, Some, IfOk, OnOk, map, option_map};
ghost use Rattle.gm_ast.specs.Program as Program;
ghost use Rattle.gm_ast.specs.Program.{sequence};
ghost use Rattle.gm_ast.specs.Tree.{program_of, stmt_of};
ghost use Rattle.gm_dissect.specs.Loops.{each_loop};
ghost use Rattle.gm_forms.specs.Meanings.{SameMeaning};
ghost use Rattle.gm_forms.specs.Ready.{Ready2};
ghost use Rattle.gm_parting.specs.Nodes as Nodes;
ghost use Rattle.gm_parting.specs.Nodes.{all_nodes_in, node_local, node_locals, nodes_in, nodes_loop, nodes_read, separate, through, with_nodes_read};
ghost use Rattle.gm_prepare.specs.Reading as Reading;

use gm_ast::forms::Work;
use gm_ast::tree::{Declaration, Expr, Key, Sort, Stmt, Target, Tree, Variable};
use gm_base::{Items, NoMemory, Place};
use gm_cut::own::is_own;
use gm_trees::places::{finish, put, put_after, taken};
use gm_value::{VType, Value};
use std::alloc::{AllocError, Global};

/// Reads each node through which a loop that is not of own statements reduces, where a local of an outer body holds it,
/// into a local of its own first. The locals stand behind the program's variables. A program that is ready for cutting
/// means the same and still is. It takes time linear in the program.
pub fn read_nodes(alloc: Global, program: Work) -> Result<Work, NoMemory>
    ensures made { IfOk result (λ r. program_of r ≡ with_nodes_read (program_of program)) }
    ensures same { IfOk result (λ r. Ready2 (program_of program) → SameMeaning (program_of program) (program_of r)) }
    ensures ready { IfOk result (λ r. Ready2 (program_of program) → Ready2 (program_of r)) }
{
    let mut tree = program.into_tree();
    let outcome = read_all(alloc, &mut tree);
    finish(tree, outcome)
}

// The same of a tree.
fn read_all(alloc: Global, tree: &mut Tree) -> Result<(), NoMemory>
    ensures { OnOk result (program_of tree.new ≡ with_nodes_read (program_of tree.old)) }
{
    let count = count_all(&tree.declarations, &tree.body)?;
    let locals = Locals::behind(tree.declarations.len(), count)?;
    read_phase(alloc, &tree.declarations, locals, &mut tree.body)?;
    declare(alloc, 1, count, &mut tree.declarations)?;
    declare(alloc, 2, count, &mut tree.declarations)
}

// The sum of two numbers, where it is one.
fn sum(a: u32, b: u32) -> Result<u32, NoMemory>
    ensures { IfOk result (λ n. n ≡ a + b) }
{
    a.checked_add(b).ok_or(NoMemory)
}

// The first of the locals that hold nodes in outer bodies, and of those that do in inner ones.
#[derive(Clone, Copy)]
struct Locals {
    outer: u32,
    inner: u32,
}

impl Locals {
    // Those behind so many variables, where each loop reads at most so many nodes.
    fn behind(declared: usize, count: u32) -> Result<Locals, NoMemory>
        ensures outer { IfOk result (λ r. r.outer ≡ declared) }
        ensures inner { IfOk result (λ r. r.inner ≡ declared + count) }
    {
        let outer = u32::try_from(declared).map_err(|_| NoMemory)?;
        let inner = sum(outer, count)?;
        Ok(Locals { outer, inner })
    }

    // Those of an inner body.
    fn within(self) -> Locals
        ensures outer { result.outer ≡ self.inner }
        ensures inner { result.inner ≡ self.inner }
    {
        Locals {
            outer: self.inner,
            inner: self.inner,
        }
    }
}

// Whether a variable is a scalar of an outer body.
pub(crate) fn is_body_local(declarations: &[Declaration], variable: u32) -> bool
    ensures { result ≡ Nodes.is_body_local declarations.now variable }
{
    match declarations.get(variable as usize) {
        None => false,
        Some(declaration) => {
            matches!(declaration.variable.sort, Sort::Scalar) && declaration.variable.depth == 1
        }
    }
}

// A read of a variable.
#[derive(Clone, Copy)]
struct Read {
    variable: u32,
    place: Place,
}

// The read of the node through which targets are reached, where it is to be first.
fn node_before(declarations: &[Declaration], targets: &[Target]) -> Option<Read>
    ensures { option_map (λ r. Program.Var r.variable r.place) result ≡ Nodes.node_before declarations.now targets.now }
{
    match targets.first() {
        Some(Target::Property { owner, place, .. }) => read_of(declarations, *owner, *place),
        _ => None,
    }
}

// The read of a variable, if it is a scalar of an outer body.
fn read_of(declarations: &[Declaration], variable: u32, place: Place) -> Option<Read>
    ensures { option_map (λ r. Program.Var r.variable r.place) result ≡ Reading.read_of declarations.now variable place }
{
    if is_body_local(declarations, variable) {
        Some(Read { variable, place })
    } else {
        None
    }
}

// How many nodes are read before a reduction.
fn count_before(declarations: &[Declaration], targets: &[Target]) -> u32
    ensures { result ≡ Nodes.one_if (Nodes.node_before declarations.now targets.now) }
{
    match node_before(declarations, targets) {
        None => 0,
        Some(_) => 1,
    }
}

// How many nodes a block reads.
#[cycle(counting)]
fn count_block(declarations: &[Declaration], stmts: &Vec<Stmt>) -> Result<u32, NoMemory>
    ensures { IfOk result (λ n. n ≡ nodes_in declarations.now (sequence (map stmt_of stmts.now.items))) }
{
    let mut count = 0;
    for stmt in stmts {
        count = sum(count, count_body(declarations, stmt)?)?;
    }
    Ok(count)
}

// How many nodes a body does.
#[cycle(counting)]
fn count_body(declarations: &[Declaration], body: &Stmt) -> Result<u32, NoMemory>
    ensures { IfOk result (λ n. n ≡ nodes_in declarations.now (stmt_of body.now)) }
{
    match body {
        Stmt::Block(stmts) => count_block(declarations, stmts),
        Stmt::Reduce { targets, .. } => Ok(count_before(declarations, targets)),
        Stmt::If { yes, no, .. } => {
            let before = count_body(declarations, yes)?;
            let behind = count_body(declarations, no)?;
            sum(before, behind)
        }
        Stmt::Foreach { body, .. } => count_body(declarations, body),
        _ => Ok(0),
    }
}

// How many nodes the loops of a block of a sequential phase read.
#[cycle(summing)]
fn count_phases(declarations: &[Declaration], stmts: &Vec<Stmt>) -> Result<u32, NoMemory>
    ensures { IfOk result (λ n. n ≡ all_nodes_in declarations.now (sequence (map stmt_of stmts.now.items))) }
{
    let mut count = 0;
    for stmt in stmts {
        count = sum(count, count_all(declarations, stmt)?)?;
    }
    Ok(count)
}

// How many nodes the loops of a sequential phase do.
#[cycle(summing)]
fn count_all(declarations: &[Declaration], s: &Stmt) -> Result<u32, NoMemory>
    ensures { IfOk result (λ n. n ≡ all_nodes_in declarations.now (stmt_of s.now)) }
{
    match s {
        Stmt::Block(stmts) => count_phases(declarations, stmts),
        Stmt::Foreach { body, .. } => count_body(declarations, body),
        Stmt::For { body, .. } => count_all(declarations, body),
        Stmt::If { yes, no, .. } => {
            let before = count_all(declarations, yes)?;
            let behind = count_all(declarations, no)?;
            sum(before, behind)
        }
        Stmt::While { body, .. } => count_all(declarations, body),
        Stmt::Do { body, .. } => count_all(declarations, body),
        _ => Ok(0),
    }
}

// A local that holds a node, inside so many parallel loops.
fn node_local(alloc: Global, depth: u32) -> Declaration
    ensures { result ≡ node_local depth }
{
    Declaration {
        name: Items::new(Vec::new(alloc)),
        variable: Variable {
            sort: Sort::Scalar,
            vtype: VType::Node,
            depth,
        },
    }
}

// Adds so many of them.
fn declare(
    alloc: Global,
    depth: u32,
    count: u32,
    declarations: &mut Vec<Declaration>,
) -> Result<(), NoMemory>
    ensures { OnOk result (declarations.new.items ≡ declarations.old.items ++ node_locals depth count) }
{
    for _i in 0..count {
        declarations.push(node_local(alloc, depth))?;
    }
    Ok(())
}

// A target comes to be through another node variable, where it is a property.
fn reach(variable: u32, target: &mut Target)
    ensures { target.new ≡ through variable target.old }
{
    if let Target::Property {
        owner: _,
        property,
        place,
    } = *target
    {
        *target = Target::Property {
            owner: variable,
            property,
            place,
        };
    }
}

// The same of several targets.
fn reach_through(variable: u32, targets: &mut Vec<Target>)
    ensures { targets.new.items ≡ map (through variable) targets.old.items }
{
    for i in 0..targets.len() {
        reach(variable, &mut targets[i]);
    }
}

// A part under a condition that holds, so that it is a piece of its own, in an outer body.
fn set_apart(alloc: Global, outer: bool, key: Key, s: &mut Stmt) -> Result<(), AllocError>
    ensures { OnOk result (stmt_of s.new ≡ separate outer key (stmt_of s.old)) }
{
    if !outer {
        return Ok(());
    }
    let yes = Box::new(alloc, taken(alloc, s))?;
    let no = Box::new(alloc, Stmt::Block(Vec::new(alloc)))?;
    put(
        s,
        Stmt::If {
            key,
            test: Expr::Const(Value::Flag(true)),
            yes,
            no,
        },
    );
    Ok(())
}

// The declaration of a local that is set to a read.
fn declared(variable: u32, key: Key, read: Read) -> Stmt
    ensures { stmt_of result ≡ Program.Declare key variable (Some (Program.Var read.variable read.place)) }
{
    Stmt::Declare {
        key,
        variable,
        value: Some(Expr::Var {
            variable: read.variable,
            place: read.place,
        }),
    }
}

// A reduction, with its node read into a local first. `outer` says whether it stands in an outer body.
fn read_first(
    alloc: Global,
    outer: bool,
    variable: u32,
    key: Key,
    read: Read,
    s: &mut Stmt,
) -> Result<(), AllocError>
    ensures { OnOk result (stmt_of s.new ≡ separate outer key (sequence (Program.Declare key variable (Some (Program.Var read.variable read.place)) ∷ stmt_of s.old ∷ []))) }
{
    let first = declared(variable, key, read);
    put_after(alloc, Some(first), s)?;
    set_apart(alloc, outer, key, s)
}

// A block, of an outer body or an inner one, reads its nodes first. `done` nodes are read before. Answers how many are then.
#[cycle(reading)]
fn read_block(
    alloc: Global,
    declarations: &[Declaration],
    outer: bool,
    locals: Locals,
    done: u32,
    stmts: &mut Vec<Stmt>,
) -> Result<u32, NoMemory>
    ensures done { IfOk result (λ n. n ≡ done + nodes_in declarations.now (sequence (map stmt_of stmts.old.items))) }
    ensures changed { IfOk result (λ n. sequence (map stmt_of stmts.new.items) ≡ nodes_read declarations.now outer locals.outer locals.inner done (sequence (map stmt_of stmts.old.items))) }
{
    let mut so_far = done;
    for i in 0..stmts.len() {
        let now = read_body(alloc, declarations, outer, locals, so_far, &mut stmts[i])?;
        so_far = now;
    }
    Ok(so_far)
}

// The same of a body in a box.
#[cycle(reading)]
fn read_inner(
    alloc: Global,
    declarations: &[Declaration],
    outer: bool,
    locals: Locals,
    done: u32,
    body: &mut Box<Stmt>,
) -> Result<u32, NoMemory>
    ensures done { IfOk result (λ n. n ≡ done + nodes_in declarations.now (stmt_of body.old.value)) }
    ensures changed { IfOk result (λ n. stmt_of body.new.value ≡ nodes_read declarations.now outer locals.outer locals.inner done (stmt_of body.old.value)) }
{
    let done = read_body(alloc, declarations, outer, locals, done, body)?;
    Ok(done)
}

// The same of a body.
#[cycle(reading)]
fn read_body(
    alloc: Global,
    declarations: &[Declaration],
    outer: bool,
    locals: Locals,
    done: u32,
    body: &mut Stmt,
) -> Result<u32, NoMemory>
    ensures done { IfOk result (λ n. n ≡ done + nodes_in declarations.now (stmt_of body.old)) }
    ensures changed { IfOk result (λ n. stmt_of body.new ≡ nodes_read declarations.now outer locals.outer locals.inner done (stmt_of body.old)) }
{
    match body {
        Stmt::Block(stmts) => read_block(alloc, declarations, outer, locals, done, stmts),
        Stmt::Reduce {
            key,
            total: _total,
            reduce: _reduce,
            targets,
            values: _values,
        } => {
            let Some(read) = node_before(declarations, targets) else {
                return Ok(done);
            };
            let variable = sum(locals.outer, done)?;
            reach_through(variable, targets);
            read_first(alloc, outer, variable, *key, read, body)?;
            sum(done, 1)
        }
        Stmt::If { yes, no, .. } => {
            let done = read_inner(alloc, declarations, outer, locals, done, yes)?;
            read_inner(alloc, declarations, outer, locals, done, no)
        }
        Stmt::Foreach { body, .. } => {
            read_inner(alloc, declarations, false, locals.within(), done, body)
        }
        _ => Ok(done),
    }
}

// The body of a loop that is not of own statements reads its nodes first.
fn read_loop(
    alloc: Global,
    declarations: &[Declaration],
    locals: Locals,
    outer: u32,
    body: &mut Box<Stmt>,
) -> Result<(), NoMemory>
    ensures { OnOk result (stmt_of body.new.value ≡ Reading.loop_read declarations.now locals.outer locals.inner outer (stmt_of body.old.value)) }
{
    if is_own(outer, body) {
        return Ok(());
    }
    read_inner(alloc, declarations, true, locals, 0, body)?;
    Ok(())
}

// The loops in a block of a sequential phase do.
#[cycle(loops)]
fn read_phases(
    alloc: Global,
    declarations: &[Declaration],
    locals: Locals,
    stmts: &mut Vec<Stmt>,
) -> Result<(), NoMemory>
    ensures { OnOk result (sequence (map stmt_of stmts.new.items) ≡ each_loop (nodes_loop declarations.now locals.outer locals.inner) (sequence (map stmt_of stmts.old.items))) }
{
    for i in 0..stmts.len() {
        read_phase(alloc, declarations, locals, &mut stmts[i])?;
    }
    Ok(())
}

// The same of a sequential phase in a box.
#[cycle(loops)]
fn read_part(
    alloc: Global,
    declarations: &[Declaration],
    locals: Locals,
    s: &mut Box<Stmt>,
) -> Result<(), NoMemory>
    ensures { OnOk result (stmt_of s.new.value ≡ each_loop (nodes_loop declarations.now locals.outer locals.inner) (stmt_of s.old.value)) }
{
    read_phase(alloc, declarations, locals, s)?;
    Ok(())
}

// The same of a sequential phase.
#[cycle(loops)]
fn read_phase(
    alloc: Global,
    declarations: &[Declaration],
    locals: Locals,
    s: &mut Stmt,
) -> Result<(), NoMemory>
    ensures { OnOk result (stmt_of s.new ≡ each_loop (nodes_loop declarations.now locals.outer locals.inner) (stmt_of s.old)) }
{
    match s {
        Stmt::Block(stmts) => read_phases(alloc, declarations, locals, stmts),
        Stmt::Foreach { head, body, .. } => {
            read_loop(alloc, declarations, locals, head.iterator, body)
        }
        Stmt::For { body, .. } => read_part(alloc, declarations, locals, body),
        Stmt::If { yes, no, .. } => {
            read_part(alloc, declarations, locals, yes)?;
            read_part(alloc, declarations, locals, no)
        }
        Stmt::While { body, .. } => read_part(alloc, declarations, locals, body),
        Stmt::Do { body, .. } => read_part(alloc, declarations, locals, body),
        _ => Ok(()),
    }
}
