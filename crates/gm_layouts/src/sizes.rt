//! How many slots the master list and the loops need besides those of variables.

ghost use Rattle.std.specs.Prelude.{◌≡◌, IfOk, map, suc};
ghost use Rattle.std.specs.List.{list_any};
ghost use Rattle.gm_ast.specs.Program.{sequence};
ghost use Rattle.gm_ast.specs.Tree.{stmt_of};
ghost use Rattle.gm_lowering.specs.Layouts as Layouts;

use gm_ast::tree::{Declaration, Stmt, Target};
use gm_base::NoMemory;
use gm_message::{is_global, is_register, variable_at};

/// One more, which is a number of 32 bits.
pub fn next(number: u32) -> Result<u32, NoMemory>
    ensures { IfOk result (λ r. r ≡ suc number) }
{
    match number.checked_add(1) {
        Some(more) => Ok(more),
        None => Err(NoMemory),
    }
}

/// A count as a number of 32 bits.
pub fn small(count: usize) -> Result<u32, NoMemory>
    ensures { IfOk result (λ r. r ≡ count) }
{
    match u32::try_from(count) {
        Ok(number) => Ok(number),
        Err(_) => Err(NoMemory),
    }
}

// Whether a target is a scalar of the procedure.
fn is_plain(declarations: &[Declaration], target: Target) -> bool
    ensures { result ≡ Layouts.is_scalar_of Layouts.is_global declarations.now target }
{
    match target {
        Target::Scalar { variable, .. } => is_global(variable_at(declarations, variable)),
        Target::Property { .. } => false,
    }
}

// Whether a target is a local of a loop.
fn is_local(declarations: &[Declaration], target: Target) -> bool
    ensures { result ≡ Layouts.is_scalar_of Layouts.is_register declarations.now target }
{
    match target {
        Target::Scalar { variable, .. } => is_register(variable_at(declarations, variable)),
        Target::Property { .. } => false,
    }
}

// Whether some target is a scalar of the procedure.
fn some_plain(declarations: &[Declaration], targets: &[Target]) -> bool
    ensures { result ≡ list_any (Layouts.is_scalar_of Layouts.is_global declarations.now) targets.now }
{
    targets.iter().any(|target| is_plain(declarations, *target))
}

// Whether some target is a local of a loop.
fn some_local(declarations: &[Declaration], targets: &[Target]) -> bool
    ensures { result ≡ list_any (Layouts.is_scalar_of Layouts.is_register declarations.now) targets.now }
{
    targets.iter().any(|target| is_local(declarations, *target))
}

// The spare positions of a reduction that keeps a tuple in the master list.
fn plain_positions(declarations: &[Declaration], targets: &[Target]) -> Result<u32, NoMemory>
    ensures { IfOk result (λ r. r ≡ Layouts.positions (Layouts.is_scalar_of Layouts.is_global declarations.now) targets.now) }
{
    if targets.len() < 2 || !some_plain(declarations, targets) {
        return Ok(0);
    }
    next(small(targets.len())?)
}

// The spare positions of a reduction that keeps a tuple at a vertex.
fn local_positions(declarations: &[Declaration], targets: &[Target]) -> Result<u32, NoMemory>
    ensures { IfOk result (λ r. r ≡ Layouts.positions (Layouts.is_scalar_of Layouts.is_register declarations.now) targets.now) }
{
    if targets.len() < 2 || !some_local(declarations, targets) {
        return Ok(0);
    }
    next(small(targets.len())?)
}

// How many loops of a block of the master list stand in each other that count or have a flag.
#[cycle(nesting)]
fn nesting_among(stmts: &Vec<Stmt>) -> Result<u32, NoMemory>
    ensures { IfOk result (λ r. r ≡ Layouts.nesting (sequence (map stmt_of stmts.now.items))) }
{
    let mut most = 0;
    for stmt in stmts {
        let one = nesting(stmt)?;
        most = most.max(one);
    }
    Ok(most)
}

// How many loops of the master list stand in each other that count or have a flag.
#[cycle(nesting)]
pub(crate) fn nesting(s: &Stmt) -> Result<u32, NoMemory>
    ensures { IfOk result (λ r. r ≡ Layouts.nesting (stmt_of s.now)) }
{
    match s {
        Stmt::Block(stmts) => nesting_among(stmts),
        Stmt::If { yes, no, .. } => {
            let a = nesting(yes)?;
            let b = nesting(no)?;
            Ok(a.max(b))
        }
        Stmt::While { body, .. } => nesting(body),
        Stmt::Do { body, .. } => {
            let inside = nesting(body)?;
            next(inside)
        }
        Stmt::For { body, .. } => {
            let inside = nesting(body)?;
            next(inside)
        }
        _ => Ok(0),
    }
}

// How many spare positions a block of the master list needs.
#[cycle(phase)]
fn phase_positions_among(declarations: &[Declaration], stmts: &Vec<Stmt>) -> Result<u32, NoMemory>
    ensures { IfOk result (λ r. r ≡ Layouts.phase_positions declarations.now (sequence (map stmt_of stmts.now.items))) }
{
    let mut most = 0;
    for stmt in stmts {
        let one = phase_positions(declarations, stmt)?;
        most = most.max(one);
    }
    Ok(most)
}

// How many spare positions a statement of the master list needs.
#[cycle(phase)]
pub(crate) fn phase_positions(declarations: &[Declaration], s: &Stmt) -> Result<u32, NoMemory>
    ensures { IfOk result (λ r. r ≡ Layouts.phase_positions declarations.now (stmt_of s.now)) }
{
    match s {
        Stmt::Block(stmts) => phase_positions_among(declarations, stmts),
        Stmt::Reduce { targets, .. } => plain_positions(declarations, targets),
        Stmt::If { yes, no, .. } => {
            let a = phase_positions(declarations, yes)?;
            let b = phase_positions(declarations, no)?;
            Ok(a.max(b))
        }
        Stmt::While { body, .. } => phase_positions(declarations, body),
        Stmt::Do { body, .. } => phase_positions(declarations, body),
        Stmt::For { body, .. } => phase_positions(declarations, body),
        _ => Ok(0),
    }
}

// How many spare positions the vertices need for a block.
#[cycle(body)]
fn body_positions_among(declarations: &[Declaration], stmts: &Vec<Stmt>) -> Result<u32, NoMemory>
    ensures { IfOk result (λ r. r ≡ Layouts.body_positions declarations.now (sequence (map stmt_of stmts.now.items))) }
{
    let mut most = 0;
    for stmt in stmts {
        let one = body_positions(declarations, stmt)?;
        most = most.max(one);
    }
    Ok(most)
}

// How many spare positions the vertices need for a statement.
#[cycle(body)]
pub(crate) fn body_positions(declarations: &[Declaration], s: &Stmt) -> Result<u32, NoMemory>
    ensures { IfOk result (λ r. r ≡ Layouts.body_positions declarations.now (stmt_of s.now)) }
{
    match s {
        Stmt::Block(stmts) => body_positions_among(declarations, stmts),
        Stmt::Reduce { targets, .. } => local_positions(declarations, targets),
        Stmt::If { yes, no, .. } => {
            let a = body_positions(declarations, yes)?;
            let b = body_positions(declarations, no)?;
            Ok(a.max(b))
        }
        Stmt::While { body, .. } => body_positions(declarations, body),
        Stmt::Do { body, .. } => body_positions(declarations, body),
        Stmt::For { body, .. } => body_positions(declarations, body),
        Stmt::Foreach { body, .. } => body_positions(declarations, body),
        _ => Ok(0),
    }
}
