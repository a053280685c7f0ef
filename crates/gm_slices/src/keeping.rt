//! What is kept of an inner body where some variables are needed behind it: a walk from its end that leaves out in place
//! what does not serve, and gathers what the rest needs.

ghost use Rattle.std.specs.Prelude.{◌≡◌, ◌∷◌, [], true, IfOk, OnOk, map};
ghost use Rattle.gm_ast.specs.Program.{sequence};
ghost use Rattle.gm_ast.specs.Tree.{stmt_of};
ghost use Rattle.gm_loop_laws.specs.Resumed as Resumed;
ghost use Rattle.gm_slices.specs.Keeping as Keeping;
ghost use Rattle.gm_slices.specs.Sets.{set_of};

use crate::calm::is_certain;
use crate::members::Members;
use crate::needs::{Ends, any_touched, are_at_once, is_touched, tell, tell_all, tell_option};
use gm_ast::tree::{Declaration, Stmt, Target};
use gm_trees::places::put;
use std::alloc::{AllocError, Global};

// Whether a block only sets locals, by what cannot fault.
#[cycle(still)]
fn all_still(iterators: &[u32], stmts: &Vec<Stmt>) -> bool
    ensures { result ≡ Resumed.is_still iterators.now (sequence (map stmt_of stmts.now.items)) }
{
    for stmt in stmts {
        if !is_still(iterators, stmt) {
            return false;
        }
    }
    true
}

/// Whether a statement does. It takes time linear in it.
#[cycle(still)]
pub(crate) fn is_still(iterators: &[u32], s: &Stmt) -> bool
    ensures { result ≡ Resumed.is_still iterators.now (stmt_of s.now) }
{
    match s {
        Stmt::Block(stmts) => all_still(iterators, stmts),
        Stmt::Declare { value: None, .. } => true,
        Stmt::Declare {
            value: Some(value),
            ..
        } => is_certain(iterators, value),
        Stmt::DeclareEdge { .. } => true,
        Stmt::Assign {
            target: Target::Scalar { .. },
            value,
            ..
        } => is_certain(iterators, value),
        Stmt::If { test, yes, no, .. } => {
            is_certain(iterators, test) && (is_still(iterators, yes) && is_still(iterators, no))
        }
        _ => false,
    }
}

// Whether a block sets one of some variables before its loop ends.
#[cycle(writing)]
fn any_sets(declarations: &[Declaration], ends: Ends, members: &Members, stmts: &Vec<Stmt>) -> bool
    ensures { result ≡ Keeping.sets declarations.now (ends.outer ∷ ends.inner ∷ []) ends.outer (set_of members.now) (sequence (map stmt_of stmts.now.items)) }
{
    for stmt in stmts {
        if sets(declarations, ends, members, stmt) {
            return true;
        }
    }
    false
}

/// Whether a statement does. It takes time linear in it, and the logarithm of the variables.
#[cycle(writing)]
pub(crate) fn sets(declarations: &[Declaration], ends: Ends, members: &Members, s: &Stmt) -> bool
    ensures { result ≡ Keeping.sets declarations.now (ends.outer ∷ ends.inner ∷ []) ends.outer (set_of members.now) (stmt_of s.now) }
{
    match s {
        Stmt::Block(stmts) => any_sets(declarations, ends, members, stmts),
        Stmt::Declare { variable, .. } => members.has(*variable),
        Stmt::Assign { target, .. } => is_touched(members, *target),
        Stmt::Reduce { targets, .. } => {
            are_at_once(declarations, ends.outer, targets) && any_touched(members, targets)
        }
        Stmt::If { yes, no, .. } => {
            sets(declarations, ends, members, yes) || sets(declarations, ends, members, no)
        }
        Stmt::Foreach { body, .. } => sets(declarations, ends, members, body),
        _ => false,
    }
}

// Whether a statement of a block may be evaluated again behind others.
#[cycle(serving)]
fn any_may_serve_again(declarations: &[Declaration], ends: Ends, stmts: &Vec<Stmt>) -> bool
    ensures { result ≡ Keeping.may_serve_again declarations.now (ends.outer ∷ ends.inner ∷ []) ends.outer (sequence (map stmt_of stmts.now.items)) }
{
    for stmt in stmts {
        if may_serve_again(declarations, ends, stmt) {
            return true;
        }
    }
    false
}

/// Whether a statement may: where it neither sets a variable nor declares an edge, it never is. It takes time linear in it.
#[cycle(serving)]
pub(crate) fn may_serve_again(declarations: &[Declaration], ends: Ends, s: &Stmt) -> bool
    ensures { result ≡ Keeping.may_serve_again declarations.now (ends.outer ∷ ends.inner ∷ []) ends.outer (stmt_of s.now) }
{
    match s {
        Stmt::Block(stmts) => any_may_serve_again(declarations, ends, stmts),
        Stmt::Declare { .. } | Stmt::DeclareEdge { .. } | Stmt::Assign { .. } => true,
        Stmt::Reduce { targets, .. } => are_at_once(declarations, ends.outer, targets),
        Stmt::If { yes, no, .. } => {
            may_serve_again(declarations, ends, yes) || may_serve_again(declarations, ends, no)
        }
        Stmt::Foreach { body, .. } => may_serve_again(declarations, ends, body),
        _ => false,
    }
}

// Gathers the node variable of a target, and where what the target holds is read, a scalar.
fn read_target(held: bool, target: Target, needs: &mut Members) -> Result<(), AllocError>
    ensures { OnOk result (set_of needs.new ≡ Keeping.with_read_at held target (set_of needs.old)) }
{
    match target {
        Target::Scalar { variable, .. } => {
            if held {
                return needs.add(variable);
            }
            Ok(())
        }
        Target::Property { owner, .. } => needs.add(owner),
    }
}

// The same of some targets.
fn read_targets(held: bool, targets: &[Target], needs: &mut Members) -> Result<(), AllocError>
    ensures { OnOk result (set_of needs.new ≡ Keeping.with_reads_at held targets.now (set_of needs.old)) }
{
    for target in targets {
        read_target(held, *target, needs)?;
    }
    Ok(())
}

// Gathers the variables that a block reads.
#[cycle(reading)]
fn read_all(
    declarations: &[Declaration],
    ends: Ends,
    stmts: &Vec<Stmt>,
    needs: &mut Members,
) -> Result<(), AllocError>
    ensures { OnOk result (set_of needs.new ≡ Keeping.with_read declarations.now (ends.outer ∷ ends.inner ∷ []) ends.outer (sequence (map stmt_of stmts.now.items)) (set_of needs.old)) }
{
    for stmt in stmts {
        read(declarations, ends, stmt, needs)?;
    }
    Ok(())
}

/// Gathers the variables that a statement of an inner body reads. It takes time linear in it.
#[cycle(reading)]
pub(crate) fn read(
    declarations: &[Declaration],
    ends: Ends,
    s: &Stmt,
    needs: &mut Members,
) -> Result<(), AllocError>
    ensures { OnOk result (set_of needs.new ≡ Keeping.with_read declarations.now (ends.outer ∷ ends.inner ∷ []) ends.outer (stmt_of s.now) (set_of needs.old)) }
{
    match s {
        Stmt::Block(stmts) => read_all(declarations, ends, stmts, needs),
        Stmt::Declare { value, .. } => tell_option(value, needs),
        Stmt::Assign { target, value, .. } | Stmt::Defer { target, value, .. } => {
            read_target(false, *target, needs)?;
            tell(value, needs)
        }
        Stmt::Reduce {
            targets,
            values,
            ..
        } => {
            let held = are_at_once(declarations, ends.outer, targets);
            read_targets(held, targets, needs)?;
            tell_all(values, needs)
        }
        Stmt::If { test, yes, no, .. } => {
            tell(test, needs)?;
            read(declarations, ends, yes, needs)?;
            read(declarations, ends, no, needs)
        }
        Stmt::Foreach {
            head,
            filter,
            body,
            ..
        } => {
            needs.add(head.owner)?;
            tell(filter, needs)?;
            read(declarations, ends, body, needs)
        }
        _ => Ok(()),
    }
}

// Whether a part serves: it sets one of some variables, or is new and does more than set locals.
fn is_wanted(declarations: &[Declaration], ends: Ends, new: bool, needs: &Members, s: &Stmt) -> bool
    ensures { result ≡ Keeping.is_wanted declarations.now (ends.outer ∷ ends.inner ∷ []) ends.outer new (set_of needs.now) (stmt_of s.now) }
{
    sets(declarations, ends, needs, s) || (new && !is_still(&[ends.outer, ends.inner], s))
}

// Keeps a statement that is neither a block nor an If and declares no edge, if it serves, and gathers what it reads then.
fn keep_plain(
    alloc: Global,
    declarations: &[Declaration],
    ends: Ends,
    new: bool,
    s: &mut Stmt,
    needs: &mut Members,
) -> Result<(), AllocError>
    requires { Keeping.is_plain (stmt_of s.now) ≡ true }
    ensures kept { OnOk result (stmt_of s.new ≡ Keeping.wanted declarations.now (ends.outer ∷ ends.inner ∷ []) ends.outer new (stmt_of s.old) (set_of needs.old)) }
    ensures needs { OnOk result (set_of needs.new ≡ Keeping.with_wants declarations.now (ends.outer ∷ ends.inner ∷ []) ends.outer new (stmt_of s.old) (set_of needs.old)) }
{
    let wanted = is_wanted(declarations, ends, new, needs, s);
    if wanted {
        return read(declarations, ends, s, needs);
    }
    put(s, Stmt::Block(Vec::new(alloc)));
    Ok(())
}

// Keeps of a block what serves, from its last statement to its first.
#[cycle(keeping)]
fn keep_all(
    alloc: Global,
    declarations: &[Declaration],
    ends: Ends,
    new: bool,
    stmts: &mut Vec<Stmt>,
    needs: &mut Members,
) -> Result<(), AllocError>
    ensures kept { OnOk result (sequence (map stmt_of stmts.new.items) ≡ Keeping.wanted declarations.now (ends.outer ∷ ends.inner ∷ []) ends.outer new (sequence (map stmt_of stmts.old.items)) (set_of needs.old)) }
    ensures needs { OnOk result (set_of needs.new ≡ Keeping.with_wants declarations.now (ends.outer ∷ ends.inner ∷ []) ends.outer new (sequence (map stmt_of stmts.old.items)) (set_of needs.old)) }
{
    let mut left = stmts.len();
    while left > 0 {
        left -= 1;
        keep(alloc, declarations, ends, new, &mut stmts[left], needs)?;
    }
    Ok(())
}

// The same of a part in a box.
#[cycle(keeping)]
fn keep_part(
    alloc: Global,
    declarations: &[Declaration],
    ends: Ends,
    new: bool,
    s: &mut Box<Stmt>,
    needs: &mut Members,
) -> Result<(), AllocError>
    ensures kept { OnOk result (stmt_of s.new.value ≡ Keeping.wanted declarations.now (ends.outer ∷ ends.inner ∷ []) ends.outer new (stmt_of s.old.value) (set_of needs.old)) }
    ensures needs { OnOk result (set_of needs.new ≡ Keeping.with_wants declarations.now (ends.outer ∷ ends.inner ∷ []) ends.outer new (stmt_of s.old.value) (set_of needs.old)) }
{
    keep(alloc, declarations, ends, new, s, needs)?;
    Ok(())
}

// The same of both branches of an If that serves.
#[cycle(keeping)]
fn keep_branches(
    alloc: Global,
    declarations: &[Declaration],
    ends: Ends,
    new: bool,
    s: &mut Stmt,
    needs: &mut Members,
) -> Result<(), AllocError>
    ensures kept { OnOk result (stmt_of s.new ≡ Keeping.branches declarations.now (ends.outer ∷ ends.inner ∷ []) ends.outer new (stmt_of s.old) (set_of needs.old)) }
    ensures needs { OnOk result (set_of needs.new ≡ Keeping.with_branches declarations.now (ends.outer ∷ ends.inner ∷ []) ends.outer new (stmt_of s.old) (set_of needs.old)) }
{
    match s {
        Stmt::If { test, yes, no, .. } => {
            let mut other = needs.copy()?;
            keep_part(alloc, declarations, ends, new, yes, needs)?;
            keep_part(alloc, declarations, ends, new, no, &mut other)?;
            needs.join(other)?;
            tell(test, needs)
        }
        Stmt::Block(_) => Ok(()),
        _ => Ok(()),
    }
}

// Keeps an If, if it serves.
#[cycle(keeping)]
fn keep_if(
    alloc: Global,
    declarations: &[Declaration],
    ends: Ends,
    new: bool,
    s: &mut Stmt,
    needs: &mut Members,
) -> Result<(), AllocError>
    requires { Keeping.is_if (stmt_of s.now) ≡ true }
    ensures kept { OnOk result (stmt_of s.new ≡ Keeping.wanted declarations.now (ends.outer ∷ ends.inner ∷ []) ends.outer new (stmt_of s.old) (set_of needs.old)) }
    ensures needs { OnOk result (set_of needs.new ≡ Keeping.with_wants declarations.now (ends.outer ∷ ends.inner ∷ []) ends.outer new (stmt_of s.old) (set_of needs.old)) }
{
    let wanted = is_wanted(declarations, ends, new, needs, s);
    if wanted {
        return keep_branches(alloc, declarations, ends, new, s, needs);
    }
    put(s, Stmt::Block(Vec::new(alloc)));
    Ok(())
}

// Keeps of a part of an inner body what serves where some variables are needed behind it, and gathers what that needs.
#[cycle(keeping)]
fn keep(
    alloc: Global,
    declarations: &[Declaration],
    ends: Ends,
    new: bool,
    s: &mut Stmt,
    needs: &mut Members,
) -> Result<(), AllocError>
    ensures kept { OnOk result (stmt_of s.new ≡ Keeping.wanted declarations.now (ends.outer ∷ ends.inner ∷ []) ends.outer new (stmt_of s.old) (set_of needs.old)) }
    ensures needs { OnOk result (set_of needs.new ≡ Keeping.with_wants declarations.now (ends.outer ∷ ends.inner ∷ []) ends.outer new (stmt_of s.old) (set_of needs.old)) }
{
    match s {
        Stmt::Block(stmts) => keep_all(alloc, declarations, ends, new, stmts, needs),
        Stmt::DeclareEdge { .. } => Ok(()),
        Stmt::If { .. } => keep_if(alloc, declarations, ends, new, s, needs),
        _ => keep_plain(alloc, declarations, ends, new, s, needs),
    }
}

/// What is kept of a part of an inner body, new or evaluated again, where some variables are needed behind it, which become
/// those that are needed from it on. It takes time linear in the part times the depth of its Ifs and the logarithm of its
/// variables, and for each If a copy of what is needed.
pub(crate) fn kept_of(
    alloc: Global,
    declarations: &[Declaration],
    ends: Ends,
    new: bool,
    s: Stmt,
    needs: &mut Members,
) -> Result<Stmt, AllocError>
    ensures kept { IfOk result (λ r. stmt_of r ≡ Keeping.wanted declarations.now (ends.outer ∷ ends.inner ∷ []) ends.outer new (stmt_of s) (set_of needs.old)) }
    ensures needs { OnOk result (set_of needs.new ≡ Keeping.with_wants declarations.now (ends.outer ∷ ends.inner ∷ []) ends.outer new (stmt_of s) (set_of needs.old)) }
{
    let mut s = s;
    match keep(alloc, declarations, ends, new, &mut s, needs) {
        Ok(()) => Ok(s),
        Err(error) => {
            drop(s);
            Err(error)
        }
    }
}
