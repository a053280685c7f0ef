//! What a body does first with a local: registers outlive an edge, so locals that are read before they are set begin anew.

ghost use Rattle.std.specs.Prelude.{◌≡◌, IfOk, OnOk, map, option_map, ◌++◌};
ghost use Rattle.std.specs.List.{list_any};
ghost use Rattle.gm_ast.specs.Program.{sequence};
ghost use Rattle.gm_ast.specs.Tree.{expr_of, stmt_of};
ghost use Rattle.gm_image.specs.Views.{line};
ghost use Rattle.gm_layouts.specs.Where.{where_of};
ghost use Rattle.gm_lowering.specs.Blocks as Blocks;
ghost use Rattle.gm_blocks.specs.Firsts.{as_use, zero_line_if, zero_lines_from};

use gm_ast::tree::{Expr, Stmt, Target};
use gm_base::NoMemory;
use gm_image::{Expr as Lowered, VertexLine};
use gm_layouts::{Layout, next};
use gm_message::{is_register, variable_at};

// What a body does first with a local.
#[derive(Clone, Copy, Debug)]
pub(crate) enum FirstUse {
    Unused,
    Set,
    Read,
}

// The first of two uses.
fn next_use(first: FirstUse, second: FirstUse) -> FirstUse
    ensures { as_use result ≡ Blocks.next_use (as_use first) (as_use second) }
{
    match first {
        FirstUse::Unused => second,
        _ => first,
    }
}

// The use of two ways of which one is taken.
fn either_use(first: FirstUse, second: FirstUse) -> FirstUse
    ensures { as_use result ≡ Blocks.either_use (as_use first) (as_use second) }
{
    match (first, second) {
        (FirstUse::Read, _) | (_, FirstUse::Read) => FirstUse::Read,
        (FirstUse::Set, FirstUse::Set) => FirstUse::Set,
        _ => FirstUse::Unused,
    }
}

// A use, if there is one.
fn use_if(used: bool, what: FirstUse) -> FirstUse
    ensures { as_use result ≡ Blocks.use_if used (as_use what) }
{
    if used { what } else { FirstUse::Unused }
}

// Whether an expression reads a scalar.
fn reads_scalar(variable: u32, e: &Expr) -> bool
    ensures { result ≡ Blocks.reads_scalar variable (expr_of e.now) }
{
    match e {
        Expr::Var {
            variable: other,
            ..
        }
        | Expr::Live {
            variable: other,
            ..
        } => variable == *other,
        Expr::Unary { inner, .. } => reads_scalar(variable, inner),
        Expr::Binary { left, right, .. } => {
            reads_scalar(variable, left) || reads_scalar(variable, right)
        }
        Expr::Both(left, right) | Expr::Either(left, right) => {
            reads_scalar(variable, left) || reads_scalar(variable, right)
        }
        Expr::Choose(test, yes, no) => {
            reads_scalar(variable, test)
                || reads_scalar(variable, yes)
                || reads_scalar(variable, no)
        }
        Expr::Const(_)
        | Expr::Property { .. }
        | Expr::EdgeProperty { .. }
        | Expr::Degree { .. }
        | Expr::NodeCount
        | Expr::EdgeCount
        | Expr::Fold { .. } => false,
    }
}

// Whether one of some expressions does.
fn some_reads(variable: u32, values: &[Expr]) -> bool
    ensures { result ≡ list_any (Blocks.reads_scalar variable) (map expr_of values.now) }
{
    for value in values {
        if reads_scalar(variable, value) {
            return true;
        }
    }
    false
}

// Whether an expression does, where there is one.
fn may_read(variable: u32, value: &Option<Expr>) -> bool
    ensures { result ≡ Blocks.reads_in_option variable (option_map expr_of value.now) }
{
    match value {
        None => false,
        Some(e) => reads_scalar(variable, e),
    }
}

// Whether a target is a scalar.
fn is_scalar_target(variable: u32, target: Target) -> bool
    ensures { result ≡ Blocks.is_scalar_target variable target }
{
    match target {
        Target::Scalar {
            variable: other,
            ..
        } => variable == other,
        Target::Property { .. } => false,
    }
}

// Whether a target names a scalar.
fn names_scalar(variable: u32, target: Target) -> bool
    ensures { result ≡ Blocks.names_scalar variable target }
{
    match target {
        Target::Scalar {
            variable: other,
            ..
        } => variable == other,
        Target::Property { owner, .. } => variable == owner,
    }
}

// Whether one of some targets does.
fn some_names(variable: u32, targets: &[Target]) -> bool
    ensures { result ≡ list_any (Blocks.names_scalar variable) targets.now }
{
    targets.iter().any(|target| names_scalar(variable, *target))
}

// What a block does first with a local.
#[cycle(using)]
fn first_use_among(variable: u32, stmts: &Vec<Stmt>) -> FirstUse
    ensures { as_use result ≡ Blocks.first_use variable (sequence (map stmt_of stmts.now.items)) }
{
    for stmt in stmts {
        match first_use(variable, stmt) {
            FirstUse::Unused => {}
            used => return used,
        }
    }
    FirstUse::Unused
}

// What a body does first with a local, in time linear in it.
#[cycle(using)]
fn first_use(variable: u32, s: &Stmt) -> FirstUse
    ensures { as_use result ≡ Blocks.first_use variable (stmt_of s.now) }
{
    match s {
        Stmt::Block(stmts) => first_use_among(variable, stmts),
        Stmt::Declare {
            variable: other,
            value,
            ..
        } => next_use(
            use_if(may_read(variable, value), FirstUse::Read),
            use_if(variable == *other, FirstUse::Set),
        ),
        Stmt::Assign { target, value, .. } => next_use(
            use_if(reads_scalar(variable, value), FirstUse::Read),
            use_if(is_scalar_target(variable, *target), FirstUse::Set),
        ),
        Stmt::Reduce {
            targets,
            values,
            ..
        } => use_if(
            some_reads(variable, values) || some_names(variable, targets),
            FirstUse::Read,
        ),
        Stmt::If { test, yes, no, .. } => {
            let tested = use_if(reads_scalar(variable, test), FirstUse::Read);
            let first = first_use(variable, yes);
            let second = first_use(variable, no);
            next_use(tested, either_use(first, second))
        }
        _ => FirstUse::Unused,
    }
}

// Whether a local is read before it is set.
fn is_read_first(layout: &Layout<'_>, body: &Stmt, variable: u32) -> bool
    ensures { result ≡ Blocks.is_read_first (where_of layout.now) (stmt_of body.now) variable }
{
    is_register(variable_at(layout.declarations(), variable))
        && matches!(first_use(variable, body), FirstUse::Read)
}

// Adds the line that sets a local to its first value, where the body reads it before it sets it.
fn add_zero(
    layout: &Layout<'_>,
    body: &Stmt,
    variable: u32,
    out: &mut Vec<VertexLine>,
) -> Result<(), NoMemory>
    ensures { OnOk result (map line out.new.items ≡ map line out.old.items ++ zero_line_if (where_of layout.now) (stmt_of body.now) variable) }
{
    if is_read_first(layout, body, variable) {
        let zero = variable_at(layout.declarations(), variable).vtype.zero();
        out.push(VertexLine::SetRegister(layout.register(variable)?, Lowered::Const(zero)))?;
    }
    Ok(())
}

// Adds the lines that set a body's locals to their first values where it reads them before it sets them. It takes the time of
// the body for each local.
pub(crate) fn add_zero_lines(
    layout: &Layout<'_>,
    body: &Stmt,
    out: &mut Vec<VertexLine>,
) -> Result<(), NoMemory>
    ensures { OnOk result (map line out.new.items ≡ map line out.old.items ++ Blocks.zero_lines (where_of layout.now) (stmt_of body.now)) }
{
    let declarations = layout.declarations();
    let mut variable = 0;
    for _ in declarations {
        add_zero(layout, body, variable, out)?;
        variable = next(variable)?;
    }
    Ok(())
}
