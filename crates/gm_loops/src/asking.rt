//! What a program asks of the edges that lead to nodes.

ghost use Rattle.std.specs.Prelude.{◌≡◌, map};
ghost use Rattle.std.specs.List.{list_all};
ghost use Rattle.gm_ast.specs.Program.{sequence};
ghost use Rattle.gm_ast.specs.Tree.{expr_of, stmt_of};
ghost use Rattle.gm_loops.specs.Asking.{counts_outward as counts_outward_lem, goes_outward as goes_outward_lem, reads_outward as reads_outward_lem, runs_outward as runs_outward_lem};

use gm_ast::tree::{Direction, Domain, Expr, Stmt};

// Whether a range does not lead against the edges.
fn runs_outward(domain: Domain) -> bool
    ensures { result ≡ runs_outward_lem domain }
{
    match domain {
        Domain::Nodes | Domain::OutNbrs | Domain::DownNbrs => true,
        Domain::InNbrs | Domain::UpNbrs => false,
    }
}

// Whether a degree does not count the edges that lead to a node.
fn counts_outward(direction: Direction) -> bool
    ensures { result ≡ counts_outward_lem direction }
{
    match direction {
        Direction::Out => true,
        Direction::In => false,
    }
}

// Whether an expression asks nothing of the edges that lead to a node.
fn reads_outward(e: &Expr) -> bool
    ensures { result ≡ reads_outward_lem (expr_of e.now) }
{
    match e {
        Expr::Const(_) => true,
        Expr::Var { .. } => true,
        Expr::Property { .. } => true,
        Expr::EdgeProperty { .. } => true,
        Expr::Degree { direction, .. } => counts_outward(*direction),
        Expr::NodeCount => true,
        Expr::EdgeCount => true,
        Expr::Live { .. } => true,
        Expr::Unary { inner, .. } => reads_outward(inner),
        Expr::Binary { left, right, .. } => reads_outward(left) && reads_outward(right),
        Expr::Both(left, right) => reads_outward(left) && reads_outward(right),
        Expr::Either(left, right) => reads_outward(left) && reads_outward(right),
        Expr::Choose(test, yes, no) => {
            reads_outward(test) && (reads_outward(yes) && reads_outward(no))
        }
        Expr::Fold {
            head,
            filter,
            body,
            ..
        } => runs_outward(head.domain) && (reads_outward(filter) && reads_outward(body)),
    }
}

// Whether no value of a reduction asks anything of the edges that lead to a node.
fn read_outward(values: &[Expr]) -> bool
    ensures { result ≡ list_all reads_outward_lem (map expr_of values.now) }
{
    for value in values {
        if !reads_outward(value) {
            return false;
        }
    }
    true
}

// Whether no statement of a block does.
#[cycle(going)]
fn go_outward(stmts: &Vec<Stmt>) -> bool
    ensures { result ≡ goes_outward_lem (sequence (map stmt_of stmts.now.items)) }
{
    for stmt in stmts {
        if !goes_outward(stmt) {
            return false;
        }
    }
    true
}

/// Whether a statement asks nothing of the edges that lead to a node.
#[cycle(going)]
pub fn goes_outward(s: &Stmt) -> bool
    ensures { result ≡ goes_outward_lem (stmt_of s.now) }
{
    match s {
        Stmt::Block(stmts) => go_outward(stmts),
        Stmt::Declare { value: None, .. } => true,
        Stmt::Declare {
            value: Some(value),
            ..
        } => reads_outward(value),
        Stmt::DeclareEdge { .. } => true,
        Stmt::Assign { value, .. } => reads_outward(value),
        Stmt::Defer { value, .. } => reads_outward(value),
        Stmt::Reduce { values, .. } => read_outward(values),
        Stmt::Group { value, .. } => reads_outward(value),
        Stmt::Foreach {
            head,
            filter,
            body,
            ..
        } => runs_outward(head.domain) && (reads_outward(filter) && goes_outward(body)),
        Stmt::For {
            head,
            filter,
            body,
            ..
        } => runs_outward(head.domain) && (reads_outward(filter) && goes_outward(body)),
        Stmt::If { test, yes, no, .. } => {
            reads_outward(test) && (goes_outward(yes) && goes_outward(no))
        }
        Stmt::While { test, body, .. } => reads_outward(test) && goes_outward(body),
        Stmt::Do { body, test, .. } => goes_outward(body) && reads_outward(test),
        Stmt::InBfs { filter, body, .. } => reads_outward(filter) && goes_outward(body),
        Stmt::InBfsBoth {
            filter,
            body,
            back_filter,
            back,
            ..
        } => {
            (reads_outward(filter) && goes_outward(body))
                && (reads_outward(back_filter) && goes_outward(back))
        }
        Stmt::Return { value: None, .. } => true,
        Stmt::Return {
            value: Some(value),
            ..
        } => reads_outward(value),
    }
}
