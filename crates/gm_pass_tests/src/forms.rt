//! What each pass ends with: what its results have no more, wherever it stands.

use crate::passes::Pass;
use gm_ast::tree::{Expr, Stmt, Target};

// Whether scalars and counts tell an expression: it has no property, no degree, no check and no reduction.
#[cycle(telling)]
fn is_told(e: &Expr) -> bool {
    match e {
        Expr::Const(_) | Expr::Var { .. } | Expr::NodeCount | Expr::EdgeCount => true,
        Expr::Unary { inner, .. } => is_told(inner),
        Expr::Binary { left, right, .. } => is_told(left) && is_told(right),
        Expr::Both(left, right) | Expr::Either(left, right) => is_told(left) && is_told(right),
        Expr::Choose(test, yes, no) => is_told(test) && is_told(yes) && is_told(no),
        _ => false,
    }
}

// Whether they tell an expression that may be absent.
fn may_be_told(value: &Option<Expr>) -> bool {
    match value {
        Some(value) => is_told(value),
        None => true,
    }
}

// Whether they tell all of some expressions.
fn are_told(values: &[Expr]) -> bool {
    for value in values {
        if !is_told(value) {
            return false;
        }
    }
    true
}

// Whether some targets are scalars.
fn are_scalars(targets: &[Target]) -> bool {
    for target in targets {
        if let Target::Property { .. } = target {
            return false;
        }
    }
    true
}

/// What a sequential phase has no more, from pass to pass.
#[derive(Clone, Copy, Debug, PartialEq, Eq)]
pub enum Form {
    /// Scalars and counts tell each condition.
    Conditions,
    /// They also tell what is returned, what properties are set to, and what a scalar is set to, unless it is one read,
    /// one check or one reduction.
    ReadsAlone,
    /// Besides, picks are onto scalars, of what scalars and counts tell.
    PlainPicks,
    /// No property is written, and no scalar is set to a property or a degree.
    Loops,
    /// Besides, no scalar is set to a reduction.
    Scalars,
    /// Besides, picks are onto scalars, of what scalars and counts tell.
    Desugared,
}

// Whether properties are in loops alone.
fn is_in_loops(form: Form) -> bool {
    matches!(form, Form::Loops | Form::Scalars | Form::Desugared)
}

// Whether a scalar may be set to a value.
fn can_be_set(form: Form, value: &Expr) -> bool {
    match value {
        Expr::Live { .. } => true,
        Expr::Fold { .. } => !matches!(form, Form::Scalars | Form::Desugared),
        Expr::Property { .. } | Expr::Degree { .. } => !is_in_loops(form),
        other => form == Form::Conditions || is_told(other),
    }
}

// Whether a target may be set to a value.
fn can_be_assigned(form: Form, target: Target, value: &Expr) -> bool {
    match target {
        Target::Scalar { .. } => can_be_set(form, value),
        Target::Property { .. } => {
            form == Form::Conditions || !is_in_loops(form) && is_told(value)
        }
    }
}

// Whether targets may be reduced at once by values.
fn can_be_picked(form: Form, targets: &[Target], values: &[Expr]) -> bool {
    match form {
        Form::PlainPicks | Form::Desugared => are_scalars(targets) && are_told(values),
        _ => true,
    }
}

// Whether each statement of a block has a form.
#[cycle(forming)]
fn have_form(form: Form, stmts: &Vec<Stmt>) -> bool {
    for stmt in stmts {
        if !has_form(form, stmt) {
            return false;
        }
    }
    true
}

/// Whether a sequential phase, outside of its parallel loops and searches, has a form.
#[cycle(forming)]
pub fn has_form(form: Form, s: &Stmt) -> bool {
    match s {
        Stmt::Block(stmts) => have_form(form, stmts),
        Stmt::Declare { value, .. } => match value {
            Some(value) => can_be_set(form, value),
            None => true,
        },
        Stmt::Assign { target, value, .. } => can_be_assigned(form, *target, value),
        Stmt::Reduce {
            targets,
            values,
            ..
        } => can_be_picked(form, targets, values),
        Stmt::For { filter, body, .. } => is_told(filter) && has_form(form, body),
        Stmt::If { test, yes, no, .. } => {
            is_told(test) && has_form(form, yes) && has_form(form, no)
        }
        Stmt::While { test, body, .. } | Stmt::Do { test, body, .. } => {
            is_told(test) && has_form(form, body)
        }
        Stmt::Return { value, .. } => form == Form::Conditions || may_be_told(value),
        Stmt::Group { .. } => false,
        _ => true,
    }
}

/// The form of the sequential phase behind a pass, behind all passes before it.
pub fn form_after(pass: Pass) -> Option<Form> {
    match pass {
        Pass::ConditionsOut => Some(Form::Conditions),
        Pass::ReadsOut => Some(Form::ReadsAlone),
        Pass::PicksOut => Some(Form::PlainPicks),
        Pass::AccessesOut => Some(Form::Loops),
        Pass::FoldsOut | Pass::InnerFoldsOut => Some(Form::Scalars),
        Pass::DesugarPhases | Pass::Desugar => Some(Form::Desugared),
        _ => None,
    }
}

const GROUPS: [&str; 1] = [" := "];

const MINUSES: [&str; 10] = [
    "-(0)", "-(1)", "-(2)", "-(3)", "-(4)", "-(5)", "-(6)", "-(7)", "-(8)", "-(9)",
];

const REDUCTIONS: [&str; 7] = [
    "Sum(", "Product(", "Min(", "Max(", "All(", "Exist(", "Count(",
];

const SEARCHES: [&str; 3] = ["InBFS", ".UpNbrs", ".DownNbrs"];

const DEFERRED: [&str; 1] = [" @;"];

/// Words that the source text of no result of a pass has, behind all passes before it.
pub fn words_out(pass: Pass) -> &'static [&'static str] {
    match pass {
        Pass::GroupsOut => &GROUPS,
        Pass::LiteralsOut => &MINUSES,
        Pass::InnerFoldsOut | Pass::Desugar => &REDUCTIONS,
        Pass::BfsOut => &SEARCHES,
        Pass::DeferredOut => &DEFERRED,
        _ => &[],
    }
}
