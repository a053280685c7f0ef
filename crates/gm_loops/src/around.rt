//! What stays the same over an outermost loop.

ghost use Rattle.std.specs.Prelude.{◌≡◌, map};
ghost use Rattle.std.specs.List.{list_any};
ghost use Rattle.gm_ast.specs.Program.{sequence};
ghost use Rattle.gm_ast.specs.Tree.{stmt_of};
ghost use Rattle.gm_model.specs.Graphs.{NumberedGraph};
ghost use Rattle.gm_semantics.specs.Iterations.{ends_of, ends_of_all, later, own_ends, scalar_ends};
ghost use Rattle.gm_semantics.specs.Loops.{is_elsewhere, pushes};
ghost use Rattle.gm_semantics.specs.Statements.{variable_at};
ghost use Rattle.gm_loops.specs.Around.{body_of, ends_as, loop_of, mode_in, mode_of, row_of, sight_of};

use crate::sights::{Setting, Sight};
use crate::targets::is_elsewhere;
use gm_ast::tree::{Expr, Key, Sort, Stmt, Target, Variable};
use gm_levels::Levels;
use gm_value::VType;

// When a reduction assignment takes effect.
#[derive(Clone, Copy)]
pub(crate) enum Ends {
    AtOnce,
    WithInner,
    WithOutermost,
}

// Where a body stands: it is an outer body, or an inner one at an edge, by its row.
#[derive(Clone, Copy)]
pub(crate) enum Mode {
    Outermost,
    AtEdge(Option<u32>),
}

/// The body of an outermost loop: a statement, or the assignment of a group.
#[derive(Clone, Copy)]
pub enum Body<'a> {
    Statement(&'a Stmt),
    Assignment {
        key: Key,
        target: Target,
        value: &'a Expr,
    },
}

/// What stays the same over an outermost loop: what does over a run, the levels of the search around it, its iterator,
/// and its body.
#[derive(Clone, Copy)]
pub struct Around<'a> {
    pub setting: &'a Setting<'a>,
    pub levels: Option<&'a Levels>,
    pub outer: u32,
    pub body: Body<'a>,
}

impl Setting<'_> {
    // The variable of an index.
    pub fn variable(&self, x: u32) -> Variable
        ensures { result ≡ variable_at self.now.declarations.now x }
    {
        match self.declarations.get(x as usize) {
            Some(declaration) => declaration.variable,
            None => Variable {
                sort: Sort::Scalar,
                vtype: VType::I32,
                depth: 0,
            },
        }
    }
}

impl Mode {
    // The row of the edge that a body sees.
    #[inline(always)]
    pub fn row(self) -> Option<u32>
        ensures { result ≡ row_of self }
    {
        match self {
            Mode::Outermost => None,
            Mode::AtEdge(row) => row,
        }
    }

    // When a reduction to a scalar ends, by the loops around the scalar's declaration.
    fn scalar_ends(self, depth: u32) -> Ends
        ensures { (g : NumberedGraph) → ends_as result ≡ scalar_ends (mode_of g self) depth }
    {
        match self {
            Mode::Outermost => {
                if depth == 0 {
                    Ends::WithOutermost
                } else {
                    Ends::AtOnce
                }
            }
            Mode::AtEdge(_) => {
                if depth == 0 {
                    Ends::WithOutermost
                } else if depth == 1 {
                    Ends::WithInner
                } else {
                    Ends::AtOnce
                }
            }
        }
    }
}

// Whether one of some targets is a property through another node than the outer iterator's.
fn any_elsewhere(targets: &[Target], outer: u32, property: u32) -> bool
    ensures { result ≡ list_any (is_elsewhere outer property) targets.now }
{
    targets
        .iter()
        .any(|target| is_elsewhere(outer, property, *target))
}

// Whether a block reduces a property through another node than its outer iterator's.
#[cycle(pushing)]
fn pushes_among(stmts: &Vec<Stmt>, outer: u32, property: u32) -> bool
    ensures { result ≡ pushes (sequence (map stmt_of stmts.now.items)) outer property }
{
    for stmt in stmts {
        if pushes(stmt, outer, property) {
            return true;
        }
    }
    false
}

// Whether a body reduces a property through another node than its outer iterator's.
#[cycle(pushing)]
fn pushes(body: &Stmt, outer: u32, property: u32) -> bool
    ensures { result ≡ pushes (stmt_of body.now) outer property }
{
    match body {
        Stmt::Block(stmts) => pushes_among(stmts, outer, property),
        Stmt::Reduce { targets, .. } => any_elsewhere(targets.as_slice(), outer, property),
        Stmt::Foreach { body, .. } => pushes(body, outer, property),
        Stmt::If { yes, no, .. } => { pushes(yes, outer, property) || pushes(no, outer, property) }
        Stmt::Declare { .. }
        | Stmt::DeclareEdge { .. }
        | Stmt::Assign { .. }
        | Stmt::Defer { .. }
        | Stmt::Group { .. }
        | Stmt::For { .. }
        | Stmt::While { .. }
        | Stmt::Do { .. }
        | Stmt::InBfs { .. }
        | Stmt::InBfsBoth { .. }
        | Stmt::Return { .. } => false,
    }
}

impl Body<'_> {
    // Whether the body reduces a property through another node than its outer iterator's.
    fn pushes(&self, outer: u32, property: u32) -> bool
        ensures { result ≡ pushes (body_of self.now) outer property }
    {
        match self {
            Body::Statement(body) => pushes(body, outer, property),
            Body::Assignment { .. } => false,
        }
    }
}

impl<'a> Around<'a> {
    // What the operators of a statement see.
    #[inline(always)]
    pub(crate) fn sight(&self, mode: Mode, key: Key) -> Sight<'a>
        ensures { result ≡ sight_of self.now mode key }
    {
        Sight {
            setting: self.setting,
            levels: self.levels,
            parallel: true,
            row: mode.row(),
            key,
        }
    }

    // When a reduction to a property of the outer iterator ends.
    fn own_ends(&self, mode: Mode, property: u32) -> Ends
        ensures { ends_as result ≡ own_ends (mode_in self.now mode) ((loop_of self.now).pushed property) }
    {
        match mode {
            Mode::Outermost => Ends::AtOnce,
            Mode::AtEdge(_) => {
                if self.body.pushes(self.outer, property) {
                    Ends::WithOutermost
                } else {
                    Ends::WithInner
                }
            }
        }
    }

    // When a reduction to a target ends.
    pub(crate) fn ends_of(&self, mode: Mode, target: &Target) -> Ends
        ensures { ends_as result ≡ ends_of (mode_in self.now mode) (loop_of self.now) target.now }
    {
        match *target {
            Target::Scalar { variable, .. } => {
                mode.scalar_ends(self.setting.variable(variable).depth)
            }
            Target::Property {
                owner,
                property,
                ..
            } => {
                if owner == self.outer {
                    self.own_ends(mode, property)
                } else {
                    Ends::WithOutermost
                }
            }
        }
    }

    // When a reduction to targets ends: as late as the latest of them would.
    pub(crate) fn ends_of_all(&self, mode: Mode, targets: &[Target]) -> Ends
        ensures { ends_as result ≡ ends_of_all (mode_in self.now mode) (loop_of self.now) targets.now }
    {
        let mut ends = Ends::AtOnce;
        let mut k = targets.len();
        while k > 0 {
            k -= 1;
            ends = later(self.ends_of(mode, &targets[k]), ends);
        }
        ends
    }
}

// The later of two ends.
fn later(a: Ends, b: Ends) -> Ends
    ensures { ends_as result ≡ later (ends_as a) (ends_as b) }
{
    match (a, b) {
        (Ends::AtOnce, _) => b,
        (Ends::WithOutermost, _) | (_, Ends::WithOutermost) => Ends::WithOutermost,
        (Ends::WithInner, _) => a,
    }
}
