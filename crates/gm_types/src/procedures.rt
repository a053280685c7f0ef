//! Procedures: their parameters, the head with the types in it, and the body.

ghost use Rattle.std.specs.Prelude.{◌≡◌, Some, None, [], nat_eq, IfOk, IfErr, IfSome, OnOk, map, option_map};
ghost use Rattle.gm_base.specs.declared.rules.Rule.TheVariants.{T3};
ghost use Rattle.gm_ast.specs.Judged.{unless};
ghost use Rattle.gm_ast.specs.Procedures.{nothing_known, parameters, with_parameters, count_names, count_graphs, types_broken, result_broken, result_of, head_broken, env_of_body, elaborated};
ghost use Rattle.gm_ast.specs.SurfaceTree.{procedure_of, group_of};
ghost use Rattle.gm_ast.specs.Tree.{program_of, stmt_of};
ghost use Rattle.gm_types.specs.Views.{env_of, Gives};
ghost use Rattle.gm_types.specs.Notes.{Notes};
ghost use Rattle.gm_types.specs.Stops.{IsStopOf, IsLeastStop, program_with};

use crate::names::{Checker, Scope};
use crate::notes::note;
use crate::roles::{sort_of, variable_of, vtype_of};
use gm_ast::forms::Typed;
use gm_ast::kinds::Role;
use gm_ast::surface::{SpelledGroup, SpelledProcedure};
use gm_ast::tree::{Key, Sort, Stage, Stmt, Tree};
use gm_base::{Items, Rule, Stop};
use gm_value::VType;
use indexmap::IndexMap;
use std::alloc::{AllocError, Global};

// How many names some groups have.
fn count_names(groups: &[SpelledGroup]) -> Option<u32>
    ensures { IfSome result (λ n. n ≡ count_names (map group_of groups.now)) }
{
    let mut count: u32 = 0;
    for group in groups {
        let more = u32::try_from(group.names.len()).ok()?;
        count = count.checked_add(more)?;
    }
    Some(count)
}

// Whether exactly one of some parameters is a graph.
fn has_one_graph(groups: &[SpelledGroup]) -> bool
    ensures { result ≡ nat_eq (count_graphs (map group_of groups.now)) 1 }
{
    let mut count: usize = 0;
    for group in groups {
        if sort_of(&group.vtype) == Sort::Graph {
            let Some(more) = count.checked_add(group.names.len()) else {
                return false;
            };
            count = more;
        }
    }
    count == 1
}

// The type of a procedure's result.
fn result_of(procedure: &SpelledProcedure) -> Option<VType>
    ensures { result ≡ result_of (procedure_of procedure.now) }
{
    match &procedure.result {
        None => None,
        Some(vtype) => Some(vtype_of(vtype)),
    }
}

impl<'a> Checker<'a> {
    // A checker that knows no name yet.
    fn new(alloc: Global, wanted: Option<VType>) -> Self
        ensures names { env_of result ≡ nothing_known wanted }
        ensures empty { result.declarations.items ≡ [] }
        ensures least { result.least ≡ None }
    {
        Checker {
            scope: Scope {
                names: IndexMap::new(alloc),
            },
            declarations: Vec::new(alloc),
            number: 0,
            key: Key {
                statement: 0,
                stage: Stage::Operator,
            },
            depth: 0,
            group: false,
            iterators: Vec::new(alloc),
            result: wanted,
            least: None,
        }
    }

    // The parameters of several groups, one after another.
    fn parameters(&mut self, alloc: Global, groups: &'a [SpelledGroup]) -> Result<(), AllocError>
        ensures { OnOk result (Gives self.old self.new (parameters (map group_of groups.now) (env_of self.old)) (Some (tt {0})) (with_parameters (map group_of groups.now) (env_of self.old))) }
    {
        for group in groups {
            let variable = variable_of(&group.vtype, 0);
            self.declare_all(alloc, variable, &group.names)?;
        }
        Ok(())
    }

    // Notes what the types of parameters break that have a role.
    fn note_types(&mut self, groups: &[SpelledGroup], role: Role)
        ensures { Notes self.old self.new (types_broken role (env_of self.old) (map group_of groups.now)) }
    {
        for group in groups {
            self.note_type(&group.vtype, role);
        }
    }

    // Notes what the type of a result breaks.
    fn note_result(&mut self, procedure: &SpelledProcedure)
        ensures { Notes self.old self.new (result_broken (env_of self.old) (procedure_of procedure.now).result) }
    {
        if let Some(vtype) = &procedure.result {
            self.note_type(vtype, Role::Returned);
        }
    }

    // Notes inputs that have not exactly one graph.
    fn note_inputs(&mut self, procedure: &SpelledProcedure)
        ensures { Notes self.old self.new (unless (nat_eq (count_graphs (procedure_of procedure.now).inputs) 1) T3 (procedure_of procedure.now).name.place) }
    {
        if !has_one_graph(&procedure.inputs) {
            note(&mut self.least, Rule::T3, procedure.name.place);
        }
    }

    // Notes what the head of a procedure breaks beside its names.
    fn note_head(&mut self, procedure: &SpelledProcedure)
        ensures { env_of self.old ≡ env_of_body (procedure_of procedure.now) → Notes self.old self.new (head_broken (procedure_of procedure.now)) }
    {
        self.note_inputs(procedure);
        self.note_types(&procedure.inputs, Role::Input);
        self.note_types(&procedure.outputs, Role::Output);
        self.note_result(procedure);
    }
}

// The tree of a procedure whose parts were judged.
fn finished(
    alloc: Global,
    procedure: &SpelledProcedure,
    checker: Checker<'_>,
    body: Option<Stmt>,
) -> Result<Tree, Stop>
    ensures refused { IfErr result (IsLeastStop checker.entry.least) }
    ensures accepted { IfOk result (λ tree. (checker.entry.least ≡ None) × (option_map stmt_of body ≡ Some (stmt_of tree.body)) × (program_of tree ≡ program_with (procedure_of procedure.now) checker.entry.declarations.items checker.entry.number (stmt_of tree.body))) }
{
    if let Some(refusal) = checker.least {
        return Err(Stop::Refused(refusal));
    }
    let Some(body) = body else {
        return Err(Stop::NoMemory);
    };
    let Some(inputs) = count_names(&procedure.inputs) else {
        return Err(Stop::NoMemory);
    };
    let Some(outputs) = count_names(&procedure.outputs) else {
        return Err(Stop::NoMemory);
    };
    let mut name = Vec::new(alloc);
    name.extend_from_slice(&procedure.name.text)?;
    Ok(Tree {
        name: Items::new(name),
        declarations: checker.declarations,
        inputs,
        outputs,
        result: result_of(procedure),
        statements: checker.number,
        body,
    })
}

// The tree of a procedure.
fn typed_tree(alloc: Global, procedure: &SpelledProcedure) -> Result<Tree, Stop>
    ensures accepted { IfOk result (λ tree. (elaborated (procedure_of procedure.now)).part ≡ Some (program_of tree)) }
    ensures clean { OnOk result ((elaborated (procedure_of procedure.now)).broken ≡ []) }
    ensures refused { IfErr result (IsStopOf (procedure_of procedure.now)) }
{
    let mut checker = Checker::new(alloc, result_of(procedure));
    checker.parameters(alloc, &procedure.inputs)?;
    checker.parameters(alloc, &procedure.outputs)?;
    checker.note_head(procedure);
    let around = checker.begin()?;
    let body = checker.block(alloc, &procedure.body)?;
    checker.end(around);
    finished(alloc, procedure, checker, body)
}

/// The program that a procedure stands for: its names resolved, each part with its type, each number with the type
/// that it takes.
///
/// Refused is the least place at which a rule of typing (T1 to T14) is broken, and at one place the rule that comes
/// first; a part is judged only where all its parts have types. `NoMemory` may come of any procedure.
pub fn typed(alloc: Global, procedure: SpelledProcedure) -> Result<Typed, Stop>
    ensures accepted { IfOk result (λ tree. (elaborated (procedure_of procedure)).part ≡ Some (program_of tree)) }
    ensures clean { OnOk result ((elaborated (procedure_of procedure)).broken ≡ []) }
    ensures refused { IfErr result (IsStopOf (procedure_of procedure)) }
{
    let tree = typed_tree(alloc, &procedure)?;
    Ok(Typed::new(tree))
}
