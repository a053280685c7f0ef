//! Declarations, with and without values.

ghost use Rattle.std.specs.Prelude.{◌≡◌, Some, IfOk, OnOk, length, map, option_map};
ghost use Rattle.gm_base.specs.Rules.{least_from, broken_at};
ghost use Rattle.gm_ast.specs.Judged.{ok_of, errs_of, both_of, part_by, broken_by};
ghost use Rattle.gm_ast.specs.Names.{known_with};
ghost use Rattle.gm_ast.specs.Program as Program;
ghost use Rattle.gm_ast.specs.Statements.{declared_all, with_names, plain_declarations, declarations_as, declared_plainly, bare, edge_asked, edge_declared, edge_owner, initial_broken, declared_value, declared_typed, following};
ghost use Rattle.gm_ast.specs.Surface as Surface;
ghost use Rattle.gm_ast.specs.SurfaceTree.{name_of, type_of, expr_of as spelled_of};
ghost use Rattle.gm_ast.specs.Tree.{expr_of, stmt_of};
ghost use Rattle.gm_types.specs.Parts.{part_of};
ghost use Rattle.gm_types.specs.Views.{env_of, known_in, Gives, Judges};
ghost use Rattle.gm_types.specs.WithValues.{edge_of, value_of, declared_by};

use crate::leaves::{is_node, query_of};
use crate::names::Checker;
use crate::notes::note;
use crate::parts::Part;
use crate::roles::{is_edge_type, sort_of, variable_of, vtype_of};
use crate::targets::fitted;
use gm_ast::kinds::{Binding, Query, Role};
use gm_ast::surface::{Name, SpelledExpr, SpelledType};
use gm_ast::tree::{Key, Sort, Stmt, Variable};
use gm_base::{Place, Refusal, Rule};
use gm_value::VType;
use std::alloc::{AllocError, Global};

// Notes that a rule is broken at each of some names.
fn note_names(least: &mut Option<Refusal>, rule: Rule, names: &[Name])
    ensures { least.new ≡ least_from least.old (map (λ x. broken_at rule x.place) (map name_of names.now)) }
{
    for name in names {
        note(least, rule, name.place);
    }
}

// Declarations without values.
fn plain_declarations(alloc: Global, key: Key, indices: &[u32]) -> Result<Stmt, AllocError>
    ensures { IfOk result (λ r. stmt_of r ≡ plain_declarations key indices.now) }
{
    let mut stmts = Vec::new(alloc);
    for variable in indices {
        stmts.push(Stmt::Declare {
            key,
            variable: *variable,
            value: None,
        })?;
    }
    Ok(Stmt::Block(stmts))
}

// Declarations without values; an edge wants one.
fn declarations(
    alloc: Global,
    sort: Sort,
    key: Key,
    names: &[Name],
    indices: Vec<u32>,
    least: &mut Option<Refusal>,
) -> Result<Option<Stmt>, AllocError>
    ensures part { IfOk result (λ r. option_map stmt_of r ≡ ok_of (declarations_as sort key (map name_of names.now) indices.items)) }
    ensures least { OnOk result (least.new ≡ least_from least.old (errs_of (declarations_as sort key (map name_of names.now) indices.items))) }
{
    if sort == Sort::Edge {
        note_names(least, Rule::T9, names);
        return Ok(None);
    }
    let stmt = plain_declarations(alloc, key, &indices)?;
    Ok(Some(stmt))
}

// An expression without the parentheses around it.
fn bare(e: &SpelledExpr) -> &SpelledExpr
    ensures { spelled_of result.now ≡ bare (spelled_of e.now) }
{
    match e {
        SpelledExpr::Paren { inner, .. } => bare(inner),
        other => other,
    }
}

// The name whose edge an expression asks for, if it does.
fn edge_asked(e: &SpelledExpr) -> Option<&Name>
    ensures { option_map (λ x. name_of x.now) result ≡ edge_asked (spelled_of e.now) }
{
    match e {
        SpelledExpr::Method { owner, method } => {
            if query_of(&method.text) == Query::ToEdge {
                Some(owner)
            } else {
                None
            }
        }
        _ => None,
    }
}

// The name whose edge a declaration asks for, if it declares one.
fn edge_declared<'a>(vtype: &SpelledType, value: &'a SpelledExpr) -> Option<&'a Name>
    ensures { option_map (λ x. name_of x.now) result ≡ edge_declared (type_of vtype.now) (spelled_of value.now) }
{
    if is_edge_type(vtype) {
        edge_asked(bare(value))
    } else {
        None
    }
}

// Notes an initial value on a property.
fn note_initial(least: &mut Option<Refusal>, sort: Sort, name: &Name)
    ensures { least.new ≡ least_from least.old (initial_broken sort (name_of name.now)) }
{
    match sort {
        Sort::NodeProperty | Sort::EdgeProperty => note(least, Rule::T12, name.place),
        Sort::Scalar | Sort::Edge | Sort::Graph | Sort::Iterator => {}
    }
}

// A value given at a declaration, by the sort of what is declared.
fn declared_value_of(
    alloc: Global,
    key: Key,
    name: &Name,
    place: Place,
    vtype: VType,
    sort: Sort,
    variable: u32,
    part: Part,
    least: &mut Option<Refusal>,
) -> Result<Option<Stmt>, AllocError>
    ensures part { IfOk result (λ r. option_map stmt_of r ≡ ok_of (declared_value key (name_of name.now) place vtype sort (variable, part_of part))) }
    ensures least { OnOk result (least.new ≡ least_from least.old (errs_of (declared_value key (name_of name.now) place vtype sort (variable, part_of part)))) }
{
    match sort {
        Sort::Scalar => match fitted(alloc, vtype, Rule::T9, place, part, least)? {
            None => Ok(None),
            Some(value) => Ok(Some(Stmt::Declare {
                key,
                variable,
                value: Some(value),
            })),
        },
        Sort::Edge | Sort::Graph | Sort::Iterator => {
            note(least, Rule::T9, place);
            Ok(None)
        }
        Sort::NodeProperty | Sort::EdgeProperty => Ok(None),
    }
}

// A value given at a declaration, which may have no type.
fn declared_value(
    alloc: Global,
    key: Key,
    name: &Name,
    place: Place,
    vtype: VType,
    sort: Sort,
    variable: u32,
    part: Option<Part>,
    least: &mut Option<Refusal>,
) -> Result<Option<Stmt>, AllocError>
    ensures part { IfOk result (λ r. option_map stmt_of r ≡ part_by (both_of (Some variable) (option_map part_of part)) (declared_value key (name_of name.now) place vtype sort)) }
    ensures least { OnOk result (least.new ≡ least_from least.old (broken_by (both_of (Some variable) (option_map part_of part)) (declared_value key (name_of name.now) place vtype sort))) }
{
    match part {
        None => Ok(None),
        Some(part) => {
            declared_value_of(alloc, key, name, place, vtype, sort, variable, part, least)
        }
    }
}

// The edge of a node, which may not be known.
fn declared_edge(variable: u32, iterator: Option<Binding>, place: Place) -> Option<Stmt>
    ensures { option_map stmt_of result ≡ option_map (λ b. Program.DeclareEdge variable b.index place) iterator }
{
    let iterator = iterator?;
    Some(Stmt::DeclareEdge {
        variable,
        iterator: iterator.index,
        place,
    })
}

// A declaration: its index, and its statement where it has types.
#[derive(Drop)]
struct Declared {
    index: u32,
    stmt: Option<Stmt>,
}

impl<'a> Checker<'a> {
    // Declares several names, one after another. Answers the indices of the declarations.
    pub fn declare_all(
        &mut self,
        alloc: Global,
        variable: Variable,
        names: &'a [Name],
    ) -> Result<Vec<u32>, AllocError>
        ensures { IfOk result (λ ns. Gives self.old self.new (declared_all variable (map name_of names.now) (env_of self.old)) (Some ns.items) (with_names variable (map name_of names.now) (env_of self.old))) }
    {
        let mut indices = Vec::new(alloc);
        for name in names {
            let index = self.declare(alloc, name, variable)?;
            indices.push(index)?;
        }
        Ok(indices)
    }

    // Declarations of several names without values.
    pub fn declare_plainly(
        &mut self,
        alloc: Global,
        vtype: &SpelledType,
        names: &'a [Name],
    ) -> Result<Option<Stmt>, AllocError>
        ensures { IfOk result (λ r. Gives self.old self.new (declared_plainly (type_of vtype.now) (map name_of names.now) (env_of self.old)) (option_map stmt_of r) (following (Surface.Declare (type_of vtype.now) (map name_of names.now)) (env_of self.old) (declared_plainly (type_of vtype.now) (map name_of names.now) (env_of self.old)))) }
    {
        let key = self.key;
        let variable = variable_of(vtype, self.depth);
        self.note_type(vtype, Role::Local);
        let indices = self.declare_all(alloc, variable, names)?;
        let stmt = declarations(alloc, sort_of(vtype), key, names, indices, &mut self.least)?;
        Ok(stmt)
    }

    // Declares a name whose type is judged with it, and does not make it known yet.
    fn declare_typed(
        &mut self,
        alloc: Global,
        vtype: &SpelledType,
        name: &Name,
    ) -> Result<u32, AllocError>
        ensures { IfOk result (λ n. Judges self.old self.new (declared_typed (type_of vtype.now) (name_of name.now) (env_of self.old)) (Some n)) }
    {
        let variable = variable_of(vtype, self.depth);
        self.note_type(vtype, Role::Local);
        note_initial(&mut self.least, variable.sort, name);
        self.note_known(name);
        let index = self.add(alloc, name, variable)?;
        Ok(index)
    }

    // The node whose edge is asked for.
    fn edge_owner(&mut self, name: &Name) -> Option<Binding>
        ensures { Judges self.old self.new (edge_owner (name_of name.now) (env_of self.old)) result }
    {
        let found = self.used(name)?;
        if is_node(found.variable) {
            return Some(found);
        }
        note(&mut self.least, Rule::T7, name.place);
        None
    }

    // A declaration of the edge of a node.
    fn declare_edge(
        &mut self,
        alloc: Global,
        vtype: &SpelledType,
        name: &Name,
        owner: &Name,
    ) -> Result<Declared, AllocError>
        ensures judged { IfOk result (λ d. Judges self.old self.new (edge_of (name_of owner.now) (type_of vtype.now) (name_of name.now) (env_of self.old)) (option_map stmt_of d.stmt)) }
        ensures index { IfOk result (λ d. d.index ≡ length self.old.declarations.items) }
    {
        let index = self.declare_typed(alloc, vtype, name)?;
        let found = self.edge_owner(owner);
        let stmt = declared_edge(index, found, owner.place);
        Ok(Declared { index, stmt })
    }

    // A declaration with a value that is no edge.
    fn declare_value(
        &mut self,
        alloc: Global,
        vtype: &SpelledType,
        name: &Name,
        equals: Place,
        value: &'a SpelledExpr,
    ) -> Result<Declared, AllocError>
        ensures judged { IfOk result (λ d. Judges self.old self.new (value_of (type_of vtype.now) (name_of name.now) equals (spelled_of value.now) (env_of self.old)) (option_map stmt_of d.stmt)) }
        ensures index { IfOk result (λ d. d.index ≡ length self.old.declarations.items) }
    {
        let key = self.key;
        let index = self.declare_typed(alloc, vtype, name)?;
        let part = self.typed(alloc, value)?;
        let stmt = declared_value(
            alloc,
            key,
            name,
            equals,
            vtype_of(vtype),
            sort_of(vtype),
            index,
            part,
            &mut self.least,
        )?;
        Ok(Declared { index, stmt })
    }

    // Makes a name known, and gives back what was made before. Where memory is short, that is dropped here.
    fn bind<T: Drop>(&mut self, name: &'a Name, binding: Binding, made: T) -> Result<T, AllocError>
        ensures made { IfOk result (λ r. r ≡ made) }
        ensures known { OnOk result (known_in self.new.scope.names.entries ≡ known_with (known_in self.old.scope.names.entries) (name_of name.now).text binding) }
        ensures rest { OnOk result (self.new ≡ record self.old { scope = self.new.scope }) }
    {
        self.scope.add(name, binding)?;
        Ok(made)
    }

    // A declaration with a value, in which the name is not known yet.
    pub fn declare_with(
        &mut self,
        alloc: Global,
        vtype: &SpelledType,
        name: &'a Name,
        equals: Place,
        value: &'a SpelledExpr,
    ) -> Result<Option<Stmt>, AllocError>
        ensures { IfOk result (λ r. Gives self.old self.new (declared_by (type_of vtype.now) (name_of name.now) equals (spelled_of value.now) (env_of self.old)) (option_map stmt_of r) (following (Surface.DeclareAs (type_of vtype.now) (name_of name.now) equals (spelled_of value.now)) (env_of self.old) (declared_by (type_of vtype.now) (name_of name.now) equals (spelled_of value.now) (env_of self.old)))) }
    {
        let variable = variable_of(vtype, self.depth);
        let declared = match edge_declared(vtype, value) {
            Some(owner) => self.declare_edge(alloc, vtype, name, owner)?,
            None => self.declare_value(alloc, vtype, name, equals, value)?,
        };
        let binding = Binding {
            index: declared.index,
            variable,
        };
        self.bind(name, binding, declared.stmt)
    }
}
