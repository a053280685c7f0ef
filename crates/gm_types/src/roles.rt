//! The types of declarations: what they declare, and where they may stand.

ghost use Rattle.std.specs.Prelude.{◌≡◌, ◌≤◌, length, option_map};
ghost use Rattle.gm_ast.specs.Statements.{is_input, is_local, plain_fits, property_fits, graph_named, type_broken, sort_of_word, sort_of_bearer, sort_of, vtype_of_word, vtype_of, variable_of, is_edge_type, holds_node};
ghost use Rattle.gm_ast.specs.SurfaceTree.{name_of, type_of};
ghost use Rattle.gm_types.specs.Views.{env_of};
ghost use Rattle.gm_types.specs.Notes.{Notes, type_upto, layer_broken, plain_broken};

use crate::names::Checker;
use crate::notes::note;
use gm_ast::kinds::Role;
use gm_ast::surface::{Bearer, Name, PropertyLayer, SpelledType, TypeWord};
use gm_ast::tree::{Sort, Variable};
use gm_base::Rule;
use gm_value::VType;

// Whether a type that holds no other may have a role.
fn plain_fits(role: Role, word: TypeWord) -> bool
    ensures { result ≡ plain_fits role word }
{
    match word {
        TypeWord::Graph => role == Role::Input,
        TypeWord::Edge => role == Role::Local,
        TypeWord::Int | TypeWord::Long | TypeWord::Bool | TypeWord::Node => true,
    }
}

// Whether a property may have a role inside so many parallel loops; its values may be nodes.
fn property_fits(role: Role, depth: u32, bearer: Bearer, of_nodes: bool) -> bool
    ensures { result ≡ property_fits role depth bearer of_nodes }
{
    match (role, bearer) {
        (Role::Input, _) => !of_nodes,
        (Role::Output, Bearer::Nodes) => true,
        (Role::Local, Bearer::Nodes) => depth == 0,
        _ => false,
    }
}

fn sort_of_word(word: TypeWord) -> Sort
    ensures { result ≡ sort_of_word word }
{
    match word {
        TypeWord::Graph => Sort::Graph,
        TypeWord::Edge => Sort::Edge,
        TypeWord::Int | TypeWord::Long | TypeWord::Bool | TypeWord::Node => Sort::Scalar,
    }
}

fn sort_of_bearer(bearer: Bearer) -> Sort
    ensures { result ≡ sort_of_bearer bearer }
{
    match bearer {
        Bearer::Nodes => Sort::NodeProperty,
        Bearer::Edges => Sort::EdgeProperty,
    }
}

fn vtype_of_word(word: TypeWord) -> VType
    ensures { result ≡ vtype_of_word word }
{
    match word {
        TypeWord::Int => VType::I32,
        TypeWord::Long => VType::I64,
        TypeWord::Bool => VType::Flag,
        TypeWord::Node | TypeWord::Edge | TypeWord::Graph => VType::Node,
    }
}

// What a type declares.
pub fn sort_of(vtype: &SpelledType) -> Sort
    ensures { result ≡ sort_of (type_of vtype.now) }
{
    match vtype.layers.last() {
        Some(layer) => sort_of_bearer(layer.bearer),
        None => sort_of_word(vtype.word),
    }
}

// The type of a scalar's values or a property's.
pub fn vtype_of(vtype: &SpelledType) -> VType
    ensures { result ≡ vtype_of (type_of vtype.now) }
{
    vtype_of_word(vtype.word)
}

// The declaration that a type makes inside so many parallel loops.
pub fn variable_of(vtype: &SpelledType, depth: u32) -> Variable
    ensures { result ≡ variable_of (type_of vtype.now) depth }
{
    Variable {
        sort: sort_of(vtype),
        vtype: vtype_of(vtype),
        depth,
    }
}

// Whether a type is Edge.
pub fn is_edge_type(vtype: &SpelledType) -> bool
    ensures { result ≡ is_edge_type (type_of vtype.now) }
{
    vtype.layers.is_empty() && vtype.word == TypeWord::Edge
}

// Whether the type within all but the first layers is Node.
fn holds_node(vtype: &SpelledType, layers: usize) -> bool
    requires { layers ≤ length vtype.now.layers.items }
    ensures { result ≡ holds_node (type_upto vtype.now layers) }
{
    layers == 0 && vtype.word == TypeWord::Node
}

impl<'a> Checker<'a> {
    // Notes what is broken by the name of a graph beside a type.
    fn note_graph(&mut self, graph: &Option<Name>)
        ensures { Notes self.old self.new (graph_named (env_of self.old) (option_map name_of graph.now)) }
    {
        let Some(name) = graph else {
            return;
        };
        match self.scope.meaning(&name.text) {
            None => note(&mut self.least, Rule::T1, name.place),
            Some(binding) => {
                if binding.variable.sort != Sort::Graph {
                    note(&mut self.least, Rule::T5, name.place);
                }
            }
        }
    }

    // Notes what a property breaks by itself.
    fn note_layer(&mut self, layer: &PropertyLayer, role: Role, of_nodes: bool)
        ensures { Notes self.old self.new (layer_broken layer.now role of_nodes (env_of self.old)) }
    {
        if !property_fits(role, self.depth, layer.bearer, of_nodes) {
            note(&mut self.least, Rule::T4, layer.place);
        }
        self.note_graph(&layer.graph);
    }

    // Notes what an innermost type breaks.
    fn note_plain(&mut self, vtype: &SpelledType, role: Role)
        ensures { Notes self.old self.new (plain_broken vtype.now role (env_of self.old)) }
    {
        if !plain_fits(role, vtype.word) {
            note(&mut self.least, Rule::T4, vtype.place);
        }
        self.note_graph(&vtype.graph);
    }

    // Notes what a type breaks that has a role.
    pub fn note_type(&mut self, vtype: &SpelledType, role: Role)
        ensures { Notes self.old self.new (type_broken (type_of vtype.now) role (env_of self.old)) }
    {
        let mut left = vtype.layers.len();
        let mut inner = role;
        'layers: while left > 0 {
            left -= 1;
            let of_nodes = holds_node(vtype, left);
            self.note_layer(&vtype.layers[left], inner, of_nodes);
            inner = Role::Inside;
        }
        self.note_plain(vtype, inner);
    }
}
