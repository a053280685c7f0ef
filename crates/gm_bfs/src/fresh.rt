//! The variables that levels are kept in, and where a search stands.

ghost use Rattle.std.specs.Prelude.{◌≡◌, ◌++◌, IfOk, OnOk, map};
ghost use Rattle.gm_bfs.specs.Variables as Variables;
ghost use Rattle.gm_bfs.specs.Searches as Searches;

use gm_ast::tree::{Declaration, Key, Search, Sort, Stage, TotalKey, Variable};
use gm_base::{Items, NoMemory, Place};
use gm_value::VType;
use std::alloc::Global;

/// The fresh variables of a program, by their indices in the table of declarations.
#[derive(Clone, Copy, Debug, PartialEq, Eq)]
pub struct Fresh {
    /// The root, a node.
    pub root: u32,
    /// The level whose turn it is.
    pub current: u32,
    /// The level before it.
    pub up: u32,
    /// The level behind it.
    pub down: u32,
    /// Whether there is a level whose turn is to come.
    pub more: u32,
    /// Whether a node of the next level was found.
    pub found: u32,
    /// A property: the node's level.
    pub level: u32,
    /// A property: whether the node is on the current level.
    pub active: u32,
    /// An iterator over all nodes.
    pub node: u32,
    /// An iterator over the neighbours of the first.
    pub neighbour: u32,
    /// The copy of the first declared variable; those of the others stand behind it, in their order.
    pub copies: u32,
}

/// Where a search stands: the number of its statement, the variable of its graph, and the place of its root.
#[derive(Clone, Copy, Debug, PartialEq, Eq)]
pub struct Site {
    pub number: u32,
    pub graph: u32,
    pub place: Place,
}

// The fresh variables behind so many declared ones. A table that has no indices for them fits no memory.
pub(crate) fn fresh_from(count: usize) -> Result<Fresh, NoMemory>
    ensures { IfOk result (λ f. f ≡ Variables.fresh_from count) }
{
    let Ok(first) = u32::try_from(count) else {
        return Err(NoMemory);
    };
    let Some(copies) = first.checked_add(10) else {
        return Err(NoMemory);
    };
    Ok(Fresh {
        root: first,
        current: first + 1,
        up: first + 2,
        down: first + 3,
        more: first + 4,
        found: first + 5,
        level: first + 6,
        active: first + 7,
        node: first + 8,
        neighbour: first + 9,
        copies,
    })
}

// The copy of a property.
pub(crate) fn copy_of(fresh: Fresh, property: u32) -> Result<u32, NoMemory>
    ensures { IfOk result (λ copy. copy ≡ Variables.copy_of fresh property) }
{
    match fresh.copies.checked_add(property) {
        Some(copy) => Ok(copy),
        None => Err(NoMemory),
    }
}

// A declaration that no text has.
fn unnamed(alloc: Global, sort: Sort, vtype: VType, depth: u32) -> Declaration
    ensures { result ≡ Variables.unnamed sort vtype depth }
{
    Declaration {
        name: Items::new(Vec::new(alloc)),
        variable: Variable { sort, vtype, depth },
    }
}

// The declarations of the copies, each a property of nodes: a copied property of edges would be a column that is no input.
fn copies_of(alloc: Global, declarations: &[Declaration]) -> Result<Vec<Declaration>, NoMemory>
    ensures { IfOk result (λ copies. copies.items ≡ map Variables.copy_declaration declarations.now) }
{
    let mut copies = Vec::with_capacity(alloc, declarations.len())?;
    for declaration in declarations {
        copies.push(unnamed(alloc, Sort::NodeProperty, declaration.variable.vtype, 0))?;
    }
    Ok(copies)
}

// The declarations of the fresh variables.
fn fresh_declarations(alloc: Global) -> Result<Vec<Declaration>, NoMemory>
    ensures { IfOk result (λ declarations. declarations.items ≡ Variables.fresh_declarations) }
{
    Ok(vec![in alloc;
        unnamed(alloc, Sort::Scalar, VType::Node, 0),
        unnamed(alloc, Sort::Scalar, VType::I32, 0),
        unnamed(alloc, Sort::Scalar, VType::I32, 0),
        unnamed(alloc, Sort::Scalar, VType::I32, 0),
        unnamed(alloc, Sort::Scalar, VType::Flag, 0),
        unnamed(alloc, Sort::Scalar, VType::Flag, 0),
        unnamed(alloc, Sort::NodeProperty, VType::I32, 0),
        unnamed(alloc, Sort::NodeProperty, VType::Flag, 0),
        unnamed(alloc, Sort::Iterator, VType::Node, 1),
        unnamed(alloc, Sort::Iterator, VType::Node, 2),
    ]?)
}

// Adds the fresh variables and the copies to the table.
pub(crate) fn add_fresh(alloc: Global, declarations: &mut Vec<Declaration>) -> Result<(), NoMemory>
    ensures { OnOk result (declarations.new.items ≡ Variables.with_fresh declarations.old.items) }
{
    let mut copies = copies_of(alloc, declarations)?;
    let mut fresh = fresh_declarations(alloc)?;
    declarations.append(&mut fresh)?;
    declarations.append(&mut copies)?;
    Ok(())
}

impl Site {
    // Where a search with a key stands.
    pub(crate) fn new(key: Key, search: Search) -> Site
        ensures { result ≡ Searches.site_of key search }
    {
        Site {
            number: key.statement,
            graph: search.graph,
            place: search.place,
        }
    }

    // The key of a filter.
    pub(crate) fn filter_key(self) -> Key
        ensures { result ≡ Variables.filter_key self }
    {
        Key {
            statement: self.number,
            stage: Stage::Inner,
        }
    }

    // The key of a statement.
    pub(crate) fn body_key(self) -> Key
        ensures { result ≡ Variables.body_key self }
    {
        Key {
            statement: self.number,
            stage: Stage::Operator,
        }
    }

    // Where a total stands.
    pub(crate) fn total(self) -> TotalKey
        ensures { result ≡ Variables.total_of self }
    {
        TotalKey {
            key: Key {
                statement: self.number,
                stage: Stage::Total,
            },
            place: self.place,
            shown: self.place,
        }
    }
}
