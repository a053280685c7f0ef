//! Programs that keep what their names promise.

ghost use Rattle.std.specs.Prelude.{◌≡◌};
ghost use Rattle.gm_ast.specs.Canonical.{IsCanonical, ways_in};
ghost use Rattle.gm_ast.specs.Procedures.{IsTyped};
ghost use Rattle.gm_ast.specs.Tree.{program_of, stmt_of};

use crate::tree::Tree;
use crate::ways::Way;
use std::marker::Model;

/// A program whose names and types break no rule: it is what a procedure without any violation stands for. Contracts
/// see it as its tree.
#[derive(Drop)]
pub struct Typed {
    tree: Tree,
}

impl Model for Typed {
    ghost use Rattle.std.specs.Coded.{codes};
    ghost use Rattle.gm_ast.specs.declared.tree.Tree.{Tree};
    ghost use Rattle.gm_ast.specs.contracts.tree.Stmt as stmt;

    ghost Value = { Tree };

    ghost coded = { Prim.hlevel (codes, stmt.the_row.coded) };

    ghost use Rattle.gm_ast.specs.Procedures.{IsTyped};
    ghost use Rattle.gm_ast.specs.Tree.{program_of};

    ghost view = { λ typed. typed.tree };

    ghost invariant = { λ typed. IsTyped (program_of typed.tree) };
}

impl Typed {
    /// The typed program of a tree. It takes no memory.
    pub fn new(tree: Tree) -> Self
        requires { IsTyped (program_of tree) }
        ensures { result ≡ tree }
    {
        Typed { tree }
    }

    /// The tree of the program.
    pub fn tree(&self) -> &Tree
        ensures tree { result.now ≡ self.now }
        ensures known { IsTyped (program_of self.now) }
    {
        &self.tree
    }

    /// The tree of the program. It takes no memory.
    pub fn into_tree(self) -> Tree
        ensures tree { result ≡ self }
        ensures known { IsTyped (program_of self) }
    {
        self.tree
    }
}

/// A program that breaks no rule of types, races and canonical form, with the ways of its inner loops' reductions.
/// Contracts see it as its tree.
#[derive(Drop)]
pub struct Checked {
    tree: Tree,
    ways: Vec<Way>,
}

impl Model for Checked {
    ghost use Rattle.std.specs.Coded.{codes};
    ghost use Rattle.std.specs.Prelude.{◌≡◌};
    ghost use Rattle.gm_ast.specs.declared.tree.Tree.{Tree};
    ghost use Rattle.gm_ast.specs.contracts.tree.Stmt as stmt;

    ghost Value = { Tree };

    ghost coded = { Prim.hlevel (codes, stmt.the_row.coded) };

    ghost use Rattle.gm_ast.specs.Canonical.{IsCanonical, ways_in};
    ghost use Rattle.gm_ast.specs.Tree.{program_of, stmt_of};

    ghost view = { λ checked. checked.tree };

    ghost invariant = { λ checked. IsCanonical (program_of checked.tree) × (checked.ways.items ≡ ways_in (stmt_of checked.tree.body)) };
}

impl Checked {
    /// The checked program of a tree, with the ways of the reductions in its inner loops that end with a loop, in the
    /// order of the text. It takes no memory.
    pub fn new(tree: Tree, ways: Vec<Way>) -> Self
        requires canonical { IsCanonical (program_of tree) }
        requires classified { ways.items ≡ ways_in (stmt_of tree.body) }
        ensures { result ≡ tree }
    {
        Checked { tree, ways }
    }

    /// The tree of the program.
    pub fn tree(&self) -> &Tree
        ensures tree { result.now ≡ self.now }
        ensures known { IsCanonical (program_of self.now) }
    {
        &self.tree
    }

    /// The ways of the reductions in inner loops that end with a loop, in the order of the text.
    pub fn ways(&self) -> &[Way]
        ensures { result.now ≡ ways_in (stmt_of self.now.body) }
    {
        &self.ways
    }

    /// The tree of the program. It takes no memory.
    pub fn into_tree(self) -> Tree
        ensures tree { result ≡ self }
        ensures known { IsCanonical (program_of self) }
    {
        self.tree
    }
}

/// A checked program, or what passes have made of one. Contracts see it as its tree.
#[derive(Drop)]
pub struct Work {
    tree: Tree,
}

impl Model for Work {
    ghost use Rattle.std.specs.Coded.{codes};
    ghost use Rattle.gm_ast.specs.declared.tree.Tree.{Tree};
    ghost use Rattle.gm_ast.specs.contracts.tree.Stmt as stmt;

    ghost Value = { Tree };

    ghost coded = { Prim.hlevel (codes, stmt.the_row.coded) };

    ghost view = { λ work. work.tree };
}

impl Work {
    /// The work on a tree. It takes no memory.
    pub fn new(tree: Tree) -> Self
        ensures { result ≡ tree }
    {
        Work { tree }
    }

    /// The tree of the program.
    pub fn tree(&self) -> &Tree
        ensures { result.now ≡ self.now }
    {
        &self.tree
    }

    /// The tree of the program. It takes no memory.
    pub fn into_tree(self) -> Tree
        ensures { result ≡ self }
    {
        self.tree
    }
}
