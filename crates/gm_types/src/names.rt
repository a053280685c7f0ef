//! The names that are known at a place.

ghost use Rattle.std.specs.Prelude.{◌≡◌, ◌+◌, ◌-◌, [], ◌∷◌, ◌++◌, length, take, IfOk, OnOk, is_none};
ghost use Rattle.gm_base.specs.declared.rules.Rule.TheVariants.{T2};
ghost use Rattle.gm_ast.specs.Judged.{unless};
ghost use Rattle.gm_ast.specs.Names.{known_as, known_with, used};
ghost use Rattle.gm_ast.specs.SurfaceTree.{name_of};
ghost use Rattle.gm_types.specs.Views.{known_in, env_of, Judges, Declares, Enters};
ghost use Rattle.gm_types.specs.Notes.{Notes};

use crate::notes::note;
use gm_ast::kinds::Binding;
use gm_ast::surface::Name;
use gm_ast::tree::{Declaration, Key, Sort, Variable};
use gm_base::{Items, Refusal, Rule};
use gm_value::VType;
use indexmap::IndexMap;
use std::alloc::{AllocError, Global};

// The names that are known, in the order in which they became so.
#[derive(Drop)]
pub struct Scope<'a> {
    pub names: IndexMap<&'a [u8], Binding>,
}

impl<'a> Scope<'a> {
    // What a name means, if it is known.
    pub fn meaning(&self, text: &[u8]) -> Option<Binding>
        ensures { result ≡ known_as (known_in self.now.names.entries) text.now }
    {
        self.names.get(text).copied()
    }

    // Makes a name known; where it is known already, its first declaration stands.
    pub fn add(&mut self, name: &'a Name, binding: Binding) -> Result<(), AllocError>
        ensures { OnOk result (known_in self.new.names.entries ≡ known_with (known_in self.old.names.entries) (name_of name.now).text binding) }
    {
        if self.meaning(&name.text).is_none() {
            self.names.insert(&name.text, binding)?;
        }
        Ok(())
    }
}

// The names that are known, the declarations so far, what stands around the part that is judged, and the least
// violation so far.
#[derive(Drop)]
pub struct Checker<'a> {
    pub scope: Scope<'a>,
    pub declarations: Vec<Declaration>,
    pub number: u32,
    pub key: Key,
    pub depth: u32,
    pub group: bool,
    pub iterators: Vec<u32>,
    pub result: Option<VType>,
    pub least: Option<Refusal>,
}

impl<'a> Checker<'a> {
    // What a name means that is used.
    pub fn used(&mut self, name: &Name) -> Option<Binding>
        ensures { Judges self.old self.new (used (name_of name.now) (env_of self.old)) result }
    {
        let found = self.scope.meaning(&name.text);
        if found.is_none() {
            note(&mut self.least, Rule::T1, name.place);
        }
        found
    }

    // Notes that a name is declared which is known.
    pub fn note_known(&mut self, name: &Name)
        ensures { Notes self.old self.new (unless (is_none (known_as (known_in self.old.scope.names.entries) (name_of name.now).text)) T2 (name_of name.now).place) }
    {
        if self.scope.meaning(&name.text).is_some() {
            note(&mut self.least, Rule::T2, name.place);
        }
    }

    // Adds a row to the table of declarations. Answers its index.
    pub fn add(&mut self, alloc: Global, name: &Name, variable: Variable) -> Result<u32, AllocError>
        ensures index { IfOk result (λ i. i ≡ length self.old.declarations.items) }
        ensures row { OnOk result (self.new.declarations.items ≡ self.old.declarations.items ++ (record { name = (name_of name.now).text; variable = variable } ∷ [])) }
        ensures rest { OnOk result (self.new ≡ record self.old { declarations = self.new.declarations }) }
    {
        let Ok(index) = u32::try_from(self.declarations.len()) else {
            return Err(AllocError);
        };
        let mut text = Vec::new(alloc);
        text.extend_from_slice(&name.text)?;
        self.declarations.push(Declaration {
            name: Items::new(text),
            variable,
        })?;
        Ok(index)
    }

    // Declares a name and makes it known. Answers the index of the declaration.
    pub fn declare(
        &mut self,
        alloc: Global,
        name: &'a Name,
        variable: Variable,
    ) -> Result<u32, AllocError>
        ensures index { IfOk result (λ i. i ≡ length self.old.declarations.items) }
        ensures declares { OnOk result (Declares self.old self.new (name_of name.now) variable) }
    {
        self.note_known(name);
        let index = self.add(alloc, name, variable)?;
        self.scope.add(name, Binding { index, variable })?;
        Ok(index)
    }

    // Takes so many statement numbers.
    pub fn take_numbers(&mut self, count: u32) -> Result<(), AllocError>
        ensures { OnOk result (self.new ≡ record self.old { number = self.old.number + count }) }
    {
        let Some(number) = self.number.checked_add(count) else {
            return Err(AllocError);
        };
        self.number = number;
        Ok(())
    }

    // Declares the iterator of a loop or reduction, which is so many parallel loops, and enters it.
    pub fn enter(&mut self, alloc: Global, name: &'a Name, loops: u32) -> Result<u32, AllocError>
        ensures index { IfOk result (λ i. i ≡ length self.old.declarations.items) }
        ensures enters { OnOk result (Enters self.old self.new (name_of name.now) loops) }
    {
        let Some(depth) = self.depth.checked_add(loops) else {
            return Err(AllocError);
        };
        let variable = Variable {
            sort: Sort::Iterator,
            vtype: VType::Node,
            depth,
        };
        let index = self.declare(alloc, name, variable)?;
        self.iterators.push(index)?;
        self.depth = depth;
        Ok(index)
    }

    // Forgets the names of a loop or reduction: all but the first `known`, and the last iterator.
    pub fn leave(&mut self, known: usize, depth: u32)
        ensures known { self.new.scope.names.entries ≡ take known self.old.scope.names.entries }
        ensures iterators { self.new.iterators.items ≡ take (length self.old.iterators.items - 1) self.old.iterators.items }
        ensures rest { self.new ≡ record self.old { scope = self.new.scope; iterators = self.new.iterators; depth = depth } }
    {
        self.scope.names.truncate(known);
        self.iterators.pop();
        self.depth = depth;
    }
}
