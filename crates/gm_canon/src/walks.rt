//! A walk over a program: what stands around the part that is judged, and the least violation so far.

ghost use Rattle.std.specs.Prelude.{◌≡◌, List, [], ◌∷◌, ◌++◌, OnOk, None, not};
ghost use Rattle.gm_base.specs.declared.rules.Rule.TheVariants.{C9};
ghost use Rattle.gm_base.specs.Rules.{broken_at, least};
ghost use Rattle.gm_base.specs.declared.rules.Refusal.{Refusal};
ghost use Rattle.gm_ast.specs.Loops as Loops;
ghost use Rattle.gm_ast.specs.Loops.{broken_if, declared_at};
ghost use Rattle.gm_ast.specs.Canonical as Canonical;
ghost use Rattle.gm_ast.specs.Canonical.{sequential, range_broken, read_broken, sequential_only, parallel_only, not_inner, assignment_broken};
ghost use Rattle.gm_canon.specs.Around.{around_of, refused_as, Notes, Enters, Leaves};

use crate::loops::{
    Code, Loop, asks_levels, has_levels, is_inner, is_inner_iterator, is_parallel, iterates,
    nesting,
};
use gm_ast::tree::{Declaration, Head, Target};
use gm_base::{Place, Refusal, Rule};
use std::alloc::{AllocError, Global};

// The place of an assignment's first token.
pub fn target_place(target: Target) -> Place
    ensures { result ≡ Loops.target_place target }
{
    match target {
        Target::Scalar { place, .. } => place,
        Target::Property { place, .. } => place,
    }
}

// The declarations, the parallel loops around the part that is judged, from the outermost inwards, and the least
// violation so far.
#[derive(Drop)]
pub struct Walker<'a> {
    pub declarations: &'a [Declaration],
    pub loops: Vec<Loop>,
    pub least: Option<Refusal>,
}

impl<'a> Walker<'a> {
    // A walk that begins in a sequential phase.
    pub fn new(alloc: Global, declarations: &'a [Declaration]) -> Self
        ensures around { around_of result ≡ sequential declarations.now }
        ensures least { result.least ≡ None }
    {
        Walker {
            declarations,
            loops: Vec::new(alloc),
            least: None,
        }
    }

    // Enters a parallel loop.
    pub fn enter(&mut self, code: Code, iterator: u32) -> Result<(), AllocError>
        ensures { OnOk result (Enters self.old self.new code iterator) }
    {
        self.loops.push(Loop { code, iterator })?;
        Ok(())
    }

    // Leaves the innermost loop.
    pub fn leave(&mut self)
        ensures { Leaves self.old self.new }
    {
        self.loops.pop();
    }

    // Notes that a rule is broken at a place.
    fn note(&mut self, rule: Rule, place: Place)
        ensures { Notes self.old self.new (broken_at rule place ∷ []) }
    {
        Refusal { rule, place }.note(&mut self.least);
    }

    // Notes a rule that is broken at a place, if one is.
    fn note_rule(&mut self, rule: Option<Rule>, place: Place)
        ensures { Notes self.old self.new (refused_as rule place) }
    {
        if let Some(rule) = rule {
            self.note(rule, place);
        }
    }

    // Notes that a rule is broken at a place, where a test holds.
    fn note_if(&mut self, bad: bool, rule: Rule, place: Place)
        ensures { Notes self.old self.new (broken_if bad rule place) }
    {
        if bad {
            self.note(rule, place);
        }
    }

    // Notes the least of some violations, if there are any.
    pub fn note_least(&mut self, found: Option<Refusal>)
        ensures { (broken : List Refusal) → found ≡ least broken → Notes self.old self.new broken }
    {
        if let Some(refusal) = found {
            refusal.note(&mut self.least);
        }
    }

    // Notes what a loop or reduction breaks by its range.
    pub fn range(&mut self, head: Head)
        ensures { Notes self.old self.new (range_broken (around_of self.old).loops head) }
    {
        let rule = nesting(&self.loops, head);
        let no_levels = asks_levels(head.domain) && !has_levels(&self.loops, head.owner);
        self.note_rule(rule, head.place);
        self.note_if(no_levels, Rule::C8, head.place);
    }

    // Notes what the read of a property or degree through a variable breaks.
    pub fn read(&mut self, variable: u32, place: Place)
        ensures { Notes self.old self.new (read_broken (around_of self.old).loops variable place) }
    {
        let stray = is_parallel(&self.loops) && !iterates(&self.loops, variable);
        self.note_if(stray, Rule::C5, place);
    }

    // Notes a statement that may stand in a sequential phase alone.
    fn sequential_only(&mut self, place: Place)
        ensures { Notes self.old self.new (sequential_only (around_of self.old).loops place) }
    {
        let parallel = is_parallel(&self.loops);
        self.note_if(parallel, Rule::C4, place);
    }

    // Notes a statement that may stand in parallel code alone.
    pub fn parallel_only(&mut self, place: Place)
        ensures { Notes self.old self.new (parallel_only (around_of self.old).loops place) }
    {
        let parallel = is_parallel(&self.loops);
        self.note_if(!parallel, Rule::C4, place);
    }

    // Notes a statement that may not stand in an inner body.
    pub fn not_inner(&mut self, place: Place)
        ensures { Notes self.old self.new (not_inner (around_of self.old).loops place) }
    {
        let inner = is_inner(&self.loops);
        self.note_if(inner, Rule::C6, place);
    }

    // Notes a statement that may stand in a sequential phase alone, and so in no inner body.
    pub fn phase_only(&mut self, place: Place)
        ensures { Notes self.old self.new (sequential_only (around_of self.old).loops place ++ not_inner (around_of self.old).loops place) }
    {
        self.sequential_only(place);
        self.not_inner(place);
    }

    // How many parallel loops are around a scalar's declaration.
    fn depth_of(&self, variable: u32) -> u32
        ensures { result ≡ Loops.depth_of (declared_at self.now.declarations.now variable) }
    {
        match self.declarations.get(variable as usize) {
            None => 0,
            Some(declaration) => declaration.variable.depth,
        }
    }

    // Whether an assignment goes to a local that is declared inside as many loops as stand around it.
    fn is_own_local(&self, target: Target) -> bool
        ensures { result ≡ Canonical.is_own_local (around_of self.now) target }
    {
        match target {
            Target::Scalar { variable, .. } => self.depth_of(variable) as usize == self.loops.len(),
            Target::Property { .. } => false,
        }
    }

    // Notes what a plain assignment breaks by its target.
    pub fn assignment(&mut self, target: Target)
        ensures { Notes self.old self.new (assignment_broken (around_of self.old) target) }
    {
        let bad = is_inner(&self.loops) && !self.is_own_local(target);
        self.note_if(bad, Rule::C6, target_place(target));
    }

    // Notes the declaration of an edge along which no inner iterator was reached.
    pub fn edge(&mut self, iterator: u32, place: Place)
        ensures { Notes self.old self.new (broken_if (not (Canonical.is_inner_iterator (around_of self.old).loops iterator)) C9 place) }
    {
        let known = is_inner_iterator(&self.loops, iterator);
        self.note_if(!known, Rule::C9, place);
    }
}
