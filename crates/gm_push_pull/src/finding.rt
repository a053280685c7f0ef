//! The ways of an inner loop's reductions, and the reads of edges against them.

ghost use Rattle.std.specs.Prelude.{◌≡◌, ◌∷◌, [], OnOk, map};
ghost use Rattle.gm_ast.specs.Program.{sequence};
ghost use Rattle.gm_ast.specs.Tree.{stmt_of};
ghost use Rattle.gm_ast.specs.Ways.{is_through, pulls_by_range, is_against};
ghost use Rattle.gm_ast.specs.Loops.{any};
ghost use Rattle.gm_push_pull.specs.Finding.{all_known, way_from, Finds, reductions};

use crate::locals::Locals;
use crate::reads::{Reads, earlier};
use gm_ast::tree::{Domain, Head, Stmt, Target};
use gm_ast::ways::Way;
use gm_base::Place;
use std::alloc::{AllocError, Global};

// Whether a property through an iterator is among some targets.
fn any_through(iterator: u32, targets: &[Target]) -> bool
    ensures { result ≡ any (is_through iterator) targets.now }
{
    for target in targets {
        if let Target::Property { owner, .. } = *target {
            if owner == iterator {
                return true;
            }
        }
    }
    false
}

// Whether a range alone makes a reduction a pull.
fn pulls_by_range(domain: Domain, reads_edge: bool) -> bool
    ensures { result ≡ pulls_by_range domain reads_edge }
{
    match domain {
        Domain::UpNbrs => true,
        Domain::DownNbrs => true,
        Domain::InNbrs => reads_edge,
        Domain::OutNbrs | Domain::Nodes => false,
    }
}

// The way of a reduction with some targets, whose support reads this.
fn way_from(head: &Head, targets: &[Target], reads: Reads) -> Way
    ensures { result ≡ way_from head.now targets.now reads }
{
    if any_through(head.iterator, targets) {
        return Way::Push;
    }
    if reads.neighbour || pulls_by_range(head.domain, reads.edge.is_some()) {
        return Way::Pull;
    }
    Way::Home
}

// Whether an edge's properties are not at hand where a message of this way is made.
fn is_against(domain: Domain, way: Way) -> bool
    ensures { result ≡ is_against domain way }
{
    let along = match domain {
        Domain::OutNbrs | Domain::DownNbrs => true,
        Domain::InNbrs | Domain::UpNbrs | Domain::Nodes => false,
    };
    match way {
        Way::Push => !along,
        Way::Pull => along,
        Way::Home => false,
    }
}

// The ways of an inner loop's reductions so far, and the first read of an edge so far against the way of a message.
#[derive(Drop)]
pub struct Finder {
    pub head: Head,
    pub locals: Locals,
    pub ways: Vec<Way>,
    pub against: Option<Place>,
}

impl Finder {
    // Whether all targets are locals.
    fn all_known(&self, targets: &[Target]) -> bool
        ensures { result ≡ all_known self.now.locals targets.now }
    {
        for target in targets {
            match *target {
                Target::Scalar { variable, .. } => {
                    if self.locals.facts.get(&variable).is_none() {
                        return false;
                    }
                }
                Target::Property { .. } => return false,
            }
        }
        true
    }

    // Adds a reduction that ends with the loop, whose support reads this.
    fn add(&mut self, targets: &[Target], reads: Reads) -> Result<(), AllocError>
        ensures { OnOk result (Finds self.old self.new (record { targets = targets.now; reads = reads } ∷ [])) }
    {
        let way = way_from(&self.head, targets, reads);
        self.ways.push(way)?;
        if is_against(self.head.domain, way) {
            self.against = earlier(self.against, reads.edge);
        }
        Ok(())
    }

    // Adds the reductions of a block's statements.
    #[cycle(finding)]
    fn find_all(&mut self, stmts: &Vec<Stmt>, around: Reads) -> Result<(), AllocError>
        ensures { OnOk result (Finds self.old self.new (reductions self.old.locals (sequence (map stmt_of stmts.now.items)) around)) }
    {
        for stmt in stmts {
            self.find(stmt, around)?;
        }
        Ok(())
    }

    // Adds the reductions of a statement, where the filter and the conditions around read this.
    #[cycle(finding)]
    pub fn find(&mut self, s: &Stmt, around: Reads) -> Result<(), AllocError>
        ensures { OnOk result (Finds self.old self.new (reductions self.old.locals (stmt_of s.now) around)) }
    {
        match s {
            Stmt::Block(stmts) => {
                self.find_all(stmts, around)?;
                Ok(())
            }
            Stmt::If { test, yes, no, .. } => {
                let inside = self.locals.noted(test, around);
                self.find(yes, inside)?;
                self.find(no, inside)?;
                Ok(())
            }
            Stmt::Reduce {
                targets,
                values,
                ..
            } => {
                if self.all_known(targets) {
                    return Ok(());
                }
                let looked_at = self.locals.noted_reduction(targets, values, around);
                let reads = self.locals.noted_owners(targets, looked_at);
                self.add(targets, reads)?;
                Ok(())
            }
            _ => Ok(()),
        }
    }
}
