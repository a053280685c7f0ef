//! The locals of an inner body, with what their values read.

ghost use Rattle.std.specs.Prelude.{◌≡◌, flat_map, map};
ghost use Rattle.gm_ast.specs.Tree.{expr_of};
ghost use Rattle.gm_ast.specs.Ways.{Alone, Through, OfEdge, held_of, mentions, owner_of};
ghost use Rattle.gm_push_pull.specs.Locals.{held_by, noted, noted_all};
ghost use Rattle.gm_push_pull.specs.Sweeps.{compared};

use crate::reads::{NOTHING, Reads};
use gm_ast::tree::{Expr, Target};
use gm_base::Place;
use indexmap::IndexMap;

// The locals of an inner body, with what their values are known to read, and the loop's iterator.
#[derive(Drop)]
pub struct Locals {
    pub iterator: u32,
    pub facts: IndexMap<u32, Reads>,
}

impl Locals {
    // What the value of a variable reads that is a local.
    pub fn held_by(&self, variable: u32) -> Reads
        ensures { result ≡ held_by self.now variable }
    {
        match self.facts.get(&variable) {
            Some(reads) => *reads,
            None => NOTHING,
        }
    }

    // Adds a variable's value.
    fn alone(&self, variable: u32, reads: Reads) -> Reads
        ensures { result ≡ noted self.now reads (Alone variable) }
    {
        reads.join(self.held_by(variable))
    }

    // Adds a property or the degree of a variable's node.
    fn through(&self, variable: u32, reads: Reads) -> Reads
        ensures { result ≡ noted self.now reads (Through variable) }
    {
        let own = Reads {
            neighbour: variable == self.iterator,
            edge: None,
        };
        reads.join(own).join(self.held_by(variable))
    }

    // Adds a property of a variable's edge, which is read at this place.
    fn of_edge(&self, variable: u32, place: Place, reads: Reads) -> Reads
        ensures { result ≡ noted self.now reads (OfEdge variable place) }
    {
        let own = Reads {
            neighbour: false,
            edge: Some(place),
        };
        reads.join(own).join(self.held_by(variable))
    }

    // Adds what an expression mentions.
    pub fn noted(&self, e: &Expr, reads: Reads) -> Reads
        ensures { result ≡ noted_all self.now reads (mentions (expr_of e.now)) }
    {
        match e {
            Expr::Const(_) | Expr::NodeCount | Expr::EdgeCount => reads,
            Expr::Var { variable, .. } | Expr::Live { variable, .. } => {
                self.alone(*variable, reads)
            }
            Expr::Property { owner, .. } | Expr::Degree { owner, .. } => {
                self.through(*owner, reads)
            }
            Expr::EdgeProperty { edge, place, .. } => self.of_edge(*edge, *place, reads),
            Expr::Unary { inner, .. } => self.noted(inner, reads),
            Expr::Binary { left, right, .. } => self.noted(right, self.noted(left, reads)),
            Expr::Both(left, right) => self.noted(right, self.noted(left, reads)),
            Expr::Either(left, right) => self.noted(right, self.noted(left, reads)),
            Expr::Choose(test, yes, no) => {
                let before = self.noted(yes, self.noted(test, reads));
                self.noted(no, before)
            }
            Expr::Fold { filter, body, .. } => self.noted(body, self.noted(filter, reads)),
        }
    }

    // Adds what some expressions mention.
    fn noted_each(&self, values: &[Expr], reads: Reads) -> Reads
        ensures { result ≡ noted_all self.now reads (flat_map mentions (map expr_of values.now)) }
    {
        let mut all = reads;
        for value in values {
            all = self.noted(value, all);
        }
        all
    }

    // Adds what some targets hold that are scalars.
    fn noted_held(&self, targets: &[Target], reads: Reads) -> Reads
        ensures { result ≡ noted_all self.now reads (flat_map held_of targets.now) }
    {
        let mut all = reads;
        for target in targets {
            if let Target::Scalar { variable, .. } = *target {
                all = self.alone(variable, all);
            }
        }
        all
    }

    // Adds what a reduction looks at: what it compares, and its values.
    pub fn noted_reduction(&self, targets: &[Target], values: &[Expr], reads: Reads) -> Reads
        ensures { result ≡ noted_all self.now reads (compared targets.now (map expr_of values.now)) }
    {
        let held = self.noted_held(targets, reads);
        self.noted_each(values, held)
    }

    // Adds the node variables of some targets.
    pub fn noted_owners(&self, targets: &[Target], reads: Reads) -> Reads
        ensures { result ≡ noted_all self.now reads (flat_map owner_of targets.now) }
    {
        let mut all = reads;
        for target in targets {
            if let Target::Property { owner, .. } = *target {
                all = self.alone(owner, all);
            }
        }
        all
    }
}
