//! Which of the declared variables are marked: a set of those that are, so that it costs what it has.

ghost use Rattle.std.specs.Prelude.{◌≡◌, IfOk, OnOk};
ghost use Rattle.gm_bfs.specs.Copies as Copies;
ghost use Rattle.gm_bfs.specs.Marked as Marked;

use gm_base::NoMemory;
use std::alloc::Global;
use std::collections::BTreeSet;
use std::marker::Model;

// Marked variables among so many. A set may have others too, which count for nothing.
#[derive(Drop)]
pub(crate) struct Marks {
    count: usize,
    variables: BTreeSet<u32>,
}

impl Model for Marks {
    ghost use Rattle.std.specs.Prelude.{List, Bool};
    ghost use Rattle.gm_bfs.specs.Marked.{table_of};

    ghost Value = { List Bool };

    ghost view = { λ m. table_of m.variables m.count };
}

impl Marks {
    // No variable of so many marked.
    pub(crate) fn none(alloc: Global, count: usize) -> Marks
        ensures { result ≡ Copies.no_marks count }
    {
        Marks {
            count,
            variables: BTreeSet::new(alloc),
        }
    }

    // Whether a variable is marked.
    pub(crate) fn has(&self, variable: u32) -> bool
        ensures { result ≡ Copies.is_marked self.now variable }
    {
        (variable as usize) < self.count && self.variables.contains(&variable)
    }

    // Marks a variable.
    pub(crate) fn add(&mut self, variable: u32) -> Result<(), NoMemory>
        ensures { OnOk result (self.new ≡ Copies.mark variable self.old) }
    {
        self.variables.insert(variable)?;
        Ok(())
    }

    // The marked variables, in the order of the table.
    pub(crate) fn in_order(&self, alloc: Global) -> Result<Vec<u32>, NoMemory>
        ensures { IfOk result (λ marked. marked.items ≡ Marked.marked_from 0 self.now) }
    {
        let mut marked = Vec::new(alloc);
        for variable in &self.variables {
            if (*variable as usize) < self.count {
                marked.push(*variable)?;
            }
        }
        Ok(marked)
    }
}
