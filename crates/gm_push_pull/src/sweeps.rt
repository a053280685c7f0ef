//! What the values of an inner body's locals read: sweeps over the body until nothing changes.

ghost use Rattle.std.specs.Prelude.{◌≡◌, ◌∷◌, [], nat_eq, IfOk, OnOk, map};
ghost use Rattle.gm_ast.specs.Program.{sequence};
ghost use Rattle.gm_ast.specs.Tree.{stmt_of};
ghost use Rattle.gm_ast.specs.Ways.{locals};
ghost use Rattle.gm_push_pull.specs.Tests.{holds};
ghost use Rattle.gm_push_pull.specs.Locals.{Gathers, is_known};
ghost use Rattle.gm_push_pull.specs.Sweeps.{is_written, written, Demand, Demands, Grows, Settles};

use crate::locals::Locals;
use crate::reads::{NOTHING, Reads};
use gm_ast::tree::{Stmt, Target};
use std::alloc::AllocError;

impl Locals {
    // Adds a local.
    pub fn declare(&mut self, variable: u32) -> Result<(), AllocError>
        ensures { OnOk result (Gathers self.old self.new (variable ∷ [])) }
    {
        self.facts.insert(variable, NOTHING)?;
        Ok(())
    }

    // Adds the locals that the statements of a block declare.
    #[cycle(gathering)]
    fn gather_all(&mut self, stmts: &Vec<Stmt>) -> Result<(), AllocError>
        ensures { OnOk result (Gathers self.old self.new (locals (sequence (map stmt_of stmts.now.items)))) }
    {
        for stmt in stmts {
            self.gather(stmt)?;
        }
        Ok(())
    }

    // Adds the locals that a statement declares.
    #[cycle(gathering)]
    pub fn gather(&mut self, s: &Stmt) -> Result<(), AllocError>
        ensures { OnOk result (Gathers self.old self.new (locals (stmt_of s.now))) }
    {
        match s {
            Stmt::Block(stmts) => {
                self.gather_all(stmts)?;
                Ok(())
            }
            Stmt::If { yes, no, .. } => {
                self.gather(yes)?;
                self.gather(no)?;
                Ok(())
            }
            Stmt::Declare { variable, .. } | Stmt::DeclareEdge { variable, .. } => {
                self.declare(*variable)?;
                Ok(())
            }
            _ => Ok(()),
        }
    }

    // Adds reads to those of a variable that is a local. Answers whether they are new.
    pub fn add(&mut self, variable: u32, reads: Reads) -> Result<bool, AllocError>
        ensures { IfOk result (λ changed. Grows self.old self.new (λ t B. Demand (is_known self.old) B (nat_eq variable) (holds reads t)) changed) }
    {
        let Some(known) = self.facts.get(&variable) else {
            return Ok(false);
        };
        let before = *known;
        let after = before.join(reads);
        if after == before {
            return Ok(false);
        }
        self.facts.insert(variable, after)?;
        Ok(true)
    }

    // Adds what is read by a value that is written to a target.
    fn write(&mut self, target: Target, reads: Reads) -> Result<bool, AllocError>
        ensures { IfOk result (λ changed. Grows self.old self.new (λ t B. Demand (is_known self.old) B (is_written target) (holds reads t)) changed) }
    {
        match target {
            Target::Scalar { variable, .. } => {
                let changed = self.add(variable, reads)?;
                Ok(changed)
            }
            Target::Property { .. } => Ok(false),
        }
    }

    // Adds what is read by values that are written to some targets.
    fn write_each(&mut self, targets: &[Target], reads: Reads) -> Result<bool, AllocError>
        ensures { IfOk result (λ changed. Grows self.old self.new (λ t B. Demand (is_known self.old) B (written targets.now) (holds reads t)) changed) }
    {
        let mut changed = false;
        for target in targets {
            changed |= self.write(*target, reads)?;
        }
        Ok(changed)
    }

    // Adds what is read by the values that the statements of a block write.
    #[cycle(sweeping)]
    fn sweep_all(&mut self, stmts: &Vec<Stmt>, around: Reads) -> Result<bool, AllocError>
        ensures { IfOk result (λ changed. Grows self.old self.new (λ t B. Demands self.old.iterator (is_known self.old) t B (sequence (map stmt_of stmts.now.items)) (holds around t)) changed) }
    {
        let mut changed = false;
        for stmt in stmts {
            changed |= self.sweep(stmt, around)?;
        }
        Ok(changed)
    }

    // Adds what is read by the values that a statement writes, and by what it compares, under conditions that read
    // this. Answers whether anything is new.
    #[cycle(sweeping)]
    fn sweep(&mut self, s: &Stmt, around: Reads) -> Result<bool, AllocError>
        ensures { IfOk result (λ changed. Grows self.old self.new (λ t B. Demands self.old.iterator (is_known self.old) t B (stmt_of s.now) (holds around t)) changed) }
    {
        match s {
            Stmt::Block(stmts) => {
                let changed = self.sweep_all(stmts, around)?;
                Ok(changed)
            }
            Stmt::If { test, yes, no, .. } => {
                let inside = self.noted(test, around);
                let first = self.sweep(yes, inside)?;
                let second = self.sweep(no, inside)?;
                Ok(first | second)
            }
            Stmt::Declare {
                variable,
                value,
                ..
            } => match value {
                None => {
                    let changed = self.add(*variable, around)?;
                    Ok(changed)
                }
                Some(value) => {
                    let reads = self.noted(value, around);
                    let changed = self.add(*variable, reads)?;
                    Ok(changed)
                }
            },
            Stmt::Assign { target, value, .. } => {
                let reads = self.noted(value, around);
                let changed = self.write(*target, reads)?;
                Ok(changed)
            }
            Stmt::Reduce {
                targets,
                values,
                ..
            } => {
                let reads = self.noted_reduction(targets, values, around);
                let changed = self.write_each(targets, reads)?;
                Ok(changed)
            }
            Stmt::DeclareEdge { .. }
            | Stmt::Defer { .. }
            | Stmt::Group { .. }
            | Stmt::Foreach { .. }
            | Stmt::For { .. }
            | Stmt::While { .. }
            | Stmt::Do { .. }
            | Stmt::InBfs { .. }
            | Stmt::InBfsBoth { .. }
            | Stmt::Return { .. } => Ok(false),
        }
    }

    // Finds what the values of all locals read.
    pub fn settle(&mut self, body: &Stmt) -> Result<(), AllocError>
        ensures { OnOk result (Settles self.old self.new (stmt_of body.now)) }
    {
        loop {
            let changed = self.sweep(body, NOTHING)?;
            if !changed {
                return Ok(());
            }
        }
    }
}
