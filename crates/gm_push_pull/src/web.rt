//! On what the values of an inner body's locals rest.

ghost use Rattle.std.specs.Prelude.{◌≡◌, ◌∷◌, [], IfOk, OnOk, flat_map, map};
ghost use Rattle.gm_ast.specs.Program.{sequence};
ghost use Rattle.gm_ast.specs.Tree.{expr_of, stmt_of};
ghost use Rattle.gm_ast.specs.Ways.{held_of, mentions};
ghost use Rattle.gm_push_pull.specs.Locals.{noted_all};
ghost use Rattle.gm_push_pull.specs.Reads.{nothing};
ghost use Rattle.gm_push_pull.specs.Sweeps.{compared};
ghost use Rattle.gm_push_pull.specs.Webs.{Adds, IsWebOf, Opens, Weaves, fed, link_from};

use crate::locals::Locals;
use crate::reads::{NOTHING, Reads};
use gm_ast::tree::{Expr, Stmt, Target};
use indexmap::IndexMap;
use std::alloc::{AllocError, Global};

// Where something is read: the value of a local, or a site. A site is a condition with those around it, or what a
// statement that writes looks at with the conditions around it. It stands for a local of its own, so there are no more
// links than variables in the text.
#[derive(Clone, Copy, Debug)]
pub enum Node {
    Local(u32),
    Site(u32),
}

// What the one reads the other reads too.
#[derive(Clone, Copy, Debug)]
pub struct Link {
    pub from: Node,
    pub to: Node,
}

// What a site reads by itself.
#[derive(Clone, Copy, Debug)]
pub struct Seed {
    pub site: u32,
    pub reads: Reads,
}

// The sites of a body in the order of the text, the links, and the links' indices by what they come from.
#[derive(Drop)]
pub struct Web {
    pub alloc: Global,
    pub seeds: Vec<Seed>,
    pub links: Vec<Link>,
    pub from_locals: IndexMap<u32, Vec<usize>>,
    pub from_sites: IndexMap<u32, Vec<usize>>,
}

// Adds an index to those of a number.
fn note(
    alloc: Global,
    indices: &mut IndexMap<u32, Vec<usize>>,
    number: u32,
    index: usize,
) -> Result<(), AllocError> {
    if let Some(known) = indices.get_mut(&number) {
        known.push(index)?;
        return Ok(());
    }
    let mut first = Vec::new(alloc);
    first.push(index)?;
    indices.insert(number, first)?;
    Ok(())
}

impl Web {
    // Adds a link.
    fn link(&mut self, from: Node, to: Node) -> Result<(), AllocError>
        ensures { OnOk result (Adds self.old self.new (record { from = from; to = to } ∷ [])) }
    {
        let index = self.links.len();
        self.links.push(Link { from, to })?;
        match from {
            Node::Local(variable) => note(self.alloc, &mut self.from_locals, variable, index)?,
            Node::Site(site) => note(self.alloc, &mut self.from_sites, site, index)?,
        }
        Ok(())
    }

    // Adds a link to a site from each variable that an expression mentions.
    fn link_mentions(&mut self, e: &Expr, site: u32) -> Result<(), AllocError>
        ensures { OnOk result (Adds self.old self.new (map (link_from site) (mentions (expr_of e.now)))) }
    {
        match e {
            Expr::Const(_) | Expr::NodeCount | Expr::EdgeCount => Ok(()),
            Expr::Var { variable, .. }
            | Expr::Live { variable, .. }
            | Expr::Property {
                owner: variable,
                ..
            }
            | Expr::Degree {
                owner: variable,
                ..
            }
            | Expr::EdgeProperty { edge: variable, .. } => {
                self.link(Node::Local(*variable), Node::Site(site))?;
                Ok(())
            }
            Expr::Unary { inner, .. } => {
                self.link_mentions(inner, site)?;
                Ok(())
            }
            Expr::Binary { left, right, .. } => {
                self.link_mentions(left, site)?;
                self.link_mentions(right, site)?;
                Ok(())
            }
            Expr::Both(left, right) => {
                self.link_mentions(left, site)?;
                self.link_mentions(right, site)?;
                Ok(())
            }
            Expr::Either(left, right) => {
                self.link_mentions(left, site)?;
                self.link_mentions(right, site)?;
                Ok(())
            }
            Expr::Choose(test, yes, no) => {
                self.link_mentions(test, site)?;
                self.link_mentions(yes, site)?;
                self.link_mentions(no, site)?;
                Ok(())
            }
            Expr::Fold { filter, body, .. } => {
                self.link_mentions(filter, site)?;
                self.link_mentions(body, site)?;
                Ok(())
            }
        }
    }

    // Adds a link to a site from each variable that some expressions mention.
    fn link_values(&mut self, values: &[Expr], site: u32) -> Result<(), AllocError>
        ensures { OnOk result (Adds self.old self.new (map (link_from site) (flat_map mentions (map expr_of values.now)))) }
    {
        for value in values {
            self.link_mentions(value, site)?;
        }
        Ok(())
    }

    // Adds a link to a site from each scalar among some targets.
    fn link_held(&mut self, targets: &[Target], site: u32) -> Result<(), AllocError>
        ensures { OnOk result (Adds self.old self.new (map (link_from site) (flat_map held_of targets.now))) }
    {
        for target in targets {
            self.link_target(*target, site)?;
        }
        Ok(())
    }

    // Adds a link to a site from a target that is a scalar.
    fn link_target(&mut self, target: Target, site: u32) -> Result<(), AllocError>
        ensures { OnOk result (Adds self.old self.new (map (link_from site) (held_of target))) }
    {
        match target {
            Target::Scalar { variable, .. } => {
                self.link(Node::Local(variable), Node::Site(site))?;
                Ok(())
            }
            Target::Property { .. } => Ok(()),
        }
    }

    // Adds a site that reads this by itself, within another. Answers its number.
    fn open(&mut self, around: u32, reads: Reads) -> Result<u32, AllocError>
        ensures { IfOk result (λ site. Opens self.old self.new around reads site []) }
    {
        let Ok(site) = u32::try_from(self.seeds.len()) else {
            return Err(AllocError);
        };
        self.seeds.push(Seed { site, reads })?;
        self.link(Node::Site(around), Node::Site(site))?;
        Ok(site)
    }

    // Adds the site of an expression. Answers its number.
    fn open_value(&mut self, locals: &Locals, e: &Expr, around: u32) -> Result<u32, AllocError>
        ensures { IfOk result (λ site. Opens self.old self.new around (noted_all locals.now nothing (mentions (expr_of e.now))) site (mentions (expr_of e.now))) }
    {
        let reads = locals.noted(e, NOTHING);
        let site = self.open(around, reads)?;
        self.link_mentions(e, site)?;
        Ok(site)
    }

    // Adds the site of a reduction. Answers its number.
    fn open_reduction(
        &mut self,
        locals: &Locals,
        targets: &[Target],
        values: &[Expr],
        around: u32,
    ) -> Result<u32, AllocError>
        ensures { IfOk result (λ site. Opens self.old self.new around (noted_all locals.now nothing (compared targets.now (map expr_of values.now))) site (compared targets.now (map expr_of values.now))) }
    {
        let reads = locals.noted_reduction(targets, values, NOTHING);
        let site = self.open(around, reads)?;
        self.link_held(targets, site)?;
        self.link_values(values, site)?;
        Ok(site)
    }

    // Adds a link from a site to the local that a target writes.
    fn feed(&mut self, site: u32, target: Target) -> Result<(), AllocError>
        ensures { OnOk result (Adds self.old self.new (fed site target)) }
    {
        match target {
            Target::Scalar { variable, .. } => {
                self.link(Node::Site(site), Node::Local(variable))?;
                Ok(())
            }
            Target::Property { .. } => Ok(()),
        }
    }

    // Adds a link from a site to each local that some targets write.
    fn feed_each(&mut self, site: u32, targets: &[Target]) -> Result<(), AllocError>
        ensures { OnOk result (Adds self.old self.new (flat_map (fed site) targets.now)) }
    {
        for target in targets {
            self.feed(site, *target)?;
        }
        Ok(())
    }

    // Adds the sites and links of a block's statements.
    #[cycle(weaving)]
    fn weave_all(
        &mut self,
        locals: &Locals,
        stmts: &Vec<Stmt>,
        around: u32,
    ) -> Result<(), AllocError>
        ensures { OnOk result (Weaves locals.now self.old self.new around (sequence (map stmt_of stmts.now.items))) }
    {
        for stmt in stmts {
            self.weave(locals, stmt, around)?;
        }
        Ok(())
    }

    // Adds the sites and links of a statement within a site.
    #[cycle(weaving)]
    pub fn weave(&mut self, locals: &Locals, s: &Stmt, around: u32) -> Result<(), AllocError>
        ensures { OnOk result (Weaves locals.now self.old self.new around (stmt_of s.now)) }
    {
        match s {
            Stmt::Block(stmts) => {
                self.weave_all(locals, stmts, around)?;
                Ok(())
            }
            Stmt::If { test, yes, no, .. } => {
                let site = self.open_value(locals, test, around)?;
                self.weave(locals, yes, site)?;
                self.weave(locals, no, site)?;
                Ok(())
            }
            Stmt::Declare {
                variable,
                value,
                ..
            } => match value {
                None => {
                    self.link(Node::Site(around), Node::Local(*variable))?;
                    Ok(())
                }
                Some(value) => {
                    let site = self.open_value(locals, value, around)?;
                    self.link(Node::Site(site), Node::Local(*variable))?;
                    Ok(())
                }
            },
            Stmt::Assign { target, value, .. } => {
                let site = self.open_value(locals, value, around)?;
                self.feed(site, *target)?;
                Ok(())
            }
            Stmt::Reduce {
                targets,
                values,
                ..
            } => {
                let site = self.open_reduction(locals, targets, values, around)?;
                self.feed_each(site, targets)?;
                Ok(())
            }
            _ => Ok(()),
        }
    }
}

// The web of a body. Site 0 has no condition, and reads nothing.
pub fn web_of(alloc: Global, locals: &Locals, body: &Stmt) -> Result<Web, AllocError>
    ensures { IfOk result (λ web. IsWebOf locals.now web (stmt_of body.now)) }
{
    let mut seeds = Vec::new(alloc);
    seeds.push(Seed {
        site: 0,
        reads: NOTHING,
    })?;
    let mut web = Web {
        alloc,
        seeds,
        links: Vec::new(alloc),
        from_locals: IndexMap::new(alloc),
        from_sites: IndexMap::new(alloc),
    };
    web.weave(locals, body, 0)?;
    Ok(web)
}
