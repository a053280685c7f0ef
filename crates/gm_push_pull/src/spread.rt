//! What the values of an inner body's locals read, spread along what they rest on.

ghost use Rattle.std.specs.Prelude.{◌≡◌, ℕ, true, All, IfOk, OnOk};
ghost use Rattle.gm_ast.specs.Tree.{stmt_of};
ghost use Rattle.gm_push_pull.specs.Tests.{holds};
ghost use Rattle.gm_push_pull.specs.Locals.{is_known, held_by};
ghost use Rattle.gm_push_pull.specs.Reads.{nothing};
ghost use Rattle.gm_push_pull.specs.Webs.{Drives, Flows, Follows, Reached, Spreads, SpreadsWeb, read_at};

use crate::locals::Locals;
use crate::reads::{NOTHING, Reads};
use crate::web::{Link, Node, Seed, Web, web_of};
use gm_ast::tree::Stmt;
use indexmap::IndexMap;
use std::alloc::{AllocError, Global};

// Locals that stand for sites, of which nothing is known yet.
fn sites_of(alloc: Global, seeds: &[Seed]) -> Result<Locals, AllocError>
    ensures { IfOk result (λ sites. (k : ℕ) → held_by sites k ≡ nothing) }
{
    let mut sites = Locals {
        iterator: 0,
        facts: IndexMap::new(alloc),
    };
    for seed in seeds {
        sites.declare(seed.site)?;
    }
    Ok(sites)
}

impl Locals {
    // What is known to be read at a node.
    fn read_at(&self, sites: &Locals, node: Node) -> Reads
        ensures { result ≡ read_at self.now sites.now node }
    {
        match node {
            Node::Local(variable) => self.held_by(variable),
            Node::Site(site) => sites.held_by(site),
        }
    }

    // Adds reads to those of a node. Answers whether they are new.
    fn reach(&mut self, sites: &mut Locals, node: Node, reads: Reads) -> Result<bool, AllocError>
        ensures { IfOk result (λ changed. Flows self.old self.new sites.old sites.new (λ t B C. holds reads t ≡ true → Reached (is_known self.old) B C node) changed) }
    {
        match node {
            Node::Local(variable) => {
                let changed = self.add(variable, reads)?;
                Ok(changed)
            }
            Node::Site(site) => {
                let changed = sites.add(site, reads)?;
                Ok(changed)
            }
        }
    }

    // Adds reads to those of a node, which is visited next where they are new.
    fn wake(
        &mut self,
        sites: &mut Locals,
        node: Node,
        reads: Reads,
        work: &mut Vec<Node>,
    ) -> Result<(), AllocError>
        ensures { OnOk result (Drives self.old self.new sites.old sites.new work.old.items work.new.items (λ t B C. holds reads t ≡ true → Reached (is_known self.old) B C node)) }
    {
        if self.reach(sites, node, reads)? {
            work.push(node)?;
        }
        Ok(())
    }

    // Adds what is read at the one end of a link to what is read at the other.
    fn follow(
        &mut self,
        sites: &mut Locals,
        link: Link,
        work: &mut Vec<Node>,
    ) -> Result<(), AllocError>
        ensures { OnOk result (Drives self.old self.new sites.old sites.new work.old.items work.new.items (λ t B C. Follows (is_known self.old) B C link)) }
    {
        let reads = self.read_at(sites, link.from);
        self.wake(sites, link.to, reads, work)?;
        Ok(())
    }

    // Follows the link with an index.
    fn follow_index(
        &mut self,
        sites: &mut Locals,
        links: &[Link],
        index: usize,
        work: &mut Vec<Node>,
    ) -> Result<(), AllocError>
        ensures { OnOk result (Drives self.old self.new sites.old sites.new work.old.items work.new.items (λ t B C. All (Follows (is_known self.old) B C) links.now)) }
    {
        if let Some(link) = links.get(index) {
            self.follow(sites, *link, work)?;
        }
        Ok(())
    }

    // Follows the links with some indices.
    fn follow_each(
        &mut self,
        sites: &mut Locals,
        links: &[Link],
        indices: &[usize],
        work: &mut Vec<Node>,
    ) -> Result<(), AllocError>
        ensures { OnOk result (Drives self.old self.new sites.old sites.new work.old.items work.new.items (λ t B C. All (Follows (is_known self.old) B C) links.now)) }
    {
        for index in indices {
            self.follow_index(sites, links, *index, work)?;
        }
        Ok(())
    }

    // Follows the links from a node.
    fn visit(
        &mut self,
        sites: &mut Locals,
        web: &Web,
        node: Node,
        work: &mut Vec<Node>,
    ) -> Result<(), AllocError>
        ensures { OnOk result (Drives self.old self.new sites.old sites.new work.old.items work.new.items (λ t B C. All (Follows (is_known self.old) B C) web.now.links.items)) }
    {
        let indices = match node {
            Node::Local(variable) => web.from_locals.get(&variable),
            Node::Site(site) => web.from_sites.get(&site),
        };
        if let Some(indices) = indices {
            self.follow_each(sites, &web.links, indices, work)?;
        }
        Ok(())
    }

    // Visits nodes until there is none left to visit.
    fn drain(
        &mut self,
        sites: &mut Locals,
        web: &Web,
        work: &mut Vec<Node>,
    ) -> Result<(), AllocError>
        ensures { OnOk result (Drives self.old self.new sites.old sites.new work.old.items work.new.items (λ t B C. All (Follows (is_known self.old) B C) web.now.links.items)) }
    {
        while let Some(node) = work.pop() {
            self.visit(sites, web, node, work)?;
        }
        Ok(())
    }

    // Adds what each site reads by itself, and all that follows from it. The sites stand in the order of the text, so
    // the first read of an edge comes to a node before all later ones.
    fn spread_web(&mut self, alloc: Global, sites: &mut Locals, web: &Web) -> Result<(), AllocError>
        ensures { OnOk result (SpreadsWeb self.old self.new sites.old web.now) }
    {
        let mut work = Vec::new(alloc);
        for seed in &web.seeds {
            self.wake(sites, Node::Site(seed.site), seed.reads, &mut work)?;
            self.drain(sites, web, &mut work)?;
        }
        Ok(())
    }

    // Finds what the values of the locals read, or less: it is for the sweeps to find that nothing is left.
    pub fn spread(&mut self, alloc: Global, body: &Stmt) -> Result<(), AllocError>
        ensures { OnOk result (Spreads self.old self.new (stmt_of body.now)) }
    {
        let web = web_of(alloc, self, body)?;
        let mut sites = sites_of(alloc, &web.seeds)?;
        self.spread_web(alloc, &mut sites, &web)?;
        Ok(())
    }
}
