//! The places of a body.

ghost use Rattle.std.specs.Prelude.{◌≡◌, ◌++◌, OnOk, map};
ghost use Rattle.gm_ast.specs.Program.{sequence};
ghost use Rattle.gm_ast.specs.Tree.{expr_of, stmt_of};
ghost use Rattle.gm_lowering.specs.Bodies as Bodies;
ghost use Rattle.gm_lowering.specs.Plans as Plans;
ghost use Rattle.gm_message.specs.Views.{as_way};
ghost use Rattle.gm_places.specs.Sites.{spots_at};
ghost use Rattle.gm_places.specs.Spots.{as_spot};

use crate::spots::{
    Spot, add_spots_in, add_spots_in_all, add_spots_in_option, spot_at, spot_of_total,
};
use gm_ast::tree::{Key, Stmt, Target, TotalKey};
use gm_base::NoMemory;
use gm_layouts::Layout;
use gm_message::{Way, way_of};
use gm_trees::variables::is_in;

/// Where a body stands.
#[derive(Clone, Copy)]
pub struct BodySite<'a> {
    /// Where variables lie.
    pub layout: &'a Layout<'a>,
    /// The node's iterator.
    pub node: u32,
    /// The iterators around, whose nodes are never NIL.
    pub iterators: &'a [u32],
    /// Whether it is in no inner loop, so that what it folds into its node's properties is taken at once.
    pub at_once: bool,
}

// Adds the spot of the first property among targets.
fn add_target(
    iterators: &[u32],
    key: Key,
    targets: &[Target],
    spots: &mut Vec<Spot>,
) -> Result<(), NoMemory>
    ensures { OnOk result (map as_spot spots.new.items ≡ map as_spot spots.old.items ++ Bodies.target_spots iterators.now key targets.now) }
{
    for target in targets {
        match *target {
            Target::Scalar { .. } => {}
            Target::Property { owner, place, .. } => {
                if !is_in(iterators, owner) {
                    spots.push(spot_at(key, place))?;
                }
                return Ok(());
            }
        }
    }
    Ok(())
}

// Adds the spots of a reduction beside its values'.
fn add_reduction(
    site: &BodySite<'_>,
    way: Way,
    key: Key,
    total: TotalKey,
    targets: &[Target],
    spots: &mut Vec<Spot>,
) -> Result<(), NoMemory>
    ensures { OnOk result (map as_spot spots.new.items ≡ map as_spot spots.old.items ++ Bodies.reduce_spots site.now.at_once site.now.iterators.now (as_way way) key total targets.now) }
{
    match way {
        Way::Puts => {
            spots.push(spot_of_total(total))?;
            Ok(())
        }
        Way::Folds => {
            if site.at_once {
                spots.push(spot_at(key, total.place))?;
            } else {
                spots.push(spot_of_total(total))?;
            }
            Ok(())
        }
        Way::Sends => {
            spots.push(spot_of_total(total))?;
            add_target(site.iterators, key, targets, spots)?;
            Ok(())
        }
        Way::Picks => Ok(()),
    }
}

// Adds the spots of a block of a body.
#[cycle(spreading)]
fn add_block_spots(
    site: &BodySite<'_>,
    stmts: &Vec<Stmt>,
    spots: &mut Vec<Spot>,
) -> Result<(), NoMemory>
    ensures { OnOk result (map as_spot spots.new.items ≡ map as_spot spots.old.items ++ spots_at site.now (sequence (map stmt_of stmts.now.items))) }
{
    for stmt in stmts {
        add_spots_of(site, stmt, spots)?;
    }
    Ok(())
}

/// Adds the spots of a body, in time linear in it.
#[cycle(spreading)]
pub fn add_spots_of(site: &BodySite<'_>, s: &Stmt, spots: &mut Vec<Spot>) -> Result<(), NoMemory>
    ensures { OnOk result (map as_spot spots.new.items ≡ map as_spot spots.old.items ++ spots_at site.now (stmt_of s.now)) }
{
    match s {
        Stmt::Block(stmts) => {
            add_block_spots(site, stmts, spots)?;
            Ok(())
        }
        Stmt::Declare { key, value, .. } => {
            add_spots_in_option(value, *key, spots)?;
            Ok(())
        }
        Stmt::Assign { key, value, .. } => {
            add_spots_in(value, *key, spots)?;
            Ok(())
        }
        Stmt::Reduce {
            key,
            total,
            targets,
            values,
            ..
        } => {
            let way = way_of(site.layout.declarations(), site.node, targets);
            add_spots_in_all(values, *key, spots)?;
            add_reduction(site, way, *key, *total, targets, spots)?;
            Ok(())
        }
        Stmt::If { key, test, yes, no } => {
            add_spots_in(test, *key, spots)?;
            add_spots_of(site, yes, spots)?;
            add_spots_of(site, no, spots)?;
            Ok(())
        }
        _ => Ok(()),
    }
}
