//! The places at which bodies of loops may fault, worked out by hand.

use gm_ast::tree::{Head, Stage, Stmt, TotalKey, Tree};
use gm_base::NoMemory;
use gm_canon::verdict;
use gm_layouts::Layout;
use gm_places::{BodySite, Places, Spot, add_spots_of};
use std::alloc::Global;
use std::test::Fail;

// One loop: operators of which some cannot fault, a total, a sum that is sent to a node that may be NIL, and one that is
// taken at once.
const LOOP: &[u8] = b"Procedure p(G: Graph, s: Node; a, b, c, d: N_P<Int>, x: Int) {
Foreach (n: G.Nodes) { If (n.b < 9) { n.a = 1 / n.b + n.c * 2; } x += n.a; s.d += n.a - 3; n.c += 1; }
}";

const LOOP_PLACES: &str = "8: 2:47 2:53 2:59 2:68 2:76 2:87 2:80 2:96; 8 7 9 10 12 13 11 14";

// The first loop of a block.
fn first_loop(stmts: &[Stmt]) -> Option<(Head, &Box<Stmt>)> {
    for stmt in stmts {
        match stmt {
            Stmt::Foreach { head, body, .. } => return Some((*head, body)),
            _ => {}
        }
    }
    None
}

// The spots of the body of a program's first loop.
fn spots_of(alloc: Global, tree: &Tree) -> Result<Vec<Spot>, NoMemory> {
    let mut spots = Vec::new(alloc);
    let layout = Layout::new(alloc, tree)?;
    if let Stmt::Block(stmts) = &tree.body {
        if let Some((head, body)) = first_loop(stmts) {
            let site = BodySite {
                layout: &layout,
                node: head.iterator,
                iterators: &[head.iterator],
                at_once: true,
            };
            add_spots_of(&site, body, &mut spots)?;
        }
    }
    Ok(spots)
}

// A spot's index.
fn index_of(places: &Places, spot: Spot) -> Result<u32, NoMemory> {
    match spot.key.stage {
        Stage::Total => places.total_index(TotalKey {
            key: spot.key,
            place: spot.place,
            shown: spot.shown,
        }),
        _ => places.index(spot.key, spot.place),
    }
}

// What the places of some spots show, and the index of each spot, from 7 on.
fn places_said(alloc: Global, spots: &[Spot]) -> Result<String, NoMemory> {
    let places = Places::new(alloc, 7, spots)?;
    let mut shown = Vec::new(alloc);
    places.add_shown(&mut shown)?;
    let mut said = format!(in alloc; "{}:", places.len())?;
    for place in &shown {
        let row = format!(in alloc; " {place}")?;
        said.push_str(&row)?;
    }
    said.push_str(";")?;
    for spot in spots {
        let index = index_of(&places, *spot)?;
        let row = format!(in alloc; " {index}")?;
        said.push_str(&row)?;
    }
    Ok(said)
}

// The places of the body of a text's first loop.
fn said_of_text(alloc: Global, text: &[u8]) -> Result<String, Fail> {
    let checked = verdict(alloc, text)?;
    let spots = spots_of(alloc, checked.tree())?;
    Ok(places_said(alloc, &spots)?)
}

#[test]
fn places_stand_in_the_order_of_faults(rt: HostRuntime) -> Result<(), Fail> {
    let said = said_of_text(rt.alloc(), LOOP)?;
    assert_eq!(rt; said.as_str(), LOOP_PLACES);
    Ok(())
}
