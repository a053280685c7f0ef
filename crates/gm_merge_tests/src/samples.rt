//! Vertex programs as texts, and graphs for them.

ghost use Rattle.std.specs.Prelude.{◌≡◌, [], IfOk};

use gm_base::{Items, NoMemory};
use gm_graph::{Graph, Shape, Walks};
use gm_image::{Image, Sound};
use gm_image_text::read_image;
use gm_loader::{Limits, parse_graph};
use gm_value::VType;
use gm_verify::{VerifyStop, is_countable, verify};
use std::alloc::Global;
use std::test::Fail;

/// Two fields, of which the second is set to the first, in two steps that may be one.
pub(crate) const PAIR: &[u8] =
    b"gm-image 2\nname pair\ninputs 0\noutputs 2\nnode I a 0\nnode I b 1\nresult -\nglobals 0\nfields 2\nI\nI\nregisters 0\ncolumns 0\nkinds 0\nplaces 0\nblocks 2\nblock 0\nbody 1\nset 0 c I 3\nblock 0\nbody 1\nset 1 f 0\nmaster 3\nstep 0\nstep 1\nend\n";

/// Each node sends its value along its out-edges, and then adds up what came.
pub(crate) const TOTAL: &[u8] =
    b"gm-image 2\nname total\ninputs 1\nnode I v 0\noutputs 1\nnode I s 1\nresult -\nglobals 0\nfields 2\nI\nI\nregisters 0\ncolumns 0\nkinds 1\n- I\nplaces 1\n2 32\nblocks 2\nblock 0\nbody 2\neach out 1\nsend 0 nb f 0\nblock 1\non 0 1\nfold sum 0 1 m 0\nbody 0\nmaster 3\nstep 0\nstep 1\nend\n";

/// Three steps that may be one. The first sets a register that the second reads before it sets it too, and a block that
/// none runs stands between theirs.
pub(crate) const REGISTERS: &[u8] =
    b"gm-image 2\nname registers\ninputs 0\noutputs 2\nnode I a 0\nnode I b 1\nresult -\nglobals 0\nfields 2\nI\nI\nregisters 2\nI\nL\ncolumns 0\nkinds 0\nplaces 0\nblocks 3\nblock 0\nbody 2\nreg 0 c I 4\nset 0 r 0\nblock 0\nbody 1\nset 0 c I 9\nblock 0\nbody 3\nset 1 r 0\nreg 0 c I 5\nreg 1 c L 6\nmaster 4\nstep 0\nstep 2\nstep 2\nend\n";

/// Two steps of which the second adds to a global that the first put.
pub(crate) const GLOBALS: &[u8] =
    b"gm-image 2\nname globals\ninputs 1\nnode I v 0\noutputs 1\nnode I s 1\nresult I 0\nglobals 1\nI\nfields 2\nI\nI\nregisters 0\ncolumns 0\nkinds 0\nplaces 1\n1 1\nblocks 2\nblock 0\nbody 1\nput max 0 0 f 0\nblock 0\nbody 1\nset 1 g 0\nmaster 3\nstep 0\nstep 1\nend\n";

/// Two steps that may each fault, and the places in the order in which they come.
pub(crate) const PLACES: &[u8] =
    b"gm-image 2\nname places\ninputs 1\nnode I v 0\noutputs 1\nnode I s 1\nresult -\nglobals 0\nfields 2\nI\nI\nregisters 0\ncolumns 0\nkinds 0\nplaces 2\n1 1\n1 9\nblocks 2\nblock 0\nbody 1\nset 1 + 0 f 0 c I 1\nblock 0\nbody 1\nset 1 + 1 f 1 c I 2\nmaster 3\nstep 0\nstep 1\nend\n";

/// The same steps with the places in the other order.
pub(crate) const CROSSED: &[u8] =
    b"gm-image 2\nname places\ninputs 1\nnode I v 0\noutputs 1\nnode I s 1\nresult -\nglobals 0\nfields 2\nI\nI\nregisters 0\ncolumns 0\nkinds 0\nplaces 2\n1 1\n1 9\nblocks 2\nblock 0\nbody 1\nset 1 + 1 f 0 c I 1\nblock 0\nbody 1\nset 1 + 0 f 1 c I 2\nmaster 3\nstep 0\nstep 1\nend\n";

/// A jump to the second of two steps, before which nothing else keeps them apart.
pub(crate) const TARGET: &[u8] =
    b"gm-image 2\nname target\ninputs 0\noutputs 1\nnode I a 0\nresult -\nglobals 0\nfields 1\nI\nregisters 0\ncolumns 0\nkinds 0\nplaces 0\nblocks 2\nblock 0\nbody 1\nset 0 c I 3\nblock 0\nbody 1\nset 0 c I 4\nmaster 4\ntest 2 c B False\nstep 0\nstep 1\nend\n";

/// A graph: node 0 has the value 5 and two edges to node 1, which has the value 7 and an edge to itself.
pub(crate) const TWO: &[u8] = b"4 9\n4 9\n9 9\nv 4 5\nv 9 7\n";

// The image of a text. It has no columns.
fn image_of(alloc: Global, text: &[u8]) -> Result<Image, Fail>
    ensures { IfOk result (λ image. image.columns ≡ []) }
{
    let mut image = read_image(alloc, text)?;
    image.columns = Items::new(Vec::new(alloc));
    Ok(image)
}

/// An image as a sound one. One with too many lines is refused.
pub(crate) fn verified(alloc: Global, image: Image) -> Result<Sound, VerifyStop>
    ensures { IfOk result (λ sound. sound ≡ image) }
{
    if is_countable(&image) {
        verify(alloc, image)
    } else {
        Err(VerifyStop::NoMemory)
    }
}

/// The sound image of a text.
pub(crate) fn sound_of(alloc: Global, text: &[u8]) -> Result<Sound, Fail>
    ensures { IfOk result (λ image. image.columns ≡ []) }
{
    let image = image_of(alloc, text)?;
    Ok(verified(alloc, image)?)
}

// One column of numbers for the nodes, and none for the edges.
fn one_column(alloc: Global) -> Result<Shape, NoMemory>
    ensures { IfOk result (λ shape. shape.edges ≡ []) }
{
    let nodes = vec![in alloc; VType::I32]?;
    Ok(Shape {
        nodes: Items::new(nodes),
        edges: Items::new(Vec::new(alloc)),
        walks: Walks::BothWays,
    })
}

/// The graph of a text, whose nodes have one value. It has no edge columns.
pub(crate) fn graph_of(alloc: Global, text: &[u8]) -> Result<Graph, Fail>
    ensures { IfOk result (λ graph. graph.edge_columns ≡ []) }
{
    let shape = one_column(alloc)?;
    let limits = Limits {
        nodes: 100,
        edges: 100,
        bytes: 1000,
    };
    Ok(parse_graph(alloc, text, &shape, &limits)?)
}
