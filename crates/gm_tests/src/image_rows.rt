//! Images that are run: the worked images with what is written of them, and an image that is cut anywhere.

use crate::calls::{PLAIN, both_ways_hold, ends_with, run};
use gm_rows::image_rows::IMAGES;
use std::alloc::Global;
use std::process::Abort;
use std::sync::Wait;
use std::test::Fail;
use std::thread::Threads;

// The image that sums the values of the nodes before each node.
pub const TOTAL: &str =
    "gm-image 1\nname total\ninputs 1\nnode I v 0\noutputs 1\nnode I s 1\nresult -\nglobals 0\nfields 2\nI\nI\nregisters 0\ncolumns 0\nkinds 1\n- I\nplaces 1\n2 32\nblocks 2\nblock 0\nbody 2\neach out 1\nsend 0 nb f 0\nblock 1\non 0 1\nfold sum 0 1 m 0\nbody 0\nmaster 3\nstep 0\nstep 1\nend\n";

// Each node offers its value and itself to its out-neighbours, which keep the least value and the first node that has it.
pub const BEST: &str =
    "gm-image 2\nname best\ninputs 1\nnode I v 0\noutputs 2\nnode I m 1\nnode N w 2\nresult -\nglobals 0\nfields 3\nI\nI\nN\nregisters 0\ncolumns 0\nkinds 1\n- I N\nplaces 1\n4 34\nblocks 2\nblock 0\nbody 3\nset 1 c I 9\neach out 1\nsend 0 nb f 0 id\nblock 1\non 0 1\npick min 0 2 1 m 0 2 m 1\nbody 0\nmaster 3\nstep 0\nstep 1\nend\n";

// All nodes offer their value and themselves to two globals, and each keeps the greatest pair of its own values besides.
pub const MOST: &str =
    "gm-image 2\nname most\ninputs 1\nnode I v 0\noutputs 3\nscalar I best 0\nscalar N who 1\nnode I w 1\nresult -\nglobals 2\nI\nN\nfields 3\nI\nI\nB\nregisters 0\ncolumns 0\nkinds 0\nplaces 2\n3 5\n4 5\nblocks 1\nblock 0\nbody 2\npick max 0 2 1 f 0 2 c B True\npickput max 1 2 0 f 0 1 id\nmaster 2\nstep 0\nend\n";

#[test]
fn images(rt: HostRuntime) -> Result<(), Fail> {
    both_ways_hold(&rt, rt.alloc(), "", IMAGES, 17)
}

// Whether the front of an image is no image, at this line.
fn is_cut(
    rt: &(impl Abort + Threads + Wait + Sync),
    alloc: Global,
    front: &[u8],
    line: u64,
) -> Result<(), Fail> {
    let text = format!(in alloc; "image BadText at line {line}\n")?;
    let input = Vec::from_slice(alloc, front)?;
    let ended = run(rt, alloc, "exec - -", input, PLAIN)?;
    ends_with(rt, alloc, &ended, text.as_str(), "a cut image")
}

// An image that is cut before any of its bytes is no image, at the line that is cut.
#[test]
fn images_that_are_cut_anywhere(rt: HostRuntime) -> Result<(), Fail> {
    let mut front = Vec::new(rt.alloc());
    let mut line = 1u64;
    for byte in TOTAL.as_bytes() {
        is_cut(&rt, rt.alloc(), &front, line)?;
        front.push(*byte)?;
        if *byte == b'\n' {
            line = line.saturating_add(1);
        }
    }
    Ok(())
}
