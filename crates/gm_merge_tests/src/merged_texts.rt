//! The texts of merged images.

use crate::samples::{CROSSED, GLOBALS, PAIR, PLACES, REGISTERS, TARGET, TOTAL, sound_of};
use gm_image_text::write_image;
use gm_merge::merge;
use std::alloc::Global;
use std::test::Fail;

// One step is left of two.
const PAIR_MERGED: &[u8] =
    b"gm-image 2\nname pair\ninputs 0\noutputs 2\nnode I a 0\nnode I b 1\nresult -\nglobals 0\nfields 2\nI\nI\nregisters 0\ncolumns 0\nkinds 0\nplaces 0\nblocks 1\nblock 0\nbody 2\nset 0 c I 3\nset 1 f 0\nmaster 3\njump 1\nstep 0\nend\n";

// One step is left of three. Between the bodies stand the registers that one sets and the next reads.
const REGISTERS_MERGED: &[u8] =
    b"gm-image 2\nname registers\ninputs 0\noutputs 2\nnode I a 0\nnode I b 1\nresult -\nglobals 0\nfields 2\nI\nI\nregisters 2\nI\nL\ncolumns 0\nkinds 0\nplaces 0\nblocks 1\nblock 0\nbody 10\nreg 0 c I 4\nset 0 r 0\nreg 0 c I 0\nset 1 r 0\nreg 0 c I 5\nreg 1 c L 6\nreg 0 c I 0\nset 1 r 0\nreg 0 c I 5\nreg 1 c L 6\nmaster 4\njump 1\njump 2\nstep 0\nend\n";

// One step is left of two, with its places in their order.
const PLACES_MERGED: &[u8] =
    b"gm-image 2\nname places\ninputs 1\nnode I v 0\noutputs 1\nnode I s 1\nresult -\nglobals 0\nfields 2\nI\nI\nregisters 0\ncolumns 0\nkinds 0\nplaces 2\n1 1\n1 9\nblocks 1\nblock 0\nbody 2\nset 1 + 0 f 0 c I 1\nset 1 + 1 f 1 c I 2\nmaster 3\njump 1\nstep 0\nend\n";

// Whether the merged image of a text is written as another.
fn is_merged_to(alloc: Global, text: &[u8], want: &[u8]) -> Result<bool, Fail> {
    let image = merge(alloc, sound_of(alloc, text)?)?;
    let written = write_image(alloc, &image)?;
    Ok(written.as_slice() == want)
}

#[test]
fn steps_that_may_be_one_are_joined(rt: HostRuntime) -> Result<(), Fail> {
    assert!(rt; is_merged_to(rt.alloc(), PAIR, PAIR_MERGED)?);
    assert!(rt; is_merged_to(rt.alloc(), REGISTERS, REGISTERS_MERGED)?);
    assert!(rt; is_merged_to(rt.alloc(), PLACES, PLACES_MERGED)?);
    Ok(())
}

#[test]
fn other_steps_stay_apart(rt: HostRuntime) -> Result<(), Fail> {
    assert!(rt; is_merged_to(rt.alloc(), TOTAL, TOTAL)?);
    assert!(rt; is_merged_to(rt.alloc(), GLOBALS, GLOBALS)?);
    assert!(rt; is_merged_to(rt.alloc(), CROSSED, CROSSED)?);
    assert!(rt; is_merged_to(rt.alloc(), TARGET, TARGET)?);
    Ok(())
}
