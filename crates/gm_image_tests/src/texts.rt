//! Texts of images, and these with some of their lines changed.

ghost use Rattle.std.specs.Prelude.{◌≡◌, IfOk};

use gm_base::NoMemory;
use gm_image::{Image, Sound};
use gm_image_text::{ImageFault, read_image, write_image};
use gm_verify::{VerifyStop, is_countable, verify};
use std::alloc::{AllocError, Global};
use std::test::Fail;

// Counts to six.
const SPIN: &str = "gm-image 1\n\
    name spin\n\
    inputs 0\n\
    outputs 0\n\
    result I 0\n\
    globals 1\n\
    I\n\
    fields 0\n\
    registers 0\n\
    columns 0\n\
    kinds 0\n\
    places 1\n\
    3 21\n\
    blocks 0\n\
    master 4\n\
    loop 3 < g 0 c I 6\n\
    set 0 + 0 g 0 c I 1\n\
    back 0\n\
    end\n";

// The sums of the values of each node's senders, in two supersteps.
const TOTAL: &str = "gm-image 1\n\
    name total\n\
    inputs 1\n\
    node I v 0\n\
    outputs 1\n\
    node I s 1\n\
    result -\n\
    globals 0\n\
    fields 2\n\
    I\n\
    I\n\
    registers 0\n\
    columns 0\n\
    kinds 1\n\
    - I\n\
    places 1\n\
    2 32\n\
    blocks 2\n\
    block 0\n\
    body 2\n\
    each out 1\n\
    send 0 nb f 0\n\
    block 1\n\
    on 0 1\n\
    fold sum 0 1 m 0\n\
    body 0\n\
    master 3\n\
    step 0\n\
    step 1\n\
    end\n";

// Two fields, of which the second is set to the first.
const PAIR: &str = "gm-image 1\n\
    name pair\n\
    inputs 0\n\
    outputs 2\n\
    node I a 0\n\
    node I b 1\n\
    result -\n\
    globals 0\n\
    fields 2\n\
    I\n\
    I\n\
    registers 0\n\
    columns 0\n\
    kinds 0\n\
    places 0\n\
    blocks 2\n\
    block 0\n\
    body 1\n\
    set 0 c I 3\n\
    block 0\n\
    body 1\n\
    set 1 f 0\n\
    master 3\n\
    step 0\n\
    step 1\n\
    end\n";

// The least value of the nodes before a node with the node that it comes from, and the greatest of all nodes with its
// node.
const NEAREST: &str = "gm-image 2\n\
    name nearest\n\
    inputs 1\n\
    node I v 2\n\
    outputs 0\n\
    result N 1\n\
    globals 2\n\
    I\n\
    N\n\
    fields 3\n\
    I\n\
    N\n\
    I\n\
    registers 0\n\
    columns 0\n\
    kinds 1\n\
    - I N\n\
    places 1\n\
    4 9\n\
    blocks 1\n\
    block 1\n\
    on 0 1\n\
    pick min 0 2 0 m 0 1 m 1\n\
    body 3\n\
    pickput max 0 2 0 f 2 1 id\n\
    each out 1\n\
    send 0 nb f 2 id\n\
    master 3\n\
    step 0\n\
    step 0\n\
    end\n";

// Each spelling of version 1. It keeps none of the rules.
const EACH: &str = "gm-image 1\n\
    name café\tx\n\
    inputs 3\n\
    scalar I a 0\n\
    node L b 1\n\
    edge B c 4294967295\n\
    outputs 2\n\
    scalar N d 0\n\
    node I e 2\n\
    result B 7\n\
    globals 4\n\
    I\n\
    L\n\
    B\n\
    N\n\
    fields 1\n\
    I\n\
    registers 1\n\
    L\n\
    columns 1\n\
    B\n\
    kinds 7\n\
    -\n\
    - I L B N\n\
    sum I\n\
    product L\n\
    min I\n\
    max N\n\
    and B\n\
    places 2\n\
    0 0\n\
    4294967295 1\n\
    blocks 2\n\
    block 2\n\
    on 0 0\n\
    on 1 1\n\
    put or 1 2 c B True\n\
    body 8\n\
    set 0 + 0 c I -2147483648 - 1 f 0 * 2 r 0 / 3 m 0 % 4 w 0 neg 5 int 6 long g 0\n\
    reg 1 long c I 2147483647\n\
    skip 1 && == nn ne || != id out < inn nb\n\
    skip 2 ? > g 0 g 1 <= g 2 g 3 >= g 4 not g 5\n\
    each in 3\n\
    each out 0\n\
    send 2 live 1 node c L -9223372036854775808 c L 9223372036854775807 c N NIL c B False\n\
    send 0 id\n\
    block 0\n\
    body 0\n\
    master 7\n\
    set 1 c I 0\n\
    step 0\n\
    jump 2\n\
    test 3 c B True\n\
    loop 4 c B False\n\
    back 5\n\
    end\n";

// As many turns as the argument says.
const COUNT: &str = "gm-image 1\n\
    name count\n\
    inputs 1\n\
    scalar I n 1\n\
    outputs 0\n\
    result I 0\n\
    globals 2\n\
    I\n\
    I\n\
    fields 0\n\
    registers 0\n\
    columns 0\n\
    kinds 0\n\
    places 1\n\
    3 21\n\
    blocks 0\n\
    master 4\n\
    loop 3 < g 0 g 1\n\
    set 0 + 0 g 0 c I 1\n\
    back 0\n\
    end\n";

// Each node holds 9, and sends its out-degree and itself along its out-edges. Then in a handler, in the body, in an each,
// and twice for all nodes a tuple is picked. The globals and the fields are the outputs.
const PICKS: &str = "gm-image 2\n\
    name picks\n\
    inputs 0\n\
    outputs 10\n\
    scalar I a 0\n\
    scalar N b 1\n\
    scalar I c 2\n\
    scalar N d 3\n\
    node I m 0\n\
    node N n 1\n\
    node I o 2\n\
    node B p 3\n\
    node I q 4\n\
    node N r 5\n\
    result -\n\
    globals 4\n\
    I\n\
    N\n\
    I\n\
    N\n\
    fields 6\n\
    I\n\
    N\n\
    I\n\
    B\n\
    I\n\
    N\n\
    registers 0\n\
    columns 0\n\
    kinds 1\n\
    - I N\n\
    places 1\n\
    3 21\n\
    blocks 2\n\
    block 0\n\
    body 3\n\
    set 0 c I 9\n\
    each out 1\n\
    send 0 nb out id\n\
    block 1\n\
    on 0 1\n\
    pick min 0 2 0 m 0 1 m 1\n\
    body 5\n\
    pick max 0 2 2 inn 3 c B True\n\
    each out 1\n\
    pick max 0 2 4 c I 7 5 nb\n\
    pickput max 0 2 0 out 1 id\n\
    pickput min 0 2 2 c I 0 3 id\n\
    master 3\n\
    step 0\n\
    step 1\n\
    end\n";

// Each kind of line.
const WHOLE: &str = "gm-image 2\n\
    name whole\n\
    inputs 4\n\
    scalar I k 0\n\
    node I v 0\n\
    edge I w 0\n\
    edge L x 1\n\
    outputs 3\n\
    scalar I k 0\n\
    node I s 1\n\
    node N best 2\n\
    result L 1\n\
    globals 4\n\
    I\n\
    L\n\
    B\n\
    N\n\
    fields 6\n\
    I\n\
    I\n\
    N\n\
    B\n\
    L\n\
    N\n\
    registers 2\n\
    I\n\
    N\n\
    columns 2\n\
    I\n\
    L\n\
    kinds 3\n\
    sum I\n\
    - I N\n\
    max N\n\
    places 4\n\
    1 1\n\
    1 2\n\
    2 1\n\
    2 2\n\
    blocks 2\n\
    block 0\n\
    body 6\n\
    reg 0 + 0 f 0 c I 1\n\
    each out 3\n\
    send 0 nb w 0\n\
    send 1 nb f 0 id\n\
    fold sum 1 4 w 1\n\
    put max 2 3 id\n\
    block 3\n\
    on 0 1\n\
    fold sum 0 1 m 0\n\
    on 1 2\n\
    skip 1 < m 0 c I 5\n\
    pick min 3 2 0 m 0 2 m 1\n\
    on 2 1\n\
    fold max 2 5 m 0\n\
    body 3\n\
    skip 2 f 3\n\
    set 3 c B True\n\
    put sum 3 1 long f 0\n\
    master 8\n\
    set 0 g 0\n\
    loop 6 < g 0 c I 9\n\
    step 0\n\
    test 5 g 2\n\
    step 1\n\
    back 1\n\
    set 1 long g 0\n\
    end\n";

/// The text of an image by its name, of which the first two letters say enough.
pub fn text_of(name: &str) -> &'static str {
    match name.as_bytes() {
        [b's', b'p', ..] => SPIN,
        [b't', b'o', ..] => TOTAL,
        [b'p', b'a', ..] => PAIR,
        [b'n', b'e', ..] => NEAREST,
        [b'e', b'a', ..] => EACH,
        [b'c', b'o', ..] => COUNT,
        [b'p', b'i', ..] => PICKS,
        _ => WHOLE,
    }
}

// What stands in a case for a line that is left out.
const NO_LINE: &str = "(none)";

/// The parts of a case, with `|` between two.
pub fn parts_of<'a>(alloc: Global, case: &'a str) -> Result<Vec<&'a str>, AllocError> {
    let mut parts = Vec::new(alloc);
    for part in case.split('|') {
        parts.push(part)?;
    }
    Ok(parts)
}

// The last of the changes of a line: each is the line's number, and behind it what stands in its place.
fn change_of<'a>(changes: &[&'a str], number: usize) -> Option<&'a str> {
    let mut change = None;
    for i in 0..changes.len() / 2 {
        if changes[2 * i].parse::<usize>().ok() == Some(number) {
            change = Some(changes[2 * i + 1]);
        }
    }
    change
}

// Writes lines, with `~` between two.
fn put_lines(text: &mut Vec<u8>, lines: &str) -> Result<(), AllocError> {
    for line in lines.split('~') {
        text.extend_from_slice(line.as_bytes())?;
        text.push(b'\n')?;
    }
    Ok(())
}

// Writes a line, or what stands in its place.
fn put_changed(text: &mut Vec<u8>, line: &str, change: Option<&str>) -> Result<(), AllocError> {
    let lines = change.unwrap_or(line);
    if lines != NO_LINE {
        put_lines(text, lines)?;
    }
    Ok(())
}

/// The text of lines, with `~` between two.
pub fn text_of_lines(alloc: Global, lines: &str) -> Result<Vec<u8>, AllocError> {
    let mut text = Vec::new(alloc);
    put_changed(&mut text, lines, None)?;
    Ok(text)
}

/// A text with other lines in place of some.
pub fn with_changes(alloc: Global, text: &str, changes: &[&str]) -> Result<Vec<u8>, AllocError> {
    let mut changed = Vec::new(alloc);
    let mut number: usize = 0;
    for line in text.lines() {
        number = number.saturating_add(1);
        put_changed(&mut changed, line, change_of(changes, number))?;
    }
    Ok(changed)
}

/// The text of a case, which names an image and behind what is wanted says which lines are changed; and what is wanted.
pub fn changed_text<'a>(alloc: Global, case: &'a str) -> Result<(Vec<u8>, &'a str), Fail> {
    let parts = parts_of(alloc, case)?;
    match parts.as_slice() {
        [name, want, changes @ ..] => {
            let text = with_changes(alloc, text_of(name), changes)?;
            Ok((text, *want))
        }
        _ => Err("no case")?,
    }
}

/// The image that a text spells, by a call that promises nothing. (What `read_image` promises of every image would be tried
/// at each goal behind it.)
pub fn image_in(alloc: Global, text: &[u8]) -> Result<Image, ImageFault> {
    read_image(alloc, text)
}

/// The text of an image, by a call that promises nothing.
pub fn text_for(alloc: Global, image: &Sound) -> Result<Vec<u8>, NoMemory> {
    write_image(alloc, image)
}

/// An image as a sound one. One with too many lines is refused.
pub fn verified(alloc: Global, image: Image) -> Result<Sound, VerifyStop>
    ensures { IfOk result (λ sound. sound ≡ image) }
{
    if is_countable(&image) {
        verify(alloc, image)
    } else {
        Err(VerifyStop::NoMemory)
    }
}
