//! How many lines the text of an image has, and of a block, up to the limit that a sound image keeps under.

ghost use Rattle.std.specs.Prelude.{◌≡◌, ◌+◌, ◌≤◌, length, map, min};
ghost use Rattle.std.specs.List.{flat_map};
ghost use Rattle.gm_image.specs.Views.{program, handler, block};
ghost use Rattle.gm_image.specs.Rows.{block_rows, line_count};
ghost use Rattle.gm_verify.specs.Checks.{all_handlers_rows};

use gm_image::{Block, Handler, Image};

// A number of lines and some more, at most the limit.
pub fn with_lines(count: u64, lines: usize) -> u64
    requires { count ≤ 4294967296 }
    ensures { result ≡ min (count + lines) 4294967296 }
{
    if lines as u64 >= 4_294_967_296 - count {
        return 4_294_967_296;
    }
    count + lines as u64
}

// A number of lines and those of some handlers with their headers, at most the limit.
fn with_handlers(start: u64, handlers: &[Handler]) -> u64
    requires { start ≤ 4294967296 }
    ensures { result ≡ min (start + length (all_handlers_rows (map handler handlers.now))) 4294967296 }
{
    let mut count = start;
    for handled in handlers {
        let header = with_lines(count, 1);
        count = with_lines(header, handled.lines.len());
    }
    count
}

// A number of lines and those of a block, at most the limit.
pub fn with_block(start: u64, one: &Block) -> u64
    requires { start ≤ 4294967296 }
    ensures { result ≡ min (start + length (block_rows (block one.now))) 4294967296 }
{
    let header = with_lines(start, 1);
    let handlers = with_handlers(header, one.handlers.as_slice());
    let body = with_lines(handlers, 1);
    with_lines(body, one.body.len())
}

// A number of lines and those of some blocks, at most the limit.
fn with_blocks(start: u64, blocks: &[Block]) -> u64
    requires { start ≤ 4294967296 }
    ensures { result ≡ min (start + length (flat_map block_rows (map block blocks.now))) 4294967296 }
{
    let mut count = start;
    for one in blocks {
        count = with_block(count, one);
    }
    count
}

// How many lines the text of an image has, at most the limit.
pub fn count_lines(image: &Image) -> u64
    ensures { result ≡ min (line_count (program image.now)) 4294967296 }
{
    let inputs = with_lines(13, image.inputs.len());
    let outputs = with_lines(inputs, image.outputs.len());
    let globals = with_lines(outputs, image.globals.len());
    let fields = with_lines(globals, image.fields.len());
    let registers = with_lines(fields, image.registers.len());
    let columns = with_lines(registers, image.columns.len());
    let kinds = with_lines(columns, image.kinds.len());
    let places = with_lines(kinds, image.places.len());
    let blocks = with_blocks(places, image.blocks.as_slice());
    with_lines(blocks, image.master.len())
}
