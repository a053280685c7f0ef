//! Images with one thing changed, each with the rule that it breaks and the line where it does.

use crate::compare::{same, same_count};
use crate::texts::{changed_text, image_in, text_of, verified};
use gm_base::Items;
use gm_image::{Block, Expr, Handler, Image, MasterLine, VertexLine};
use gm_value::{Reduce, VType, Value};
use gm_verify::VerifyStop;
use std::alloc::{AllocError, Global};
use std::mem;
use std::process::Abort;
use std::test::Fail;

// The image, the broken rule with its line, and the lines that are changed with what stands in their place.
const CASES: &str = "whole|sound;\
    spin|sound;\
    total|sound;\
    whole|I1 4|4|scalar I k 4;\
    whole|I1 5|5|node I v 6;\
    whole|I1 6|6|edge I w 2;\
    whole|I1 9|9|scalar I k 9;\
    whole|I1 10|10|node I s 6;\
    whole|I1 12|12|result L 4;\
    whole|I1 43|43|reg 2 + 0 f 0 c I 1;\
    whole|I1 43|43|reg 0 + 4 f 0 c I 1;\
    whole|I1 43|43|reg 0 + 0 f 6 c I 1;\
    whole|I1 43|43|reg 0 r 2;\
    whole|I1 43|43|reg 0 g 4;\
    whole|I1 43|43|reg 0 neg 4 f 0;\
    whole|I1 43|43|reg 1 live 4 id;\
    whole|I1 47|47|fold sum 4 4 w 1;\
    whole|I1 47|47|fold sum 1 6 w 1;\
    whole|I1 47|47|fold sum 1 4 w 2;\
    whole|I1 48|48|put max 2 4 id;\
    whole|I1 48|48|put max 4 3 id;\
    whole|I1 45|45|send 3 nb w 0;\
    whole|I1 50|50|on 3 1;\
    whole|I1 54|54|pick min 3 2 0 m 2 2 m 1;\
    whole|I1 54|54|pick min 3 2 0 m 0 6 m 1;\
    whole|I1 59|59|set 6 c B True;\
    whole|I1 62|62|set 4 g 0;\
    whole|I1 62|62|set 0 g 4;\
    whole|I1 66|66|step 2;\
    total|I1 29|29|step 2;\
    whole|I2 4|4|scalar L k 0;\
    whole|I2 5|5|node L v 0;\
    whole|I2 7|7|edge I x 1;\
    whole|I2 9|9|scalar B k 0;\
    whole|I2 10|10|node L s 1;\
    whole|I2 12|12|result I 1;\
    whole|I2 43|43|reg 0 c L 1;\
    whole|I2 43|43|reg 0 + 0 f 0 c L 1;\
    whole|sound|43|reg 1 c N NIL;\
    whole|I2 43|43|reg 0 ? f 0 c I 1 c I 2;\
    whole|I2 43|43|reg 0 ? f 3 c I 1 c L 2;\
    whole|sound|43|reg 0 ? f 3 c I 1 c I 2;\
    whole|I2 43|43|reg 0 int 0 f 0;\
    whole|sound|43|reg 0 int 0 f 4;\
    whole|I2 43|43|reg 1 node f 0;\
    whole|sound|43|reg 1 node f 4;\
    whole|I2 43|43|reg 1 live 0 f 0;\
    whole|I2 45|45|send 0 f 0 w 0;\
    whole|I2 45|45|send 0 nb w 1;\
    whole|I2 45|45|send 0 nb;\
    whole|I2 45|45|send 0 nb w 0 w 0;\
    total|I2 22|22|send 0 nb nb;\
    whole|I2 47|47|fold and 1 4 w 1;\
    whole|I2 47|47|fold sum 1 4 w 0;\
    whole|I2 48|48|put min 2 3 id;\
    whole|I2 48|48|put max 2 2 f 3;\
    whole|sound|48|put or 2 2 f 3;\
    whole|sound|48|pickput max 2 2 0 f 0 3 id;\
    whole|sound|48|pickput min 2 4 1 f 4 3 id 0 f 0 2 f 3;\
    whole|I2 48|48|pickput max 2 2 3 id 0 f 0;\
    whole|I2 48|48|pickput min 2 2 2 f 3 0 f 0;\
    whole|I2 48|48|pickput max 2 2 0 f 0 3 f 0;\
    whole|I2 48|48|pickput max 2 2 0 f 0 0 f 0;\
    whole|I2 48|48|pickput max 2 3 0 f 0 3 id 3 id;\
    whole|I1 48|48|pickput max 2 2 0 f 0 4 id;\
    whole|I7 48|48|pickput max 2 2 0 f 0 3 m 0;\
    whole|I2 54|54|pick min 3 2 2 m 1 0 m 0;\
    whole|I2 54|54|pick min 3 2 0 m 0 0 m 0;\
    whole|I2 53|53|skip 1 m 0;\
    whole|I2 63|63|loop 6 g 0;\
    whole|I2 65|65|test 5 g 1;\
    whole|I2 68|68|set 1 g 0;\
    whole|I2 59|59|set 3 && f 3 f 0;\
    whole|I2 59|59|set 3 not f 0;\
    whole|I2 59|59|set 3 < f 2 f 2;\
    whole|sound|59|set 3 == f 2 f 2;\
    whole|I2 59|59|set 3 == f 0 f 4;\
    whole|I3 64|64|jump 2;\
    whole|I3 64|64|jump 8;\
    whole|sound|64|jump 7;\
    whole|I3 65|65|test 3 g 2;\
    whole|I3 65|65|test 8 g 2;\
    whole|I3 63|63|loop 8 < g 0 c I 9;\
    whole|I3 63|63|loop 0 < g 0 c I 9;\
    total|I3 29|29|jump 0;\
    whole|I4 67|67|back 5;\
    whole|I4 67|67|back 6;\
    whole|I4 67|67|back 9;\
    whole|I4 67|67|back 0;\
    whole|I4 67|63|loop 5 < g 0 c I 9;\
    whole|I4 67|63|loop 2 < g 0 c I 9;\
    spin|I4 18|16|loop 2 < g 0 c I 6;\
    whole|I5 64|64|end;\
    whole|I5 69|69|step 0;\
    total|I5 29|29|end;\
    spin|I5 15|15|master 0|16|(none)|17|(none)|18|(none)|19|(none);\
    whole|I6 44|44|each out 5;\
    whole|sound|44|each out 4;\
    whole|I6 44|44|each in 5;\
    whole|I6 44|44|each out 4294967295;\
    whole|I6 46|46|each in 1;\
    whole|I6 46|46|each in 0;\
    whole|I6 53|53|each out 1;\
    whole|I6 53|53|each out 0;\
    whole|I6 46|46|skip 2 f 3;\
    whole|sound|46|skip 1 f 3;\
    whole|I6 58|58|skip 3 f 3;\
    whole|I6 58|58|skip 4294967295 f 3;\
    whole|I6 43|43|skip 2 f 3;\
    whole|I6 43|43|skip 3 f 3;\
    whole|sound|43|skip 4 f 3;\
    whole|I6 43|43|skip 1 f 3;\
    whole|sound|43|skip 0 f 3;\
    whole|I6 53|53|skip 2 < m 0 c I 5;\
    total|I6 21|21|each out 2;\
    whole|I7 43|43|reg 0 m 0;\
    whole|I7 43|43|reg 1 nb;\
    whole|I7 43|43|reg 0 w 0;\
    whole|I7 45|44|each in 3;\
    whole|I7 47|44|each out 2;\
    whole|I7 48|48|put max 2 3 nb;\
    whole|I7 62|62|set 0 f 0;\
    whole|I7 62|62|set 0 out;\
    whole|I7 62|62|set 0 inn;\
    whole|I7 62|62|set 3 id;\
    whole|I7 62|62|set 0 r 0;\
    whole|sound|62|set 0 nn;\
    whole|I7 54|54|pick min 3 2 0 w 0 2 m 1;\
    whole|I7 60|60|put sum 3 1 long m 0;\
    whole|I7 65|65|test 5 == id id;\
    whole|I7 63|63|loop 6 == nb nb;\
    total|I7 22|21|skip 1 c B True;\
    whole|I8 54|54|set 0 m 0;\
    whole|I8 52|52|on 0 2;\
    whole|I8 50|51|fold max 0 1 m 0;\
    whole|I8 50|51|fold sum 0 1 c I 1;\
    whole|I8 50|50|on 0 2|51|fold sum 0 1 m 0~fold sum 0 1 m 0;\
    whole|I8 50|50|on 0 0|51|(none);\
    whole|I8 55|56|pick max 2 2 5 m 0 0 c I 1;\
    whole|I8 32|32|sum I I;\
    whole|I8 34|34|min N;\
    whole|I8 32|32|and I;\
    whole|I8 32|32|sum;\
    whole|I8 55|52|on 1 3|54|pick min 3 2 0 m 0 2 m 1~fold max 3 0 m 0;\
    whole|I8 55|52|on 1 3|54|pick min 3 2 0 m 0 2 m 1~fold max 3 2 m 1;\
    whole|sound|52|on 1 3|54|pick min 3 2 0 m 0 2 m 1~pick min 3 2 0 m 0 2 m 1;\
    whole|I8 55|52|on 1 3|54|pick min 3 2 0 m 0 2 m 1~fold min 3 0 m 0;\
    whole|sound|54|fold sum 3 1 m 0;\
    whole|I8 54|54|fold max 3 1 m 0;\
    whole|I8 53|53|skip 1 < f 1 c I 5;\
    whole|I8 53|53|skip 1 < f 0 c I 5;\
    whole|I8 53|53|skip 1 == f 2 f 2;\
    whole|sound|53|skip 1 f 3;\
    whole|I8 47|47|fold sum 1 4 + 0 f 4 w 1;\
    whole|I8 46|46|set 4 w 1;\
    whole|I8 47|46|fold max 1 4 w 1;\
    whole|sound|46|fold sum 2 4 w 1;\
    whole|I8 45|45|send 0 nb int 1 f 4;\
    whole|sound|48|put sum 3 1 f 4;\
    total|I8 25|25|set 1 m 0;\
    whole|I9 50|42|body 8|48|put max 2 3 id~put sum 3 1 f 4~put product 3 1 f 4;\
    whole|I9 61|57|body 4|60|put sum 3 1 long f 0~put max 3 1 f 4;\
    whole|sound|57|body 4|60|put sum 3 1 long f 0~put sum 2 1 f 4;\
    whole|I9 60|54|put min 3 1 long m 0;\
    whole|sound|54|put sum 3 1 long m 0;\
    whole|I9 61|57|body 4|60|pickput min 3 2 1 f 4 0 f 0~put min 3 1 f 4;\
    whole|I9 61|57|body 4|60|pickput min 3 2 1 f 4 0 f 0~pickput min 3 2 0 f 0 1 f 4;\
    whole|sound|57|body 4|60|pickput min 3 2 1 f 4 0 f 0~pickput min 3 2 1 f 4 0 f 0;\
    whole|I10 2|2|name 5pin;\
    whole|I10 2|2|name a-b;\
    whole|sound|2|name _A9;\
    whole|I10 4|4|scalar I 4k 0;\
    whole|I10 5|5|node I k 0;\
    whole|I10 7|7|edge L w 1;\
    whole|I10 11|11|node N s 2;\
    whole|I10 10|10|node I s! 1;\
    whole|I10 10|10|node I k 1;\
    whole|I10 6|3|inputs 5|5|node I v 0~node I u 0;\
    whole|I10 5|3|inputs 5|4|scalar I k 0~scalar I j 0;\
    whole|I10 5|5|node N v 2;\
    whole|I10 6|6|edge L w 1|7|edge I x 0;\
    whole|I10 6|6|edge N w 0|29|N;\
    whole|I10 27|3|inputs 3|7|(none);\
    whole|I10 28|28|columns 3|30|L~B;\
    whole|I10 2|2|name 5|66|step 9;\
    whole|I3 64|64|jump 0|66|step 9;\
    whole|I1 43|43|reg 2 nb;\
    whole|I2 43|43|reg 0 nb;\
    whole|I7 45|44|each in 3|46|skip 9 f 3;\
    whole|I7 48|48|put max 2 3 nb|64|end";

// A broken rule with its line, or that there is none.
fn name_of(alloc: Global, stop: Option<VerifyStop>) -> Result<String, AllocError> {
    match stop {
        None => String::from_str(alloc, "sound"),
        Some(VerifyStop::Broken { rule, line }) => format!(in alloc; "{rule} {line}"),
        Some(VerifyStop::NoMemory) => String::from_str(alloc, "no memory"),
    }
}

// What is answered to an image: its first broken rule with the line, or that it is sound.
fn answer_to(alloc: Global, image: Image) -> Result<String, AllocError> {
    name_of(alloc, verified(alloc, image).err())
}

// Compares what is answered to a case.
fn compare(rt: &(impl Abort + AllocGlobal), case: &str) -> Result<(), Fail> {
    let (text, want) = changed_text(rt.alloc(), case)?;
    let answer = answer_to(rt.alloc(), image_in(rt.alloc(), &text)?)?;
    same(rt, answer.as_str(), want, case);
    Ok(())
}

#[test]
fn each_change_breaks_its_rule(rt: HostRuntime) -> Result<(), Fail> {
    let mut read = 0usize;
    for case in CASES.split(';') {
        compare(&rt, case)?;
        read = read.saturating_add(1);
    }
    same_count(&rt, read, 190, "cases");
    Ok(())
}

// Two slots with their values.
fn two(
    alloc: Global,
    first: (u32, Expr),
    second: (u32, Expr),
) -> Result<Items<(u32, Expr)>, AllocError> {
    let mut slots = Vec::new(alloc);
    slots.push(first)?;
    slots.push(second)?;
    Ok(Items::new(slots))
}

// A reduction of a place in a handler or a body.
fn fold(reduce: Reduce, place: u32, slots: Items<(u32, Expr)>) -> VertexLine {
    VertexLine::Fold {
        reduce,
        place,
        slots,
    }
}

// A reduction of a place for all nodes.
fn put(reduce: Reduce, place: u32, slots: Items<(u32, Expr)>) -> VertexLine {
    VertexLine::Put {
        reduce,
        place,
        slots,
    }
}

// A sum of two slots of a message, which no text spells.
fn sum_of_messages(alloc: Global) -> Result<VertexLine, AllocError> {
    let slots = two(alloc, (0, Expr::Message(0)), (2, Expr::Message(1)))?;
    Ok(fold(Reduce::Sum, 3, slots))
}

// A sum of two slots for all nodes, which no text spells.
fn sum_for_all(alloc: Global) -> Result<VertexLine, AllocError> {
    let slots = two(alloc, (0, Expr::Field(0)), (3, Expr::Id))?;
    Ok(put(Reduce::Sum, 2, slots))
}

// No slots.
fn no_slots(alloc: Global) -> Items<(u32, Expr)> {
    Items::new(Vec::new(alloc))
}

// A line that no text spells: a node as a constant, a reduction without slots, or a sum of two.
fn unspelled(alloc: Global, line: u32) -> Result<VertexLine, AllocError> {
    match line {
        43 => Ok(VertexLine::SetRegister(1, Expr::Const(Value::At(Some(3))))),
        47 => Ok(fold(Reduce::Sum, 1, no_slots(alloc))),
        48 => Ok(put(Reduce::Max, 2, no_slots(alloc))),
        54 => sum_of_messages(alloc),
        _ => sum_for_all(alloc),
    }
}

// Lines and one more.
fn with_line(lines: Items<VertexLine>, line: VertexLine) -> Result<Items<VertexLine>, AllocError> {
    let mut all = lines.into_vec();
    all.push(line)?;
    Ok(Items::new(all))
}

// Adds a line to a body.
fn add_body_line(alloc: Global, block: &mut Block, line: VertexLine) -> Result<(), AllocError> {
    let lines = mem::replace(&mut block.body, Items::new(Vec::new(alloc)));
    block.body = with_line(lines, line)?;
    Ok(())
}

// Adds a line to a handler.
fn add_handler_line(
    alloc: Global,
    handler: &mut Handler,
    line: VertexLine,
) -> Result<(), AllocError> {
    let lines = mem::replace(&mut handler.lines, Items::new(Vec::new(alloc)));
    handler.lines = with_line(lines, line)?;
    Ok(())
}

// Adds a line to the second of some handlers, if there are two.
fn with_second_line(
    alloc: Global,
    handlers: Items<Handler>,
    line: VertexLine,
) -> Result<Items<Handler>, AllocError> {
    let mut handlers = handlers.into_vec();
    if let Some(handler) = handlers.get_mut(1) {
        add_handler_line(alloc, handler, line)?;
    }
    Ok(Items::new(handlers))
}

// Adds a line to the second handler of a block, if it has two.
fn add_second_line(alloc: Global, block: &mut Block, line: VertexLine) -> Result<(), AllocError> {
    let handlers = mem::replace(&mut block.handlers, Items::new(Vec::new(alloc)));
    block.handlers = with_second_line(alloc, handlers, line)?;
    Ok(())
}

// Adds a line to the first body, or for line 54 to the second block's second handler.
fn add_line(
    alloc: Global,
    blocks: &mut [Block],
    number: u32,
    line: VertexLine,
) -> Result<(), AllocError> {
    match blocks {
        [_, second] if number == 54 => add_second_line(alloc, second, line),
        [first, ..] => add_body_line(alloc, first, line),
        [] => Ok(()),
    }
}

// Blocks with a line behind the others of a body or a handler that no text spells.
fn blocks_with(
    alloc: Global,
    blocks: Items<Block>,
    number: u32,
) -> Result<Items<Block>, AllocError> {
    let line = unspelled(alloc, number)?;
    let mut blocks = blocks.into_vec();
    add_line(alloc, &mut blocks, number, line)?;
    Ok(Items::new(blocks))
}

// The image of a text with such a line.
fn with_unspelled(alloc: Global, text: &[u8], number: u32) -> Result<Image, Fail> {
    let image = image_in(alloc, text)?;
    let blocks = blocks_with(alloc, image.blocks, number)?;
    Ok(Image { blocks, ..image })
}

// Compares what is answered to a case with such a line.
fn compare_unspelled(rt: &(impl Abort + AllocGlobal), number: u32, case: &str) -> Result<(), Fail> {
    let (text, want) = changed_text(rt.alloc(), case)?;
    let answer = answer_to(rt.alloc(), with_unspelled(rt.alloc(), &text, number)?)?;
    same(rt, answer.as_str(), want, case);
    Ok(())
}

// The image without the line and those behind it, and the broken rule with its line.
const NO_NODE: &str =
    "whole|I2 43|42|body 0|43|(none)|44|(none)|45|(none)|46|(none)|47|(none)|48|(none)";

const NO_SLOT: &str = "whole|I2 47|42|body 4|47|(none)|48|(none)";

const NO_SLOT_OF_ALL: &str = "whole|I2 48|42|body 5|48|(none)";

const TWO_SLOTS: &str = "whole|I2 54|52|on 1 1|54|(none)";

#[test]
fn what_no_text_spells_breaks_its_rule(rt: HostRuntime) -> Result<(), Fail> {
    compare_unspelled(&rt, 43, NO_NODE)?;
    compare_unspelled(&rt, 47, NO_SLOT)?;
    compare_unspelled(&rt, 48, NO_SLOT_OF_ALL)?;
    compare_unspelled(&rt, 0, NO_SLOT_OF_ALL)?;
    compare_unspelled(&rt, 54, TWO_SLOTS)
}

// An expression of so many levels, of which the deepest is a field.
fn of_levels(alloc: Global, levels: u32, field: u32) -> Result<Expr, AllocError> {
    let mut expr = Expr::Field(field);
    for _ in 1..levels {
        expr = Expr::Neg(0, Box::new(alloc, expr)?);
    }
    Ok(expr)
}

// Master lines and one more.
fn with_master(lines: Vec<MasterLine>, line: MasterLine) -> Result<Vec<MasterLine>, AllocError> {
    let mut lines = lines;
    lines.push(line)?;
    Ok(lines)
}

// Two master lines, of which the first sets a global.
fn master_of(alloc: Global, value: Expr) -> Result<Items<MasterLine>, AllocError> {
    let lines = with_master(Vec::new(alloc), MasterLine::SetGlobal(0, value))?;
    Ok(Items::new(with_master(lines, MasterLine::Finish)?))
}

// The image `spin` with one field and other master lines.
fn spin_with(alloc: Global, master: Items<MasterLine>) -> Result<Image, Fail> {
    let mut image = image_in(alloc, text_of("spin").as_bytes())?;
    image.fields = Items::new(vec![in alloc; VType::I32]?);
    image.master = master;
    Ok(image)
}

// Compares what is answered to an image with one field that sets a global to an expression of so many levels.
fn compare_levels(
    rt: &(impl Abort + AllocGlobal),
    levels: u32,
    field: u32,
    want: &str,
) -> Result<(), Fail> {
    let master = master_of(rt.alloc(), of_levels(rt.alloc(), levels, field)?)?;
    let answer = answer_to(rt.alloc(), spin_with(rt.alloc(), master)?)?;
    same(rt, answer.as_str(), want, "levels");
    Ok(())
}

#[test]
fn the_depth_of_an_expression_is_limited(rt: HostRuntime) -> Result<(), Fail> {
    compare_levels(&rt, 1024, 0, "I7 17")?;
    compare_levels(&rt, 1025, 0, "I2 17")?;
    compare_levels(&rt, 1024, 7, "I1 17")?;
    compare_levels(&rt, 1025, 7, "I2 17")
}
