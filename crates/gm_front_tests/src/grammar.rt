//! Texts and their verdicts, by scanning and parsing.

use crate::rows::{all_read, is_row, number_of, parts_of, same, sides};
use crate::tokens::tokens_of;
use crate::types::tree_of;
use gm_ast::surface::{SpelledProcedure, SpelledStmt};
use gm_base::Stop;
use gm_token::Tokens;
use std::alloc::{AllocError, Global};
use std::process::Abort;
use std::test::Fail;

const HEAD: &str = "Procedure f(G: Graph) {";

// Each text, and what `scan` and then `parse` answer. The answers come from an Earley recognizer of the grammar.
const ROWS: &str = "
Procedure f(G: Graph) { Int # x; } => refused BadByte at 1:29
Procedure f(G: Graph) { Int x = 99999999999999999999; } => refused NumberTooLarge at 1:33
Procedure f(G: Graph) { /* x => refused OpenComment at 1:25
Procedure f(G: Graph) { Float d; } => refused U1 at 1:25
Procedure f(G: Graph) { Double d; } => refused U1 at 1:25
Procedure f(G: Graph) { String d; } => refused U2 at 1:25
Procedure f(G: Graph) { Node_Set d; } => refused U3 at 1:25
Procedure f(G: Graph) { N_S d; } => refused U3 at 1:25
Procedure f(G: Graph) { Node_Order d; } => refused U3 at 1:25
Procedure f(G: Graph) { N_O d; } => refused U3 at 1:25
Procedure f(G: Graph) { Node_Seq d; } => refused U3 at 1:25
Procedure f(G: Graph) { N_Q d; } => refused U3 at 1:25
Procedure f(G: Graph) { Collection d; } => refused U3 at 1:25
Procedure f(G: Graph) { Map d; } => refused U3 at 1:25
Procedure f(G: Graph) { InDFS d; } => refused U4 at 1:25
Procedure f(G: Graph) { InPost d; } => refused U4 at 1:25
Procedure f(G: Graph) { UGraph d; } => refused U5 at 1:25
Procedure f(G: Graph) { Avg d; } => refused U6 at 1:25
Procedure f(G: Graph) { Local d; } => refused U7 at 1:25
Procedure f(G: Graph) { Int x = 1.5; } => refused U8 at 1:33
Procedure f(G: Graph) { Int x = 1.5; Float y; } => refused U8 at 1:33
Procedure f(G: Graph) { x = ; Local } => refused U7 at 1:31
1.0 => refused U8 at 1:1
Procedure f(G: Graph) { x min= 3; } => accepted
Procedure f(G: Graph) { x min == 3; } => refused Syntax at 1:27
Procedure f(G: Graph) { x min = 3; } => refused Syntax at 1:27
Procedure f(G: Graph) { Int min = 3; } => accepted
Procedure f(G: Graph) { x = - INF; } => accepted
Procedure f(G: Graph) { x = -INF; } => accepted
Procedure f(G: Graph) { x = +INF; } => accepted
Procedure f(G: Graph) { x = + 1; } => refused Syntax at 1:31
Procedure f(G: Graph) { x = + -INF; } => refused Syntax at 1:31
Procedure f(G: Graph) { x = -/* */INF * 2; } => accepted
Procedure f(G: Graph) { // any bytes => refused Syntax at 1:37
Procedure f(G: Graph) { /* open => refused OpenComment at 1:25
Procedure f(G: Graph) { /* a * / */ } => accepted
Procedure f(G: Graph) { }// => accepted
Procedure f(G: Graph) { a <= b; } => accepted
Procedure f(G: Graph) { a.p <= b < c; } => accepted
Procedure f(G: Graph) { x = a <= b; } => accepted
Procedure f(G: Graph) { x = a <= b <= c; } => refused Syntax at 1:36
Procedure f(G: Graph) { a <= b @ n; } => accepted
Procedure f(G: Graph) { a <= b @ 3; } => refused Syntax at 1:34
Procedure f(G: Graph) { x = b @ n; } => refused Syntax at 1:31
Procedure f(G: Graph) { If (a) If (b) x = 1; Else x = 2; } => accepted
Procedure f(G: Graph) { If (a) x = 1; Else x = 2; Else x = 3; } => refused Syntax at 1:51
Procedure f(G: Graph) { Else x = 1; } => refused Syntax at 1:25
Procedure f(G: Graph) { If (a) { } Else } => refused Syntax at 1:41
Procedure => refused Syntax at 1:10
Procedure f => refused Syntax at 1:12
Proc f() => refused Syntax at 1:9
Proc f() { } } => refused Syntax at 1:14
Proc f(;) { } => accepted
Proc f(a, b: Int; c: N_P<Int>(G)): Int { } => accepted
Proc f(a b: Int) { } => refused Syntax at 1:10
Proc f(a: Int,) { } => refused Syntax at 1:15
Proc f(a: Foo) { } => refused Syntax at 1:11
Proc f(a: N_P<N_P<Int>(H)>(G)) { } => accepted
Proc f(a: N_P<Int) { } => refused Syntax at 1:18
Proc f(Foreach: Int) { } => refused Syntax at 1:8
Proc Nodes(Nbrs: Int) { Nbrs = Nodes; } => accepted
Procedure f(G: Graph) { Foreach (n: G.Nodes) (n.x > 1) { n.p += 1; } } => accepted
Procedure f(G: Graph) { Foreach (n: G.nodes) { } } => refused Syntax at 1:39
Procedure f(G: Graph) { For (n: G.InNbrs) ; } => accepted
Procedure f(G: Graph) { Foreach n: G.Nodes) ; } => refused Syntax at 1:33
Procedure f(G: Graph) { Do { x++; } While (x < 3); } => accepted
Procedure f(G: Graph) { Do x++; While (x < 3); } => refused Syntax at 1:28
Procedure f(G: Graph) { Do { } While (x) } => refused Syntax at 1:42
Procedure f(G: Graph) { While () ; } => refused Syntax at 1:32
Procedure f(G: Graph) { InBFS (n: G.Nodes From r) { } InReverse (n.x) { } } => accepted
Procedure f(G: Graph) { InBFS (n: G.Nodes ; r) (a) { } } => accepted
Procedure f(G: Graph) { InBFS (n: G.Nbrs From r) { } } => refused Syntax at 1:37
Procedure f(G: Graph) { InBFS (n: G.Nodes From r) ; } => refused Syntax at 1:51
Procedure f(G: Graph) { Return; } => accepted
Procedure f(G: Graph) { Return 1 } => refused Syntax at 1:34
Procedure f(G: Graph) { Return Sum(n: G.Nodes)(n.a == 1 && !n.b) {n.x * 2}; } => accepted
Procedure f(G: Graph) { x = Count(n: G.Nodes); } => accepted
Procedure f(G: Graph) { x = Sum(n: G.Nodes); } => refused Syntax at 1:44
Procedure f(G: Graph) { x = Exist(n: G.Nodes)(a) { b } + 1; } => accepted
Procedure f(G: Graph) { x = All(n: G.Nodes) { b ; } => refused Syntax at 1:49
Procedure f(G: Graph) { x = (Int) a + (Long) (b); } => accepted
Procedure f(G: Graph) { x = (Bool) a; } => refused Syntax at 1:30
Procedure f(G: Graph) { x = (a ? b : c) ? d : e ? f : g; } => accepted
Procedure f(G: Graph) { x = a ? b; } => refused Syntax at 1:34
Procedure f(G: Graph) { x = a < b == c < d; } => accepted
Procedure f(G: Graph) { x = a == b != c; } => accepted
Procedure f(G: Graph) { x = a.b.c; } => refused Syntax at 1:32
Procedure f(G: Graph) { x = a.b(); } => accepted
Procedure f(G: Graph) { x = a.b(c); } => refused Syntax at 1:33
Procedure f(G: Graph) { x = f(c); } => refused Syntax at 1:30
Procedure f(G: Graph) { f(c); } => refused Syntax at 1:26
Procedure f(G: Graph) { Int a, b, c; } => accepted
Procedure f(G: Graph) { Int a = 1, b; } => refused Syntax at 1:34
Procedure f(G: Graph) { Int a b; } => refused Syntax at 1:31
Procedure f(G: Graph) { N_P<Int>(G) a; } => accepted
Procedure f(G: Graph) { x = ; } => refused Syntax at 1:29
Procedure f(G: Graph) { x 1; } => refused Syntax at 1:27
Procedure f(G: Graph) { x += ; } => refused Syntax at 1:30
Procedure f(G: Graph) { x++ } => refused Syntax at 1:29
Procedure f(G: Graph) { x.y++; } => accepted
Procedure f(G: Graph) { x &&= a; y ||= b; z &= c; w |= d; v *= 2; u max= 1; } => accepted
Procedure f(G: Graph) { x /= 2; } => refused Syntax at 1:27
Procedure f(G: Graph) { <a.x; a.y> min= <1; 2>; } => accepted
Procedure f(G: Graph) {{}; {;;}} => accepted
Procedure f(G: Graph) { ) } => refused Syntax at 1:25
Procedure f(G: Graph) { # => refused BadByte at 1:25
Procedure f(G: Graph) { 9223372036854775808 => refused NumberTooLarge at 1:25
Procedure f(G: Graph) { x = 9223372036854775807; } => accepted
Procedure f(G: Graph) {{{{{{{{{{{{{{{{{{{{{{{{{{{{{{{{{{{{{{{{{{{{{{{{{{{{{{{{{{{{{{{{{{ => refused TooDeep at 1:88
Procedure f(G: Graph) {{{{{{{{{{{{{{{{{{{{{{{{{{{{{{{{{{{{{{{{{{{{{{{{{{{{{{{{{{{{{{{{{; => refused TooDeep at 1:88
Procedure f(G: Graph) {{{{{{{{{{{{{{{{{{{{{{{{{{{{{{{{{{{{{{{{{{{{{{{{{{{{{{{{{{{{{{{{{) => refused Syntax at 1:88
Procedure f(G: Graph) {Do{{{{{{{{{{{{{{{{{{{{{{{{{{{{{{{{{{{{{{{{{{{{{{{{{{{{{{{{{{{{{{{{{ => refused TooDeep at 1:90
";

// Argument reductions: a tuple of targets and one of values, each of two entries or more.
const TUPLES: &str = "
<x; y> min= <1; 2>; => accepted
<x; y> max= <1; 2>; => accepted
<x.p; y.q, z> max= <1; 2, 3, 4> @ n; => accepted
<x; y> min= <1; 2, 3>; => accepted
<Nodes.Nbrs; min, max>min=<min; max>; => accepted
<x; y> min= <1 + 2 * -3; -INF>; => accepted
<x; y> min= <(a < b); (a ? b : c)>; => accepted
<x; y> min= <Sum(n: G.Nodes)(a < b){c > d}; n.Degree()>; => accepted
<x; y> min= <Count(n: G.Nodes); Exist(n: G.Nodes)(a)>; => accepted
If (a) <x; y> min= <1; 2>; Else <x; y> max= <1; 2>; => accepted
While (a) <x; y> min= <1; 2>; => accepted
Foreach (n: G.Nodes) <x; y> min= <1; 2>; => accepted
Foreach (n: G.Nodes) (a < b) <x; y> min= <1; 2>; => accepted
<x; y> min= <1; 2> => refused Syntax at 1:43
<x; y> min= <1; 2> @ 3; => refused Syntax at 1:46
<x; y> min= <1; 2> @; => refused Syntax at 1:45
<x; y> min= <1; 2 @ n>; => refused Syntax at 1:43
<x> min= <1; 2>; => refused Syntax at 1:27
<x, y> min= <1; 2>; => refused Syntax at 1:27
<x; y; z> min= <1; 2>; => refused Syntax at 1:30
<x; > min= <1; 2>; => refused Syntax at 1:29
<> min= <1; 2>; => refused Syntax at 1:26
<x; y, > min= <1; 2>; => refused Syntax at 1:32
<x; y + 1> min= <1; 2>; => refused Syntax at 1:31
<x; y> += <1; 2>; => refused Syntax at 1:32
<x; y> = <1; 2>; => refused Syntax at 1:32
<x; y> <= <1; 2>; => refused Syntax at 1:32
<x; y> &&= <1; 2>; => refused Syntax at 1:32
<x; y>++; => refused Syntax at 1:31
<x; y> min = <1; 2>; => refused Syntax at 1:32
<x; y> min= 1; => refused Syntax at 1:37
<x; y> min= <1>; => refused Syntax at 1:39
<x; y> min= <1, 2>; => refused Syntax at 1:39
<x; y> min= <1; 2; 3>; => refused Syntax at 1:42
<x; y> min= <1; >; => refused Syntax at 1:41
<x; y> min= <a < b; 2>; => refused Syntax at 1:40
<x; y> min= <1; a > b>; => refused Syntax at 1:45
<x; y> min= <1; a == b>; => refused Syntax at 1:43
<x; y> min= <a ? b : c; 2>; => refused Syntax at 1:40
x min= <1; 2>; => refused Syntax at 1:32
";

// A procedure with every production, in one line.
const WHOLE: &str =
    "Procedure f(G: Graph, v: N_P<Int>(G); m: E_P<Long>): Int { Int a = 1; Bool b, c; G.p = v.q + 2; a <= 3 @ n; a min= 4 @ n; <a; G.p, b> max= <a + 1; (a < b), 2> @ n; a++; Foreach (n: G.Nodes)(n.v > 1) { ; } If (a == 1) a = 2; Else a = 3; While (!b) { } Do { } While (a < b); InBFS (n: G.Nodes From r)(a) { } InReverse (b) { } Return (Int) Sum(t: n.Nbrs)(True){t.x % 2} ? -INF : Count(t: n.UpNbrs); }";

// Whether tokens have a tree, without it.
fn judge(alloc: Global, tokens: &Tokens) -> Result<(), Stop> {
    match tree_of(alloc, tokens) {
        Ok(_) => Ok(()),
        Err(stop) => Err(stop),
    }
}

fn verdict_of_tokens(alloc: Global, tokens: &Tokens) -> Result<String, AllocError> {
    match judge(alloc, tokens) {
        Err(stop) => format!(in alloc; "{stop}"),
        Ok(()) => String::from_str(alloc, "accepted"),
    }
}

fn verdict(alloc: Global, text: &[u8]) -> Result<String, AllocError> {
    match tokens_of(alloc, text) {
        Err(stop) => format!(in alloc; "{stop}"),
        Ok(tokens) => verdict_of_tokens(alloc, &tokens),
    }
}

// Compares the verdict on a text.
fn check(rt: &(impl Abort + AllocGlobal), text: &str, want: &str) -> Result<(), Fail> {
    let found = verdict(rt.alloc(), text.as_bytes())?;
    same(rt, found.as_str(), want, text);
    Ok(())
}

// The head, one piece and again another so many times, and an end.
fn repeated(
    alloc: Global,
    front: &str,
    piece: &str,
    count: usize,
    end: &str,
) -> Result<String, AllocError> {
    let mut text = String::from_str(alloc, HEAD)?;
    text.push_str(front)?;
    for _ in 0..count {
        text.push_str(piece)?;
    }
    text.push_str(end)?;
    Ok(text)
}

// Compares the verdict of a row of whole texts.
fn check_row(rt: &(impl Abort + AllocGlobal), row: &str) -> Result<(), Fail> {
    let (text, want) = parts_of(row)?;
    check(rt, text, want)
}

#[test]
fn texts(rt: HostRuntime) -> Result<(), Fail> {
    let mut read = 0usize;
    for line in ROWS.lines() {
        if is_row(line) {
            check_row(&rt, line)?;
            read = read.saturating_add(1);
        }
    }
    all_read(&rt, read, 112);
    Ok(())
}

#[test]
fn texts_of_lines(rt: HostRuntime) -> Result<(), Fail> {
    check(
        &rt,
        "Procedure f(G: Graph) {\n  Foreach (n: G.",
        "refused Syntax at 2:17",
    )?;
    check(
        &rt,
        "Procedure f(G: Graph) {\n\n   ?",
        "refused Syntax at 3:4",
    )?;
    check(&rt, "", "refused Syntax at 1:1")?;
    check(&rt, "  \n ", "refused Syntax at 2:2")
}

// Compares the verdict of a row of statements.
fn check_statement(rt: &(impl Abort + AllocGlobal), row: &str) -> Result<(), Fail> {
    let (statement, want) = parts_of(row)?;
    let text = repeated(rt.alloc(), " ", statement, 1, "}")?;
    check(rt, text.as_str(), want)
}

#[test]
fn tuples(rt: HostRuntime) -> Result<(), Fail> {
    let mut read = 0usize;
    for line in TUPLES.lines() {
        if is_row(line) {
            check_statement(&rt, line)?;
            read = read.saturating_add(1);
        }
    }
    all_read(&rt, read, 40);
    Ok(())
}

// What stands before a piece, the piece, how often it stands, and what stands behind it.
const DEPTHS: &str = "
|{|65| => refused TooDeep at 1:88
|{|64|; => refused TooDeep at 1:88
|{|64|) => refused Syntax at 1:88
|While(a)|63|;} => accepted
|While(a)|64|;} => refused TooDeep at 1:536
|Foreach(n:G.Nodes)|63|;} => accepted
|Foreach(n:G.Nodes)|64|{}} => refused TooDeep at 1:1176
|If(a)|63|;Else;} => accepted
|If(a)|64|;} => refused TooDeep at 1:344
Do|{|65| => refused TooDeep at 1:90
x=|-|255|1;} => accepted
x=|-|256|1;} => refused TooDeep at 1:282
x=|-|256|;} => refused Syntax at 1:282
x=|1+|128|1;} => refused TooDeep at 1:282
<x;y>min=<|-|255|1;2>;} => accepted
<x;y>min=<|-|256|1;2>;} => refused TooDeep at 1:290
<x;y>min=<1;|-|256|1>;} => refused TooDeep at 1:292
<x;y>min=<1;1|,1+1|100|>;} => accepted
";

// Compares the verdict of a row of pieces.
fn check_depth(rt: &(impl Abort + AllocGlobal), row: &str) -> Result<(), Fail> {
    let (text, want) = parts_of(row)?;
    let (front, rest) = sides(text, "|")?;
    let (piece, rest) = sides(rest, "|")?;
    let (count, end) = sides(rest, "|")?;
    let text = repeated(rt.alloc(), front, piece, number_of(count)?, end)?;
    check(rt, text.as_str(), want)
}

#[test]
fn depths(rt: HostRuntime) -> Result<(), Fail> {
    let mut read = 0usize;
    for row in DEPTHS.lines() {
        if is_row(row) {
            check_depth(&rt, row)?;
            read = read.saturating_add(1);
        }
    }
    all_read(&rt, read, 18);
    Ok(())
}

// The verdict on a text that ends before a column.
fn refused_before(alloc: Global, col: usize) -> Result<String, AllocError> {
    format!(in alloc; "refused Syntax at 1:{col}")
}

// Compares the verdict on the text that is cut before a column.
fn check_cut(rt: &(impl Abort + AllocGlobal), col: usize) -> Result<(), Fail> {
    match WHOLE.get(..col.saturating_sub(1)) {
        Some(text) => {
            let want = refused_before(rt.alloc(), col)?;
            check(rt, text, want.as_str())
        }
        None => Err(Fail::from("no such column")),
    }
}

#[test]
fn cuts(rt: HostRuntime) -> Result<(), Fail> {
    check(&rt, WHOLE, "accepted")?;
    let tokens = tokens_of(rt.alloc(), WHOLE.as_bytes())?;
    for i in 0..tokens.len() {
        check_cut(&rt, tokens.place(i).col as usize)?;
    }
    Ok(())
}

// A declaration of a type within so many property types, of which so many have their `>`.
fn nested(alloc: Global, depth: usize, ends: usize) -> Result<String, AllocError> {
    let mut text = repeated(alloc, "", "N_P<", depth, "Int")?;
    for _ in 0..ends {
        text.push_str(">")?;
    }
    text.push_str(" x;}")?;
    Ok(text)
}

// How many property types are around the type that the first statement declares.
fn layers(tree: &SpelledProcedure) -> usize {
    match tree.body.first() {
        Some(SpelledStmt::Declare { vtype, .. }) => vtype.layers.len(),
        _ => 0,
    }
}

// How many property types are around the type that the first statement declares.
fn layers_in(alloc: Global, tokens: &Tokens) -> Result<usize, Stop> {
    match tree_of(alloc, tokens) {
        Ok(tree) => Ok(layers(&tree)),
        Err(stop) => Err(stop),
    }
}

// The same of a text.
fn layers_of(alloc: Global, text: &str) -> Result<usize, Stop> {
    let tokens = tokens_of(alloc, text.as_bytes())?;
    layers_in(alloc, &tokens)
}

// Compares how many property types a text with so many has.
fn check_layers(rt: &(impl Abort + AllocGlobal), depth: usize) -> Result<(), Fail> {
    let text = nested(rt.alloc(), depth, depth)?;
    all_read(rt, layers_of(rt.alloc(), text.as_str())?, depth);
    Ok(())
}

// Compares the verdict on a text with such a declaration.
fn check_nested(
    rt: &(impl Abort + AllocGlobal),
    depth: usize,
    ends: usize,
    want: &str,
) -> Result<(), Fail> {
    let text = nested(rt.alloc(), depth, ends)?;
    check(rt, text.as_str(), want)
}

#[test]
fn nested_types(rt: HostRuntime) -> Result<(), Fail> {
    check_layers(&rt, 0)?;
    check_layers(&rt, 1)?;
    check_layers(&rt, 2)?;
    check_layers(&rt, 257)?;
    check_layers(&rt, 2_000)
}

#[test]
fn unfinished_types(rt: HostRuntime) -> Result<(), Fail> {
    check_nested(&rt, 1, 0, "refused Syntax at 1:32")?;
    check_nested(&rt, 257, 256, "refused Syntax at 1:1312")?;
    check_nested(&rt, 2_000, 1_999, "refused Syntax at 1:10027")?;
    check_nested(&rt, 2_000, 2_001, "refused Syntax at 1:10027")
}
