//! Tests of what no clause says: texts, and what the written rules make of them.

ghost use Rattle.std.specs.Prelude.{◌<◌, length};

use crate::rows::{all_read, is_row, number_of, parts_of, same, sides};
use gm_base::{Place, Stop};
use gm_token::{Tokens, Word, scan};
use std::alloc::{AllocError, Global};
use std::process::Abort;
use std::test::Fail;

// Texts, each between `~` and a backtick, and the bytes, word and place of each token with the end, or the refusal.
const CASES: &str = "
~`
end 1:1
~ \t\r
`
end 2:1
~min = 1`
min Name 1:1, = Assign 1:5, 1 Number 1:7, end 1:8
~x min= 1`
x Name 1:1, min= MinAssign 1:3, 1 Number 1:8, end 1:9
~min==1`
min Name 1:1, == Equal 1:4, 1 Number 1:6, end 1:7
~max= =`
max= MaxAssign 1:1, = Assign 1:6, end 1:7
~max===`
max Name 1:1, == Equal 1:4, = Assign 1:6, end 1:7
~min=`
min= MinAssign 1:1, end 1:5
~xmin=1`
xmin Name 1:1, = Assign 1:5, 1 Number 1:6, end 1:7
~mine= min_=`
mine Name 1:1, = Assign 1:5, min_ Name 1:7, = Assign 1:11, end 1:12
~min/**/= Min=`
min Name 1:1, = Assign 1:8, Min Min 1:10, = Assign 1:13, end 1:14
~- INF`
- Minus 1:1, INF Inf 1:3, end 1:6
~-INF+INF`
- Minus 1:1, INF Inf 1:2, + Plus 1:5, INF Inf 1:6, end 1:9
~//`
end 1:3
~a//b\r
c`
a Name 1:1, c Name 2:1, end 2:2
~/**/`
end 1:5
~a/**/b`
a Name 1:1, b Name 1:6, end 1:7
~/*/ */x`
x Name 1:7, end 1:8
~/***/x`
x Name 1:6, end 1:7
~/*//*/x`
x Name 1:7, end 1:8
~/* /* */ */`
* Star 1:10, / Slash 1:11, end 1:12
~//a/*
*/`
* Star 2:1, / Slash 2:2, end 2:3
~a /`
a Name 1:1, / Slash 1:3, end 1:4
~1 / 2`
1 Number 1:1, / Slash 1:3, 2 Number 1:5, end 1:6
~a/*/`
refused OpenComment at 1:2
~/*`
refused OpenComment at 1:1
~a
 /* * /
`
refused OpenComment at 2:2
~12ab`
12 Number 1:1, ab Name 1:3, end 1:5
~1.`
1 Number 1:1, . Dot 1:2, end 1:3
~1.2.3`
1.2 Real 1:1, . Dot 1:4, 3 Number 1:5, end 1:6
~.5`
. Dot 1:1, 5 Number 1:2, end 1:3
~1.e 1 .2`
1 Number 1:1, . Dot 1:2, e Name 1:3, 1 Number 1:5, . Dot 1:7, 2 Number 1:8, end 1:9
~9223372036854775807`
9223372036854775807 Number 1:1, end 1:20
~9223372036854775808`
refused NumberTooLarge at 1:1
~x =
 -9223372036854775808;`
refused NumberTooLarge at 2:3
~18446744073709551617`
refused NumberTooLarge at 1:1
~00000000000000000000009`
00000000000000000000009 Number 1:1, end 1:24
~99999999999999999999.5`
99999999999999999999.5 Real 1:1, end 1:23
~0.99999999999999999999`
0.99999999999999999999 Real 1:1, end 1:23
~99999999999999999999.`
refused NumberTooLarge at 1:1
~1.99999999999999999999.99999999999999999999`
refused NumberTooLarge at 1:24
~#`
refused BadByte at 1:1
~a
\t \"`
refused BadByte at 2:3
~café`
refused BadByte at 1:4
~&`
refused BadByte at 1:1
~&&&`
refused BadByte at 1:3
~a | b`
refused BadByte at 1:3
~# 9223372036854775808 /*`
refused BadByte at 1:1
~9223372036854775808 # /*`
refused NumberTooLarge at 1:1
~/* # 9223372036854775808`
refused OpenComment at 1:1
~( ) { } < > , ; : . @ ? ! = + - * / %`
( LeftParen 1:1, ) RightParen 1:3, { LeftBrace 1:5, } RightBrace 1:7, < Less 1:9, > Greater 1:11, , Comma 1:13, ; Semicolon 1:15, : Colon 1:17, . Dot 1:19, @ At 1:21, ? Question 1:23, ! Bang 1:25, = Assign 1:27, + Plus 1:29, - Minus 1:31, * Star 1:33, / Slash 1:35, % Percent 1:37, end 1:38
~==!=<=>=&&||+++=*=&&=||=&=|=`
== Equal 1:1, != NotEqual 1:3, <= LessEqual 1:5, >= GreaterEqual 1:7, && AndAnd 1:9, || OrOr 1:11, ++ PlusPlus 1:13, += PlusAssign 1:15, *= StarAssign 1:17, &&= AndAndAssign 1:19, ||= OrOrAssign 1:22, &= AndAssign 1:25, |= OrAssign 1:27, end 1:29
~|||=`
|| OrOr 1:1, |= OrAssign 1:3, end 1:5
~<==<-`
<= LessEqual 1:1, = Assign 1:3, < Less 1:4, - Minus 1:5, end 1:6
~++++=`
++ PlusPlus 1:1, ++ PlusPlus 1:3, = Assign 1:5, end 1:6
~a\r
b\rc`
a Name 1:1, b Name 2:1, c Name 2:3, end 2:4
~_ _1 a_B9 procedure Procs InBFS1 nodes`
_ Name 1:1, _1 Name 1:3, a_B9 Name 1:6, procedure Name 1:11, Procs Name 1:21, InBFS1 Name 1:27, nodes Name 1:34, end 1:39
~G.Nodes Nbrs`
G Name 1:1, . Dot 1:2, Nodes Nodes 1:3, Nbrs Nbrs 1:9, end 1:13
";

// How many words there are, their kind and the rule that they break, and the words.
const KINDS: &str = "
12 Reserved None => Procedure Proc Int Long Bool Graph DGraph Node Edge N_P Node_Prop Node_Property
13 Reserved None => E_P Edge_Prop Edge_Property Foreach For If Else While Do InBFS From InReverse Return
11 Reserved None => Sum Product Count Min Max Exist All True False NIL INF
9 Name None => Nodes Nbrs OutNbrs InNbrs UpNbrs DownNbrs min max x
2 Unsupported Some(U1) => Float Double
1 Unsupported Some(U2) => String
8 Unsupported Some(U3) => Node_Set N_S Node_Order N_O Node_Seq N_Q Collection Map
2 Unsupported Some(U4) => InDFS InPost
1 Unsupported Some(U5) => UGraph
1 Unsupported Some(U6) => Avg
1 Unsupported Some(U7) => Local
";

/// The tokens of a text, by a call that promises nothing. (What `scan` promises of every list of tokens would be tried at
/// each goal behind it.)
pub(crate) fn tokens_of(alloc: Global, text: &[u8]) -> Result<Tokens<'_>, Stop> {
    scan(alloc, text)
}

// Writes a token, with its word and its place.
fn put_token(
    alloc: Global,
    line: &mut String,
    token: &[u8],
    word: Word,
    place: Place,
) -> Result<(), AllocError> {
    for byte in token {
        line.push(char::from(*byte))?;
    }
    let said = format!(in alloc; " {word:?} {place}, ")?;
    line.push_str(said.as_str())
}

// Writes the end of a text.
fn put_end(alloc: Global, line: &mut String, end: Place) -> Result<(), AllocError> {
    let said = format!(in alloc; "end {end}")?;
    line.push_str(said.as_str())
}

// The tokens of a text on one line.
fn listed(alloc: Global, tokens: &Tokens) -> Result<String, AllocError> {
    let mut line = String::new(alloc);
    for i in 0..tokens.len() {
        put_token(
            alloc,
            &mut line,
            tokens.text(i),
            tokens.word(i),
            tokens.place(i),
        )?;
    }
    put_end(alloc, &mut line, tokens.end())?;
    Ok(line)
}

fn shown(alloc: Global, text: &[u8]) -> Result<String, AllocError> {
    match tokens_of(alloc, text) {
        Ok(tokens) => listed(alloc, &tokens),
        Err(stop) => format!(in alloc; "{stop}"),
    }
}

// Compares the tokens of a text.
fn check(rt: &(impl Abort + AllocGlobal), text: &[u8], want: &str) -> Result<(), Fail> {
    let line = shown(rt.alloc(), text)?;
    same(rt, line.as_str(), want, "tokens");
    Ok(())
}

// The same of a row.
fn check_row(rt: &(impl Abort + AllocGlobal), row: &str) -> Result<(), Fail> {
    let (text, want) = sides(row, "`\n")?;
    check(rt, text.as_bytes(), want.trim_end())
}

#[test]
fn texts_have_their_tokens(rt: HostRuntime) -> Result<(), Fail> {
    let mut read = 0usize;
    for row in CASES.split('~') {
        if row.len() > 1 {
            check_row(&rt, row)?;
            read = read.saturating_add(1);
        }
    }
    all_read(&rt, read, 58);
    Ok(())
}

#[test]
fn bytes_that_are_no_letters(rt: HostRuntime) -> Result<(), Fail> {
    check(&rt, b"// \xff\0 */ /*\n+", "+ Plus 2:1, end 2:2")?;
    check(&rt, b"/*\xff\0\n\"'$*/;", "; Semicolon 2:6, end 2:7")?;
    check(&rt, b"/* */ /*\xff", "refused OpenComment at 1:7")?;
    check(&rt, b"\x80", "refused BadByte at 1:1")?;
    check(&rt, b"a\0", "refused BadByte at 1:2")?;
    check(&rt, b"a\x0b", "refused BadByte at 1:2")
}

// What is said of a token: its kind, and the rule that it breaks.
fn kind_in(alloc: Global, tokens: &Tokens, i: usize) -> Result<String, AllocError>
    requires { i < length tokens.now.tokens }
{
    let rule = tokens.word(i).unsupported_rule();
    format!(in alloc; "{:?} {rule:?}", tokens.kind(i))
}

// Compares what is said of a token.
fn check_word(
    rt: &(impl Abort + AllocGlobal),
    tokens: &Tokens,
    i: usize,
    said: &str,
) -> Result<(), Fail>
    requires { i < length tokens.now.tokens }
{
    let found = kind_in(rt.alloc(), tokens, i)?;
    same(rt, found.as_str(), said, "kinds");
    Ok(())
}

// Whether each of so many words of a text has a kind and breaks a rule.
fn check_words(
    rt: &(impl Abort + AllocGlobal),
    text: &[u8],
    count: usize,
    said: &str,
) -> Result<(), Fail> {
    let tokens = tokens_of(rt.alloc(), text)?;
    all_read(rt, tokens.len(), count);
    for i in 0..tokens.len() {
        check_word(rt, &tokens, i, said)?;
    }
    Ok(())
}

// The same of a row.
fn check_kind(rt: &(impl Abort + AllocGlobal), row: &str) -> Result<(), Fail> {
    let (front, words) = parts_of(row)?;
    let (count, said) = sides(front, " ")?;
    check_words(rt, words.as_bytes(), number_of(count)?, said)
}

#[test]
fn words_have_their_kinds(rt: HostRuntime) -> Result<(), Fail> {
    let mut read = 0usize;
    for row in KINDS.lines() {
        if is_row(row) {
            check_kind(&rt, row)?;
            read = read.saturating_add(1);
        }
    }
    all_read(&rt, read, 11);
    Ok(())
}

#[test]
fn other_kinds(rt: HostRuntime) -> Result<(), Fail> {
    check_words(&rt, b"7", 1, "Number None")?;
    check_words(&rt, b"1.5", 1, "Real Some(U8)")?;
    check_words(&rt, b"+=", 1, "Symbol None")?;
    check(
        &rt,
        b"7 1.5 +=",
        "7 Number 1:1, 1.5 Real 1:3, += PlusAssign 1:7, end 1:9",
    )
}

// The number of a text that is one number.
fn number_in(rt: &(impl Abort + AllocGlobal), text: &[u8]) -> Result<u64, Fail> {
    let tokens = tokens_of(rt.alloc(), text)?;
    assert!(rt; tokens.len() == 1);
    assert!(rt; tokens.word(0) == Word::Number);
    Ok(tokens.number(0))
}

// Compares the number of a text.
fn check_number(rt: &(impl Abort + AllocGlobal), text: &[u8], want: u64) -> Result<(), Fail> {
    let number = number_in(rt, text)?;
    assert_eq!(rt; number, want);
    Ok(())
}

#[test]
fn numbers_have_their_values(rt: HostRuntime) -> Result<(), Fail> {
    check_number(&rt, b"0", 0)?;
    check_number(&rt, b" 0070 ", 70)?;
    check_number(&rt, b"9223372036854775807", 9_223_372_036_854_775_807)
}

// How the scanning of a text ends: at its end or with a refusal.
fn ending(alloc: Global, text: &[u8]) -> Result<Place, Stop> {
    Ok(tokens_of(alloc, text)?.end())
}

// A text of one repeated piece.
fn repeated(alloc: Global, piece: &[u8], times: usize, last: &[u8]) -> Result<Vec<u8>, AllocError> {
    let mut text = Vec::new(alloc);
    for _ in 0..times {
        text.extend_from_slice(piece)?;
    }
    text.extend_from_slice(last)?;
    Ok(text)
}

// How the scanning of a text of one repeated piece ends, written out.
fn ending_of(alloc: Global, piece: &[u8], times: usize, last: &[u8]) -> Result<String, AllocError> {
    let text = repeated(alloc, piece, times, last)?;
    let ending = ending(alloc, text.as_slice());
    format!(in alloc; "{ending:?}")
}

// Compares how the scanning of a text of one repeated piece ends.
fn check_ending(
    rt: &(impl Abort + AllocGlobal),
    piece: &[u8],
    times: usize,
    last: &[u8],
    want: &str,
) -> Result<(), Fail> {
    let found = ending_of(rt.alloc(), piece, times, last)?;
    same(rt, found.as_str(), want, "endings");
    Ok(())
}

#[test]
fn texts_have_a_limit(rt: HostRuntime) -> Result<(), Fail> {
    check_ending(
        &rt,
        b"a",
        1_048_576,
        b"",
        "Ok(Place { line: 1, col: 1048577 })",
    )
}

#[test]
fn texts_beyond_it_are_refused(rt: HostRuntime) -> Result<(), Fail> {
    check_ending(
        &rt,
        b"a",
        1_048_576,
        b";",
        "Err(Refused(Refusal { rule: TextTooLong, place: Place { line: 1, col: 1048577 } }))",
    )
}

#[test]
fn texts_of_lines_beyond_it_are_refused(rt: HostRuntime) -> Result<(), Fail> {
    check_ending(
        &rt,
        b"#\n",
        524_288,
        b" ",
        "Err(Refused(Refusal { rule: TextTooLong, place: Place { line: 524289, col: 1 } }))",
    )
}

#[test]
fn texts_of_tokens_have_a_limit(rt: HostRuntime) -> Result<(), Fail> {
    check_ending(
        &rt,
        b"a;\n",
        349_525,
        b"b",
        "Ok(Place { line: 349526, col: 2 })",
    )
}

#[test]
fn texts_of_tokens_beyond_it_are_refused(rt: HostRuntime) -> Result<(), Fail> {
    check_ending(
        &rt,
        b"a;\n",
        349_525,
        b"bcd",
        "Err(Refused(Refusal { rule: TextTooLong, place: Place { line: 349526, col: 2 } }))",
    )
}
