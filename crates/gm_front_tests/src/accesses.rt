//! The accesses of loops, in their order: place, loop and inner loop, variable, kind. Each row has the statements of a
//! procedure, and its accesses, worked out by hand from the rules in `docs/LANGUAGE.md`.

use crate::races::HEAD;
use crate::rows::{all_read, is_row, parts_of, same};
use crate::types::program_of;
use gm_ast::accesses::{Access, AccessKind, Operation};
use gm_ast::forms::Typed;
use gm_ast::tree::Declaration;
use gm_base::Stop;
use gm_race::accesses;
use std::alloc::{AllocError, Global};
use std::process::Abort;
use std::str;
use std::test::Fail;

const ACCESSES: &str = "
Foreach (n: G.Nodes) { n.p = n.v + a; } => 2:24 1.0 p OwnWrite; 2:30 1.0 v OwnRead; 2:36 1.0 a OwnRead
Foreach (n: G.Nodes) (n.r) { Foreach (t: n.Nbrs) (t.r) { n.p += t.v; t.q max= n.v; } } => 2:23 1.0 r OwnRead; 2:51 1.2 r OtherRead; 2:58 1.2 p OwnReduce(Sum p); 2:65 1.2 v OtherRead; 2:70 1.2 q PushReduce(Max q); 2:79 1.2 v OwnRead
Foreach (n: G.Nodes) { Int k = 0; Foreach (t: n.Nbrs) { k += t.v; } Foreach (u: n.InNbrs) { n.p += k; } n.q = k; } => 2:57 2.2 k PushReduce(Sum k); 2:62 1.2 v OtherRead; 2:93 1.3 p OwnReduce(Sum p); 2:100 3.3 k OwnRead; 2:105 1.0 q OwnWrite
Foreach (n: G.Nodes) { n.p += 1; n.q++; n.r ||= c; } => 2:24 1.0 p OwnRead; 2:24 1.0 p OwnWrite; 2:34 1.0 q OwnRead; 2:34 1.0 q OwnWrite; 2:41 1.0 r OwnRead; 2:41 1.0 r OwnWrite; 2:49 1.0 c OwnRead
Foreach (n: G.Nodes) { n.p <= n.q @ n; s.q <= b == 1 ? 1 : 2; } => 2:24 1.0 p Deferred; 2:31 1.0 q OwnRead; 2:40 1.0 s OwnRead; 2:40 1.0 q StrayWrite; 2:40 1.0 q Deferred; 2:47 1.0 b OwnRead
InBFS (n: G.Nodes From s) (n.r) { n.p = Sum(t: n.UpNbrs) {t.q}; } InReverse (n.r) { a += Sum(t: n.DownNbrs) {t.p}; } => 2:28 1.0 r OwnRead; 2:35 1.0 p OwnWrite; 2:59 1.2 q LevelRead; 2:78 3.0 r OwnRead; 2:85 3.0 a PushReduce(Sum a); 2:110 3.4 p LevelRead
G.p = G.q + a; => 2:1 1.0 p OwnWrite; 2:7 1.0 q OwnRead; 2:13 1.0 a OwnRead
s.p = s.v; a += 1; If (c) { Return a; } => 
Foreach (n: G.Nodes) { Foreach (t: n.Nbrs) { n.p += Sum(u: t.Nbrs) {u.v + t.v}; } } => 2:46 1.2 p OwnReduce(Sum p); 2:69 1.2 v OtherRead; 2:75 1.2 v OtherRead
Foreach (n: G.Nodes) { Foreach (t: s.Nbrs) { s.p min= t.v; } } => 2:36 1.0 s OwnRead; 2:46 1.2 s OwnRead; 2:46 1.2 p PushReduce(Min p); 2:55 1.2 v OtherRead
Foreach (n: G.Nodes) { For (t: n.Nbrs) { n.p *= t.v; } } => 2:42 1.0 p OwnRead; 2:42 1.0 p OwnWrite
Foreach (n: G.Nodes) { Foreach (t: n.Nbrs) { t.p = 1; a = b > 1 ? 1 : 2; } } => 2:46 1.2 p StrayWrite; 2:55 1.2 a StrayWrite; 2:59 1.2 b OwnRead
Foreach (n: G.Nodes) { n.p = 1; } a = Sum(m: G.Nodes) (m.r) {m.p}; => 2:24 1.0 p OwnWrite; 2:56 2.0 r OwnRead; 2:62 2.0 p OwnRead
Foreach (n: G.Nodes) { Foreach (t: n.Nbrs) { Edge e = t.ToEdge(); n.p += e.w + n.Degree() + t.InDegree() + G.NumNodes(); } } => 2:67 1.2 p OwnReduce(Sum p)
Foreach (n: G.Nodes) { Int k = 0; k = k + 1; If (k > 1) { k += 1; } n.p = k; s = n; } => 2:69 1.0 p OwnWrite; 2:78 1.0 s StrayWrite
Foreach (n: G.Nodes) { While (c) { n.r &&= c; } Do { } While (a > 1); c &= True; } => 2:31 1.0 c OwnRead; 2:36 1.0 r OwnRead; 2:36 1.0 r OwnWrite; 2:44 1.0 c OwnRead; 2:63 1.0 a OwnRead; 2:71 1.0 c PushReduce(And c)
";

// Writes an access, behind a mark where it is not the first.
fn put_access(
    alloc: Global,
    said: &mut String,
    declarations: &[Declaration],
    access: &Access,
) -> Result<(), AllocError> {
    if !said.is_empty() {
        said.push_str("; ")?;
    }
    said.push_str(said_of(alloc, declarations, access)?.as_str())
}

// Accesses, in their order.
fn all_said(
    alloc: Global,
    declarations: &[Declaration],
    accesses: &[Access],
) -> Result<String, AllocError> {
    let mut said = String::new(alloc);
    for access in accesses {
        put_access(alloc, &mut said, declarations, access)?;
    }
    Ok(said)
}

// The accesses of a program, by a call that promises nothing.
fn listed(alloc: Global, program: &Typed) -> Result<Vec<Access>, AllocError> {
    accesses(alloc, program)
}

// The accesses of a program, in their order.
fn said_of_program(alloc: Global, program: &Typed) -> Result<String, AllocError> {
    let accesses = listed(alloc, program)?;
    all_said(alloc, &program.tree().declarations, &accesses)
}

// The accesses of the program of a text, in their order.
fn said_of_text(alloc: Global, text: &[u8]) -> Result<String, Stop> {
    let program = program_of(alloc, text)?;
    Ok(said_of_program(alloc, &program)?)
}

// The accesses of a procedure with these statements, in their order.
fn accesses_of(alloc: Global, statements: &str) -> Result<String, Fail> {
    let text = format!(in alloc; "{HEAD}\n{statements}\n}}")?;
    Ok(said_of_text(alloc, text.as_str().as_bytes())?)
}

// The letters of a variable's name.
fn name_of(declarations: &[Declaration], variable: u32) -> &str {
    match declarations.get(variable as usize) {
        Some(declaration) => str::from_utf8(declaration.name.as_slice()).unwrap_or("?"),
        None => "?",
    }
}

// Writes the names of variables, each behind a space.
fn put_names(
    said: &mut String,
    declarations: &[Declaration],
    variables: &[u32],
) -> Result<(), AllocError> {
    for variable in variables {
        said.push_str(" ")?;
        said.push_str(name_of(declarations, *variable))?;
    }
    Ok(())
}

// A reduction's word, and the names of the variables that it reduces to.
fn operation_of(
    alloc: Global,
    declarations: &[Declaration],
    word: &str,
    operation: &Operation,
) -> Result<String, AllocError> {
    let mut said = format!(in alloc; "{word}({:?}", operation.reduce)?;
    put_names(&mut said, declarations, operation.targets.as_slice())?;
    said.push_str(")")?;
    Ok(said)
}

// The word of a kind of access.
fn word_of(kind: &AccessKind) -> &'static str {
    match kind {
        AccessKind::OwnRead => "OwnRead",
        AccessKind::OtherRead => "OtherRead",
        AccessKind::LevelRead => "LevelRead",
        AccessKind::OwnWrite => "OwnWrite",
        AccessKind::StrayWrite => "StrayWrite",
        AccessKind::Deferred => "Deferred",
        AccessKind::OwnReduce(_) => "OwnReduce",
        AccessKind::PushReduce(_) => "PushReduce",
    }
}

// A kind of access.
fn kind_of(
    alloc: Global,
    declarations: &[Declaration],
    kind: &AccessKind,
) -> Result<String, AllocError> {
    let word = word_of(kind);
    match kind {
        AccessKind::OwnReduce(operation) => operation_of(alloc, declarations, word, operation),
        AccessKind::PushReduce(operation) => operation_of(alloc, declarations, word, operation),
        _ => String::from_str(alloc, word),
    }
}

// An access: its place, its loop and inner loop, its variable and its kind.
fn said_of(
    alloc: Global,
    declarations: &[Declaration],
    access: &Access,
) -> Result<String, AllocError> {
    let kind = kind_of(alloc, declarations, &access.kind)?;
    let name = name_of(declarations, access.variable);
    format!(in alloc;
        "{} {}.{} {name} {kind}",
        access.place, access.loop_id, access.inner_id
    )
}

// Compares the accesses of the loops of a row's statements.
fn listing_holds(rt: &(impl Abort + AllocGlobal), row: &str) -> Result<(), Fail> {
    let (statements, want) = parts_of(row)?;
    let said = accesses_of(rt.alloc(), statements)?;
    same(rt, said.as_str(), want, statements);
    Ok(())
}

/// Compares the accesses of so many rows.
pub(crate) fn listings_hold(
    rt: &(impl Abort + AllocGlobal),
    rows: &str,
    count: usize,
) -> Result<(), Fail> {
    let mut read = 0usize;
    for line in rows.lines() {
        if is_row(line) {
            listing_holds(rt, line)?;
            read = read.saturating_add(1);
        }
    }
    all_read(rt, read, count);
    Ok(())
}

#[test]
fn listings(rt: HostRuntime) -> Result<(), Fail> {
    listings_hold(&rt, ACCESSES, 16)
}
