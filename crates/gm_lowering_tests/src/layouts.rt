//! Where the variables of programs lie, worked out by hand.

use gm_ast::tree::{Declaration, Sort, Tree, Variable};
use gm_base::NoMemory;
use gm_canon::verdict;
use gm_layouts::{Layout, column_types, field_types, global_types, register_types};
use gm_value::VType;
use std::alloc::{AllocError, Global};
use std::str;
use std::test::Fail;

// Properties that are given and a declared one that is named have fields, another one has none. The loops of the master
// list stand two deep, and a pair of scalars is reduced to there: three spare positions.
const PHASES: &[u8] =
    b"Procedure p(G: Graph, v: N_P<Int>, w: E_P<Int>, u: E_P<Bool>, s: Node; a: N_P<Bool>, x: Int, y: Long) : Node {
N_P<Long> b; N_P<Node> c; N_P<Int> d; Bool q;
While (x < 3) { For (m: G.Nodes) { Do { x += 1; <x; y> min= <2; 3>; m.c = s; } While (q); } }
Foreach (n: G.Nodes) { Long i = y; n.b += i; Foreach (t: n.Nbrs) { Int k = t.v; n.b += k; } }
Return s;
}";

const PHASES_LIE: &str =
    "G -, v field 0, w column 0, u column 1, s global 0, a field 1, x global 1, y global 2, b field 2, c field 3, d -, q global 3, m global 4, n -, i register 0, t -, k register 1, result 5 counter 6 flag 7 counter 8 flag 9; globals NILBNNLBLBILBNILBNILBN; registers LI; fields IBLN; columns IB";

// A type's letter.
fn letter(vtype: VType) -> char {
    match vtype {
        VType::I32 => 'I',
        VType::I64 => 'L',
        VType::Flag => 'B',
        VType::Node => 'N',
    }
}

// The letters of types.
fn letters(alloc: Global, types: &[VType]) -> Result<String, AllocError> {
    let mut said = String::new(alloc);
    for vtype in types {
        said.push(letter(*vtype))?;
    }
    Ok(said)
}

// Where a node property lies.
fn field_said(alloc: Global, layout: &Layout<'_>, variable: u32) -> Result<String, NoMemory> {
    if !layout.is_kept(variable) {
        return Ok(String::from_str(alloc, "-")?);
    }
    let number = layout.field(variable)?;
    Ok(format!(in alloc; "field {number}")?)
}

// Where a scalar or a node lies.
fn scalar_said(
    alloc: Global,
    layout: &Layout<'_>,
    variable: u32,
    depth: u32,
) -> Result<String, NoMemory> {
    if depth == 0 {
        let number = layout.global(variable)?;
        return Ok(format!(in alloc; "global {number}")?);
    }
    let number = layout.register(variable)?;
    Ok(format!(in alloc; "register {number}")?)
}

// Where a variable lies. Iterators of parallel loops lie nowhere.
fn said_of(
    alloc: Global,
    layout: &Layout<'_>,
    variable: u32,
    what: Variable,
) -> Result<String, NoMemory> {
    match what.sort {
        Sort::NodeProperty => field_said(alloc, layout, variable),
        Sort::EdgeProperty => {
            let number = layout.column(variable)?;
            Ok(format!(in alloc; "column {number}")?)
        }
        Sort::Scalar => scalar_said(alloc, layout, variable, what.depth),
        Sort::Iterator if what.depth == 0 => scalar_said(alloc, layout, variable, 0),
        _ => Ok(String::from_str(alloc, "-")?),
    }
}

// The letters of a variable's name.
fn name_of(declaration: &Declaration) -> &str {
    str::from_utf8(declaration.name.as_slice()).unwrap_or("?")
}

// Where all variables lie.
fn variables_said(alloc: Global, layout: &Layout<'_>) -> Result<String, NoMemory> {
    let mut said = String::new(alloc);
    let mut variable = 0;
    for declaration in layout.declarations() {
        let place = said_of(alloc, layout, variable, declaration.variable)?;
        let row = format!(in alloc; "{} {place}, ", name_of(declaration))?;
        said.push_str(&row)?;
        variable = variable.saturating_add(1);
    }
    Ok(said)
}

// Where the result and what two loops need lie.
fn loops_said(alloc: Global, layout: &Layout<'_>) -> Result<String, NoMemory> {
    let result = layout.result();
    let counter = layout.counter(0)?;
    let flag = layout.flag(0)?;
    let inner_counter = layout.counter(1)?;
    let inner_flag = layout.flag(1)?;
    Ok(format!(in alloc;
        "result {result} counter {counter} flag {flag} counter {inner_counter} flag {inner_flag}"
    )?)
}

// The types of what an image has.
fn types_said(alloc: Global, tree: &Tree) -> Result<String, NoMemory> {
    let globals = letters(alloc, &global_types(alloc, tree)?)?;
    let registers = letters(alloc, &register_types(alloc, tree)?)?;
    let fields = letters(alloc, &field_types(alloc, tree)?)?;
    let columns = letters(alloc, &column_types(alloc, tree)?)?;
    Ok(format!(in alloc;
        "globals {globals}; registers {registers}; fields {fields}; columns {columns}"
    )?)
}

// What a program's layout says.
fn layout_said(alloc: Global, tree: &Tree) -> Result<String, NoMemory> {
    let layout = Layout::new(alloc, tree)?;
    let variables = variables_said(alloc, &layout)?;
    let loops = loops_said(alloc, &layout)?;
    let types = types_said(alloc, tree)?;
    Ok(format!(in alloc; "{variables}{loops}; {types}")?)
}

// What the layout of a text's program says.
fn said_of_text(alloc: Global, text: &[u8]) -> Result<String, Fail> {
    let checked = verdict(alloc, text)?;
    Ok(layout_said(alloc, checked.tree())?)
}

#[test]
fn variables_lie_by_their_ranks(rt: HostRuntime) -> Result<(), Fail> {
    let said = said_of_text(rt.alloc(), PHASES)?;
    assert_eq!(rt; said.as_str(), PHASES_LIE);
    Ok(())
}
