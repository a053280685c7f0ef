//! Where variables lie.

ghost use Rattle.std.specs.Prelude.{◌≡◌, ◌+◌, ◌*◌, ◌++◌, IfOk, OnOk};
ghost use Rattle.gm_ast.specs.Tree.{program_of, stmt_of};
ghost use Rattle.gm_lowering.specs.Layouts as Layouts;
ghost use Rattle.gm_layouts.specs.Where.{where_of};
ghost use Rattle.gm_layouts.specs.Counted.{IsCounted};
ghost use Rattle.gm_layouts.specs.Named as Named;
ghost use Rattle.gm_layouts.specs.Named.{mark_at, none_of};
ghost use Rattle.gm_layouts.specs.Tables as Tables;
ghost use Rattle.gm_layouts.specs.Tables.{rows_from};
ghost use Rattle.gm_layouts.specs.Tests as Tests;

use crate::names::add_names;
use crate::sizes::{body_positions, nesting, next, phase_positions, small};
use gm_ast::tree::{Declaration, Sort, Tree, Variable};
use gm_base::NoMemory;
use gm_message::{is_global, is_register};
use gm_value::VType;
use std::alloc::Global;
use std::marker::Model;

// A variable's type, and whether it is held by what a table is of.
#[derive(Clone, Copy)]
pub(crate) struct Row {
    vtype: VType,
    is_held: bool,
}

// What holds variables, apart from fields.
#[derive(Clone, Copy)]
pub(crate) enum Room {
    Globals,
    Registers,
    Columns,
}

/// Where the variables of a program lie, each number looked up in a table. Contracts see it as the program's tree.
#[derive(Drop)]
pub struct Layout<'a> {
    tree: &'a Tree,
    globals: Vec<u32>,
    registers: Vec<u32>,
    columns: Vec<u32>,
    fields: Vec<u32>,
    kept: Vec<Row>,
    result: u32,
    loops: u32,
    spare_globals: u32,
    spare_registers: u32,
}

impl<'a> Model for Layout<'a> {
    ghost use Rattle.std.specs.Coded.{codes};
    ghost use Rattle.gm_ast.specs.declared.tree.Tree.{Tree};
    ghost use Rattle.gm_ast.specs.contracts.tree.Stmt as stmt;
    ghost use Rattle.gm_layouts.specs.Fits.{Fits};

    ghost Value = { Tree };

    ghost coded = { Prim.hlevel (codes, stmt.the_row.coded) };

    ghost view = { λ l. l.tree.now };

    ghost invariant = { Fits };
}

// Whether a room holds a variable.
fn holds(room: Room, variable: Variable) -> bool
    ensures { result ≡ Tests.holds room variable }
{
    match room {
        Room::Globals => is_global(variable),
        Room::Registers => is_register(variable),
        Room::Columns => matches!(variable.sort, Sort::EdgeProperty),
    }
}

// Of each variable, whether a room holds it.
fn rows_of(alloc: Global, declarations: &[Declaration], room: Room) -> Result<Vec<Row>, NoMemory>
    ensures { IfOk result (λ r. r.items ≡ rows_from (Tests.in_room room) 0 declarations.now) }
{
    let mut rows = Vec::new(alloc);
    for declaration in declarations {
        let variable = declaration.variable;
        rows.push(Row {
            vtype: variable.vtype,
            is_held: holds(room, variable),
        })?;
    }
    Ok(rows)
}

// No marks.
fn unmarked(alloc: Global, declarations: &[Declaration]) -> Result<Vec<bool>, NoMemory>
    ensures { IfOk result (λ r. r.items ≡ none_of declarations.now) }
{
    let mut marks = Vec::new(alloc);
    for _declaration in declarations {
        marks.push(false)?;
    }
    Ok(marks)
}

// Whether a variable is marked.
fn is_marked(marks: &[bool], index: usize) -> bool
    ensures { result ≡ mark_at marks.now index }
{
    match marks.get(index) {
        None => false,
        Some(mark) => *mark,
    }
}

// Whether a variable has a field, by marks of what is named and how many are inputs and outputs.
fn has_field(marks: &[bool], given: u64, index: usize, variable: Variable) -> bool
    ensures { result ≡ Tests.has_field marks.now given index variable }
{
    match variable.sort {
        Sort::NodeProperty => (index as u64) < given || is_marked(marks, index),
        _ => false,
    }
}

// Of each variable, whether it has a field, by marks of what is named and how many are inputs and outputs.
fn fields_of(
    alloc: Global,
    declarations: &[Declaration],
    given: u64,
    marks: &[bool],
) -> Result<Vec<Row>, NoMemory>
    ensures { IfOk result (λ r. r.items ≡ rows_from (Tests.has_field marks.now given) 0 declarations.now) }
{
    let mut rows = Vec::new(alloc);
    let mut index = 0;
    for declaration in declarations {
        let variable = declaration.variable;
        rows.push(Row {
            vtype: variable.vtype,
            is_held: has_field(marks, given, index, variable),
        })?;
        index += 1;
    }
    Ok(rows)
}

// Marks a variable.
#[tactic(auto, using(crate::proofs::Fields::set_is, crate::proofs::Fields::set_past))]
fn mark(variable: u32, marks: &mut Vec<bool>)
    ensures { marks.new.items ≡ Named.set_at marks.old.items variable }
{
    let index = variable as usize;
    if index < marks.len() {
        marks[index] = true;
    }
}

// Marks variables.
fn mark_all(names: &[u32], marks: &mut Vec<bool>)
    ensures { marks.new.items ≡ Named.marked marks.old.items names.now }
{
    for name in names {
        mark(*name, marks);
    }
}

// Marks of the node properties that a program names.
fn named(alloc: Global, tree: &Tree) -> Result<Vec<bool>, NoMemory>
    ensures { IfOk result (λ r. r.items ≡ Named.marked (none_of tree.now.declarations.items) (Named.names_of (stmt_of tree.now.body))) }
{
    let mut names = Vec::new(alloc);
    add_names(&tree.body, &mut names)?;
    let mut marks = unmarked(alloc, &tree.declarations)?;
    mark_all(&names, &mut marks);
    Ok(marks)
}

// Of each variable of a program, whether it has a field.
#[tactic(auto, using(crate::proofs::Fields::fields_are))]
fn program_fields(alloc: Global, tree: &Tree) -> Result<Vec<Row>, NoMemory>
    ensures { IfOk result (λ r. r.items ≡ rows_from (Tests.field_of (program_of tree.now)) 0 tree.now.declarations.items) }
{
    let marks = named(alloc, tree)?;
    let given = tree.inputs as u64 + tree.outputs as u64;
    fields_of(alloc, &tree.declarations, given, &marks)
}

// The numbers of variables, each the number of held ones before it; the last is how many are held.
fn numbers(alloc: Global, rows: &[Row]) -> Result<Vec<u32>, NoMemory>
    ensures { IfOk result (λ r. r.items ≡ Tables.numbers 0 rows.now) }
{
    let mut table = Vec::new(alloc);
    let mut count = 0;
    for row in rows {
        table.push(count)?;
        if row.is_held {
            count = next(count)?;
        }
    }
    table.push(count)?;
    Ok(table)
}

// Whether a variable is held.
fn is_held(rows: &[Row], variable: u32) -> bool
    ensures { result ≡ Tables.held_at rows.now variable }
{
    match rows.get(variable as usize) {
        None => false,
        Some(row) => row.is_held,
    }
}

// The types of what is held.
fn held_types(alloc: Global, rows: &[Row]) -> Result<Vec<VType>, NoMemory>
    ensures { IfOk result (λ r. r.items ≡ Tables.held_types rows.now) }
{
    let mut types = Vec::new(alloc);
    for row in rows {
        if row.is_held {
            types.push(row.vtype)?;
        }
    }
    Ok(types)
}

// A variable's number in a table. Of variables behind the table all are held, or none.
#[tactic(auto, using(crate::proofs::Tables::number_at_0, crate::proofs::Tables::number_past_0))]
fn number_in(table: &[u32], beyond: bool, variable: u32) -> Result<u32, NoMemory>
    ensures { IfOk result (λ r. r ≡ Tables.number_in beyond table.now variable) }
{
    let index = variable as usize;
    let count = table.len();
    if index < count {
        return Ok(table[index]);
    }
    if count == 0 {
        return Ok(0);
    }
    let last = table[count - 1];
    if !beyond {
        return Ok(last);
    }
    let past = small(index - (count - 1))?;
    match last.checked_add(past) {
        Some(number) => Ok(number),
        None => Err(NoMemory),
    }
}

// The types of the variables that a room holds.
#[tactic(auto, using(crate::proofs::Tables::rooms_held))]
fn types_in(alloc: Global, tree: &Tree, room: Room) -> Result<Vec<VType>, NoMemory>
    ensures { IfOk result (λ r. r.items ≡ Tests.types_in (program_of tree.now) room) }
{
    let rows = rows_of(alloc, &tree.declarations, room)?;
    held_types(alloc, &rows)
}

// The numbers of variables in a room.
fn numbers_in(alloc: Global, declarations: &[Declaration], room: Room) -> Result<Vec<u32>, NoMemory>
    ensures { IfOk result (λ r. r.items ≡ Tables.numbers 0 (rows_from (Tests.in_room room) 0 declarations.now)) }
{
    let rows = rows_of(alloc, declarations, room)?;
    numbers(alloc, &rows)
}

// Adds a result's type, if there is one.
fn add_result(returned: Option<VType>, types: &mut Vec<VType>) -> Result<(), NoMemory>
    ensures { OnOk result (types.new.items ≡ types.old.items ++ Layouts.optional returned) }
{
    match returned {
        None => {}
        Some(vtype) => types.push(vtype)?,
    }
    Ok(())
}

// Adds the types of counters and flags.
fn add_loops(count: u32, types: &mut Vec<VType>) -> Result<(), NoMemory>
    ensures { OnOk result (types.new.items ≡ types.old.items ++ Layouts.loop_types count) }
{
    let mut left = count;
    while left > 0 {
        types.push(VType::I64)?;
        types.push(VType::Flag)?;
        left -= 1;
    }
    Ok(())
}

// Adds the types of spare slots.
fn add_spares(count: u32, types: &mut Vec<VType>) -> Result<(), NoMemory>
    ensures { OnOk result (types.new.items ≡ types.old.items ++ Layouts.spare_types count) }
{
    let mut left = count;
    while left > 0 {
        types.push(VType::I32)?;
        types.push(VType::I64)?;
        types.push(VType::Flag)?;
        types.push(VType::Node)?;
        left -= 1;
    }
    Ok(())
}

// The globals before the spare ones: their types, the number of the result's, and the number of the first of the loops'.
#[derive(Drop)]
struct Counted {
    types: Vec<VType>,
    result: u32,
    loops: u32,
}

// The globals before the spare ones.
fn counted_globals(alloc: Global, tree: &Tree) -> Result<Counted, NoMemory>
    ensures { IfOk result (λ r. IsCounted r (program_of tree.now)) }
{
    let mut types = types_in(alloc, tree, Room::Globals)?;
    let result = small(types.len())?;
    add_result(tree.result, &mut types)?;
    let loops = small(types.len())?;
    let count = nesting(&tree.body)?;
    add_loops(count, &mut types)?;
    Ok(Counted {
        types,
        result,
        loops,
    })
}

/// The types of an image's globals.
pub fn global_types(alloc: Global, tree: &Tree) -> Result<Vec<VType>, NoMemory>
    ensures { IfOk result (λ r. r.items ≡ Layouts.global_types (program_of tree.now)) }
{
    let counted = counted_globals(alloc, tree)?;
    let mut types = counted.types;
    let count = phase_positions(&tree.declarations, &tree.body)?;
    add_spares(count, &mut types)?;
    Ok(types)
}

/// The types of its registers.
pub fn register_types(alloc: Global, tree: &Tree) -> Result<Vec<VType>, NoMemory>
    ensures { IfOk result (λ r. r.items ≡ Layouts.register_types (program_of tree.now)) }
{
    let mut types = types_in(alloc, tree, Room::Registers)?;
    let count = body_positions(&tree.declarations, &tree.body)?;
    add_spares(count, &mut types)?;
    Ok(types)
}

/// The types of its columns.
pub fn column_types(alloc: Global, tree: &Tree) -> Result<Vec<VType>, NoMemory>
    ensures { IfOk result (λ r. r.items ≡ Layouts.column_types (program_of tree.now)) }
{
    types_in(alloc, tree, Room::Columns)
}

/// The types of its fields.
#[tactic(auto, using(crate::proofs::Tables::fields_held))]
pub fn field_types(alloc: Global, tree: &Tree) -> Result<Vec<VType>, NoMemory>
    ensures { IfOk result (λ r. r.items ≡ Layouts.field_types (program_of tree.now)) }
{
    let rows = program_fields(alloc, tree)?;
    held_types(alloc, &rows)
}

impl<'a> Layout<'a> {
    /// The layout of a program, in time linear in its tree.
    pub fn new(alloc: Global, tree: &'a Tree) -> Result<Layout<'a>, NoMemory>
        ensures { IfOk result (λ r. r ≡ tree.now) }
    {
        let globals = numbers_in(alloc, &tree.declarations, Room::Globals)?;
        let registers = numbers_in(alloc, &tree.declarations, Room::Registers)?;
        let columns = numbers_in(alloc, &tree.declarations, Room::Columns)?;
        let kept = program_fields(alloc, tree)?;
        let fields = numbers(alloc, &kept)?;
        let counted = counted_globals(alloc, tree)?;
        let locals = types_in(alloc, tree, Room::Registers)?;
        let spare_globals = small(counted.types.len())?;
        let spare_registers = small(locals.len())?;
        Ok(Layout {
            tree,
            globals,
            registers,
            columns,
            fields,
            kept,
            result: counted.result,
            loops: counted.loops,
            spare_globals,
            spare_registers,
        })
    }

    /// The table of declarations.
    pub fn declarations(&self) -> &'a [Declaration]
        ensures { result.now ≡ (where_of self.now).declarations }
    {
        &self.tree.declarations
    }

    /// The number of a variable as a global.
    #[tactic(auto, using(crate::proofs::Tables::global_number))]
    pub fn global(&self, variable: u32) -> Result<u32, NoMemory>
        ensures { IfOk result (λ r. r ≡ (where_of self.now).global variable) }
    {
        number_in(&self.globals, true, variable)
    }

    /// The number of a variable as a register.
    #[tactic(auto, using(crate::proofs::Tables::register_number))]
    pub fn register(&self, variable: u32) -> Result<u32, NoMemory>
        ensures { IfOk result (λ r. r ≡ (where_of self.now).register variable) }
    {
        number_in(&self.registers, false, variable)
    }

    /// The number of a variable as a field.
    #[tactic(auto, using(crate::proofs::Tables::field_number))]
    pub fn field(&self, variable: u32) -> Result<u32, NoMemory>
        ensures { IfOk result (λ r. r ≡ (where_of self.now).field variable) }
    {
        number_in(&self.fields, false, variable)
    }

    /// The number of a variable as a column.
    #[tactic(auto, using(crate::proofs::Tables::column_number))]
    pub fn column(&self, variable: u32) -> Result<u32, NoMemory>
        ensures { IfOk result (λ r. r ≡ (where_of self.now).column variable) }
    {
        number_in(&self.columns, false, variable)
    }

    /// Whether a variable is a node property with a field.
    #[tactic(auto, using(crate::proofs::Tables::kept_at))]
    pub fn is_kept(&self, variable: u32) -> bool
        ensures { result ≡ (where_of self.now).is_kept variable }
    {
        is_held(&self.kept, variable)
    }

    /// The number of the result's global.
    pub fn result(&self) -> u32
        ensures { result ≡ (where_of self.now).result }
    {
        self.result
    }

    /// The number of the counter of a loop of the master list, by how many such loops are around it.
    pub fn counter(&self, depth: u32) -> Result<u32, NoMemory>
        ensures { IfOk result (λ r. r ≡ (where_of self.now).counter depth) }
    {
        number_of(self.loops, depth, 2, 0)
    }

    /// The number of its flag.
    pub fn flag(&self, depth: u32) -> Result<u32, NoMemory>
        ensures { IfOk result (λ r. r ≡ (where_of self.now).flag depth) }
    {
        number_of(self.loops, depth, 2, 1)
    }

    /// The number of a spare global, by position and type.
    pub fn spare_global(&self, position: u32, vtype: VType) -> Result<u32, NoMemory>
        ensures { IfOk result (λ r. r ≡ (where_of self.now).spare_global position vtype) }
    {
        number_of(self.spare_globals, position, 4, type_number(vtype))
    }

    /// The number of a spare register, by position and type.
    pub fn spare_register(&self, position: u32, vtype: VType) -> Result<u32, NoMemory>
        ensures { IfOk result (λ r. r ≡ (where_of self.now).spare_register position vtype) }
    {
        number_of(self.spare_registers, position, 4, type_number(vtype))
    }
}

// A type's number among the types.
fn type_number(vtype: VType) -> u32
    ensures { result ≡ Layouts.type_number vtype }
{
    match vtype {
        VType::I32 => 0,
        VType::I64 => 1,
        VType::Flag => 2,
        VType::Node => 3,
    }
}

// A number in a row of groups of some size, by where the row begins, the group, and the number within it.
fn number_of(first: u32, group: u32, size: u32, within: u32) -> Result<u32, NoMemory>
    ensures { IfOk result (λ r. r ≡ first + size * group + within) }
{
    let Some(before) = size.checked_mul(group) else {
        return Err(NoMemory);
    };
    let Some(start) = first.checked_add(before) else {
        return Err(NoMemory);
    };
    match start.checked_add(within) {
        Some(number) => Ok(number),
        None => Err(NoMemory),
    }
}
