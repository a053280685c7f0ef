//! A walk over a program that finds its accesses: reads, writes and reductions of one variable.

ghost use Rattle.std.specs.Prelude.{◌≡◌, ◌+◌, [], ◌++◌, map, flat_map, OnOk, option_map, if◌then◌else◌};
ghost use Rattle.gm_ast.specs.declared.accesses.AccessKind.TheVariants as Kinds;
ghost use Rattle.gm_ast.specs.Loops.{is_scalar, is_property, declared_at};
ghost use Rattle.gm_ast.specs.Accesses.{sequential, loops_outside, number_at, access, scalar_read, property_read, is_outer, read_over, inner_read, read_kind, write_kind, plain_write, deferred_write, own_reduction, reduced};
ghost use Rattle.gm_race.specs.Views.{kind_of, operation_of};
ghost use Rattle.gm_race.specs.Walks.{around_of, loops_around, loop_of, Finds, Enters, Leaves};

use crate::found::{Found, Kind, Loop, Reduction};
use gm_ast::tree::{Declaration, Domain, Sort, Target, Variable};
use gm_base::Place;
use std::alloc::{AllocError, Global};

// What is declared as a variable.
pub fn declared(declarations: &[Declaration], variable: u32) -> Option<Variable>
    ensures { result ≡ declared_at declarations.now variable }
{
    match declarations.get(variable as usize) {
        None => None,
        Some(declaration) => Some(declaration.variable),
    }
}

// Whether what is declared is a scalar.
fn is_scalar(variable: Option<Variable>) -> bool
    ensures { result ≡ is_scalar variable }
{
    match variable {
        None => false,
        Some(variable) => variable.sort == Sort::Scalar,
    }
}

// Whether what is declared is a property.
pub fn is_property(variable: Option<Variable>) -> bool
    ensures { result ≡ is_property variable }
{
    match variable {
        None => false,
        Some(variable) => {
            variable.sort == Sort::NodeProperty || variable.sort == Sort::EdgeProperty
        }
    }
}

// How many parallel loops are around the one in which a variable's accesses count.
fn loops_outside(variable: Option<Variable>) -> u32
    ensures { result ≡ loops_outside variable }
{
    if is_property(variable) {
        return 0;
    }
    match variable {
        None => 0,
        Some(variable) => variable.depth,
    }
}

// What a read through the iterator of an inner loop is, by its range.
fn read_over<'a>(domain: Domain) -> Option<Kind<'a>>
    ensures { option_map kind_of result ≡ read_over domain }
{
    match domain {
        Domain::Nodes => None,
        Domain::OutNbrs | Domain::InNbrs => Some(Kind::OtherRead),
        Domain::UpNbrs | Domain::DownNbrs => Some(Kind::LevelRead),
    }
}

// What a read of a property through a variable is, if that is the iterator of one of some inner loops.
fn inner_read<'a>(loops: &[Loop], variable: u32) -> Option<Kind<'a>>
    ensures { option_map kind_of result ≡ inner_read (map loop_of loops.now) variable }
{
    for inner in loops {
        if inner.iterator == variable {
            return read_over(inner.domain);
        }
    }
    None
}

// What a read of a property through a variable is, if that is the iterator of one of some loops.
fn read_kind<'a>(loops: &[Loop], variable: u32) -> Option<Kind<'a>>
    ensures { option_map kind_of result ≡ read_kind (map loop_of loops.now) variable }
{
    match loops {
        [] => None,
        [outer, inner @ ..] => {
            if outer.iterator == variable {
                return Some(Kind::OwnRead);
            }
            inner_read(inner, variable)
        }
    }
}

// Whether a variable is the iterator of the outermost of some loops.
fn is_outer(loops: &[Loop], variable: u32) -> bool
    ensures { result ≡ is_outer (map loop_of loops.now) variable }
{
    match loops {
        [] => false,
        [outer, ..] => outer.iterator == variable,
    }
}

// How a property is written through a variable.
fn write_kind<'a>(loops: &[Loop], variable: u32) -> Kind<'a>
    ensures { kind_of result ≡ write_kind (map loop_of loops.now) variable }
{
    if is_outer(loops, variable) {
        Kind::OwnWrite
    } else {
        Kind::StrayWrite
    }
}

// The number of the loop that has so many loops around it, 0 where there is none.
fn number_at(loops: &[Loop], outside: usize) -> u32
    ensures { result ≡ number_at (map loop_of loops.now) outside }
{
    match loops.get(outside) {
        None => 0,
        Some(found) => found.number,
    }
}

// What is declared, the parallel loops around the part that is walked over, the number of the next loop, and the
// accesses so far.
#[derive(Drop)]
pub struct Walker<'a> {
    pub declarations: &'a [Declaration],
    pub loops: Vec<Loop>,
    pub next: u32,
    pub found: Vec<Found<'a>>,
}

impl<'a> Walker<'a> {
    // A walk that has found nothing, in a sequential phase.
    pub fn new(alloc: Global, declarations: &'a [Declaration]) -> Walker<'a>
        ensures around { around_of result ≡ sequential declarations.entry.now }
        ensures next { result.next ≡ 1 }
        ensures found { result.found.items ≡ [] }
    {
        Walker {
            declarations,
            loops: Vec::new(alloc),
            next: 1,
            found: Vec::new(alloc),
        }
    }

    // Enters a loop.
    pub fn enter(&mut self, iterator: u32, domain: Domain) -> Result<(), AllocError>
        ensures { OnOk result (Enters self.old self.new iterator domain) }
    {
        let Some(next) = self.next.checked_add(1) else {
            return Err(AllocError);
        };
        self.loops.push(Loop {
            number: self.next,
            iterator,
            domain,
        })?;
        self.next = next;
        Ok(())
    }

    // Leaves the innermost loop.
    pub fn leave(&mut self)
        ensures { Leaves self.old self.new }
    {
        self.loops.pop();
    }

    // Finds an access, if there is a loop in which it counts.
    pub fn access(&mut self, variable: u32, place: Place, kind: Kind<'a>) -> Result<(), AllocError>
        ensures { OnOk result (Finds self.old self.new (access (around_of self.old) variable place (kind_of kind.entry)) 0) }
    {
        let outside = loops_outside(declared(self.declarations, variable)) as usize;
        if outside < self.loops.len() {
            self.found.push(Found {
                place,
                loop_id: number_at(&self.loops, outside),
                inner_id: number_at(&self.loops, 1),
                variable,
                kind,
            })?;
        }
        Ok(())
    }

    // Finds a read of a variable by its name, which is an access where that is a scalar.
    pub fn scalar_read(&mut self, variable: u32, place: Place) -> Result<(), AllocError>
        ensures { OnOk result (Finds self.old self.new (scalar_read (around_of self.old) variable place) 0) }
    {
        if is_scalar(declared(self.declarations, variable)) {
            self.access(variable, place, Kind::OwnRead)?;
        }
        Ok(())
    }

    // Finds a read of a property through a variable.
    pub fn property_read(
        &mut self,
        owner: u32,
        property: u32,
        place: Place,
    ) -> Result<(), AllocError>
        ensures { OnOk result (Finds self.old self.new (property_read (around_of self.old) owner property place) 0) }
    {
        self.scalar_read(owner, place)?;
        if let Some(kind) = read_kind(&self.loops, owner) {
            self.access(property, place, kind)?;
        }
        Ok(())
    }

    // Finds a write of a property through a variable.
    pub fn property_write(
        &mut self,
        owner: u32,
        property: u32,
        place: Place,
    ) -> Result<(), AllocError>
        ensures { OnOk result (Finds self.old self.new (access (around_of self.old) property place (write_kind (loops_around self.old) owner)) 0) }
    {
        let kind = write_kind(&self.loops, owner);
        self.access(property, place, kind)
    }

    // Finds a plain write.
    pub fn plain_write(&mut self, target: Target) -> Result<(), AllocError>
        ensures { OnOk result (Finds self.old self.new (plain_write (around_of self.old) target) 0) }
    {
        match target {
            Target::Scalar { variable, place } => {
                self.access(variable, place, Kind::StrayWrite)?;
                Ok(())
            }
            Target::Property {
                owner,
                property,
                place,
            } => {
                self.scalar_read(owner, place)?;
                self.property_write(owner, property, place)?;
                Ok(())
            }
        }
    }

    // Finds a deferred write of a property, which through anything but the outer iterator is a stray one besides.
    fn deferred_property(
        &mut self,
        owner: u32,
        property: u32,
        place: Place,
    ) -> Result<(), AllocError>
        ensures { OnOk result (Finds self.old self.new ((if is_outer (loops_around self.old) owner then [] else access (around_of self.old) property place Kinds.StrayWrite) ++ access (around_of self.old) property place Kinds.Deferred) 0) }
    {
        if !is_outer(&self.loops, owner) {
            self.access(property, place, Kind::StrayWrite)?;
        }
        self.access(property, place, Kind::Deferred)?;
        Ok(())
    }

    // Finds a write that ends with the loop.
    pub fn deferred_write(&mut self, target: Target) -> Result<(), AllocError>
        ensures { OnOk result (Finds self.old self.new (deferred_write (around_of self.old) target) 0) }
    {
        match target {
            Target::Scalar { variable, place } => {
                self.access(variable, place, Kind::StrayWrite)?;
                Ok(())
            }
            Target::Property {
                owner,
                property,
                place,
            } => {
                self.scalar_read(owner, place)?;
                self.deferred_property(owner, property, place)?;
                Ok(())
            }
        }
    }

    // Finds a reduction to the outer iterator's property.
    fn own_reduction(
        &mut self,
        reduction: Reduction<'a>,
        property: u32,
        place: Place,
    ) -> Result<(), AllocError>
        ensures { OnOk result (Finds self.old self.new (own_reduction (around_of self.old) (operation_of reduction.entry) property place) 0) }
    {
        if self.loops.len() == 1 {
            self.access(property, place, Kind::OwnRead)?;
            self.access(property, place, Kind::OwnWrite)?;
            return Ok(());
        }
        self.access(property, place, Kind::OwnReduce(reduction))?;
        Ok(())
    }

    // Finds a reduction to a property.
    fn property_reduction(
        &mut self,
        reduction: Reduction<'a>,
        owner: u32,
        property: u32,
        place: Place,
    ) -> Result<(), AllocError>
        ensures { OnOk result (Finds self.old self.new (if is_outer (loops_around self.old) owner then own_reduction (around_of self.old) (operation_of reduction.entry) property place else access (around_of self.old) property place (Kinds.PushReduce (operation_of reduction.entry))) 0) }
    {
        if is_outer(&self.loops, owner) {
            self.own_reduction(reduction, property, place)?;
            return Ok(());
        }
        self.access(property, place, Kind::PushReduce(reduction))?;
        Ok(())
    }

    // Finds a reduction to a target.
    fn reduced(&mut self, reduction: Reduction<'a>, target: Target) -> Result<(), AllocError>
        ensures { OnOk result (Finds self.old self.new (reduced (around_of self.old) (operation_of reduction.entry) target) 0) }
    {
        match target {
            Target::Scalar { variable, place } => {
                self.access(variable, place, Kind::PushReduce(reduction))?;
                Ok(())
            }
            Target::Property {
                owner,
                property,
                place,
            } => {
                self.scalar_read(owner, place)?;
                self.property_reduction(reduction, owner, property, place)?;
                Ok(())
            }
        }
    }

    // Finds a reduction assignment's reductions to all its targets.
    pub fn reductions(&mut self, reduction: Reduction<'a>) -> Result<(), AllocError>
        ensures { OnOk result (Finds self.old self.new (flat_map (reduced (around_of self.old) (operation_of reduction.entry)) reduction.entry.targets.now) 0) }
    {
        for target in reduction.targets {
            self.reduced(reduction, *target)?;
        }
        Ok(())
    }
}
