//! The passes of the compiler by their public calls, and the orders in which tests run them.

use gm_ast::forms::Work;
use gm_base::NoMemory;
use gm_bfs::levelled::bfs_out;
use gm_cut::pieces::cut_bodies;
use gm_desugar::compounds::compounds_out;
use gm_desugar::conditions::conditions_out;
use gm_desugar::groups::groups_out;
use gm_desugar::literals::literals_out;
use gm_desugar::reads::reads_out;
use gm_desugaring::desugar::desugar;
use gm_desugaring::phases::desugar_phases;
use gm_dissect::all_deferred::deferred_out;
use gm_dissect::conditions::save_conditions;
use gm_dissecting::apart::statements_apart;
use gm_dissecting::dissect::dissect;
use gm_flip::flip::flip;
use gm_hoisting::hoisting::inner_folds_out;
use gm_locals::locals::locals_out;
use gm_outward::outward::outward;
use gm_picks::picks::picks_out;
use gm_prepare::declared::declare_locals;
use gm_prepare::filters::save_filters;
use gm_prepare::iterators::place_iterators;
use gm_prepare::nodes::read_nodes;
use gm_prepare::numbers::save_conditions_apart;
use gm_reductions::accesses::accesses_out;
use gm_reductions::folds::folds_out;
use gm_slices::slices::slice_inner_loops;
use std::alloc::Global;
use std::test::Fail;

/// A pass, or several in one call.
#[derive(Clone, Copy, Debug, PartialEq, Eq)]
pub enum Pass {
    GroupsOut,
    CompoundsOut,
    LiteralsOut,
    ConditionsOut,
    ReadsOut,
    PicksOut,
    AccessesOut,
    FoldsOut,
    InnerFoldsOut,
    DesugarPhases,
    Desugar,
    BfsOut,
    DeferredOut,
    SaveConditions,
    LocalsOut,
    CutBodies,
    SliceInnerLoops,
    Flip,
    Outward,
    PlaceIterators,
    DeclareLocals,
    SaveFilters,
    SaveConditionsApart,
    ReadNodes,
    StatementsApart,
    Dissect,
}

// All of them.
const EVERY: [Pass; 26] = [
    Pass::GroupsOut,
    Pass::CompoundsOut,
    Pass::LiteralsOut,
    Pass::ConditionsOut,
    Pass::ReadsOut,
    Pass::PicksOut,
    Pass::AccessesOut,
    Pass::FoldsOut,
    Pass::InnerFoldsOut,
    Pass::DesugarPhases,
    Pass::Desugar,
    Pass::BfsOut,
    Pass::DeferredOut,
    Pass::SaveConditions,
    Pass::LocalsOut,
    Pass::CutBodies,
    Pass::SliceInnerLoops,
    Pass::Flip,
    Pass::Outward,
    Pass::PlaceIterators,
    Pass::DeclareLocals,
    Pass::SaveFilters,
    Pass::SaveConditionsApart,
    Pass::ReadNodes,
    Pass::StatementsApart,
    Pass::Dissect,
];

/// The pass of a name.
pub fn pass_named(alloc: Global, name: &str) -> Result<Pass, Fail> {
    for pass in EVERY {
        let said = format!(in alloc; "{pass:?}")?;
        if said.as_str() == name {
            return Ok(pass);
        }
    }
    Err(Fail::from("no such pass"))
}

// What a pass, or several in one call, makes of a program.
fn after_one(alloc: Global, pass: Pass, program: Work) -> Result<Work, NoMemory> {
    match pass {
        Pass::GroupsOut => groups_out(alloc, program),
        Pass::CompoundsOut => compounds_out(alloc, program),
        Pass::LiteralsOut => literals_out(alloc, program),
        Pass::ConditionsOut => conditions_out(alloc, program),
        Pass::ReadsOut => reads_out(alloc, program),
        Pass::PicksOut => picks_out(alloc, program),
        Pass::AccessesOut => accesses_out(alloc, program),
        Pass::FoldsOut => folds_out(alloc, program),
        _ => after_more(alloc, pass, program),
    }
}

// The same of the passes behind the loops of the sequential phase, and of those in one call.
fn after_more(alloc: Global, pass: Pass, program: Work) -> Result<Work, NoMemory> {
    match pass {
        Pass::InnerFoldsOut => inner_folds_out(alloc, program),
        Pass::DesugarPhases => desugar_phases(alloc, program),
        Pass::Desugar => desugar(alloc, program),
        Pass::BfsOut => bfs_out(alloc, program),
        Pass::DeferredOut => deferred_out(alloc, program),
        Pass::SaveConditions => save_conditions(alloc, program),
        Pass::LocalsOut => locals_out(alloc, program),
        Pass::CutBodies => cut_bodies(alloc, program),
        Pass::SliceInnerLoops => slice_inner_loops(alloc, program),
        Pass::Flip => flip(alloc, program),
        _ => after_cutting(alloc, pass, program),
    }
}

// The same of the other passes that cut bodies, of all in one call, and of the last pass.
fn after_cutting(alloc: Global, pass: Pass, program: Work) -> Result<Work, NoMemory> {
    match pass {
        Pass::Outward => outward(alloc, program),
        Pass::PlaceIterators => place_iterators(alloc, program),
        Pass::DeclareLocals => declare_locals(alloc, program),
        Pass::SaveFilters => save_filters(alloc, program),
        Pass::SaveConditionsApart => save_conditions_apart(alloc, program),
        Pass::ReadNodes => read_nodes(alloc, program),
        Pass::StatementsApart => statements_apart(alloc, program),
        Pass::Dissect => dissect(alloc, program),
        _ => Ok(program),
    }
}

/// What some passes, one after another, make of a program.
pub fn after(alloc: Global, passes: &[Pass], program: Work) -> Result<Work, NoMemory> {
    let mut program = program;
    for pass in passes {
        program = after_one(alloc, *pass, program)?;
    }
    Ok(program)
}

/// The passes of desugaring, one after another, but for picks.
pub const STEPS: [Pass; 8] = [
    Pass::GroupsOut,
    Pass::CompoundsOut,
    Pass::LiteralsOut,
    Pass::ConditionsOut,
    Pass::ReadsOut,
    Pass::AccessesOut,
    Pass::FoldsOut,
    Pass::InnerFoldsOut,
];

/// All passes up to cutting, one after another.
pub const ALL_STEPS: [Pass; 12] = [
    Pass::GroupsOut,
    Pass::CompoundsOut,
    Pass::LiteralsOut,
    Pass::ConditionsOut,
    Pass::ReadsOut,
    Pass::PicksOut,
    Pass::AccessesOut,
    Pass::FoldsOut,
    Pass::InnerFoldsOut,
    Pass::BfsOut,
    Pass::DeferredOut,
    Pass::SaveConditions,
];

/// The passes of the sequential phase in one call, then those behind them.
pub const PHASES: [Pass; 3] = [Pass::DesugarPhases, Pass::InnerFoldsOut, Pass::BfsOut];

/// Desugaring in one call, then the passes up to cutting.
pub const WHOLE: [Pass; 4] = [
    Pass::Desugar,
    Pass::BfsOut,
    Pass::DeferredOut,
    Pass::SaveConditions,
];

/// Deferred writes and conditions of what is cut, written out.
pub const CUTTING: [Pass; 2] = [Pass::DeferredOut, Pass::SaveConditions];

/// Deferred writes and conditions written out, then locals kept in properties.
pub const KEEPING: [Pass; 3] = [Pass::DeferredOut, Pass::SaveConditions, Pass::LocalsOut];

/// Bodies in pieces.
pub const PIECES: [Pass; 2] = [Pass::DeferredOut, Pass::CutBodies];

/// Bodies in pieces, then loops that pull turned round.
pub const FLIPPED: [Pass; 2] = [Pass::CutBodies, Pass::Flip];

/// Inner loops in slices.
pub const SLICES: [Pass; 2] = [Pass::CutBodies, Pass::SliceInnerLoops];

/// The same, then what loops ask at their nodes first.
pub const ASKED: [Pass; 3] = [Pass::CutBodies, Pass::Flip, Pass::Outward];

/// Inner loops in slices, then loops that pull turned round, and what they ask at their nodes first.
pub const SLICES_FLIPPED: [Pass; 4] = [
    Pass::CutBodies,
    Pass::SliceInnerLoops,
    Pass::Flip,
    Pass::Outward,
];

/// All passes that cut bodies, one after another, then those behind them.
pub const DISSECTING: [Pass; 12] = [
    Pass::PlaceIterators,
    Pass::DeclareLocals,
    Pass::DeferredOut,
    Pass::SaveFilters,
    Pass::SaveConditionsApart,
    Pass::ReadNodes,
    Pass::LocalsOut,
    Pass::CutBodies,
    Pass::StatementsApart,
    Pass::SliceInnerLoops,
    Pass::Flip,
    Pass::Outward,
];

/// The same in one call, then those behind them.
pub const DISSECTED: [Pass; 3] = [Pass::Dissect, Pass::Flip, Pass::Outward];

/// All passes in few calls.
pub const PARTED: [Pass; 5] = [
    Pass::Desugar,
    Pass::BfsOut,
    Pass::Dissect,
    Pass::Flip,
    Pass::Outward,
];
