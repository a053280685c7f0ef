//! Runs of events from the start on.

ghost use Rattle.std.specs.Prelude.{◌≡◌, ◌<◌, ◌≤◌, ◌-◌, ℕ, None, IsTrue, IfOk, OnOk, IfErr, length, map, slice_index_or};
ghost use Rattle.std.specs.Option.{option_map};
ghost use Rattle.std.specs.List.{enumerate_from};
ghost use Rattle.gm_model.specs.Graphs.{node_count};
ghost use Rattle.gm_image.specs.Soundness.{is_sound};
ghost use Rattle.gm_image.specs.Views.{program};
ghost use Rattle.gm_machine.specs.Machine.{machine, pause, start_control, start_fields};
ghost use Rattle.gm_machine.specs.Masters.{FitsGraph, pause_of, control_of};
ghost use Rattle.gm_core.specs.Cores.{start, effects, first_illegal};
ghost use Rattle.gm_core.specs.CoreViews.{core_of, IsWide, IsSetting};
ghost use Rattle.gm_core.specs.Laws.{released, EndsInTime};
ghost use Rattle.gm_core.specs.Owners.{owners_by};
ghost use Rattle.gm_core.specs.Runs.{view_of, StopsAt};
ghost use Rattle.gm_core.specs.declared.runs.CoreStop.TheVariants as stops;

use crate::cores::{CoreRun, Setting};
use crate::effects::{apply, new_round, no_messages};
use crate::events::Event;
use crate::legality::is_legal;
use crate::owners::owners_of;
use gm_base::NoMemory;
use gm_graph::Graph;
use gm_image::{Image, Sound};
use gm_machine::{Master, MasterStop, end_of_lists, master_run, rows_for, start_fields};
use gm_model::RunEnd;
use gm_partition::Owner;
use gm_value::Value;
use std::alloc::Global;
use std::marker::Model;

/// What events come to: how the run ended, if it did, how many supersteps were released, and the fields of each node.
#[derive(Drop)]
pub struct CoreState {
    end: Option<RunEnd>,
    supersteps: u64,
    fields: Vec<Vec<Value>>,
}

impl Model for CoreState {
    ghost use Rattle.std.specs.Prelude.{map};
    ghost use Rattle.gm_core.specs.CoreStates.{CoreView};

    ghost Value = { CoreView };

    ghost view = { λ s. record { ended = s.end; step = s.supersteps; fields = map (λ row. row.items) s.fields.items } };
}

impl CoreState {
    /// How the run ended; None while it has not.
    pub fn ended(&self) -> Option<&RunEnd>
        ensures { option_map (λ end. end.now) result ≡ self.now.ended }
    {
        self.end.as_ref()
    }

    /// How many supersteps were released.
    pub fn step(&self) -> u64
        ensures { result ≡ self.now.step }
    {
        self.supersteps
    }

    /// The fields of a node.
    pub fn fields(&self, node: u32) -> &[Value]
        requires { node < length self.now.fields }
        ensures { result.now ≡ slice_index_or self.now.fields node result.now }
    {
        self.fields[node as usize].as_slice()
    }
}

/// Why events were not run: the first event that is not legal, by its index, or there was not enough memory.
#[derive(Clone, Copy, Debug, PartialEq, Eq)]
pub enum CoreStop {
    Illegal { index: usize },
    NoMemory,
}

impl From<NoMemory> for CoreStop {
    ghost from_gives = { λ _ stop. stop ≡ stops.NoMemory };

    fn from(_: NoMemory) -> CoreStop {
        CoreStop::NoMemory
    }
}

// The fields of all nodes before the first superstep.
fn all_fields(alloc: Global, image: &Image, graph: &Graph) -> Result<Vec<Vec<Value>>, NoMemory>
    ensures { IfOk result (λ fields. map (λ row. row.items) fields.items ≡ map (start_fields (program image.now) graph.now) (enumerate_from 0 graph.now.numbers)) }
{
    let mut fields = Vec::new(alloc);
    for node in 0..graph.node_count() {
        let row = start_fields(alloc, image, graph, node)?;
        fields.push(row)?;
    }
    Ok(fields)
}

// The master list's state where it first stops.
fn first_stop(
    alloc: Global,
    setting: &Setting,
    args: &[Value],
    turns: u64,
) -> Result<(Master, MasterStop), NoMemory>
    requires { IsSetting setting.now }
    ensures next { IfOk result (λ r. pause_of r.1 (r.0.bound - r.0.turns) r.0.line (control_of r.0)
        ≡ pause (program setting.now.image.now) setting.now.graph.now turns 0 (start_control (program setting.now.image.now) args.now)) }
    ensures bounded { IfOk result (λ r. r.0.turns ≤ r.0.bound) }
{
    let image = setting.image.image();
    let mut master = Master::start(alloc, image, args, turns)?;
    let next = master_run(image, setting.graph, setting.in_rows, &mut master);
    Ok((master, next))
}

// The core before any event.
fn begin(alloc: Global, setting: &Setting, args: &[Value], turns: u64) -> Result<CoreRun, NoMemory>
    requires { IsSetting setting.now }
    ensures wide { IfOk result (λ core. IsWide (node_count setting.now.graph.now) setting.now.workers core) }
    ensures sound { IfOk result (λ _. IsTrue (is_sound (program setting.now.image.now))) }
    ensures core { IfOk result (λ core. core_of core
        ≡ start (program setting.now.image.now) setting.now.graph.now setting.now.owners.now setting.now.workers args.now turns) }
{
    let (master, next) = first_stop(alloc, setting, args, turns)?;
    let image = setting.image.image();
    let fields = all_fields(alloc, image, setting.graph)?;
    let waiting = no_messages(alloc, setting.workers)?;
    let nodes = setting.graph.node_count();
    let round = new_round(alloc, nodes, setting.workers)?;
    Ok(CoreRun {
        master,
        next,
        fields,
        waiting,
        supersteps: 0,
        messages: 0,
        round,
    })
}

// Runs the events, each of which is legal, or finds the first that is not.
fn run_all(
    alloc: Global,
    setting: &Setting,
    core: &mut CoreRun,
    events: &[Event],
) -> Result<(), CoreStop>
    requires setting { IsSetting setting.now }
    requires wide { IsWide (node_count setting.now.graph.now) setting.now.workers core.old }
    ensures wide { OnOk result (IsWide (node_count setting.now.graph.now) setting.now.workers core.new) }
    ensures core { OnOk result (core_of core.new
        ≡ effects (program setting.now.image.now) setting.now.graph.now setting.now.owners.now setting.now.workers (core_of core.old) events.now) }
    ensures legal { OnOk result (
        first_illegal (program setting.now.image.now) setting.now.graph.now setting.now.owners.now setting.now.workers 0 (core_of core.old) events.now ≡ None) }
    ensures illegal { IfErr result (StopsAt (
        first_illegal (program setting.now.image.now) setting.now.graph.now setting.now.owners.now setting.now.workers 0 (core_of core.old) events.now)) }
{
    for index in 0..events.len() {
        let event = events[index];
        if !is_legal(setting, core, event) {
            return Err(CoreStop::Illegal { index });
        }
        apply(alloc, setting, core, event)?;
    }
    Ok(())
}

// What callers see of a core.
fn seen(alloc: Global, setting: &Setting, core: CoreRun) -> Result<CoreState, NoMemory>
    ensures { IfOk result (λ state. state ≡ view_of (program setting.now.image.now) setting.now.graph.now setting.now.owners.now setting.now.workers (core_of core)) }
{
    let image = setting.image.image();
    let fields = core.fields.as_slice();
    let end = end_of_lists(
        alloc,
        image,
        core.next,
        &core.master,
        fields,
        core.supersteps,
        core.messages,
    )?;
    Ok(CoreState {
        end,
        supersteps: core.supersteps,
        fields: core.fields,
    })
}

// Runs events from the start on.
fn run_from_start(
    alloc: Global,
    setting: &Setting,
    args: &[Value],
    turns: u64,
    events: &[Event],
) -> Result<CoreState, CoreStop>
    requires { IsSetting setting.now }
    ensures state { IfOk result (λ state. state ≡ view_of (program setting.now.image.now) setting.now.graph.now setting.now.owners.now setting.now.workers
        (effects (program setting.now.image.now) setting.now.graph.now setting.now.owners.now setting.now.workers
        (start (program setting.now.image.now) setting.now.graph.now setting.now.owners.now setting.now.workers args.now turns) events.now)) }
    ensures nodes { IfOk result (λ state. length state.fields ≡ node_count setting.now.graph.now) }
    ensures step { IfOk result (λ state. state.step ≡ released events.now) }
    ensures ended { IfOk result (λ state. EndsInTime state.ended (machine (program setting.now.image.now) setting.now.graph.now args.now turns) (released events.now)) }
    ensures legal { OnOk result (first_illegal (program setting.now.image.now) setting.now.graph.now setting.now.owners.now setting.now.workers 0
        (start (program setting.now.image.now) setting.now.graph.now setting.now.owners.now setting.now.workers args.now turns) events.now ≡ None) }
    ensures illegal { IfErr result (StopsAt (first_illegal (program setting.now.image.now) setting.now.graph.now setting.now.owners.now setting.now.workers 0
        (start (program setting.now.image.now) setting.now.graph.now setting.now.owners.now setting.now.workers args.now turns) events.now)) }
{
    let mut core = begin(alloc, setting, args, turns)?;
    run_all(alloc, setting, &mut core, events)?;
    let state = seen(alloc, setting, core)?;
    Ok(state)
}

/// Runs events of so many workers from the start of a run on, over a graph whose nodes are dealt out among them. The
/// arguments are those of the scalar inputs, in order, and the graph has the edge columns that the image declares. The
/// first event that is not legal after those before it is named.
pub fn run_events(
    alloc: Global,
    image: &Sound,
    graph: &Graph,
    args: &[Value],
    turns: u64,
    owner: Owner,
    workers: u32,
    events: &[Event],
) -> Result<CoreState, CoreStop>
    requires columns { FitsGraph image.now graph.now }
    requires some_worker { 1 ≤ workers }
    requires few_workers { workers ≤ 64 }
    ensures state { IfOk result (λ state. state ≡ view_of (program image.now) graph.now (owners_by owner workers (node_count graph.now)) workers
        (effects (program image.now) graph.now (owners_by owner workers (node_count graph.now)) workers
        (start (program image.now) graph.now (owners_by owner workers (node_count graph.now)) workers args.now turns) events.now)) }
    ensures nodes { IfOk result (λ state. length state.fields ≡ node_count graph.now) }
    ensures legal { OnOk result (first_illegal (program image.now) graph.now (owners_by owner workers (node_count graph.now)) workers 0
        (start (program image.now) graph.now (owners_by owner workers (node_count graph.now)) workers args.now turns) events.now ≡ None) }
    ensures step { IfOk result (λ state. state.step ≡ released events.now) }
    ensures ended { IfOk result (λ state. EndsInTime state.ended (machine (program image.now) graph.now args.now turns) (released events.now)) }
    ensures illegal { IfErr result (StopsAt (first_illegal (program image.now) graph.now (owners_by owner workers (node_count graph.now)) workers 0
        (start (program image.now) graph.now (owners_by owner workers (node_count graph.now)) workers args.now turns) events.now)) }
{
    let nodes = graph.node_count();
    let dealt = owners_of(alloc, owner, workers, nodes)?;
    let owners = dealt.as_slice();
    let in_rows = rows_for(alloc, image.image(), graph)?;
    let setting = Setting {
        image,
        graph,
        in_rows: &in_rows,
        owners,
        workers,
    };
    let outcome = run_from_start(alloc, &setting, args, turns, events);
    outcome
}
