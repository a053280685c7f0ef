//! What events do.

ghost use Rattle.std.specs.Prelude.{◌≡◌, ◌≢◌, ◌<◌, ◌≤◌, ◌+◌, ◌-◌, ◌++◌, ◌∷◌, ℕ, [], None, List, IfOk, OnOk, false, true, length, map, replicate, slice_set, slice_index, slice_index_or};
ghost use Rattle.gm_value.specs.declared.values.Value.{Value};
ghost use Rattle.gm_model.specs.Graphs.{HasNode, node_count};
ghost use Rattle.gm_image.specs.Views.{program};
ghost use Rattle.gm_machine.specs.Faults.{lesser};
ghost use Rattle.gm_machine.specs.Machine.{Steps, inbox};
ghost use Rattle.gm_machine.specs.Asking.{IsServed};
ghost use Rattle.gm_machine.specs.Masters.{FitsGraph, control_of, pause_of};
ghost use Rattle.gm_machine.specs.States.{pause_after};
ghost use Rattle.gm_machine.specs.Steps.{step_after};
ghost use Rattle.gm_machine.specs.Taking.{settled};
ghost use Rattle.gm_machine.specs.Vertex.{Message};
ghost use Rattle.gm_core.specs.Mails.{no_mail, delivered, with_at};
ghost use Rattle.gm_core.specs.Cores.{for_worker, sends, owner, computes, releases, effect, effect_by, is_legal, is_legal_by};
ghost use Rattle.gm_core.specs.CoreViews.{row_at, mail_in, core_of, IsSquare, IsRound, IsWide, IsSetting};

use crate::cores::{CoreRun, Round, Setting};
use crate::events::Event;
use crate::messages::{Outbox, copy_message};
use crate::owners::owner_in;
use gm_base::NoMemory;
use gm_machine::{
    Batch, Contributions, Fault, Master, MasterStop, Sent, lesser, master_run, settle_puts,
    vertex_step,
};
use gm_value::Value;
use std::alloc::Global;
use std::mem;

// A message goes behind others if it is for a node.
fn take_own(from: &Batch, i: usize, node: u32, own: &mut Batch) -> Result<(), NoMemory>
    requires { i < length from.now }
    ensures { OnOk result ((d : Message) → own.new ≡ own.old ++ inbox (slice_index_or from.now i d ∷ []) node) }
{
    if from.to(i) != node {
        return Ok(());
    }
    copy_message(from, i, own)?;
    Ok(())
}

// The messages to a node.
fn inbox_of(alloc: Global, waiting: &Batch, node: u32) -> Result<Batch, NoMemory>
    ensures { IfOk result (λ box. box ≡ inbox waiting.now node) }
{
    let mut own = Batch::empty(alloc);
    for i in 0..waiting.messages() {
        take_own(waiting, i, node, &mut own)?;
    }
    Ok(own)
}

// Each message goes behind those for the owner of its node.
fn deal(owners: &[u32], messages: &Batch, outbox: &mut Outbox) -> Result<(), NoMemory>
    requires { (n : ℕ) → owner owners.now n < length outbox.old }
    ensures wide { OnOk result (length outbox.new ≡ length outbox.old) }
    ensures each { OnOk result ((to : ℕ) → row_at outbox.new to ≡ row_at outbox.old to ++ for_worker owners.now to messages.now) }
{
    for i in 0..messages.messages() {
        let worker = owner_in(owners, messages.to(i));
        outbox.add(worker as usize, messages, i)?;
    }
    Ok(())
}

// A sum, where it is a number.
fn sum(a: u64, b: u64) -> Result<u64, NoMemory>
    ensures { IfOk result (λ sum. sum ≡ a + b) }
{
    match a.checked_add(b) {
        Some(sum) => Ok(sum),
        None => Err(NoMemory),
    }
}

// The step of a node, which changes its fields.
fn step_node(
    alloc: Global,
    setting: &Setting,
    block: u32,
    globals: &[Value],
    inbox: &Batch,
    node: u32,
    fields: &mut Vec<Vec<Value>>,
) -> Result<Sent, NoMemory>
    requires columns { FitsGraph setting.now.image.now setting.now.graph.now }
    requires served { IsServed (program setting.now.image.now) setting.now.graph.now setting.now.in_rows.now }
    requires node { HasNode setting.now.graph.now node }
    requires here { node < length fields.old.items }
    ensures fields { OnOk result (map (λ row. row.items) fields.new.items ≡ slice_set (map (λ row. row.items) fields.old.items) node
        (step_after (program setting.now.image.now) block globals.now setting.now.graph.now node inbox.now (slice_index_or (map (λ row. row.items) fields.old.items) node [])).state.fields) }
    ensures long { OnOk result (length fields.new.items ≡ length fields.old.items) }
    ensures messages { IfOk result (λ sent. sent.messages
        ≡ (step_after (program setting.now.image.now) block globals.now setting.now.graph.now node inbox.now (slice_index_or (map (λ row. row.items) fields.old.items) node [])).state.messages) }
    ensures puts { IfOk result (λ sent. sent.puts
        ≡ (step_after (program setting.now.image.now) block globals.now setting.now.graph.now node inbox.now (slice_index_or (map (λ row. row.items) fields.old.items) node [])).state.puts) }
    ensures fault { IfOk result (λ sent. sent.fault
        ≡ (step_after (program setting.now.image.now) block globals.now setting.now.graph.now node inbox.now (slice_index_or (map (λ row. row.items) fields.old.items) node [])).fault) }
{
    let mut sent = Sent::empty(alloc);
    let row = &mut fields[node as usize];
    vertex_step(
        alloc,
        setting.image,
        block,
        globals,
        setting.graph,
        setting.in_rows,
        node,
        row,
        inbox,
        &mut sent,
    )?;
    Ok(sent)
}

// What a worker's node sent is for the owners of the nodes to which it goes.
fn post(
    setting: &Setting,
    worker: u32,
    messages: &Batch,
    unsent: &mut Vec<Outbox>,
) -> Result<(), NoMemory>
    requires setting { IsSetting setting.now }
    requires square { IsSquare setting.now.workers unsent.old.items }
    requires worker { worker < setting.now.workers }
    ensures square { OnOk result (IsSquare setting.now.workers unsent.new.items) }
    ensures mail { OnOk result ((incoming : List (List Message))
        → mail_in unsent.new.items incoming ≡ sends setting.now.owners.now worker messages.now (mail_in unsent.old.items incoming)) }
{
    let outbox = &mut unsent[worker as usize];
    deal(setting.owners, messages, outbox)?;
    Ok(())
}

// What a worker's node did is noted.
fn note(
    setting: &Setting,
    worker: u32,
    node: u32,
    sent: &Sent,
    round: &mut Round,
) -> Result<(), NoMemory>
    requires setting { IsSetting setting.now }
    requires wide { IsRound (node_count setting.now.graph.now) setting.now.workers round.old }
    requires worker { worker < setting.now.workers }
    requires node { node < node_count setting.now.graph.now }
    ensures wide { OnOk result (IsRound (node_count setting.now.graph.now) setting.now.workers round.new) }
    ensures computed { OnOk result (round.new.computed.items ≡ round.old.computed.items ++ node ∷ []) }
    ensures puts { OnOk result (round.new.puts ≡ round.old.puts ++ sent.now.puts) }
    ensures fault { OnOk result (round.new.fault ≡ lesser round.old.fault sent.now.fault) }
    ensures sent { OnOk result (round.new.sent ≡ round.old.sent + length sent.now.messages) }
    ensures mail { OnOk result (mail_in round.new.unsent.items round.new.incoming.items
        ≡ sends setting.now.owners.now worker sent.now.messages (mail_in round.old.unsent.items round.old.incoming.items)) }
    ensures arrived { OnOk result (round.new.arrived.items ≡ round.old.arrived.items) }
{
    post(setting, worker, &sent.messages, &mut round.unsent)?;
    round.computed.push(node)?;
    round.marks[node as usize] = true;
    round.puts.add_parts(sent.puts.parts())?;
    round.fault = lesser(round.fault, sent.fault);
    round.sent = sum(round.sent, sent.messages.messages() as u64)?;
    Ok(())
}

// A node of a worker computes: it takes its step with the messages that wait for it.
fn compute(
    alloc: Global,
    setting: &Setting,
    core: &mut CoreRun,
    block: u32,
    worker: u32,
    node: u32,
) -> Result<(), NoMemory>
    requires setting { IsSetting setting.now }
    requires wide { IsWide (node_count setting.now.graph.now) setting.now.workers core.old }
    requires worker { worker < setting.now.workers }
    requires node { node < node_count setting.now.graph.now }
    ensures wide { OnOk result (IsWide (node_count setting.now.graph.now) setting.now.workers core.new) }
    ensures core { OnOk result (core_of core.new ≡ computes (program setting.now.image.now) setting.now.graph.now setting.now.owners.now setting.now.workers
        block (control_of core.old.master) worker node (core_of core.old)) }
{
    let waiting = &core.waiting[worker as usize];
    let inbox = inbox_of(alloc, waiting, node)?;
    let sent = step_node(
        alloc,
        setting,
        block,
        &core.master.globals,
        &inbox,
        node,
        &mut core.fields,
    )?;
    note(setting, worker, node, &sent, &mut core.round)?;
    Ok(())
}

// The first so many messages of a worker for another go behind those that came to it.
fn hand_over(
    unsent: &mut Vec<Outbox>,
    incoming: &mut Vec<Batch>,
    from: u32,
    to: u32,
    count: u64,
) -> Result<(), NoMemory>
    requires from { from < length unsent.old.items }
    requires row { to < length (row_at unsent.old.items from) }
    requires to { to < length incoming.old.items }
    requires some { count ≤ length (row_at (row_at unsent.old.items from) to) }
    ensures square { OnOk result ((workers : ℕ) → IsSquare workers unsent.old.items → IsSquare workers unsent.new.items) }
    ensures long { OnOk result (length incoming.new.items ≡ length incoming.old.items) }
    ensures mail { OnOk result (mail_in unsent.new.items incoming.new.items ≡ delivered from to count (mail_in unsent.old.items incoming.old.items)) }
{
    let outbox = &mut unsent[from as usize];
    let came = &mut incoming[to as usize];
    outbox.deliver(to as usize, count as usize, came)?;
    Ok(())
}

// Messages are delivered.
fn deliver(
    setting: &Setting,
    core: &mut CoreRun,
    from: u32,
    to: u32,
    count: u64,
) -> Result<(), NoMemory>
    requires wide { IsWide (node_count setting.now.graph.now) setting.now.workers core.old }
    requires from { from < setting.now.workers }
    requires to { to < setting.now.workers }
    requires some { count ≤ length ((core_of core.old).mail.unsent from to) }
    ensures wide { OnOk result (IsWide (node_count setting.now.graph.now) setting.now.workers core.new) }
    ensures core { OnOk result (core_of core.new ≡ record (core_of core.old) { mail = delivered from to count (core_of core.old).mail }) }
{
    hand_over(
        &mut core.round.unsent,
        &mut core.round.incoming,
        from,
        to,
        count,
    )?;
    Ok(())
}

// A worker arrives.
fn arrive(setting: &Setting, core: &mut CoreRun, worker: u32)
    requires wide { IsWide (node_count setting.now.graph.now) setting.now.workers core.old }
    requires worker { worker < setting.now.workers }
    ensures wide { IsWide (node_count setting.now.graph.now) setting.now.workers core.new }
    ensures core { core_of core.new ≡ record (core_of core.old) { arrived = with_at (core_of core.old).arrived worker true } }
{
    core.round.arrived[worker as usize] = true;
}

// A list of empty batches, one for each worker.
pub(crate) fn no_messages(alloc: Global, workers: u32) -> Result<Vec<Batch>, NoMemory>
    ensures { IfOk result (λ batches. batches.items ≡ replicate workers []) }
{
    let mut batches = Vec::new(alloc);
    for worker in 0..workers {
        batches.push(Batch::empty(alloc))?;
    }
    Ok(batches)
}

// Nothing is to be sent.
fn nothing_unsent(alloc: Global, workers: u32) -> Result<Vec<Outbox>, NoMemory>
    ensures { IfOk result (λ unsent. unsent.items ≡ replicate workers (replicate workers [])) }
{
    let mut outboxes = Vec::new(alloc);
    for worker in 0..workers {
        let row = Outbox::empty(alloc, workers)?;
        outboxes.push(row)?;
    }
    Ok(outboxes)
}

// No mark in so many places.
fn no_marks(alloc: Global, places: u32) -> Result<Vec<bool>, NoMemory>
    ensures { IfOk result (λ marks. marks.items ≡ replicate places false) }
{
    let marks = vec![in alloc; false; places as usize]?;
    Ok(marks)
}

/// Nothing has happened.
pub(crate) fn new_round(alloc: Global, nodes: u32, workers: u32) -> Result<Round, NoMemory>
    ensures computed { IfOk result (λ round. round.computed.items ≡ []) }
    ensures puts { IfOk result (λ round. round.puts ≡ []) }
    ensures fault { IfOk result (λ round. round.fault ≡ None) }
    ensures sent { IfOk result (λ round. round.sent ≡ 0) }
    ensures mail { IfOk result (λ round. mail_in round.unsent.items round.incoming.items ≡ no_mail) }
    ensures arrived { IfOk result (λ round. (w : ℕ) → slice_index_or round.arrived.items w false ≡ false) }
    ensures wide { IfOk result (λ round. IsRound nodes workers round) }
{
    let marks = no_marks(alloc, nodes)?;
    let unsent = nothing_unsent(alloc, workers)?;
    let incoming = no_messages(alloc, workers)?;
    let arrived = no_marks(alloc, workers)?;
    Ok(Round {
        computed: Vec::new(alloc),
        marks,
        puts: Contributions::empty(alloc),
        fault: None,
        sent: 0,
        unsent,
        incoming,
        arrived,
    })
}

// What was put is taken onto the globals.
fn settle(
    alloc: Global,
    setting: &Setting,
    puts: &Contributions,
    globals: &mut Vec<Value>,
) -> Result<Option<Fault>, NoMemory>
    ensures { IfOk result (λ f. record { values = globals.new.items; fault = f }
        ≡ settled (length (program setting.now.image.now).places) puts.now globals.old.items) }
{
    let image = setting.image.image();
    let fault = settle_puts(alloc, image, puts, globals)?;
    Ok(fault)
}

// How the master list goes on after a superstep that left a fault or none.
fn go_on(setting: &Setting, fault: Option<Fault>, master: &mut Master) -> MasterStop
    requires columns { FitsGraph setting.now.image.now setting.now.graph.now }
    requires served { IsServed (program setting.now.image.now) setting.now.graph.now setting.now.in_rows.now }
    requires bounded { master.old.turns ≤ master.old.bound }
    ensures next { pause_of result (master.new.bound - master.new.turns) master.new.line (control_of master.new)
        ≡ pause_after (program setting.now.image.now) setting.now.graph.now (master.old.bound - master.old.turns) master.old.line (control_of master.old) fault }
    ensures bounded { master.new.turns ≤ master.new.bound }
{
    match fault {
        Some(fault) => MasterStop::Faulted(fault),
        None => {
            let image = setting.image.image();
            master_run(image, setting.graph, setting.in_rows, master)
        }
    }
}

// The superstep ends: what was put is taken onto the globals, and unless something faulted the master list runs to its
// next step.
fn release(alloc: Global, setting: &Setting, core: &mut CoreRun) -> Result<(), NoMemory>
    requires setting { IsSetting setting.now }
    requires wide { IsWide (node_count setting.now.graph.now) setting.now.workers core.old }
    ensures wide { OnOk result (IsWide (node_count setting.now.graph.now) setting.now.workers core.new) }
    ensures core { OnOk result (core_of core.new ≡ releases (program setting.now.image.now) setting.now.graph.now setting.now.owners.now setting.now.workers
        (core.old.master.bound - core.old.master.turns) core.old.master.line (control_of core.old.master) (core_of core.old)) }
{
    let put = settle(alloc, setting, &core.round.puts, &mut core.master.globals)?;
    let fault = lesser(core.round.fault, put);
    let next = go_on(setting, fault, &mut core.master);
    core.next = next;
    let supersteps = sum(core.supersteps, 1)?;
    core.supersteps = supersteps;
    let messages = sum(core.messages, core.round.sent)?;
    core.messages = messages;
    let came = mem::replace(&mut core.round.incoming, Vec::new(alloc));
    core.waiting = came;
    let nodes = setting.graph.node_count();
    let round = new_round(alloc, nodes, setting.workers)?;
    core.round = round;
    Ok(())
}

// What a legal event does in a superstep with a block.
fn apply_in(
    alloc: Global,
    setting: &Setting,
    core: &mut CoreRun,
    block: u32,
    event: Event,
) -> Result<(), NoMemory>
    requires setting { IsSetting setting.now }
    requires wide { IsWide (node_count setting.now.graph.now) setting.now.workers core.old }
    requires legal { is_legal_by (program setting.now.image.now) setting.now.graph.now setting.now.owners.now setting.now.workers
        (Steps (core.old.master.bound - core.old.master.turns) block core.old.master.line (control_of core.old.master)) (core_of core.old) event ≡ true }
    ensures wide { OnOk result (IsWide (node_count setting.now.graph.now) setting.now.workers core.new) }
    ensures core { OnOk result (core_of core.new ≡ effect_by (program setting.now.image.now) setting.now.graph.now setting.now.owners.now setting.now.workers
        (Steps (core.old.master.bound - core.old.master.turns) block core.old.master.line (control_of core.old.master)) (core_of core.old) event) }
{
    match event {
        Event::Compute { worker, node } => {
            compute(alloc, setting, core, block, worker, node)?;
            Ok(())
        }
        Event::Deliver { from, to, count } => {
            deliver(setting, core, from, to, count)?;
            Ok(())
        }
        Event::Arrive { worker } => {
            arrive(setting, core, worker);
            Ok(())
        }
        Event::Release => {
            release(alloc, setting, core)?;
            Ok(())
        }
    }
}

/// What a legal event does.
pub(crate) fn apply(
    alloc: Global,
    setting: &Setting,
    core: &mut CoreRun,
    event: Event,
) -> Result<(), NoMemory>
    requires setting { IsSetting setting.now }
    requires wide { IsWide (node_count setting.now.graph.now) setting.now.workers core.old }
    requires legal { is_legal (program setting.now.image.now) setting.now.graph.now setting.now.owners.now setting.now.workers (core_of core.old) event ≡ true }
    ensures wide { OnOk result (IsWide (node_count setting.now.graph.now) setting.now.workers core.new) }
    ensures core { OnOk result (core_of core.new ≡ effect (program setting.now.image.now) setting.now.graph.now setting.now.owners.now setting.now.workers (core_of core.old) event) }
{
    match core.next {
        MasterStop::Step(block) => {
            apply_in(alloc, setting, core, block, event)?;
            Ok(())
        }
        _ => Ok(()),
    }
}
