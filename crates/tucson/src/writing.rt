//! The text of a run, written.
ghost use Rattle.std.specs.Prelude.{◌≡◌, ◌<◌, [], All, OnOk, Some, length, slice_get};
ghost use Rattle.tc_model.specs.Calls.{id_of};
ghost use Rattle.tc_model.specs.Choices.{TheFirst};
ghost use Rattle.tc_model.specs.Typed.{IsTyped};
ghost use Rattle.tc_io.specs.Faults.{Counts};
ghost use Rattle.tc_io.specs.Sinks.{sink_of};
ghost use Rattle.tc_config.specs.Configurations.{agent_names, centre_names};
ghost use Rattle.tc_config.specs.Good.{IsGood};
ghost use Rattle.tc_desk.specs.Logs.{is_blocked, rows_of};
ghost use Rattle.tc_desk.specs.Typed.{IsTypedRow};
ghost use Rattle.tc_histtext.specs.Text.{histories_text, logs_text};
ghost use Rattle.tc_histline.specs.declared.versions.Version.TheVariants.{Two};
ghost use Rattle.tc_runner.specs.Cores.{AreCores, histories};
ghost use Rattle.tc_runner.specs.Runs.{HasCores, IsGoodRun};
ghost use Rattle.tc_io.specs.Flow.{HandsOn, flow};
ghost use Rattle.tucson.specs.Answer.{IsOutcomeOf};
ghost use Rattle.tucson.specs.Ending.{IsFault, WritesDue, Writes};
ghost use Rattle.tucson.specs.Status.{status_of_run};
ghost use Rattle.tucson.specs.Texts.{whole_text};

use crate::status::Status;
use std::alloc::Global;
use std::thread::Threads;
use tc_centre::Core;
use tc_desk::{LogRow, has_pending, rows_are_typed};
use tc_io::{Sink, SinkFault, write_all};
use tc_model::Entry;
use tc_runner::{Opened, Plan};
use tc_term::Name;
use tc_writing::{write_end, write_history, write_log, write_version};

/// Writes a text. What stops the writing comes in place of the status.
pub fn written<K: Sink>(status: Status, text: &[u8], sink: &mut K) -> Status
    requires { IsFault status → ⊥ }
    ensures wrote { Writes status text.now (sink_of K.taken K.write_faults K.sure sink.old)
        (sink_of K.taken K.write_faults K.sure sink.new) result }
    ensures writes { Counts (result ≡ Status.WriteFault)
        (K.write_faults sink.old) (K.write_faults sink.new) }
    ensures reads { result ≡ Status.ReadFault → ⊥ }
{
    match write_all(sink, text) {
        Ok(()) => status,
        Err(SinkFault::Failed) => Status::WriteFault,
        Err(SinkFault::NoMemory) => Status::NoMemory,
    }
}

/// Writes the histories and the logs of a run that has come to its end.
///
/// So many workers print long ones.
pub fn write_run<R: Threads + Sync, K: Sink>(
    rt: &R,
    alloc: Global,
    workers: usize,
    run: &Opened,
    sink: &mut K,
) -> Status
    requires workers { 0 < workers }
    requires good { IsGoodRun run.now }
    requires cores { HasCores run.now }
    ensures tells { WritesDue
        (IsOutcomeOf (IsGood TheFirst run.now.plan) (whole_text run.now.plan))
        (sink_of K.taken K.write_faults K.sure sink.old)
        (sink_of K.taken K.write_faults K.sure sink.new) result }
    ensures writes { Counts (result ≡ Status.WriteFault)
        (K.write_faults sink.old) (K.write_faults sink.new) }
    ensures reads { result ≡ Status.ReadFault → ⊥ }
{
    let blocked = is_blocked(&run.logs);
    write_whole(
        rt,
        alloc,
        workers,
        status_of_run(blocked),
        run,
        blocked,
        sink,
    )
}

/// The status of a run.
pub fn status_of_run(blocked: bool) -> Status
    ensures { result ≡ status_of_run blocked }
{
    if blocked {
        Status::Blocked
    } else {
        Status::Ended
    }
}

/// Writes histories and logs. What stops the writing comes in place of the status.
///
/// So many workers print long ones.
pub fn write_whole<R: Threads + Sync, K: Sink>(
    rt: &R,
    alloc: Global,
    workers: usize,
    status: Status,
    run: &Opened,
    blocked: bool,
    sink: &mut K,
) -> Status
    requires workers { 0 < workers }
    requires status { IsFault status → ⊥ }
    requires cores { HasCores run.now }
    requires blocked { blocked ≡ is_blocked (rows_of run.now.logs.items) }
    ensures wrote { Writes status (whole_text run.now.plan
        (histories run.now.plan run.now.cores.items) (rows_of run.now.logs.items))
        (sink_of K.taken K.write_faults K.sure sink.old)
        (sink_of K.taken K.write_faults K.sure sink.new) result }
    ensures typed { All (All IsTyped) (histories run.now.plan run.now.cores.items) }
    ensures typed_logs { All (All IsTypedRow) (rows_of run.now.logs.items) }
    ensures writes { Counts (result ≡ Status.WriteFault)
        (K.write_faults sink.old) (K.write_faults sink.new) }
    ensures reads { result ≡ Status.ReadFault → ⊥ }
{
    typed_histories(&run.plan, &run.cores);
    typed_logs(&run.logs);
    let mut kept = Vec::new(alloc);
    match write_text(rt, alloc, workers, run, blocked, sink, &mut kept) {
        Ok(()) => status,
        Err(SinkFault::Failed) => Status::WriteFault,
        Err(SinkFault::NoMemory) => Status::NoMemory,
    }
}

/// Tells contracts what the cores promise of the histories, and does nothing.
pub fn typed_histories(plan: &Plan, cores: &[Core])
    ensures { All (All IsTyped) (histories plan.now cores.now) }
{
    let _centres = plan.centres();
    for core in cores {
        let _history = core.history();
    }
}

/// Tells contracts what rows promise of themselves, and does nothing.
///
/// Walks each ask's term, as `rows_are_typed` does.
pub fn typed_logs(logs: &[Vec<LogRow>])
    ensures { All (All IsTypedRow) (rows_of logs.now) }
{
    for log in logs {
        rows_are_typed(log);
    }
}

// Hands on the whole text, and writes it to its end.
fn write_text<R: Threads + Sync, K: Sink>(
    rt: &R,
    alloc: Global,
    workers: usize,
    run: &Opened,
    blocked: bool,
    sink: &mut K,
    kept: &mut Vec<u8>,
) -> Result<(), SinkFault>
    requires workers { 0 < workers }
    requires blocked { blocked ≡ is_blocked (rows_of run.now.logs.items) }
    requires cores { HasCores run.now }
    ensures hands { HandsOn (whole_text run.now.plan
        (histories run.now.plan run.now.cores.items) (rows_of run.now.logs.items))
        (flow K.taken K.write_faults K.sure sink.old kept.old.items)
        (flow K.taken K.write_faults K.sure sink.new kept.new.items) result }
    ensures empty { OnOk result (kept.new.items ≡ []) }
{
    write_version(sink, kept)?;
    write_histories(rt, alloc, workers, &run.plan, &run.cores, sink, kept)?;
    write_logs(rt, alloc, workers, &run.plan, &run.logs, sink, kept)?;
    write_end(blocked, sink, kept)
}

/// Whether some agent's ask is pending.
pub fn is_blocked(logs: &[Vec<LogRow>]) -> bool
    ensures { result ≡ is_blocked (rows_of logs.now) }
{
    for log in logs {
        if has_pending(log) {
            return true;
        }
    }
    false
}

// Hands on the history of each centre. One that isn't opened has none.
fn write_histories<R: Threads + Sync, K: Sink>(
    rt: &R,
    alloc: Global,
    workers: usize,
    plan: &Plan,
    cores: &[Core],
    sink: &mut K,
    kept: &mut Vec<u8>,
) -> Result<(), SinkFault>
    requires workers { 0 < workers }
    requires cores { AreCores plan.now cores.now }
    requires none { length plan.now.agents ≡ 0 → cores.now ≡ [] }
    ensures { HandsOn (histories_text (agent_names plan.now) (centre_names plan.now)
        (histories plan.now cores.now))
        (flow K.taken K.write_faults K.sure sink.old kept.old.items)
        (flow K.taken K.write_faults K.sure sink.new kept.new.items) result }
{
    let centres = plan.centres();
    for place in 0..centres.len() {
        let (agents, history) = history_at(plan, cores, place);
        write_history(
            rt,
            alloc,
            workers,
            agents,
            &centres[place],
            history,
            sink,
            kept,
        )?;
    }
    Ok(())
}

// The history of the centre at this place, with the names of the agents. One
// that isn't opened has none.
fn history_at<'a>(plan: &Plan, cores: &'a [Core], place: usize) -> (&'a [Name], &'a [Entry])
    requires cores { AreCores plan.now cores.now }
    requires none { length plan.now.agents ≡ 0 → cores.now ≡ [] }
    requires place { place < length plan.now.centres }
    ensures agents { result.0.now ≡ agent_names plan.now }
    ensures history { slice_get (histories plan.now cores.now) place ≡ Some result.1.now }
    ensures run { All (λ e. (id_of e).agent < length (agent_names plan.now)) result.1.now }
{
    match cores.get(place) {
        Some(core) => (core.agents(), core.history()),
        None => (&[], &[]),
    }
}

// Hands on the log of each agent.
fn write_logs<R: Threads + Sync, K: Sink>(
    rt: &R,
    alloc: Global,
    workers: usize,
    plan: &Plan,
    logs: &[Vec<LogRow>],
    sink: &mut K,
    kept: &mut Vec<u8>,
) -> Result<(), SinkFault>
    requires workers { 0 < workers }
    requires logs { length logs.now ≡ length plan.now.agents }
    ensures { HandsOn (logs_text Two (agent_names plan.now) (rows_of logs.now))
        (flow K.taken K.write_faults K.sure sink.old kept.old.items)
        (flow K.taken K.write_faults K.sure sink.new kept.new.items) result }
{
    let agents = plan.agents();
    for place in 0..agents.len() {
        write_log(
            rt,
            alloc,
            workers,
            &agents[place].name,
            &logs[place],
            sink,
            kept,
        )?;
    }
    Ok(())
}
