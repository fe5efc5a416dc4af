//! A text, read behind its configuration and judged.
ghost use Rattle.std.specs.Prelude.{◌≡◌, ◌+◌, IfErr, IfOk, Some};
ghost use Rattle.std.specs.Result.{IsErrOf};
ghost use Rattle.tc_io.specs.Faults.{Counts};
ghost use Rattle.tc_io.specs.Sinks.{sink_of};
ghost use Rattle.tc_io.specs.Sources.{ReadsSome, source_of};
ghost use Rattle.tc_verify.specs.Judgements.{IsRefusedWith};
ghost use Rattle.tc_visits.specs.Service.{DoorState};
ghost use Rattle.tucson.specs.Ending.{Returns};
ghost use Rattle.tucson.specs.Reading.{FindsVerdict, IsStopFor, IsToldOf, StopsReading};
ghost use Rattle.tucson.specs.Status.{status_of_verdict};
ghost use Rattle.tucson.specs.declared.limits.TheConstants.{MOST_INPUT};

use crate::command::Command;
use crate::limits::MOST_INPUT;
use crate::reading::Stop;
use crate::refusing::stopped;
use crate::status::Status;
use crate::writing::written;
use std::alloc::Global;
use tc_io::{Sink, Source, read_all};
use tc_lists::Seq;
use tc_verify::{Judgement, Question, Verdict, judge};

/// Reads a configuration, a line `%%` and a text, and writes whether the text is that of a run of
/// the configuration, or the first place at which it isn't.
///
/// It is a call of the command for that, and leaves any door as it is. It waits for nobody.
pub fn verify_main<S: Source, K: Sink>(alloc: Global, source: &mut S, sink: &mut K) -> Status
    ensures { (door : DoorState) → Returns (record {
      command = Some Command.Verify;
      source = source_of S.left S.read_faults S.sure source.old;
      source_after = source_of S.left S.read_faults S.sure source.new;
      sink = sink_of K.taken K.write_faults K.sure sink.old;
      sink_after = sink_of K.taken K.write_faults K.sure sink.new;
      door = door;
      door_after = door;
    }) result }
{
    match read_verdict(alloc, source) {
        Ok((status, line)) => written(status, line.items(), sink),
        Err(stop) => stopped(alloc, stop, sink),
    }
}

// Reads a source to its end: the status and the line of the verdict on the text in it.
fn read_verdict<S: Source>(alloc: Global, source: &mut S) -> Result<(Status, Seq<u8>), Stop>
    ensures found { IfOk result (FindsVerdict (S.left source.old) (S.left source.new)) }
    ensures stopped { IfErr result (StopsReading MOST_INPUT IsRefusedWith
        (source_of S.left S.read_faults S.sure source.old)
        (source_of S.left S.read_faults S.sure source.new)) }
    ensures rest { ReadsSome (S.left source.old) (S.left source.new) (MOST_INPUT + 1) }
    ensures reads { Counts (IsErrOf result Stop.ReadFault)
        (S.read_faults source.old) (S.read_faults source.new) }
{
    let input = read_all(alloc, source, MOST_INPUT)?;
    told_of(alloc, &input)
}

// The status and the line of the verdict on the text in an input.
fn told_of(alloc: Global, input: &[u8]) -> Result<(Status, Seq<u8>), Stop>
    ensures found { IfOk result (λ told. IsToldOf input.now told.0 told.1) }
    ensures stopped { IfErr result (IsStopFor IsRefusedWith input.now) }
{
    match judge(alloc, Question::Run, input)? {
        Judgement::Judged(verdict, line) => Ok((status_of_verdict(verdict), line)),
        Judgement::Refused { clause, cause } => Err(Stop::Refused { clause, cause }),
    }
}

// The status of a verdict.
fn status_of_verdict(verdict: Verdict) -> Status
    ensures { result ≡ status_of_verdict verdict }
{
    match verdict {
        Verdict::Yes => Status::Ended,
        Verdict::NoText(_) | Verdict::NoEntry(_, _) | Verdict::NoAgent(_, _) | Verdict::NoEnd => {
            Status::No
        }
    }
}
