// The script lines of a run, one after another.
ghost use Rattle.std.specs.Prelude.{◌≡◌, ◌≢◌, ◌≤◌, IfOk, Err, None, Some, ℕ, List, length};
ghost use Rattle.keep_spec.specs.Causes.{Rose};
ghost use Rattle.keep_base.specs.Lines.{lines_left, lines_failed, lines_taken, lines_number, lines_source, lines_name};
ghost use Rattle.keep_event.specs.Port.{NoneFalls};
ghost use Rattle.keep_event.specs.World.{new_world};
ghost use Rattle.keep_cluster.specs.Cluster.{faults_at, world_of};
ghost use Rattle.keep_run.specs.Commands.{IsLineDone, IsWritten};
ghost use Rattle.keep_run.specs.Going.{status_of_line, IsOfLine};
ghost use Rattle.keep_run.specs.Runs.{LinesRan, beginning};
ghost use Rattle.keep_run.specs.Scenes.{IsStageOf, IsFresh, HasRoom, GrowsByLine};
ghost use Rattle.keep_spec.specs.declared.config.Field.{Field as TheField};

use crate::stage::{Done, Stage, do_command};
use keep_base::{LineError, Lines, Sink, Source, WriteFault, write_all};
use keep_config::Config;
use keep_script::{CommandError, read_line};
use keep_spec::{NoMemory, Status};
use keep_store::Store;
use std::alloc::Global;

// Writes the text of a line. A line that asked for an event more than there may be ends the run, once its text is written.
fn write_text<W: Sink>(sink: &mut W, text: &[u8], spent: bool) -> Result<(), Status>
    ensures told { IsWritten spent (W.taken sink.old) (W.taken sink.new) text.now result }
    ensures of_line { IsOfLine result }
    ensures never_falls { W.faults sink.old ≤ W.faults sink.new }
    ensures cause { result ≡ Err Status.WriteFault → Rose (W.faults sink.old) (W.faults sink.new) }
{
    match write_all(sink, text) {
        Ok(()) => {
            if spent {
                Err(Status::PortFault)
            } else {
                Ok(())
            }
        }
        Err(WriteFault) => Err(Status::WriteFault),
    }
}

// Does the line of a number, and writes what it prints in one piece. An empty line does nothing.
fn run_line<W: Sink, S: Store>(
    alloc: Global,
    config: &Config,
    number: u64,
    text: &[u8],
    stage: &mut Stage<'_, S>,
    sink: &mut W,
) -> Result<(), Status>
    requires sound { IsStageOf config.now stage.old }
    requires room { HasRoom stage.old }
    ensures told { IsLineDone config.now number text.now stage.old stage.new (W.taken sink.old) (W.taken sink.new) result }
    ensures of_line { IsOfLine result }
    ensures sound { IfOk result (λ _. IsStageOf config.now stage.new) }
    ensures grows { GrowsByLine stage.old stage.new }
    ensures stores_never_fall { NoneFalls (faults_at stage.old.cluster.devices) (faults_at stage.new.cluster.devices) }
    ensures devices { length stage.new.cluster.config.devices ≡ length stage.old.cluster.config.devices }
    ensures sink_never_falls { W.faults sink.old ≤ W.faults sink.new }
    ensures cause { result ≡ Err Status.WriteFault → Rose (W.faults sink.old) (W.faults sink.new) }
{
    if text.is_empty() {
        return Ok(());
    }
    let command = match read_line(alloc, config, &stage.names, text) {
        Ok(command) => command,
        Err(CommandError::NotALine) => return Err(Status::BadLine { number }),
        Err(CommandError::NoMemory) => return Err(Status::NoMemory),
    };
    let mut out = Vec::new(alloc);
    match do_command(alloc, config, stage, command, &mut out) {
        Ok(Done::Whole) => write_text(sink, out.as_slice(), false),
        Ok(Done::Spent) => write_text(sink, out.as_slice(), true),
        Ok(Done::Refused) => Err(Status::BadLine { number }),
        Err(NoMemory) => Err(Status::NoMemory),
    }
}

/// The status of a run whose lines ended with an error.
pub(crate) fn status_of(error: LineError) -> Status
    ensures { result ≡ status_of_line error }
{
    match error {
        LineError::ReadFault => Status::ReadFault,
        LineError::LineTooLong { number } => Status::LineTooLong { number },
        LineError::InputTooLong => Status::InputTooLong,
        LineError::NoMemory => Status::NoMemory,
    }
}

/// Does the lines one after another, until their end or the first that can't be done.
pub(crate) fn run_lines<R: Source, W: Sink, S: Store>(
    alloc: Global,
    config: &Config,
    lines: &mut Lines<'_, R>,
    stage: &mut Stage<'_, S>,
    sink: &mut W,
) -> Status
    requires unfailed { lines_failed lines.old ≡ None }
    requires fresh { IsFresh config.now stage.old }
    ensures told { (bytes : List ℕ) → lines_left lines.old ≡ Some bytes → world_of stage.old.cluster ≡ Some (new_world config.now) →
        LinesRan config.now (beginning (lines_taken lines.old) (lines_number lines.old) bytes) result (R.left (lines_source lines.new)) (faults_at stage.old.cluster.devices) (faults_at stage.new.cluster.devices) (world_of stage.new.cluster) (W.taken sink.old) (W.taken sink.new) }
    ensures same_reference { lines_name lines.new ≡ lines_name lines.old }
    ensures devices { length stage.new.cluster.config.devices ≡ length stage.old.cluster.config.devices }
    ensures source_never_falls { R.faults (lines_source lines.old) ≤ R.faults (lines_source lines.new) }
    ensures stores_never_fall { NoneFalls (faults_at stage.old.cluster.devices) (faults_at stage.new.cluster.devices) }
    ensures sink_never_falls { W.faults sink.old ≤ W.faults sink.new }
    ensures words { result ≢ Status.BadWords }
    ensures store { (device : ℕ) → result ≢ Status.StoreFault device }
    ensures empty { (device : ℕ) → result ≢ Status.NotEmpty device }
    ensures config { (field : TheField) → result ≢ Status.BadConfig field }
    ensures write { result ≡ Status.WriteFault → Rose (W.faults sink.old) (W.faults sink.new) }
    ensures read { result ≡ Status.ReadFault → Rose (R.faults (lines_source lines.old)) (R.faults (lines_source lines.new)) }
{
    loop {
        let number = match lines.next() {
            Ok(Some(number)) => number,
            Ok(None) => return Status::Done,
            Err(error) => return status_of(error),
        };
        match run_line(alloc, config, number, lines.text(), stage, sink) {
            Ok(()) => {}
            Err(status) => return status,
        }
    }
}
