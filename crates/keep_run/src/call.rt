// The top call: the configuration, the devices over the first stores, and the lines.
ghost use Rattle.std.specs.Prelude.{◌≡◌, ◌≢◌, ◌≤◌, ◌↔◌, ℕ, List, Some, None, Ok, true, false, IfOk, IfErr, IfSome, length, drop, vec_len};
ghost use Rattle.keep_spec.specs.Causes.{Rose};
ghost use Rattle.keep_base.specs.Lines.{lines_left, lines_failed, lines_taken, lines_number, lines_source, lines_name};
ghost use Rattle.keep_history.specs.Run.{Kept, config_for};
ghost use Rattle.keep_history.specs.Reads.{ReadsAreOfPuts};
ghost use Rattle.keep_history.specs.Collisions.{CollisionsAreRefused};
ghost use Rattle.keep_history.specs.Whole.{GoodTasksEndWell};
ghost use Rattle.keep_history.specs.Finished.{FinishesEndTasks};
ghost use Rattle.keep_history.specs.Ordered.{RunsAreOrdered};
ghost use Rattle.keep_run.specs.Saves.{GoodSavesAreMade};
ghost use Rattle.keep_run.specs.Stores.{told_by, count_of, devices_in, FirstTell, HasBegun, IsConfigRefusal, StoresRan, RanWell};
ghost use Rattle.keep_run.specs.Words.{is_run};
ghost use Rattle.keep_spec.specs.declared.config.Field.{Field as TheField};

use crate::run::{run_lines, status_of};
use crate::stage::Stage;
use crate::stores::{give_back, open_all};
use keep_base::{Lines, Sink, Source};
use keep_cluster::Cluster;
use keep_config::{Config, ConfigError};
use keep_spec::{Field, Status};
use keep_store::Store;
use std::alloc::Global;
use std::collections::BTreeMap;

// Whether the words are `run` alone.
fn is_run(words: &[String]) -> bool
    ensures { result ≡ is_run words.now }
{
    if words.len() == 1 {
        words[0].as_str() == "run"
    } else {
        false
    }
}

// Opens the devices over the first stores, runs the lines, and gives the stores back.
fn run_stores<R: Source, W: Sink, S: Store>(
    alloc: Global,
    config: &Config,
    lines: &mut Lines<'_, R>,
    sink: &mut W,
    stores: &mut Vec<S>,
) -> Status
    requires unfailed { lines_failed lines.old ≡ None }
    requires first { lines_number lines.old ≡ 1 }
    requires enough { length config.now.devices ≤ vec_len stores.old }
    ensures told { (whole : List ℕ) → (bytes : List ℕ) → (starts : List Kept) → lines_left lines.old ≡ Some bytes → HasBegun (vec_len stores.old) whole bytes config.now (lines_taken lines.old)
        → FirstTell (length config.now.devices) (told_by S.held S.noted S.faults stores.old.items) starts
        → StoresRan (told_by S.held S.noted S.faults stores.old.items) (told_by S.held S.noted S.faults stores.new.items) whole (W.taken sink.old) starts result (R.left (lines_source lines.new)) (W.taken sink.new) }
    ensures len { vec_len stores.new ≡ vec_len stores.old }
    ensures others { drop (length config.now.devices) stores.new.items ≡ drop (length config.now.devices) stores.old.items }
    ensures same_reference { lines_name lines.new ≡ lines_name lines.old }
    ensures words { result ≢ Status.BadWords }
    ensures config { (field : TheField) → result ≢ Status.BadConfig field }
    ensures open { (device : ℕ) → result ≡ Status.StoreFault device → Rose (count_of device (told_by S.held S.noted S.faults stores.old.items)) (count_of device (told_by S.held S.noted S.faults stores.new.items)) }
    ensures write { result ≡ Status.WriteFault → Rose (W.faults sink.old) (W.faults sink.new) }
    ensures read { result ≡ Status.ReadFault → Rose (R.faults (lines_source lines.old)) (R.faults (lines_source lines.new)) }
{
    let volumes = match open_all(alloc, config, stores) {
        Ok(volumes) => volumes,
        Err(status) => return status,
    };
    let mut stage = Stage {
        cluster: Cluster::new(alloc, config, volumes),
        names: BTreeMap::new(alloc),
    };
    let status = run_lines(alloc, config, lines, &mut stage, sink);
    let Stage { cluster, names: _ } = stage;
    give_back(cluster.into_volumes(), stores);
    status
}

// Parses the configuration of the first line, for `stores` stores.
fn read_config(alloc: Global, text: &[u8], stores: usize) -> Result<Config, Status>
    ensures ok { IfOk result (λ c. config_for stores text.now ≡ Ok c) }
    ensures enough { IfOk result (λ c. length c.devices ≤ stores) }
    ensures err { IfErr result (λ status. IsConfigRefusal status (config_for stores text.now)) }
{
    let config = match Config::read(alloc, text) {
        Ok(config) => config,
        Err(ConfigError::BadConfig { field }) => return Err(Status::BadConfig { field }),
        Err(ConfigError::NoMemory) => return Err(Status::NoMemory),
    };
    if stores < config.devices.len() {
        return Err(Status::BadConfig {
            field: Field::Devices,
        });
    }
    Ok(config)
}

// Runs an input from its first line on.
fn run_input<R: Source, W: Sink, S: Store>(
    alloc: Global,
    lines: &mut Lines<'_, R>,
    sink: &mut W,
    stores: &mut Vec<S>,
) -> Status
    requires unfailed { lines_failed lines.old ≡ None }
    requires taken { lines_taken lines.old ≡ 0 }
    requires number { lines_number lines.old ≡ 0 }
    ensures told { (bytes : List ℕ) → (starts : List Kept) → lines_left lines.old ≡ Some bytes
        → FirstTell (devices_in (vec_len stores.old) bytes) (told_by S.held S.noted S.faults stores.old.items) starts
        → StoresRan (told_by S.held S.noted S.faults stores.old.items) (told_by S.held S.noted S.faults stores.new.items) bytes (W.taken sink.old) starts result (R.left (lines_source lines.new)) (W.taken sink.new) }
    ensures len { vec_len stores.new ≡ vec_len stores.old }
    ensures others { (bytes : List ℕ) → lines_left lines.old ≡ Some bytes → drop (devices_in (vec_len stores.old) bytes) stores.new.items ≡ drop (devices_in (vec_len stores.old) bytes) stores.old.items }
    ensures same_reference { lines_name lines.new ≡ lines_name lines.old }
    ensures words { result ≢ Status.BadWords }
    ensures config { (field : TheField) → result ≡ Status.BadConfig field → stores.new.items ≡ stores.old.items }
    ensures open { (device : ℕ) → result ≡ Status.StoreFault device → Rose (count_of device (told_by S.held S.noted S.faults stores.old.items)) (count_of device (told_by S.held S.noted S.faults stores.new.items)) }
    ensures write { result ≡ Status.WriteFault → Rose (W.faults sink.old) (W.faults sink.new) }
    ensures read { result ≡ Status.ReadFault → Rose (R.faults (lines_source lines.old)) (R.faults (lines_source lines.new)) }
{
    match lines.next() {
        Ok(Some(_)) => {}
        Ok(None) => return Status::BadConfig { field: Field::Line },
        Err(error) => return status_of(error),
    }
    match read_config(alloc, lines.text(), stores.len()) {
        Ok(config) => run_stores(alloc, &config, lines, sink, stores),
        Err(status) => status,
    }
}

/// Runs a script. The words are `run` alone; the first line of the source is the configuration, and each further line is a script line or empty.
/// Each device of the configuration is opened over the store of its number, which must hold nothing; as many stores come back, in their order, and those
/// without a device are as they were. Lines are counted from 1, devices from 0; readings are in nanoseconds since 1970, bounds of lines and inputs in bytes.
///
/// The status says how the run ended. `BadWords` leaves stores, source and sink untouched. `BadConfig`, `NotEmpty` and `StoreFault` come before the first
/// script line, and leave in the stores what they kept; `BadLine`, `LineTooLong`, `InputTooLong` and `PortFault` leave what the lines before left, with their
/// whole text written. `ReadFault` comes between two lines, when each line that was read whole is done and its text written. After `WriteFault` a line is done
/// and a beginning of its text is written; after `NoMemory` the first events of a line may be, with none of its text. A fault comes only where the failing
/// object's count rose. Status and stores are so whatever the sink is; what was written is said of one that tells. The form of script and output is this
/// project's own.
pub fn run_call<R: Source, W: Sink, S: Store>(
    alloc: Global,
    words: &[String],
    source: &mut R,
    sink: &mut W,
    stores: &mut Vec<S>,
) -> Status
    ensures words { (result ≡ Status.BadWords) ↔ (is_run words.now ≡ false) }
    ensures ran_well { is_run words.now ≡ true → (bytes : List ℕ) → (starts : List Kept) → R.left source.old ≡ Some bytes
        → FirstTell (devices_in (vec_len stores.old) bytes) (told_by S.held S.noted S.faults stores.old.items) starts
        → RanWell (told_by S.held S.noted S.faults stores.old.items) (told_by S.held S.noted S.faults stores.new.items) bytes (W.taken sink.old) starts result (R.left source.new) (W.taken sink.new) }
    ensures reads { IfSome (R.left source.old) (λ bytes. (failed : List ℕ) → ReadsAreOfPuts (vec_len stores.old) failed bytes) }
    ensures collisions { IfSome (R.left source.old) (λ bytes. (failed : List ℕ) → CollisionsAreRefused (vec_len stores.old) failed bytes) }
    ensures saves { IfSome (R.left source.old) (λ bytes. (failed : List ℕ) → GoodSavesAreMade (vec_len stores.old) failed bytes) }
    ensures good_tasks { IfSome (R.left source.old) (λ bytes. (failed : List ℕ) → GoodTasksEndWell (vec_len stores.old) failed bytes) }
    ensures finished { IfSome (R.left source.old) (λ bytes. (failed : List ℕ) → FinishesEndTasks (vec_len stores.old) failed bytes) }
    ensures ordered { IfSome (R.left source.old) (λ bytes. (failed : List ℕ) → RunsAreOrdered (vec_len stores.old) failed bytes) }
    ensures len { vec_len stores.new ≡ vec_len stores.old }
    ensures others { is_run words.now ≡ true → (bytes : List ℕ) → R.left source.old ≡ Some bytes → drop (devices_in (vec_len stores.old) bytes) stores.new.items ≡ drop (devices_in (vec_len stores.old) bytes) stores.old.items }
    ensures untouched { result ≡ Status.BadWords → (stores.new ≡ stores.old) × (source.new ≡ source.old) × (sink.new ≡ sink.old) }
    ensures config { (field : TheField) → result ≡ Status.BadConfig field → stores.new.items ≡ stores.old.items }
    ensures open { (device : ℕ) → result ≡ Status.StoreFault device → Rose (count_of device (told_by S.held S.noted S.faults stores.old.items)) (count_of device (told_by S.held S.noted S.faults stores.new.items)) }
    ensures write { result ≡ Status.WriteFault → Rose (W.faults sink.old) (W.faults sink.new) }
    ensures read { result ≡ Status.ReadFault → Rose (R.faults source.old) (R.faults source.new) }
{
    if !is_run(words) {
        return Status::BadWords;
    }
    let mut lines = Lines::new(alloc, source);
    let status = run_input(alloc, &mut lines, sink, stores);
    let _source = lines.into_source();
    status
}
