// The table's queries as they are asked: by a token's text, a save or an update with all that is tested of its request.
ghost use Rattle.std.specs.Prelude.{◌≡◌, ◌↔◌, ◌<◌, IsTrue, IsOk, IfOk};
ghost use Rattle.std.specs.Bool.{OnTrue};
ghost use Rattle.keep_spec.specs.Times.{IsReading};
ghost use Rattle.keep_event.specs.Table.{has_room};
ghost use Rattle.keep_event.specs.Table as machine;
ghost use Rattle.keep_event.specs.Requests as requests;
ghost use Rattle.keep_table.specs.Contents.{IsLine, is_updated};
ghost use Rattle.keep_event.specs.Answers.{IsTableAnswer};
ghost use Rattle.keep_collections.specs.Rows.{HasRows};
ghost use Rattle.keep_collections.specs.Verdicts.{IsAboutCollection, IsGood, IsGoodUpdate, begins_round, is_saved};

use crate::request::{Verdict, judged};
use keep_config::Config;
use keep_event::{SaveRequest, TableAnswer, TableQuery, TableRules};
use keep_spec::NoMemory;
use keep_table::Table;
use std::alloc::Global;

/// Returns the rules that a table made with this configuration has.
pub fn rules_of(config: &Config) -> TableRules
    ensures { result ≡ requests.rules_of config.now }
{
    TableRules {
        tokens: config.tokens.len() as u32,
        versions: config.versions,
        ttl: config.ttl,
        skew: config.skew,
    }
}

/// Saves a collection at a reading (nanoseconds since 1970), and returns Saved. Refuses with UnknownToken, BadManifest, Unsigned, WrongHash or BadWant, the first that holds. The text is stored without its permission hints.
///
/// A refusal changes nothing, nor does NoMemory, the only error.
#[tactic(auto, unfolding(keep_event::specs::Requests::save))]
pub fn save(
    alloc: Global,
    table: &mut Table,
    config: &Config,
    reading: u64,
    request: &SaveRequest,
) -> Result<TableAnswer, NoMemory>
    requires room { IsTrue (has_room table.old.state) }
    requires rules { table.old.rules ≡ requests.rules_of config.now }
    ensures line { IsLine (requests.save config.now reading request.now table.old.state) table.old table.new result }

    // It is saved exactly where the request is good, want of memory aside.
    ensures saved_where_good { IfOk result (λ answer. IsTrue (is_saved answer) ↔ IsGood config.now reading request.now) }
{
    let Some(owner) = config.token(request.token.as_slice()) else {
        return Ok(TableAnswer::UnknownToken);
    };
    match judged(alloc, config, reading, request)? {
        Verdict::Good(made) => table.create(owner, made),
        Verdict::Refused(refusal) => Ok(refusal),
    }
}

/// Updates a collection at a reading (nanoseconds since 1970), and returns Updated. Refuses with UnknownToken, NoSuch, NotOwner, InTrash, BadManifest, Unsigned, WrongHash, BadWant or TooManyVersions, the first that holds. The record before becomes a version, preserved as long as the collection where `preserve` asks for it.
///
/// A refusal changes nothing, nor does NoMemory, the only error.
#[tactic(auto, unfolding(keep_event::specs::Requests::update_line))]
pub fn update(
    alloc: Global,
    table: &mut Table,
    config: &Config,
    reading: u64,
    collection: u64,
    preserve: bool,
    request: &SaveRequest,
) -> Result<TableAnswer, NoMemory>
    requires room { IsTrue (has_room table.old.state) }
    requires rules { table.old.rules ≡ requests.rules_of config.now }
    requires reading { IsReading reading }
    ensures line { IsLine (requests.update_line config.now reading collection preserve request.now table.old.state) table.old table.new result }

    // It is updated exactly where the request is good for the collection, want of memory aside.
    ensures updated_where_good { IfOk result (λ answer. IsTrue (is_updated answer) ↔ IsGoodUpdate config.now reading collection request.now table.old.state) }
{
    let Some(token) = config.token(request.token.as_slice()) else {
        return Ok(TableAnswer::UnknownToken);
    };
    if let Some(refusal) = table.may_update(reading, token, collection) {
        return Ok(refusal);
    }
    match judged(alloc, config, reading, request)? {
        Verdict::Good(made) => table.update(reading, token, collection, made, preserve),
        Verdict::Refused(refusal) => Ok(refusal),
    }
}

fn read(
    table: &mut Table,
    config: &Config,
    reading: u64,
    token: &[u8],
    collection: u64,
    version: Option<u64>,
) -> Result<TableAnswer, NoMemory>
    requires rules { table.old.rules ≡ requests.rules_of config.now }
    requires reading { IsReading reading }
    ensures { IsLine (requests.known config.now token.now table.old.state (λ t. machine.read (requests.rules_of config.now) reading t collection version table.old.state)) table.old table.new result }
{
    match config.token(token) {
        Some(token) => table.read(reading, token, collection, version),
        None => Ok(TableAnswer::UnknownToken),
    }
}

fn set_trash(
    table: &mut Table,
    config: &Config,
    reading: u64,
    token: &[u8],
    collection: u64,
    trash_at: u64,
    delete_at: u64,
) -> Result<TableAnswer, NoMemory>
    requires rules { table.old.rules ≡ requests.rules_of config.now }
    requires reading { IsReading reading }
    requires trash_at { IsReading trash_at }
    ensures { IsLine (requests.known config.now token.now table.old.state (λ t. machine.set_trash (requests.rules_of config.now) reading t collection trash_at delete_at table.old.state)) table.old table.new result }
{
    match config.token(token) {
        Some(token) => table.set_trash(reading, token, collection, trash_at, delete_at),
        None => Ok(TableAnswer::UnknownToken),
    }
}

fn restore(
    table: &mut Table,
    config: &Config,
    reading: u64,
    token: &[u8],
    collection: u64,
) -> Result<TableAnswer, NoMemory>
    ensures { IsLine (requests.known config.now token.now table.old.state (λ t. machine.restore t collection table.old.state)) table.old table.new result }
{
    match config.token(token) {
        Some(token) => table.restore(reading, token, collection),
        None => Ok(TableAnswer::UnknownToken),
    }
}

// What the table answers to a read, a trash or a restore, which name a collection and store no record.
fn answer_about_collection(
    table: &mut Table,
    config: &Config,
    reading: u64,
    query: &TableQuery,
) -> Result<TableAnswer, NoMemory>
    requires rules { table.old.rules ≡ requests.rules_of config.now }
    requires reading { IsReading reading }
    requires asked { requests.MayAskTable query.now }
    requires about { IsAboutCollection query.now }
    ensures { IsLine (requests.table_line config.now reading query.now table.old.state) table.old table.new result }
{
    match query {
        TableQuery::Read {
            token,
            collection,
            version,
        } => read(
            table,
            config,
            reading,
            token.as_slice(),
            *collection,
            *version,
        ),
        TableQuery::SetTrash {
            token,
            collection,
            trash_at,
            delete_at,
        } => set_trash(
            table,
            config,
            reading,
            token.as_slice(),
            *collection,
            *trash_at,
            *delete_at,
        ),
        TableQuery::Restore { token, collection } => {
            restore(table, config, reading, token.as_slice(), *collection)
        }
        _ => unreachable!(),
    }
}

// What the table answers to a query.
fn answered(
    alloc: Global,
    table: &mut Table,
    config: &Config,
    reading: u64,
    query: &TableQuery,
) -> Result<TableAnswer, NoMemory>
    requires room { IsTrue (has_room table.old.state) }
    requires rules { table.old.rules ≡ requests.rules_of config.now }
    requires reading { IsReading reading }
    requires asked { requests.MayAskTable query.now }
    ensures line { IsLine (requests.table_line config.now reading query.now table.old.state) table.old table.new result }
    ensures rows { IfOk result (HasRows query.now) }
    ensures round_needs_no_memory { OnTrue (begins_round query.now) (IsOk result) }
{
    match query {
        TableQuery::BeginRound => Ok(table.begin_round(reading)),
        TableQuery::Save { request } => save(alloc, table, config, reading, request),
        TableQuery::Update {
            collection,
            preserve,
            request,
        } => update(
            alloc,
            table,
            config,
            reading,
            *collection,
            *preserve,
            request,
        ),
        TableQuery::Read { .. } => answer_about_collection(table, config, reading, query),
        TableQuery::SetTrash { .. } => answer_about_collection(table, config, reading, query),
        TableQuery::Restore { .. } => answer_about_collection(table, config, reading, query),
        TableQuery::Sweep => table.sweep(reading),
        TableQuery::Scan {
            round,
            after,
            limit,
        } => table.scan(*round, *after, *limit),
    }
}

/// Asks the table a query at a reading (nanoseconds since 1970), and returns its answer, which is one of those that `TableQuery` names for the query.
///
/// A refusal changes nothing, nor does NoMemory, the only error, which BeginRound never returns.
#[tactic(auto, using(crate::proofs::Listed::listed))]
pub fn answer(
    alloc: Global,
    table: &mut Table,
    config: &Config,
    reading: u64,
    query: &TableQuery,
) -> Result<TableAnswer, NoMemory>
    requires room { IsTrue (has_room table.old.state) }
    requires rules { table.old.rules ≡ requests.rules_of config.now }
    requires reading { IsReading reading }
    requires asked { requests.MayAskTable query.now }
    ensures line { IsLine (requests.table_line config.now reading query.now table.old.state) table.old table.new result }
    ensures listed { IfOk result (IsTableAnswer query.now) }
    ensures round_needs_no_memory { OnTrue (begins_round query.now) (IsOk result) }
{
    answered(alloc, table, config, reading, query)
}
