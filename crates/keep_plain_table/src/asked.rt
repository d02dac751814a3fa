// The table's queries as they are asked: by a token's text, a save or an update with all that is tested of its request.
ghost use Rattle.std.specs.Prelude.{◌≡◌, false, IsOk, IsTrue};
ghost use Rattle.keep_spec.specs.Times.{IsReading};
ghost use Rattle.keep_event.specs.Table as machine;
ghost use Rattle.keep_event.specs.Requests as requests;
ghost use Rattle.keep_plain_table.specs.Lines.{IsLine, reply, takes_memory};

use crate::PlainTable;
use keep_collections::{Verdict, judged};
use keep_config::Config;
use keep_event::{SaveRequest, TableAnswer, TableQuery, TableRules};
use keep_spec::NoMemory;
use std::alloc::Global;

// What the table has of a configuration.
fn rules_of(config: &Config) -> TableRules
    ensures { result ≡ requests.rules_of config.now }
{
    TableRules {
        tokens: config.tokens.len() as u32,
        versions: config.versions,
        ttl: config.ttl,
        skew: config.skew,
    }
}

#[tactic(auto, unfolding(keep_event::specs::Requests::save))]
fn save(
    alloc: Global,
    table: &mut PlainTable,
    config: &Config,
    reading: u64,
    request: &SaveRequest,
) -> Result<TableAnswer, NoMemory>
    requires room { IsTrue (machine.has_room table.old) }
    ensures line { IsLine (requests.save config.now reading request.now table.old) table.old table.new result }
{
    let Some(owner) = config.token(request.token.as_slice()) else {
        return Ok(TableAnswer::UnknownToken);
    };
    match judged(alloc, config, reading, request)? {
        Verdict::Good(made) => table.create(owner, made),
        Verdict::Refused(refusal) => Ok(refusal),
    }
}

#[tactic(auto, unfolding(keep_event::specs::Requests::update_line))]
fn update(
    alloc: Global,
    table: &mut PlainTable,
    config: &Config,
    reading: u64,
    collection: u64,
    preserve: bool,
    request: &SaveRequest,
) -> Result<TableAnswer, NoMemory>
    requires room { IsTrue (machine.has_room table.old) }
    requires reading { IsReading reading }
    ensures line { IsLine (requests.update_line config.now reading collection preserve request.now table.old) table.old table.new result }
{
    let Some(token) = config.token(request.token.as_slice()) else {
        return Ok(TableAnswer::UnknownToken);
    };
    if let Some(refusal) = table.may_update(reading, token, collection) {
        return Ok(refusal);
    }
    let rules = rules_of(config);
    match judged(alloc, config, reading, request)? {
        Verdict::Good(made) => table.update(rules, reading, token, collection, made, preserve),
        Verdict::Refused(refusal) => Ok(refusal),
    }
}

fn read(
    table: &PlainTable,
    config: &Config,
    reading: u64,
    token: &[u8],
    collection: u64,
    version: Option<u64>,
) -> Result<TableAnswer, NoMemory>
    requires reading { IsReading reading }
    ensures line { IsLine (requests.known config.now token.now table.now (λ t. machine.read (requests.rules_of config.now) reading t collection version table.now)) table.now table.now result }
{
    match config.token(token) {
        Some(token) => table.read(rules_of(config), reading, token, collection, version),
        None => Ok(TableAnswer::UnknownToken),
    }
}

fn set_trash(
    table: &mut PlainTable,
    config: &Config,
    reading: u64,
    token: &[u8],
    collection: u64,
    trash_at: u64,
    delete_at: u64,
) -> TableAnswer
    requires reading { IsReading reading }
    requires trash_at { IsReading trash_at }
    ensures { reply result table.new ≡ requests.known config.now token.now table.old (λ t. machine.set_trash (requests.rules_of config.now) reading t collection trash_at delete_at table.old) }
{
    match config.token(token) {
        Some(token) => {
            let rules = rules_of(config);
            table.set_trash(rules, reading, token, collection, trash_at, delete_at)
        }
        None => TableAnswer::UnknownToken,
    }
}

fn restore(table: &mut PlainTable, config: &Config, token: &[u8], collection: u64) -> TableAnswer
    ensures { reply result table.new ≡ requests.known config.now token.now table.old (λ t. machine.restore t collection table.old) }
{
    match config.token(token) {
        Some(token) => table.restore(token, collection),
        None => TableAnswer::UnknownToken,
    }
}

/// Makes the call that the query names.
pub(crate) fn step(
    alloc: Global,
    table: &mut PlainTable,
    config: &Config,
    reading: u64,
    query: &TableQuery,
) -> Result<TableAnswer, NoMemory>
    requires room { IsTrue (machine.has_room table.old) }
    requires reading { IsReading reading }
    requires asked { requests.MayAskTable query.now }
    ensures line { IsLine (requests.table_line config.now reading query.now table.old) table.old table.new result }
    ensures memory { takes_memory query.now ≡ false → IsOk result }
{
    match query {
        TableQuery::BeginRound => Ok(table.begin_round(reading)),
        TableQuery::Save { request } => save(alloc, table, config, reading, request),
        TableQuery::Update {
            collection,
            preserve,
            request,
        } => update(
            alloc,
            table,
            config,
            reading,
            *collection,
            *preserve,
            request,
        ),
        TableQuery::Read {
            token,
            collection,
            version,
        } => read(
            table,
            config,
            reading,
            token.as_slice(),
            *collection,
            *version,
        ),
        TableQuery::SetTrash {
            token,
            collection,
            trash_at,
            delete_at,
        } => Ok(set_trash(
            table,
            config,
            reading,
            token.as_slice(),
            *collection,
            *trash_at,
            *delete_at,
        )),
        TableQuery::Restore { token, collection } => {
            Ok(restore(table, config, token.as_slice(), *collection))
        }
        TableQuery::Sweep => Ok(table.sweep(reading)),
        TableQuery::Scan {
            round: _,
            after,
            limit,
        } => table.scan(*after, *limit),
    }
}
