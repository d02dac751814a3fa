// Tasks that ask the table of collections.
ghost use Rattle.std.specs.Prelude.{◌≡◌, IfOk, OnErr, IsOk, Some, false};
ghost use Rattle.keep_spec.specs.Config.{Configuration};
ghost use Rattle.keep_event.specs.declared.event.Query.{Query as TheQuery};
ghost use Rattle.keep_event.specs.declared.table.TableQuery.{TableQuery as TheTableQuery};
ghost use Rattle.keep_history.specs.Tasks.{end_as_answered, refused, table_end, table_end_of, token_of_query};
ghost use Rattle.keep_tasks.specs.Tables.{ends_of, is_row};

use crate::row::signed_row;
use crate::uuid::Unnumbered;
use keep_config::Config;
use keep_event::{Answer, Query, Reply, TableAnswer, TableQuery};
use keep_history::Outcome;
use keep_spec::{Bytes, NoMemory};
use keep_steps::{Opened, Steps};
use std::alloc::Global;

/// What a task of the table keeps of the configuration for its ends.
#[derive(Drop, Debug)]
pub(crate) struct Ends {
    /// The beginning of the UUID that an end may have.
    uuid: Option<Unnumbered>,
    ttl: u32,
    secret: Bytes,
}

/// A save, an update, a read, a trash, a restore or a sweep: it asks the table once. Only the end of a read wants memory, for the row's text; what changes the
/// table ends without.
#[derive(Drop)]
pub struct TableTask {
    alloc: Global,
    query: Query,
    ends: Ends,
    ended: bool,
}

fn token_of_query(query: &TableQuery) -> &[u8]
    ensures { result.now ≡ token_of_query query.now }
{
    match query {
        TableQuery::Read {
            token,
            collection: _,
            version: _,
        } => token.as_slice(),
        _ => b"",
    }
}

// The token of a query to the table.
fn token_of(query: &Query) -> &[u8]
    ensures { (q : TheTableQuery) → query.now ≡ TheQuery.Table q → result.now ≡ token_of_query q }
{
    match query {
        Query::Table(query) => token_of_query(query),
        Query::Device(_, _) => b"",
    }
}

// The end of a refusal.
fn refused(answer: &TableAnswer) -> Outcome
    ensures { result ≡ refused answer.now }
{
    match answer {
        TableAnswer::UnknownToken => Outcome::UnknownToken,
        TableAnswer::NoSuch => Outcome::NoSuch,
        TableAnswer::NotOwner => Outcome::NotOwner,
        TableAnswer::InTrash { at } => Outcome::InTrash { at: *at },
        TableAnswer::BadManifest { at, kind } => Outcome::BadManifest {
            at: *at,
            kind: *kind,
        },
        TableAnswer::Unsigned { index, why } => Outcome::Unsigned {
            index: *index,
            why: *why,
        },
        TableAnswer::WrongHash { computed } => Outcome::WrongHash {
            computed: *computed,
        },
        TableAnswer::BadWant => Outcome::BadWant,
        TableAnswer::TooManyVersions { held } => Outcome::TooManyVersions { held: *held },
        _ => Outcome::NotFound,
    }
}

// The end of an answer that goes into it as it is.
fn end_as_answered(answer: &TableAnswer) -> Outcome
    ensures { result ≡ end_as_answered answer.now }
{
    match answer {
        TableAnswer::TrashSet {
            trash_at,
            delete_at,
        } => Outcome::TrashSet {
            trash_at: *trash_at,
            delete_at: *delete_at,
        },
        TableAnswer::Restored => Outcome::Restored,
        TableAnswer::Swept {
            versions,
            collections,
        } => Outcome::Swept {
            versions: *versions,
            collections: *collections,
        },
        _ => refused(answer),
    }
}

impl Ends {
    fn new(alloc: Global, config: &Config) -> Result<Ends, NoMemory>
        ensures { IfOk result (λ e. e ≡ ends_of config.now) }
    {
        Ok(Ends {
            uuid: Some(Unnumbered::new(alloc, config)?),
            ttl: config.ttl,
            secret: config.secret.duplicate(alloc)?,
        })
    }

    // The end of an answer to a query with a token. The beginning of the UUID is taken where the end has one; None without it.
    #[tactic(auto, unfolding(keep_history::specs::Tasks::table_end))]
    fn end(
        &mut self,
        alloc: Global,
        token: &[u8],
        answer: &TableAnswer,
    ) -> Result<Option<Outcome>, NoMemory>
        ensures end { IfOk result (λ o. (c : Configuration) → (q : TheTableQuery) → self.old ≡ ends_of c → token.now ≡ token_of_query q → o ≡ Some (table_end c q answer.now)) }
        ensures sure { is_row answer.now ≡ false → IsOk result }
        ensures unchanged { OnErr result (self.new ≡ self.old) }
    {
        match answer {
            TableAnswer::Saved {
                number,
                version,
                portable,
            } => {
                let Some(uuid) = self.uuid.take() else {
                    return Ok(None);
                };
                Ok(Some(Outcome::Saved {
                    uuid: uuid.with_number(*number),
                    version: *version,
                    portable: *portable,
                }))
            }
            TableAnswer::Updated {
                number,
                version,
                portable,
            } => {
                let Some(uuid) = self.uuid.take() else {
                    return Ok(None);
                };
                Ok(Some(Outcome::Updated {
                    uuid: uuid.with_number(*number),
                    version: *version,
                    portable: *portable,
                }))
            }
            TableAnswer::Row {
                number: _,
                version,
                expiry,
                want,
                trash_at,
                text,
            } => {
                let secret = self.secret.as_slice();
                let text = signed_row(alloc, self.ttl, secret, token, *expiry, text.as_slice())?;
                Ok(Some(Outcome::Row {
                    version: *version,
                    want: *want,
                    trash_at: *trash_at,
                    text,
                }))
            }
            _ => Ok(Some(end_as_answered(answer))),
        }
    }
}

/// The end of a task that asked the table, by its answer. The only error is NoMemory.
pub fn table_outcome(
    alloc: Global,
    config: &Config,
    query: &TableQuery,
    answer: &TableAnswer,
) -> Result<Outcome, NoMemory>
    ensures { IfOk result (λ o. o ≡ table_end config.now query.now answer.now) }
{
    let mut ends = Ends::new(alloc, config)?;
    match ends.end(alloc, token_of_query(query), answer)? {
        Some(outcome) => Ok(outcome),
        None => unreachable!(),
    }
}

impl Steps for TableTask {
    ghost use Rattle.keep_tasks.specs.Tables.{IsTable, is_read};
    ghost use Rattle.keep_event.specs.Port.{MayAsk};
    ghost use Rattle.std.specs.Prelude.{not};

    ghost query_of = { λ t. t.query };

    ghost has_ended = { λ t. t.ended };

    ghost stands = { λ t. IsTable t.query t.ends };

    ghost may_ask = { λ t n. MayAsk n t.query };

    ghost sure = { λ t. not (is_read t.query) };

    fn ended(&self) -> bool {
        self.ended
    }

    fn query(&self) -> &Query {
        &self.query
    }

    fn take(&mut self, reply: &Reply) -> Result<Option<Outcome>, NoMemory> {
        let end = self.end(&reply.answer)?;
        self.ended = end.is_some();
        Ok(end)
    }
}

impl TableTask {
    ghost use Rattle.keep_tasks.specs.Tables.{is_read};
    ghost use Rattle.keep_steps.specs.Steps.{IsOpened, IsReady};
    ghost use Rattle.keep_event.specs.Answers.{IsAnswerOf};
    ghost use Rattle.keep_event.specs.Requests.{MayAskTable};
    ghost use Rattle.keep_history.specs.Tasks.{asks_table, is_task_query};
    ghost use Rattle.std.specs.Prelude.{IsTrue};

    /// Opens a task that asks the table this query, which isn't one of a round. It never ends at once; that the query is good is tested by the table. The time from
    /// which a SetTrash puts a collection into the trash is a reading.
    pub fn open(
        alloc: Global,
        config: &Config,
        query: TableQuery,
    ) -> Result<Opened<TableTask>, NoMemory>
        requires task { IsTrue (is_task_query query) }
        requires askable { MayAskTable query }
        ensures opened { IfOk result (λ o. IsOpened (asks_table query) o (λ t task.
            IsReady (⟦<TableTask as Steps>⟧.has_ended t) (⟦<TableTask as Steps>⟧.stands t) (⟦<TableTask as Steps>⟧.may_ask t) config.now task)) }
    {
        let ends = Ends::new(alloc, config)?;
        Ok(Opened::Task(TableTask {
            alloc,
            query: Query::Table(query),
            ends,
            ended: false,
        }))
    }

    // The end that an answer makes.
    fn end(&mut self, answer: &Answer) -> Result<Option<Outcome>, NoMemory>
        ensures end { IfOk result (λ o. (c : Configuration) → (q : TheTableQuery) → self.old.query ≡ TheQuery.Table q → self.old.ends ≡ ends_of c → o ≡ Some (table_end_of c q answer.now)) }
        ensures sure { is_read self.old.query ≡ false → IsAnswerOf self.old.query answer.now → IsOk result }
        ensures unchanged { OnErr result (self.new ≡ self.old) }
        ensures query { self.new.query ≡ self.old.query }
    {
        match answer {
            Answer::Table(answer) => {
                let token = token_of(&self.query);
                self.ends.end(self.alloc, token, answer)
            }
            Answer::Device(_) => Ok(Some(Outcome::NotFound)),
        }
    }
}
