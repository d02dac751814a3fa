// What tasks have in common: a step, which is one query to a port and what its answer makes of the task.
ghost use Rattle.std.specs.Prelude.{◌≡◌, ℕ, ◌∷◌, ◌++◌, [], List, Bool, IfOk, OnErr, IsOk, false, true, is_some, Err};
ghost use Rattle.keep_spec.specs.Causes.{Rose};
ghost use Rattle.keep_event.specs.Answers.{IsAnswerOf};
ghost use Rattle.keep_event.specs.Port.{MayAsk};
ghost use Rattle.keep_event.specs.declared.event.Query.{Query as TheQuery};
ghost use Rattle.keep_history.specs.Next.{Answered, Next, asks};
ghost use Rattle.keep_steps.specs.Steps.{AsksOnce, IsTaken, answered, opened_map, view};

use keep_event::{Port, PortError, Query, Reply};
use keep_history::Outcome;
use keep_spec::NoMemory;

/// What a step was answered, and the task's end where it has one.
#[derive(Drop, Debug)]
pub struct Step {
    pub reply: Reply,
    pub end: Option<Outcome>,
}

/// What an opening makes.
#[derive(Drop, Debug)]
pub enum Opened<T> {
    /// A task, which has asked nothing yet.
    Task(T),
    /// The end at once; nothing is asked.
    Ended(Outcome),
}

impl<T> Opened<T> {
    /// The same end, or what `kind` makes of the task.
    pub fn map<U, F: FnOnce(T) -> U>(self, kind: F) -> Opened<U>
        requires { F.IsAlwaysCallable kind }
        ensures { (made : T → U) → ((task : T) → (other : U) → F.post kind task other → other ≡ made task) → result ≡ opened_map made self }
    {
        match self {
            Opened::Task(task) => Opened::Task(kind(task)),
            Opened::Ended(end) => Opened::Ended(end),
        }
    }
}

/// A task between two queries. It keeps no answers.
pub trait Steps {
    /// The query that comes next.
    ghost query_of: { Self → TheQuery };

    /// Whether it has ended.
    ghost has_ended: { Self → Bool };

    /// Whether it stands where `next` is after these answers.
    ghost stands: { Self → (List Answered → Next) → List Answered → Type 0 };

    /// Whether a port of so many devices has those that it asks.
    ghost may_ask: { Self → ℕ → Type 0 };

    /// Whether it takes each answer that is listed for its query without want of memory. An end that carries a text as long as an answer wants memory, and so
    /// does what a pull or a balance keeps of an answer.
    ghost sure: { Self → Bool };

    /// Whether the task has ended. Then it is asked no more.
    fn ended(&self) -> bool
        ensures { result ≡ has_ended self.now };

    /// The query that comes next.
    fn query(&self) -> &Query
        ensures query { result.now ≡ query_of self.now }
        ensures named { (next : List Answered → Next) → (answers : List Answered) → has_ended self.now ≡ false → stands self.now next answers → next answers ≡ asks (query_of self.now) }
        ensures askable { (devices : ℕ) → may_ask self.now devices → MayAsk devices (query_of self.now) };

    /// Takes the answer to the query, and returns the end where it is one. After `NoMemory` the task is as before.
    fn take(&mut self, reply: &Reply) -> Result<Option<Outcome>, NoMemory>
        requires open { has_ended self.old ≡ false }
        ensures taken { IfOk result (λ end. (next : List Answered → Next) → (answers : List Answered) → stands self.old next answers → IsTaken next (answers ++ answered reply.now ∷ []) end (stands self.new next)) }
        ensures ended { IfOk result (λ end. has_ended self.new ≡ is_some end) }
        ensures askable { (devices : ℕ) → may_ask self.old devices → may_ask self.new devices }
        ensures sure { sure self.old ≡ true → IsAnswerOf (query_of self.old) reply.now.answer → IsOk result }
        ensures unchanged { OnErr result (self.new ≡ self.old) };

    /// Asks the one query that comes next. The port has the task's devices. After an error the task is as before; the query was asked only where
    /// taking its answer wanted memory.
    final fn step<P: Port>(&mut self, actor: u32, port: &mut P) -> Result<Step, PortError>
        requires open { has_ended self.old ≡ false }
        requires askable { may_ask self.old (P.devices port.old) }
        ensures named { (next : List Answered → Next) → (answers : List Answered) → stands self.old next answers → next answers ≡ asks (query_of self.old) }
        ensures asked { AsksOnce (sure self.old) actor (query_of self.old)
            (view P.told P.world P.stamp P.faults P.spent P.store_faults P.devices P.fault_plan port.old)
            (view P.told P.world P.stamp P.faults P.spent P.store_faults P.devices P.fault_plan port.new) result }
        ensures taken { IfOk result (λ s. (next : List Answered → Next) → (answers : List Answered) → stands self.old next answers → IsTaken next (answers ++ answered s.reply ∷ []) s.end (stands self.new next)) }
        ensures ended { IfOk result (λ s. has_ended self.new ≡ is_some s.end) }
        ensures may_ask { may_ask self.new (P.devices port.new) }
        ensures unchanged { OnErr result (self.new ≡ self.old) }
        ensures failed { result ≡ Err PortError.Failed → Rose (P.faults port.old) (P.faults port.new) }
        ensures spent { (drawn : ℕ) → result ≡ Err (PortError.Spent drawn) → Rose (P.spent port.old) (P.spent port.new) }
    {
        let reply = port.ask(actor, self.query())?;
        let end = match self.take(&reply) {
            Ok(end) => end,
            Err(NoMemory) => return Err(PortError::NoMemory),
        };
        Ok(Step { reply, end })
    }
}
