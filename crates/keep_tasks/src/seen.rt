// What the devices of a walk have answered, as far as ends depend on it.
ghost use Rattle.std.specs.Prelude.{◌≡◌, ◌<◌, ◌-◌, ◌^◌, ◌∷◌, ◌++◌, ◌||◌, [], List, length};
ghost use Rattle.keep_history.specs.Tasks.{is_fault, found_in, is_back, is_present, not_written, not_fetched, not_touched, untrashed};
ghost use Rattle.keep_event.specs.declared.event.Answer.{Answer as TheAnswer};
ghost use Rattle.std.specs.Option.{option_or};
ghost use Rattle.keep_tasks.specs.Walks.{seen_of, count_if};

use keep_event::{Answer, DeviceAnswer};
use keep_history::Outcome;
use keep_spec::Digest;

/// What the devices of a walk have answered so far: whether a store failed, the first other MD5 that was found, how many trashed copies came back, and
/// whether a replica was there.
#[derive(Drop, Debug)]
pub(crate) struct Seen {
    pub(crate) fault: bool,
    pub(crate) found: Option<Digest>,
    pub(crate) back: u64,
    pub(crate) present: bool,
}

fn is_fault(answer: &Answer) -> bool
    ensures { result ≡ is_fault answer.now }
{
    match answer {
        Answer::Device(DeviceAnswer::StoreFault) => true,
        _ => false,
    }
}

fn found_in(answer: &Answer) -> Option<Digest>
    ensures { result ≡ found_in answer.now }
{
    match answer {
        Answer::Device(DeviceAnswer::Corrupt { found }) => Some(*found),
        _ => None,
    }
}

fn is_back(answer: &Answer) -> bool
    ensures { result ≡ is_back answer.now }
{
    match answer {
        Answer::Device(DeviceAnswer::Back { mtime: _ }) => true,
        _ => false,
    }
}

fn is_present(answer: &Answer) -> bool
    ensures { result ≡ is_present answer.now }
{
    match answer {
        Answer::Device(DeviceAnswer::Present { mtime: _ }) => true,
        _ => false,
    }
}

// Whether a store failed, with one answer more.
fn or_fault(fault: bool, answer: &Answer) -> bool
    ensures { result ≡ (fault || is_fault answer.now) }
{
    fault || is_fault(answer)
}

// Whether a replica was there, with one answer more.
fn or_present(present: bool, answer: &Answer) -> bool
    ensures { result ≡ (present || is_present answer.now) }
{
    present || is_present(answer)
}

// The first other MD5 that was found, with one answer more.
fn or_found(found: Option<Digest>, answer: &Answer) -> Option<Digest>
    ensures { result ≡ option_or found (found_in answer.now) }
{
    match found {
        Some(found) => Some(found),
        None => found_in(answer),
    }
}

// How many copies came back, with one answer more.
fn count_back(back: u64, answer: &Answer) -> u64
    ensures { back < 2 ^ 64 - 1 → result ≡ count_if (is_back answer.now) back }
{
    if is_back(answer) {
        back.saturating_add(1)
    } else {
        back
    }
}

impl Seen {
    /// Before any answer.
    pub(crate) fn none() -> Seen
        ensures { result ≡ seen_of [] }
    {
        Seen {
            fault: false,
            found: None,
            back: 0,
            present: false,
        }
    }

    /// Takes one answer more.
    pub(crate) fn add(&mut self, answer: &Answer)
        ensures { (answers : List TheAnswer) → length answers < 2 ^ 64 - 1 → self.old ≡ seen_of answers → self.new ≡ seen_of (answers ++ answer.now ∷ []) }
    {
        self.fault = or_fault(self.fault, answer);
        self.found = or_found(self.found, answer);
        self.back = count_back(self.back, answer);
        self.present = or_present(self.present, answer);
    }

    /// How a put ends that no device took.
    pub(crate) fn not_written(&self) -> Outcome
        ensures { (answers : List TheAnswer) → self.now ≡ seen_of answers → result ≡ not_written answers }
    {
        if self.fault {
            Outcome::StoreFault
        } else {
            Outcome::NoRoom
        }
    }

    /// How a get ends whose block no device has.
    pub(crate) fn not_fetched(&self) -> Outcome
        ensures { (answers : List TheAnswer) → self.now ≡ seen_of answers → result ≡ not_fetched answers }
    {
        match self.found {
            Some(found) => Outcome::Corrupt { found },
            None if self.fault => Outcome::StoreFault,
            None => Outcome::NotFound,
        }
    }

    /// How a touch ends whose block no device has.
    pub(crate) fn not_touched(&self) -> Outcome
        ensures { (answers : List TheAnswer) → self.now ≡ seen_of answers → result ≡ not_touched answers }
    {
        if self.fault {
            Outcome::StoreFault
        } else {
            Outcome::NotFound
        }
    }

    /// How an untrash ends.
    pub(crate) fn untrashed(&self) -> Outcome
        ensures { (answers : List TheAnswer) → self.now ≡ seen_of answers → result ≡ untrashed answers }
    {
        if self.back > 0 {
            Outcome::Untrashed { copies: self.back }
        } else if self.fault {
            Outcome::StoreFault
        } else if self.present {
            Outcome::Untrashed { copies: 0 }
        } else {
            Outcome::NotFound
        }
    }
}
