// Reading a source line by line.
ghost use Rattle.std.specs.Prelude.{◌≡◌, ◌≤◌, ◌<◌, ◌+◌, ◌++◌, ◌↔◌, ℕ, List, Option, None, Some, OnOk, OnErr, IfOk, IfErr, IfSome, IsErrOf, length, vec_len, take, drop, [], Err, true, false};
ghost use Rattle.std.specs.Io.KnownBytes.{prepend_known, Keeps};
ghost use Rattle.keep_spec.specs.Causes.{Rose};
ghost use Rattle.keep_spec.specs.Lines.{verdict_of, newlines, line_too_long, input_too_long};
ghost use Rattle.keep_base.specs.Ends.{IsNewlineFrom, IsJudged, IsFound, IsReadOnto, HasEnded, error_of_stop};

use crate::Source;
use std::alloc::Global;

/// The most bytes of a line before its newline.
pub const LINE_MAX: u64 = 1_048_576;

/// The most bytes of an input.
pub const INPUT_MAX: u64 = 1073741824;

// How many bytes the source is asked for at a time.
const CHUNK: usize = 16384;

/// Why a line can't be read. Each later call returns the same error, and reads nothing.
#[derive(Clone, Copy, Debug, PartialEq, Eq)]
pub enum LineError {
    /// The source failed, and counted the fault.
    ReadFault,
    /// The line with this number has more than `LINE_MAX` bytes before its newline.
    LineTooLong { number: u64 },
    /// The next line, with its newline, reaches past the first `INPUT_MAX` bytes of the input.
    InputTooLong,
    /// Memory was refused.
    NoMemory,
}

// The length of the first line of what is pending: without and with its newline.
#[derive(Clone, Copy)]
pub(crate) struct Found {
    pub(crate) text: usize,
    pub(crate) piece: usize,
}

// Why the end of a line isn't found.
#[derive(Clone, Copy)]
pub(crate) enum Stop {
    ReadFault,
    LineTooLong,
    InputTooLong,
    NoMemory,
}

// Whether lines are read on. Else each call of `next` returns what the last one did, and reads nothing.
#[derive(Clone, Copy)]
enum State {
    Reading,
    Ended,
    Failed(LineError),
}

/// Reads a source line by line, and lends each line until the next one is read. A last line without a newline counts.
#[derive(Drop)]
pub struct Lines<'a, R: Source> {
    source: &'a mut R,
    // What was read ahead; the first `start` bytes are of lines that were returned. The text of the last of them stands at `text_start`.
    pending: Vec<u8>,
    start: usize,
    text_start: usize,
    text_len: usize,
    taken: u64,
    number: u64,
    state: State,
    ghost in_range: { taken ≤ 1073741824 },
    ghost numbered: { number ≤ taken },
    ghost within: { start ≤ vec_len pending },
    ghost text_within: { text_start + text_len ≤ vec_len pending },
    ghost ended: { HasEnded state (drop start pending.items) (R.left source.now) },
}

// The index of the first newline at or after `from`.
fn newline_from(bytes: &[u8], from: usize) -> Option<usize>
    requires { from ≤ length bytes.now }
    ensures { IsNewlineFrom bytes.now from result }
{
    for i in from..bytes.len() {
        if bytes[i] == b'\n' {
            return Some(i);
        }
    }
    None
}

// Tests a piece against the bounds of a line and of the input.
fn judge(taken: u64, text: usize, piece: usize) -> Result<(), Stop>
    requires taken { taken ≤ INPUT_MAX }
    ensures { IsJudged (verdict_of LINE_MAX INPUT_MAX taken text piece) result }
{
    if text as u64 > LINE_MAX && taken + LINE_MAX <= INPUT_MAX {
        return Err(Stop::LineTooLong);
    }
    if piece as u64 > INPUT_MAX - taken {
        return Err(Stop::InputTooLong);
    }
    Ok(())
}

// Reads onto the end of what is pending, and returns how many bytes came: none at the end of the input. Takes the memory of a read before it, so that no byte
// is lost where memory is refused.
fn read_onto<R: Source>(source: &mut R, pending: &mut Vec<u8>) -> Result<usize, Stop>
    requires { vec_len pending.old ≤ 1073741824 }
    ensures read { IsReadOnto pending.old.items pending.new.items (R.left source.old) (R.left source.new) result }
    ensures never_falls { R.faults source.old ≤ R.faults source.new }
    ensures cause { IsErrOf result Stop.ReadFault → Rose (R.faults source.old) (R.faults source.new) }
{
    let len = pending.len();
    if pending.resize(len + CHUNK, 0).is_err() {
        return Err(Stop::NoMemory);
    }
    match source.read(&mut pending[len..]) {
        Ok(count) => {
            pending.truncate(len + count);
            Ok(count)
        }
        Err(_) => {
            pending.truncate(len);
            Err(Stop::ReadFault)
        }
    }
}

// Reads until the first line of what is pending ends.
fn fill<R: Source>(source: &mut R, pending: &mut Vec<u8>, taken: u64) -> Result<Option<Found>, Stop>
    requires { taken ≤ INPUT_MAX }
    ensures found { IsFound taken result pending.new.items (R.left source.new) }
    ensures bytes { Keeps (prepend_known pending.old.items (R.left source.old)) (prepend_known pending.new.items (R.left source.new)) }
    ensures never_falls { R.faults source.old ≤ R.faults source.new }
    ensures cause { IsErrOf result Stop.ReadFault → Rose (R.faults source.old) (R.faults source.new) }
{
    let mut scanned = 0;
    loop {
        if let Some(text) = newline_from(pending, scanned) {
            judge(taken, text, text + 1)?;
            return Ok(Some(Found {
                text,
                piece: text + 1,
            }));
        }
        scanned = pending.len();
        judge(taken, scanned, scanned)?;
        let count = read_onto(source, pending)?;
        if count == 0 {
            return Ok(if scanned == 0 {
                None
            } else {
                Some(Found {
                    text: scanned,
                    piece: scanned,
                })
            });
        }
    }
}

// Removes the first bytes.
fn drop_front(bytes: &mut Vec<u8>, count: usize)
    requires { count ≤ length bytes.old.items }
    ensures { bytes.new.items ≡ drop count bytes.old.items }
{
    let len = bytes.len();
    bytes.as_mut_slice().copy_within(count..len, 0);
    bytes.truncate(len - count);
}

// Finds the end of the first line that is pending from `start` on. Reads only if it isn't there whole.
fn find<R: Source>(
    source: &mut R,
    pending: &mut Vec<u8>,
    start: &mut usize,
    taken: u64,
) -> Result<Option<Found>, Stop>
    requires taken { taken ≤ INPUT_MAX }
    requires within { start.old ≤ vec_len pending.old }
    ensures within { start.new ≤ vec_len pending.new }
    ensures found { IsFound taken result (drop start.new pending.new.items) (R.left source.new) }
    ensures bytes { Keeps (prepend_known (drop start.old pending.old.items) (R.left source.old)) (prepend_known (drop start.new pending.new.items) (R.left source.new)) }
    ensures memory { IsErrOf result Stop.NoMemory → newlines (drop start.old pending.old.items) ≡ 0 }
    ensures never_falls { R.faults source.old ≤ R.faults source.new }
    ensures cause { IsErrOf result Stop.ReadFault → Rose (R.faults source.old) (R.faults source.new) }
{
    if let Some(text) = newline_from(&pending[*start..], 0) {
        judge(taken, text, text + 1)?;
        return Ok(Some(Found {
            text,
            piece: text + 1,
        }));
    }
    drop_front(pending, *start);
    *start = 0;
    fill(source, pending, taken)
}

impl<'a, R: Source> Lines<'a, R> {
    ghost use Rattle.keep_base.specs.Lines.{lines_left, lines_text, lines_failed, lines_ended, lines_ahead, lines_taken, lines_number, lines_source, lines_name, IsNext, IsEnd, IsInterrupted, IsStopped, IsNextJudged, Stays};

    /// A reader of what the source has left. It reads nothing yet, and takes no memory.
    pub fn new(alloc: Global, source: &'a mut R) -> Lines<'a, R>
        ensures same_reference { lines_name result ≡ source.entry.ghost_name }
        ensures same_source { lines_source result ≡ source.old }
        ensures left { lines_left result ≡ prepend_known [] (R.left source.old) }
        ensures nothing_ahead { lines_ahead result ≡ [] }
        ensures not_ended { lines_ended result ≡ false }
        ensures starts_at_zero { (lines_taken result ≡ 0) × (lines_number result ≡ 0) × (lines_failed result ≡ None) }
        ensures no_text { lines_text result ≡ [] }
    {
        Lines {
            source,
            pending: Vec::new(alloc),
            start: 0,
            text_start: 0,
            text_len: 0,
            taken: 0,
            number: 0,
            state: State::Reading,
        }
    }

    /// Returns the source; what was read ahead is lost. A caller that promises something of its source ends with this call, since nothing is known of a borrow in a value that is dropped.
    pub fn into_source(self) -> &'a mut R
        ensures same_reference { result.ghost_name ≡ lines_name self.entry }
        ensures same_source { result.now ≡ lines_source self.entry }
    {
        let Lines { source, .. } = self;
        source
    }

    /// Reads the next line and returns its number, counted from 1; `text` lends the line. Returns `None` at the end of the input: then the source has nothing left and nothing is read ahead.
    /// After `None` and after an error each call returns the same, and reads nothing, also where the source would go on. Then `text` lends nothing.
    /// An error loses no byte, and counts no byte and no line. `ReadFault` comes where the source failed: each line that stood whole in what it gave before was returned, and what is read ahead is within the bounds.
    /// Memory is wanted only before a read, so `NoMemory` comes only where the line doesn't stand whole in what was read ahead.
    pub fn next(&mut self) -> Result<Option<u64>, LineError>
        ensures same_reference { lines_name self.new ≡ lines_name self.old }
        ensures next_line { (lines_failed self.old) ≡ None →
            IsNext (lines_taken self.old) (lines_number self.old) (lines_left self.old) result (lines_text self.new) (lines_taken self.new) (lines_left self.new) }
        ensures ended { result ≡ Ok None → IsEnd self.old self.new }
        ensures remembers_end { (result ≡ Ok None) ↔ (lines_ended self.new ≡ true) }
        ensures same_end { lines_ended self.old ≡ true → (result ≡ Ok None) × Stays self.old self.new }
        ensures interrupted { result ≡ Err LineError.ReadFault → (lines_failed self.old) ≡ None → IsInterrupted self.old self.new }
        ensures memory { result ≡ Err LineError.NoMemory → (lines_failed self.old) ≡ None → IsInterrupted self.old self.new × (newlines (lines_ahead self.old) ≡ 0) }
        ensures line_too_long { (n : ℕ) → result ≡ Err (LineError.LineTooLong n) → (lines_failed self.old) ≡ None → (n ≡ lines_number self.old + 1) × IsNextJudged (lines_taken self.old) (lines_ahead self.new) line_too_long }
        ensures input_too_long { result ≡ Err LineError.InputTooLong → (lines_failed self.old) ≡ None → IsNextJudged (lines_taken self.old) (lines_ahead self.new) input_too_long }
        ensures stopped { OnErr result (IsStopped self.old self.new) }
        ensures number { IfOk result (λ o. IfSome o (λ n. (n ≡ lines_number self.new) × (lines_number self.new ≡ lines_number self.old + 1))) }
        ensures advances { IfOk result (λ o. IfSome o (λ _. (lines_taken self.old) < (lines_taken self.new))) }
        ensures unfailed { OnOk result ((lines_failed self.old ≡ None) × (lines_failed self.new ≡ None)) }
        ensures failed { IfErr result (λ e. (lines_failed self.new) ≡ Some e) }
        ensures no_text { OnErr result (lines_text self.new ≡ []) }
        ensures same_error { IfSome (lines_failed self.old) (λ e. result ≡ Err e) }
        ensures error_stays { IfSome (lines_failed self.old) (λ _. Stays self.old self.new) }
        ensures never_falls { R.faults (lines_source self.old) ≤ R.faults (lines_source self.new) }
        ensures cause { result ≡ Err LineError.ReadFault → (lines_failed self.old) ≡ None → Rose (R.faults (lines_source self.old)) (R.faults (lines_source self.new)) }
    {
        self.text_start = 0;
        self.text_len = 0;
        match self.state {
            State::Reading => {}
            State::Ended => return Ok(None),
            State::Failed(error) => return Err(error),
        }
        let result = self.advance();
        match result {
            Ok(Some(_)) => {}
            Ok(None) => self.state = State::Ended,
            Err(error) => self.state = State::Failed(error),
        }
        result
    }

    /// The text of the line whose number the last call of `next` returned, without its newline; empty where that call returned none, or before the first call.
    pub fn text(&self) -> &[u8]
        ensures { result.now ≡ lines_text self.now }
    {
        &self.pending[self.text_start..][..self.text_len]
    }

    fn advance(&mut self) -> Result<Option<u64>, LineError>
        requires no_text { (self.old.text_start ≡ 0) × (self.old.text_len ≡ 0) }
        requires reading { self.old.state ≡ State.Reading }
        ensures same_reference { lines_name self.new ≡ lines_name self.old }
        ensures next_line { IsNext (lines_taken self.old) (lines_number self.old) (lines_left self.old) result (lines_text self.new) (lines_taken self.new) (lines_left self.new) }
        ensures ended { result ≡ Ok None → IsEnd self.old self.new }
        ensures interrupted { result ≡ Err LineError.ReadFault → IsInterrupted self.old self.new }
        ensures memory { result ≡ Err LineError.NoMemory → IsInterrupted self.old self.new × (newlines (lines_ahead self.old) ≡ 0) }
        ensures line_too_long { (n : ℕ) → result ≡ Err (LineError.LineTooLong n) → (n ≡ lines_number self.old + 1) × IsNextJudged (lines_taken self.old) (lines_ahead self.new) line_too_long }
        ensures input_too_long { result ≡ Err LineError.InputTooLong → IsNextJudged (lines_taken self.old) (lines_ahead self.new) input_too_long }
        ensures stopped { OnErr result (IsStopped self.old self.new) }
        ensures number { IfOk result (λ o. IfSome o (λ n. (n ≡ lines_number self.new) × (lines_number self.new ≡ lines_number self.old + 1))) }
        ensures advances { IfOk result (λ o. IfSome o (λ _. (lines_taken self.old) < (lines_taken self.new))) }
        ensures reading { self.new.state ≡ State.Reading }
        ensures no_text { OnErr result (lines_text self.new ≡ []) }
        ensures never_falls { R.faults (lines_source self.old) ≤ R.faults (lines_source self.new) }
        ensures cause { result ≡ Err LineError.ReadFault → Rose (R.faults (lines_source self.old)) (R.faults (lines_source self.new)) }
    {
        let found = match find(self.source, &mut self.pending, &mut self.start, self.taken) {
            Ok(Some(found)) => found,
            Ok(None) => return Ok(None),
            Err(stop) => return Err(error_of(stop, self.number + 1)),
        };
        self.text_start = self.start;
        self.text_len = found.text;
        self.start += found.piece;
        self.taken += found.piece as u64;
        self.number += 1;
        Ok(Some(self.number))
    }
}

fn error_of(stop: Stop, number: u64) -> LineError
    ensures { result ≡ error_of_stop stop number }
{
    match stop {
        Stop::ReadFault => LineError::ReadFault,
        Stop::LineTooLong => LineError::LineTooLong { number },
        Stop::InputTooLong => LineError::InputTooLong,
        Stop::NoMemory => LineError::NoMemory,
    }
}
