// The UUIDs of collections.
ghost use Rattle.std.specs.Prelude.{◌≡◌, ◌≤◌, ◌+◌, ◌++◌, IfOk, replicate, vec_len, vec_capacity};
ghost use Rattle.keep_event.specs.Collections as collections;
ghost use Rattle.keep_tasks.specs.Tables.{uuid_beginning};

use crate::room::push_bytes;
use itoa::Buffer;
use keep_config::Config;
use keep_spec::{Bytes, NoMemory, read_number};
use std::alloc::Global;
use std::marker::Model;

/// How many digits the number of a collection has in its UUID.
const NUMBER_DIGITS: usize = 15;

/// How many bytes a UUID has.
const UUID_SIZE: usize = 27;

/// The most digits that a number of 64 bits has.
const MOST_DIGITS: usize = 20;

/// The beginning of the UUIDs of a cluster's collections, with room for a number.
#[derive(Drop, Debug)]
pub(crate) struct Unnumbered {
    text: Vec<u8>,
}

impl Model for Unnumbered {
    ghost use Rattle.std.specs.Prelude.{ℕ, List, ◌≤◌, ◌+◌, vec_len, vec_capacity};

    ghost Value = { List ℕ };

    ghost view = { λ u. u.text.items };

    ghost invariant = { λ u. vec_len u.text + 20 ≤ vec_capacity u.text };
}

// Zeros, at most as many as a collection's number has digits.
#[tactic(auto, using(crate::proofs::Padding::take_zeros))]
fn push_zeros(out: &mut Vec<u8>, count: usize)
    requires few { count ≤ NUMBER_DIGITS }
    requires room { vec_len out.old + count ≤ vec_capacity out.old }
    ensures items { out.new.items ≡ out.old.items ++ replicate count 48 }
    ensures len { vec_len out.new ≡ vec_len out.old + count }
    ensures room { vec_capacity out.old ≤ vec_capacity out.new }
{
    let zeros = [b'0'; NUMBER_DIGITS];
    push_bytes(out, &zeros[..count]);
}

impl Unnumbered {
    /// The beginning of a configuration's cluster.
    pub(crate) fn new(alloc: Global, config: &Config) -> Result<Unnumbered, NoMemory>
        ensures { IfOk result (λ u. u ≡ uuid_beginning config.now) }
    {
        let cluster = config.cluster.as_slice();
        let kind = b"-4zz18-".as_slice();
        let mut room = Vec::with_capacity(alloc, cluster.len() + kind.len() + MOST_DIGITS)?;
        push_bytes(&mut room, cluster);
        push_bytes(&mut room, kind);
        Ok(Unnumbered { text: room })
    }

    /// The UUID with a number, in 15 decimal digits, more only where it has more. Takes no memory.
    pub(crate) fn with_number(self, number: u64) -> Bytes
        ensures { result ≡ self ++ collections.padded number }
    {
        let Unnumbered { text: mut out } = self;
        let mut buffer = Buffer::new();
        let digits = buffer.format(number).as_bytes();
        push_zeros(&mut out, NUMBER_DIGITS.saturating_sub(digits.len()));
        push_bytes(&mut out, digits);
        Bytes::of(out)
    }
}

fn has_collection_form(config: &Config, text: &[u8]) -> bool
    ensures { result ≡ collections.has_collection_form config.now text.now }
{
    text.len() == UUID_SIZE
        && &text[0..5] == config.cluster.as_slice()
        && &text[5..12] == b"-4zz18-".as_slice()
}

/// Returns the number of a collection by its UUID, or 0, which no collection has, where the text isn't the UUID of a collection of this cluster. It takes no memory.
#[tactic(auto, unfolding(keep_event::specs::Collections::collection_number))]
pub(crate) fn collection_number(config: &Config, text: &[u8]) -> u64
    ensures { result ≡ collections.collection_number config.now text.now }
{
    if !has_collection_form(config, text) {
        return 0;
    }
    match read_number(&text[12..27]) {
        Some(number) => number,
        None => 0,
    }
}
