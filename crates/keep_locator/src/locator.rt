// A locator in its text.
ghost use Rattle.std.specs.Prelude.{◌≡◌, ◌==◌, ◌^◌, ◌<◌, true, IfErr, slice_index, slice_get};
ghost use Rattle.std.specs.Option.{option_copied};

use crate::hint::{first_hint, read_permission};
use crate::hint_state::HintState;
use keep_spec::{DIGEST_DIGITS, Digest, Permission, digest_prefix_len, number_prefix};
use std::marker::Model;

/// A text that isn't a locator.
#[derive(Clone, Copy, Debug, PartialEq, Eq)]
pub struct BadLocator {
    /// In bytes: the length of the longest prefix of the text that begins some locator.
    pub at: usize,
}

/// A locator. Contracts see it as its text, from which it borrows.
#[derive(Drop)]
pub struct Locator<'a> {
    text: &'a [u8],
    size: u64,
    size_end: usize,
}

impl<'a> Model for Locator<'a> {
    ghost use Rattle.std.specs.Prelude.{List, ℕ};
    ghost use Rattle.keep_locator.specs.Parsing.{IsParsed};

    ghost Value = { List ℕ };

    ghost view = { λ l. l.text.now };

    ghost invariant = { λ l. IsParsed l.text.now l.size l.size_end };
}

impl<'a> Locator<'a> {
    ghost use Rattle.keep_spec.specs.Locator.{IsLongestPrefix};
    ghost use Rattle.keep_locator.specs.Parsing.{locator_of};

    /// Parses a whole text: a digest, `+` and the size in 1 to 19 decimal digits, then hints, each of them `+`, an upper-case letter
    /// and any number of letters, digits, `@`, `_` and `-` (Arvados). On error says how far the text goes (this project's own rule).
    pub fn read(text: &'a [u8]) -> Result<Locator<'a>, BadLocator>
        ensures parsed { result ≡ locator_of text.now }
        ensures longest { IfErr result (λ e. IsLongestPrefix text.now e.at) }
    {
        let digits = digest_prefix_len(text);
        if digits < DIGEST_DIGITS {
            return Err(BadLocator { at: digits });
        }
        if !is_plus_at(text, DIGEST_DIGITS) {
            return Err(BadLocator { at: DIGEST_DIGITS });
        }
        let front = number_prefix(&text[DIGEST_DIGITS + 1..]);
        if front.digits == 0 {
            return Err(BadLocator {
                at: DIGEST_DIGITS + 1,
            });
        }
        let size_end = DIGEST_DIGITS + 1 + front.digits;
        let mut state = HintState::AfterSize;
        for at in size_end..text.len() {
            let Some(next) = state.after(text[at]) else {
                return Err(BadLocator { at });
            };
            state = next;
        }
        if let HintState::AfterPlus = state {
            return Err(BadLocator { at: text.len() });
        }
        Ok(Locator {
            text,
            size: front.value,
            size_end,
        })
    }
}

impl<'a> Locator<'a> {
    ghost use Rattle.keep_spec.specs.Locator.{digest, size, stripped, hints, permission, is_empty_block, is_locator, cut_before_plus};

    /// The digest: the first 32 characters, read as 16 bytes.
    pub fn digest(&self) -> Digest
        ensures value { result ≡ digest self.now }
        ensures text { is_locator self.now ≡ true }
    {
        match Digest::read(&self.text[..DIGEST_DIGITS]) {
            Some(digest) => digest,
            None => unreachable!(),
        }
    }

    /// The size that the locator states, in bytes, below 10^19. The block itself is not looked at.
    pub fn size(&self) -> u64
        ensures value { result ≡ size self.now }
        ensures bound { result < 10 ^ 19 }
    {
        self.size
    }

    /// The text through the size, without hints. Leading zeros of the size stay.
    pub fn stripped(&self) -> &'a [u8]
        ensures { result.now ≡ stripped self.now }
    {
        &self.text[..self.size_end]
    }

    /// The hint number `index`, counted from 0, with its plus; `None` past the last.
    pub fn hint(&self, index: usize) -> Option<&'a [u8]>
        ensures { option_copied result ≡ slice_get (hints self.now) index }
    {
        let mut rest = self.hint_text();
        for _passed in 0..index {
            let (_, after) = first_hint(rest)?;
            rest = after;
        }
        let (hint, _) = first_hint(rest)?;
        Some(hint)
    }

    /// The text of all hints, each with its plus; empty where there is none.
    pub fn hint_text(&self) -> &'a [u8]
        ensures { cut_before_plus result.now ≡ hints self.now }
    {
        &self.text[self.size_end..]
    }

    /// Whether this is the empty block: the digest of no bytes, and a size of value 0. It needs no signature.
    pub fn is_empty_block(&self) -> bool
        ensures { result ≡ is_empty_block self.now }
    {
        self.size == 0
            && &self.text[..DIGEST_DIGITS] == b"d41d8cd98f00b204e9800998ecf8427e".as_slice()
    }

    /// What the permission hint says; `None` where there is none, or more than one.
    pub fn permission(&self) -> Option<Permission>
        ensures { result ≡ permission self.now }
    {
        let mut found = None;
        let mut rest = self.hint_text();
        while let Some((hint, after)) = first_hint(rest) {
            if let Some(permission) = read_permission(hint) {
                if found.is_some() {
                    return None;
                }
                found = Some(permission);
            }
            rest = after;
        }
        found
    }
}

// Whether the byte at `at` is a plus.
fn is_plus_at(text: &[u8], at: usize) -> bool
    ensures { result ≡ (slice_index text.now at == 43) }
{
    text.get(at) == Some(&b'+')
}
