// HMAC over SHA-1 (RFC 2104).
ghost use Rattle.std.specs.Prelude.{◌≡◌, ◌≤◌, ◌++◌, [], List, ℕ, length};
ghost use Rattle.keep_spec.specs.Sign.{padded_key, hmac};

use sha1::Sha1;

// The block size of SHA-1, in bytes.
const BLOCK: usize = 64;

const INNER_PAD: u8 = 0x36;

const OUTER_PAD: u8 = 0x5c;

// HMAC-SHA1 of a text that comes in pieces.
#[derive(Drop)]
pub struct MacState {
    inner: Sha1,
    outer: Sha1,
}

impl MacState {
    ghost use Rattle.keep_sign.specs.Keyed.{IsKeyed, HasPads};

    // The HMAC under a key, of no text yet.
    pub fn new(key: &[u8]) -> MacState
        ensures { IsKeyed key.now [] result }
    {
        if key.len() > BLOCK {
            MacState::of_short(&Sha1::digest(key))
        } else {
            MacState::of_short(key)
        }
    }

    // Under a key of at most one block.
    fn of_short(key: &[u8]) -> MacState
        requires { length key.now ≤ 64 }
        ensures { HasPads key.now [] result }
    {
        let mut inner = Sha1::new();
        inner.update(&padded(key, INNER_PAD));
        let mut outer = Sha1::new();
        outer.update(&padded(key, OUTER_PAD));
        MacState { inner, outer }
    }

    // Appends to the text.
    pub fn update(&mut self, text: &[u8])
        ensures { (key before : List ℕ) → IsKeyed key before self.old → IsKeyed key (before ++ text.now) self.new }
    {
        self.inner.update(text);
    }

    // The HMAC of the text.
    pub fn finalize(self) -> [u8; 20]
        ensures { (key text : List ℕ) → IsKeyed key text self → result ≡ hmac key text }
    {
        let MacState { inner, mut outer } = self;
        outer.update(&inner.finalize());
        outer.finalize()
    }
}

// A key filled with zeros to one block, each byte xored with a pad.
fn padded(key: &[u8], pad: u8) -> [u8; BLOCK]
    requires { length key.now ≤ 64 }
    ensures { result ≡ padded_key key.now pad }
{
    let mut block = [pad; BLOCK];
    for i in 0..BLOCK {
        block[i] = key.get(i).copied().unwrap_or(0) ^ pad;
    }
    block
}

/// HMAC-SHA1 of a text under a key of any length, 20 bytes (RFC 2104). Takes no memory.
pub fn hmac(key: &[u8], text: &[u8]) -> [u8; 20]
    ensures { result ≡ hmac key.now text.now }
{
    let mut mac = MacState::new(key);
    mac.update(text);
    mac.finalize()
}
