// Locators without their hints.
ghost use Rattle.std.specs.Prelude.{◌≡◌, ◌≤◌, length};
ghost use Rattle.std.specs.Char.{is_ascii_digit};
ghost use Rattle.std.specs.List.{prefix_len};
ghost use Rattle.keep_spec.specs.Locator.{stripped};

// A locator through its size, which follows the digest and its `+`.
#[tactic(auto, unfolding(keep_spec::specs::Locator::stripped, keep_spec::specs::Locator::size_digits))]
pub(crate) fn stripped(locator: &[u8]) -> &[u8]
    ensures { result.now ≡ stripped locator.now }
{
    if locator.len() <= 33 {
        return locator;
    }
    let digits = digits_len(&locator[33..]);
    &locator[..33 + digits]
}

// How many decimal digits a text begins with.
fn digits_len(text: &[u8]) -> usize
    ensures front { result ≡ prefix_len is_ascii_digit text.now }
    ensures within { result ≤ length text.now }
{
    for (at, byte) in text.iter().enumerate() {
        if !byte.is_ascii_digit() {
            return at;
        }
    }
    text.len()
}
