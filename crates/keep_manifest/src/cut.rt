// Cutting a text at a byte, and after its first token.
ghost use Rattle.std.specs.Prelude.{◌≡◌, ◌+◌, ◌++◌, ◌<◌, ◌≤◌, ◌∷◌, not, [], List, ℕ, Option, option_map, length, take, drop, IfSome, MatchOption};
ghost use Rattle.std.specs.List.{prefix_len};
ghost use Rattle.keep_spec.specs.Manifest.{cut_at};
ghost use Rattle.keep_spec.specs.SignedText.{changed, ends_token, token_of, with_locators};

// The parts before and after the first such byte.
pub(crate) fn cut_at(text: &[u8], byte: u8) -> Option<(&[u8], &[u8])>
    ensures { option_map (λ p. (p.0.now, p.1.now)) result ≡ cut_at byte text.now }
{
    for (i, b) in text.iter().enumerate() {
        if *b == byte {
            return Some((&text[..i], &text[i + 1..]));
        }
    }
    None
}

/// Splits a text after its first token: the token, the space or newline that ends it (no byte where the text ends first), and the rest.
/// `None` for an empty text.
pub fn cut_token(text: &[u8]) -> Option<(&[u8], &[u8], &[u8])>
    ensures parts { MatchOption result (text.now ≡ []) (λ p. (f : List ℕ → List ℕ)
        → with_locators f text.now ≡ changed f p.0.now ++ p.1.now ++ with_locators f p.2.now) }
    ensures token { IfSome result (λ p. p.0.now ≡ token_of text.now) }
    ensures end { IfSome result (λ p. p.1.now ≡ take 1 (drop (length p.0.now) text.now)) }
    ensures rest { IfSome result (λ p. p.2.now ≡ drop 1 (drop (length p.0.now) text.now)) }
    ensures shorter { IfSome result (λ p. length p.2.now < length text.now) }
{
    if text.len() == 0 {
        return None;
    }
    let (token, ended) = text.split_at(token_len(text));
    let (end, rest) = ended.split_at(ended.len().min(1));
    Some((token, end, rest))
}

// The length of the first token in bytes: up to the first space or newline.
fn token_len(text: &[u8]) -> usize
    ensures place { result ≡ prefix_len (λ c. not (ends_token c)) text.now }
    ensures within { result ≤ length text.now }
{
    for (at, byte) in text.iter().enumerate() {
        if ends_token(*byte) {
            return at;
        }
    }
    text.len()
}

fn ends_token(byte: u8) -> bool
    ensures { result ≡ ends_token byte }
{
    matches!(byte, b' ' | b'\n')
}
