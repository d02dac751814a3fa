// The states of the parser within a locator's hints.
ghost use Rattle.std.specs.Prelude.{◌≡◌};
ghost use Rattle.keep_spec.specs.Locator.{is_hint_character};
ghost use Rattle.keep_locator.specs.HintStates.{state_after};

// The state of the parser within a locator's hints, by the last byte.
#[derive(Clone, Copy)]
pub enum HintState {
    // After the size.
    AfterSize,
    // After the plus of a hint.
    AfterPlus,
    // After the letter of a hint, or after a character that follows it.
    InHint,
}

// Whether a byte may follow the letter of a hint.
fn is_hint_character(byte: u8) -> bool
    ensures { result ≡ is_hint_character byte }
{
    byte.is_ascii_alphanumeric() || matches!(byte, b'@' | b'_' | b'-')
}

impl HintState {
    // The state after one more byte; `None` where no hint has this byte here.
    pub fn after(self, byte: u8) -> Option<HintState>
        ensures { result ≡ state_after self byte }
    {
        match self {
            HintState::AfterSize => (byte == b'+').then_some(HintState::AfterPlus),
            HintState::AfterPlus => byte.is_ascii_uppercase().then_some(HintState::InHint),
            HintState::InHint if byte == b'+' => Some(HintState::AfterPlus),
            HintState::InHint => is_hint_character(byte).then_some(HintState::InHint),
        }
    }
}
