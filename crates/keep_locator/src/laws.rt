// Laws of the definitions that the calls cite. Each function does nothing: its contract is the law.
ghost use Rattle.std.specs.Prelude.{◌≡◌, ◌↔◌, ◌++◌, ◌<◌, true, List, ℕ, length, take, slice_index};
ghost use Rattle.std.specs.List.{concat};
ghost use Rattle.hex.specs.Hex.{encode_lower};
ghost use Rattle.keep_spec.specs.Digest.{digest_of};
ghost use Rattle.keep_spec.specs.Locator.{is_locator, stripped, size_digits, hints, IsJoined, BeginsLocator, begins_locator};

/// A text is a locator exactly where it is a digest, `+`, a number and hints, joined in this order; these are then its digest, size
/// digits and hints, and its stripped text with its hints is the whole text.
pub fn locators_are_joined_parts()
    ensures joined { (text : List ℕ) → is_locator text ≡ true → IsJoined text (take 32 text) (size_digits text) (hints text) }
    ensures own_parts { (text digits number : List ℕ) (others : List (List ℕ)) → IsJoined text digits number others
        → (is_locator text ≡ true) × (take 32 text ≡ digits) × (size_digits text ≡ number) × (hints text ≡ others) }
    ensures stripped_then_hints { (text : List ℕ) → is_locator text ≡ true → text ≡ stripped text ++ concat (hints text) }
{}

/// `begins_locator` decides whether some locator begins with a text.
pub fn prefixes_are_decidable()
    ensures { (front : List ℕ) → BeginsLocator front ↔ (begins_locator front ≡ true) }
{}

/// A digest is read from its 32 lower-case digits and from no other text.
pub fn digests_have_one_text()
    ensures own_text { (digest : List ℕ) → length digest ≡ 16 → ((i : ℕ) → slice_index digest i < 256)
        → digest_of (encode_lower digest) ≡ Some digest }
    ensures no_other_text { (text digest : List ℕ) → digest_of text ≡ Some digest → text ≡ encode_lower digest }
{}
