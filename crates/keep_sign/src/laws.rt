// Laws of the definitions that the calls cite. Each function does nothing: its contract is the law.
ghost use Rattle.std.specs.Prelude.{◌≡◌, ◌++◌, ◌∷◌, ◌^◌, ◌<◌, ◌≤◌, ◌⊎◌, [], not, true, false, filter, List, ℕ};
ghost use Rattle.hex.specs.Hex.{encode_lower};
ghost use Rattle.keep_spec.specs.Locator.{is_locator, is_empty_block, is_permission_hint, digest, stripped, hints, permission};
ghost use Rattle.keep_spec.specs.Sign.{hmac, signed_text, signature_of, verdict};
ghost use Rattle.keep_spec.specs.Times.{nanos};
ghost use Rattle.keep_spec.specs.SignedText.{unsigned, permission_hint, signed};
ghost use Rattle.keep_spec.specs.declared.permission.Permission.{Permission};
ghost use Rattle.keep_spec.specs.declared.unverified.Verified.{Verified};
ghost use Rattle.keep_spec.specs.declared.unverified.Unverified.TheVariants.{Invalid};

/// A locator that was signed is the same locator with one permission hint, the last, and is valid for the token, the ttl and the
/// secret that it was signed with, at each reading up to its expiry.
pub fn signed_locators_are_valid()
    ensures locator { (text token secret : List ℕ) (expiry ttl : ℕ) → is_locator text ≡ true
        → is_locator (signed token expiry ttl secret text) ≡ true }
    ensures stripped { (text token secret : List ℕ) (expiry ttl : ℕ) → is_locator text ≡ true
        → stripped (signed token expiry ttl secret text) ≡ stripped text }
    ensures hints { (text token secret : List ℕ) (expiry ttl : ℕ) → is_locator text ≡ true → is_empty_block text ≡ false
        → hints (signed token expiry ttl secret text)
        ≡ filter (λ h. not (is_permission_hint h)) (hints text) ++ permission_hint (digest text) token expiry ttl secret ∷ [] }
    ensures valid { (text token secret : List ℕ) (expiry ttl reading : ℕ) → is_locator text ≡ true → is_empty_block text ≡ false
        → expiry < 2 ^ 32 → reading ≤ nanos expiry
        → verdict (signed token expiry ttl secret text) token ttl secret reading ≡ Ok (record { digest = digest text; expiry = expiry }) }
{}

/// A locator without its permission hints is the same locator with its other hints alone.
pub fn unsigned_locators_have_no_permission()
    ensures locator { (text : List ℕ) → is_locator text ≡ true → is_locator (unsigned text) ≡ true }
    ensures stripped { (text : List ℕ) → is_locator text ≡ true → stripped (unsigned text) ≡ stripped text }
    ensures hints { (text : List ℕ) → is_locator text ≡ true
        → hints (unsigned text) ≡ filter (λ h. not (is_permission_hint h)) (hints text) }
{}

/// A signature that was made for another digest, token, expiry, ttl or secret is Invalid, unless the HMACs agree.
pub fn other_signatures_are_invalid()
    ensures { (text token secret digest' token' secret' : List ℕ) (expiry ttl expiry' ttl' reading : ℕ)
        → permission text ≡ Some (record { signature = signature_of digest' token' expiry' ttl' secret'; expiry = expiry })
        → reading ≤ nanos expiry
        → (verdict text token ttl secret reading ≡ Err Invalid)
        ⊎ (hmac secret (signed_text (encode_lower (digest text)) token expiry ttl) ≡ hmac secret' (signed_text (encode_lower digest') token' expiry' ttl')) }
{}
