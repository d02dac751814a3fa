// Laws of the definitions that the calls cite. The function does nothing: its contract is the laws.
ghost use Rattle.std.specs.Prelude.{◌≡◌};
ghost use Rattle.keep_spec.specs.Manifest.{IsGood};
ghost use Rattle.keep_spec.specs.declared.manifest.Manifest.{Manifest};
ghost use Rattle.keep_normal.specs.Files.{ranges};
ghost use Rattle.keep_normal.specs.Normal.{normal};

/// A good manifest and its normal form have the same files with the same ranges of the same blocks, even where a number of the normal
/// form is too large to be written; and a normal form is its own normal form.
pub fn normal_forms_keep_files()
    ensures files { (m : Manifest) → IsGood m → ranges (normal m) ≡ ranges m }
    ensures own_normal_form { (m : Manifest) → IsGood m → normal (normal m) ≡ normal m }
{}
