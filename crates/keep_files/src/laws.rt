// Laws of the definitions that the calls cite. The function does nothing: its contract is the laws.
ghost use Rattle.std.specs.Prelude.{◌≡◌, ◌↔◌, None, List, [], map, Contains};
ghost use Rattle.std.specs.List.Sorted.{IsStrictlySortedBy};
ghost use Rattle.keep_normal.specs.Grouped.{byte_order};
ghost use Rattle.keep_files.specs.Layout.{ascending};
ghost use Rattle.keep_files.specs.Packed.{first_fault};
ghost use Rattle.keep_files.specs.declared.file.FileIn.{FileIn};

/// Where files have no fault, the ascending files are just these, and their paths ascend in the order of their bytes.
pub fn ascending_files_are_the_files()
    ensures ascending { (fs : List FileIn) → first_fault [] fs ≡ None → IsStrictlySortedBy byte_order (map (λ f. f.path) (ascending fs)) }
    ensures same_files { (fs : List FileIn) → first_fault [] fs ≡ None → (f : FileIn) → Contains (ascending fs) f ↔ Contains fs f }
{}
