// What the definition of an index means, beside the calls.
ghost use Rattle.std.specs.Prelude.{◌≡◌, ◌<◌, ℕ, List, length, take, None, Ok, Err};
ghost use Rattle.std.specs.List.{AllByRecursion};
ghost use Rattle.keep_event.specs.Index.{index_text, index_of, cut_off, IsWritable, Ascend};
ghost use Rattle.keep_event.specs.declared.lists.Entry.{Entry};

/// A text that is cut anywhere before its empty line is never an index.
pub fn cut_indexes_are_cut_off()
    ensures { (text : List ℕ) (entries : List Entry) (n : ℕ) → index_of text ≡ Ok entries → n < length text
        → index_of (take n text) ≡ Err cut_off }
{}

/// What is written of entries that ascend strictly by digest, with sizes and times below 10^19, is read again as these.
pub fn written_indexes_are_read_again()
    ensures { (entries : List Entry) → AllByRecursion IsWritable entries → Ascend None entries → index_of (index_text entries) ≡ Ok entries }
{}
