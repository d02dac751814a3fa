// What keeps bytes under names.
ghost use Rattle.std.specs.Prelude.{◌≡◌, ℕ, List, Option, Some, None, IfOk, OnOk, OnErr, IfSome, option_map, map, take, length};
ghost use Rattle.std.specs.Result.{is_err};
ghost use Rattle.keep_event.specs.Store.{find, put, stored, touch, rename, without, above, held_of, size_of, AreAscending, Becomes, Stays};
ghost use Rattle.keep_spec.specs.Causes.{HasCause};
ghost use Rattle.keep_store.specs.Causes.{HasStoreCause};
ghost use Rattle.keep_store.specs.Names.{has};
ghost use Rattle.keep_store.specs.Plans.{FaultPlan, FollowsPlan, has_failed};
ghost use Rattle.keep_event.specs.declared.names.Name.{Name as TheName};
ghost use Rattle.keep_event.specs.declared.names.Stored.{Stored as TheStored};

use keep_event::{Held, Metadata, Name, Stored};
use keep_spec::Failed;

/// Why a store refused a call that may want memory. Either way the store is unchanged.
#[derive(Clone, Copy, Debug, PartialEq, Eq)]
pub enum StoreError {
    /// A call to the outside failed, which the store counts among its faults.
    Failed,
    /// Memory was refused. Every contract permits it.
    NoMemory,
}

/// A store of bytes under names, each name once, with a number beside them, its note. Each call is one step: it is done, or it has failed and changed nothing.
pub trait Store {
    /// What it holds, ascending by name; None where the type doesn't tell. All calls but `put`, `touch`, `rename` and `remove` leave it unchanged.
    ghost held: { Self → Option (List (TheName × TheStored)) };

    /// The note; None where the type doesn't tell. All calls but `set_note` leave it unchanged.
    ghost noted: { Self → Option ℕ };

    /// How many calls have failed. It never falls, and stops at the greatest u64.
    ghost faults: { Self → ℕ };

    /// Which calls are to fail, where that is planned.
    ghost fault_plan: { Self → Option FaultPlan } = { λ s. None };

    /// Returns what is stored under a name. None: nothing is.
    fn get(&mut self, name: &Name) -> Result<Option<Stored>, StoreError>
        ensures value { IfOk result (λ o. IfSome (held self.old) (λ es. o ≡ find name.now es)) }
        ensures unchanged { Stays (held self.old) (held self.new) }
        ensures note { Stays (noted self.old) (noted self.new) }
        ensures cause { HasStoreCause (faults self.old) (faults self.new) result }
        ensures planned { FollowsPlan (fault_plan self.old) (fault_plan self.new) (faults self.old) (faults self.new) (has_failed result) };

    /// Stores the bytes under a name, with a time in nanoseconds since 1970, replacing any existing entry.
    fn put(&mut self, name: &Name, mtime: u64, bytes: &[u8]) -> Result<(), StoreError>
        ensures ok { OnOk result (Becomes (held self.old) (held self.new) (put name.now (stored mtime bytes.now))) }
        ensures err { OnErr result (Stays (held self.old) (held self.new)) }
        ensures note { Stays (noted self.old) (noted self.new) }
        ensures cause { HasStoreCause (faults self.old) (faults self.new) result }
        ensures planned { FollowsPlan (fault_plan self.old) (fault_plan self.new) (faults self.old) (faults self.new) (has_failed result) };

    /// Returns the first `limit` names above a name, or of all names where it is None, ascending, with their times and sizes.
    fn names_from(&mut self, after: Option<Name>, limit: usize) -> Result<Vec<Held>, StoreError>
        ensures value { IfOk result (λ v. IfSome (held self.old) (λ es. v.items ≡ take limit (map held_of (above after es)))) }
        ensures ascending { IfOk result (λ v. AreAscending (map (λ h. h.name) v.items)) }
        ensures unchanged { Stays (held self.old) (held self.new) }
        ensures note { Stays (noted self.old) (noted self.new) }
        ensures cause { HasStoreCause (faults self.old) (faults self.new) result }
        ensures planned { FollowsPlan (fault_plan self.old) (fault_plan self.new) (faults self.old) (faults self.new) (has_failed result) };

    /// Returns the time and the size of what is stored under a name. None: nothing is.
    fn stat(&mut self, name: &Name) -> Result<Option<Metadata>, Failed>
        ensures value { IfOk result (λ o. IfSome (held self.old) (λ es. o ≡ option_map size_of (find name.now es))) }
        ensures unchanged { Stays (held self.old) (held self.new) }
        ensures note { Stays (noted self.old) (noted self.new) }
        ensures cause { HasCause (faults self.old) (faults self.new) result }
        ensures planned { FollowsPlan (fault_plan self.old) (fault_plan self.new) (faults self.old) (faults self.new) (is_err result) };

    /// Sets the time of what is stored under a name, in nanoseconds since 1970. False: nothing is stored there.
    fn touch(&mut self, name: &Name, mtime: u64) -> Result<bool, Failed>
        ensures value { IfOk result (λ b. IfSome (held self.old) (λ es. b ≡ has name.now es)) }
        ensures ok { OnOk result (Becomes (held self.old) (held self.new) (λ es. touch name.now mtime es (find name.now es))) }
        ensures err { OnErr result (Stays (held self.old) (held self.new)) }
        ensures note { Stays (noted self.old) (noted self.new) }
        ensures cause { HasCause (faults self.old) (faults self.new) result }
        ensures planned { FollowsPlan (fault_plan self.old) (fault_plan self.new) (faults self.old) (faults self.new) (is_err result) };

    /// Moves what is stored under a name to another name, replacing any existing entry, and sets its time. False: nothing is stored under the first.
    fn rename(&mut self, from: &Name, to: &Name, mtime: u64) -> Result<bool, Failed>
        ensures value { IfOk result (λ b. IfSome (held self.old) (λ es. b ≡ has from.now es)) }
        ensures ok { OnOk result (Becomes (held self.old) (held self.new) (λ es. rename from.now to.now mtime es (find from.now es))) }
        ensures err { OnErr result (Stays (held self.old) (held self.new)) }
        ensures note { Stays (noted self.old) (noted self.new) }
        ensures cause { HasCause (faults self.old) (faults self.new) result }
        ensures planned { FollowsPlan (fault_plan self.old) (fault_plan self.new) (faults self.old) (faults self.new) (is_err result) };

    /// Removes what is stored under a name. False: nothing is.
    fn remove(&mut self, name: &Name) -> Result<bool, Failed>
        ensures value { IfOk result (λ b. IfSome (held self.old) (λ es. b ≡ has name.now es)) }
        ensures ok { OnOk result (Becomes (held self.old) (held self.new) (without name.now)) }
        ensures err { OnErr result (Stays (held self.old) (held self.new)) }
        ensures note { Stays (noted self.old) (noted self.new) }
        ensures cause { HasCause (faults self.old) (faults self.new) result }
        ensures planned { FollowsPlan (fault_plan self.old) (fault_plan self.new) (faults self.old) (faults self.new) (is_err result) };

    /// Returns the note.
    fn note(&mut self) -> Result<u64, Failed>
        ensures value { IfOk result (λ n. IfSome (noted self.old) (λ m. n ≡ m)) }
        ensures unchanged { Stays (held self.old) (held self.new) }
        ensures note { Stays (noted self.old) (noted self.new) }
        ensures cause { HasCause (faults self.old) (faults self.new) result }
        ensures planned { FollowsPlan (fault_plan self.old) (fault_plan self.new) (faults self.old) (faults self.new) (is_err result) };

    /// Sets the note.
    fn set_note(&mut self, round: u64) -> Result<(), Failed>
        ensures ok { OnOk result (Becomes (noted self.old) (noted self.new) (λ m. round)) }
        ensures err { OnErr result (Stays (noted self.old) (noted self.new)) }
        ensures unchanged { Stays (held self.old) (held self.new) }
        ensures cause { HasCause (faults self.old) (faults self.new) result }
        ensures planned { FollowsPlan (fault_plan self.old) (fault_plan self.new) (faults self.old) (faults self.new) (is_err result) };
}
