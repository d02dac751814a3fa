// The lists of all devices while they grow.
ghost use Rattle.std.specs.Prelude.{◌≡◌, ◌++◌, ◌∷◌, [], OnOk, IfOk};

use keep_event::{Lists, PullItem, TrashItem};
use keep_spec::{Items, NoMemory};
use std::alloc::Global;
use std::marker::Model;

/// The lists of one device while they grow. Contracts see them as they will be given out.
#[derive(Drop, Debug)]
pub struct Draft {
    trash: Vec<TrashItem>,
    pull: Vec<PullItem>,
}

impl Model for Draft {
    ghost use Rattle.keep_event.specs.declared.lists.Lists.{Lists};

    ghost Value = { Lists };

    ghost view = { λ d. record { trash = d.trash.items; pull = d.pull.items } };
}

impl Draft {
    ghost use Rattle.std.specs.Prelude.{Some, None};
    ghost use Rattle.keep_plan.specs.Drafted.{with_items};

    pub fn new(alloc: Global) -> Draft
        ensures { result ≡ record { trash = []; pull = [] } }
    {
        Draft {
            trash: Vec::new(alloc),
            pull: Vec::new(alloc),
        }
    }

    /// Appends the items. After NoMemory one of them may have been taken.
    pub fn take(&mut self, trash: Option<TrashItem>, pull: Option<PullItem>) -> Result<(), NoMemory>
        ensures { OnOk result (self.new ≡ with_items trash pull self.old) }
    {
        if let Some(item) = trash {
            if self.trash.push(item).is_err() {
                return Err(NoMemory);
            }
        }
        if let Some(item) = pull {
            if self.pull.push(item).is_err() {
                return Err(NoMemory);
            }
        }
        Ok(())
    }

    /// The lists, without a copy.
    pub fn into_lists(self) -> Lists
        ensures { result ≡ self }
    {
        Lists {
            trash: Items::of(self.trash),
            pull: Items::of(self.pull),
        }
    }
}
