// Names in a balanced search tree, each with what is stored under it.
ghost use Rattle.std.specs.Prelude.{◌≡◌, ◌≤◌, ◌++◌, ◌∷◌, [], IfOk, OnOk, length, map, take, option_copied, MatchOption};
ghost use Rattle.keep_event.specs.Store.{cut, find, put, stored, with_time, without, above, held_of, touch as touched, rename as renamed, IsAscending};
ghost use Rattle.keep_store.specs.Names.{has, named};
ghost use Rattle.keep_store.specs.Tree.{entries, order_after};

use keep_event::{Held, Name, Stored};
use keep_spec::{Bytes, NoMemory};
use std::alloc::Global;
use std::cmp::Ordering;
use std::marker::Model;
use std::mem;

/// Names in their order, each once and with what is stored under it. It is seen as the list of these.
/// Each call walks down one path of the tree, whose sides are kept at nearly the same height. An entry brings the memory that it takes, so that only its making can want any: what is taken out under one name can be put in under another.
#[cycle(tree)]
#[derive(Drop)]
pub(crate) struct NameTree {
    pub(crate) node: Node,
}

/// A node of the tree.
#[cycle(tree)]
#[derive(Drop)]
pub(crate) enum Node {
    Leaf,
    // The entries below, an entry, the height, and the entries above.
    Fork(Box<NameTree>, (Name, Stored), u64, Box<NameTree>),
}

impl Model for NameTree {
    ghost use Rattle.std.specs.Prelude.{List, length};
    ghost use Rattle.keep_event.specs.declared.names.Name.{Name as TheName};
    ghost use Rattle.keep_event.specs.declared.names.Stored.{Stored as TheStored};

    ghost Value = { List (TheName × TheStored) };

    ghost use Rattle.keep_event.specs.Store.{IsAscending};
    ghost use Rattle.keep_store.specs.Tree.{entries};

    ghost view = { λ t. entries t.node };

    ghost invariant = { λ t. IsAscending (entries t.node) };

    ghost size = { length };

    ghost use Rattle.keep_store.specs.TreeFalls.{sides-shorter};

    ghost size_decreases = { λ t h. sides-shorter t.node };
}

/// A name with what is stored under it, and the memory that it takes in a tree.
#[derive(Drop)]
pub(crate) struct Entry {
    pub(crate) item: (Name, Stored),
    pub(crate) below: Box<NameTree>,
    pub(crate) above: Box<NameTree>,
}

impl Model for Entry {
    ghost use Rattle.std.specs.Prelude.{◌≡◌, []};
    ghost use Rattle.keep_event.specs.declared.names.Name.{Name as TheName};
    ghost use Rattle.keep_event.specs.declared.names.Stored.{Stored as TheStored};

    ghost Value = { TheName × TheStored };

    ghost view = { λ e. e.item };

    ghost invariant = { λ e. (e.below.value ≡ []) × (e.above.value ≡ []) };
}

impl Entry {
    /// An entry with a copy of the bytes.
    pub(crate) fn new(
        alloc: Global,
        name: &Name,
        mtime: u64,
        bytes: &[u8],
    ) -> Result<Entry, NoMemory>
        ensures { IfOk result (λ e. e ≡ (name.now, stored mtime bytes.now)) }
    {
        let bytes = Bytes::of(Vec::from_slice(alloc, bytes)?);
        let below = no_entries(alloc)?;
        let above = no_entries(alloc)?;
        Ok(Entry {
            item: (*name, Stored { mtime, bytes }),
            below,
            above,
        })
    }

    /// The same bytes under another name and with another time.
    pub(crate) fn renamed(mut self, to: &Name, time: u64) -> Entry
        ensures { result ≡ (to.now, with_time time self.1) }
    {
        self.item.0 = *to;
        self.item.1.mtime = time;
        self
    }
}

impl NameTree {
    /// A tree without names. It takes no memory.
    pub(crate) fn new() -> NameTree
        ensures { result ≡ [] }
    {
        NameTree { node: Node::Leaf }
    }

    // How many nodes the longest path has. It steers the balance, and no clause speaks of it.
    pub(crate) fn height(&self) -> u64 {
        match self.node {
            Node::Leaf => 0,
            Node::Fork(_, _, height, _) => height,
        }
    }

    // The tree of a node.
    fn of(node: Node) -> NameTree
        requires { IsAscending (entries node) }
        ensures { result ≡ entries node }
    {
        NameTree { node }
    }

    // Takes all entries out, and leaves none.
    fn take(&mut self) -> Node
        ensures entries { entries result ≡ self.old }
        ensures ascending { IsAscending (entries result) }
        ensures none { self.new ≡ [] }
    {
        mem::replace(&mut self.node, Node::Leaf)
    }

    /// What is stored under the name.
    pub(crate) fn get(&self, name: &Name) -> Option<&Stored>
        ensures { option_copied result ≡ find name.now self.now }
    {
        match &self.node {
            Node::Leaf => None,
            Node::Fork(below, item, _, above) => match name.cmp(&item.0) {
                Ordering::Less => below.get(name),
                Ordering::Equal => Some(&item.1),
                Ordering::Greater => above.get(name),
            },
        }
    }

    /// Puts the entry in, replacing any existing entry of its name.
    pub(crate) fn put(&mut self, entry: Entry)
        ensures { self.new ≡ put entry.0 entry.1 self.old }
    {
        match self.take() {
            Node::Leaf => *self = NameTree::of(fork(entry.below, entry.item, entry.above)),
            Node::Fork(mut below, item, height, mut above) => match entry.item.0.cmp(&item.0) {
                Ordering::Less => {
                    let was = below.height();
                    below.put(entry);
                    let same = below.height() == was;
                    *self = NameTree::of(rebalanced(below, item, height, above, same));
                }
                Ordering::Equal => {
                    *self = NameTree::of(Node::Fork(below, entry.item, height, above));
                }
                Ordering::Greater => {
                    let was = above.height();
                    above.put(entry);
                    let same = above.height() == was;
                    *self = NameTree::of(rebalanced(below, item, height, above, same));
                }
            },
        }
    }

    /// Removes the name and returns its entry, with its memory.
    pub(crate) fn remove(&mut self, name: &Name) -> Option<Entry>
        ensures value { result ≡ (cut name.now self.old).at }
        ensures after { self.new ≡ without name.now self.old }
    {
        match self.take() {
            Node::Leaf => None,
            Node::Fork(mut below, item, height, mut above) => match name.cmp(&item.0) {
                Ordering::Less => {
                    let was = below.height();
                    let gone = below.remove(name);
                    let same = below.height() == was;
                    *self = NameTree::of(rebalanced(below, item, height, above, same));
                    gone
                }
                Ordering::Equal => {
                    let (node, below, above) = merged(below, above);
                    *self = NameTree::of(node);
                    Some(Entry { item, below, above })
                }
                Ordering::Greater => {
                    let was = above.height();
                    let gone = above.remove(name);
                    let same = above.height() == was;
                    *self = NameTree::of(rebalanced(below, item, height, above, same));
                    gone
                }
            },
        }
    }

    // Removes the first entry and returns it.
    fn pop_first(&mut self) -> Option<Entry>
        ensures { MatchOption result ((self.old ≡ []) × (self.new ≡ [])) (λ e. self.old ≡ e ∷ self.new) }
    {
        match self.take() {
            Node::Leaf => None,
            Node::Fork(mut below, item, _, mut above) => match below.pop_first() {
                Some(first) => {
                    *self = NameTree::of(balanced(below, item, above));
                    Some(first)
                }
                None => {
                    *self = NameTree::of(above.take());
                    Some(Entry { item, below, above })
                }
            },
        }
    }

    /// Sets the time of what is stored under the name, in nanoseconds since 1970. False: nothing is stored there.
    pub(crate) fn touch(&mut self, name: &Name, mtime: u64) -> bool
        ensures value { result ≡ has name.now self.old }
        ensures after { self.new ≡ touched name.now mtime self.old (find name.now self.old) }
    {
        match self.take() {
            Node::Leaf => false,
            Node::Fork(mut below, mut item, height, mut above) => match name.cmp(&item.0) {
                Ordering::Less => {
                    let touched = below.touch(name, mtime);
                    *self = NameTree::of(Node::Fork(below, item, height, above));
                    touched
                }
                Ordering::Equal => {
                    item.0 = *name;
                    item.1.mtime = mtime;
                    *self = NameTree::of(Node::Fork(below, item, height, above));
                    true
                }
                Ordering::Greater => {
                    let touched = above.touch(name, mtime);
                    *self = NameTree::of(Node::Fork(below, item, height, above));
                    touched
                }
            },
        }
    }

    /// Moves what is stored under a name to another name, replacing any existing entry, and sets its time. It takes no memory. False: nothing is stored under the first.
    pub(crate) fn rename(&mut self, from: &Name, to: &Name, mtime: u64) -> bool
        ensures value { result ≡ has from.now self.old }
        ensures after { self.new ≡ renamed from.now to.now mtime self.old (find from.now self.old) }
    {
        let Some(entry) = self.remove(from) else {
            return false;
        };
        self.put(entry.renamed(to, mtime));
        true
    }

    /// Appends the names above a name, or all, ascending, until the list has `limit` names. After NoMemory a part of them may stand there.
    pub(crate) fn list(
        &self,
        after: Option<&Name>,
        limit: usize,
        out: &mut Vec<Held>,
    ) -> Result<(), NoMemory>
        requires { length out.old.items ≤ limit }
        ensures listed { OnOk result (out.new.items ≡ take limit (out.old.items ++ map held_of (above (named after.entry) self.now))) }
        ensures ascending { IsAscending self.now }
    {
        let Node::Fork(below, item, _, above) = &self.node else {
            return Ok(());
        };
        if out.len() == limit {
            return Ok(());
        }
        match order_of(after, &item.0) {
            Ordering::Less => {
                below.list(after, limit, out)?;
                list_one(item, limit, out)?;
                above.list(None, limit, out)
            }
            Ordering::Equal => above.list(None, limit, out),
            Ordering::Greater => above.list(after, limit, out),
        }
    }
}

// A box without entries, for a side of a node.
fn no_entries(alloc: Global) -> Result<Box<NameTree>, NoMemory>
    ensures { IfOk result (λ b. b.value ≡ []) }
{
    match Box::new(alloc, NameTree::new()) {
        Ok(side) => Ok(side),
        Err(_) => Err(NoMemory),
    }
}

// The order of a name against another; None is below all names.
fn order_of(after: Option<&Name>, name: &Name) -> Ordering
    ensures { result ≡ order_after (named after.entry) name.now }
{
    match after {
        None => Ordering::Less,
        Some(after) => after.cmp(name),
    }
}

// Appends one name to the list, unless the limit is reached.
fn list_one(item: &(Name, Stored), limit: usize, out: &mut Vec<Held>) -> Result<(), NoMemory>
    requires { length out.old.items ≤ limit }
    ensures { OnOk result (out.new.items ≡ take limit (out.old.items ++ held_of item.now ∷ [])) }
{
    if out.len() == limit {
        return Ok(());
    }
    let held = Held {
        name: item.0,
        mtime: item.1.mtime,
        size: item.1.bytes.len() as u64,
    };
    if out.push(held).is_err() {
        return Err(NoMemory);
    }
    Ok(())
}

// The tree of two sides, and the two boxes that it doesn't need.
fn merged(
    mut below: Box<NameTree>,
    mut above: Box<NameTree>,
) -> (Node, Box<NameTree>, Box<NameTree>)
    requires { IsAscending (below.value ++ above.value) }
    ensures entries { entries result.0 ≡ below.value ++ above.value }
    ensures empty { (result.1.value ≡ []) × (result.2.value ≡ []) }
{
    match above.pop_first() {
        Some(first) => (balanced(below, first.item, above), first.below, first.above),
        None => {
            let node = below.take();
            (node, below, above)
        }
    }
}

// A fork of two sides of which one was changed: where that kept its height the fork keeps its own, and the other side isn't read.
fn rebalanced(
    below: Box<NameTree>,
    item: (Name, Stored),
    height: u64,
    above: Box<NameTree>,
    same: bool,
) -> Node
    requires { IsAscending (below.value ++ item ∷ above.value) }
    ensures { entries result ≡ below.value ++ item ∷ above.value }
{
    if same {
        return Node::Fork(below, item, height, above);
    }
    balanced(below, item, above)
}

// A fork of two sides whose heights differ by two at most, with sides whose heights differ by one at most.
fn balanced(mut below: Box<NameTree>, item: (Name, Stored), mut above: Box<NameTree>) -> Node
    requires { IsAscending (below.value ++ item ∷ above.value) }
    ensures { entries result ≡ below.value ++ item ∷ above.value }
{
    let (low, high) = (below.height(), above.height());
    if low > high.saturating_add(1) {
        match below.take() {
            Node::Fork(left, middle, _, right) => rotated(left, middle, right, item, above, below),
            Node::Leaf => fork(below, item, above),
        }
    } else if high > low.saturating_add(1) {
        match above.take() {
            Node::Fork(left, middle, _, right) => rotated(below, item, left, middle, right, above),
            Node::Leaf => fork(below, item, above),
        }
    } else {
        fork(below, item, above)
    }
}

// A fork of three sides and the two entries between them: a single rotation, or a double one where the middle side is the highest.
fn rotated(
    first: Box<NameTree>,
    low: (Name, Stored),
    mut middle: Box<NameTree>,
    high: (Name, Stored),
    last: Box<NameTree>,
    mut spare: Box<NameTree>,
) -> Node
    requires { IsAscending (first.value ++ low ∷ (middle.value ++ high ∷ last.value)) }
    ensures { entries result ≡ first.value ++ low ∷ (middle.value ++ high ∷ last.value) }
{
    if middle.height() > first.height().max(last.height()) {
        return rotated_twice(first, low, middle, high, last, spare);
    }
    if first.height() > last.height() {
        *spare = NameTree::of(fork(middle, high, last));
        return fork(first, low, spare);
    }
    *spare = NameTree::of(fork(first, low, middle));
    fork(spare, high, last)
}

// The same by a double rotation: the root of the middle side becomes the root.
fn rotated_twice(
    first: Box<NameTree>,
    low: (Name, Stored),
    mut middle: Box<NameTree>,
    high: (Name, Stored),
    last: Box<NameTree>,
    mut spare: Box<NameTree>,
) -> Node
    requires { IsAscending (first.value ++ low ∷ (middle.value ++ high ∷ last.value)) }
    ensures { entries result ≡ first.value ++ low ∷ (middle.value ++ high ∷ last.value) }
{
    match middle.take() {
        Node::Fork(left, root, _, right) => {
            *middle = NameTree::of(fork(first, low, left));
            *spare = NameTree::of(fork(right, high, last));
            fork(middle, root, spare)
        }
        Node::Leaf => {
            *spare = NameTree::of(fork(middle, high, last));
            fork(first, low, spare)
        }
    }
}

// A node over two sides.
fn fork(below: Box<NameTree>, item: (Name, Stored), above: Box<NameTree>) -> Node
    ensures { entries result ≡ below.value ++ item ∷ above.value }
{
    let height = below.height().max(above.height()).saturating_add(1);
    Node::Fork(below, item, height, above)
}
