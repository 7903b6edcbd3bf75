//! Lists of small numbers that share one store, so that an item moves from one list to another in
//! constant time and without memory.

ghost use Rattle.std.specs.Prelude.{◌≡◌, ℕ, ◌^◌, ◌<◌, ◌≤◌, ◌==◌, not, [], ◌∷◌, filter, length, slice_set, OnOk, OnErr};
ghost use Rattle.std.specs.List.{Contains};
ghost use Rattle.std.specs.Iterator.{YieldsFirst, item_count};
ghost use Rattle.pesp_counts_arcs.specs.Lists.{AreStored, afters, befores, first_of, items_at, last_of};

use std::alloc::{AllocError, Global};
use std::marker::Model;

/// The first item of a list, and the number of its items. In an empty list `first` has no meaning.
#[derive(Clone, Copy, Default)]
pub struct Head {
    pub first: u32,
    pub count: u32,
}

/// The items before and after one in its ring, where the first item follows the last. Those of an
/// unlisted item have no meaning.
#[derive(Clone, Copy, Default)]
pub struct Neighbours {
    pub before: u32,
    pub after: u32,
}

/// Lists, each a ring with a head, so that an item is removed in constant time.
#[derive(Drop)]
pub struct Lists {
    /// The head of each list; fewer than 2^32. No item is in two lists, or twice in one.
    heads: Vec<Head>,
    /// The neighbours of each item; fewer than 2^32, so that an item and a count fit 32 bits.
    items: Vec<Neighbours>,
}

impl Model for Lists {
    ghost use Rattle.std.specs.Prelude.{length};
    ghost use Rattle.pesp_counts_arcs.specs.Shared as words;

    ghost Value = { words.Shared };

    ghost use Rattle.pesp_counts_arcs.specs.Lists.{AreRings, afters, lists_of};

    ghost view = { λ a. record {
      items = length a.items.items;
      lists = lists_of (afters a.items.items) a.heads.items;
    } };

    ghost invariant = { λ a.
        AreRings a.items.items (lists_of (afters a.items.items) a.heads.items) };
}

/// The remaining items of a list, in order.
#[derive(Drop)]
pub struct Walk<'a> {
    /// The neighbours of each item, which lead from one item to the next.
    items: &'a Vec<Neighbours>,
    /// The next item, if one is left.
    item: u32,
    /// The number of remaining items.
    left: u32,
}

impl<'a> Model for Walk<'a> {
    ghost use Rattle.std.specs.Prelude.{List, ℕ, ◌<◌, length};
    ghost use Rattle.std.specs.List.{Contains};
    ghost use Rattle.pesp_counts_arcs.specs.Lists.{afters, steps};

    ghost Value = { List ℕ };

    ghost view = { λ w. steps (afters w.items.now.items) w.item w.left };

    ghost invariant = { λ w. (k : ℕ) →
        Contains (steps (afters w.items.now.items) w.item w.left) k →
        k < length w.items.now.items };
}

impl<'a> Iterator for Walk<'a> {
    type Item = usize;

    ghost next_gives = { YieldsFirst (λ rest. rest) };

    ghost remaining = { item_count (λ rest. rest) };

    fn next(&mut self) -> Option<usize> {
        if self.left == 0 {
            return None;
        }
        let item = self.item as usize;
        self.item = self.items[item].after;
        self.left -= 1;
        Some(item)
    }
}

impl Lists {
    /// No lists and no items.
    pub fn new(alloc: Global) -> Lists
        ensures { result ≡ record { items = 0; lists = [] } }
    {
        Lists {
            heads: Vec::new(alloc),
            items: Vec::new(alloc),
        }
    }

    /// The number of lists.
    pub fn len(&self) -> usize
        ensures { result ≡ length (self.now).lists }
    {
        self.heads.len()
    }

    /// The items of a list. A number that is not a list has none.
    pub fn walk(&self, list: usize) -> Walk<'_>
        ensures { result ≡ items_at (self.now).lists list }
    {
        let head = self.heads.get(list).copied().unwrap_or_default();
        Walk {
            items: &self.items,
            item: head.first,
            left: head.count,
        }
    }

    /// Reserves room for this number of lists and items, and adds none.
    pub fn make_room(&mut self, lists: usize, items: usize) -> Result<(), AllocError>
        ensures { self.new ≡ self.old }
    {
        self.heads.reserve(lists)?;
        self.items.reserve(items)
    }

    /// Adds items up to this number. If memory runs out, or the number is 2^32 or more, nothing
    /// changes.
    pub fn grow_items(&mut self, items: usize) -> Result<(), AllocError>
        ensures items { OnOk result (items ≤ (self.new).items) }
        ensures more { (self.old).items ≤ (self.new).items }
        ensures lists { (self.new).lists ≡ (self.old).lists }
        ensures stored { AreStored (self.new).items (self.new).lists }
        ensures err { OnErr result (self.new ≡ self.old) }
    {
        if self.items.len() < items {
            if items > u32::MAX as usize {
                return Err(AllocError);
            }
            self.items.resize(items, Neighbours::default())?;
        }
        Ok(())
    }

    /// Adds empty lists up to this number. If memory runs out, or the number is 2^32 or more,
    /// nothing changes.
    pub fn grow_lists(&mut self, lists: usize) -> Result<(), AllocError>
        ensures many { OnOk result (lists ≤ length (self.new).lists) }
        ensures more { length (self.old).lists ≤ length (self.new).lists }
        ensures items { (self.new).items ≡ (self.old).items }
        ensures lists { (p : ℕ) → items_at (self.new).lists p ≡ items_at (self.old).lists p }
        ensures stored { AreStored (self.new).items (self.new).lists }
        ensures err { OnErr result (self.new ≡ self.old) }
    {
        if self.heads.len() < lists {
            if lists > u32::MAX as usize {
                return Err(AllocError);
            }
            self.heads.resize(lists, Head { first: 0, count: 0 })?;
        }
        Ok(())
    }

    /// Adds an unlisted item at the front of a list.
    pub fn add(&mut self, list: usize, item: usize)
        requires list { list < length (self.old).lists }
        requires item { item < (self.old).items }
        requires free { (p : ℕ) → Contains (items_at (self.old).lists p) item → ⊥ }
        ensures items { (self.new).items ≡ (self.old).items }
        ensures lists { (self.new).lists
            ≡ slice_set (self.old).lists list (item ∷ items_at (self.old).lists list) }
        ensures stored { AreStored (self.new).items (self.new).lists }
    {
        let head = self.heads[list];
        let item = item as u32;
        let items: &mut [Neighbours] = &mut self.items;
        let (last, first) = ring_ends(items, head, item);
        join(items, last, item);
        join(items, item, first);
        self.heads[list] = Head {
            first: item,
            count: head.count + 1,
        };
    }

    /// Removes an item from its list.
    pub fn remove(&mut self, list: usize, item: usize)
        requires { Contains (items_at (self.old).lists list) item }
        ensures items { (self.new).items ≡ (self.old).items }
        ensures lists { (self.new).lists
            ≡ slice_set (self.old).lists list
            (filter (λ k. not (k == item)) (items_at (self.old).lists list)) }
        ensures stored { AreStored (self.new).items (self.new).lists }
    {
        let head = self.heads[list];
        let around = self.items[item];
        let first = if head.first as usize == item {
            around.after
        } else {
            head.first
        };
        join(&mut self.items, around.before, around.after);
        self.heads[list] = Head {
            first,
            count: head.count - 1,
        };
    }
}

/// The last and the first item of a list. For an empty list, the new item is both.
fn ring_ends(items: &[Neighbours], head: Head, item: u32) -> (u32, u32)
    requires { first_of head item < length items.now }
    ensures last { result.0 ≡ last_of (befores items.now) head item }
    ensures first { result.1 ≡ first_of head item }
{
    if head.count == 0 {
        return (item, item);
    }
    (items[head.first as usize].before, head.first)
}

/// Links two items, the one before the other.
fn join(items: &mut [Neighbours], before: u32, after: u32)
    requires before { before < length items.old }
    requires after { after < length items.old }
    ensures afters { afters items.new ≡ slice_set (afters items.old) before after }
    ensures befores { befores items.new ≡ slice_set (befores items.old) after before }
{
    items[before as usize].after = after;
    items[after as usize].before = before;
}
