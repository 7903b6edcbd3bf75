//! Walks over events and activities, by rising number.

ghost use Rattle.std.specs.Iterator.{YieldsFirstRef, item_count};

use crate::Event;
use crate::table::Table;
use crate::vertex::Vertex;
use pesp_base::Activity;
use slab::Slab;
use std::collections::{btree_map, btree_set};
use std::marker::Model;

/// The remaining values of a table, by rising number.
#[derive(Drop)]
pub struct Walk<'a, V> {
    // The remaining numbers, each with the slot of its value.
    pub(crate) numbers: btree_map::Iter<'a, u32, usize>,
    // The slots of the table.
    pub(crate) slots: &'a Slab<V>,
}

impl<'a, V> Model for Walk<'a, V> {
    ghost use Rattle.std.specs.Prelude.{List};
    ghost use Rattle.std.specs.Coded.{coded_list};

    ghost Value = { List V };

    ghost coded = { coded_list V.code };

    ghost use Rattle.pesp_instance.specs.Table.{values_in, IsLinked};

    ghost view = { λ w. values_in w.slots.now.slots w.numbers };

    ghost invariant = { λ w. IsLinked w.slots.now.slots w.numbers };
}

impl<'a, V> Iterator for Walk<'a, V> {
    type Item = &'a V;

    ghost next_gives = { YieldsFirstRef (λ rest. rest) };

    ghost remaining = { item_count (λ rest. rest) };

    fn next(&mut self) -> Option<&'a V> {
        match self.numbers.next() {
            Some((_, slot)) => Some(&self.slots[*slot]),
            None => None,
        }
    }
}

/// The remaining events, by rising number.
#[derive(Drop)]
pub struct Events<'a> {
    // The vertices of the remaining events.
    pub(crate) vertices: Walk<'a, Vertex>,
}

impl<'a> Model for Events<'a> {
    ghost use Rattle.std.specs.Prelude.{List};
    ghost use Rattle.pesp_instance.specs.declared.event.Event.{Event};
    ghost use Rattle.pesp_instance.specs.Ends.{events_of};

    ghost Value = { List Event };

    ghost view = { λ w. events_of w.vertices };
}

impl<'a> Iterator for Events<'a> {
    type Item = &'a Event;

    ghost next_gives = { YieldsFirstRef (λ rest. rest) };

    ghost remaining = { item_count (λ rest. rest) };

    fn next(&mut self) -> Option<&'a Event> {
        Some(&self.vertices.next()?.event)
    }
}

/// The remaining activities at an event, by rising number.
#[derive(Drop)]
pub struct Around<'a> {
    // The remaining numbers, or none if the event is not in the instance.
    pub(crate) numbers: Option<btree_set::Iter<'a, u32>>,
    // Has an activity for each remaining number.
    pub(crate) activities: &'a Table<Activity>,
}

impl<'a> Model for Around<'a> {
    ghost use Rattle.std.specs.Prelude.{List};
    ghost use Rattle.pesp_base.specs.declared.activity.Activity.{Activity};
    ghost use Rattle.pesp_instance.specs.Ends.{named_by, numbers_left, AreNames};

    ghost Value = { List Activity };

    ghost view = { λ w. named_by w.activities.now.values (numbers_left w.numbers) };

    ghost invariant = { λ w. AreNames w.activities.now.values (numbers_left w.numbers) };
}

impl<'a> Iterator for Around<'a> {
    type Item = &'a Activity;

    ghost next_gives = { YieldsFirstRef (λ rest. rest) };

    ghost remaining = { item_count (λ rest. rest) };

    fn next(&mut self) -> Option<&'a Activity> {
        let number = self.numbers.as_mut()?.next()?;
        self.activities.get(*number)
    }
}
