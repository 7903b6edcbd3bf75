//! Rows by event.

ghost use Rattle.std.specs.Prelude.{◌≡◌, ℕ, true, replicate, Some, None, option_map, length, IfSome, IfOk, OnOk, OnErr};
ghost use Rattle.pesp_domains.specs.Rows.{row_at, has, HaveSameShape, SetsRow, OpensRow, TakesOut, KeepsOnly};

use crate::Row;
use pesp_base::{EventId, Period, Window};
use std::alloc::{AllocError, Global};
use std::collections::BTreeMap;
use std::marker::Model;

/// A row for each of some events.
#[derive(Drop)]
pub struct Rows {
    // The row of each event, by its number.
    rows: BTreeMap<u32, Row>,
    // Allocates the rows.
    alloc: Global,
}

impl Model for Rows {
    ghost use Rattle.pesp_domains.specs.Rows as words;

    ghost Value = { words.Rows };

    ghost view = { λ a. a.rows.entries };
}

impl Rows {
    /// No rows.
    pub fn new(alloc: Global) -> Rows
        ensures { (e : ℕ) → row_at result e ≡ None }
    {
        Rows {
            rows: BTreeMap::new(alloc),
            alloc,
        }
    }

    /// The row of an event.
    pub fn get(&self, event: EventId) -> Option<&Row>
        ensures { option_map (λ row. row.now) result ≡ row_at self.now event }
    {
        self.rows.get(&event.get())
    }

    /// Whether the row of the event has the residue.
    pub fn holds(&self, event: EventId, residue: u16) -> bool
        ensures { result ≡ has self.now event residue }
    {
        match self.get(event) {
            Some(row) => row.holds(residue),
            None => false,
        }
    }

    /// Gives the event a row of all residues. If memory runs out, nothing changes.
    pub fn insert(&mut self, event: EventId, period: Period) -> Result<(), AllocError>
        ensures ok { OnOk result (SetsRow event (Some (replicate period true)) self.old self.new) }
        ensures err { OnErr result (self.new ≡ self.old) }
    {
        let row = Row::full(self.alloc, period)?;
        self.rows.insert(event.get(), row)?;
        Ok(())
    }

    /// Removes the event's row.
    pub fn remove(&mut self, event: EventId)
        ensures { SetsRow event None self.old self.new }
    {
        self.rows.remove(&event.get());
    }

    /// Removes a pair.
    pub fn take_out(&mut self, event: EventId, residue: u16)
        ensures shape { HaveSameShape self.old self.new }
        ensures has { TakesOut event residue self.old self.new }
    {
        if let Some(row) = self.rows.get_mut(&event.get()) {
            row.take_out(residue);
        }
    }

    /// Removes the other residues of the event.
    pub fn keep_only(&mut self, event: EventId, residue: u16)
        ensures shape { HaveSameShape self.old self.new }
        ensures has { KeepsOnly event residue self.old self.new }
    {
        if let Some(row) = self.rows.get_mut(&event.get()) {
            row.keep_only(residue);
        }
    }

    /// Makes the event's row all residues, or those of the window alone.
    pub fn open(&mut self, period: Period, event: EventId, window: Option<Window>)
        requires { IfSome (row_at self.old event) (λ row. period ≡ length row) }
        ensures shape { HaveSameShape self.old self.new }
        ensures has { OpensRow event window self.old self.new }
    {
        if let Some(row) = self.rows.get_mut(&event.get()) {
            row.open(period, window);
        }
    }
}
