//! Sweeps over all activities: constraint propagation to its fixed point.

ghost use Rattle.std.specs.Prelude.{◌≡◌, ℕ, ◌<◌, true, false, IsTrue, []};
ghost use Rattle.std.specs.List.{Contains, list_any};
ghost use Rattle.pesp_base.specs.declared.activity.Activity.{Activity};
ghost use Rattle.pesp_instance.specs.Network.{IsNetwork};
ghost use Rattle.pesp_domains.specs.declared.side.Side.{Side};
ghost use Rattle.pesp_domains.specs.Domains.{holds, own, HasPartner, Joins};
ghost use Rattle.pesp_domains.specs.Rows.{has, AreRowsOf, HaveSameShape};
ghost use Rattle.pesp_domains.specs.Sweeps.{Of, AreDomains, AreOpen, IsAlone, IsPass, IsSettledAt, Settles};

use crate::rows::Rows;
use crate::{Pair, Row, Side};
use pesp_base::{Activity, Period, Residues, partners, sources};
use pesp_instance::Instance;

/// Whether the row has one of the residues.
fn holds_any(row: &Row, residues: Residues) -> bool
    ensures { result ≡ list_any (holds row.now) residues }
{
    for residue in residues {
        if row.holds(residue) {
            return true;
        }
    }
    false
}

/// Whether the residue at this end of the activity has a partner in the row at the other end.
fn has_partner(period: Period, activity: &Activity, side: Side, residue: u16, row: &Row) -> bool
    requires { residue < period }
    ensures yes { result ≡ true → (s : ℕ) × IsTrue (holds row.now s)
        × Joins side period activity.now residue s }
    ensures no { result ≡ false → (s : ℕ) → s < period → IsTrue (holds row.now s)
        → Joins side period activity.now residue s → ⊥ }
{
    match side {
        Side::Tail => holds_any(row, partners(period, activity.span, residue)),
        Side::Head => holds_any(row, sources(period, activity.span, residue)),
    }
}

/// Whether the pair at this end of the activity is in the rows and has no partner there.
fn is_alone(period: Period, activity: &Activity, side: Side, residue: u16, rows: &Rows) -> bool
    requires { residue < period }
    ensures alone { result ≡ true → IsAlone period (has rows.now) side activity.now residue }
    ensures stays { result ≡ false → IsTrue (has rows.now (own side activity.now) residue)
        → HasPartner period (Of (has rows.now)) side activity.now residue }
{
    if !rows.holds(side.own(activity), residue) {
        return false;
    }
    match rows.get(side.other(activity)) {
        Some(row) => !has_partner(period, activity, side, residue, row),
        None => true,
    }
}

/// Removes each pair at one end of the activity that has no partner, and returns whether there was
/// one.
fn narrow(instance: &Instance, activity: &Activity, side: Side, rows: &mut Rows) -> bool
    requires { Contains instance.now.activities activity.now }
    ensures shape { HaveSameShape rows.old rows.new }
    ensures pass { IsPass instance.now (has rows.old) (has rows.new) result }
    ensures settled { result ≡ false
        → IsSettledAt instance.now.period (has rows.new) side activity.now }
{
    let period = instance.period();
    let event = side.own(activity);
    let mut changed = false;
    for residue in 0..period.get() {
        if is_alone(period, activity, side, residue, rows) {
            rows.take_out(event, residue);
            changed = true;
        }
    }
    changed
}

/// Narrows both ends of the activity, and returns whether a pair was removed.
fn narrow_both(instance: &Instance, activity: &Activity, rows: &mut Rows) -> bool
    requires { Contains instance.now.activities activity.now }
    ensures shape { HaveSameShape rows.old rows.new }
    ensures pass { IsPass instance.now (has rows.old) (has rows.new) result }
    ensures settled { result ≡ false → (side : Side)
        → IsSettledAt instance.now.period (has rows.new) side activity.now }
{
    let tail = narrow(instance, activity, Side::Tail, rows);
    let head = narrow(instance, activity, Side::Head, rows);
    tail | head
}

/// Narrows both ends of each activity once, and returns whether a pair was removed.
fn sweep(instance: &Instance, rows: &mut Rows) -> bool
    ensures shape { HaveSameShape rows.old rows.new }
    ensures pass { IsPass instance.now (has rows.old) (has rows.new) result }
    ensures settled { result ≡ false → (side : Side) (a : Activity)
        → Contains instance.now.activities a
        → IsSettledAt instance.now.period (has rows.new) side a }
{
    let mut changed = false;
    for activity in instance.activities() {
        if narrow_both(instance, activity, rows) {
            changed = true;
        }
    }
    changed
}

/// Sweeps until nothing is removed.
pub fn settle(instance: &Instance, rows: &mut Rows)
    ensures shape { HaveSameShape rows.old rows.new }
    ensures settles { Settles instance.now (has rows.old) (has rows.new) }
{
    while sweep(instance, rows) {}
}

/// Makes each row the residues in the window of its event.
fn open_events(instance: &Instance, rows: &mut Rows)
    requires { AreRowsOf instance.now rows.old }
    ensures shape { HaveSameShape rows.old rows.new }
    ensures admitted { AreOpen instance.now [] (has rows.new) }
    ensures network { IsNetwork instance.now }
{
    let period = instance.period();
    for event in instance.events() {
        rows.open(period, event.id, instance.window(event.id));
    }
}

/// Makes each row the residues in the window of its event that agree with the pushed pairs.
fn open_rows(instance: &Instance, pushed: &[Pair], rows: &mut Rows)
    requires { AreRowsOf instance.now rows.old }
    ensures shape { HaveSameShape rows.old rows.new }
    ensures admitted { AreOpen instance.now pushed.now (has rows.new) }
    ensures network { IsNetwork instance.now }
{
    open_events(instance, rows);
    for pair in pushed {
        rows.keep_only(pair.event, pair.residue);
    }
}

/// Makes the rows the domains, whatever they are before.
pub fn remake(instance: &Instance, pushed: &[Pair], rows: &mut Rows)
    requires { AreRowsOf instance.now rows.old }
    ensures rows { AreRowsOf instance.now rows.new }
    ensures domains { AreDomains instance.now pushed.now (has rows.new) }
    ensures network { IsNetwork instance.now }
{
    open_rows(instance, pushed, rows);
    settle(instance, rows);
}
