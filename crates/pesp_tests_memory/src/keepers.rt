//! Edits of keepers.

use crate::call::{Call, is_asked, is_wanted, try_call};
use crate::made::{self, KINDS, Kind, MANY};
use crate::telling;
use pesp_domains::Keeper;
use pesp_instance::Edit;
use std::marker::Model;

/// A keeper with nothing pushed.
#[derive(Drop)]
struct Kept<K: Keeper> {
    // Nothing is pushed on it.
    keeper: K,
    // It may run out of memory.
    edit: Edit,
}

impl<K: Keeper> Model for Kept<K> {
    ghost use Rattle.std.specs.Prelude.{◌≡◌, []};
    ghost use Rattle.pesp_instance.specs.Network.{Network};

    ghost Value = { Network };

    ghost view = { λ k. K.network k.keeper };

    ghost invariant = { λ k. K.pushes k.keeper ≡ [] };
}

impl<K: Keeper> Call for Kept<K> {
    fn show<R: Print>(&self, rt: &R) {
        telling::keeper(rt, &self.keeper);
    }

    fn make<R: Print + AllocGlobal>(&mut self, rt: &R) -> bool {
        is_wanted(rt, self.keeper.apply(&self.edit))
    }
}

fn try_kind<K: Keeper, R: Print + AllocGlobal>(
    rt: &R,
    kept: &mut Kept<K>,
    kind: Kind,
) -> Option<()> {
    for number in 3..MANY {
        kept.edit = made::edit(kind, number)?;
        try_call(rt, kept);
    }
    Some(())
}

fn try_kinds<K: Keeper, R: Print + AllocGlobal>(rt: &R, kept: &mut Kept<K>) -> Option<()> {
    for kind in &KINDS {
        try_kind(rt, kept, *kind)?;
    }
    Some(())
}

pub(crate) fn try_by<K: Keeper, R: Print + AllocGlobal>(
    rt: &R,
    words: &[String],
    name: &str,
) -> Option<()> {
    if !is_asked(rt, words, name) {
        return Some(());
    }
    let edit = made::edit(KINDS[0], 3)?;
    let keeper = K::from_instance(rt.alloc(), made::two(rt.alloc())?).ok()?;
    try_kinds(rt, &mut Kept { keeper, edit })
}
