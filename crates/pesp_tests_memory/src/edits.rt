//! Edits of an instance.

use crate::call::{Call, is_asked, is_wanted, try_call};
use crate::made::{self, KINDS, Kind, MANY};
use crate::showing;
use pesp_instance::{Edit, Instance};

#[derive(Drop)]
struct Edited {
    // The instance before the edit.
    instance: Instance,
    // It may run out of memory.
    edit: Edit,
}

impl Call for Edited {
    fn show<R: Print>(&self, rt: &R) {
        showing::instance(rt, &self.instance);
    }

    fn make<R: Print + AllocGlobal>(&mut self, rt: &R) -> bool {
        is_wanted(rt, self.instance.apply(&self.edit))
    }
}

fn try_kind<R: Print + AllocGlobal>(rt: &R, edited: &mut Edited, kind: Kind) -> Option<()> {
    for number in 3..MANY {
        edited.edit = made::edit(kind, number)?;
        try_call(rt, edited);
    }
    Some(())
}

fn try_kinds<R: Print + AllocGlobal>(rt: &R, edited: &mut Edited) -> Option<()> {
    for kind in &KINDS {
        try_kind(rt, edited, *kind)?;
    }
    Some(())
}

pub(crate) fn try_all<R: Print + AllocGlobal>(rt: &R, words: &[String]) -> Option<()> {
    if !is_asked(rt, words, "Instance::apply") {
        return Some(());
    }
    let edit = made::edit(KINDS[0], 3)?;
    let instance = made::two(rt.alloc())?;
    try_kinds(rt, &mut Edited { instance, edit })
}
