//! Opening keepers of an instance.

use crate::call::{Call, is_asked, try_and_drop};
use crate::{made, showing, telling};
use pesp_domains::{Keeper, NoRoom};
use pesp_instance::Instance;
use std::marker::PhantomData;

/// An instance that is not kept yet.
#[derive(Drop)]
struct Opened<K> {
    // None once a keeper has it.
    instance: Option<Instance>,
    // Which keeper opens it.
    keeper: PhantomData<K>,
}

impl<K: Keeper> Call for Opened<K> {
    fn show<R: Print>(&self, rt: &R) {
        if let Some(instance) = &self.instance {
            showing::instance(rt, instance);
        }
    }

    fn make<R: Print + AllocGlobal>(&mut self, rt: &R) -> bool {
        let Some(instance) = self.instance.take() else {
            return false;
        };
        match K::from_instance(rt.alloc(), instance) {
            Ok(keeper) => {
                telling::keeper(rt, &keeper);
                false
            }
            Err(NoRoom { instance }) => {
                let _ = rt.println("NoRoom");
                self.instance = Some(instance);
                true
            }
        }
    }
}

pub(crate) fn try_by<K: Keeper, R: Print + AllocGlobal>(
    rt: &R,
    words: &[String],
    name: &str,
) -> Option<()> {
    if is_asked(rt, words, name) {
        let instance = Some(made::two(rt.alloc())?);
        let keeper = PhantomData;
        try_and_drop(rt, Opened::<K> { instance, keeper });
    }
    Some(())
}
