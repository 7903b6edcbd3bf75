//! Scripts.

use crate::call::{Call, is_asked, try_call};
use crate::showing;
use pesp_base::{Period, Refusal};
use pesp_instance::Instance;
use pesp_shell_commands::{ReplayFault, ReplayKind, replay};
use std::alloc::Global;

const SCRIPT: &[u8] = b"add event 1\nadd event 2\nadd activity 1 1 2 3 5 2\nfix 1 0\n";

#[derive(Drop)]
struct Replayed {
    // The period of the instance that the script makes.
    period: Period,
}

fn replay_of(alloc: Global, period: Period) -> Result<Instance, ReplayFault> {
    replay(alloc, period, SCRIPT)
}

impl Call for Replayed {
    fn show<R: Print>(&self, rt: &R) {
        showing::line(rt, &self.period);
    }

    fn make<R: Print + AllocGlobal>(&mut self, rt: &R) -> bool {
        match replay_of(rt.alloc(), self.period) {
            Ok(instance) => {
                showing::instance(rt, &instance);
                false
            }
            Err(fault) => {
                showing::line(rt, &fault);
                fault.kind == ReplayKind::Refused(Refusal::Memory)
            }
        }
    }
}

pub(crate) fn try_all<R: Print + AllocGlobal>(rt: &R, words: &[String]) -> Option<()> {
    if is_asked(rt, words, "replay") {
        let period = Period::new(10)?;
        try_call(rt, &mut Replayed { period });
    }
    Some(())
}
