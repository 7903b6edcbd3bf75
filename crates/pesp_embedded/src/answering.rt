//! Runs over memory.

ghost use Rattle.std.specs.Prelude.{◌≡◌, [], Bool, List, Option, Some, false, ℕ};
ghost use Rattle.pesp_shell.specs.Opening.{files};
ghost use Rattle.pesp_shell.specs.Runs.{IsRun, marks};
ghost use Rattle.pesp_embedded.specs.Answered.{IsAnswered};

use crate::Told;
use crate::asked::Asked;
use crate::front::put_front;
use crate::memory::{Given, Taken};
use pesp_counts::CountKeeper;
use pesp_shell::{RunFault, run};
use std::alloc::Global;

/// Runs, and returns how the run ended with the replies. They are kept in a vector first
/// (docs/DECISIONS.md, "In process, page and package").
fn run_over(alloc: Global, asked: &Asked) -> (Result<(), RunFault>, Vec<u8>)
    ensures { (left : Option (List ℕ)) × (at_end : Bool) × (not_written : Bool) × (passed_on : Bool)
        × IsRun (files asked.now.period asked.now.activities.now (Some asked.now.fixed.now) (Some asked.now.times.now))
        (Some asked.now.commands.now) left (Some []) (Some result.1.items) (marks at_end false not_written passed_on) result.0 }
{
    let mut source = Given {
        rest: asked.commands,
        at_end: false,
    };
    let mut sink = Taken {
        text: Vec::new(alloc),
        failed: false,
        passed_on: false,
    };
    let ended = run::<CountKeeper, _, _>(
        alloc,
        asked.period,
        asked.activities,
        Some(asked.fixed),
        Some(asked.times),
        &mut source,
        &mut sink,
    );
    (ended, sink.text)
}

/// Runs, writes the replies to the front of the room, as many of their bytes as fit, and reports
/// how the run ended.
pub(crate) fn answer(alloc: Global, asked: &Asked, out: &mut [u8]) -> Told
    ensures { IsAnswered asked.now.period asked.now.activities.now asked.now.fixed.now
        asked.now.times.now asked.now.commands.now out.old out.new result }
{
    let (ended, output) = run_over(alloc, asked);
    put_front(out, output.as_slice());
    Told::of(output.len() as u64, ended)
}
