//! Drives both keepers by the lines of standard input, and prints what they keep after each line.
#![tactic(auto)]

mod counts;
mod driven;
mod request;
mod rows;

use driven::Driven;
use pesp_base::{Period, number_between};
use pesp_counts::CountKeeper;
use pesp_domains::PlainKeeper;
use request::request_of;
use std::alloc::Global;
use std::env;
use std::process::ExitCode;
use std::rt::Env;

/// Both keepers of one instance.
#[derive(Drop)]
struct Both {
    // Both follow the same lines,
    plain: Driven<PlainKeeper>,
    // so their rows have to be the same.
    counted: Driven<CountKeeper>,
}

impl Both {
    /// Both keepers of the instance without events, at the period.
    fn new(alloc: Global, period: Period) -> Option<Both> {
        let plain = Driven::new(alloc, period)?;
        let counted = Driven::new(alloc, period)?;
        Some(Both { plain, counted })
    }

    /// Executes the line's request, and prints what both keepers keep then.
    fn follow(&mut self, rt: &impl Print, line: &[u8]) {
        let Some(request) = request_of(line) else {
            let _ = rt.println("no request");
            return;
        };
        let _ = rt.println("plain");
        self.plain.follow(rt, &request);
        let _ = rt.println("counted");
        self.counted.follow(rt, &request);
        counts::tell(rt, self.counted.keeper());
    }
}

/// The period, which is the one word of the command line.
fn period<R: Env + AllocGlobal>(rt: &R) -> Option<Period> {
    let words = env::args(rt).ok()?.collect::<Vec<String>>(rt.alloc()).ok()?;
    let period = number_between(words.get(1)?.as_bytes(), 0, 65_535).ok()?;
    Period::new(period as u16)
}

fn start<R: Env + AllocGlobal>(rt: &R) -> Option<Both> {
    Both::new(rt.alloc(), period(rt)?)
}

fn main(rt: HostRuntime) -> ExitCode {
    let Some(mut both) = start(&rt) else {
        let _ = rt.println("no room, or no period");
        return ExitCode::FAILURE;
    };
    for line in rt.lines(rt.alloc()) {
        let Ok(line) = line else {
            return ExitCode::FAILURE;
        };
        both.follow(&rt, line.as_bytes());
    }
    ExitCode::SUCCESS
}
