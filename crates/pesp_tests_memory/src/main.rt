//! Makes public calls that can run out of memory, and prints the result of each and what it left.
#![tactic(auto)]

mod benches;
mod call;
mod counting;
mod edits;
mod files;
mod keepers;
mod made;
mod openings;
mod quiet;
mod scripts;
mod searches;
mod showing;
mod telling;
mod working;

use call::words;
use pesp_counts::CountKeeper;
use pesp_domains::PlainKeeper;
use std::process::ExitCode;
use std::rt::Env;

/// Calls of keepers, by either keeper.
fn try_keepers<R: AllocGlobal + Print>(rt: &R, words: &[String]) -> Option<()> {
    openings::try_by::<PlainKeeper, R>(rt, words, "PlainKeeper::from_instance")?;
    openings::try_by::<CountKeeper, R>(rt, words, "CountKeeper::from_instance")?;
    keepers::try_by::<PlainKeeper, R>(rt, words, "PlainKeeper::apply")?;
    keepers::try_by::<CountKeeper, R>(rt, words, "CountKeeper::apply")
}

fn try_all<R: Env + AllocGlobal + Print>(rt: &R) -> Option<()> {
    let words = words(rt)?;
    let words = words.as_slice();
    edits::try_all(rt, words)?;
    files::try_all(rt, words)?;
    scripts::try_all(rt, words)?;
    try_keepers(rt, words)?;
    searches::try_all(rt, words)?;
    benches::try_all(rt, words)?;
    quiet::try_all(rt, words)
}

fn main(rt: HostRuntime) -> ExitCode {
    match try_all(&rt) {
        Some(()) => ExitCode::SUCCESS,
        None => {
            let _ = rt.eprintln("no room");
            ExitCode::FAILURE
        }
    }
}
