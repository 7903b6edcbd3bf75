//! Trying a call.

use crate::showing;
use pesp_base::Refusal;
use std::env;
use std::rt::Env;

/// A call that may run out of memory, with what it needs.
///
/// Nothing but the call itself allocates.
pub(crate) trait Call {
    /// Prints what the call needs.
    fn show<R: Print>(&self, rt: &R);

    /// Makes the call and prints its result. Returns whether that is out of memory.
    fn make<R: Print + AllocGlobal>(&mut self, rt: &R) -> bool;
}

/// Makes the call, and repeats it if it runs out of memory.
pub(crate) fn try_call<C: Call, R: Print + AllocGlobal>(rt: &R, call: &mut C) {
    let _ = rt.println("before");
    call.show(rt);
    let _ = rt.println("answer");
    let is_wanted = call.make(rt);
    let _ = rt.println("after");
    call.show(rt);
    if is_wanted {
        let _ = rt.println("again");
        call.make(rt);
        let _ = rt.println("after");
        call.show(rt);
    }
}

/// Makes the call as [`try_call`] does, and frees what it needs.
pub(crate) fn try_and_drop<C: Call + Drop, R: Print + AllocGlobal>(rt: &R, mut call: C) {
    try_call(rt, &mut call);
}

/// Prints the result, and returns whether it is out of memory.
pub(crate) fn is_wanted(rt: &impl Print, answer: Result<(), Refusal>) -> bool {
    showing::line(rt, &answer);
    answer == Err(Refusal::Memory)
}

/// The words of the command line: the program, and then the cases to try. Without any, all are
/// tried.
pub(crate) fn words<R: Env + AllocGlobal>(rt: &R) -> Option<Vec<String>> {
    env::args(rt).ok()?.collect::<Vec<String>>(rt.alloc()).ok()
}

/// Whether to try the case, whose name is then printed.
pub(crate) fn is_asked(rt: &impl Print, words: &[String], name: &str) -> bool {
    let is_asked = words.len() < 2 || words.iter().any(|word| word.as_str() == name);
    if is_asked {
        let _ = println!(rt; "case {name}");
    }
    is_asked
}
