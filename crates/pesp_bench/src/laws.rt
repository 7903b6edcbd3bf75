//! Laws of kept answers. Each holds for every instance.

ghost use Rattle.pesp_bench.specs.Kept.{EachKeptAnswerHolds, WindowsThatAdmit};

/// An answer that an accepted edit keeps is the answer of the edited instance.
pub fn kept_answers_hold()
    ensures { EachKeptAnswerHolds }
{}

/// Fixing an event admits a new residue exactly if the event has a window without that time.
/// Removing a window admits a new residue if it is a fixed time, and does not if it holds all
/// residues.
pub fn windows_admit()
    ensures { WindowsThatAdmit }
{}
