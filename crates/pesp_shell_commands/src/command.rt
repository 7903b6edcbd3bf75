//! The commands of the workbench.

use pesp_base::EventId;
use pesp_instance::Edit;

/// What a line asks for.
#[derive(Clone, Copy, Debug, PartialEq, Eq)]
pub enum Command {
    /// An edit of the instance.
    Edit(Edit),
    /// The event has this time in the working timetable.
    Time(EventId, u16),
    /// The event has no time in the working timetable.
    Untime(EventId),
    /// The optimum becomes the working timetable.
    Adopt,
    /// The residues that the event can still take.
    Domain(EventId),
    /// The residues that each event can still take.
    Domains,
    /// The tensions of the working timetable.
    Tensions,
    /// The violations of the working timetable.
    Violations,
    /// The cost of the working timetable.
    Cost,
    /// The best timetable.
    Optimum,
    /// The best timetable, searched for in at most this number of nodes.
    TryOptimum(u64),
    /// The script that builds the instance.
    Dump,
}
