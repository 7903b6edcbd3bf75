//! The command of a line.

ghost use Rattle.std.specs.Prelude.{◌≡◌};
ghost use Rattle.pesp_shell_commands.specs.Forms as forms;
ghost use Rattle.pesp_shell_commands.specs.Parsed.{form_of, parsed, parsed_by};
ghost use Rattle.pesp_shell_commands.specs.Words.{texts};

use crate::Command;
use crate::name::{Name, find_name};
use crate::numbers::Numbers;
use crate::words::Words;
use pesp_instance::Edit;

/// The greatest time and the greatest length of a window in a command: all that 16 bits hold.
/// Beyond the period they are refused later.
pub(crate) const GREATEST_TIME: u16 = 65_535;

/// The greatest limit of nodes in a command, as docs/FORMATS.md has it.
pub(crate) const GREATEST_LIMIT: u64 = 1_000_000_000_000;

/// Why a line is not a command. Words count from 1, including the command's name.
#[derive(Clone, Copy, Debug, PartialEq, Eq)]
pub enum ParseFault {
    /// The first word, with its second for `add` and `drop`, names no command.
    UnknownCommand,
    /// The command has another number of words.
    WordCount,
    /// The word is not a number.
    BadNumber(u8),
    /// The number is outside the limits of its place.
    OutOfRange(u8),
    /// The lower bound is above the upper one.
    Crossed,
}

/// The command of a name and the words after it.
fn command_named(name: Name, numbers: &Numbers<'_>) -> Result<Command, ParseFault>
    ensures { result ≡ forms.said name numbers.now }
{
    match name {
        Name::AddEvent => Ok(Command::Edit(Edit::AddEvent(numbers.event()?))),
        Name::DropEvent => Ok(Command::Edit(Edit::DropEvent(numbers.event()?))),
        Name::Fix => {
            let (event, time) = numbers.event_and_time()?;
            Ok(Command::Edit(Edit::Fix(event, time)))
        }
        Name::Window => {
            let (event, first, length) = numbers.event_and_window()?;
            Ok(Command::Edit(Edit::SetWindow(event, first, length)))
        }
        Name::Unfix => Ok(Command::Edit(Edit::Unfix(numbers.event()?))),
        Name::AddActivity => Ok(Command::Edit(Edit::AddActivity(numbers.activity()?))),
        Name::DropActivity => Ok(Command::Edit(Edit::DropActivity(numbers.activity_id()?))),
        Name::Span => {
            let (id, span) = numbers.id_and_span()?;
            Ok(Command::Edit(Edit::SetSpan(id, span)))
        }
        Name::Weight => {
            let (id, weight) = numbers.id_and_weight()?;
            Ok(Command::Edit(Edit::SetWeight(id, weight)))
        }
        Name::Ends => {
            let (id, from, to) = numbers.id_and_ends()?;
            Ok(Command::Edit(Edit::SetEnds(id, from, to)))
        }
        Name::Time => {
            let (event, time) = numbers.event_and_time()?;
            Ok(Command::Time(event, time))
        }
        Name::Untime => Ok(Command::Untime(numbers.event()?)),
        Name::Domain => Ok(Command::Domain(numbers.event()?)),
        Name::Try => Ok(Command::TryOptimum(numbers.limit()?)),
        Name::Adopt => numbers.none(Command::Adopt),
        Name::Domains => numbers.none(Command::Domains),
        Name::Tensions => numbers.none(Command::Tensions),
        Name::Violations => numbers.none(Command::Violations),
        Name::Cost => numbers.none(Command::Cost),
        Name::Optimum => numbers.none(Command::Optimum),
        Name::Dump => numbers.none(Command::Dump),
    }
}

/// The command of the words.
fn command(words: &[&[u8]]) -> Result<Command, ParseFault>
    ensures { forms.as_said result ≡ parsed_by (form_of (texts words.now)) (texts words.now) }
{
    match find_name(words) {
        Some((name, numbers)) => command_named(name, &numbers),
        None => Err(ParseFault::UnknownCommand),
    }
}

/// The command of a line, or none if it is blank or a comment.
///
/// Nothing is allocated. Errors, the first that applies: `UnknownCommand`, `WordCount`, `BadNumber`
/// or `OutOfRange` from left to right, `Crossed`.
pub fn parse(line: &[u8]) -> Result<Option<Command>, ParseFault>
    ensures { result ≡ parsed line.now }
{
    let words = Words::new(line);
    let words = words.as_slice();
    let [first, ..] = words else {
        return Ok(None);
    };
    if first.starts_with(b"#") {
        return Ok(None);
    }
    let command = command(words)?;
    Ok(Some(command))
}
