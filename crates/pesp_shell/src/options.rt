//! The command line, read by `clap`.

ghost use Rattle.std.specs.Prelude.{◌≡◌, IfOk, IfErr, true, false};
ghost use Rattle.clap.specs.Walk.{texts};
ghost use Rattle.clap.specs.Words.{FailsBy, app_of, fault_of, kind_of, rule_of, takes};
ghost use Rattle.pesp_shell.specs.Settings.{AreSettings, check_rule, file_rule, period_rule, pespbench};

use crate::Settings;
use crate::version::VERSION;
use clap::error::ErrorKind;
use clap::{Arg, ArgAction, Command, Error};
use pesp_base::{GREATEST_PERIOD, LEAST_PERIOD, Period};
use std::alloc::{AllocError, Global};

/// The period where the words give none.
const DEFAULT_PERIOD: &str = "60";

/// What help says of the period; the limits that it names are checked below.
const PERIOD_HELP: &str = "The period, 2 to 1440";

const _: () = prove!(LEAST_PERIOD == 2 && GREATEST_PERIOD == 1440);

/// What help says after the options.
const MORE_HELP: &str = "\
Without --check, commands come from standard input, a line each, and each is answered before the next is read:
  domains, domain E, fix E t, window E f n, span A l u, optimum, adopt, violations, cost, dump and more

Columns of the files:
  activities            number; from; to; lower; upper; weight
  times, fixed times    event; time

Example:
  printf 'fix 1 0\\ndomains\\n' | pespbench --period 10 examples/two-trains/activities

Exit status: 0 done, help or version; 1 a fault, named on standard error; 2 refused arguments.

docs/FORMATS.md has each command, reply and fault, man/pespbench.1 is the manual page, and examples/ has stories.";

const PERIOD: &str = "period";

const FIXED: &str = "fixed";

const TIMES: &str = "times";

const CHECK: &str = "check";

const ACTIVITIES: &str = "ACTIVITIES";

/// `--period T`.
fn period_option<'a>(alloc: Global) -> Arg<'a>
    ensures rule { rule_of result ≡ period_rule }
    ensures local { result.global ≡ false }
{
    let limits = i64::from(LEAST_PERIOD)..=i64::from(GREATEST_PERIOD);
    Arg::new(alloc, PERIOD)
        .long(PERIOD)
        .value_name("T")
        .help(PERIOD_HELP)
        .default_value(DEFAULT_PERIOD)
        .value_parser(clap::value_parser!(u16).range(limits))
}

/// `--name FILE`.
fn file_option<'a>(alloc: Global, name: &'a str, help: &'a str) -> Arg<'a>
    ensures rule { rule_of result ≡ file_rule name.entry.now }
    ensures local { result.global ≡ false }
{
    Arg::new(alloc, name)
        .long(name)
        .value_name("FILE")
        .help(help)
}

/// `--check`.
fn check_option<'a>(alloc: Global) -> Arg<'a>
    ensures rule { rule_of result ≡ check_rule }
    ensures local { result.global ≡ false }
{
    Arg::new(alloc, CHECK)
        .long(CHECK)
        .help("Print tensions, violations and cost of the times, and read no commands")
        .action(ArgAction::SetTrue)
}

/// The command; none of its arguments has a rule on another one.
fn command<'a>(alloc: Global) -> Result<Command<'a>, AllocError>
    ensures { IfOk result (λ c. app_of c ≡ pespbench) }
{
    let period = period_option(alloc);
    let fixed = file_option(alloc, FIXED, "The file of fixed times");
    let times = file_option(alloc, TIMES, "The file of the events' times");
    let check = check_option(alloc);
    let activities = Arg::new(alloc, ACTIVITIES).help("The file of activities");
    let command = Command::new(alloc, "pespbench")
        .version(VERSION)
        .about("A workbench for periodic railway timetables")
        .after_help(MORE_HELP)
        .arg(period)?
        .arg(fixed)?
        .arg(times)?
        .arg(check)?
        .arg(activities)?;
    Ok(command)
}

/// What the words of a command line ask for; the first word is the program's name.
///
/// The error's kind distinguishes a request for help or the version, refused words and out of memory.
pub fn settings<'a>(alloc: Global, words: &'a [&'a str]) -> Result<Settings<'a>, Error>
    ensures settings { IfOk result (AreSettings (texts words.entry.now)) }

    // A line with a fault has the kind of the first step of reading that fails, and one without it
    // fails only where it is out of memory.
    ensures kinds { FailsBy (fault_of pespbench (texts words.entry.now)) result }
    ensures taken { IfErr result (λ e. takes pespbench (texts words.entry.now) ≡ true
        → kind_of e ≡ ErrorKind.OutOfMemory) }
{
    let command = command(alloc)?;
    let matches = command.try_get_matches_from(words)?;
    // The parser of the period lets no other number through.
    let number = matches.get_one::<u16>(PERIOD).unwrap();
    let period = Period::new(number).unwrap();
    Ok(Settings {
        period,
        fixed: matches.get_str(FIXED),
        times: matches.get_str(TIMES),
        activities: matches.get_str(ACTIVITIES),
        check: matches.get_flag(CHECK),
    })
}
