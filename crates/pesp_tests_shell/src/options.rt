//! Command lines, refused lines, help and version.

use crate::asserts::{hold, same};
use clap::Error;
use clap::error::ErrorKind;
use pesp_base::{GREATEST_PERIOD, LEAST_PERIOD};
use pesp_shell::{Settings, settings};
use std::alloc::{AllocError, Global};
use std::process::Abort;
use std::test::Fail;

/// The settings: the period, the files of fixed times, of times and of activities, and whether to
/// check.
type Asked<'a> = (u16, Option<&'a str>, Option<&'a str>, Option<&'a str>, bool);

/// The words of a line.
///
/// Like the next functions it has no contract, so that proofs of the tests compute no word.
fn words<'a>(alloc: Global, line: &'a str) -> Result<Vec<&'a str>, AllocError> {
    line.split(' ').collect(alloc)
}

/// What words ask for.
fn asked<'a>(alloc: Global, words: &'a [&'a str]) -> Result<Settings<'a>, Error> {
    settings(alloc, words)
}

/// Why words are refused.
fn refusal(alloc: Global, words: &[&str]) -> Option<ErrorKind> {
    let error = asked(alloc, words).err()?;
    Some(error.kind())
}

fn assert_asked(rt: &impl Abort, asked: &Settings<'_>, wanted: Asked<'_>, line: &str) {
    let (period, fixed, times, activities, check) = wanted;
    same(rt, asked.period.get(), period, line);
    same(rt, asked.fixed, fixed, line);
    same(rt, asked.times, times, line);
    same(rt, asked.activities, activities, line);
    same(rt, asked.check, check, line);
}

/// Words ask for this, or are refused.
fn assert_line(
    rt: &(impl Abort + AllocGlobal),
    words: &[&str],
    wanted: Option<Asked<'_>>,
    line: &str,
) {
    match (asked(rt.alloc(), words), wanted) {
        (Ok(asked), Some(wanted)) => assert_asked(rt, &asked, wanted, line),
        (asked, wanted) => hold(rt, asked.is_err() && wanted.is_none(), line),
    }
}

#[test]
fn three_command_lines(rt: HostRuntime) -> Result<(), Fail> {
    let table = [
        ("pespbench", Some((60, None, None, None, false))),
        (
            "pespbench --period 10 --fixed a.fix --check a.act",
            Some((10, Some("a.fix"), None, Some("a.act"), true)),
        ),
        (
            "pespbench --period 1440",
            Some((1_440, None, None, None, false)),
        ),
        ("pespbench --period 1", None),
    ];
    for (line, wanted) in table {
        let words = words(rt.alloc(), line)?;
        assert_line(&rt, words.as_slice(), wanted, line);
    }
    Ok(())
}

#[test]
fn refused_lines(rt: HostRuntime) -> Result<(), Fail> {
    let table = [
        ("pespbench --period 1441", ErrorKind::ValueValidation),
        ("pespbench --period x", ErrorKind::ValueValidation),
        ("pespbench --period", ErrorKind::InvalidValue),
        ("pespbench --times a --times b", ErrorKind::ArgumentConflict),
        ("pespbench --check --check", ErrorKind::ArgumentConflict),
        ("pespbench a.act b.act", ErrorKind::UnknownArgument),
        ("pespbench --other", ErrorKind::UnknownArgument),
        ("pespbench --version=1", ErrorKind::TooManyValues),
    ];
    for (line, wanted) in table {
        let words = words(rt.alloc(), line)?;
        let refused = refusal(rt.alloc(), words.as_slice());
        same(&rt, refused, Some(wanted), line);
    }
    Ok(())
}

/// The text of an error.
fn told(alloc: Global, error: &Error) -> Result<String, AllocError> {
    format!(in alloc; "{error}")
}

/// The limits of the period, as help has them.
fn limits(alloc: Global) -> Result<String, AllocError> {
    format!(in alloc; "The period, {LEAST_PERIOD} to {GREATEST_PERIOD}")
}

/// An error is the version, and states its number.
fn assert_version(rt: &impl Abort, kind: ErrorKind, text: &str, line: &str) {
    same(rt, kind, ErrorKind::DisplayVersion, line);
    same(rt, text, "pespbench 0.2.0+unreleased\n", line);
}

#[test]
fn version_by_each_form(rt: HostRuntime) -> Result<(), Fail> {
    let alloc = rt.alloc();
    let lines = [
        "pespbench --version",
        "pespbench -V",
        "pespbench a.act --check -V",
    ];
    for line in lines {
        let words = words(alloc, line)?;
        let version = asked(alloc, words.as_slice()).err().ok_or("no version")?;
        let text = told(alloc, &version)?;
        assert_version(&rt, version.kind(), text.as_str(), line);
    }
    Ok(())
}

/// An error is help, and states the limits.
fn assert_help(rt: &impl Abort, kind: ErrorKind, text: &str, limits: &str) {
    same(rt, kind, ErrorKind::DisplayHelp, text);
    hold(rt, text.contains(limits), text);
}

#[test]
fn help_names_the_limits(rt: HostRuntime) -> Result<(), Fail> {
    let alloc = rt.alloc();
    let words = words(alloc, "pespbench --help")?;
    let help = asked(alloc, words.as_slice()).err().ok_or("no help")?;
    let text = told(alloc, &help)?;
    let limits = limits(alloc)?;
    assert_help(&rt, help.kind(), text.as_str(), limits.as_str());
    Ok(())
}
