//! The limits of periods and spans, and the residues that an activity admits.

use crate::asserts::{same, same_at};
use crate::made::span;
use pesp_base::{GREATEST_BOUND, Period, Span, SpanFault, partners, sources};
use std::process::Abort;

fn assert_period(rt: &impl Abort, value: u16, is_period: bool) {
    same_at(
        rt,
        Period::new(value).is_some(),
        is_period,
        "period",
        u32::from(value),
    );
}

fn assert_no_span(rt: &impl Abort, lower: i32, upper: i32, fault: SpanFault) {
    same(rt, Span::new(lower, upper), Err(fault), "no span");
}

/// Numbers, and whether each is a period.
const PERIODS: &[(u16, bool)] = &[
    (1, false),
    (2, true),
    (120, true),
    (121, true),
    (1_440, true),
    (1_441, false),
];

#[test]
fn limits_of_periods_and_spans(rt: HostRuntime) {
    for (value, is_period) in PERIODS {
        assert_period(&rt, *value, *is_period);
    }
    assert_no_span(&rt, 5, 3, SpanFault::Crossed);
    assert_no_span(&rt, GREATEST_BOUND + 1, 0, SpanFault::OutOfRange);
}

/// Bounds of a span, a residue, the listed residues, and a message.
type Listed<'a> = ((i32, i32), u16, &'a [u16], &'a str);

/// The partners at period 10.
fn assert_partners(rt: &(impl Abort + AllocGlobal), listed: Listed<'_>) {
    let (bounds, from, wanted, message) = listed;
    let period = Period::new(10).expect(rt, "a period");
    assert!(rt; from < period.get(), "a residue");
    let span = span(rt, bounds.0, bounds.1);
    let found = partners(period, span, from).collect::<Vec<u16>>(rt.alloc());
    same(rt, found.expect(rt, "memory").as_slice(), wanted, message);
}

/// The partners at period 10, from the back.
fn assert_partners_back(rt: &(impl Abort + AllocGlobal), listed: Listed<'_>) {
    let (bounds, from, wanted, message) = listed;
    let period = Period::new(10).expect(rt, "a period");
    assert!(rt; from < period.get(), "a residue");
    let span = span(rt, bounds.0, bounds.1);
    let found = partners(period, span, from)
        .rev()
        .collect::<Vec<u16>>(rt.alloc());
    same(rt, found.expect(rt, "memory").as_slice(), wanted, message);
}

/// The sources at period 10.
fn assert_sources(rt: &(impl Abort + AllocGlobal), listed: Listed<'_>) {
    let (bounds, to, wanted, message) = listed;
    let period = Period::new(10).expect(rt, "a period");
    assert!(rt; to < period.get(), "a residue");
    let span = span(rt, bounds.0, bounds.1);
    let found = sources(period, span, to).collect::<Vec<u16>>(rt.alloc());
    same(rt, found.expect(rt, "memory").as_slice(), wanted, message);
}

const PARTNERS: Listed<'_> = ((-2, 1), 0, &[8, 9, 0, 1], "partners of [-2, 1] from 0");

const PARTNERS_BACK: Listed<'_> = ((-2, 1), 0, &[1, 0, 9, 8], "the same from the back");

const ALL_PARTNERS: Listed<'_> = (
    (7, 16),
    0,
    &[7, 8, 9, 0, 1, 2, 3, 4, 5, 6],
    "partners of [7, 16] from 0",
);

const SOURCES: Listed<'_> = ((3, 5), 4, &[1, 0, 9], "sources of [3, 5] at 4");

#[test]
fn partners_and_sources_listed(rt: HostRuntime) {
    assert_partners(&rt, PARTNERS);
    assert_partners_back(&rt, PARTNERS_BACK);
    assert_partners(&rt, ALL_PARTNERS);
    assert_sources(&rt, SOURCES);
}
