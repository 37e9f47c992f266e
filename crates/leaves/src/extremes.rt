// The sets of the listed questions on extremes: how far a curve goes up and down.
ghost use Rattle.std.specs.Prelude.{◌≡◌, ◌<◌, length, if◌then◌else◌};
ghost use Rattle.number.specs.Axis.{axis};
ghost use Rattle.recording.specs.Recording.{Accepted};
ghost use Rattle.grammar.specs.Syntax as asks;
ghost use Rattle.meaning.specs.inner.Truth.{coded_at, truth};
ghost use Rattle.meaning.specs.inner.Coded.{coded};
ghost use Rattle.leaves.specs.inner.Span.{Spans};
ghost use Rattle.leaves.specs.inner.Extreme as extreme;
ghost use Rattle.leaves.specs.inner.Extreme.{Extreme, Passes};
ghost use Rattle.recording.specs.Reading.{curve_of};

use crate::span::Span;
use crate::{fields, span};

// An after-time below every time.
const START: u32 = 0;

// Upwards the greater of two, downwards the lesser.
fn farther(up: bool, m: u32, x: u32) -> u32
    ensures { result ≡ extreme.farther up m x }
{
    if up { m.max(x) } else { m.min(x) }
}

// Where there is no record: the least upwards, the end of the axis downwards.
fn none(up: bool) -> u32
    ensures { result ≡ (if up then 0 else axis) }
{
    if up { 0 } else { number::AXIS }
}

// From m on to record i.
fn pass(rec: &[u8], i: usize, curve: usize, after: u32, up: bool, m: u32) -> u32
    requires { Accepted rec.now × (i < length (coded rec.now)) × (curve < 2) }
    ensures { Passes up (curve_of curve) after (coded_at (coded rec.now) i) m result }
{
    if fields::time_at(rec, i) <= after {
        return m;
    }
    farther(up, m, fields::value_at(rec, i, curve))
}

// How far a curve goes, up or down, among the records after an after-time.
fn extreme(rec: &[u8], curve: usize, after: u32, up: bool) -> u32
    requires { Accepted rec.now × (curve < 2) }
    ensures { Extreme up (curve_of curve) after (coded rec.now) result }
{
    let mut m = none(up);
    for i in 0..rec.len() / 16 {
        m = pass(rec, i, curve, after, up, m);
    }
    m
}

pub fn high(rec: &[u8], curve: usize) -> Span
    requires { Accepted rec.now × (0 < length (coded rec.now)) × (curve < 2) }
    ensures { Spans (λ v. truth (asks.high (curve_of curve)) (coded rec.now) v) result }
{
    span::upto(extreme(rec, curve, START, true))
}

pub fn low(rec: &[u8], curve: usize) -> Span
    requires { Accepted rec.now × (0 < length (coded rec.now)) × (curve < 2) }
    ensures { Spans (λ v. truth (asks.low (curve_of curve)) (coded rec.now) v) result }
{
    span::from(extreme(rec, curve, START, false))
}

pub fn lowafter(rec: &[u8], curve: usize, after: u32) -> Span
    requires { Accepted rec.now × (curve < 2) }
    ensures { Spans (λ v. truth (asks.lowafter (curve_of curve) after) (coded rec.now) v) result }
{
    span::from(extreme(rec, curve, after, false))
}

pub fn capafter(rec: &[u8], curve: usize, after: u32) -> Span
    requires { Accepted rec.now × (curve < 2) }
    ensures { Spans (λ v. truth (asks.capafter (curve_of curve) after) (coded rec.now) v) result }
{
    span::from(extreme(rec, curve, after, true))
}

pub fn ampl(rec: &[u8], curve: usize) -> Span
    requires { Accepted rec.now × (0 < length (coded rec.now)) × (curve < 2) }
    ensures { Spans (λ v. truth (asks.ampl (curve_of curve)) (coded rec.now) v) result }
{
    let bottom = extreme(rec, curve, START, false);
    let top = extreme(rec, curve, START, true);
    span::upto(top - bottom + number::ORIGIN)
}
