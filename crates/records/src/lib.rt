//! The stream's records, read from bytes: a byte of kind, then a body of fixed length, little-endian.
//!
//!     1 point (x, y)   2 nearest (x, y)   3 k-nearest (x, y, k)   4 radius (x, y, radius)   5 label (epsilon, min_samples)
//!
//! Coordinates, radius and epsilon are f64, k and min_samples u32. All other kinds are read as `Unknown`, with no body.
#![tactic(auto)]

ghost use Rattle.std.specs.Prelude.{◌≡◌, ◌+◌, ◌≤◌, length};
ghost use Rattle.records.specs.Record.{word_at, float_at, body_of, record_at, read_at};

use std::num::f64_from_bits_with_nan;

/// A record.
#[derive(Clone, Copy, Debug, PartialEq)]
pub enum Record {
    Point(f64, f64),
    Nearest(f64, f64),
    KNearest(f64, f64, u32),
    Radius(f64, f64, f64),
    Label(f64, u32),
    Unknown,
}

/// What stands at a place: a whole record and the place past it, the start of one, or nothing.
// Kept: three cases; `Result<Option<(Record, usize)>, Cut>` needs two patterns at each use.
#[derive(Clone, Copy, Debug, PartialEq)]
pub enum Read {
    Whole(Record, usize),
    Cut,
    End,
}

// Four bytes as a number, the least first.
fn word(s: &[u8], at: usize) -> u32
    requires { at + 4 ≤ length s.now }
    ensures { result ≡ word_at s.now at }
{
    u32::from_le_bytes([s[at], s[at + 1], s[at + 2], s[at + 3]])
}

// Eight as a float; any NaN's bits give the one NaN.
fn float(s: &[u8], at: usize) -> f64
    requires { at + 8 ≤ length s.now }
    ensures { result ≡ float_at s.now at }
{
    let bytes = [
        s[at],
        s[at + 1],
        s[at + 2],
        s[at + 3],
        s[at + 4],
        s[at + 5],
        s[at + 6],
        s[at + 7],
    ];
    f64_from_bits_with_nan(u64::from_le_bytes(bytes))
}

// How many bytes follow a byte of kind.
// Kept: a kind is the stream's byte until its record is read: `Record` is the enum of kinds.
fn body_length(kind: u8) -> usize
    ensures { result ≡ body_of kind }
{
    match kind {
        1 | 2 => 16,
        3 => 20,
        4 => 24,
        5 => 12,
        _ => 0,
    }
}

// The record of a kind whose body starts at `at`.
fn body_of(s: &[u8], kind: u8, at: usize) -> Record
    requires { at + body_of kind ≤ length s.now }
    ensures { result ≡ record_at s.now kind at }
{
    match kind {
        1 => Record::Point(float(s, at), float(s, at + 8)),
        2 => Record::Nearest(float(s, at), float(s, at + 8)),
        3 => Record::KNearest(float(s, at), float(s, at + 8), word(s, at + 16)),
        4 => Record::Radius(float(s, at), float(s, at + 8), float(s, at + 16)),
        5 => Record::Label(float(s, at), word(s, at + 8)),
        _ => Record::Unknown,
    }
}

/// The record whose byte of kind is at `at`.
pub fn read_at(s: &[u8], at: usize) -> Read
    ensures { result ≡ read_at s.now at }
{
    let Some(&kind) = s.get(at) else {
        return Read::End;
    };
    let start = at + 1;
    let n = body_length(kind);
    if n <= s.len() - start {
        Read::Whole(body_of(s, kind, start), start + n)
    } else {
        Read::Cut
    }
}
