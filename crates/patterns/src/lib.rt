//! Words of text, of 16 upper-case hex digits each, as numbers and as floats: what the programs that replay recorded lists read.
#![tactic(auto)]

ghost use Rattle.std.specs.Prelude.{◌≡◌};
ghost use Rattle.std.specs.Float.{binary64};
ghost use Rattle.std.specs.Float.Ieee.{of_bits};
ghost use Rattle.patterns.specs.Digits.{digit, word, IsPattern};

use std::num::{f64_from_bits_with_nan, f64_to_bits_with_nan};

#[tactic(auto, unfolding(crate::specs::Digits::digit))]
fn digit(c: u8) -> u64
    ensures { result ≡ digit c }
{
    match c {
        b'0'..=b'9' => u64::from(c - b'0'),
        b'A'..=b'F' => u64::from(c - b'A') + 10,
        _ => 0,
    }
}

/// The number that the 16 digits from a place on write; 0 where the text ends before.
// Kept: 0 and no `Option`: the definition `word` of specs/ says 0.
pub fn word(text: &[u8], at: usize) -> u64
    ensures { result ≡ word text.now at }
{
    if text.len() < 16 || at > text.len() - 16 {
        return 0;
    }
    let mut v = 0;
    for &c in &text[at..at + 16] {
        v = v * 16 + digit(c);
    }
    v
}

/// The float of a pattern; all NaNs count as one.
pub fn float(b: u64) -> f64
    ensures { result ≡ of_bits binary64 b }
{
    f64_from_bits_with_nan(b)
}

/// The pattern of a float; a NaN's is the one that the recorded lists have.
pub fn pattern(x: f64) -> u64
    ensures { IsPattern x result }
{
    f64_to_bits_with_nan(x)
}
