//! The square root of an f64, correctly rounded, for every f64. It is worked out here:
//! the upper half of its digits guessed in floats and settled on whole numbers, the lower half by a division.
//! It cost about 8 ns, and 24 ns where each root waits for the one before, measured with the older kit.
//!
//! The steps, and why each is exact:
//! 1. `square_root` answers a NaN, the zeros, the infinities and what is below zero from the pattern alone. What is
//!    left is finite and above zero.
//! 2. `scale` reads digits and exponent off the pattern, and moves a subnormal's digits up until there are 53. An odd
//!    power of two gives one more factor of two to the digits. The float, times 2^2148, is then a * 2^52 * (2^h)^2, and
//!    nothing was cut.
//! 3. `cut_root` finds g, the root of a cut to a whole number, which has 27 digits, and what is over: rest = a - g * g. It
//!    goes from `guess`, which is worked out in floats and may be wrong, to the g where 0 <= rest <= 2 * g.
//! 4. `nearest_root` takes 26 digits more by a division. With rest * 2^25 = q * g + u and s = g * 2^26 + q,
//!    a * 2^52 - s * s is u * 2^27 - q * q, and nothing is cut. Where that is at most s, the nearest whole number to the
//!    root is s, else s + 1: the point halfway is (s + 1/2)^2 = s * s + s + 1/4, and the quarter keeps a whole number off
//!    it, so there is no tie to break.
//! 5. `root_bits` adds these digits to h * 2^52: the leading digit is the one by which the exponent's field exceeds h.
//!    The digits stay 53, as a is at most 2^54 - 2, and the root of the least float is 2^-537, so no root overflows or
//!    is subnormal.
//!
//! Kept: no `f64::sqrt`: the definition `Root` and the edits of this crate speak of a program that works the root out.
#![tactic(auto)]

ghost use Rattle.std.specs.Prelude.{◌-◌, ◌*◌, ◌<◌, ◌≤◌};
ghost use Rattle.root.specs.Root.{Root};
ghost use Rattle.root.specs.Steps.{half, lead, infinity, CutRoot, Rounds, Splits, RootBits};

// 2^52: the leading digit of a normal float, and the place of the exponent in the pattern.
const LEAD: u64 = 0x10_0000_0000_0000;
// 2^26: a root's digits are g * 2^26 + q.
const HALF: u64 = 0x400_0000;
// 2^63: the sign in the pattern.
const TOP: u64 = 0x8000_0000_0000_0000;
// The pattern of the infinity above zero.
const INFINITY: u64 = 0x7ff0_0000_0000_0000;
// A pattern less half of f's is about that of 1 / root of f: the exponent is halved and negated. Which pattern, and the two
// factors of the step after it, are those that leave the least error, 0.00065.
const START: u64 = 0x5fe4_0000_0000_0000;
// 2^52 - 1/2: a number from 2^26 to 2^27, added to it, is cut to a whole one, and the pattern's last digits are that.
const CUT: f64 = 4503599627370495.5;

// A float above zero, times 2^2148, as a * 2^52 * (2^h)^2; p is the pattern of the float a / 2^52, from 1 to 4.
#[derive(Clone, Copy, Debug, PartialEq, Eq)]
struct Scaled {
    a: u64,
    h: u64,
    p: u64,
}

// A root, cut to a whole number, and what is over.
#[derive(Clone, Copy, Debug, PartialEq, Eq)]
struct Cut {
    g: u64,
    rest: u64,
}

// About the root of a, cut, where p is the pattern of f = a / 2^52. v is 1 / root of f after one of Newton's steps, and
// t = f * v * v is within 0.0013 of 1. The root of f is f * v / root of t, and 0.375 * ((t - 1.66..)^2 + 2.22..) stands
// for 1 / root of t: it is above that by 0 to 3.5 parts in 10^10, so that a square's root is never cut to the number
// below; of other roots one in 60 is cut to the number above. Nothing of this is promised, nor needed.
fn guess(p: u64) -> u64
    requires { p < 1026 * lead }
    ensures { result < 4 * half }
{
    let f = f64::from_bits(p);
    let w = f64::from_bits(START - p / 2);
    let v = 1.68191391 * w - 0.703952253 * f * w * (w * w);
    let c = f * v;
    let d = c * v - 1.6666671947866665;
    let z = 25165824.0 * c * (d * d + 2.2222215185286101) + CUT;
    if z.is_nan() {
        return HALF;
    }
    z.to_bits() % (4 * HALF)
}

// The root of a, cut, from a first guess. No turn of either loop is made where that is right.
fn cut_root(a: u64, first: u64) -> Cut
    requires digits { a < 4 * lead }
    requires guess { first < 4 * half }
    ensures { CutRoot a result.g result.rest }
{
    let mut g = first;
    let mut square = g * g;
    // Kept: both loops search a number, and make no turn where the guess is right.
    'too_large: while square > a {
        g -= 1;
        square = g * g;
    }
    while a - square > 2 * g {
        g += 1;
        square = g * g;
    }
    Cut {
        g,
        rest: a - square,
    }
}

// The root of a * 2^52, to the nearest whole number; p is for the guess alone.
fn nearest_root(a: u64, p: u64) -> u64
    requires low { lead ≤ a }
    requires high { a < 4 * lead - 1 }
    requires pattern { p < 1026 * lead }
    ensures { Rounds (a * lead) result }
{
    let Cut { g, rest } = cut_root(a, guess(p));
    let t = rest * (HALF / 2);
    let q = t / g;
    let u = t % g;
    let s = g * HALF + q;
    if u * (2 * HALF) > q * q + s {
        return s + 1;
    }
    s
}

// The float of a pattern, scaled; a has 53 or 54 digits. `full` holds 53, those of a subnormal moved up by z, and the
// float times 2^2148 is full * 2^52 * 2^e.
fn scale(b: u64) -> Scaled
    requires above_zero { 0 < b }
    requires finite { b < infinity }
    ensures splits { Splits b result.a result.h }
    ensures pattern { result.p < 1026 * lead }
{
    let is_subnormal = b < LEAD;
    let (full, e) = if is_subnormal {
        let z = b.leading_zeros() - 11;
        (b << z, 1022 - u64::from(z))
    } else {
        (b % LEAD + LEAD, b / LEAD + 1021)
    };
    let odd = e % 2;
    Scaled {
        a: full * (1 + odd),
        h: e / 2,
        p: full + (1022 + odd) * LEAD,
    }
}

// The pattern of the root of a finite float above zero, from that float's pattern.
fn root_bits(b: u64) -> u64
    requires above_zero { 0 < b }
    requires finite { b < infinity }
    ensures { RootBits b result }
{
    let s = scale(b);
    s.h * LEAD + nearest_root(s.a, s.p)
}

/// The square root of x. The zeros and the infinity are their own roots; a number below zero has none.
pub fn square_root(x: f64) -> f64
    ensures { Root x result }
{
    if x.is_nan() {
        return f64::NAN;
    }
    match x.to_bits() {
        0 | TOP | INFINITY => x,
        b if b < INFINITY => f64::from_bits(root_bits(b)),
        _ => f64::NAN,
    }
}
