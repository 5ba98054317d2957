//! Numbers of the plane: the rounded squared distance, the nearest and the farthest that a box can be, a test of finite,
//! and a key whose order is IEEE 754's totalOrder. Every operation is rounded once, and no number has to be in a range.
//!
//! Promised, for every f64: each function answers what its definition says (specs/). Of the definitions, with query,
//! box and point finite, it is shown (proofs/):
//!   d2 is no NaN, not below zero and not -0; it is the same either way     d2-plain, d2-nonneg, d2_comm
//!   two that are equally far are so in the same bits                       d2-same
//!   bound <= d2 of any point in the box <= corner, and both are attained   bound-le-d2, d2-le-corner, Tight
//!   keys are in totalOrder, infinities too, and equal for no two numbers   key-total, key_inj
//! Cost, in rounded operations: d2 five; the bound those and at most four comparisons; the corner nine and two
//! comparisons; nothing is stored.
//!
//! For a query at (-2, 4) and the box from (1, 3) to (2, 5): the bound is 9, by the place (1, 4), and the corner is 17,
//! by (2, 5). `distance_examples` runs this and the numbers at the edge of the format.
#![tactic(auto)]

ghost use Rattle.std.specs.Prelude.{◌≡◌, ◌&&◌, not, T};
ghost use Rattle.std.specs.Float.Ieee.{is_nan};
ghost use Rattle.std.specs.Float.Ieee.Scale.{finite};
ghost use Rattle.distance.specs.Distance.{d2, clamp, far, bound, corner, centre};
ghost use Rattle.distance.specs.TotalOrder.{key};

/// A place: a point of the map, or where a query stands.
#[derive(Clone, Copy, Debug, PartialEq)]
pub struct Coord {
    pub x: f64,
    pub y: f64,
}

/// What a node says of the points under it: their centre, and the box that they lie in.
#[derive(Clone, Copy, Debug, PartialEq)]
pub struct Bounds {
    pub cx: f64,
    pub cy: f64,
    pub min_x: f64,
    pub max_x: f64,
    pub min_y: f64,
    pub max_y: f64,
}

impl Coord {
    /// Whether both coordinates are finite.
    pub fn is_finite(self) -> bool
        ensures { result ≡ finite self.x && finite self.y }
    {
        is_finite(self.x) && is_finite(self.y)
    }
}

/// The squared distance of two places.
pub fn coord_distance_sq(a: Coord, b: Coord) -> f64
    ensures { result ≡ d2 a.x a.y b.x b.y }
{
    let dx = a.x - b.x;
    let dy = a.y - b.y;
    dx * dx + dy * dy
}

// The number of low to high that is nearest to q.
fn clamp(q: f64, low: f64, high: f64) -> f64
    ensures { result ≡ clamp q low high }
{
    if q < low {
        low
    } else if high < q {
        high
    } else {
        q
    }
}

/// The squared distance from q to the nearest place of the box: never above that of a point in it.
pub fn box_bound(q: Coord, b: Bounds) -> f64
    ensures { result ≡ bound q b }
{
    let x = clamp(q.x, b.min_x, b.max_x);
    let y = clamp(q.y, b.min_y, b.max_y);
    coord_distance_sq(q, Coord { x, y })
}

// The square of the distance from q to the farther end of low to high.
fn far_end_sq(q: f64, low: f64, high: f64) -> f64
    ensures { result ≡ far q low high }
{
    let a = q - low;
    let b = q - high;
    let to_low = a * a;
    let to_high = b * b;
    if to_low < to_high { to_high } else { to_low }
}

/// The squared distance from q to the farthest corner of the box: never below that of a point in it.
pub fn far_corner(q: Coord, b: Bounds) -> f64
    ensures { result ≡ corner q b }
{
    let x = far_end_sq(q.x, b.min_x, b.max_x);
    let y = far_end_sq(q.y, b.min_y, b.max_y);
    x + y
}

/// The squared distance from q to the centre, by which the nearer child is chosen.
pub fn centre_distance_sq(q: Coord, b: Bounds) -> f64
    ensures { result ≡ centre q b }
{
    coord_distance_sq(q, Coord { x: b.cx, y: b.cy })
}

/// Neither a NaN nor an infinity.
pub fn is_finite(x: f64) -> bool
    ensures { result ≡ finite x }
{
    x.is_finite()
}

/// A number whose order is totalOrder's. An inner function: its callers have tested that x is no NaN.
pub fn total_key(x: f64) -> u64
    requires { T (not (is_nan x)) }
    ensures { result ≡ key x }
{
    let b = f64::to_bits(x);
    if b >= 0x8000_0000_0000_0000 {
        0xffff_ffff_ffff_ffff - b
    } else {
        b + 0x8000_0000_0000_0000
    }
}
