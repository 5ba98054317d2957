//! Examples of the numbers, a line each: what is asked, and the answer's bits as 16 upper-case hex digits. The numbers
//! that come out at the edge of the format are here: a distance that overflows, one that is too small to be told from
//! zero, both zeros' keys, and the bound and the corner of a box beside the d2 of the places that they stand for.
#![tactic(auto)]

use distance::{Bounds, Coord};
use std::io;
use std::num::f64_to_bits_with_nan as bits;

// The key of x; 0, which no number has, for a NaN.
fn key(x: f64) -> u64 {
    if x.is_nan() {
        0
    } else {
        distance::total_key(x)
    }
}

// Writes what was asked, a space, the 16 digits of v and the line's end.
fn say(rt: &impl Print, asked: &str, v: u64) -> io::Result<()> {
    println!(rt; "{asked} {v:016X}")
}

fn distances(rt: &impl Print) -> io::Result<()> {
    let origin = Coord { x: 0.0, y: 0.0 };
    let east = Coord { x: 1e308, y: 0.0 };
    let west = Coord { x: -1e308, y: 0.0 };
    let close = Coord { x: 1e-200, y: 0.0 };
    let five = Coord { x: 3.0, y: 4.0 };
    say(
        rt,
        "d2 (1e308,0) (-1e308,0)",
        bits(distance::coord_distance_sq(east, west)),
    )?;
    say(
        rt,
        "d2 (0,0) (1e-200,0)",
        bits(distance::coord_distance_sq(origin, close)),
    )?;
    say(
        rt,
        "d2 (0,0) (3,4)",
        bits(distance::coord_distance_sq(origin, five)),
    )?;
    say(
        rt,
        "d2 (3,4) (3,4)",
        bits(distance::coord_distance_sq(five, five)),
    )
}

fn boxes(rt: &impl Print) -> io::Result<()> {
    let b = Bounds {
        cx: 1.5,
        cy: 4.0,
        min_x: 1.0,
        max_x: 2.0,
        min_y: 3.0,
        max_y: 5.0,
    };
    let q = Coord { x: -2.0, y: 4.0 };
    let end = Coord { x: 1.0, y: 4.0 };
    let corner = Coord { x: 2.0, y: 5.0 };
    say(
        rt,
        "bound of 1..2, 3..5 at (-2,4)",
        bits(distance::box_bound(q, b)),
    )?;
    say(
        rt,
        "d2 (-2,4) (1,4)",
        bits(distance::coord_distance_sq(q, end)),
    )?;
    say(
        rt,
        "bound of 1..2, 3..5 at (1,4)",
        bits(distance::box_bound(end, b)),
    )?;
    say(
        rt,
        "corner of 1..2, 3..5 at (-2,4)",
        bits(distance::far_corner(q, b)),
    )?;
    say(
        rt,
        "d2 (-2,4) (2,5)",
        bits(distance::coord_distance_sq(q, corner)),
    )
}

fn orders(rt: &impl Print) -> io::Result<()> {
    say(rt, "key -infinity", key(-f64::INFINITY))?;
    say(rt, "key -1", key(-1.0))?;
    say(rt, "key -0", key(-0.0))?;
    say(rt, "key +0", key(0.0))?;
    say(rt, "key 1", key(1.0))?;
    say(rt, "key infinity", key(f64::INFINITY))?;
    say(
        rt,
        "finite 1.7976931348623157e308",
        u64::from(distance::is_finite(1.7976931348623157e308)),
    )?;
    say(rt, "finite 5e-324", u64::from(distance::is_finite(5e-324)))?;
    say(
        rt,
        "finite -infinity",
        u64::from(distance::is_finite(-f64::INFINITY)),
    )?;
    say(rt, "finite NaN", u64::from(distance::is_finite(f64::NAN)))
}

fn main(rt: HostRuntime) -> io::Result<()> {
    distances(&rt)?;
    boxes(&rt)?;
    orders(&rt)
}
