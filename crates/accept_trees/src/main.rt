//! Checks a good tree, and the same tree with one field changed at a time; writes a line for each: the case, and the number
//! (0: accepted) and the detail that the check answers.
#![tactic(auto)]

use refusal::Refusal;
use std::io;
use tree::Tree;

// What is changed: a value at a place of one of the four slices, or how much of one of them is lent.
#[derive(Clone, Copy, Debug, PartialEq)]
enum Change {
    Nothing,
    Point(usize, f64),
    Index(usize, u32),
    Bound(usize, f64),
    Link(usize, u32),
    Points(usize),
    Indices(usize),
    Boxes(usize),
    Links(usize),
}

// The good tree: five points and six nodes. The children of node 0 are 4 and 2, those of node 2 are 5 and 1; node 3 is not reached.
const POINTS: [f64; 10] = [0.0, 0.0, 3.0, 4.0, 6.0, 8.0, -3.0, 4.0, 1.0, -2.0];

const INDICES: [u32; 6] = [3, 0, 4, 1, 2, 9];

const BOXES: [f64; 36] = [
    // 0: 0 to 5, a branch
    1.4, 2.8, -3.0, 6.0, -2.0, 8.0,
    // 1: 3 to 5, a leaf
    4.5, 6.0, 3.0, 6.0, 4.0, 8.0,
    // 2: 2 to 5, a branch
    3.0, 3.0, 1.0, 6.0, -2.0, 8.0,
    // 3: anything
    0.0, 0.0, 9.0, 9.0, 9.0, 9.0,
    // 4: 0 to 2, a leaf
    -1.5, 2.0, -3.0, 0.0, 0.0, 4.0,
    // 5: 2 to 3, a leaf
    1.0, -2.0, 1.0, 1.0, -2.0, -2.0,
];

const LINKS: [u32; 24] = [
    // 0
    0, 5, 4, 2,
    // 1
    3, 5, 0, 0,
    // 2
    2, 5, 5, 1,
    // 3
    8, 8, 8, 8,
    // 4
    0, 2, 0, 0,
    // 5
    2, 3, 0, 0,
];

// The cases. A node v has its box at 6 * v + 2 to 6 * v + 5 (min x, max x, min y, max y), and start, end, left and right from 4 * v.
const CHANGES: [Change; 43] = [
    // accepted: what is changed is not asked about
    Change::Nothing,
    Change::Bound(0, f64::NAN),
    Change::Bound(13, f64::INFINITY),
    Change::Bound(20, f64::INFINITY),
    Change::Link(12, 7),
    Change::Index(5, 0),
    Change::Indices(5),
    // accepted: a box wider than its points, an end that is the point as a number, a point moved inside its boxes
    Change::Bound(2, -100.0),
    Change::Bound(27, -0.0),
    Change::Point(0, -1.0),
    // accepted: no points, whatever else there is
    Change::Points(0),
    // an odd number of coordinates; points that are not finite
    Change::Points(9),
    Change::Point(0, f64::NEG_INFINITY),
    Change::Point(2, f64::INFINITY),
    Change::Point(5, f64::NAN),
    // points fewer than the nodes say; a point moved out of its box
    Change::Points(8),
    Change::Point(8, 1.5),
    // indices: one entry short, one not below n, one twice
    Change::Indices(4),
    Change::Index(1, 5),
    Change::Index(1, 3),
    // node 5, or all of them, not whole in a slice
    Change::Boxes(35),
    Change::Links(23),
    Change::Boxes(0),
    Change::Links(0),
    // node 0 does not cover 0 to n; a half is off by one, empty, or upside down
    Change::Link(0, 1),
    Change::Link(1, 4),
    Change::Link(17, 3),
    Change::Link(8, 3),
    Change::Link(17, 0),
    Change::Link(4, u32::MAX),
    // one child zero, at a branch and at a leaf; a child that covers another part, or is past the slices
    Change::Link(2, 0),
    Change::Link(3, 0),
    Change::Link(18, 5),
    Change::Link(3, 4),
    Change::Link(2, 6),
    Change::Link(2, u32::MAX),
    // an end of a box past a point of its part, at the root, at a branch and at a leaf
    Change::Bound(2, -2.5),
    Change::Bound(15, 5.5),
    Change::Bound(10, 4.5),
    Change::Bound(35, -2.5),
    // an end that is not finite
    Change::Bound(11, f64::INFINITY),
    Change::Bound(16, f64::NEG_INFINITY),
    Change::Bound(32, f64::NAN),
];

fn put<T: Copy>(s: &mut [T], at: usize, value: T) {
    if let Some(entry) = s.get_mut(at) {
        *entry = value;
    }
}

fn first<T>(s: &[T], len: usize) -> &[T] {
    s.get(..len).unwrap_or(s)
}

// The answer over the tree with the change.
fn answer(change: Change) -> Result<(), Refusal> {
    let mut points = POINTS;
    let mut indices = INDICES;
    let mut boxes = BOXES;
    let mut links = LINKS;
    match change {
        Change::Point(at, value) => put(&mut points, at, value),
        Change::Index(at, value) => put(&mut indices, at, value),
        Change::Bound(at, value) => put(&mut boxes, at, value),
        Change::Link(at, value) => put(&mut links, at, value),
        _ => {}
    }
    let tree = match change {
        Change::Points(len) => Tree::new(first(&points, len), &indices, &boxes, &links),
        Change::Indices(len) => Tree::new(&points, first(&indices, len), &boxes, &links),
        Change::Boxes(len) => Tree::new(&points, &indices, first(&boxes, len), &links),
        Change::Links(len) => Tree::new(&points, &indices, &boxes, first(&links, len)),
        _ => Tree::new(&points, &indices, &boxes, &links),
    };
    accept::check_tree(&tree)
}

fn main(rt: HostRuntime) -> io::Result<()> {
    for (case, &change) in CHANGES.iter().enumerate() {
        match answer(change) {
            Ok(()) => println!(&rt; "{case}: 0 0")?,
            Err(refusal) => println!(&rt; "{case}: {} {}", refusal.number(), refusal.detail())?,
        }
    }
    Ok(())
}
