//! A tree over points, in slices that the caller lends: six floats a node in `boxes` (centre x, centre y, min x, max x,
//! min y, max y), four numbers a node in `links` (start, end, left, right), and the points' indices. Here a node is read,
//! the indices under it are handed back, points are tested, and the nodes that a tree needs are counted; nothing is asked
//! of the slices, whoever made them. `known_kind` and `known_bounds` read a node that was found sound.
#![tactic(auto)]

ghost use Rattle.std.specs.Prelude.{◌≡◌, ◌+◌, ◌-◌, ◌*◌, ◌^◌, ◌<◌, ◌≤◌, eqb, length, get_or, IfSome};
ghost use Rattle.std.specs.Float.{nan};
ghost use Rattle.tree.specs.Points.{limit, size, found_at, FirstBad, Checks, counted};
ghost use Rattle.tree.specs.Node.{bounds, children, mid};
ghost use Rattle.tree.specs.Inner.{sound, known};
ghost use Rattle.tree.specs.Accepted.{tree, count, point};
ghost use Rattle.tree.specs.Lent.{node, kind_of, part_of};
ghost use Rattle.tree.specs.Count.{leaf_of, nodes, node_count};

use distance::{Bounds, Coord};
use refusal::Refusal;
use std::marker::Model;

/// The most points that there may be.
pub const MAX_POINTS: usize = 1_048_576;

/// What a node is: a leaf, a branch with its two children, or damage.
// Kept: one enum of the three cases that the rules of the project name, and no `Result` with an error.
#[derive(Clone, Copy, Debug, PartialEq, Eq)]
pub enum Kind {
    Leaf,
    Branch(u32, u32),
    Damaged,
}

/// A node with the entries that it is to cover: those from `start` to `end`.
#[derive(Clone, Copy, Debug, PartialEq, Eq)]
pub struct Node {
    pub number: u32,
    pub start: usize,
    pub end: usize,
}

impl Node {
    /// Node 0, over all of n points.
    #[inline]
    pub fn root(n: usize) -> Self
        ensures { result ≡ node 0 0 n }
    {
        Node {
            number: 0,
            start: 0,
            end: n,
        }
    }

    /// How many entries it is to cover.
    #[inline]
    pub fn len(self) -> usize
        requires { self.start ≤ self.end }
        ensures { result ≡ self.end - self.start }
    {
        self.end - self.start
    }

    /// A child over the left half of the entries.
    #[inline]
    pub fn left(self, number: u32) -> Self
        requires { self.start ≤ self.end }
        ensures { result ≡ node number self.start (mid self.start self.end) }
    {
        Node {
            number,
            start: self.start,
            end: self.start + self.len() / 2,
        }
    }

    /// A child over the right half.
    #[inline]
    pub fn right(self, number: u32) -> Self
        requires { self.start ≤ self.end }
        ensures { result ≡ node number (mid self.start self.end) self.end }
    {
        Node {
            number,
            start: self.start + self.len() / 2,
            end: self.end,
        }
    }
}

/// The four slices of a tree, as a caller lends them. Any slices do: whether they are a tree is what the check is for.
#[derive(Debug, Drop)]
pub struct Tree<'a> {
    points: &'a [f64],
    indices: &'a [u32],
    boxes: &'a [f64],
    links: &'a [u32],
}

impl<'a> Model for Tree<'a> {
    ghost use Rattle.tree.specs.Accepted.{Tree};

    ghost Value = { Tree };

    ghost view = { λ t. record { points = t.points.now; indices = t.indices.now; boxes = t.boxes.now; links = t.links.now } };
}

// The float at i; a NaN past the end.
fn float_at(s: &[f64], i: usize) -> f64
    ensures { result ≡ get_or s.now i nan }
{
    if i < s.len() { s[i] } else { f64::NAN }
}

// What its children make of a node over start to end.
fn children(start: usize, end: usize, left: u32, right: u32) -> Kind
    requires { start < 2 ^ 32 }
    ensures { result ≡ children (end - start) left right }
{
    if left == 0 && right == 0 {
        Kind::Leaf
    } else if left == 0 || right == 0 {
        Kind::Damaged
    } else if start + 1 < end {
        Kind::Branch(left, right)
    } else {
        Kind::Damaged
    }
}

impl<'a> Tree<'a> {
    pub fn new(points: &'a [f64], indices: &'a [u32], boxes: &'a [f64], links: &'a [u32]) -> Self
        ensures { result ≡ tree points.now indices.now boxes.now links.now }
    {
        Tree {
            points,
            indices,
            boxes,
            links,
        }
    }

    /// The points, x and y in turn.
    #[inline]
    pub fn points(&self) -> &'a [f64]
        ensures { result.now ≡ self.now.points }
    {
        self.points
    }

    /// The indices, all that were lent.
    #[inline]
    pub fn indices(&self) -> &'a [u32]
        ensures { result.now ≡ self.now.indices }
    {
        self.indices
    }

    /// How many points there are.
    #[inline]
    pub fn len(&self) -> usize
        ensures { result ≡ count self.now }
    {
        self.points.len() / 2
    }

    /// Whether there are none.
    #[inline]
    pub fn is_empty(&self) -> bool
        ensures { result ≡ eqb (count self.now) 0 }
    {
        self.len() == 0
    }

    /// The place of a point, if the index is one's.
    #[inline]
    pub fn point(&self, index: u32) -> Option<Coord>
        ensures { result ≡ point self.now index }
    {
        let at = index as usize;
        if at < self.points.len() / 2 {
            Some(Coord {
                x: self.points[2 * at],
                y: self.points[2 * at + 1],
            })
        } else {
            None
        }
    }

    /// The centre and the box of a node, NaN where it is not whole in the slice.
    pub fn bounds(&self, node: u32) -> Bounds
        ensures { result ≡ bounds self.now.boxes node }
    {
        let at = node as usize * 6;
        Bounds {
            cx: float_at(self.boxes, at),
            cy: float_at(self.boxes, at + 1),
            min_x: float_at(self.boxes, at + 2),
            max_x: float_at(self.boxes, at + 3),
            min_y: float_at(self.boxes, at + 4),
            max_y: float_at(self.boxes, at + 5),
        }
    }

    /// What a node is, if its place in the halving is that of its entries.
    #[inline]
    pub fn kind(&self, node: Node) -> Kind
        ensures { result ≡ kind_of self.now node }
    {
        let at = node.number as usize;
        if at * 6 + 6 > self.boxes.len() || at * 4 + 4 > self.links.len() {
            return Kind::Damaged;
        }
        if self.links[at * 4] as usize != node.start
            || self.links[at * 4 + 1] as usize != node.end
        {
            return Kind::Damaged;
        }
        children(
            node.start,
            node.end,
            self.links[at * 4 + 2],
            self.links[at * 4 + 3],
        )
    }

    /// Whether there is no damage at that place.
    #[inline]
    pub fn is_sound(&self, node: Node) -> bool
        ensures { result ≡ sound (kind_of self.now node) }
    {
        self.kind(node) != Kind::Damaged
    }

    /// What a sound node is: only its children are left to read. An inner function, as the next: a walk has tested the node.
    // Kept: beside `kind` and `bounds`, which test what a walk has tested already.
    #[inline]
    pub fn known_kind(&self, node: u32) -> Kind
        requires { node * 4 + 4 ≤ length self.now.links }
        ensures { result ≡ known self.now.links node }
    {
        let at = node as usize * 4;
        let left = self.links[at + 2];
        if left == 0 {
            return Kind::Leaf;
        }
        Kind::Branch(left, self.links[at + 3])
    }

    /// The centre and the box of a node that is whole.
    #[inline]
    pub fn known_bounds(&self, node: u32) -> Bounds
        requires { node * 6 + 6 ≤ length self.now.boxes }
        ensures { result ≡ bounds self.now.boxes node }
    {
        let at = node as usize * 6;
        Bounds {
            cx: self.boxes[at],
            cy: self.boxes[at + 1],
            min_x: self.boxes[at + 2],
            max_x: self.boxes[at + 3],
            min_y: self.boxes[at + 4],
            max_y: self.boxes[at + 5],
        }
    }

    /// The indices under a node: that part of the caller's own slice, or an empty one where it does not lie in it.
    #[inline]
    pub fn part(&self, node: Node) -> &'a [u32]
        ensures { result.now ≡ part_of self.now node }
    {
        self.indices.get(node.start..node.end).unwrap_or(&[])
    }
}

/// The least index of a point that is not finite, if there is one.
pub fn first_not_finite(points: &[f64]) -> Option<usize>
    ensures least { FirstBad points.now (found_at points.now result) }
    ensures within { IfSome result (λ i. i < size points.now) }
{
    for i in 0..points.len() / 2 {
        let at = Coord {
            x: points[2 * i],
            y: points[2 * i + 1],
        };
        if !at.is_finite() {
            return Some(i);
        }
    }
    None
}

/// Whether the points are even in their coordinates, and not too many.
#[inline]
pub fn check_count(points: &[f64]) -> Result<(), Refusal>
    ensures { result ≡ counted points.now }
{
    if points.len() % 2 == 1 {
        return Err(Refusal::OddCoordinates);
    }
    if points.len() / 2 > MAX_POINTS {
        return Err(Refusal::TooManyPoints);
    }
    Ok(())
}

/// The same, and whether they are finite: what a build asks of points, and so does the check of a tree.
pub fn check_points(points: &[f64]) -> Result<(), Refusal>
    ensures { Checks points.now result }
{
    check_count(points)?;
    match first_not_finite(points) {
        Some(index) => Err(Refusal::PointNotFinite(index as u32)),
        None => Ok(()),
    }
}

/// The leaf size that counts: 0 counts as 1.
pub fn leaf_of(leaf_size: u32) -> usize
    ensures { result ≡ leaf_of leaf_size }
{
    (leaf_size as usize).max(1)
}

// The nodes of a tree over c points, and over one more.
#[derive(Clone, Copy, Debug)]
struct Counts {
    here: usize,
    next: usize,
}

// N(c) and N(c + 1) together: halving c meets no third size, so there is one call a level.
fn count_both(leaf: usize, c: usize) -> Counts
    requires { (0 < leaf) × (0 < c) × (c ≤ limit) }
    ensures { (result.here ≡ nodes leaf c) × (result.next ≡ nodes leaf (c + 1)) }
{
    if c < leaf {
        return Counts { here: 1, next: 1 };
    }
    if c <= leaf {
        return Counts { here: 1, next: 3 };
    }
    let half = count_both(leaf, c / 2);
    let mixed = 1 + half.here + half.next;
    if c % 2 == 0 {
        Counts {
            here: 1 + half.here + half.here,
            next: mixed,
        }
    } else {
        Counts {
            here: mixed,
            next: 1 + half.next + half.next,
        }
    }
}

/// N(c), the nodes of a tree over c points. An inner function: its callers have tested c.
pub fn count_nodes(leaf: usize, c: usize) -> usize
    requires { (0 < leaf) × (c ≤ limit) }
    ensures { result ≡ nodes leaf c }
{
    if c == 0 {
        return 0;
    }
    count_both(leaf, c).here
}

/// How many nodes a tree over n points needs; 0 where n is past the limit.
pub fn node_count(n: u32, leaf_size: u32) -> u32
    ensures { result ≡ node_count n leaf_size }
{
    if n as usize > MAX_POINTS {
        return 0;
    }
    count_nodes(leaf_of(leaf_size), n as usize) as u32
}
