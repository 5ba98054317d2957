// The tight box of some points by numeric order, and its test against a node's box.
ghost use Rattle.std.specs.Prelude.{◌≡◌, ◌<◌, ◌≤◌};
ghost use Rattle.tree.specs.Accepted.{count};
ghost use Rattle.accept.specs.Inner.{low_of, high_of, Tight, Ready};

use distance::Bounds;
use tree::{Node, Tree};

// The lower of two numbers.
// Kept: std's `min` and `max` test for a NaN too; tried and slower, 9.7 ms for 7.8 over a leaf of a million points.
fn low_of(a: f64, b: f64) -> f64
    ensures { result ≡ low_of a b }
{
    if b < a { b } else { a }
}

// The higher of two numbers.
fn high_of(a: f64, b: f64) -> f64
    ensures { result ≡ high_of a b }
{
    if a < b { b } else { a }
}

// The least and the greatest of one coordinate.
#[derive(Clone, Copy, Debug, PartialEq)]
pub struct Span {
    pub low: f64,
    pub high: f64,
}

impl Span {
    ghost use Rattle.accept.specs.Inner.{dot, around, within};

    // That of one point.
    fn of(at: f64) -> Self
        ensures { result ≡ dot at }
    {
        Span { low: at, high: at }
    }

    // That of the points of two.
    fn joined(self, other: Span) -> Self
        ensures { result ≡ around self other }
    {
        Span {
            low: low_of(self.low, other.low),
            high: high_of(self.high, other.high),
        }
    }

    // Whether both ends of a node's box are finite, and it lies between them.
    fn is_within(self, min: f64, max: f64) -> bool
        ensures { result ≡ within min max self }
    {
        distance::is_finite(min) && distance::is_finite(max) && min <= self.low && self.high <= max
    }
}

// The tight box of some points.
#[derive(Clone, Copy, Debug, PartialEq)]
pub struct Extent {
    pub x: Span,
    pub y: Span,
}

impl Extent {
    ghost use Rattle.accept.specs.Inner.{of_entry, joined, fits, inside};

    // That of the point whose index stands at k.
    fn of_entry(tree: &Tree, k: usize) -> Self
        requires ready { Ready tree.now }
        requires within { k < count tree.now }
        ensures { result ≡ of_entry tree.now k }
    {
        let i = tree.indices()[k] as usize;
        Extent {
            x: Span::of(tree.points()[2 * i]),
            y: Span::of(tree.points()[2 * i + 1]),
        }
    }

    // That of the points under a leaf.
    pub fn of_leaf(tree: &Tree, leaf: Node) -> Self
        requires ready { Ready tree.now }
        requires some { leaf.start < leaf.end }
        requires within { leaf.end ≤ count tree.now }
        ensures { Tight tree.now leaf.start leaf.end result }
    {
        let mut extent = Extent::of_entry(tree, leaf.start);
        for k in leaf.start + 1..leaf.end {
            extent = extent.joined(Extent::of_entry(tree, k));
        }
        extent
    }

    // That of the points of two.
    pub fn joined(self, other: Extent) -> Self
        ensures { result ≡ joined self other }
    {
        Extent {
            x: self.x.joined(other.x),
            y: self.y.joined(other.y),
        }
    }

    // Whether a node's box is finite and holds it.
    fn fits(self, b: Bounds) -> bool
        ensures { result ≡ fits b self }
    {
        self.x.is_within(b.min_x, b.max_x) && self.y.is_within(b.min_y, b.max_y)
    }

    // Itself, if a node's box is finite and holds it.
    pub fn inside(self, b: Bounds) -> Option<Self>
        ensures { result ≡ inside b self }
    {
        if self.fits(b) { Some(self) } else { None }
    }
}
