//! The build of a ball tree over points, in slices that the caller lends: n indices, and N(n) nodes of six floats (centre
//! x, centre y, min x, max x, min y, max y) and four numbers (start, end, left, right). Points are x and y in turn.
//!
//!     let nodes = BallTreeBuilder::with_leaf_size(16).build(points, indices, boxes, links)?;
//!
//! One tree for one map, whatever the order of its points: only the order of the indices inside a leaf and the centres are
//! left free. Time grows as n log n on every input; nothing is used beyond the slices and the stack of 20 calls. 1,048,576
//! uniform points take 150 ms; sorted, reversed, equal, organ pipe, few values, and an order played against `select`
//! itself took from half of that to four tenths more (measured with the older kit).
//! Where a row of the refusals applies, the answer says which, and no slice is touched.
#![tactic(auto)]

ghost use Rattle.std.specs.Prelude.{◌≡◌, ◌∷◌, ◌++◌, ◌/◌, ◌^◌, ◌<◌, ◌≤◌, min, length, drop};
ghost use Rattle.distance.specs.Distance.{larger};
ghost use Rattle.refusal.specs.Numbers.{told};
ghost use Rattle.tree.specs.Accepted.{tree};
ghost use Rattle.select.specs.Order.{offset};
ghost use Rattle.build.specs.Built.{Box, axis_of, Each, Built, needed};
ghost use Rattle.build.specs.Outcome.{Given, Due, Outcome};
ghost use Rattle.build.specs.Steps.{Number, smaller, PlainBox, Settled, own_of, Ready, Room, Raised};

use distance::Bounds;
use refusal::Refusal;
use select::Axis;

// ---- the box of a part

// The lesser and the greater of two by the order of numbers alone: each one instruction, without a jump.
// Kept: two lines that differ in a comparison; std's `min` and `max` test for a NaN too, and were slower in the check.
#[tactic(auto, unfolding(crate::specs::Steps::smaller))]
fn smaller(a: f64, b: f64) -> f64
    ensures { result ≡ smaller a b }
{
    if b < a { b } else { a }
}

#[tactic(auto, unfolding(distance::specs::Distance::larger))]
fn larger(a: f64, b: f64) -> f64
    ensures { result ≡ larger a b }
{
    if a < b { b } else { a }
}

// The box of a part by the order of numbers, in which the two zeros are level, and the mean of its points.
// Kept: `ready` here and below: it is said of the points and of a part, which is written between.
#[tactic(auto, using(crate::proofs::Boxes::ready_index, crate::proofs::Boxes::ready_rest))]
fn plain_box(points: &[f64], part: &[u32]) -> Bounds
    requires ready { Ready points.now part.now }
    requires few { length part.now < 2 ^ 32 }
    ensures { PlainBox points.now part.now result }
{
    let f = 2 * (part[0] as usize);
    let fx = points[f];
    let fy = points[f + 1];
    let mut sx = fx;
    let mut sy = fy;
    let mut x0 = fx;
    let mut x1 = fx;
    let mut y0 = fy;
    let mut y1 = fy;
    for &entry in &part[1..] {
        let i = 2 * (entry as usize);
        let x = points[i];
        let y = points[i + 1];
        sx += x;
        sy += y;
        x0 = smaller(x0, x);
        x1 = larger(x1, x);
        y0 = smaller(y0, y);
        y1 = larger(y1, y);
    }
    let n = (part.len() as u32) as f64;
    Bounds {
        cx: sx / n,
        cy: sy / n,
        min_x: x0,
        max_x: x1,
        min_y: y0,
        max_y: y1,
    }
}

// The bits of the two zeros: level as numbers, and by totalOrder -0 is the lower.
const PLUS_ZERO: u64 = 0;

const MINUS_ZERO: u64 = 0x8000_0000_0000_0000;

// An end of the box by totalOrder, from the end by the order of numbers: where that is the zero `had`, and a coordinate of
// the part is the other zero, `sought`, it is the other one.
#[tactic(auto, using(crate::proofs::Boxes::ready_index))]
fn zero_end(points: &[f64], part: &[u32], axis: Axis, end: f64, had: u64, sought: u64) -> f64
    requires ready { Ready points.now part.now }
    requires number { Number end }
    ensures { Settled points.now (offset axis) part.now end had sought result }
{
    if end.to_bits() != had {
        return end;
    }
    for &entry in part {
        let x = points[2 * (entry as usize) + axis.offset()];
        if x.to_bits() == sought {
            return x;
        }
    }
    end
}

// The tight box of a part, and the mean of its points. The order of numbers finds the ends without a jump, and differs
// from totalOrder in the two zeros alone.
fn box_of(points: &[f64], part: &[u32]) -> Bounds
    requires ready { Ready points.now part.now }
    requires few { length part.now < 2 ^ 32 }
    ensures { Box points.now part.now (own_of result) }
{
    let b = plain_box(points, part);
    let min_x = zero_end(points, part, Axis::X, b.min_x, PLUS_ZERO, MINUS_ZERO);
    let max_x = zero_end(points, part, Axis::X, b.max_x, MINUS_ZERO, PLUS_ZERO);
    let min_y = zero_end(points, part, Axis::Y, b.min_y, PLUS_ZERO, MINUS_ZERO);
    let max_y = zero_end(points, part, Axis::Y, b.max_y, MINUS_ZERO, PLUS_ZERO);
    Bounds {
        min_x,
        max_x,
        min_y,
        max_y,
        ..b
    }
}

// X, unless the box is higher than it is wide.
fn axis_of(b: Bounds) -> Axis
    ensures { offset result ≡ axis_of (own_of b) }
{
    if b.max_x - b.min_x >= b.max_y - b.min_y {
        Axis::X
    } else {
        Axis::Y
    }
}

// ---- a node, into the front of its slice

fn put_box(boxes: &mut [f64], b: Bounds)
    requires { 6 ≤ length boxes.old }
    ensures { boxes.new ≡ own_of b ++ drop 6 boxes.old }
{
    boxes[..6].copy_from_slice(&[b.cx, b.cy, b.min_x, b.max_x, b.min_y, b.max_y]);
}

fn put_link(links: &mut [u32], start: u32, end: u32, left: u32, right: u32)
    requires { 4 ≤ length links.old }
    ensures { links.new ≡ start ∷ end ∷ left ∷ right ∷ drop 4 links.old }
{
    links[..4].copy_from_slice(&[start, end, left, right]);
}

// ---- the recursion

// Kept: three slices and no struct of them, here and below: C lends them so, and each half is cut from them anew.
// The subtree over a part, from the front of the two node slices on: the parent, the left subtree, the right subtree.
// Its first node is numbered `node`, its part starts at `start`. Returns how many nodes it has. The part's count falls.
fn build_recursive(
    points: &[f64],
    part: &mut [u32],
    boxes: &mut [f64],
    links: &mut [u32],
    node: usize,
    start: usize,
    leaf: usize,
) -> usize
    requires ready { Ready points.now part.old }
    requires room { Room leaf node start (length part.old) (length boxes.old) (length links.old) }
    ensures { Raised points.now leaf node start part.old boxes.old links.old part.new boxes.new links.new result }
{
    let count = part.len();
    let b = box_of(points, part);
    put_box(boxes, b);
    let end = start + count;
    if count <= leaf {
        put_link(links, start as u32, end as u32, 0, 0);
        return 1;
    }
    let mid = count / 2;
    let axis = axis_of(b);
    select::halve(points, part, axis);
    let left = build_recursive(
        points,
        &mut part[..mid],
        &mut boxes[6..],
        &mut links[4..],
        node + 1,
        start,
        leaf,
    );
    let right = node + 1 + left;
    put_link(
        links,
        start as u32,
        end as u32,
        (node + 1) as u32,
        right as u32,
    );
    let b2 = 6 + 6 * left;
    let l2 = 4 + 4 * left;
    let more = build_recursive(
        points,
        &mut part[mid..],
        &mut boxes[b2..],
        &mut links[l2..],
        right,
        start + mid,
        leaf,
    );
    1 + left + more
}

// 0, 1, 2 and so on.
fn number(part: &mut [u32])
    requires { length part.old < 2 ^ 32 }
    ensures { Each (length part.old) part.new }
{
    for (i, entry) in part.iter_mut().enumerate() {
        *entry = i as u32;
    }
}

// The tree over all points. Returns how many nodes it has; none where there is no point.
fn build_whole(
    points: &[f64],
    indices: &mut [u32],
    boxes: &mut [f64],
    links: &mut [u32],
    leaf_size: u32,
) -> usize
    requires { Given leaf_size points.now (length indices.old) (length boxes.old) (length links.old) }
    ensures nodes { result ≡ needed leaf_size points.now }
    ensures built { Built leaf_size (tree points.now indices.old boxes.old links.old) (tree points.now indices.new boxes.new links.new) }
{
    let n = points.len() / 2;
    if n == 0 {
        return 0;
    }
    let leaf = tree::leaf_of(leaf_size);
    number(&mut indices[..n]);
    build_recursive(points, &mut indices[..n], boxes, links, 0, 0, leaf)
}

// How many whole nodes both slices of these lengths hold.
fn whole_nodes(boxes: usize, links: usize) -> usize
    ensures { result ≡ min (boxes / 6) (links / 4) }
{
    (boxes / 6).min(links / 4)
}

// ---- the builder

/// Builds trees with leaves of a size.
#[derive(Clone, Copy, Debug, PartialEq, Eq)]
pub struct BallTreeBuilder {
    leaf_size: u32,
}

impl BallTreeBuilder {
    /// As in the original: fewer make a deeper tree, more make a leaf's scan longer; both cost a query time.
    pub const DEFAULT_LEAF_SIZE: u32 = 16;

    pub fn new() -> Self
        ensures { result.leaf_size ≡ 16 }
    {
        Self {
            leaf_size: Self::DEFAULT_LEAF_SIZE,
        }
    }

    /// At most so many points in a leaf; 0 counts as 1.
    pub fn with_leaf_size(n: u32) -> Self
        ensures { result.leaf_size ≡ n }
    {
        Self { leaf_size: n }
    }

    /// The same builder with another leaf size.
    pub fn leaf_size(mut self, n: u32) -> Self
        ensures { result.leaf_size ≡ n }
    {
        self.leaf_size = n;
        self
    }

    /// What `build` would answer over slices of these lengths: how many nodes, or the first refusal that applies. Nothing is
    /// written.
    pub fn plan(
        self,
        points: &[f64],
        indices: usize,
        boxes: usize,
        links: usize,
    ) -> Result<u32, Refusal>
        ensures { Due self.leaf_size points.now indices boxes links (told result) }
    {
        tree::check_points(points)?;
        let n = points.len() / 2;
        if indices < n {
            return Err(Refusal::IndicesTooShort(n as u32));
        }
        let need = tree::count_nodes(tree::leaf_of(self.leaf_size), n);
        if whole_nodes(boxes, links) < need {
            return Err(Refusal::NodesTooShort(need as u32));
        }
        Ok(need as u32)
    }

    /// The tree over the points, into the three slices: how many nodes it has. On a refusal they are as they were.
    pub fn build(
        self,
        points: &[f64],
        indices: &mut [u32],
        boxes: &mut [f64],
        links: &mut [u32],
    ) -> Result<u32, Refusal>
        ensures { Outcome self.leaf_size (tree points.now indices.old boxes.old links.old) (told result) (tree points.now indices.new boxes.new links.new) }
    {
        let nodes = self.plan(points, indices.len(), boxes.len(), links.len())?;
        build_whole(points, indices, boxes, links, self.leaf_size);
        Ok(nodes)
    }
}
