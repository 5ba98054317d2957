//! What the queries share: the order of two points by distance, the first tests of a query, and the walk over a tree, once
//! for every query. A query is a `Query`: what it holds, and what a bound, a leaf's points and the order of two children are
//! to it. The law that over an accepted tree the walk answers as a plain scan is in specs/ and proofs/.
#![tactic(auto)]

ghost use Rattle.std.specs.Prelude.{◌≡◌, true, false, cond, Float, ℕ, ◌+◌, ◌-◌, ◌*◌, ◌<◌, ◌≤◌, length, OnOk, OnErr, IfOk};
ghost use Rattle.distance.specs.Distance.{bound};
ghost use Rattle.tree.specs.Node.{bounds};
ghost use Rattle.tree.specs.Inner.{sound};
ghost use Rattle.tree.specs.Accepted.{count};
ghost use Rattle.tree.specs.Lent.{node, kind_of};
ghost use Rattle.search.specs.Order.{best, before, left_nearer, at};
ghost use Rattle.search.specs.Turn.{in_turn, Turned, Shares, OneDamaged};
ghost use Rattle.tree.specs.declared.Kind.TheVariants.{Branch};
ghost use Rattle.search.specs.Result.{Rooted};
ghost use Rattle.search.specs.Refusal.{checked};
ghost use Rattle.search.specs.Walk.{outcome, leaf_scan, walk_all, Walks};
ghost use Rattle.search.specs.Rules.{Rules, searching, came_to};

use distance::{Bounds, Coord};
use refusal::Refusal;
use tree::{Kind, Node, Tree};

/// A point that a query holds: its squared distance and its index.
#[derive(Clone, Copy, Debug, PartialEq)]
pub struct Best {
    pub d2: f64,
    pub index: u32,
}

impl Best {
    /// Whether this point stands before the other: by squared distance, then by index.
    // Kept: not a derived order, since the edit higher_index turns its last comparison.
    #[inline]
    pub fn is_before(self, other: Best) -> bool
        ensures { result ≡ before self other }
    {
        if self.d2 < other.d2 {
            return true;
        }
        if self.d2 == other.d2 {
            return self.index < other.index;
        }
        false
    }
}

/// A walk met damage: a node that is not what its place calls for, or an index that is no point's.
#[derive(Clone, Copy, Debug, PartialEq, Eq)]
pub struct Damage;

/// Two children: the one to visit first, and the other.
#[derive(Clone, Copy, Debug, PartialEq, Eq)]
pub struct Turn {
    pub near: Node,
    pub far: Node,
}

/// What is asked of a tree. The walk hands it the leaves that it reaches, and asks it which nodes to pass over.
pub trait Query {
    // What it holds, and what a walk leaves as it is.
    ghost State: { Type 0 };

    ghost Fixed: { Type 0 };

    ghost state: { Self → State };

    ghost fixed: { Self → Fixed };

    // What a bound, a point and a whole leaf are to it.
    ghost rules: { Fixed → Rules State };

    // How many points more it can take.
    ghost room: { Self → ℕ };

    /// Whether the child with the nearer centre is visited first, and not the left one.
    fn is_nearer_first(&self) -> bool
        ensures { result ≡ (rules (fixed self.now)).nearer_first };

    /// Whether any node may be passed over by now. Where none may, no bound is worked out.
    fn may_pass(&self) -> bool
        ensures none { result ≡ false → (b : Float) → (rules (fixed self.now)).skip (state self.now) b ≡ false };

    /// Whether a node whose box is that far away, squared, is passed over.
    fn passes(&self, bound: f64) -> bool
        ensures { result ≡ (rules (fixed self.now)).skip (state self.now) bound };

    /// Takes the points of a leaf, as seen from a place. `part` has their indices, and `bounds` is the leaf's box.
    fn scan(&mut self, tree: &Tree, part: &[u32], from: Coord, bounds: Bounds) -> Result<(), Damage>
        requires { length part.now ≤ room self.old }
        ensures state { came_to result (state self.new) ≡ outcome (leaf_scan (count tree.now) (searching (rules (fixed self.old)) tree.now.points from) bounds (state self.old) part.now) }
        ensures fixed { fixed self.new ≡ fixed self.old }
        ensures room { OnOk result (room self.old ≤ room self.new + length part.now) };
}

// The squared distance to the box of a node that is whole.
#[inline(always)]
fn node_bound(tree: &Tree, node: Node, from: Coord) -> f64
    requires { node.number * 6 + 6 ≤ length tree.now.boxes }
    ensures { result ≡ bound from (bounds tree.now.boxes node.number) }
{
    distance::box_bound(from, tree.known_bounds(node.number))
}

// Whether a node that is whole is passed over.
#[inline(always)]
fn is_passed<Q: Query>(tree: &Tree, node: Node, from: Coord, query: &Q) -> bool
    requires { node.number * 6 + 6 ≤ length tree.now.boxes }
    ensures { result ≡ (Q.rules (Q.fixed query.now)).skip (Q.state query.now) (bound from (bounds tree.now.boxes node.number)) }
{
    query.may_pass() && query.passes(node_bound(tree, node, from))
}

// Whether the left of two children is visited first: where its centre is no farther.
#[inline(always)]
fn is_left_nearer(tree: &Tree, left: Node, right: Node, from: Coord) -> bool
    requires left { left.number * 6 + 6 ≤ length tree.now.boxes }
    requires right { right.number * 6 + 6 ≤ length tree.now.boxes }
    ensures { result ≡ left_nearer from (bounds tree.now.boxes left.number) (bounds tree.now.boxes right.number) }
{
    let to_left = distance::centre_distance_sq(from, tree.known_bounds(left.number));
    let to_right = distance::centre_distance_sq(from, tree.known_bounds(right.number));
    to_left <= to_right
}

// The one of two that is first where `first` says so. Compiled to a choice without a jump, which nobody could foretell.
#[inline(always)]
fn pick<T: Copy>(first: bool, a: T, b: T) -> T
    ensures { result ≡ cond first a b }
{
    if first { a } else { b }
}

// Two children in the order of the visit.
#[inline(always)]
fn in_turn(first: bool, left: Node, right: Node) -> Turn
    ensures { result ≡ in_turn first left right }
{
    Turn {
        near: Node {
            number: pick(first, left.number, right.number),
            start: pick(first, left.start, right.start),
            end: pick(first, left.end, right.end),
        },
        far: Node {
            number: pick(first, right.number, left.number),
            start: pick(first, right.start, left.start),
            end: pick(first, right.end, left.end),
        },
    }
}

// The children of a branch, neither of them damage, in the order of the visit. Generic, so that each query has a copy of its
// own, which is compiled into its walk.
#[inline(always)]
fn children<Q: Query>(
    tree: &Tree,
    parent: Node,
    left: u32,
    right: u32,
    from: Coord,
    query: &Q,
) -> Result<Turn, Damage>
    requires { kind_of tree.now parent ≡ Branch left right }
    ensures turned { IfOk result (Turned tree.now from (Q.rules (Q.fixed query.now)).nearer_first parent left right) }
    ensures shares { IfOk result (Shares tree.now parent) }
    ensures damaged { OnErr result (OneDamaged tree.now parent left right) }
{
    let left = parent.left(left);
    let right = parent.right(right);
    if !tree.is_sound(left) || !tree.is_sound(right) {
        return Err(Damage);
    }
    let first = !query.is_nearer_first() || is_left_nearer(tree, left, right, from);
    Ok(in_turn(first, left, right))
}

// From a sound node that is not passed over. A branch tests both its children, and works out both their bounds, before it
// visits either, so that most of those that are passed over cost no call.
// Kept: the place goes as two numbers and the node as three, since a struct goes by pointer: a twentieth of a walk.
fn visit<Q: Query>(
    tree: &Tree,
    x: f64,
    y: f64,
    number: u32,
    start: usize,
    end: usize,
    query: &mut Q,
) -> Result<(), Damage>
    requires some { start < end }
    requires sound { sound (kind_of tree.now (node number start end)) ≡ true }
    requires entered { (Q.rules (Q.fixed query.old)).skip (Q.state query.old) (bound (at x y) (bounds tree.now.boxes number)) ≡ false }
    requires room { end - start ≤ Q.room query.old }
    ensures walks { Walks tree.now (searching (Q.rules (Q.fixed query.old)) tree.now.points (at x y)) number start end (Q.state query.old) (came_to result (Q.state query.new)) }
    ensures fixed { Q.fixed query.new ≡ Q.fixed query.old }
    ensures room { OnOk result (Q.room query.old ≤ Q.room query.new + (end - start)) }
{
    let node = Node { number, start, end };
    let from = Coord { x, y };
    let Kind::Branch(left, right) = tree.known_kind(node.number) else {
        return query.scan(tree, tree.part(node), from, tree.known_bounds(node.number));
    };
    let Turn { near, far } = children(tree, node, left, right, from, query)?;
    if query.may_pass() {
        let near_bound = node_bound(tree, near, from);
        let far_bound = node_bound(tree, far, from);
        if !query.passes(near_bound) {
            visit(tree, x, y, near.number, near.start, near.end, query)?;
        }
        if query.passes(far_bound) {
            return Ok(());
        }
    } else {
        visit(tree, x, y, near.number, near.start, near.end, query)?;
        if is_passed(tree, far, from, query) {
            return Ok(());
        }
    }
    visit(tree, x, y, far.number, far.start, far.end, query)
}

/// The walk of a query over a tree, whoever made it, from node 0 over all its points.
pub fn walk<Q: Query>(tree: &Tree, from: Coord, query: &mut Q) -> Result<(), Damage>
    requires some { 0 < count tree.now }
    requires room { count tree.now ≤ Q.room query.old }
    ensures walks { came_to result (Q.state query.new) ≡ outcome (walk_all tree.now (searching (Q.rules (Q.fixed query.old)) tree.now.points from) (Q.state query.old)) }
    ensures fixed { Q.fixed query.new ≡ Q.fixed query.old }
    ensures room { OnOk result (Q.room query.old ≤ Q.room query.new + count tree.now) }
{
    let n = tree.len();
    if tree.indices().len() < n {
        return Err(Damage);
    }
    let root = Node::root(n);
    let root_sound = tree.is_sound(root);
    if !root_sound {
        return Err(Damage);
    }
    if is_passed(tree, root, from, query) {
        return Ok(());
    }
    visit(
        tree,
        from.x,
        from.y,
        root.number,
        root.start,
        root.end,
        query,
    )
}

/// The first of 1, 2 and 4 that applies to a query at a place over these points.
pub fn check_place(points: &[f64], place: Coord) -> Result<(), Refusal>
    ensures { result ≡ checked points.now place }
{
    tree::check_count(points)?;
    if !place.is_finite() {
        return Err(Refusal::PlaceNotFinite);
    }
    Ok(())
}

/// Squared distances become distances.
pub fn take_roots(squares: &mut [f64])
    ensures { Rooted (length squares.old) squares.old squares.new }
{
    for i in 0..squares.len() {
        squares[i] = root::square_root(squares[i]);
    }
}
