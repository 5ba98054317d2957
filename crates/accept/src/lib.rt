//! The check of a tree that someone else wrote. It accepts exactly the trees that `Accepted` of crate `tree` describes, and those
//! are the ones that a query may be asked over. It writes nothing. It passes once over the points, once over the indices, by a
//! set of bits in 128 KiB of stack, and once over the nodes, from the leaves up: 8 ms for 1,048,576 points at leaf size 16,
//! measured with the older kit.
#![tactic(auto)]

ghost use Rattle.std.specs.Prelude.{◌↔◌, ◌<◌, ◌≤◌, IsTrue, IsOk, IsSome, IfSome};
ghost use Rattle.tree.specs.Points.{Usable};
ghost use Rattle.tree.specs.Accepted.{count, Sound, Grown, Accepted};
ghost use Rattle.accept.specs.Answer.{Answers};
ghost use Rattle.accept.specs.Inner.{Tight, Ready};

use extent::Extent;
use refusal::Refusal;
use tree::{Kind, Node, Tree};

mod extent;
mod once;

// From a node down: each half hands up the tight box of its points. None where a node is damaged, or its box does not hold them.
// Kept: `ready` here and in `Extent`: it is tested once, and a type for it would need each method of `Tree` again.
fn check_part(tree: &Tree, node: Node) -> Option<Extent>
    requires ready { Ready tree.now }
    requires some { node.start < node.end }
    requires within { node.end ≤ count tree.now }
    ensures sound { IsSome result ↔ Sound tree.now node.number node.start node.end }
    ensures tight { IfSome result (Tight tree.now node.start node.end) }
{
    let kind = tree.kind(node);
    if let Kind::Damaged = kind {
        return None;
    }
    let bounds = tree.bounds(node.number);
    let Kind::Branch(left, right) = kind else {
        return Extent::of_leaf(tree, node).inside(bounds);
    };
    let low = check_part(tree, node.left(left))?;
    let high = check_part(tree, node.right(right))?;
    low.joined(high).inside(bounds)
}

// Whether the indices and the nodes are a tree over the points.
fn is_grown(tree: &Tree) -> bool
    requires some { 0 < count tree.now }
    requires usable { Usable tree.now.points }
    ensures { IsTrue result ↔ Grown tree.now }
{
    let n = tree.len();
    if tree.indices().len() < n {
        return false;
    }
    once::each_once(&tree.indices()[..n]) && check_part(tree, Node::root(n)).is_some()
}

/// Whether the tree is accepted; if not, the lowest refusal that applies.
pub fn check_tree(tree: &Tree) -> Result<(), Refusal>
    ensures lowest { Answers tree.now result }
    ensures accepted { IsOk result ↔ Accepted tree.now }
{
    tree::check_points(tree.points())?;
    if tree.is_empty() || is_grown(tree) {
        Ok(())
    } else {
        Err(Refusal::DamagedTree)
    }
}
