//! The k nearest points of a place, nearest first; of two that are equally far, the lower index first.
//!
//! The walk keeps a heap of the nearest so far in the two result slices, squared distances in the distance slice, and passes
//! over each node that is farther than the last of k held. Then the heap is sorted, and roots are taken. Nothing is reserved,
//! whatever k is. Order is by squared distance: two that round to one root stand as their squares do.
//!
//! `nearest_neighbours` promises one outcome for every input, whatever the slices hold (specs/Query); over an accepted tree
//! it is that of a plain scan (specs/Scan), and over any tree hits are min(k, n) points at their own distances (proofs/Promise).
//!
//!     let tree = Tree::new(&points, &indices, &boxes, &links);
//!     nearest_neighbours(&tree, Coord { x: 0.0, y: 4.0 }, 3, &mut near, &mut distances)
//!     over (0,0) (3,4) (6,8) (-3,4): Ok(3), with 1, 3, 0 at 3, 3, 4
#![tactic(auto)]

ghost use Rattle.std.specs.Prelude.{◌≡◌, List, [], ◌^◌, ◌<◌, ◌≤◌, min, length};
ghost use Rattle.tree.specs.Accepted.{count};
ghost use Rattle.search.specs.Walk.{outcome, walk_all};
ghost use Rattle.search.specs.Rules.{came_to};
ghost use Rattle.search.specs.Answer.{Answers, damaged};
ghost use Rattle.search.specs.declared.Best.{Best};
ghost use Rattle.heap.specs.Heap.{pairs};
ghost use Rattle.k_nearest.specs.Query.{nearest_held, none_held, holding, probing, found, no_room, answer};
ghost use Rattle.k_nearest.specs.Inner.{heap_of, Lent};

use distance::{Bounds, Coord};
use refusal::Refusal;
use search::{Best, Damage, Query};
use tree::Tree;

// The nearest so far, in slices that have room for k of them.
// Kept: two slices and a count: results go into lent memory, an index slice and a distance slice.
#[derive(Drop)]
struct Holding<'a> {
    indices: &'a mut [u32],
    d2s: &'a mut [f64],
    held: usize,
    ghost some: { 0 < length indices.now },
    ghost alike: { length d2s.now ≡ length indices.now },
    ghost few: { held ≤ length indices.now },
}

impl<'a> Query for Holding<'a> {
    ghost State = { List Best };

    ghost Fixed = { Lent };

    ghost state = { λ s. heap_of s.held s.indices.now s.d2s.now };

    ghost fixed = { λ s. record { k = length s.indices.now; indices = s.indices.ghost_name; d2s = s.d2s.ghost_name } };

    ghost rules = { λ f. nearest_held f.k };

    ghost room = { λ _. 2 ^ 64 };

    #[inline(always)]
    fn is_nearer_first(&self) -> bool {
        true
    }

    #[inline(always)]
    fn may_pass(&self) -> bool {
        self.held == self.indices.len()
    }

    // A node farther than the last of k held; before k are held, none.
    #[inline(always)]
    fn passes(&self, bound: f64) -> bool {
        if self.held < self.indices.len() {
            return false;
        }
        self.d2s[0] < bound
    }

    // The count stands in a register meanwhile.
    // Kept: a loop of its own, as in the other queries: one for all takes a closure for each point and is no shorter.
    #[inline]
    fn scan(
        &mut self,
        tree: &Tree,
        part: &[u32],
        from: Coord,
        _bounds: Bounds,
    ) -> Result<(), Damage> {
        let mut held = self.held;
        for &index in part {
            let Some(point) = tree.point(index) else {
                return Err(Damage);
            };
            let d2 = distance::coord_distance_sq(from, point);
            held = heap::offer(self.indices, self.d2s, held, Best { d2, index });
        }
        self.held = held;
        Ok(())
    }
}

// Holds nothing and passes over nothing: its walk tells whether there is damage.
#[derive(Drop)]
struct Probe;

impl Query for Probe {
    ghost State = { Unit };

    ghost Fixed = { Unit };

    ghost state = { λ _. tt };

    ghost fixed = { λ _. tt };

    ghost rules = { λ _. none_held };

    ghost room = { λ _. 2 ^ 64 };

    fn is_nearer_first(&self) -> bool {
        false
    }

    fn may_pass(&self) -> bool {
        false
    }

    fn passes(&self, _bound: f64) -> bool {
        false
    }

    fn scan(
        &mut self,
        tree: &Tree,
        part: &[u32],
        _from: Coord,
        _bounds: Bounds,
    ) -> Result<(), Damage> {
        for &index in part {
            if tree.point(index).is_none() {
                return Err(Damage);
            }
        }
        Ok(())
    }
}

// The walk of the k nearest, into slices of k entries each.
// Kept: `fits` here and below: the view of a tree has lists, which have no bound; each entry knows it of the slices.
fn hold(tree: &Tree, place: Coord, indices: &mut [u32], d2s: &mut [f64]) -> Result<(), Damage>
    requires some { 0 < length indices.old }
    requires alike { length d2s.old ≡ length indices.old }
    requires few { length indices.old ≤ count tree.now }
    requires fits { count tree.now < 2 ^ 64 }
    ensures { came_to result (pairs indices.new d2s.new) ≡ outcome (walk_all tree.now (holding (length indices.old) tree.now.points place) []) }
{
    let mut query = Holding {
        indices,
        d2s,
        held: 0,
    };
    search::walk(tree, place, &mut query)
}

// What damage leaves: zeros, whole.
fn zero_out(indices: &mut [u32], distances: &mut [f64]) -> Result<u32, Refusal>
    ensures { Answers damaged indices.old distances.old result indices.new distances.new }
{
    indices.fill(0);
    distances.fill(0.0);
    Err(Refusal::DamagedTree)
}

// The k nearest, with room for them.
fn find(
    tree: &Tree,
    place: Coord,
    k: usize,
    out_indices: &mut [u32],
    out_distances: &mut [f64],
) -> Result<u32, Refusal>
    requires some { 0 < k }
    requires few { k ≤ count tree.now }
    requires fits { k < 2 ^ 32 }
    requires count_fits { count tree.now < 2 ^ 64 }
    requires in_indices { k ≤ length out_indices.old }
    requires in_distances { k ≤ length out_distances.old }
    ensures { Answers (found (outcome (walk_all tree.now (holding k tree.now.points place) []))) out_indices.old out_distances.old result out_indices.new out_distances.new }
{
    let near = &mut out_indices[..k];
    let d2s = &mut out_distances[..k];
    if hold(tree, place, near, d2s).is_err() {
        return zero_out(out_indices, out_distances);
    }
    heap::sort(near, d2s);
    search::take_roots(d2s);
    Ok(k as u32)
}

// No room for so many: damage is told before it.
fn refuse_room(
    tree: &Tree,
    place: Coord,
    needed: u32,
    out_indices: &mut [u32],
    out_distances: &mut [f64],
) -> Result<u32, Refusal>
    requires some { 0 < count tree.now }
    requires fits { count tree.now < 2 ^ 64 }
    ensures { Answers (no_room needed (outcome (walk_all tree.now probing tt))) out_indices.old out_distances.old result out_indices.new out_distances.new }
{
    if search::walk(tree, place, &mut Probe).is_err() {
        return zero_out(out_indices, out_distances);
    }
    Err(Refusal::NoRoom(needed))
}

/// The first min(k, n) points by squared distance and then index, as seen from a place: their indices and their distances,
/// nearest first, in front of the two slices. Answers how many. Whatever the input is, it is refused by 1, 2, 4, 9 or 8, in
/// this order, or answered; only 9 changes the slices, to zeros.
pub fn nearest_neighbours(
    tree: &Tree,
    place: Coord,
    k: u32,
    out_indices: &mut [u32],
    out_distances: &mut [f64],
) -> Result<u32, Refusal>
    ensures { Answers (answer tree.now place k (min (length out_indices.old) (length out_distances.old))) out_indices.old out_distances.old result out_indices.new out_distances.new }
{
    search::check_place(tree.points(), place)?;
    let wanted = (k as usize).min(tree.len());
    if wanted == 0 {
        return Ok(0);
    }
    let room = out_indices.len().min(out_distances.len());
    if room < wanted {
        return refuse_room(tree, place, wanted as u32, out_indices, out_distances);
    }
    find(tree, place, wanted, out_indices, out_distances)
}
