//! Radius search: every point within a radius of a place, by rising index, into slices that the caller lends. A first walk
//! of the tree counts the hits, so that a slice too short is refused before anything is written; a second one, the same
//! code, stores them; then they are sorted by index, and their distances worked out.
#![tactic(auto)]

ghost use Rattle.std.specs.Prelude.{◌≡◌, true, cond, ◌+◌, ◌-◌, ◌<◌, ◌≤◌, min, [], length, IfOk};
ghost use Rattle.std.specs.List.{All};
ghost use Rattle.tree.specs.Points.{limit, size};
ghost use Rattle.tree.specs.Accepted.{count};
ghost use Rattle.search.specs.Result.{Roots};
ghost use Rattle.search.specs.Walk.{scan, walk_all, outcome};
ghost use Rattle.radius.specs.Within.{within, reply, reply_of, Answered, InRoom, WithDistances, squares};
ghost use Rattle.radius.specs.Keeping.{Held, held, keep, Asked, rules, keeping, kept};

use distance::{Bounds, Coord};
use refusal::Refusal;
use search::{Damage, Query};
use tree::Tree;

// The points within a radius: how many were met, and the first of them, as many as the slice holds.
// Kept: a slice and a count: results go into lent memory.
#[derive(Drop)]
struct Within<'a> {
    radius_sq: f64,
    count: usize,
    out: &'a mut [u32],
}

impl<'a> Query for Within<'a> {
    ghost State = { Held };

    ghost Fixed = { Asked };

    ghost state = { λ s. held s.count s.out.now };

    ghost fixed = { λ s. record { slice = s.out.ghost_name; room = length s.out.now; radius_sq = s.radius_sq } };

    ghost rules = { λ a. rules a.room a.radius_sq };

    ghost room = { λ s. 18446744073709551615 - s.count };

    #[inline(always)]
    fn is_nearer_first(&self) -> bool {
        false
    }

    #[inline(always)]
    fn may_pass(&self) -> bool {
        true
    }

    #[inline(always)]
    fn passes(&self, bound: f64) -> bool {
        self.radius_sq < bound
    }

    #[inline(always)]
    fn scan(
        &mut self,
        tree: &Tree,
        part: &[u32],
        from: Coord,
        bounds: Bounds,
    ) -> Result<(), Damage> {
        self.count = if distance::far_corner(from, bounds) <= self.radius_sq {
            take_whole(tree.len(), part, self.out, self.count)?
        } else {
            take_within(tree, part, from, self.radius_sq, self.out, self.count)?
        };
        Ok(())
    }
}

// A point is put where the next hit belongs, if there is room, and counted if it is a hit: else the next one takes its
// place. Neither depends on a jump, which nobody could foretell.
// Kept: that the count has room, here and below: it is the query's `room`, less what has been met of the part.
#[inline(always)]
fn keep(out: &mut [u32], count: usize, is_hit: bool, index: u32) -> usize
    requires { count < 18446744073709551615 }
    ensures kept { held result out.new ≡ keep (length out.old) is_hit (held count out.old) index }
    ensures few { result ≤ count + 1 }
{
    if count < out.len() {
        out[count] = index;
    }
    count + is_hit as usize
}

// The points of a part, each tested; how many hits there are by then, which stay in a register meanwhile.
// Kept: a loop of its own, as in the other queries: one for all takes a closure for each point and is no shorter.
#[inline(always)]
fn take_within(
    tree: &Tree,
    part: &[u32],
    from: Coord,
    radius_sq: f64,
    out: &mut [u32],
    before: usize,
) -> Result<usize, Damage>
    requires { length part.now ≤ 18446744073709551615 - before }
    ensures kept { kept result out.new ≡ outcome (scan (count tree.now) (keeping (length out.old) tree.now.points from radius_sq).next 1 (held before out.old) part.now) }
    ensures few { IfOk result (λ n. n ≤ before + length part.now) }
{
    let points = tree.points();
    let mut count = before;
    'part: for &index in part {
        let at = index as usize;
        if at >= points.len() / 2 {
            return Err(Damage);
        }
        let place = Coord {
            x: points[2 * at],
            y: points[2 * at + 1],
        };
        let is_hit = distance::coord_distance_sq(from, place) <= radius_sq;
        count = keep(out, count, is_hit, index);
    }
    Ok(count)
}

// The points of a part that lies within the radius whole: its indices are copied, and no distance is worked out.
#[inline(always)]
fn take_whole(size: usize, part: &[u32], out: &mut [u32], before: usize) -> Result<usize, Damage>
    requires { length part.now ≤ 18446744073709551615 - before }
    ensures kept { kept result out.new ≡ outcome (scan size (keep (length out.old) true) 0 (held before out.old) part.now) }
    ensures few { IfOk result (λ n. n ≤ before + length part.now) }
{
    let mut count = before;
    'part: for &index in part {
        if index as usize >= size {
            return Err(Damage);
        }
        count = keep(out, count, true, index);
    }
    Ok(count)
}

// One walk: how many hits there are; the first of them are put into the slice.
fn meet(tree: &Tree, from: Coord, radius_sq: f64, out: &mut [u32]) -> Result<usize, Damage>
    requires some { 0 < count tree.now }
    requires in_limit { count tree.now ≤ limit }
    ensures kept { kept result out.new ≡ outcome (walk_all tree.now (keeping (length out.old) tree.now.points from radius_sq) (held 0 out.old)) }
    ensures few { IfOk result (λ n. n ≤ count tree.now) }
{
    let mut query = Within {
        radius_sq,
        count: 0,
        out,
    };
    search::walk(tree, from, &mut query)?;
    Ok(query.count)
}

// The hits' indices: counted, refused where there is no room for them, stored, sorted. The second walk has room for just as
// many as the first met, so that nothing is put behind them. On damage every entry becomes 0.
fn collect(tree: &Tree, from: Coord, radius_sq: f64, out: &mut [u32]) -> Result<u32, Refusal>
    requires some { 0 < count tree.now }
    requires in_limit { count tree.now ≤ limit }
    ensures { Answered (reply_of (outcome (walk_all tree.now (within tree.now.points from radius_sq) []))) (length out.old) out.old result out.new }
{
    let Ok(count) = meet(tree, from, radius_sq, &mut []) else {
        out.fill(0);
        return Err(Refusal::DamagedTree);
    };
    if count > out.len() {
        return Err(Refusal::NoRoom(count as u32));
    }
    let Ok(met) = meet(tree, from, radius_sq, &mut out[..count]) else {
        out.fill(0);
        return Err(Refusal::DamagedTree);
    };
    rising::sort(&mut out[..met]);
    Ok(met as u32)
}

/// The indices alone of every point whose squared distance to the place is at most radius * radius, by rising index; and how
/// many they are. Entries past the count stay. On damage every entry is set to 0; another refusal changes nothing.
pub fn within_radius_indices(
    tree: &Tree,
    place: Coord,
    radius: f64,
    out_indices: &mut [u32],
) -> Result<u32, Refusal>
    ensures { Answered (reply tree.now place radius) (length out_indices.old) out_indices.old result out_indices.new }
{
    search::check_place(tree.points(), place)?;
    if !(radius >= 0.0) {
        return Err(Refusal::RadiusNotValid);
    }
    if tree.is_empty() {
        return Ok(0);
    }
    collect(tree, place, radius * radius, out_indices)
}

// The distances of hits.
fn set_distances(points: &[f64], from: Coord, hits: &[u32], out: &mut [f64])
    requires as_many { length hits.now ≡ length out.old }
    requires points { All (λ i. i < size points.now) hits.now }
    ensures { Roots (squares points.now from hits.now) out.new }
{
    'each: for k in 0..hits.len() {
        let at = hits[k] as usize;
        let place = Coord {
            x: points[2 * at],
            y: points[2 * at + 1],
        };
        out[k] = distance::coord_distance_sq(from, place);
    }
    search::take_roots(out);
}

/// Every point whose squared distance to the place is at most radius * radius, by rising index, with its distance; and how
/// many they are. Room is the shortest of cap and the lengths of the two slices.
pub fn within_radius_capped(
    tree: &Tree,
    place: Coord,
    radius: f64,
    cap: usize,
    out_indices: &mut [u32],
    out_distances: &mut [f64],
) -> Result<u32, Refusal>
    ensures { InRoom tree.now.points place (reply tree.now place radius) (min cap (min (length out_indices.old) (length out_distances.old))) out_indices.old out_distances.old result out_indices.new out_distances.new }
{
    let room = cap.min(out_indices.len()).min(out_distances.len());
    let answer = within_radius_indices(tree, place, radius, &mut out_indices[..room]);
    match answer {
        Ok(n) => {
            let n = n as usize;
            set_distances(
                tree.points(),
                place,
                &out_indices[..n],
                &mut out_distances[..n],
            );
        }
        Err(refusal) => {
            if refusal == Refusal::DamagedTree {
                // Those before stand at 0 by now.
                out_indices[room..].fill(0);
                out_distances.fill(0.0);
            }
        }
    }
    answer
}

/// The same with no cap: room is the shorter length of the two slices.
pub fn within_radius(
    tree: &Tree,
    place: Coord,
    radius: f64,
    out_indices: &mut [u32],
    out_distances: &mut [f64],
) -> Result<u32, Refusal>
    ensures { WithDistances tree.now.points place (reply tree.now place radius) out_indices.old out_distances.old result out_indices.new out_distances.new }
{
    let cap = out_indices.len();
    within_radius_capped(tree, place, radius, cap, out_indices, out_distances)
}
