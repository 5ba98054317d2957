//! The nearest point to a place: the least squared distance, and of two as near the lower index. The walk visits the
//! nearer child first and passes over a node only where its bound is above the best so far, never where it is equal:
//! a point of the same distance and a lower index may be below it.
#![tactic(auto)]

ghost use Rattle.std.specs.Prelude.{◌≡◌, ◌+◌, ◌≤◌, length, ℕ};
ghost use Rattle.search.specs.declared.Best.{Best};
ghost use Rattle.nearest.specs.Nearest.{better, rules, told, Answers};

use distance::{Bounds, Coord};
use refusal::Refusal;
use search::{Best, Damage, Query};
use tree::Tree;

/// A hit with its index and its distance; no point at all; or a refusal.
// Kept: one enum of the three cases that the rules of the project name, and no `Result<Option<..>, Refusal>`.
#[derive(Clone, Copy, Debug, PartialEq)]
pub enum Nearest {
    Hit(u32, f64),
    Empty,
    Refused(Refusal),
}

// The best point so far; before any, one that is farther than all.
#[derive(Clone, Copy, Debug)]
struct Closest {
    best: Best,
}

// A point takes the place of the best so far, unless that one stands before it.
// Kept: not by `is_before`: the edit higher_index turns the last comparison here.
#[inline(always)]
fn better(best: Best, point: Best) -> Best
    ensures { result ≡ better best point }
{
    if best.d2 < point.d2 {
        return best;
    }
    if best.d2 == point.d2 {
        if best.index < point.index {
            return best;
        }
    }
    point
}

impl Query for Closest {
    ghost State = { Best };

    ghost Fixed = { Unit };

    ghost state = { λ s. s.best };

    ghost fixed = { λ _. tt };

    ghost rules = { λ _. rules };

    // As many as there can be.
    ghost room = { λ _. 4294967296 };

    #[inline(always)]
    fn is_nearer_first(&self) -> bool {
        true
    }

    // While none is found, or only points infinitely far, no node is farther.
    #[inline(always)]
    fn may_pass(&self) -> bool {
        self.best.d2 < f64::INFINITY
    }

    #[inline(always)]
    fn passes(&self, bound: f64) -> bool {
        self.best.d2 < bound
    }

    // The best stands in registers meanwhile.
    // Kept: a loop of its own, as in the other queries: one for all takes a closure for each point and is no shorter.
    #[inline(always)]
    fn scan(
        &mut self,
        tree: &Tree,
        part: &[u32],
        from: Coord,
        _bounds: Bounds,
    ) -> Result<(), Damage> {
        let mut best = self.best;
        for index in part {
            let Some(at) = tree.point(*index) else {
                return Err(Damage);
            };
            let d2 = distance::coord_distance_sq(from, at);
            best = better(best, Best { d2, index: *index });
        }
        self.best = best;
        Ok(())
    }
}

/// The nearest point to a place. It refuses by 1, 2, 4 and 9, and nothing is asked of its input.
pub fn nearest_neighbour(tree: &Tree, place: Coord) -> Nearest
    ensures { Answers tree.now place (told result) }
{
    if let Err(refusal) = search::check_place(tree.points(), place) {
        return Nearest::Refused(refusal);
    }
    if tree.is_empty() {
        return Nearest::Empty;
    }
    let mut closest = Closest {
        best: Best {
            d2: f64::INFINITY,
            index: u32::MAX,
        },
    };
    match search::walk(tree, place, &mut closest) {
        Ok(()) => Nearest::Hit(closest.best.index, root::square_root(closest.best.d2)),
        Err(_) => Nearest::Refused(Refusal::DamagedTree),
    }
}
