//! The thin entry over the radius query: its hits as a slice of records, index and distance side by side, beside the two
//! slices that the query fills. The code that wants the hits twice calls this one, and the others pay nothing for it.
#![tactic(auto)]

ghost use Rattle.std.specs.Prelude.{◌≡◌};
ghost use Rattle.radius.specs.Within.{reply};
ghost use Rattle.hits.specs.Records.{InRecords};

use distance::Coord;
use refusal::Refusal;
use tree::Tree;

/// A hit of a query: the point's index, and its distance.
#[derive(Clone, Copy, Debug, PartialEq)]
pub struct Hit {
    pub index: u32,
    pub distance: f64,
}

/// The radius query, its hits written as records too; and how many they are. Room is the shortest of the three slices. On
/// damage every record is set to index 0 and distance 0; another refusal changes nothing.
pub fn within_radius_hits(
    tree: &Tree,
    place: Coord,
    radius: f64,
    out_indices: &mut [u32],
    out_distances: &mut [f64],
    hits: &mut [Hit],
) -> Result<u32, Refusal>
    ensures { InRecords tree.now.points place (reply tree.now place radius) out_indices.old out_distances.old hits.old result out_indices.new out_distances.new hits.new }
{
    let cap = hits.len();
    let found = radius::within_radius_capped(tree, place, radius, cap, out_indices, out_distances);
    match found {
        Ok(n) => {
            'each: for k in 0..n as usize {
                hits[k] = Hit {
                    index: out_indices[k],
                    distance: out_distances[k],
                };
            }
        }
        Err(refusal) => {
            if refusal == Refusal::DamagedTree {
                hits.fill(Hit {
                    index: 0,
                    distance: 0.0,
                });
            }
        }
    }
    found
}
