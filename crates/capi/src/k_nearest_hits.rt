// The k nearest points to a place, by distance and then by index.
ghost use Rattle.tree.specs.Accepted.{tree};
ghost use Rattle.search.specs.Order.{at};
ghost use Rattle.capi.specs.Flat.{KNears};

use crate::found;
use distance::Coord;
use tree::Tree;

#[unsafe(no_mangle)]
pub extern "C" fn yt_k_nearest(
    points: &[f64],
    indices: &[u32],
    boxes: &[f64],
    links: &[u32],
    x: f64,
    y: f64,
    k: u32,
    out_indices: &mut [u32],
    out_distances: &mut [f64],
    count: &mut u32,
) -> u32
    ensures { KNears (tree points.now indices.now boxes.now links.now) (at x y) k out_indices.old out_distances.old result count.new out_indices.new out_distances.new }
{
    let tree = Tree::new(points, indices, boxes, links);
    let place = Coord { x, y };
    let hits = k_nearest::nearest_neighbours(&tree, place, k, out_indices, out_distances);
    found::flatten(hits, count)
}
