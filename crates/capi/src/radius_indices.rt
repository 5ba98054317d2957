// The indices alone of every point within a radius of a place, rising.
ghost use Rattle.tree.specs.Accepted.{tree};
ghost use Rattle.search.specs.Order.{at};
ghost use Rattle.capi.specs.Flat.{WithinIndices};

use crate::found;
use distance::Coord;
use tree::Tree;

#[unsafe(no_mangle)]
pub extern "C" fn yt_radius_indices(
    points: &[f64],
    indices: &[u32],
    boxes: &[f64],
    links: &[u32],
    x: f64,
    y: f64,
    radius: f64,
    out_indices: &mut [u32],
    count: &mut u32,
) -> u32
    ensures { WithinIndices (tree points.now indices.now boxes.now links.now) (at x y) radius out_indices.old result count.new out_indices.new }
{
    let tree = Tree::new(points, indices, boxes, links);
    let hits = radius::within_radius_indices(&tree, Coord { x, y }, radius, out_indices);
    found::flatten(hits, count)
}
