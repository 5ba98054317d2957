// The tree over the points, into three lent slices.
ghost use Rattle.tree.specs.Accepted.{tree};
ghost use Rattle.capi.specs.Flat.{Builds};

use crate::found;
use build::BallTreeBuilder;

#[unsafe(no_mangle)]
pub extern "C" fn yt_build(
    points: &[f64],
    leaf_size: u32,
    indices: &mut [u32],
    boxes: &mut [f64],
    links: &mut [u32],
    detail: &mut u32,
) -> u32
    ensures { Builds leaf_size (tree points.now indices.old boxes.old links.old) result detail.new (tree points.now indices.new boxes.new links.new) }
{
    let builder = BallTreeBuilder::with_leaf_size(leaf_size);
    let built = builder.build(points, indices, boxes, links);
    found::flatten(built.map(|_| 0), detail)
}
