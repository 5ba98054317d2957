// Whether a tree is accepted.
ghost use Rattle.tree.specs.Accepted.{tree};
ghost use Rattle.capi.specs.Flat.{Checks};

use crate::found;
use tree::Tree;

#[unsafe(no_mangle)]
pub extern "C" fn yt_check(
    points: &[f64],
    indices: &[u32],
    boxes: &[f64],
    links: &[u32],
    detail: &mut u32,
) -> u32
    ensures { Checks (tree points.now indices.now boxes.now links.now) result detail.new }
{
    let checked = accept::check_tree(&Tree::new(points, indices, boxes, links));
    found::flatten(checked.map(|()| 0), detail)
}
