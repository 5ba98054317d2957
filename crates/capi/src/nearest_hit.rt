// The nearest point to a place. Index and distance are written on a hit, set to 0 where damage is met, and left otherwise.
ghost use Rattle.tree.specs.Accepted.{tree};
ghost use Rattle.search.specs.Order.{at};
ghost use Rattle.capi.specs.Flat.{Nears};

use distance::Coord;
use nearest::Nearest;
use refusal::Refusal;
use tree::Tree;

#[unsafe(no_mangle)]
pub extern "C" fn yt_nearest(
    points: &[f64],
    indices: &[u32],
    boxes: &[f64],
    links: &[u32],
    x: f64,
    y: f64,
    index: &mut u32,
    distance: &mut f64,
    count: &mut u32,
) -> u32
    ensures { Nears (tree points.now indices.now boxes.now links.now) (at x y) index.old distance.old result count.new index.new distance.new }
{
    let tree = Tree::new(points, indices, boxes, links);
    match nearest::nearest_neighbour(&tree, Coord { x, y }) {
        Nearest::Hit(i, d) => {
            *index = i;
            *distance = d;
            *count = 1;
            0
        }
        Nearest::Empty => {
            *count = 0;
            0
        }
        Nearest::Refused(refusal) => {
            *count = 0;
            if refusal == Refusal::DamagedTree {
                *index = 0;
                *distance = 0.0;
            }
            refusal.number()
        }
    }
}
