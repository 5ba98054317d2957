// The groups of the points.
ghost use Rattle.tree.specs.Accepted.{tree};
ghost use Rattle.dbscan.specs.Outcome.{slices};
ghost use Rattle.capi.specs.Flat.{Labels};

use crate::found;

#[unsafe(no_mangle)]
pub extern "C" fn yt_label(
    points: &[f64],
    epsilon: f64,
    min_samples: u32,
    indices: &mut [u32],
    boxes: &mut [f64],
    links: &mut [u32],
    labels: &mut [u32],
    work: &mut [u32],
    detail: &mut u32,
) -> u32
    ensures { Labels epsilon min_samples (slices (tree points.now indices.old boxes.old links.old) labels.old work.old) result detail.new (slices (tree points.now indices.new boxes.new links.new) labels.new work.new) }
{
    let labelled = dbscan::dbscan(
        points,
        epsilon,
        min_samples,
        indices,
        boxes,
        links,
        labels,
        work,
    );
    found::flatten(labelled.map(|()| 0), detail)
}
