//! Labels of points by density (DBSCAN), over a tree of its own in slices that the caller lends: n indices, N(n) nodes of six
//! floats and four numbers, n labels, and 2 n entries of work. Points are x and y in turn.
//!
//!     let answer = dbscan::dbscan(points, epsilon, min_samples, indices, boxes, links, labels, work);
//!
//! A point with at least min_samples neighbours, itself among them, is a core; cores that a chain of cores joins share a
//! label, 0, 1, 2 and so on by their least index; another neighbour of a core has the least label beside it; the rest is
//! `labels::NOISE`. Each point is asked for its neighbours once, by one radius query. Where a row of the refusals applies, the
//! answer says which, and no slice is touched.
#![tactic(auto)]

mod grow;

ghost use Rattle.std.specs.Prelude.{◌≡◌, length};
ghost use Rattle.refusal.specs.Numbers.{done};
ghost use Rattle.tree.specs.Accepted.{tree};
ghost use Rattle.build.specs.Outcome.{Given};
ghost use Rattle.dbscan.specs.Outcome.{Due, quiet, slices, Outcome};
ghost use Rattle.dbscan.specs.Growing.{Planted};

use build::BallTreeBuilder;
use grow::Density;
use labels::NOISE;
use refusal::Refusal;
use tree::Tree;

// The first row of the refusals that applies over slices of these lengths: the build's own, and where they stand among them
// those of epsilon and of the two slices that it does not see.
fn judge(
    points: &[f64],
    epsilon: f64,
    indices: usize,
    boxes: usize,
    links: usize,
    labels: usize,
    work: usize,
) -> Result<(), Refusal>
    ensures { Due points.now epsilon indices boxes links labels work (done result) }
{
    let n = points.len() / 2;
    match BallTreeBuilder::new().plan(points, indices, boxes, links) {
        // Kept: by number, as the rows' order is; the edit six_before_five turns it.
        Err(refusal) if refusal.number() < 5 => Err(refusal),
        _ if !(0.0 <= epsilon) => Err(Refusal::RadiusNotValid),
        Err(refusal) => Err(refusal),
        Ok(_) if labels < n => Err(Refusal::NoRoom(n as u32)),
        Ok(_) if work < 2 * n => Err(Refusal::NoRoom((2 * n) as u32)),
        Ok(_) => Ok(()),
    }
}

// Whether no point can be a core.
fn quiet(n: usize, min_samples: usize) -> bool
    ensures { result ≡ quiet n min_samples }
{
    min_samples == 0 || n < min_samples
}

// The tree over the points, where the build refuses nothing.
fn plant(points: &[f64], indices: &mut [u32], boxes: &mut [f64], links: &mut [u32])
    requires { Given 16 points.now (length indices.old) (length boxes.old) (length links.old) }
    ensures { Planted (tree points.now indices.old boxes.old links.old) (tree points.now indices.new boxes.new links.new) }
{
    let _ = BallTreeBuilder::new().build(points, indices, boxes, links);
}

/// The labels of the points, into the front of `labels`; or a refusal, and all is as it was. Shapes: n indices, N(n) nodes,
/// n labels, 2 n entries of work. One radius query for each point.
// Kept: the five slices go one by one, as C lends them.
pub fn dbscan(
    points: &[f64],
    epsilon: f64,
    min_samples: u32,
    indices: &mut [u32],
    boxes: &mut [f64],
    links: &mut [u32],
    labels: &mut [u32],
    work: &mut [u32],
) -> Result<(), Refusal>
    ensures { Outcome epsilon min_samples (slices (tree points.now indices.old boxes.old links.old) labels.old work.old) (done result) (slices (tree points.now indices.new boxes.new links.new) labels.new work.new) }
{
    judge(
        points,
        epsilon,
        indices.len(),
        boxes.len(),
        links.len(),
        labels.len(),
        work.len(),
    )?;
    let n = points.len() / 2;
    let min_samples = min_samples as usize;
    if quiet(n, min_samples) {
        labels[..n].fill(NOISE);
        return Ok(());
    }
    plant(points, indices, boxes, links);
    let density = Density {
        epsilon,
        min_samples,
    };
    grow::label_all(
        &Tree::new(points, indices, boxes, links),
        density,
        &mut labels[..n],
        &mut work[..2 * n],
    );
    Ok(())
}
