// How the labels grow: from each core that has none a cluster, through a queue of points that wait to be looked at. Each
// point is asked for its neighbours once: as it is passed in the order of the points, or as its turn in the queue comes.
ghost use Rattle.std.specs.Prelude.{◌≡◌, ◌+◌, length, take};
ghost use Rattle.tree.specs.Accepted.{count};
ghost use Rattle.labels.specs.Labels.{near};
ghost use Rattle.dbscan.specs.Growing.{Between, Growing, held, claim, claim_all, Filled, Claimable, Roomy, Asked, Visitable, Startable, Turnable, Runnable, Ran};

use distance::Coord;
use labels::NOISE;
use tree::Tree;

// How far a neighbour may be, and how many neighbours make a core, from 1 up.
#[derive(Clone, Copy, Debug, PartialEq)]
pub struct Density {
    pub epsilon: f64,
    pub min_samples: usize,
}

// A cluster that grows: the core that it grew from, and its label.
#[derive(Clone, Copy, Debug, PartialEq, Eq)]
struct Cluster {
    seed: usize,
    label: u32,
}

// The neighbours of point i, rising, into the front of out; and how many they are. There is room for all points, so the
// query refuses nothing.
fn neighbours(tree: &Tree, epsilon: f64, i: usize, out: &mut [u32]) -> usize
    requires { Asked tree.now epsilon i out.old }
    ensures { Filled (near tree.now.points epsilon) (count tree.now) i result out.new }
{
    let points = tree.points();
    let place = Coord {
        x: points[2 * i],
        y: points[2 * i + 1],
    };
    let Ok(count) = radius::within_radius_indices(tree, place, epsilon, out) else {
        return 0;
    };
    count as usize
}

// Point k takes the cluster's label if it has none, and then waits at tail. One below the seed need not wait: it is no core.
fn claim(k: usize, cluster: Cluster, tail: usize, labels: &mut [u32], work: &mut [u32]) -> usize
    requires { Claimable k work.old tail labels.old }
    ensures { held work.new result labels.new ≡ claim cluster.seed cluster.label (held work.old tail labels.old) k }
{
    if labels[k] != NOISE {
        return tail;
    }
    labels[k] = cluster.label;
    if k < cluster.seed {
        return tail;
    }
    work[tail] = k as u32;
    tail + 1
}

// The points in the front of the work slice are claimed: the end of what waits then.
fn claim_all(
    count: usize,
    cluster: Cluster,
    tail: usize,
    labels: &mut [u32],
    work: &mut [u32],
) -> usize
    requires { Roomy count cluster.label work.old tail labels.old }
    ensures { held work.new result labels.new ≡ claim_all cluster.seed cluster.label (held work.old tail labels.old) (take count work.old) }
{
    let mut end = tail;
    for x in 0..count {
        let k = work[x] as usize;
        end = claim(k, cluster, end, labels, work);
    }
    end
}

// The point that waits at head is looked at; a core claims its neighbours. The end of what waits then.
fn visit(
    tree: &Tree,
    density: Density,
    cluster: Cluster,
    head: usize,
    tail: usize,
    labels: &mut [u32],
    work: &mut [u32],
) -> usize
    requires { Visitable tree.now density.epsilon density.min_samples cluster.seed cluster.label work.old head tail labels.old }
    ensures { Growing (near tree.now.points density.epsilon) (count tree.now) density.min_samples cluster.seed cluster.label work.new (head + 1) result labels.new }
{
    let n = tree.len();
    let q = work[head] as usize;
    let count = neighbours(tree, density.epsilon, q, &mut work[..n]);
    if count < density.min_samples {
        return tail;
    }
    claim_all(count, cluster, tail, labels, work)
}

// The cluster's core, which has no label and whose neighbours stand in the front of the work slice, takes the label, and so
// does all that it reaches.
fn expand(
    tree: &Tree,
    density: Density,
    cluster: Cluster,
    around: usize,
    labels: &mut [u32],
    work: &mut [u32],
)
    requires { Startable tree.now density.epsilon density.min_samples cluster.seed cluster.label around work.old labels.old }
    ensures { Between (near tree.now.points density.epsilon) (count tree.now) density.min_samples (cluster.seed + 1) (cluster.label + 1) work.new labels.new }
{
    let n = tree.len();
    labels[cluster.seed] = cluster.label;
    work[n] = cluster.seed as u32;
    let mut tail = claim_all(around, cluster, n + 1, labels, work);
    let mut head = n + 1;
    // Kept: the queue grows while it is read, so that no range is known before.
    while head < tail {
        tail = visit(tree, density, cluster, head, tail, labels, work);
        head += 1;
    }
}

// Point i starts a cluster, if it is a core that has no label: how many labels are in use then.
fn label(
    tree: &Tree,
    density: Density,
    i: usize,
    c: u32,
    labels: &mut [u32],
    work: &mut [u32],
) -> u32
    requires { Turnable tree.now density.epsilon density.min_samples i c work.old labels.old }
    ensures { Between (near tree.now.points density.epsilon) (count tree.now) density.min_samples (i + 1) result work.new labels.new }
{
    if labels[i] != NOISE {
        return c;
    }
    let n = tree.len();
    let around = neighbours(tree, density.epsilon, i, &mut work[..n]);
    if around < density.min_samples {
        return c;
    }
    let cluster = Cluster { seed: i, label: c };
    expand(tree, density, cluster, around, labels, work);
    c + 1
}

/// The labels of all points; the work slice ends as 0.
pub fn label_all(tree: &Tree, density: Density, labels: &mut [u32], work: &mut [u32])
    requires { Runnable tree.now density.epsilon density.min_samples work.old labels.old }
    ensures { Ran (near tree.now.points density.epsilon) (count tree.now) density.min_samples work.new labels.new }
{
    labels.fill(NOISE);
    let mut c = 0;
    for i in 0..tree.len() {
        c = label(tree, density, i, c, labels, work);
    }
    work.fill(0);
}
