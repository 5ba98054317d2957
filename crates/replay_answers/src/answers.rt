//! Each question of the recorded list is asked again, and its answer held to what stands there, indices and distances bit for
//! bit. A function is given the text from its line on: words stand at 2, 19, 36 and 53, and the lines of its answer follow.
ghost use Rattle.std.specs.Prelude.{◌≡◌, ◌≢◌, ◌+◌, ◌*◌, ◌<◌, ◌≤◌, length, unwrap_or};
ghost use Rattle.replay_answers.specs.declared.recorded.Letter.{Letter};
ghost use Rattle.replay_answers.specs.Lines.{count_of, Tallied};

use crate::recorded::{Letter, float, letter_at, says, says_float, up_to};
use build::BallTreeBuilder;
use distance::Coord;
use nearest::Nearest;
use refusal::Refusal;
use std::fmt;
use tree::Tree;

// No map of the list has more points, and no tree over so many has more nodes.
const POINTS: usize = 512;

const NODES: usize = 2 * POINTS - 1;

/// How many lines of each letter were met; and where the first of them begins that came otherwise than recorded.
#[derive(Clone, Copy, Debug, Default, PartialEq, Eq)]
pub struct Tally {
    pub maps: usize,
    pub nearest: usize,
    pub k_nearest: usize,
    pub radius: usize,
    pub labels: usize,
    pub first_wrong: Option<usize>,
}

impl Tally {
    // One line more of a letter.
    fn count(&mut self, letter: Letter)
        requires { count_of self.old letter < usize.MAX }
        ensures counted { count_of self.new letter ≡ count_of self.old letter + 1 }
        ensures others { (l : Letter) → l ≢ letter → count_of self.new l ≡ count_of self.old l }
        ensures kept { self.new.first_wrong ≡ self.old.first_wrong }
    {
        match letter {
            Letter::Map => self.maps += 1,
            Letter::Nearest => self.nearest += 1,
            Letter::KNearest => self.k_nearest += 1,
            Letter::Radius => self.radius += 1,
            Letter::Labels => self.labels += 1,
        }
    }

    // The line that begins at a place came otherwise than recorded.
    fn note_wrong(&mut self, at: usize)
        ensures counts { (l : Letter) → count_of self.new l ≡ count_of self.old l }
        ensures first { self.new.first_wrong ≡ Some (unwrap_or self.old.first_wrong at) }
    {
        self.first_wrong = self.first_wrong.or(Some(at));
    }
}

impl fmt::Display for Tally {
    fn fmt<W: fmt::Write>(&self, f: &mut fmt::Formatter<W>) -> fmt::Result {
        write!(
            f,
            "maps {}, nearest {}, k-nearest {}, radius {}, labels {}",
            self.maps, self.nearest, self.k_nearest, self.radius, self.labels
        )
    }
}

// The last map of the list, in arrays that none of them outgrows, and the tree over it.
#[derive(Debug, Drop)]
struct Map {
    len: usize,
    points: [f64; 2 * POINTS],
    indices: [u32; POINTS],
    boxes: [f64; 6 * NODES],
    links: [u32; 4 * NODES],
    ghost in_room: { len ≤ 512 },
}

impl Map {
    // The map of no points.
    fn new() -> Self {
        Map {
            len: 0,
            points: [0.0; 2 * POINTS],
            indices: [0; POINTS],
            boxes: [0.0; 6 * NODES],
            links: [0; 4 * NODES],
        }
    }

    fn points(&self) -> &[f64] {
        &self.points[..2 * self.len]
    }

    fn tree(&self) -> Tree<'_> {
        Tree::new(self.points(), &self.indices, &self.boxes, &self.links)
    }

    // The map whose line is the first: has it as many points as the line says?
    fn read(&mut self, text: &[u8]) -> bool {
        self.len = fill(text, &mut self.points);
        let builder = BallTreeBuilder::with_leaf_size(up_to(text, 2, u32::MAX));
        let built = builder.build(
            &self.points[..2 * self.len],
            &mut self.indices,
            &mut self.boxes,
            &mut self.links,
        );
        built.is_ok() && patterns::word(text, 19) == self.len as u64
    }
}

// The text past its first line, of so many bytes.
fn past(text: &[u8], len: usize) -> &[u8] {
    text.get(len..).unwrap_or(&[])
}

// The places of a map, from the lines after the first. Returns how many there are.
fn fill(text: &[u8], points: &mut [f64]) -> usize
    ensures { 2 * result ≤ length points.new }
{
    let mut lines = past(text, 36).chunks(36);
    for k in 0..points.len() / 2 {
        let Some(line) = lines.next().filter(|line| line.starts_with(b"P")) else {
            return k;
        };
        points[2 * k] = float(line, 2);
        points[2 * k + 1] = float(line, 19);
    }
    points.len() / 2
}

// The place that a query names.
fn place(text: &[u8]) -> Coord {
    Coord {
        x: float(text, 2),
        y: float(text, 19),
    }
}

fn nearest_agrees(text: &[u8], tree: &Tree) -> bool {
    match nearest::nearest_neighbour(tree, place(text)) {
        Nearest::Hit(index, distance) => says(text, 36, index) && says_float(text, 53, distance),
        _ => false,
    }
}

// Are these the hits that the lines after the question have?
fn same_hits(text: &[u8], indices: &[u32], distances: &[f64]) -> bool {
    let lines = past(text, 70).chunks(36);
    let hits = indices.iter().zip(distances);
    lines.len() >= indices.len()
        && hits.zip(lines).all(|((index, distance), line)| {
            says(line, 2, *index) && says_float(line, 19, *distance)
        })
}

// What a query puts into two slices, held to its count and its hits.
fn hits_agree<F: FnOnce(&mut [u32], &mut [f64]) -> Result<u32, Refusal>>(
    text: &[u8],
    query: F,
) -> bool
    requires { F.IsAlwaysCallable query }
{
    let mut indices = [0; POINTS];
    let mut distances = [0.0; POINTS];
    let Ok(count) = query(&mut indices, &mut distances) else {
        return false;
    };
    let n = count as usize;
    n <= indices.len() && says(text, 53, count) && same_hits(text, &indices[..n], &distances[..n])
}

fn k_nearest_agrees(text: &[u8], tree: &Tree) -> bool {
    let k = up_to(text, 36, u32::MAX);
    hits_agree(text, |indices, distances| {
        k_nearest::nearest_neighbours(tree, place(text), k, indices, distances)
    })
}

fn radius_agrees(text: &[u8], tree: &Tree) -> bool {
    let radius = float(text, 36);
    hits_agree(text, |indices, distances| {
        radius::within_radius(tree, place(text), radius, indices, distances)
    })
}

// Are these the labels that the lines after the question have?
fn same_labels(text: &[u8], labels: &[u32]) -> bool {
    let lines = past(text, 53).chunks(19);
    lines.len() >= labels.len()
        && labels
            .iter()
            .zip(lines)
            .all(|(label, line)| says(line, 2, *label))
}

fn labels_agree(text: &[u8], points: &[f64]) -> bool {
    let mut labels = [0; POINTS];
    let answer = dbscan::dbscan(
        points,
        float(text, 2),
        up_to(text, 19, u32::MAX),
        &mut [0; POINTS],
        &mut [0.0; 6 * NODES],
        &mut [0; 4 * NODES],
        &mut labels,
        &mut [0; 2 * POINTS],
    );
    let n = points.len() / 2;
    answer.is_ok()
        && n <= labels.len()
        && patterns::word(text, 36) == n as u64
        && same_labels(text, &labels[..n])
}

// A line with this letter is the first: a map is read, a question asked of the last one. Did it come as recorded?
fn agrees(text: &[u8], letter: Letter, map: &mut Map) -> bool {
    match letter {
        Letter::Map => map.read(text),
        Letter::Nearest => nearest_agrees(text, &map.tree()),
        Letter::KNearest => k_nearest_agrees(text, &map.tree()),
        Letter::Radius => radius_agrees(text, &map.tree()),
        Letter::Labels => labels_agree(text, map.points()),
    }
}

/// Asks each question of the list again, of the last map before it.
pub fn replay(text: &[u8]) -> Tally
    ensures { Tallied text.now (length text.now) result }
{
    let mut map = Map::new();
    let mut tally = Tally::default();
    'lines: for at in 0..text.len() {
        let Some(letter) = letter_at(text, at) else {
            continue;
        };
        tally.count(letter);
        if !agrees(&text[at..], letter, &mut map) {
            tally.note_wrong(at);
        }
    }
    tally
}
