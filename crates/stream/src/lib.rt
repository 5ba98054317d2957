//! The record stream on slices: points are kept, queries over the points so far are answered as lines.
//!
//! `print_all` prints a whole stream at once, from any slices whatever. It stands on `feed`, which takes the whole records
//! of a piece of input, as far as there is room for their lines, and says where it stopped; the caller writes the lines out
//! and comes back with what was left and more. A tree of the points is built for the first query after a point came, and
//! kept until the next one comes. Whatever the pieces, they print what the whole prints.
#![tactic(auto)]

ghost use Rattle.std.specs.Prelude.{◌≡◌, true, false, ◌+◌, ◌≤◌, [], length, Ok};
ghost use Rattle.distance.specs.declared.Coord.{Coord};
ghost use Rattle.refusal.specs.Numbers.{number};
ghost use Rattle.tree.specs.Accepted.{tree, count, Accepted};
ghost use Rattle.search.specs.Answer.{Answers};
ghost use Rattle.records.specs.declared.Record.TheVariants.{Nearest as AskNearest, Label as AskLabel};
ghost use Rattle.text.specs.Line.{Put};
ghost use Rattle.stream.specs.Prints.{error, limit_points, Floats};
ghost use Rattle.stream.specs.Feeding.{so_far, Ready, Kept, Replies, Stepped, FedBy, longest};
ghost use Rattle.stream.specs.Printing.{PrintedBy, Roomy};
ghost use Rattle.stream.specs.Asked.{Raising, Asking, Plain, Writes, found_text, Query, asked, letter_of, listed};

use build::BallTreeBuilder;
use distance::Coord;
use nearest::Nearest;
use records::{Read, Record};
use refusal::Refusal;
use std::marker::Model;
use text::Writer;
use tree::Tree;

/// The most points that a stream keeps.
pub const MAX_POINTS: usize = 1024;

/// Room for their coordinates, x and y in turn.
pub const COORDINATES: usize = 2 * MAX_POINTS;

// A tree has fewer nodes than twice its points.
const MAX_NODES: usize = 2 * MAX_POINTS;

/// Room for the boxes of their tree, six floats a node.
pub const BOXES: usize = 6 * MAX_NODES;

/// Room for its links, four numbers a node.
pub const LINKS: usize = 4 * MAX_NODES;

// The room that is asked for before a record is taken: no record's lines are longer.
const LONGEST: usize = 32768;

/// Why no further record was taken.
// Kept: three cases, each with its own line in the contract.
#[derive(Clone, Copy, Debug, PartialEq, Eq)]
pub enum Stop {
    /// The rest of the input is no whole record.
    Hungry,
    /// The output wants flushing.
    Full,
    /// The stream ended by 10.
    Done,
}

/// After a piece: how much of it is used, where the lines end, and why no further record was taken.
#[derive(Clone, Copy, Debug, PartialEq, Eq)]
pub struct Fed {
    pub used: usize,
    pub wrote: usize,
    pub stop: Stop,
}

/// After a whole stream: where its lines end.
// Kept: three cases; of a `Result` one case would be no error, and still not all lines.
#[derive(Clone, Copy, Debug, PartialEq, Eq)]
pub enum Printed {
    /// They are all there.
    Whole(usize),
    /// Fewer than 32,768 bytes of room were left before the next record or the end: these are the lines up to there.
    Full(usize),
    /// A slice for the points or their tree is too short: none has changed.
    Short,
}

// ---- the points

// What a map was lent, and the points so far in it: so many points, and their tree, where it is fresh. It has no model, so that
// `feed_slices` can say what the slices hold afterwards.
// Kept: a slice and a count: points go into lent memory.
#[derive(Debug, Drop)]
struct Parts<'a> {
    points: &'a mut [f64],
    count: usize,
    indices: &'a mut [u32],
    boxes: &'a mut [f64],
    links: &'a mut [u32],
    fresh: bool,
}

/// The points so far, in slices that the caller lends, and whether their tree stands beside them.
#[derive(Debug, Drop)]
pub struct Map<'a> {
    parts: Parts<'a>,
}

impl<'a> Model for Map<'a> {
    ghost use Rattle.stream.specs.Feeding.{so_far, Ready, Map};

    ghost Value = { Map };

    ghost view = { λ m. record { points = so_far m.parts.points.now m.parts.count; fresh = m.parts.fresh } };

    ghost invariant = { λ m. Ready m.parts.points.now m.parts.count m.parts.indices.now m.parts.boxes.now m.parts.links.now m.parts.fresh };
}

// The tree of some points, where no row of the refusals applies.
// Kept: slices one by one, here and in `print_all`, as C lends them and the build takes them.
fn grow(points: &[f64], indices: &mut [u32], boxes: &mut [f64], links: &mut [u32])
    requires { Raising points.now indices.old boxes.old links.old }
    ensures { Accepted (tree points.now indices.new boxes.new links.new) }
{
    let _ = BallTreeBuilder::new().build(points, indices, boxes, links);
}

impl<'a> Map<'a> {
    /// No points so far. An inner function: its callers, `print_all` and `serve::run`, have seen to the room.
    pub fn new(
        points: &'a mut [f64],
        indices: &'a mut [u32],
        boxes: &'a mut [f64],
        links: &'a mut [u32],
    ) -> Self
        requires roomy { Roomy (tree points.old indices.old boxes.old links.old) }
        ensures none { result.points ≡ [] }
        ensures stale { result.fresh ≡ false }
    {
        Map {
            parts: Parts {
                points,
                count: 0,
                indices,
                boxes,
                links,
                fresh: false,
            },
        }
    }

    /// Points that stand already, and their tree, where it is fresh. An inner function, as `new`.
    pub fn resume(
        points: &'a mut [f64],
        count: usize,
        indices: &'a mut [u32],
        boxes: &'a mut [f64],
        links: &'a mut [u32],
        fresh: bool,
    ) -> Self
        requires ready { Ready points.old count indices.old boxes.old links.old fresh }
        ensures points { result.points ≡ so_far points.old count }
        ensures fresh { result.fresh ≡ fresh }
    {
        Map {
            parts: Parts {
                points,
                count,
                indices,
                boxes,
                links,
                fresh,
            },
        }
    }

    /// The points so far, x and y in turn.
    pub fn points(&self) -> &[f64]
        ensures { result.now ≡ self.now.points }
    {
        &self.parts.points[..2 * self.parts.count]
    }

    /// Whether the tree of these points stands.
    pub fn is_fresh(&self) -> bool
        ensures { result ≡ self.now.fresh }
    {
        self.parts.fresh
    }

    /// The tree of these points, where it stands.
    pub fn tree(&self) -> Tree
        requires fresh { self.now.fresh ≡ true }
        ensures points { result.points ≡ self.now.points }
        ensures few { count result ≤ limit_points }
        ensures stands { Accepted result }
    {
        self.parts.tree()
    }
}

impl<'a> Parts<'a> {
    // Keeps a point after the others.
    fn keep(&mut self, place: Coord) -> Result<(), Refusal>
        requires ready { Ready self.old.points.now self.old.count self.old.indices.now self.old.boxes.now self.old.links.now self.old.fresh }
        ensures ready { Ready self.new.points.now self.new.count self.new.indices.now self.new.boxes.now self.new.links.now self.new.fresh }
        ensures kept { Kept (so_far self.old.points.now self.old.count) place.x place.y (so_far self.new.points.now self.new.count) result }
        ensures same_points { self.new.points.ghost_name ≡ self.old.points.ghost_name }
        ensures same_indices { self.new.indices.ghost_name ≡ self.old.indices.ghost_name }
        ensures same_boxes { self.new.boxes.ghost_name ≡ self.old.boxes.ghost_name }
        ensures same_links { self.new.links.ghost_name ≡ self.old.links.ghost_name }
    {
        if self.count >= MAX_POINTS {
            return Err(Refusal::TooManyPoints);
        }
        if !place.is_finite() {
            return Err(Refusal::PointNotFinite(self.count as u32));
        }
        let at = 2 * self.count;
        self.points[at] = place.x;
        self.points[at + 1] = place.y;
        self.count += 1;
        self.fresh = false;
        Ok(())
    }

    // Builds the tree of the points, unless it stands.
    fn raise(&mut self)
        requires ready { Ready self.old.points.now self.old.count self.old.indices.now self.old.boxes.now self.old.links.now self.old.fresh }
        ensures ready { Ready self.new.points.now self.new.count self.new.indices.now self.new.boxes.now self.new.links.now self.new.fresh }
        ensures points { self.new.points.now ≡ self.old.points.now }
        ensures count { self.new.count ≡ self.old.count }
        ensures same_points { self.new.points.ghost_name ≡ self.old.points.ghost_name }
        ensures same_indices { self.new.indices.ghost_name ≡ self.old.indices.ghost_name }
        ensures same_boxes { self.new.boxes.ghost_name ≡ self.old.boxes.ghost_name }
        ensures same_links { self.new.links.ghost_name ≡ self.old.links.ghost_name }
        ensures fresh { self.new.fresh ≡ true }
    {
        if !self.fresh {
            let end = 2 * self.count;
            // Kept: the points as `&mut`; a `&` into one field beside `&mut`s of others is not covered by the check yet.
            grow(
                &mut self.points[..end],
                self.indices,
                self.boxes,
                self.links,
            );
            self.fresh = true;
        }
    }

    // The tree of the points, where it stands.
    fn tree(&self) -> Tree
        requires ready { Ready self.now.points.now self.now.count self.now.indices.now self.now.boxes.now self.now.links.now self.now.fresh }
        requires fresh { self.now.fresh ≡ true }
        ensures points { result.points ≡ so_far self.now.points.now self.now.count }
        ensures few { count result ≤ limit_points }
        ensures stands { Accepted result }
    {
        let end = 2 * self.count;
        Tree::new(&self.points[..end], self.indices, self.boxes, self.links)
    }

    // Takes one record and writes its lines; whether the stream goes on.
    fn take(&mut self, what: Record, lines: &mut Writer) -> bool
        requires ready { Ready self.old.points.now self.old.count self.old.indices.now self.old.boxes.now self.old.links.now self.old.fresh }
        requires room { lines.old.at + longest ≤ length lines.old.out.now }
        ensures ready { Ready self.new.points.now self.new.count self.new.indices.now self.new.boxes.now self.new.links.now self.new.fresh }
        ensures same_points { self.new.points.ghost_name ≡ self.old.points.ghost_name }
        ensures same_indices { self.new.indices.ghost_name ≡ self.old.indices.ghost_name }
        ensures same_boxes { self.new.boxes.ghost_name ≡ self.old.boxes.ghost_name }
        ensures same_links { self.new.links.ghost_name ≡ self.old.links.ghost_name }
        ensures same_reference { lines.new.out.ghost_name ≡ lines.old.out.ghost_name }
        ensures stepped { Stepped what (so_far self.old.points.now self.old.count) lines.old.out.now lines.old.at (so_far self.new.points.now self.new.count) lines.new.out.now lines.new.at result }
    {
        match what {
            Record::Point(x, y) => {
                if let Err(refusal) = self.keep(Coord { x, y }) {
                    put_error(refusal, lines);
                }
                true
            }
            Record::Unknown => {
                put_error(Refusal::UnknownRecord, lines);
                false
            }
            _ => {
                self.raise();
                let tree = self.tree();
                reply(what, &tree, lines);
                true
            }
        }
    }
}

// ---- the queries

// The line of a refusal.
fn put_error(refusal: Refusal, lines: &mut Writer)
    requires room { lines.old.at + 13 ≤ length lines.old.out.now }
    ensures same_reference { lines.new.out.ghost_name ≡ lines.old.out.ghost_name }
    ensures put { Put lines.old.out.now lines.old.at (error (number refusal)) lines.new.out.now lines.new.at }
{
    lines.put_count(b'E', refusal.number());
}

// The lines of a nearest query.
fn say_nearest(tree: &Tree, place: Coord, lines: &mut Writer)
    requires { Asking tree.now lines.old.out.now lines.old.at }
    ensures same_reference { lines.new.out.ghost_name ≡ lines.old.out.ghost_name }
    ensures replies { Replies (AskNearest place.x place.y) tree.now.points lines.old.out.now lines.old.at lines.new.out.now lines.new.at }
{
    match nearest::nearest_neighbour(tree, place) {
        Nearest::Hit(index, distance) => lines.put_nearest(index, distance),
        Nearest::Empty => lines.put_none(),
        Nearest::Refused(refusal) => put_error(refusal, lines),
    }
}

// What a query lists: so many of the nearest points, or those within a radius.
#[derive(Clone, Copy, Debug, PartialEq)]
enum Wanted {
    Nearest(u32),
    Within(f64),
}

impl Wanted {
    // The letter in front of the count.
    fn letter(self) -> u8
        ensures { result ≡ letter_of self }
    {
        match self {
            Wanted::Nearest(_) => b'K',
            Wanted::Within(_) => b'R',
        }
    }

    // The hits, into two slices of 1,024.
    fn find(
        self,
        tree: &Tree,
        place: Coord,
        near: &mut [u32],
        far: &mut [f64],
    ) -> Result<u32, Refusal>
        requires stands { Accepted tree.now }
        requires near_room { count tree.now ≤ length near.old }
        requires far_room { count tree.now ≤ length far.old }
        ensures answers { Answers (listed self tree.now.points place) near.old far.old result near.new far.new }
        ensures floats { Floats far.new }
    {
        match self {
            Wanted::Nearest(k) => k_nearest::nearest_neighbours(tree, place, k, near, far),
            Wanted::Within(radius) => radius::within_radius(tree, place, radius, near, far),
        }
    }
}

// The lines of hits, a letter and their count in front; or of a refusal.
fn put_found(
    found: Result<u32, Refusal>,
    letter: u8,
    indices: &[u32],
    distances: &[f64],
    lines: &mut Writer,
)
    requires { Writes lines.old.out.now lines.old.at found indices.now distances.now }
    ensures same_reference { lines.new.out.ghost_name ≡ lines.old.out.ghost_name }
    ensures put { Put lines.old.out.now lines.old.at (found_text letter found indices.now distances.now) lines.new.out.now lines.new.at }
{
    match found {
        Ok(count) => {
            let n = count as usize;
            lines.put_count(letter, count);
            lines.put_hits(&indices[..n], &distances[..n]);
        }
        Err(refusal) => put_error(refusal, lines),
    }
}

// The lines of a query that lists hits. Compiled into its caller, so that its slices take the stack of the labels' ones.
#[inline(always)]
fn say_hits(wanted: Wanted, tree: &Tree, place: Coord, lines: &mut Writer)
    requires { Asking tree.now lines.old.out.now lines.old.at }
    ensures same_reference { lines.new.out.ghost_name ≡ lines.old.out.ghost_name }
    ensures replies { Replies (asked wanted place) tree.now.points lines.old.out.now lines.old.at lines.new.out.now lines.new.at }
{
    let mut near = [0u32; MAX_POINTS];
    let mut far = [0.0f64; MAX_POINTS];
    let found = wanted.find(tree, place, &mut near, &mut far);
    put_found(found, wanted.letter(), &near, &far, lines);
}

// The lines of a label query, over a tree of its own.
fn say_labels(points: &[f64], epsilon: f64, samples: u32, lines: &mut Writer)
    requires { Plain points.now lines.old.out.now lines.old.at }
    ensures same_reference { lines.new.out.ghost_name ≡ lines.old.out.ghost_name }
    ensures replies { Replies (AskLabel epsilon samples) points.now lines.old.out.now lines.old.at lines.new.out.now lines.new.at }
{
    let mut indices = [0u32; MAX_POINTS];
    let mut boxes = [0.0f64; BOXES];
    let mut links = [0u32; LINKS];
    let mut labels = [0u32; MAX_POINTS];
    let mut work = [0u32; 2 * MAX_POINTS];
    let answer = dbscan::dbscan(
        points,
        epsilon,
        samples,
        &mut indices,
        &mut boxes,
        &mut links,
        &mut labels,
        &mut work,
    );
    match answer {
        Ok(()) => {
            let n = points.len() / 2;
            lines.put_count(b'C', n as u32);
            lines.put_labels(&labels[..n]);
        }
        Err(refusal) => put_error(refusal, lines),
    }
}

// The lines of a query over the points of a tree that stands.
fn reply(query: Record, tree: &Tree, lines: &mut Writer)
    requires query { Query query }
    requires asking { Asking tree.now lines.old.out.now lines.old.at }
    ensures same_reference { lines.new.out.ghost_name ≡ lines.old.out.ghost_name }
    ensures replies { Replies query tree.now.points lines.old.out.now lines.old.at lines.new.out.now lines.new.at }
{
    match query {
        Record::Nearest(x, y) => say_nearest(tree, Coord { x, y }, lines),
        Record::KNearest(x, y, k) => say_hits(Wanted::Nearest(k), tree, Coord { x, y }, lines),
        Record::Radius(x, y, radius) => {
            say_hits(Wanted::Within(radius), tree, Coord { x, y }, lines)
        }
        Record::Label(epsilon, samples) => say_labels(tree.points(), epsilon, samples, lines),
        Record::Point(_, _) => {}
        Record::Unknown => put_error(Refusal::UnknownRecord, lines),
    }
}

// ---- the stream

// Takes the whole records of `input` from `from` on, over the parts of a map.
fn feed_parts(input: &[u8], from: usize, parts: &mut Parts, out: &mut [u8]) -> Fed
    requires ready { Ready parts.old.points.now parts.old.count parts.old.indices.now parts.old.boxes.now parts.old.links.now parts.old.fresh }
    ensures ready { Ready parts.new.points.now parts.new.count parts.new.indices.now parts.new.boxes.now parts.new.links.now parts.new.fresh }
    ensures fed { FedBy input.now from (so_far parts.old.points.now parts.old.count) out.old (so_far parts.new.points.now parts.new.count) out.new result }
    ensures same_points { parts.new.points.ghost_name ≡ parts.old.points.ghost_name }
    ensures same_indices { parts.new.indices.ghost_name ≡ parts.old.indices.ghost_name }
    ensures same_boxes { parts.new.boxes.ghost_name ≡ parts.old.boxes.ghost_name }
    ensures same_links { parts.new.links.ghost_name ≡ parts.old.links.ghost_name }
{
    let mut lines = Writer::new(out, 0);
    let mut used = from;
    // Kept: where a record starts is known once the one before it is read.
    while lines.out.len() - lines.at >= LONGEST {
        let Read::Whole(what, next) = records::read_at(input, used) else {
            return Fed {
                used,
                wrote: lines.at,
                stop: Stop::Hungry,
            };
        };
        let goes_on = parts.take(what, &mut lines);
        used = next;
        if !goes_on {
            return Fed {
                used,
                wrote: lines.at,
                stop: Stop::Done,
            };
        }
    }
    Fed {
        used,
        wrote: lines.at,
        stop: Stop::Full,
    }
}

/// Takes the whole records of `input` from `from` on, as far as there is room in `out`, which it fills from its start.
pub fn feed(input: &[u8], from: usize, map: &mut Map, out: &mut [u8]) -> Fed
    ensures { FedBy input.now from map.old.points out.old map.new.points out.new result }
{
    feed_parts(input, from, &mut map.parts, out)
}

/// The same over the slices themselves, for a caller that keeps them: how many points there are then, and whether their tree
/// stands in the slices, come back beside it. An inner function, as `Map::resume`: it asks that the points stand.
pub fn feed_slices(
    input: &[u8],
    from: usize,
    points: &mut [f64],
    count: usize,
    indices: &mut [u32],
    boxes: &mut [f64],
    links: &mut [u32],
    fresh: bool,
    out: &mut [u8],
) -> (Fed, usize, bool)
    requires ready { Ready points.old count indices.old boxes.old links.old fresh }
    ensures ready { Ready points.new result.1 indices.new boxes.new links.new result.2 }
    ensures fed { FedBy input.now from (so_far points.old count) out.old (so_far points.new result.1) out.new result.0 }
{
    let mut parts = Parts {
        points,
        count,
        indices,
        boxes,
        links,
        fresh,
    };
    let fed = feed_parts(input, from, &mut parts, out);
    (fed, parts.count, parts.fresh)
}

/// Prints the whole stream of `input` into `out`, from its start. Any slices do; points, indices, boxes and links are work,
/// and hold what it left.
pub fn print_all(
    input: &[u8],
    points: &mut [f64],
    indices: &mut [u32],
    boxes: &mut [f64],
    links: &mut [u32],
    out: &mut [u8],
) -> Printed
    ensures { PrintedBy input.now (tree points.old indices.old boxes.old links.old) out.old (tree points.new indices.new boxes.new links.new) out.new result }
{
    if points.len() < COORDINATES
        || indices.len() < MAX_POINTS
        || boxes.len() < BOXES
        || links.len() < LINKS
    {
        return Printed::Short;
    }
    let mut map = Map::new(points, indices, boxes, links);
    let fed = feed(input, 0, &mut map, out);
    match fed.stop {
        Stop::Full => Printed::Full(fed.wrote),
        Stop::Done => Printed::Whole(fed.wrote),
        Stop::Hungry => {
            let is_cut = fed.used < input.len();
            if is_cut {
                let mut lines = Writer::new(out, fed.wrote);
                put_error(Refusal::UnknownRecord, &mut lines);
                return Printed::Whole(lines.at);
            }
            Printed::Whole(fed.wrote)
        }
    }
}
