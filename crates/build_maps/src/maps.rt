//! Maps as text: lines of 16 hex digits and a line end. A map is four numbers (how many coordinates, the leaf size, the
//! room in the index slice, the room in the node slices, in nodes), and then the patterns of its coordinates.
//! A tree is printed with a line a node: its number, start, end, left, right, the patterns of its box's four ends, and a
//! leaf's indices in rising order.
ghost use Rattle.std.specs.Prelude.{◌+◌, ◌*◌, ◌^◌, ◌<◌, ◌≤◌, length, IfOk, IfSome};

use build::BallTreeBuilder;
use refusal::Refusal;
use std::io;
use tree::{Node, Tree};

// The number that stands at a place, or `most` where it is more.
fn up_to(text: &[u8], at: usize, most: usize) -> usize
    ensures { result ≤ most }
{
    (patterns::word(text, at) as usize).min(most)
}

// The coordinates, from a place of the text on.
fn fill(text: &[u8], at: usize, points: &mut [f64])
    requires { at + 17 * length points.old ≤ length text.now }
{
    for (k, coordinate) in points.iter_mut().enumerate() {
        *coordinate = patterns::float(patterns::word(text, at + 17 * k));
    }
}

// The indices below n that stand in a part, in rising order.
fn print_part(rt: &impl Print, part: &[u32], n: u32) -> io::Result<()> {
    for index in 0..n {
        if part.contains(&index) {
            print!(rt; "{index} ")?;
        }
    }
    Ok(())
}

fn print_node(rt: &impl Print, tree: &Tree, links: &[u32], number: u32, n: u32) -> io::Result<()> {
    let at = number as usize * 4;
    let &[start, end, left, right] = links.get(at..at + 4).unwrap_or(&[]) else {
        return Ok(());
    };
    print!(rt; "{number} {start} {end} {left} {right} ")?;
    let b = tree.bounds(number);
    for end in [b.min_x, b.max_x, b.min_y, b.max_y] {
        let bits = patterns::pattern(end);
        print!(rt; "{bits:016x} ")?;
    }
    if left == 0 {
        let node = Node {
            number,
            start: start as usize,
            end: end as usize,
        };
        print_part(rt, tree.part(node), n)?;
    }
    println!(rt; "")
}

fn print_answer(
    rt: &impl Print,
    answer: Result<u32, Refusal>,
    tree: &Tree,
    links: &[u32],
    n: u32,
) -> io::Result<()> {
    match answer {
        Err(refusal) => {
            let number = refusal.number();
            let detail = refusal.detail();
            println!(rt; "refused {number} {detail} ")
        }
        Ok(nodes) => {
            println!(rt; "nodes {nodes} ")?;
            for number in 0..nodes {
                print_node(rt, tree, links, number, n)?;
            }
            Ok(())
        }
    }
}

// Kept: four slices and no struct of them, here and below: each map cuts them anew to the lengths that it asks for.
// The map whose coordinates start at a place of the text, in slices of just the lengths that it asks for.
fn print_built(
    rt: &impl Print,
    text: &[u8],
    at: usize,
    leaf_size: u32,
    points: &mut [f64],
    indices: &mut [u32],
    boxes: &mut [f64],
    links: &mut [u32],
) -> io::Result<()>
    requires coordinates { at + 17 * length points.old ≤ length text.now }
    requires few { length points.old < 2 ^ 32 }
{
    fill(text, at, points);
    let n = (points.len() / 2) as u32;
    let builder = BallTreeBuilder::with_leaf_size(leaf_size);
    let answer = builder.build(points, indices, boxes, links);
    let tree = Tree::new(points, indices, boxes, links);
    print_answer(rt, answer, &tree, links, n)
}

// The map that starts at a place of the text, built in the fronts of the slices. Returns where the next one starts, unless
// this one is cut.
fn print_map(
    rt: &impl Print,
    text: &[u8],
    at: usize,
    points: &mut [f64],
    indices: &mut [u32],
    boxes: &mut [f64],
    links: &mut [u32],
) -> io::Result<Option<usize>>
    requires head { at + 68 ≤ length text.now }
    requires few { length points.old < 2 ^ 32 }
    ensures further { IfOk result (λ next. IfSome next (λ place. at < place)) }
    ensures inside { IfOk result (λ next. IfSome next (λ place. place ≤ length text.now)) }
{
    let c = up_to(text, at, points.len());
    let leaf = up_to(text, at + 17, 0xffff_ffff);
    let i = up_to(text, at + 34, indices.len());
    let b = 6 * up_to(text, at + 51, boxes.len() / 6);
    let l = 4 * up_to(text, at + 51, links.len() / 4);
    let next = at + 68 + 17 * c;
    if next > text.len() {
        return Ok(None);
    }
    print_built(
        rt,
        text,
        at + 68,
        leaf as u32,
        &mut points[..c],
        &mut indices[..i],
        &mut boxes[..b],
        &mut links[..l],
    )?;
    Ok(Some(next))
}

// Each map in turn, up to one that is cut. Returns how far the text was read.
pub fn print_all(
    rt: &impl Print,
    text: &[u8],
    points: &mut [f64],
    indices: &mut [u32],
    boxes: &mut [f64],
    links: &mut [u32],
) -> io::Result<usize>
    ensures { IfOk result (λ next. next ≤ length text.now) }
{
    let mut at = 0;
    if points.len() >= 0x1_0000_0000 {
        return Ok(at);
    }
    // Kept: where a map starts is known once the one before it is read.
    while at + 68 <= text.len() {
        let Some(next) = print_map(rt, text, at, points, indices, boxes, links)? else {
            return Ok(at);
        };
        at = next;
    }
    Ok(at)
}
