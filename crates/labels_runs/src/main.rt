//! Labels of small maps, a line each: the map's name, its labels with `-` for noise, and after `|` the entry past them, which
//! was 9 before and stays; or `E` with the number and the detail of a refusal. What they must be was worked out by hand.
#![tactic(auto)]

use labels::NOISE;
use std::io;

fn say(rt: &impl Print, label: u32) -> io::Result<()> {
    if label == NOISE {
        print!(rt; " -")
    } else {
        print!(rt; " {label}")
    }
}

fn run(
    rt: &impl Print,
    name: &str,
    points: &[f64],
    epsilon: f64,
    min_samples: u32,
) -> io::Result<()> {
    let mut labels = [9; 41];
    let answer = dbscan::dbscan(
        points,
        epsilon,
        min_samples,
        &mut [9; 40],
        &mut [9.0; 60],
        &mut [9; 40],
        &mut labels,
        &mut [9; 81],
    );
    print!(rt; "{name}")?;
    match answer {
        Ok(()) => {
            let n = points.len() / 2;
            for label in labels.iter().take(n) {
                say(rt, *label)?;
            }
            print!(rt; " |")?;
            if let Some(past) = labels.get(n) {
                say(rt, *past)?;
            }
        }
        Err(refusal) => print!(rt; " E {} {}", refusal.number(), refusal.detail())?,
    }
    println!(rt; "")
}

// The examples of the scope.
fn examples(rt: &impl Print) -> io::Result<()> {
    run(
        rt,
        "two triples",
        &[
            0.0, 0.0, 1.0, 0.0, 0.0, 1.0, 10.0, 10.0, 11.0, 10.0, 10.0, 11.0,
        ],
        2.0,
        2,
    )?;
    run(
        rt,
        "one far off",
        &[0.0, 0.0, 1.0, 0.0, 0.0, 1.0, 100.0, 100.0],
        2.0,
        2,
    )?;
    run(
        rt,
        "one between, first",
        &[
            0.0, 0.0, 1.0, 0.0, 1.5, 0.0, 2.0, 0.0, -1.0, 0.0, -1.5, 0.0, -2.0, 0.0,
        ],
        1.0,
        4,
    )?;
    Ok(())
}

// A point that two cores claim has the lower label, wherever it stands.
fn borders(rt: &impl Print) -> io::Result<()> {
    run(
        rt,
        "one between, last",
        &[
            1.0, 0.0, 1.5, 0.0, 2.0, 0.0, -1.0, 0.0, -1.5, 0.0, -2.0, 0.0, 0.0, 0.0,
        ],
        1.0,
        4,
    )?;
    run(
        rt,
        "one between, turned",
        &[
            0.0, 0.0, -1.0, 0.0, -1.5, 0.0, -2.0, 0.0, 1.0, 0.0, 1.5, 0.0, 2.0, 0.0,
        ],
        1.0,
        4,
    )?;
    Ok(())
}

// Two lines of 18 points, a pitch of 1 apart: point by point in turn, and one after the other with a gap of 10. The tree has
// seven nodes.
fn lines(rt: &impl Print) -> io::Result<()> {
    let mut turns = [0.0; 72];
    let mut gap = [0.0; 72];
    for i in 0..36u32 {
        let x = 2 * i as usize;
        turns[x] = (i / 2 + 100 * (i % 2)) as f64;
        gap[x] = (i + 10 * (i / 18)) as f64;
    }
    run(rt, "in turn", &turns, 1.0, 3)?;
    run(rt, "with a gap", &gap, 1.0, 3)?;
    run(rt, "too far apart", &gap, 0.5, 2)?;
    run(rt, "each alone", &gap, -0.0, 1)?;
    Ok(())
}

fn edges(rt: &impl Print) -> io::Result<()> {
    run(
        rt,
        "two at one place",
        &[5.0, 5.0, 5.0, 5.0, 6.0, 5.0],
        0.0,
        2,
    )?;
    run(rt, "no samples", &[0.0, 0.0, 0.0, 0.0], 1.0, 0)?;
    run(rt, "as many samples", &[0.0, 0.0, 0.0, 0.0], 1.0, 2)?;
    run(rt, "more samples", &[0.0, 0.0, 0.0, 0.0], 1.0, 3)?;
    run(rt, "no points", &[], 1.0, 1)?;
    run(rt, "odd", &[0.0, 0.0, 0.0], -1.0, 2)?;
    run(
        rt,
        "not finite",
        &[0.0, 0.0, 1.0, 1.0 / 0.0, 0.0 / 0.0, 0.0],
        -1.0,
        2,
    )?;
    run(rt, "below zero", &[0.0, 0.0], -1.0, 1)?;
    run(rt, "not a number", &[0.0, 0.0], 0.0 / 0.0, 1)?;
    run(rt, "no room", &[0.0; 82], 1.0, 1)?;
    run(rt, "below zero, no room", &[0.0; 82], -1.0, 1)?;
    Ok(())
}

fn main(rt: HostRuntime) -> io::Result<()> {
    examples(&rt)?;
    borders(&rt)?;
    lines(&rt)?;
    edges(&rt)?;
    Ok(())
}
