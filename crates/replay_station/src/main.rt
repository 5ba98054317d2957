//! The station over one map that grows to 1,024 points, held to answers that the original gave: nearest, k-nearest, radius
//! and labels, recorded by `oracle/run record`, where no answer rests on a tie.
#![tactic(auto)]

use std::io;

fn main(rt: HostRuntime) -> io::Result<()> {
    serve::run(&mut rt.stdin(), &mut rt.stdout())
}
