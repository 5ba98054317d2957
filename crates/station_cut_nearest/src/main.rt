//! A run of the station: a point, and then a record of kind 2 whose body is one byte short.
#![tactic(auto)]

use std::io;

fn main(rt: HostRuntime) -> io::Result<()> {
    serve::run(&mut rt.stdin(), &mut rt.stdout())
}
