//! A run of the station over no bytes: no line.
#![tactic(auto)]

use std::io;

fn main(rt: HostRuntime) -> io::Result<()> {
    serve::run(&mut rt.stdin(), &mut rt.stdout())
}
