//! The station: records from standard input, lines to standard output.
#![tactic(auto)]

use std::io;

fn main(rt: HostRuntime) -> io::Result<()> {
    serve::run(&mut rt.stdin(), &mut rt.stdout())
}
