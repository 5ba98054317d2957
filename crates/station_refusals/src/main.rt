//! A run of the station: every refusal, no points and 1,024 and one more, labels of every sort, and an unknown kind at the end.
#![tactic(auto)]

use std::io;

fn main(rt: HostRuntime) -> io::Result<()> {
    serve::run(&mut rt.stdin(), &mut rt.stdout())
}
