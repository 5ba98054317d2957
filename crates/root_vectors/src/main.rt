//! Runs IEEE vectors of the root. Standard input has them, a line each, as oracle/root_vectors.c writes them. Standard
//! output says in how many lines `root::square_root` gives what is expected, bit for bit, and the first where it does not.
#![tactic(auto)]

mod vectors;

// Standard input. It is read into a fixed buffer: std reads a whole input only into memory that it asks for.
const STDIN_FILENO: i32 = 0;

fn main(rt: HostRuntime) -> std::io::Result<()> {
    let mut text = [0u8; 262144];
    let n = io::read_full(STDIN_FILENO, &mut text);
    let t = vectors::run_all(&text[..n]);
    println!(rt; "{} of {} agree", t.agree, t.lines)?;
    if let Some(first) = t.first {
        println!(rt; "the first that does not: line {first}")?;
    }
    Ok(())
}
