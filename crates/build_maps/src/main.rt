//! Builds recorded maps and prints their trees. Standard input has the maps and the expected output was worked out by
//! oracle/build_maps.py, from the rules and not from this project's code.
#![tactic(auto)]

mod maps;

// Standard input. It is read into a fixed buffer: std reads a whole input only into memory that it asks for.
const STDIN_FILENO: i32 = 0;

fn main(rt: HostRuntime) -> std::io::Result<()> {
    let mut text = [0u8; 131072];
    let n = io::read_full(STDIN_FILENO, &mut text);
    let mut points = [0.0; 1024];
    let mut indices = [0u32; 512];
    let mut boxes = [0.0; 1536];
    let mut links = [0u32; 1024];
    let _ = maps::print_all(
        &rt,
        &text[..n],
        &mut points,
        &mut indices,
        &mut boxes,
        &mut links,
    )?;
    Ok(())
}
