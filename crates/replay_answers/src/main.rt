//! Replays recorded answers of the original: maps under many leaf sizes, with nearest, k-nearest, radius and labels.
//! Standard input has them as text, as `oracle/run record` writes them; its head says the form. Standard output says how many
//! of each were asked, and whether all came as recorded, indices and distances bit for bit, or else the first that did not.
#![tactic(auto)]

ghost use Rattle.std.specs.Prelude.{◌<◌, length};

mod answers;
mod recorded;

// Standard input. It is read into a fixed buffer: std reads a whole input only into memory that it asks for.
const STDIN_FILENO: i32 = 0;

// The line that begins at a place.
fn say_line(rt: &impl Print, text: &[u8], at: usize) -> std::io::Result<()>
    requires { at < length text.now }
{
    rt.write_all(&text[at..recorded::next_line(text, at)])
}

fn replay_input<const N: usize>(rt: &impl Print, text: &mut [u8; N]) -> std::io::Result<()> {
    let n = io::read_full(STDIN_FILENO, text);
    let text = &text[..n];
    let tally = answers::replay(text);
    match tally.first_wrong {
        None => println!(rt; "{tally}: all as recorded"),
        Some(at) => {
            println!(rt; "{tally}: not as recorded, the first being")?;
            say_line(rt, text, at)
        }
    }
}

fn main(rt: HostRuntime) -> std::io::Result<()> {
    let mut text = [0u8; 524288];
    replay_input(&rt, &mut text)
}
