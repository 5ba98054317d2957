//! Vectors of the root as text: a line has 16 hex digits, a blank, 16 hex digits and a line end.
ghost use Rattle.std.specs.Prelude.{◌≡◌, true, ◌+◌, ◌*◌, ◌≤◌, length};
ghost use Rattle.root.specs.Root.{Root};
ghost use Rattle.root_vectors.specs.Vectors.{number, expected, Tallied};

/// How many lines there are, in how many of them the root is the one expected, and the first where it is not, counted
/// from 1.
#[derive(Clone, Copy, Debug, PartialEq, Eq)]
pub struct Tally {
    pub lines: usize,
    pub agree: usize,
    pub first: Option<usize>,
}

// Is the root of the line's number the one that the line expects, bit for bit?
fn agrees(text: &[u8], i: usize) -> bool
    requires { i * 34 + 34 ≤ length text.now }
    ensures { result ≡ true → Root (number text.now i) (expected text.now i) }
{
    let from = i * 34;
    let x = patterns::float(patterns::word(text, from));
    patterns::pattern(root::square_root(x)) == patterns::word(text, from + 17)
}

/// Reads each line of the text; what is left behind the last whole line is passed over.
pub fn run_all(text: &[u8]) -> Tally
    ensures { Tallied text.now result }
{
    let lines = text.len() / 34;
    let mut agree = 0;
    let mut first = None;
    for i in 0..lines {
        if agrees(text, i) {
            agree += 1;
        } else {
            first = first.or(Some(i + 1));
        }
    }
    Tally {
        lines,
        agree,
        first,
    }
}
