//! The recorded list as text: a line is a letter and words, each after a blank and of 16 hex digits.
ghost use Rattle.std.specs.Prelude.{◌≡◌, ◌≢◌, true, false, cond, ◌<◌, ltb, eqb, length, slice_index, OnSome, IfSome, IfNone};
ghost use Rattle.patterns.specs.Digits.{word, float_at};
ghost use Rattle.replay_answers.specs.declared.recorded.Letter.{Letter};
ghost use Rattle.replay_answers.specs.Lines.{begins, starts, Says, NextLine, code};

/// What a line begins: a map, or a question with its answer. The lines that belong to one have letters of their own.
#[derive(Clone, Copy, Debug, PartialEq, Eq)]
pub enum Letter {
    Map,
    Nearest,
    KNearest,
    Radius,
    Labels,
}

impl Letter {
    // None for another line's.
    fn of(byte: u8) -> Option<Letter>
        ensures some { IfSome result (λ letter. code letter ≡ byte) }
        ensures none { IfNone result ((letter : Letter) → code letter ≢ byte) }
    {
        match byte {
            b'M' => Some(Letter::Map),
            b'N' => Some(Letter::Nearest),
            b'K' => Some(Letter::KNearest),
            b'R' => Some(Letter::Radius),
            b'L' => Some(Letter::Labels),
            _ => None,
        }
    }
}

// Does a line begin at this place?
fn begins(text: &[u8], at: usize) -> bool
    requires { at < length text.now }
    ensures { result ≡ begins text.now at }
{
    at == 0 || text[at - 1] == b'\n'
}

/// The letter of the line that begins at a place, if one does and is a map's or a question's.
pub fn letter_at(text: &[u8], at: usize) -> Option<Letter>
    requires { at < length text.now }
    ensures begins { OnSome result (begins text.now at ≡ true) }
    ensures letter { IfSome result (λ l. slice_index text.now at ≡ code l) }
    ensures none { IfNone result ((l : Letter) → starts text.now (code l) at ≡ false) }
{
    if begins(text, at) {
        Letter::of(text[at])
    } else {
        None
    }
}

/// The number that stands at a place, or `most` where it is more.
pub fn up_to(text: &[u8], at: usize, most: u32) -> u32
    ensures { result ≡ cond (ltb (word text.now at) most) (word text.now at) most }
{
    patterns::word(text, at).min(u64::from(most)) as u32
}

/// The float whose pattern stands there.
pub fn float(text: &[u8], at: usize) -> f64
    ensures { result ≡ float_at text.now at }
{
    patterns::float(patterns::word(text, at))
}

/// Does the word there say this number?
pub fn says(text: &[u8], at: usize, v: u32) -> bool
    ensures { result ≡ eqb (word text.now at) v }
{
    patterns::word(text, at) == u64::from(v)
}

/// Does it have this float's pattern?
pub fn says_float(text: &[u8], at: usize, x: f64) -> bool
    ensures { Says text.now at x result }
{
    patterns::word(text, at) == patterns::pattern(x)
}

/// Where the line after a place starts; the text's end where there is none.
pub fn next_line(text: &[u8], at: usize) -> usize
    requires { at < length text.now }
    ensures { NextLine text.now at result }
{
    'bytes: for i in at + 1..text.len() {
        if begins(text, i) {
            return i;
        }
    }
    text.len()
}
