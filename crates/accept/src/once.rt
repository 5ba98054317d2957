// Whether a list of n numbers has each of 0 to n - 1 once: all are below n, and none stands there twice.
ghost use Rattle.std.specs.Prelude.{◌↔◌, ◌≤◌, length, IsTrue};
ghost use Rattle.tree.specs.Points.{limit};
ghost use Rattle.accept.specs.Inner.{EachOnce};

// The words of a set of bits, one for each number below the limit.
const WORDS: usize = tree::MAX_POINTS / 64;

pub fn each_once(indices: &[u32]) -> bool
    requires { length indices.now ≤ limit }
    ensures { IsTrue result ↔ EachOnce indices.now }
{
    let mut seen = [0u64; WORDS];
    for &index in indices {
        let i = index as usize;
        if i >= indices.len() {
            return false;
        }
        let is_seen = (seen[i / 64] >> (i % 64)) % 2 == 1;
        if is_seen {
            return false;
        }
        seen[i / 64] |= 1u64 << (i % 64);
    }
    true
}
