//! The stream's lines, byte for byte, written into a lent slice from a place on; every other byte stays as it was.
#![tactic(auto)]

ghost use Rattle.std.specs.Prelude.{◌≡◌, not, ◌+◌, ◌<◌, ◌≤◌, [], ◌∷◌, length, T};
ghost use Rattle.std.specs.Float.Ieee.{is_nan};
ghost use Rattle.text.specs.Line.{glyph_of, decimal, hexes, hit_line, hit_lines, HitsFit, nearest_line, none_line, count_line, label_line, label_lines, LabelsFit};
ghost use Rattle.text.specs.Line.{Put};

// The label of noise, which prints as `-`.
// Kept: beside the one of `labels`: the edit noise_number changes it here.
const NOISE: u32 = 4_294_967_295;

fn glyph(d: u8) -> u8
    requires { d < 16 }
    ensures { result ≡ glyph_of d }
{
    if d < 10 { b'0' + d } else { b'A' + (d - 10) }
}

// The decimal digits of n, from a place on; answers the place past them. A place that is handed on stays in a register.
// Kept: not `write!`, which answers a `fmt::Result`, where a line here cannot fail.
fn put_decimal(out: &mut [u8], at: usize, n: u32) -> usize
    requires { at + length (decimal n) ≤ length out.old }
    ensures { Put out.old at (decimal n) out.new result }
{
    if n < 10 {
        out[at] = glyph(n as u8);
        return at + 1;
    }
    let next = put_decimal(out, at, n / 10);
    out[next] = glyph((n % 10) as u8);
    next + 1
}

// The last k hexadecimal digits of the bits, likewise.
fn put_hex(out: &mut [u8], at: usize, bits: u64, k: usize) -> usize
    requires { at + k ≤ length out.old }
    ensures { Put out.old at (hexes k bits) out.new result }
{
    if k == 0 {
        return at;
    }
    let next = put_hex(out, at, bits / 16, k - 1);
    out[next] = glyph((bits % 16) as u8);
    next + 1
}

/// A slice that is being written to.
// Kept: a slice and a place: lines go into lent memory.
#[derive(Drop)]
pub struct Writer<'a> {
    pub out: &'a mut [u8],
    /// Where the next byte goes.
    pub at: usize,
}

impl<'a> Writer<'a> {
    pub fn new(out: &'a mut [u8], at: usize) -> Self
        ensures same_reference { result.out.ghost_name ≡ out.entry.ghost_name }
        ensures out { result.out.now ≡ out.old }
        ensures at { result.at ≡ at }
    {
        Writer { out, at }
    }

    fn put_all(&mut self, bytes: &[u8])
        requires room { self.old.at + length bytes.now ≤ length self.old.out.now }
        ensures same_reference { self.new.out.ghost_name ≡ self.old.out.ghost_name }
        ensures put { Put self.old.out.now self.old.at bytes.now self.new.out.now self.new.at }
    {
        let end = self.at + bytes.len();
        self.out[self.at..end].copy_from_slice(bytes);
        self.at = end;
    }

    /// `0 4014000000000000`
    pub fn put_hit(&mut self, index: u32, distance: f64)
        requires room { self.old.at + 28 ≤ length self.old.out.now }
        requires number { T (not (is_nan distance)) }
        ensures same_reference { self.new.out.ghost_name ≡ self.old.out.ghost_name }
        ensures put { Put self.old.out.now self.old.at (hit_line index distance) self.new.out.now self.new.at }
    {
        let out = &mut *self.out;
        let a = put_decimal(out, self.at, index);
        out[a] = b' ';
        let b = put_hex(out, a + 1, distance.to_bits(), 16);
        out[b] = b'\n';
        self.at = b + 1;
    }

    /// `N 0 4014000000000000`
    pub fn put_nearest(&mut self, index: u32, distance: f64)
        requires room { self.old.at + 30 ≤ length self.old.out.now }
        requires number { T (not (is_nan distance)) }
        ensures same_reference { self.new.out.ghost_name ≡ self.old.out.ghost_name }
        ensures put { Put self.old.out.now self.old.at (nearest_line index distance) self.new.out.now self.new.at }
    {
        self.put_all(b"N ");
        self.put_hit(index, distance);
    }

    /// `N none`
    pub fn put_none(&mut self)
        requires room { self.old.at + 7 ≤ length self.old.out.now }
        ensures same_reference { self.new.out.ghost_name ≡ self.old.out.ghost_name }
        ensures put { Put self.old.out.now self.old.at (none_line) self.new.out.now self.new.at }
    {
        self.put_all(b"N none\n");
    }

    /// `K 2`, `R 1`, `C 2`, `E 9`
    pub fn put_count(&mut self, letter: u8, n: u32)
        requires room { self.old.at + 13 ≤ length self.old.out.now }
        ensures same_reference { self.new.out.ghost_name ≡ self.old.out.ghost_name }
        ensures put { Put self.old.out.now self.old.at (count_line letter n) self.new.out.now self.new.at }
    {
        let out = &mut *self.out;
        let at = self.at;
        out[at] = letter;
        out[at + 1] = b' ';
        let a = put_decimal(out, at + 2, n);
        out[a] = b'\n';
        self.at = a + 1;
    }

    /// `2`, or `-` for noise
    pub fn put_label(&mut self, label: u32)
        requires room { self.old.at + 11 ≤ length self.old.out.now }
        ensures same_reference { self.new.out.ghost_name ≡ self.old.out.ghost_name }
        ensures put { Put self.old.out.now self.old.at (label_line label) self.new.out.now self.new.at }
    {
        if label == NOISE {
            self.put_all(b"-\n");
            return;
        }
        let out = &mut *self.out;
        let a = put_decimal(out, self.at, label);
        out[a] = b'\n';
        self.at = a + 1;
    }

    /// A line for each hit.
    pub fn put_hits(&mut self, indices: &[u32], distances: &[f64])
        requires { HitsFit self.old.out.now self.old.at indices.now distances.now (length indices.now) }
        ensures same_reference { self.new.out.ghost_name ≡ self.old.out.ghost_name }
        ensures put { Put self.old.out.now self.old.at (hit_lines (length indices.now) indices.now distances.now) self.new.out.now self.new.at }
    {
        for (&index, &distance) in indices.iter().zip(distances) {
            self.put_hit(index, distance);
        }
    }

    /// A line for each label.
    pub fn put_labels(&mut self, labels: &[u32])
        requires { LabelsFit self.old.out.now self.old.at labels.now (length labels.now) }
        ensures same_reference { self.new.out.ghost_name ≡ self.old.out.ghost_name }
        ensures put { Put self.old.out.now self.old.at (label_lines (length labels.now) labels.now) self.new.out.now self.new.at }
    {
        for &label in labels {
            self.put_label(label);
        }
    }
}
