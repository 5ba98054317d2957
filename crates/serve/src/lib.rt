//! The station's loop: records from any reader, in whatever pieces they come, and their lines to any writer, in fixed
//! buffers. Bytes that are no whole record yet wait at the front of the input for the next read.
#![tactic(auto)]

ghost use Rattle.std.specs.Prelude.{◌≡◌, ◌^◌, ◌<◌, ◌≤◌, ℕ, [], List, eqb, length, drop, IfOk, OnOk, IfSome};
ghost use Rattle.std.specs.Io.KnownBytes.{Appends};
ghost use Rattle.stream.specs.Stream.{Output};
ghost use Rattle.serve.specs.Waiting.{longest_record};
ghost use Rattle.stream.specs.Feeding.{longest};
ghost use Rattle.serve.specs.Serving.{Came, Turned, Spends, EndsSoon};

use std::io;
use std::io::{Read, Write};
use std::marker::Model;
use stream::{Map, Stop};

// How many bytes are read and written at a time.
const BUFFER: usize = 65536;

// The bytes `used..have` of a buffer: they came, and are still to be taken.
// Kept: a slice and two places: the memory is fixed.
#[derive(Debug, Drop)]
struct Input<'a> {
    bytes: &'a mut [u8],
    used: usize,
    have: usize,
}

impl<'a> Model for Input<'a> {
    ghost use Rattle.std.specs.Prelude.{ℕ, List, length};
    ghost use Rattle.serve.specs.Waiting.{held, Good};

    ghost Value = { List ℕ };

    ghost view = { λ i. held i.used i.have i.bytes.now };

    ghost invariant = { λ i. Good (length i.bytes.now) i.used i.have };
}

impl<'a> Input<'a> {
    fn new(bytes: &'a mut [u8]) -> Self
        requires room { longest_record ≤ length bytes.old }
        ensures none { result ≡ [] }
    {
        Input {
            bytes,
            used: 0,
            have: 0,
        }
    }

    fn rest(&self) -> &[u8]
        ensures { result.now ≡ self.now }
    {
        &self.bytes[self.used..self.have]
    }

    fn is_empty(&self) -> bool
        ensures { result ≡ eqb (length self.now) 0 }
    {
        self.used == self.have
    }

    // So many bytes are taken.
    fn advance(&mut self, count: usize)
        requires { count ≤ length self.old }
        ensures { self.new ≡ drop count self.old }
    {
        self.used += count;
    }

    // What is left goes to the front, and one read comes after it. Answers how many bytes came: none where the reader ends.
    fn refill<R: Read>(&mut self, reader: &mut R) -> io::Result<usize>
        requires room { length self.old < longest_record }
        ensures came { IfOk result (Came (R.remaining reader.old) (R.remaining reader.new) self.old self.new) }
    {
        let (used, have) = (self.used, self.have);
        self.bytes.copy_within(used..have, 0);
        let rest = have - used;
        self.used = 0;
        self.have = rest;
        let got = reader.read(&mut self.bytes[rest..])?;
        self.have = rest + got;
        Ok(got)
    }
}

// Takes what is whole in the input, writes its lines, and reads on where it wants more; whether the stream goes on. At the
// end of all input a record that is left is cut: the stream ends by 10.
fn turn<R: Read, W: Write>(
    input: &mut Input,
    map: &mut Map,
    out: &mut [u8],
    reader: &mut R,
    writer: &mut W,
) -> io::Result<bool>
    requires room { longest ≤ length out.old }
    ensures turned { IfOk result (Turned (R.remaining reader.old) (R.remaining reader.new) (W.contents writer.old) (W.contents writer.new) map.old.points input.old map.new.points input.new) }
    ensures spends { IfOk result (Spends (R.remaining reader.old) (R.remaining reader.new) input.old input.new) }
{
    let fed = stream::feed(input.rest(), 0, map, out);
    writer.write_all(&out[..fed.wrote])?;
    input.advance(fed.used);
    match fed.stop {
        Stop::Full => Ok(true),
        Stop::Done => Ok(false),
        Stop::Hungry => {
            if input.refill(reader)? > 0 {
                return Ok(true);
            }
            if !input.is_empty() {
                writer.write_all(b"E 10\n")?;
            }
            Ok(false)
        }
    }
}

// Nothing says that a reader ends, so the turns are counted, up to a number that no run uses up: each that goes on takes a
// byte at least from what waits, or from the reader.
fn drive<R: Read, W: Write>(
    input: &mut Input,
    map: &mut Map,
    out: &mut [u8],
    reader: &mut R,
    writer: &mut W,
) -> io::Result<()>
    requires room { longest ≤ length out.old }
    ensures { OnOk result (EndsSoon (R.remaining reader.old) (W.contents writer.old) (W.contents writer.new) map.old.points input.old) }
{
    for _turn in 0..u64::MAX {
        if !turn(input, map, out, reader, writer)? {
            return Ok(());
        }
    }
    Ok(())
}

/// Serves the reader until it ends or the stream does. What is appended to the writer is what all that the reader had
/// prints, in whatever pieces it comes, and nothing else. An error is the reader's or the writer's, and ends the run.
/// Nothing is said of a reader that has 2^63 bytes or more, or of one whose bytes are not known.
pub fn run<R: Read, W: Write>(reader: &mut R, writer: &mut W) -> io::Result<()>
    ensures printed { OnOk result (IfSome (R.remaining reader.old) (λ bytes. length bytes < 2 ^ 63 → (text : List ℕ) × Output [] bytes text × Appends (W.contents writer.old) (W.contents writer.new) text)) }
{
    let mut points = [0.0f64; stream::COORDINATES];
    let mut indices = [0u32; stream::MAX_POINTS];
    let mut boxes = [0.0f64; stream::BOXES];
    let mut links = [0u32; stream::LINKS];
    let mut bytes = [0u8; BUFFER];
    let mut out = [0u8; BUFFER];
    let mut map = Map::new(&mut points, &mut indices, &mut boxes, &mut links);
    let mut input = Input::new(&mut bytes);
    drive(&mut input, &mut map, &mut out, reader, writer)
}
