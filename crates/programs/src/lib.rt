// What the three programs share: they read standard input whole, and print on standard output what is made of it. Memory is
// fixed: what is read and what is printed stand in arrays.
#![tactic(auto)]

ghost use Rattle.std.specs.Prelude.{◌≡◌, ◌+◌, ◌^◌, ◌≤◌, ◌<◌, [], List, ℕ, length, take, None, Some, IfOk, IfErr};
ghost use Rattle.std.specs.Io.KnownBytes.{Appends, Consumes, IsAtEnd};
ghost use Rattle.programs.specs.declared.Failed.{Failed};
ghost use Rattle.programs.specs.Outcome.{MatchFailed};

use input::{FillError, Kept};
use std::io::{Read, Write};
use std::marker::Model;
use std::{fmt, io};

// "at most 17,189 bytes of standard input"
pub const LIMIT: usize = 17189;

// The bytes at the front of an array.
#[derive(Drop)]
pub struct Front<const N: usize> {
    bytes: [u8; N],
    len: usize,
}

impl<const N: usize> Model for Front<N> {
    ghost Value = { List ℕ };

    ghost view = { λ f. take f.len f.bytes };

    ghost invariant = { λ f. f.len ≤ length f.bytes };
}

impl<const N: usize> Front<N> {
    // The first bytes of an array, or all where there are fewer.
    pub fn new(bytes: [u8; N], len: usize) -> Front<N>
        ensures { result ≡ take len bytes.entry }
    {
        Front {
            bytes,
            len: len.min(N),
        }
    }

    // No bytes.
    fn empty() -> Front<N>
        ensures { result ≡ [] }
    {
        Front {
            bytes: [0u8; N],
            len: 0,
        }
    }

    // All that a reader has left, or as much as fits, read into the array where it lies.
    fn fill<R: Read>(&mut self, reader: &mut R) -> Result<(), FillError>
        ensures bytes { IfOk result (λ _. Consumes (R.remaining reader.old) (R.remaining reader.new) self.new) }
        ensures end { IfOk result (λ _. length self.new < N → IsAtEnd (R.remaining reader.new)) }
        ensures failed { IfErr result (λ e. (came : List ℕ) × (length came ≡ e.read)
            × Consumes (R.remaining reader.old) (R.remaining reader.new) came) }
        ensures within { IfErr result (λ e. e.read ≤ N) }
    {
        self.len = input::fill(reader, &mut self.bytes)?;
        Ok(())
    }

    // All that a reader has left, or as much as fits.
    pub fn read<R: Read>(reader: &mut R) -> Result<Front<N>, FillError>
        ensures bytes { IfOk result (λ front. Consumes (R.remaining reader.old) (R.remaining reader.new) front) }
        ensures end { IfOk result (λ front. length front < N → IsAtEnd (R.remaining reader.new)) }
        ensures failed { IfErr result (λ e. (came : List ℕ) × (length came ≡ e.read)
            × Consumes (R.remaining reader.old) (R.remaining reader.new) came) }
        ensures within { IfErr result (λ e. e.read ≤ N) }
    {
        let mut front = Front::empty();
        front.fill(reader)?;
        Ok(front)
    }

    // The bytes themselves.
    pub fn as_bytes(&self) -> &[u8]
        ensures value { result.now ≡ self.now }
        ensures within { length result.now ≤ N }
    {
        &self.bytes[..self.len]
    }
}

// What went wrong: a read, or a write.
#[derive(Clone, Copy, Debug, Drop)]
pub enum Failed {
    Input(io::Error),
    Output(io::Error),
}

impl Failed {
    // What went wrong, with the error that the reader kept. A reader's contract names no error, so of the one that comes with an
    // answer no clause says that it is the read's; of the one that `input::Kept` keeps, its contract says so.
    pub fn as_kept<R>(self, reader: &Kept<R>) -> Failed
        ensures kept { (e : _) → reader.now.error ≡ Some e → MatchFailed self (result ≡ Failed.Input e) (result ≡ self) }
        ensures none { reader.now.error ≡ None → result ≡ self }
    {
        match (self, reader.error()) {
            (Failed::Input(_), Some(e)) => Failed::Input(e),
            _ => self,
        }
    }
}

// A read's error, which says nothing of how much had come.
impl From<FillError> for Failed {
    ghost from_gives = { λ x y. y ≡ Failed.Input x.error };

    fn from(x: FillError) -> Failed {
        Failed::Input(x.error)
    }
}

// The message is the stream's name and the system's message.
impl fmt::Display for Failed {
    fn fmt<W: fmt::Write>(&self, f: &mut fmt::Formatter<W>) -> fmt::Result {
        match self {
            Failed::Input(e) => write!(f, "standard input: {e}"),
            Failed::Output(e) => write!(f, "standard output: {e}"),
        }
    }
}

// What a program prints, at most OUT bytes, of what it reads, at most the first IN bytes of its input.
pub trait Program<const IN: usize, const OUT: usize> {
    // How many bytes of its input it takes at most, and what it prints of them.
    ghost takes: { ℕ };

    ghost printed: { List ℕ → List ℕ };

    fn answer(input: &Front<IN>) -> Front<OUT>
        ensures { result ≡ printed input.now };

    // The array that is read into has that many bytes.
    ghost limit: { IN ≡ takes };

    // The two arrays have room in memory.
    ghost room: { IN + OUT < 2 ^ 62 };
}

// Reads to the end or as much as fits, and writes what the program prints of it. Where a read fails nothing is written. Where a
// write fails the input is read, and how much of the output came through is not known.
pub fn run<P: Program<IN, OUT>, R: Read, W: Write, const IN: usize, const OUT: usize>(
    reader: &mut R,
    writer: &mut W,
) -> Result<(), Failed>
    ensures done { IfOk result (λ _. (read : List ℕ) × Consumes (R.remaining reader.old) (R.remaining reader.new) read
        × (length read < IN → IsAtEnd (R.remaining reader.new))
        × Appends (W.contents writer.old) (W.contents writer.new) (P.printed read)) }
    ensures failed { IfErr result (λ e. MatchFailed e
        ((writer.new ≡ writer.old) × ((came : List ℕ) × (length came ≤ IN)
        × Consumes (R.remaining reader.old) (R.remaining reader.new) came))
        ((read : List ℕ) × Consumes (R.remaining reader.old) (R.remaining reader.new) read
        × (length read < IN → IsAtEnd (R.remaining reader.new)))) }
{
    let mut input = Front::empty();
    input.fill(reader)?;
    let printed = P::answer(&input);
    writer.write_all(printed.as_bytes()).map_err(Failed::Output)
}
