// Bytes of a reader, read until they end or a buffer is full. Every byte behind those that came is the caller's old one, which
// no read promises of the buffer that it is given. So a read goes by way of an array of its own.
#![tactic(auto)]

ghost use Rattle.std.specs.Prelude.{◌≡◌, ◌+◌, ◌-◌, ◌<◌, ◌≤◌, length, take, drop, None, Some, IfOk, IfErr, OnErr};
ghost use Rattle.std.specs.Io.{ReadsAtMost};
ghost use Rattle.std.specs.Io.KnownBytes.{Consumes, IsAtEnd, Keeps, ReadConsumes};
ghost use Rattle.input.specs.Filled.{came, FilledFrom};
ghost use Rattle.input.specs.Known.{AllWhereSame, AllWhereShort};

use std::io;
use std::io::{ErrorKind, Read};

// A read that failed, and how many bytes had come before it.
// A reader's contract names no error, so no clause says which one this is.
#[derive(Clone, Copy, Debug)]
pub struct FillError {
    pub read: usize,
    pub error: io::Error,
}

// One read. A read that a signal interrupted is made again. A proved loop has to end, so the turns are counted, up to a
// number that no run uses up.
fn read_some<R: Read>(reader: &mut R, buf: &mut [u8]) -> io::Result<usize>
    ensures within { IfOk result (λ n. n ≤ length buf.old) }
    ensures bytes { IfOk result (λ n. Consumes (R.remaining reader.old) (R.remaining reader.new) (take n buf.new)) }
    ensures end { IfOk result (λ n. n ≡ 0 → 0 < length buf.old → IsAtEnd (R.remaining reader.new)) }
    ensures failed { OnErr result (Keeps (R.remaining reader.old) (R.remaining reader.new)) }
{
    for _ in 0..u64::MAX {
        match reader.read(buf) {
            Err(e) if e.kind() == ErrorKind::Interrupted => {}
            read => return read,
        }
    }
    Err(io::Error::from(ErrorKind::Interrupted))
}

// One read of bytes that are stored from a position on, by way of another buffer.
fn read_at<R: Read>(
    reader: &mut R,
    buf: &mut [u8],
    done: usize,
    chunk: &mut [u8],
) -> Result<usize, FillError>
    requires { done ≤ length buf.old }
    ensures filled { FilledFrom done result buf.old buf.new }
    ensures bytes { Consumes (R.remaining reader.old) (R.remaining reader.new) (take (came result - done) (drop done buf.new)) }
    ensures front { take done buf.new ≡ take done buf.old }
    ensures end { 0 < length chunk.old → done < length buf.old → AllWhereSame done result (R.remaining reader.new) }
{
    let want = (buf.len() - done).min(chunk.len());
    let more = read_some(reader, &mut chunk[..want]).map_err(|error| FillError {
        read: done,
        error,
    })?;
    let now = done + more;
    buf[done..now].copy_from_slice(&chunk[..more]);
    Ok(now)
}

// Short reads go on until the buffer is full, the input ends or a read fails. The answer says how many bytes came. A read moves
// on by as many bytes as came, so the loop is no range.
pub fn fill<R: Read>(reader: &mut R, buf: &mut [u8]) -> Result<usize, FillError>
    ensures within { came result ≤ length buf.old }
    ensures kept { drop (came result) buf.new ≡ drop (came result) buf.old }
    ensures bytes { Consumes (R.remaining reader.old) (R.remaining reader.new) (take (came result) buf.new) }
    ensures end { AllWhereShort result (length buf.old) (R.remaining reader.new) }
{
    let mut space = [0u8; 4096];
    let chunk: &mut [u8] = &mut space;
    let mut done = 0;
    while done < buf.len() {
        let now = read_at(reader, buf, done, chunk)?;
        if now == done {
            break;
        }
        done = now;
    }
    Ok(done)
}

// A reader that keeps the error of the last read that failed. An answer of `fill` has an error in it, and no clause says that it is
// the reader's; of this reader one says it, for a caller who has to know.
#[derive(Drop)]
pub struct Kept<R> {
    reader: R,
    error: Option<io::Error>,
}

impl<R> Kept<R> {
    // The reader, and no error yet.
    pub fn new(reader: R) -> Kept<R>
        ensures reader { result.reader ≡ reader }
        ensures error { result.error ≡ None }
    {
        Kept {
            reader,
            error: None,
        }
    }

    // The error of the last read that failed, or none.
    pub fn error(&self) -> Option<io::Error>
        ensures { result ≡ self.now.error }
    {
        self.error
    }
}

impl<R: Read> Read for Kept<R> {
    ghost remaining = { λ kept. R.remaining kept.reader };

    fn read(&mut self, buf: &mut [u8]) -> io::Result<usize>
        ensures bound { ReadsAtMost result buf.new }
        ensures bytes { ReadConsumes (R.remaining self.old.reader) (R.remaining self.new.reader) result buf.new }
        ensures error { IfErr result (λ e. self.new.error ≡ Some e) }
    {
        let read = self.reader.read(buf);
        if let Err(e) = &read {
            self.error = Some(*e);
        }
        read
    }
}
