// Reading and writing of whole contents: the end is told from an error, a call that a signal cut off is made again, and
// what a call left over is read or written by the next. The reader decides what a read brings and the writer how much a write takes. Of those that say which bytes they have left or hold,
// as readers and writers over memory do, it is known which bytes went where; a file, a terminal and a pipe say nothing, so of them counts alone are known, the bytes of a buffer
// that was read into are left open, those behind the count too, and which of the answers comes.
#![tactic(auto)]

ghost use Rattle.std.specs.Prelude.{◌≡◌, ◌≤◌, ◌<◌, IfErr, IfOk, IsOk, MatchResult, length, take};
ghost use Rattle.std.specs.Io.KnownBytes.{Appends, ReadConsumes, WriteAppends};
ghost use Rattle.streams.specs.Moved.{Wrote, contents_moved};
ghost use Rattle.streams.specs.declared.Unread.TheVariants.{Failed};

use std::io::{ErrorKind, Read, Write};
use std::path::AsPath;
use std::rt::Files;
use std::{fs, io};

// Why contents were not read to their end.
#[derive(Clone, Copy)]
pub enum Unread {
    TooLong,
    Failed(io::Error),
}

impl From<io::Error> for Unread {
    ghost from_gives = { λ e unread. unread ≡ Failed e };

    fn from(e: io::Error) -> Unread {
        Unread::Failed(e)
    }
}

// How many bytes were taken before a write failed.
#[derive(Clone, Copy)]
pub struct Unwritten {
    pub taken: usize,
}

// Reads once, and again while a signal cuts the read off before it moved a byte. A count is within buf, and 0 is the end, where there is room; of a reader that does not say what it has left, all of buf is left open.
pub fn read_some<R: Read>(reader: &mut R, buf: &mut [u8]) -> io::Result<usize>
    ensures within { IfOk result (λ n. n ≤ length buf.new) }
    ensures moved { ReadConsumes (R.remaining reader.old) (R.remaining reader.new) result buf.new }
{
    for _ in 0..u64::MAX {
        match reader.read(buf) {
            Err(e) if e.kind() == ErrorKind::Interrupted => {}
            done => return done,
        }
    }
    Err(io::Error::from(ErrorKind::Interrupted))
}

// Reads to the end into buf, which is one byte longer than what may come. A count is within buf; of a reader that does not say what it has left, all of buf is left open.
pub fn read_to_end<R: Read>(reader: &mut R, buf: &mut [u8]) -> Result<usize, Unread>
    ensures within { IfOk result (λ n. n ≤ length buf.new) }
    ensures moved { contents_moved (R.remaining reader.old) (R.remaining reader.new) result buf.new }
{
    let mut done = 0;
    while done < buf.len() {
        let n = read_some(reader, &mut buf[done..])?;
        if n == 0 {
            return Ok(done);
        }
        done += n;
    }
    Err(Unread::TooLong)
}

// Reads the file at path into buf, which is one byte longer than what may come. A count is within buf; all of buf is left open.
pub fn read_file<F: Files, P: AsPath>(files: &F, path: P, buf: &mut [u8]) -> Result<usize, Unread>
    ensures { IfOk result (λ n. n ≤ length buf.new) }
{
    let mut file = fs::open(files, path)?;
    read_to_end(&mut file, buf)
}

// Writes once, and again while a signal cuts the write off before it took a byte.
fn write_some<W: Write>(writer: &mut W, buf: &[u8]) -> io::Result<usize>
    ensures within { IfOk result (λ n. n ≤ length buf.now) }
    ensures moved { WriteAppends (W.contents writer.old) (W.contents writer.new) result buf.now }
{
    for _ in 0..u64::MAX {
        match writer.write(buf) {
            Err(e) if e.kind() == ErrorKind::Interrupted => {}
            done => return done,
        }
    }
    Err(io::Error::from(ErrorKind::Interrupted))
}

// Writes buf from its first byte on, until all is written or a write fails or takes nothing: then the error says how many bytes of it the writes took, and these they took.
// Whether all is written, and how many bytes are taken where not, is left open.
pub fn write_all<W: Write>(writer: &mut W, buf: &[u8]) -> Result<(), Unwritten>
    ensures within { IfErr result (λ e. e.taken < length buf.now) }
    ensures moved { MatchResult result (λ _. Appends (W.contents writer.old) (W.contents writer.new) buf.now) (λ e. Appends (W.contents writer.old) (W.contents writer.new) (take e.taken buf.now)) }
    ensures wrote { Wrote (W.contents writer.old) (W.contents writer.new) buf.now (IsOk result) }
{
    let mut done = 0;
    while done < buf.len() {
        match write_some(writer, &buf[done..]) {
            Err(_) | Ok(0) => return Err(Unwritten { taken: done }),
            Ok(n) => done += n,
        }
    }
    Ok(())
}
