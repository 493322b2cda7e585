//! The input and the output of a program that may be used interactively.
ghost use Rattle.std.specs.Prelude.{◌≡◌, ◌⊎◌, [], false, IfOk, OnErr, OnOk};
ghost use Rattle.std.specs.Io.Buffered.{reader_buffer};
ghost use Rattle.std.specs.Io.KnownBytes.{Keeps, append_known};
ghost use Rattle.trace_lines.specs.Lines.{TakesLine};
ghost use Rattle.raft_script.specs.Input.{TakesPart, contents, has_line_feed, unread};

use std::alloc::Global;
use std::io::{self, BufReader, ErrorKind, Read, Write};
use trace_lines::read_line;

/// The capacity of the buffers for input that is read ahead, and for replies that are not yet
/// written.
const BUFFER_SIZE: usize = 65536;

/// Replies are written at the latest when they have this many bytes. One reply has fewer bytes than
/// that, so the buffer never grows.
const MOST_HELD_BACK: usize = BUFFER_SIZE / 2;

/// An input, with the replies to what was read.
///
/// Replies are held back and written together, but each of them before more input is waited for.
// The writer is lent to each call. No contract of std says that a `BufWriter` keeps the reference
// from which it is made, so at the end nothing would be known about the contents of the writer
// behind it.
#[derive(Drop)]
pub struct Dialogue<R> {
    pub input: BufReader<R>,
    pub replies: Vec<u8>,
}

impl<R: Read> Dialogue<R> {
    /// Returns a dialogue in which nothing is read or written yet.
    pub fn new(alloc: Global, reader: R) -> io::Result<Dialogue<R>>
    where
        R: Drop,
        ensures unread { IfOk result (λ new. Keeps (R.remaining reader) (unread R.remaining new)) }
        ensures silent { IfOk result (λ new. new.replies.items ≡ []) }
    {
        let replies = Vec::with_capacity(alloc, BUFFER_SIZE)?;
        let input = BufReader::with_capacity(alloc, BUFFER_SIZE, reader)?;
        Ok(Dialogue { input, replies })
    }

    /// Reads a line without its line feed. Returns whether it is the last one.
    pub fn read_line<W: Write>(&mut self, line: &mut Vec<u8>, writer: &mut W) -> io::Result<bool>
        ensures line { IfOk result (λ is_last. TakesLine
            (unread R.remaining self.old) line.new.items is_last (unread R.remaining self.new)) }
        ensures none_lost { OnErr result
            (TakesPart (unread R.remaining self.old) (unread R.remaining self.new)) }
        ensures contents { Keeps (contents (W.contents writer.old) self.old)
            (contents (W.contents writer.new) self.new) }
        ensures nothing_held_back { OnOk result (has_line_feed
            (reader_buffer self.old.input) ≡ false
            → self.new.replies.items ≡ []) }
        ensures written_first { OnErr result (has_line_feed
            (reader_buffer self.old.input) ≡ false
            → (self.new.replies.items ≡ []) ⊎ (self.new.input ≡ self.old.input)) }
    {
        // If no whole line has been read ahead, more input is waited for.
        if self.replies.len() >= MOST_HELD_BACK || !self.input.buffer().contains(&b'\n') {
            write_out(&mut self.replies, writer)?;
        }
        read_line(&mut self.input, line)
    }
}

/// Writes the bytes, and removes those that are written: all of them, unless a write fails.
pub fn write_out<W: Write>(bytes: &mut Vec<u8>, writer: &mut W) -> io::Result<()>
    ensures contents { Keeps (append_known (W.contents writer.old) bytes.old.items)
        (append_known (W.contents writer.new) bytes.new.items) }
    ensures ok { OnOk result (bytes.new.items ≡ []) }
{
    for _ in 0..u64::MAX {
        if bytes.is_empty() {
            return writer.flush();
        }
        match writer.write(bytes) {
            Ok(0) => return Err(io::Error::from(ErrorKind::WriteZero)),
            Ok(written) => {
                bytes.drain(..written);
            }
            Err(error) if error.kind() == ErrorKind::Interrupted => {}
            Err(error) => return Err(error),
        }
    }
    Err(io::Error::from(ErrorKind::Interrupted))
}
