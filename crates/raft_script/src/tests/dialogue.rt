//! Input and output: readers and writers that fail, and cut scripts.

use crate::script::run;
use crate::tests::support::{REPLIES, SCRIPT};
use std::alloc::Global;
use std::io::{self, Read, Write};
use std::process::Abort;
use std::test::Fail;

/// Returns its text a few bytes a read, and fails at the read numbered `bad`.
#[derive(Drop)]
struct FailingReader<'a> {
    text: &'a [u8],
    reads: u64,
    bad: u64,
}

impl Read for FailingReader<'_> {
    fn read(&mut self, buf: &mut [u8]) -> io::Result<usize> {
        self.reads = self.reads.saturating_add(1);
        if self.reads == self.bad {
            return Err(io::Error::from(io::ErrorKind::BrokenPipe));
        }
        let n = self.text.len().min(buf.len()).min(7);
        buf[..n].copy_from_slice(&self.text[..n]);
        self.text = &self.text[n..];
        Ok(n)
    }
}

/// Takes a few bytes a write, and fails from the write numbered `bad` on.
#[derive(Drop)]
struct FailingWriter {
    text: Vec<u8>,
    writes: u64,
    bad: u64,
}

impl Write for FailingWriter {
    fn write(&mut self, buf: &[u8]) -> io::Result<usize> {
        self.writes = self.writes.saturating_add(1);
        if self.writes >= self.bad {
            return Err(io::Error::from(io::ErrorKind::BrokenPipe));
        }
        let n = buf.len().min(7);
        self.text.extend_from_slice(&buf[..n])?;
        Ok(n)
    }

    fn flush(&mut self) -> io::Result<()> {
        Ok(())
    }
}

/// Returns the number of line feeds before the last bytes of a text.
fn line_feeds(text: &[u8], left: usize) -> usize {
    let mut count = 0usize;
    for byte in text.iter().take(text.len().saturating_sub(left)) {
        if *byte == b'\n' {
            count = count.saturating_add(1);
        }
    }
    count
}

/// Returns the replies to the first lines of the script. The first line has none.
fn replies_to(lines: usize) -> &'static [u8] {
    let mut end = 0;
    let mut left = lines.saturating_sub(1);
    for i in 0..REPLIES.len() {
        if left > 0 && REPLIES[i] == b'\n' {
            end = i + 1;
            left -= 1;
        }
    }
    if end <= REPLIES.len() {
        &REPLIES[..end]
    } else {
        REPLIES
    }
}

/// Runs the script with a reader that fails at a read. Returns whether that read was reached.
fn assert_read_fault<R: Abort>(rt: &R, alloc: Global, bad: u64) -> bool {
    let mut out = Vec::new(alloc);
    let mut reader = FailingReader {
        text: SCRIPT,
        reads: 0,
        bad,
    };
    let status = run(alloc, &mut reader, &mut out);
    if reader.reads < bad {
        assert_eq!(rt; status, 2, "at {bad}");
        assert_eq!(rt; out.as_slice(), REPLIES, "at {bad}");
        return false;
    }
    assert_eq!(rt; status, 1, "at {bad}");
    let due = line_feeds(SCRIPT, reader.text.len());
    assert_eq!(rt; out.as_slice(), replies_to(due), "at {bad}");
    true
}

/// Example script 5. A read that fails, at each turn.
#[test]
fn tells_of_a_failing_reader(rt: HostRuntime) {
    let mut faults = 0;
    for bad in 1..40 {
        if assert_read_fault(&rt, rt.alloc(), bad) {
            faults = bad;
        }
    }
    assert!(rt; faults > 10);
}

/// Runs the script with a writer that fails from a write on. Returns whether that write was
/// reached.
fn assert_write_fault<R: Abort>(rt: &R, alloc: Global, bad: u64) -> bool {
    let mut writer = FailingWriter {
        text: Vec::new(alloc),
        writes: 0,
        bad,
    };
    let status = run(alloc, SCRIPT, &mut writer);
    if writer.writes < bad {
        assert_eq!(rt; status, 2, "at {bad}");
        assert_eq!(rt; writer.text.as_slice(), REPLIES, "at {bad}");
        return false;
    }
    assert_eq!(rt; status, 1, "at {bad}");
    assert!(rt; REPLIES.starts_with(writer.text.as_slice()), "at {bad}");
    true
}

/// Example script 5. A write that fails, at each turn.
#[test]
fn tells_of_a_failing_writer(rt: HostRuntime) {
    let mut faults = 0;
    for bad in 1..40 {
        if assert_write_fault(&rt, rt.alloc(), bad) {
            faults = bad;
        }
    }
    assert!(rt; faults > 5);
}

/// Runs a beginning of the script. Returns whether its whole lines have their replies, and a line
/// that is cut inside is a bad line: each line ends in a word of one byte.
fn answers_cut(alloc: Global, text: &[u8], rest: &[u8]) -> Result<bool, Fail> {
    let mut out = Vec::new(alloc);
    let status = run(alloc, text, &mut out);
    let lines = line_feeds(text, 0);
    if text.is_empty() || text.ends_with(b"\n") {
        return Ok(status == 0 && out.as_slice() == replies_to(lines));
    }
    let cut = lines.saturating_add(1);
    if rest.starts_with(b"\n") {
        return Ok(status == 0 && out.as_slice() == replies_to(cut));
    }
    let mut replies = replies_to(lines).to_vec(alloc)?;
    writeln!(replies, "bad line {cut}")?;
    Ok(status == 2 && out == replies)
}

/// Example script 5. The twelve lines, ended after each byte.
#[test]
fn answers_a_cut_script(rt: HostRuntime) -> Result<(), Fail> {
    for cut in 0..=SCRIPT.len() {
        let (text, rest) = SCRIPT.split_at(cut);
        assert!(rt; answers_cut(rt.alloc(), text, rest)?, "at {cut}");
    }
    Ok(())
}
