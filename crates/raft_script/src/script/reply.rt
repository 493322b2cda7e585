//! The text of a reply.
ghost use Rattle.std.specs.Prelude.{OnOk};
ghost use Rattle.std.specs.Io.KnownBytes.{Appends};
ghost use Rattle.raft_script.specs.ReplyText.{bad_line_text, reply_text};

use raft_progress::progress::Reply;
use std::io::{self, Write};

/// Writes a reply and a line feed.
pub fn write<W: Write>(writer: &mut W, reply: &Reply<u64, u64>) -> io::Result<()>
    ensures { OnOk result
        (Appends (W.contents writer.old) (W.contents writer.new) (reply_text reply.now)) }
{
    match reply {
        Reply::Granted(part) => writeln!(writer, "granted {part}"),
        Reply::Unknown(part) => writeln!(writer, "unknown {part}"),
        Reply::WouldFall => writer.write_all(b"would-fall\n"),
        Reply::Refused(Some(id)) => writeln!(writer, "refused no-node {id}"),
        Reply::Refused(None) => writer.write_all(b"refused empty\n"),
        Reply::BelowDefault(id) => writeln!(writer, "below-default {id}"),
        // A change of a membership never has this reply, because its learners fit its configs.
        Reply::BadLearners => writer.write_all(b"bad-learners\n"),
        Reply::OutOfMemory => writer.write_all(b"no-memory\n"),
    }
}

/// Writes that the line with a number cannot be run, and a line feed.
pub fn write_bad_line<W: Write>(writer: &mut W, number: u64) -> io::Result<()>
    ensures { OnOk result
        (Appends (W.contents writer.old) (W.contents writer.new) (bad_line_text number)) }
{
    writeln!(writer, "bad line {number}")
}
