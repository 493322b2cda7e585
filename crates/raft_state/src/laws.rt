//! Laws of logs. A caller that needs one in a proof calls its function, which does nothing.
ghost use Rattle.raft_state.specs.raft_state.Sending.{SendsFromLog};

/// Over a log that has all its log ids from the purge point on, a send puts in flight either the
/// logs from its start to its end, with the log ids of the log at both ends, or the snapshot. It
/// never puts nothing in flight.
///
/// A valid state whose purge point is in its log is such a log.
pub fn sends_from_log<C: Ord>()
    ensures { SendsFromLog C.cmp }
{}
