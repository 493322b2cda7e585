//! What has a log id, and callers that read and set it.
ghost use Rattle.std.specs.Prelude.{◌≡◌};

use crate::asserts::assert_row;
use raft_base::{LeaderId, LogId, RaftLogId};

/// A log entry.
#[derive(Clone, Copy)]
struct Entry {
    log_id: LogId<u64>,
    payload: u64,
}

impl RaftLogId<LeaderId<u64>> for Entry {
    ghost use Rattle.std.specs.Prelude.{refl};

    ghost id_of = { λ e. e.log_id };

    ghost with_id = { λ e id. record e { log_id = id } };

    fn get_log_id(&self) -> &LogId<u64> {
        &self.log_id
    }

    fn set_log_id(&mut self, log_id: &LogId<u64>) {
        self.log_id = *log_id;
    }

    ghost has_id = { λ e id. refl };

    ghost own_id = { λ e. refl };

    ghost last_id = { λ e id next. refl };
}

/// Gives one value the log id of another.
fn renumber<C, A: RaftLogId<C>, B: RaftLogId<C>>(to: &mut A, from: &B)
    ensures { to.new ≡ A.with_id to.old (B.id_of from.now) }
{
    to.set_log_id(from.get_log_id());
}

fn payload_stays(entry: &mut Entry, id: LogId<u64>)
    ensures { entry.new ≡ record entry.old { log_id = id } }
{
    renumber(entry, &id);
}

/// Whether an entry that is given a log id has it, and the payload that it had.
fn is_renumbered(id: LogId<u64>) -> bool {
    let mut entry = Entry {
        log_id: LogId::default(),
        payload: 5,
    };
    payload_stays(&mut entry, id);
    (*entry.get_log_id(), entry.payload) == (id, 5)
}

#[test]
fn an_entry_is_renumbered(rt: HostRuntime) {
    let id = LogId::new(LeaderId::new(1, 2u64), 3);
    assert_row(&rt, "an entry", is_renumbered(id));
}
