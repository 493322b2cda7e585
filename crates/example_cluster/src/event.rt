//! What can happen in a cluster, and how often it does.

use rand::RngExt;
use rand_pcg::Pcg32;

/// Something that happens to the network or to one server.
#[derive(Clone, Copy, PartialEq, Eq)]
pub enum Event {
    /// A message arrives.
    Deliver,
    /// A message arrives, and will arrive again.
    Duplicate,
    /// A message is lost.
    Lose,
    /// The network is partitioned, or whole again.
    Partition,
    /// Time passes at a server.
    Tick,
    /// A client asks a server to append an entry.
    Propose,
    /// An operator asks a server for a membership change.
    Change,
    /// A server takes a snapshot, and purges all but the last entries in it.
    Compact,
    /// A server crashes and restarts.
    Restart,
}

/// How many of a hundred events are of each kind, while a cluster is put to the test.
pub const TROUBLE: [(Event, u64); 9] = [
    (Event::Deliver, 52),
    (Event::Duplicate, 3),
    (Event::Lose, 6),
    (Event::Partition, 1),
    (Event::Tick, 25),
    (Event::Propose, 5),
    (Event::Change, 5),
    (Event::Compact, 2),
    (Event::Restart, 1),
];

/// How many of a hundred events are of each kind, once the cluster is left alone.
pub const CALM: [(Event, u64); 2] = [(Event::Deliver, 75), (Event::Tick, 25)];

/// Returns a random event, as often as a table of a hundred events has it.
pub fn draw(table: &[(Event, u64)], random: &mut Pcg32) -> Event {
    let mut number = random.random_range(0..100u64);
    for (event, count) in table {
        if number < *count {
            return *event;
        }
        number -= *count;
    }
    Event::Tick
}
