//! The network: it loses, duplicates, reorders and delays messages, and it may be partitioned.

use crate::deed::News;
use crate::message::{Content, Message};
use rand::RngExt;
use rand_pcg::Pcg32;
use std::alloc::Global;

/// How many events a message may be on its way. A message that is older is lost.
const MAX_AGE: u64 = 200;

/// The messages that are on their way, and the partition.
#[derive(Drop)]
pub struct Network {
    messages: Vec<Message>,
    /// Whether each server is cut off. Servers reach each other if both are, or neither.
    cut_off: [bool; 5],
}

impl Network {
    /// Returns a network that is whole and has no message on its way.
    pub fn new(alloc: Global) -> Self {
        Network {
            messages: Vec::new(alloc),
            cut_off: [false; 5],
        }
    }

    /// Sends a message. It is lost if there is no memory for it.
    pub fn send(&mut self, from: u64, to: u64, sent: u64, content: Content) {
        let message = Message {
            from,
            to,
            sent,
            content,
        };
        let _ = self.messages.push(message);
    }

    /// Takes a random message from the network: it arrives, or it is lost.
    pub fn take(&mut self, random: &mut Pcg32) -> Option<Message> {
        if self.messages.is_empty() {
            return None;
        }
        let place = random.random_range(0..self.messages.len());
        Some(self.messages.swap_remove(place))
    }

    /// Loses the messages that are too old.
    pub fn lose_old(&mut self, now: u64) {
        self.messages
            .retain(|message| message.sent.saturating_add(MAX_AGE) >= now);
    }

    /// Whether a server is cut off.
    pub fn is_cut_off(&self, id: u64) -> bool {
        self.cut_off.get(id.saturating_sub(1) as usize) == Some(&true)
    }

    /// Whether messages of one server reach another.
    pub fn reaches(&self, from: u64, to: u64) -> bool {
        self.is_cut_off(from) == self.is_cut_off(to)
    }

    /// Partitions the network, or mends it if it is partitioned. Returns what has happened.
    pub fn toggle_partition(&mut self, random: &mut Pcg32) -> News {
        if self.cut_off.contains(&true) {
            self.mend();
            return News::Heals;
        }
        // One bit for each server, and not all bits are equal.
        let mut bits = random.random_range(1..31u64);
        for is_cut_off in &mut self.cut_off {
            *is_cut_off = bits % 2 == 1;
            bits /= 2;
        }
        News::Splits
    }

    /// Ends the partition, if there is one.
    pub fn mend(&mut self) {
        self.cut_off = [false; 5];
    }
}
