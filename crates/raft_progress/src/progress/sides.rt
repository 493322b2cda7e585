//! The voters of two configs among the ids of a progress, so that both configs can be counted.
ghost use Rattle.std.specs.Prelude.{◌≡◌, ◌≤◌, ◌<◌, ◌&&◌, ℕ, IfOk, count_by, false, length, max, nat_le, take};
ghost use Rattle.std.specs.Map.{keys_of};
ghost use Rattle.std.proofs.Common.{get_or};
ghost use Rattle.raft_progress.specs.Inner.Sides.{IsShortestWith, IsSideOf};

use std::alloc::{AllocError, Global};
use std::collections::BTreeSet;

/// The voters of one of two configs.
#[derive(Debug, PartialEq, Eq, Drop)]
pub(crate) struct Side {
    /// The least number of voters that are a majority of the config.
    need: usize,
    /// For each id of a progress, ascending, whether it is a voter of the config.
    has: Vec<bool>,
}

impl Side {
    /// Returns the voters of a config among sorted ids, or an allocation error.
    fn of<ID: Copy + Ord>(
        alloc: Global,
        sorted: &[(ID, usize)],
        config: &BTreeSet<ID>,
    ) -> Result<Self, AllocError>
        ensures { IfOk result (IsSideOf ID.eq config.now.keys (keys_of sorted.now)) }
    {
        let mut has: Vec<bool> = Vec::with_capacity(alloc, sorted.len())?;
        for entry in sorted {
            has.push(config.contains(&entry.0))?;
        }
        Ok(Side {
            need: config.len() / 2 + 1,
            has,
        })
    }

    /// Returns how many of the first ids have a majority of the config at least, and more than
    /// there are if even all have none. Ids are given by their ranks.
    #[inline(always)]
    fn majority_len(&self, ranks: &[usize]) -> usize
        requires needs_one { 1 ≤ self.now.need }
        requires within { (k : ℕ) → k < length ranks.now →
            get_or ranks.now k 0 < length self.now.has.items }
        ensures { IsShortestWith (λ r. get_or self.now.has.items r false) self.now.need
            ranks.now result }
    {
        let mut found = 0;
        for position in 0..ranks.len() {
            found += usize::from(self.has[ranks[position]]);
            if found == self.need {
                return position + 1;
            }
        }
        ranks.len() + 1
    }
}

/// The voters of each of two configs.
#[derive(Debug, PartialEq, Eq, Drop)]
pub(crate) struct Sides {
    first: Side,
    second: Side,
}

impl Sides {
    /// Returns the voters of two configs among sorted ids, or an allocation error.
    pub(crate) fn of_two<ID: Copy + Ord>(
        alloc: Global,
        sorted: &[(ID, usize)],
        first: &BTreeSet<ID>,
        second: &BTreeSet<ID>,
    ) -> Result<Self, AllocError>
        ensures first { IfOk result (λ sides.
            IsSideOf ID.eq first.now.keys (keys_of sorted.now) sides.first) }
        ensures second { IfOk result (λ sides.
            IsSideOf ID.eq second.now.keys (keys_of sorted.now) sides.second) }
    {
        let first = Side::of(alloc, sorted, first)?;
        let second = Side::of(alloc, sorted, second)?;
        Ok(Sides { first, second })
    }

    /// Returns the greater number of voters that a majority of a config has at least.
    #[inline(always)]
    pub(crate) fn least_size(&self) -> usize
        ensures { result ≡ max self.now.first.need self.now.second.need }
    {
        self.first.need.max(self.second.need)
    }

    /// Returns how many of the first ids have a majority of each config at least, and more than
    /// there are if even all have none. Ids are given by their ranks.
    #[inline(always)]
    pub(crate) fn quorum_len(&self, ranks: &[usize]) -> usize
        requires first_needs_one { 1 ≤ self.now.first.need }
        requires second_needs_one { 1 ≤ self.now.second.need }
        requires within_first { (k : ℕ) → k < length ranks.now →
            get_or ranks.now k 0 < length self.now.first.has.items }
        requires within_second { (k : ℕ) → k < length ranks.now →
            get_or ranks.now k 0 < length self.now.second.has.items }
        ensures { (k : ℕ) → k ≤ length ranks.now →
            (nat_le self.now.first.need
            (count_by (λ r. get_or self.now.first.has.items r false) (take k ranks.now))
            && nat_le self.now.second.need
            (count_by (λ r. get_or self.now.second.has.items r false) (take k ranks.now)))
            ≡ nat_le result k }
    {
        let of_first = self.first.majority_len(ranks);
        let of_second = self.second.majority_len(ranks);
        of_first.max(of_second)
    }
}
