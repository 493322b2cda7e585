//! All logs, as a tree of entries.
ghost use Rattle.std.specs.Prelude.{◌≡◌, ◌||◌, ◌++◌, ◌∷◌, [], OnErr, OnOk};
ghost use Rattle.std.specs.BTreeMap.{is_at};
ghost use Rattle.std.specs.List.{list_any};

use super::node::{Node, same_entry};
use crate::entry::Entry;
use std::alloc::{AllocError, Global};
use std::collections::BTreeSet;
use std::marker::Model;

/// The logs of servers and leaders. Logs that begin with the same entries share them.
///
/// A log is a number. Log 0 is empty, and each other log is an earlier log, its parent, and one
/// entry more. No two logs are equal. A number that is no log's stands for the empty log.
#[derive(Drop)]
pub struct Logs<T, D: Ord> {
    nodes: Vec<Node<T, D>>,
    /// The contents of all entries.
    contents: BTreeSet<D>,
}

impl<T, D: Ord> Model for Logs<T, D> {
    ghost use Rattle.trace_checker.specs.Inner.Logs.{AllLogs};
    ghost use Rattle.trace_checker.specs.Inner.Nodes.{AreContents, AreNodes, logs_of};

    ghost Value = { AllLogs T D };

    ghost view = { λ t. logs_of t.nodes.items };

    ghost invariant = { λ t. AreNodes t.nodes.items
        × AreContents D.eq D.cmp t.contents.keys t.nodes.items };
}

impl<T: Copy + Eq, D: Copy + Ord> Logs<T, D> {
    ghost use Rattle.std.specs.Prelude.{◌≡◌, ◌+◌, ◌-◌, ◌^◌, ◌<◌, ◌≤◌, ◌++◌, ◌∷◌, if◌then◌else◌, ℕ, Bool, [], IfOk, IfSome, IsFalse, IsNone, IsTrue, None, OnErr, length, nat_eq, take, drop};
    ghost use Rattle.safety_laws.specs.Configs.{effective_config};
    ghost use Rattle.trace_checker.specs.Inner.CheckerState.{common_len, config_in, same_entry_by};
    ghost use Rattle.trace_checker.specs.Inner.Logs.{AreDistinct, AreLogs, AreWithout, HasNoChild, IsChild, IsExact, IsTree, config_at, last_entry, log_at, no_logs};
    ghost use Rattle.trace_checker.specs.Inner.Nodes.{IsNode};

    /// Returns the empty log alone.
    pub fn new(alloc: Global) -> Self
        ensures { result ≡ no_logs }
    {
        Logs {
            nodes: Vec::new(alloc),
            contents: BTreeSet::new(alloc),
        }
    }

    /// Returns the last node of a log, if it has one.
    fn node(&self, log: usize) -> Option<&Node<T, D>>
        ensures some { IfSome result (λ n. IsNode self.now log n.now) }
        ensures none { IsNone result → log_at self.now log ≡ [] }
        ensures no_config { IsNone result → config_at self.now log ≡ 0 }
    {
        let count = self.nodes.len();
        if log == 0 {
            return None;
        }
        if count < log {
            return None;
        }
        Some(&self.nodes[log - 1])
    }

    /// Returns the number of logs that are not empty.
    pub fn count(&self) -> usize
        ensures count { result + 1 ≡ length self.now.logs }
        ensures tree { IsTree self.now }
        ensures empty { log_at self.now 0 ≡ [] }
        ensures small { result < 2 ^ 63 }
    {
        self.nodes.len()
    }

    /// Returns the number of entries of a log.
    pub fn len(&self, log: usize) -> usize
        ensures len { result ≡ length (log_at self.now log) }
        ensures short { result ≤ log }
    {
        match self.node(log) {
            Some(node) => node.len,
            None => 0,
        }
    }

    /// Returns the last entry of a log.
    pub fn last(&self, log: usize) -> Option<Entry<T, D>>
        ensures { result ≡ last_entry (log_at self.now log) }
    {
        match self.node(log) {
            Some(node) => Some(node.entry),
            None => None,
        }
    }

    /// Returns the log up to the last config of a log.
    pub fn config(&self, log: usize) -> usize
        ensures { result ≡ config_at self.now log }
    {
        match self.node(log) {
            Some(node) => node.config,
            None => 0,
        }
    }

    /// Returns the content of the config in effect at the end of a log.
    pub fn config_content(&self, log: usize) -> Option<D>
        ensures { (holds : D → Bool) → AreLogs holds self.now → log < length self.now.logs →
            result ≡ effective_config (config_in holds) None (log_at self.now log) }
    {
        match self.last(self.config(log)) {
            Some(entry) => Some(entry.content),
            None => None,
        }
    }

    /// Returns the first entries of a log.
    pub fn first(&self, log: usize, len: usize) -> usize
        ensures first { log_at self.now result ≡ take len (log_at self.now log) }
        ensures earlier { result ≤ log }
    {
        let mut at = log;
        while let Some(node) = self.node(at) {
            if node.len <= len {
                return at;
            }
            at = if len <= self.len(node.jump) {
                node.jump
            } else {
                node.parent
            };
        }
        at
    }

    /// Returns the length of the longest common prefix of two logs.
    pub fn common_len(&self, a: usize, b: usize) -> usize
        ensures common { IsExact (same_entry_by T.eq D.eq) → AreDistinct self.now → result
            ≡ common_len (same_entry_by T.eq D.eq) (log_at self.now a) (log_at self.now b) }
        ensures in_a { result ≤ length (log_at self.now a) }
        ensures in_b { result ≤ length (log_at self.now b) }
    {
        let len = self.len(a).min(self.len(b));
        let mut x = self.first(a, len);
        let mut y = self.first(b, len);
        while x != y {
            let Some(n) = self.node(x) else {
                return 0;
            };
            let Some(m) = self.node(y) else {
                return 0;
            };
            // Logs of one length have jumps of one length, which is not proved, so it is tested.
            if n.jump != m.jump && self.len(n.jump) == self.len(m.jump) {
                x = n.jump;
                y = m.jump;
            } else {
                x = n.parent;
                y = m.parent;
            }
        }
        self.len(x)
    }

    /// Whether an entry of a log has this content.
    pub fn has_content(&self, content: D) -> bool
        ensures yes { IsTrue result → AreWithout D.eq self.now content → ⊥ }
        ensures no { IsFalse result → AreWithout D.eq self.now content }
    {
        self.contents.contains(&content)
    }

    /// Whether a log begins with another.
    pub fn begins_with(&self, log: usize, prefix: usize) -> bool
        ensures { IsExact (same_entry_by T.eq D.eq) → AreDistinct self.now → result ≡ nat_eq
            (common_len (same_entry_by T.eq D.eq) (log_at self.now prefix) (log_at self.now log))
            (length (log_at self.now prefix)) }
    {
        self.common_len(prefix, log) == self.len(prefix)
    }

    /// Returns the length of the longest common prefix of these entries and of a log after its
    /// first entries.
    pub fn common_with(&self, log: usize, keep: usize, entries: &[Entry<T, D>]) -> usize
        ensures common { result ≡ common_len (same_entry_by T.eq D.eq)
            (drop keep (log_at self.now log)) entries.now }
        ensures within { result ≤ length (log_at self.now log) - keep }
        ensures small { keep ≤ length (log_at self.now log) → keep + result < 2 ^ 64 }
    {
        let len = self.len(log).saturating_sub(keep).min(entries.len());
        let mut at = self.first(log, keep + len);
        let mut common = len;
        for i in (0..len).rev() {
            let Some(node) = self.node(at) else {
                return 0;
            };
            if !same_entry(&node.entry, &entries[i]) {
                common = i;
            }
            at = node.parent;
        }
        common
    }

    /// Returns the jump of a log that is this one and an entry more.
    fn next_jump(&self, log: usize) -> usize
        ensures jump { log_at self.now result ≡ take (length (log_at self.now result))
            (log_at self.now log) }
        ensures earlier { result ≤ log }
    {
        let Some(node) = self.node(log) else {
            return log;
        };
        let Some(next) = self.node(node.jump) else {
            return log;
        };
        // Jumps are as long as in a skew binary number, so there are few on the way to any log.
        let len = self.len(node.jump);
        if node.len - len == len - self.len(next.jump) {
            next.jump
        } else {
            log
        }
    }

    /// Returns the log, the empty one if the number is no log's.
    fn known(&self, log: usize) -> usize
        ensures within { result < length self.now.logs }
        ensures same { log < length self.now.logs → result ≡ log }
    {
        if log <= self.count() { log } else { 0 }
    }

    /// Returns the log up to the last config of a log that is this one and an entry more.
    fn next_config(&self, log: usize, is_config: bool) -> usize
        ensures { result
            ≡ (if is_config then length self.now.logs else config_at self.now log) }
    {
        if is_config {
            self.count() + 1
        } else {
            self.config(log)
        }
    }

    /// Whether a log is another and an entry more.
    fn is_child(&self, child: usize, log: usize, entry: Entry<T, D>) -> bool
        ensures within { IsTrue result → child < length self.now.logs }
        ensures yes { IsTrue result → IsExact (same_entry_by T.eq D.eq) →
            log_at self.now child ≡ log_at self.now log ++ entry ∷ [] }
        ensures no { IsFalse result → IsExact (same_entry_by T.eq D.eq) → AreDistinct self.now →
            log < length self.now.logs → log_at self.now child ≡ log_at self.now log ++ entry ∷ []
            → ⊥ }
    {
        match self.node(child) {
            Some(node) => {
                if node.parent != log {
                    return false;
                }
                same_entry(&node.entry, &entry)
            }
            None => false,
        }
    }

    /// Returns the log that is this one and an entry more, if there is one.
    fn child_with(&self, log: usize, entry: Entry<T, D>) -> Option<usize>
        ensures within { IfSome result (λ i. i < length self.now.logs) }
        ensures some { IfSome result (λ i. IsExact (same_entry_by T.eq D.eq) →
            log_at self.now i ≡ log_at self.now log ++ entry ∷ []) }
        ensures none { IsNone result → IsExact (same_entry_by T.eq D.eq) → AreDistinct self.now →
            log < length self.now.logs → HasNoChild self.now log entry }
    {
        // A log has a greater number than its parent.
        for i in log..self.count() {
            if self.is_child(i + 1, log, entry) {
                return Some(i + 1);
            }
        }
        None
    }

    /// Returns the log that is this one and an entry more. If there is none, it is added.
    ///
    /// # Errors
    ///
    /// Out of memory. The logs are then as they were.
    pub fn child(
        &mut self,
        log: usize,
        entry: Entry<T, D>,
        is_config: bool,
    ) -> Result<usize, AllocError>
        ensures child { IfOk result (λ i. (holds : D → Bool) →
            IsExact (same_entry_by T.eq D.eq) → AreLogs holds self.old →
            log < length self.old.logs → is_config ≡ holds entry.content →
            IsChild holds self.old log entry self.new i) }
        ensures err { OnErr result (self.new ≡ self.old) }
    {
        let parent = self.known(log);
        match self.child_with(parent, entry) {
            Some(child) => return Ok(child),
            None => {}
        }
        let next = self.count() + 1;
        let node = Node {
            parent,
            jump: self.next_jump(parent),
            len: self.len(parent) + 1,
            config: self.next_config(parent, is_config),
            entry,
        };
        add_node(&mut self.nodes, &mut self.contents, node, entry.content)?;
        Ok(next)
    }
}

/// Adds a node, and a content.
///
/// # Errors
///
/// Out of memory. The nodes and the contents are then as they were.
fn add_node<T: Copy, D: Copy + Ord>(
    nodes: &mut Vec<Node<T, D>>,
    contents: &mut BTreeSet<D>,
    node: Node<T, D>,
    content: D,
) -> Result<(), AllocError>
    ensures nodes { OnOk result (nodes.new.items ≡ nodes.old.items ++ node ∷ []) }
    ensures contents { OnOk result ((d : D) → list_any (is_at (D.cmp d)) contents.new.keys
        ≡ (list_any (is_at (D.cmp d)) contents.old.keys || D.eq d content)) }
    ensures err { OnErr result ((nodes.new.items ≡ nodes.old.items)
        × (contents.new.keys ≡ contents.old.keys)) }
{
    nodes.reserve(1)?;
    match contents.insert(content) {
        Ok(_) => {}
        Err(_) => return Err(AllocError),
    }
    nodes.push_reserved(node);
    Ok(())
}
