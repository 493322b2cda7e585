//! Parsing the words of a line.
ghost use Rattle.std.specs.Prelude.{◌≡◌, ◌≢◌, ◌↔◌, IfOk, IfSome, IsErrOf, SomeIff};
ghost use Rattle.std.specs.BTreeSet.{contains};
ghost use Rattle.std.specs.Ordering.{nat_cmp};
ghost use Rattle.std.specs.Str.Parse.{digits_value};
ghost use Rattle.raft_script.specs.Inner.Taken.{AreNodesOf, IsChangeOf, IsNoKind};
ghost use Rattle.raft_script.specs.Line.{Is, IsBadLine, SaysCommand, SaysNothing, Spells, SpellsNone, retain_word};
ghost use Rattle.raft_script.specs.Word.{IsConfigs, IsConfigsOf, IsList, IsListOf, IsNumber, IsNumberOf};

use super::engine::ScriptStep;
use raft_base::EmptyNode;
use raft_members::change_members::ChangeMembers;
use raft_members::membership::IntoNodes;
use raft_progress::tracked::Step;
use std::alloc::{AllocError, Global};
use std::collections::{BTreeMap, BTreeSet};

/// A line that is to be run.
#[derive(Drop)]
pub enum Command {
    Init {
        default: u64,
        configs: Vec<BTreeSet<u64>>,
        learners: BTreeSet<u64>,
    },
    Step(ScriptStep),
}

/// Why a line cannot be run.
#[derive(Debug, Drop)]
pub enum LineError {
    /// It has none of the known forms.
    BadLine,
    OutOfMemory(AllocError),
}

impl From<AllocError> for LineError {
    ghost use Rattle.raft_script.specs.declared.script.command.LineError.{LineError};

    ghost from_gives = { λ error e. e ≡ LineError.OutOfMemory error };

    fn from(error: AllocError) -> LineError {
        LineError::OutOfMemory(error)
    }
}

/// Returns the command of a line, or `None` if the line has no words.
pub fn parse(alloc: Global, line: &[u8]) -> Result<Option<Command>, LineError>
    ensures no_words { (result ≡ Ok None) ↔ SaysNothing line.now }
    ensures command { IfOk result (λ said. IfSome said (SaysCommand line.now)) }
    ensures bad_line { IsErrOf result LineError.BadLine → IsBadLine line.now }
{
    let mut words = Words { rest: line };
    match words.next() {
        None => Ok(None),
        Some(name) => Ok(Some(words.command(alloc, name)?)),
    }
}

/// The words of a line, which are separated by spaces.
#[derive(Drop)]
pub struct Words<'a> {
    /// What is left of the line.
    pub rest: &'a [u8],
}

impl<'a> Words<'a> {
    ghost use Rattle.std.specs.Prelude.{MatchOption, OnErr, OnOk, [], ◌∷◌, codes};
    ghost use Rattle.raft_script.specs.Inner.Taken.{Lacks, LacksChange, LacksRetain, Takes, TakesChange, left_in};

    /// Returns the next word, if there is one.
    pub fn next(&mut self) -> Option<&'a [u8]>
        ensures { MatchOption result (left_in self.old ≡ [])
            (λ word. left_in self.old ≡ word.now ∷ left_in self.new) }
    {
        let start = self.rest.iter().position(|byte| *byte != b' ')?;
        let from = &self.rest[start..];
        let end = from
            .iter()
            .position(|byte| *byte == b' ')
            .unwrap_or(from.len());
        self.rest = &from[end..];
        Some(&from[..end])
    }

    /// Returns the next word, or an error at the end of the line.
    fn word(&mut self) -> Result<&'a [u8], LineError>
        ensures ok { IfOk result (λ word. left_in self.old ≡ word.now ∷ left_in self.new) }
        ensures err { OnErr result (left_in self.old ≡ []) }
    {
        self.next().ok_or(LineError::BadLine)
    }

    /// Returns an error unless the line ends here.
    fn end(mut self) -> Result<(), LineError>
        ensures ok { OnOk result (left_in self.entry ≡ []) }
        ensures err { OnErr result (left_in self.entry ≢ []) }
    {
        match self.next() {
            None => Ok(()),
            Some(_) => Err(LineError::BadLine),
        }
    }

    /// Returns the number that the next word says.
    fn number(&mut self) -> Result<u64, LineError>
        ensures ok { IfOk result (λ n. Takes (IsNumberOf n) self.old self.new) }
        ensures err { OnErr result (Lacks IsNumber (left_in self.old)) }
    {
        number(self.word()?).ok_or(LineError::BadLine)
    }

    /// Returns the numbers of the list that the next word says.
    fn list(&mut self, alloc: Global) -> Result<BTreeSet<u64>, LineError>
        ensures ok { IfOk result (λ set.
            Takes (IsListOf (contains nat_cmp set)) self.old self.new) }
        ensures bad_line { IsErrOf result LineError.BadLine → Lacks IsList (left_in self.old) }
    {
        list(alloc, self.word()?)
    }

    /// Returns the configs that the next word says.
    fn configs(&mut self, alloc: Global) -> Result<Vec<BTreeSet<u64>>, LineError>
        ensures ok { IfOk result (λ sets. Takes (IsConfigsOf sets.items) self.old self.new) }
        ensures bad_line { IsErrOf result LineError.BadLine → Lacks IsConfigs (left_in self.old) }
    {
        configs(alloc, self.word()?)
    }

    /// Returns the change that the next two words say: its kind, and its ids.
    fn members(&mut self, alloc: Global) -> Result<ChangeMembers<u64, EmptyNode>, LineError>
        ensures ok { IfOk result (λ change. TakesChange change self.old self.new) }
        ensures bad_line { IsErrOf result LineError.BadLine → LacksChange (left_in self.old) }
    {
        let kind = self.word()?;
        let ids = self.list(alloc)?;
        change_of(alloc, kind, ids)
    }

    /// Whether the next word says that removed voters stay as learners.
    pub fn retain(&mut self) -> Result<bool, LineError>
        ensures ok { IfOk result (λ retain. Takes (Is (retain_word retain)) self.old self.new) }
        ensures err { OnErr result (LacksRetain (left_in self.old)) }
    {
        match self.word()? {
            b"retain" => Ok(true),
            b"drop" => Ok(false),
            _ => Err(LineError::BadLine),
        }
    }

    /// Returns the command with this name that the words say.
    fn command(self, alloc: Global, name: &[u8]) -> Result<Command, LineError>
        ensures ok { IfOk result (λ said. Spells said (name.now ∷ left_in self.entry)) }
        ensures bad_line { IsErrOf result LineError.BadLine
            → SpellsNone (name.now ∷ left_in self.entry) }
    {
        match name {
            b"init" => self.init(alloc),
            b"update" => self.update(),
            b"increase" => self.increase(),
            b"change" => self.change(alloc),
            _ => Err(LineError::BadLine),
        }
    }

    /// Returns the command that begins with a membership and its progress.
    fn init(mut self, alloc: Global) -> Result<Command, LineError>
        ensures ok { IfOk result (λ said. Spells said (codes "init" ∷ left_in self.entry)) }
        ensures bad_line { IsErrOf result LineError.BadLine
            → SpellsNone (codes "init" ∷ left_in self.entry) }
    {
        let default = self.number()?;
        let configs = self.configs(alloc)?;
        let learners = self.list(alloc)?;
        self.end()?;
        Ok(Command::Init {
            default,
            configs,
            learners,
        })
    }

    /// Returns an update.
    fn update(mut self) -> Result<Command, LineError>
        ensures ok { IfOk result (λ said. Spells said (codes "update" ∷ left_in self.entry)) }
        ensures err { OnErr result (SpellsNone (codes "update" ∷ left_in self.entry)) }
    {
        let id = self.number()?;
        let value = self.number()?;
        self.end()?;
        Ok(Command::Step(Step::Update(id, value)))
    }

    /// Returns an update that is made only if the value is greater.
    fn increase(mut self) -> Result<Command, LineError>
        ensures ok { IfOk result (λ said. Spells said (codes "increase" ∷ left_in self.entry)) }
        ensures err { OnErr result (SpellsNone (codes "increase" ∷ left_in self.entry)) }
    {
        let id = self.number()?;
        let value = self.number()?;
        self.end()?;
        Ok(Command::Step(Step::IncreaseTo(id, value)))
    }

    /// Returns a change of the membership.
    fn change(mut self, alloc: Global) -> Result<Command, LineError>
        ensures ok { IfOk result (λ said. Spells said (codes "change" ∷ left_in self.entry)) }
        ensures bad_line { IsErrOf result LineError.BadLine
            → SpellsNone (codes "change" ∷ left_in self.entry) }
    {
        let change = self.members(alloc)?;
        let retain = self.retain()?;
        let default = self.number()?;
        self.end()?;
        Ok(Command::Step(Step::Change {
            change,
            retain,
            default,
        }))
    }
}

/// Returns the change of a kind with these ids.
pub fn change_of(
    alloc: Global,
    kind: &[u8],
    ids: BTreeSet<u64>,
) -> Result<ChangeMembers<u64, EmptyNode>, LineError>
    ensures ok { IfOk result (IsChangeOf kind.now ids) }
    ensures bad_line { IsErrOf result LineError.BadLine → IsNoKind kind.now }
{
    if kind == b"add-ids".as_slice() {
        Ok(ChangeMembers::AddVoterIds(ids))
    } else if kind == b"add".as_slice() {
        Ok(ChangeMembers::AddVoters(nodes_of(alloc, ids)?))
    } else if kind == b"remove".as_slice() {
        Ok(ChangeMembers::RemoveVoters(ids))
    } else if kind == b"replace".as_slice() {
        Ok(ChangeMembers::ReplaceAllVoters(ids))
    } else if kind == b"add-nodes".as_slice() {
        Ok(ChangeMembers::AddNodes(nodes_of(alloc, ids)?))
    } else if kind == b"set-nodes".as_slice() {
        Ok(ChangeMembers::SetNodes(nodes_of(alloc, ids)?))
    } else if kind == b"remove-nodes".as_slice() {
        Ok(ChangeMembers::RemoveNodes(ids))
    } else if kind == b"replace-nodes".as_slice() {
        Ok(ChangeMembers::ReplaceAllNodes(nodes_of(alloc, ids)?))
    } else {
        Err(LineError::BadLine)
    }
}

/// Returns a node for each id.
fn nodes_of(alloc: Global, ids: BTreeSet<u64>) -> Result<BTreeMap<u64, EmptyNode>, AllocError>
    ensures { IfOk result (AreNodesOf ids) }
{
    ids.into_nodes(alloc)
}

/// Returns the configs of a word: `none` has none, and others are lists that are joined by slashes.
pub fn configs(alloc: Global, word: &[u8]) -> Result<Vec<BTreeSet<u64>>, LineError>
    ensures configs { IfOk result (λ configs. IsConfigsOf configs.items word.now) }
    ensures bad_line { IsErrOf result LineError.BadLine → ¬ IsConfigs word.now }
{
    let mut configs = Vec::new(alloc);
    if word == b"none".as_slice() {
        return Ok(configs);
    }
    for part in word.split(|byte| *byte == b'/') {
        let config = list(alloc, part)?;
        configs.push(config).map_err(AllocError::from)?;
    }
    Ok(configs)
}

/// Returns the numbers of a list, ascending and each once: `-` has none, and others are joined by
/// commas.
pub fn list(alloc: Global, word: &[u8]) -> Result<BTreeSet<u64>, LineError>
    ensures list { IfOk result (λ numbers. IsListOf (contains nat_cmp numbers) word.now) }
    ensures bad_line { IsErrOf result LineError.BadLine → ¬ IsList word.now }
{
    let mut numbers = BTreeSet::new(alloc);
    if word == b"-".as_slice() {
        return Ok(numbers);
    }
    for part in word.split(|byte| *byte == b',') {
        let number = number(part).ok_or(LineError::BadLine)?;
        numbers.insert(number).map_err(AllocError::from)?;
    }
    Ok(numbers)
}

/// Returns the value of decimal digits, if there are any and it fits.
pub fn number(word: &[u8]) -> Option<u64>
    ensures { SomeIff result (IsNumber word.now) (digits_value 10 word.now) }
{
    if word.is_empty() {
        return None;
    }
    let mut value = 0u64;
    for byte in word {
        let digit = char::from(*byte).to_digit(10)?;
        value = value.checked_mul(10)?.checked_add(u64::from(digit))?;
    }
    Some(value)
}
