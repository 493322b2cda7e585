//! The chart of a recorded run, a row at a time.

mod column;

use crate::chart::column::Column;
use crate::event::Act;
use crate::field::{event_name, is_named, value_of};
use serde_json::Value;
use std::alloc::{AllocError, Global};
use std::collections::BTreeMap;
use trace_checker::entry::Entry;
use trace_checker::event::Event;

/// How many servers have a column.
const SERVERS: usize = 7;

/// How many characters of a name are shown.
const NAME: usize = 10;

/// How many characters there are for what happens. With so many, a row with five servers has at
/// most 100 columns.
const WORDS: usize = 32;

/// What the signs mean.
const LEGEND: &str = "\
A row has the number of its line, or of its event if there are several files, then a column for each
server, and what happens. A server has a role (L leader, C candidate, F follower), a term modulo
100, and the part of its log around the last commit. Each entry is a letter, which says its term: a
is the first term in which a leader has written, b the second one, and so on. A server leads once it
has written an entry in its term. Left of | is what it has applied, or has committed as the leader.
";

/// What the legend says if a server has no column.
const MORE: &str = "There are more than seven servers, and the first seven are drawn.\n";

/// The chart of a run.
#[derive(Drop)]
pub struct Chart {
    /// Whether the chart is wanted. If not, it stays empty.
    is_drawn: bool,
    /// Whether a row has the number of its line, and not of its event.
    by_line: bool,
    /// The allocator.
    alloc: Global,
    /// The index of the first entry.
    first: u64,
    /// The servers, in the order in which they occur.
    servers: Vec<Column>,
    /// Whether a server has no column.
    has_more: bool,
    /// The letter of each term in which a leader has written an entry.
    letters: BTreeMap<u64, u8>,
    /// The greatest number of entries that a leader has committed.
    committed: usize,
    /// The greatest term of which a leader has committed entries.
    committed_in: Option<u64>,
    /// The number of the row.
    number: u64,
    /// The name of the server that the line is of.
    name: String,
    /// The members that the line says, or nothing.
    members: String,
    /// Whether the line says that a server installs a snapshot.
    is_snapshot: bool,
    /// What happens.
    words: String,
    /// How many servers the last head of the columns has.
    headed: usize,
    /// The rows.
    rows: String,
}

impl Chart {
    /// Returns the chart of a cluster that starts as a line says, with a column for each voter of
    /// these configs. If the chart is not wanted, it stays empty. A row has the number of its line
    /// or of its event.
    pub fn start(
        alloc: Global,
        line: &[u8],
        first: u64,
        configs: &[Vec<u64>],
        is_drawn: bool,
        by_line: bool,
    ) -> Result<Chart, AllocError> {
        let mut chart = Chart {
            is_drawn,
            by_line,
            alloc,
            first,
            servers: Vec::new(alloc),
            has_more: false,
            letters: BTreeMap::new(alloc),
            committed: 0,
            committed_in: None,
            number: 0,
            name: String::new(alloc),
            members: String::new(alloc),
            is_snapshot: false,
            words: String::new(alloc),
            headed: 0,
            rows: String::new(alloc),
        };
        if is_drawn && let Some(value) = value_of(alloc, line)? {
            chart.add_voters(configs, &value)?;
        }
        Ok(chart)
    }

    /// Adds a column for each voter of the configs, which have the names that the line says.
    fn add_voters(&mut self, configs: &[Vec<u64>], line: &Value) -> Result<(), AllocError> {
        let Some(lists) = line.get("voters").and_then(Value::as_array) else {
            return Ok(());
        };
        for (config, names) in configs.iter().zip(lists) {
            if let Some(names) = names.as_array() {
                self.add_config(config, names)?;
            }
        }
        Ok(())
    }

    /// Adds a column for each voter of a config, which have these names.
    fn add_config(&mut self, config: &[u64], names: &[Value]) -> Result<(), AllocError> {
        for (id, name) in config.iter().zip(names) {
            self.add_voter(*id, name)?;
        }
        Ok(())
    }

    /// Adds a column for a voter, which has this name.
    fn add_voter(&mut self, id: u64, name: &Value) -> Result<(), AllocError> {
        self.name.clear();
        push_name(self.alloc, &mut self.name, name)?;
        self.place_of(id)?;
        Ok(())
    }

    /// Begins with the line of this number, after so many events. The events that follow are the
    /// one that the line says, and those that it needs.
    pub fn begin(&mut self, number: u64, events: u64, line: &Value) -> Result<(), AllocError> {
        if !self.is_drawn {
            return Ok(());
        }
        self.number = if self.by_line {
            number
        } else {
            events.saturating_add(1)
        };
        self.is_snapshot = is_named(line, "appended") && line.get("entries").is_none();
        let field = match event_name(line).unwrap_or("") {
            "wrote" | "committed" => "leader",
            _ => "server",
        };
        self.name.clear();
        if let Some(name) = line.get(field) {
            push_name(self.alloc, &mut self.name, name)?;
        }
        self.members.clear();
        if let Some(voters) = line.get("voters").and_then(Value::as_array) {
            push_members(self.alloc, &mut self.members, voters)?;
        }
        Ok(())
    }

    /// Takes note of an event, and draws a row if it is of note.
    pub fn note(&mut self, event: &Act) -> Result<(), AllocError> {
        if !self.is_drawn {
            return Ok(());
        }
        let place = self.place_of(actor(event))?;
        match event {
            Event::Campaigned { term, .. } => self.reach(place, *term, 'C'),
            Event::Granted { term, .. } | Event::Acked { term, .. } => {
                self.reach(place, *term, 'F');
            }
            Event::Appended {
                term,
                keep,
                entries,
                ..
            } => return self.note_append(place, *term, *keep, entries),
            Event::Restarted { len, .. } => return self.note_restart(place, *len),
            Event::Wrote { term, .. } => return self.note_entry(place, *term),
            Event::Committed { term, len, .. } => return self.note_commit(place, *term, *len),
            Event::Applied { len, .. } => self.learn(place, *len),
        }
        Ok(())
    }

    /// Writes the legend and the rows, of which the last one is of a line that is refused.
    pub fn push_refused_to(&mut self, answer: &mut String) -> Result<(), AllocError> {
        if self.is_drawn {
            self.words.clear();
            self.words.push_str("the run is refused here")?;
            self.draw()?;
        }
        self.push_to(answer)
    }

    /// Writes the legend and the rows.
    pub fn push_to(&self, answer: &mut String) -> Result<(), AllocError> {
        if !self.is_drawn {
            return Ok(());
        }
        answer.push_str(LEGEND)?;
        if self.has_more {
            answer.push_str(MORE)?;
        }
        // If there was no memory for a row, a part of it is there.
        match self.rows.as_str().rsplit_once('\n') {
            Some((whole, _)) => {
                answer.push_str(whole)?;
                answer.push('\n')
            }
            None => Ok(()),
        }
    }

    /// Takes note of the role of a server in a term. A leader stays one in its term.
    fn reach(&mut self, place: usize, term: u64, role: char) {
        if let Some(column) = self.servers.get_mut(place)
            && (term > column.term || (term == column.term && column.role != 'L'))
        {
            column.term = term;
            column.role = role;
        }
    }

    /// Takes note that a server knows so many first entries to be committed.
    fn learn(&mut self, place: usize, len: usize) {
        if let Some(column) = self.servers.get_mut(place) {
            column.known = column.known.max(len);
        }
    }

    /// Takes note that a leader writes an entry. Draws a row if it is the first one in the term, or
    /// if it changes the members.
    fn note_entry(&mut self, place: usize, term: u64) -> Result<(), AllocError> {
        self.reach(place, term, 'L');
        if self.letters.get(&term).is_none() {
            let letter = b'a' + (self.letters.len() % 26) as u8;
            self.letters.insert(term, letter)?;
            write!(self.words, " leads in term {term}")?;
            return self.draw();
        }
        if self.members.is_empty() {
            return Ok(());
        }
        write!(self.words, " changes to {}", self.members.as_str())?;
        self.draw()
    }

    /// Takes note that a leader commits entries. Draws a row if it has a column, and if no leader
    /// of the term, or of a later one, has committed any.
    fn note_commit(&mut self, place: usize, term: u64, len: usize) -> Result<(), AllocError> {
        self.learn(place, len);
        self.committed = self.committed.max(len);
        if place >= SERVERS || self.committed_in >= Some(term) {
            return Ok(());
        }
        self.committed_in = Some(term);
        let index = self.first.saturating_add(len as u64).saturating_sub(1);
        write!(self.words, " commits index {index}")?;
        self.draw()
    }

    /// Takes note that a server takes entries. Draws a row if they are those of a snapshot, or if
    /// others are dropped.
    fn note_append(
        &mut self,
        place: usize,
        term: u64,
        keep: usize,
        entries: &[Entry<u64, u64>],
    ) -> Result<(), AllocError> {
        self.reach(place, term, 'F');
        let letters = self.letters_of(entries)?;
        let Some(column) = self.servers.get_mut(place) else {
            return Ok(());
        };
        let had = column.log.len();
        let dropped = column.take(keep, &letters)?;
        if self.is_snapshot {
            self.words.push_str(" installs a snapshot")?;
        } else if dropped > 0 {
            write!(self.words, " truncates {dropped} of {had}")?;
        } else {
            return Ok(());
        }
        self.draw()
    }

    /// Takes note that a server restarts. Draws a row if it has lost entries.
    fn note_restart(&mut self, place: usize, len: usize) -> Result<(), AllocError> {
        let Some(column) = self.servers.get_mut(place) else {
            return Ok(());
        };
        let had = column.log.len();
        column.log.truncate(len);
        column.role = 'F';
        if len >= had {
            return Ok(());
        }
        write!(self.words, " restarts with {len} of {had}")?;
        self.draw()
    }

    /// Returns the letters of entries.
    fn letters_of(&self, entries: &[Entry<u64, u64>]) -> Result<Vec<u8>, AllocError> {
        let mut letters = Vec::new(self.alloc);
        for entry in entries {
            letters.push(self.letter_of(entry.term))?;
        }
        Ok(letters)
    }

    /// Returns the letter of the entries of a term.
    fn letter_of(&self, term: u64) -> u8 {
        self.letters.get(&term).copied().unwrap_or(b'?')
    }

    /// Returns the place of the column of a server, which gets one if fewer than seven have one.
    /// What happens begins with the name of the server.
    fn place_of(&mut self, id: u64) -> Result<usize, AllocError> {
        self.words.clear();
        let place = self.known_place(id);
        if let Some(column) = self.servers.get(place) {
            self.words.push_str(column.name.as_str())?;
            return Ok(place);
        }
        self.words.push_str(self.name.as_str())?;
        if place < SERVERS {
            self.servers.push(Column {
                id,
                name: self.name.clone()?,
                role: 'F',
                term: 0,
                log: Vec::new(self.alloc),
                known: 0,
            })?;
        } else {
            self.has_more = true;
        }
        Ok(place)
    }

    /// Returns the place of the column of a server, the number of columns if it has none.
    fn known_place(&self, id: u64) -> usize {
        for (place, column) in self.servers.iter().enumerate() {
            if column.id == id {
                return place;
            }
        }
        self.servers.len()
    }

    /// Draws a row.
    fn draw(&mut self) -> Result<(), AllocError> {
        if self.headed < self.servers.len() {
            self.draw_head()?;
        }
        write!(self.rows, "{:>6}  ", self.number)?;
        let first = self.committed.saturating_sub(column::WIDTH / 2);
        for column in &self.servers {
            column.draw(first, &mut self.rows)?;
        }
        push_cut(&mut self.rows, self.words.as_str(), WORDS)?;
        self.rows.push('\n')
    }

    /// Draws the head of the columns.
    fn draw_head(&mut self) -> Result<(), AllocError> {
        self.headed = self.servers.len();
        self.rows.push_str("\nnumber  ")?;
        for column in &self.servers {
            column.draw_name(&mut self.rows)?;
        }
        self.rows.push_str("what happens\n")
    }
}

/// Returns the server that does what an event says.
fn actor(event: &Act) -> u64 {
    match event {
        Event::Campaigned { server, .. }
        | Event::Granted { server, .. }
        | Event::Appended { server, .. }
        | Event::Acked { server, .. }
        | Event::Restarted { server, .. }
        | Event::Wrote { leader: server, .. }
        | Event::Committed { leader: server, .. }
        | Event::Applied { server, .. } => *server,
    }
}

/// Writes the members of each config.
fn push_members(alloc: Global, text: &mut String, configs: &[Value]) -> Result<(), AllocError> {
    for config in configs {
        if !text.is_empty() {
            text.push('&')?;
        }
        if let Some(names) = config.as_array() {
            push_config(alloc, text, names)?;
        }
    }
    Ok(())
}

/// Writes the members of a config.
fn push_config(alloc: Global, text: &mut String, names: &[Value]) -> Result<(), AllocError> {
    let mut is_first = true;
    for name in names {
        if !is_first {
            text.push(',')?;
        }
        is_first = false;
        push_name(alloc, text, name)?;
    }
    Ok(())
}

/// Writes a name, as far as it is shown.
fn push_name(alloc: Global, text: &mut String, name: &Value) -> Result<(), AllocError> {
    match name.as_str() {
        Some(name) => push_cut(text, name, NAME),
        None => {
            let digits = name.as_u64().unwrap_or(0).to_string(alloc)?;
            push_cut(text, digits.as_str(), NAME)
        }
    }
}

/// Writes a text. If it is too wide, two dots stand for its end.
fn push_cut(text: &mut String, long: &str, width: usize) -> Result<(), AllocError> {
    let is_cut = long.chars().count() > width;
    let shown = if is_cut {
        width.saturating_sub(2)
    } else {
        width
    };
    for letter in long.chars().take(shown) {
        text.push(if letter.is_control() { '?' } else { letter })?;
    }
    if is_cut {
        text.push_str("..")?;
    }
    Ok(())
}
