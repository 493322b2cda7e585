//! The names of servers and of contents.
ghost use Rattle.std.specs.Prelude.{◌≡◌, IfOk, IfSome, OnOk, Some};
ghost use Rattle.serde_json.specs.View.{view};
ghost use Rattle.trace_judge.specs.Inner.Table.{IsTable, Learns, numbering};
ghost use Rattle.trace_judge.specs.Names.{HasNumber, Number, Text};

use serde_json::Value;
use std::alloc::{AllocError, Global};
use std::collections::HashMap;

/// The numbers from this one on stand for names in a table. Each smaller number stands for itself.
const FIRST: u64 = 1 << 63;

/// The fields of an event that are names.
const FIELDS: [&str; 4] = ["server", "leader", "candidate", "content"];

/// The fields of an event that are lists of lists, which have names.
const LISTS: [&str; 2] = ["entries", "voters"];

/// How many bytes of a name an answer has at most.
const SHOWN: usize = 80;

/// The names that have occurred, numbers or texts, and the numbers that stand for them.
#[derive(Drop)]
pub struct Names {
    /// The allocator.
    alloc: Global,
    /// The numbers that stand for texts.
    pub texts: HashMap<String, u64>,
    /// The numbers that stand for numbers from `FIRST` on.
    pub large: HashMap<u64, u64>,
    /// The number that the next name gets.
    pub next: u64,
}

impl Names {
    /// Returns a table of no name.
    pub fn new(alloc: Global) -> Names
        ensures { IsTable result }
    {
        Names {
            alloc,
            texts: HashMap::new(alloc),
            large: HashMap::new(alloc),
            next: FIRST,
        }
    }

    /// Returns the number of a name, if the value is one that has occurred.
    pub fn number_of(&self, value: &Value) -> Option<u64>
        ensures { IfSome result (λ n. HasNumber (numbering self.now) (view value.now) n) }
    {
        match value.as_str() {
            Some(text) => self.texts.get(text).copied(),
            None => self.stands_for(value.as_u64()?),
        }
    }

    /// Returns the number that stands for a number.
    fn stands_for(&self, number: u64) -> Option<u64>
        ensures { result ≡ numbering self.now (Number number) }
    {
        if number < FIRST {
            Some(number)
        } else {
            self.large.get(&number).copied()
        }
    }

    /// Writes the name that a number stands for, as JSON has it.
    pub fn push(&self, answer: &mut String, number: u64) -> Result<(), AllocError> {
        for (text, stand) in &self.texts {
            if *stand == number {
                return push_text(self.alloc, answer, text.as_str());
            }
        }
        write!(answer, "{}", self.large_name(number))?;
        Ok(())
    }

    /// Returns the number that a number stands for.
    fn large_name(&self, number: u64) -> u64 {
        for (name, stand) in &self.large {
            if *stand == number {
                return *name;
            }
        }
        number
    }

    /// Gives each name of a line a number, unless the name has one.
    pub fn learn(&mut self, line: &Value) -> Result<(), AllocError>
        ensures { OnOk result (Learns self.old self.new) }
    {
        for field in FIELDS {
            if let Some(value) = line.get(field) {
                self.add(value)?;
            }
        }
        for field in LISTS {
            if let Some(lists) = line.get(field).and_then(Value::as_array) {
                self.add_lists(lists)?;
            }
        }
        Ok(())
    }

    /// Adds the names of lists.
    fn add_lists(&mut self, lists: &[Value]) -> Result<(), AllocError>
        ensures { OnOk result (Learns self.old self.new) }
    {
        for list in lists {
            if let Some(values) = list.as_array() {
                self.add_each(values)?;
            }
        }
        Ok(())
    }

    /// Adds the names of a list.
    fn add_each(&mut self, values: &[Value]) -> Result<(), AllocError>
        ensures { OnOk result (Learns self.old self.new) }
    {
        for value in values {
            self.add(value)?;
        }
        Ok(())
    }

    /// Adds a value, if it is a name.
    fn add(&mut self, value: &Value) -> Result<(), AllocError>
        ensures { OnOk result (Learns self.old self.new) }
    {
        if let Some(text) = value.as_str() {
            return self.add_text(text);
        }
        match value.as_u64() {
            Some(number) => self.add_number(number),
            None => Ok(()),
        }
    }

    /// Adds a text, unless it has a number.
    fn add_text(&mut self, text: &str) -> Result<(), AllocError>
        ensures { OnOk result (Learns self.old self.new) }
    {
        if self.texts.contains_key(text) {
            return Ok(());
        }
        let number = self.next;
        let next = number.checked_add(1).ok_or(AllocError)?;
        self.texts
            .insert(String::from_str(self.alloc, text)?, number)?;
        self.next = next;
        Ok(())
    }

    /// Adds a number, unless one stands for it.
    fn add_number(&mut self, number: u64) -> Result<(), AllocError>
        ensures { OnOk result (Learns self.old self.new) }
    {
        if number < FIRST || self.large.contains_key(&number) {
            return Ok(());
        }
        let stand = self.next;
        let next = stand.checked_add(1).ok_or(AllocError)?;
        self.large.insert(number, stand)?;
        self.next = next;
        Ok(())
    }
}

/// Writes a value as JSON has it. If it is long, two dots stand for its end.
pub fn push_value(alloc: Global, answer: &mut String, value: &Value) -> Result<(), AllocError> {
    match value.as_str() {
        Some(text) => push_text(alloc, answer, text),
        None => push_short(answer, value.to_string(alloc)?.as_str()),
    }
}

/// Writes a text as JSON has it. If it is long, two dots stand for its end.
pub fn push_text(alloc: Global, answer: &mut String, text: &str) -> Result<(), AllocError> {
    let end = text.floor_char_boundary(SHOWN);
    let shown = Value::String(String::from_str(alloc, &text[..end])?);
    write!(answer, "{shown}")?;
    if end < text.len() {
        answer.push_str("..")?;
    }
    Ok(())
}

/// Writes a text as it is. If it is long, two dots stand for its end.
fn push_short(answer: &mut String, text: &str) -> Result<(), AllocError> {
    let end = text.floor_char_boundary(SHOWN);
    answer.push_str(&text[..end])?;
    if end < text.len() {
        answer.push_str("..")?;
    }
    Ok(())
}
