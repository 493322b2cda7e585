//! The column of a server in the chart of a run.

use std::alloc::AllocError;

/// How many entries of a log are shown.
pub const WIDTH: usize = 6;

/// What the chart shows of a server.
#[derive(Drop)]
pub struct Column {
    /// The server.
    pub id: u64,
    /// Its name.
    pub name: String,
    /// The letter of its role: `L` if it has written an entry in its term, `C` if it has campaigned
    /// in its term and not written, and `F` otherwise.
    pub role: char,
    /// Its term.
    pub term: u64,
    /// A letter for each entry of its log.
    pub log: Vec<u8>,
    /// How many first entries it has applied, or has committed as a leader.
    pub known: usize,
}

impl Column {
    /// Takes note that the server keeps so many first entries, which these follow. Returns how many
    /// entries it has dropped.
    pub fn take(&mut self, keep: usize, letters: &[u8]) -> Result<usize, AllocError> {
        let mut kept = keep;
        for (old, new) in self.log.iter().skip(keep).zip(letters) {
            if *old != *new {
                break;
            }
            kept = kept.saturating_add(1);
        }
        let dropped = self.log.len().saturating_sub(kept);
        self.log.truncate(keep);
        self.log.extend_from_slice(letters)?;
        Ok(dropped)
    }

    /// Draws the name at the head of the column.
    pub fn draw_name(&self, chart: &mut String) -> Result<(), AllocError> {
        write!(chart, "{:<12}", self.name.as_str())?;
        Ok(())
    }

    /// Draws the role, the term, and the part of the log after so many entries, with a bar after
    /// what the server knows to be committed.
    pub fn draw(&self, first: usize, chart: &mut String) -> Result<(), AllocError> {
        write!(chart, "{}{:<2} ", self.role, self.term % 100)?;
        let end = first.saturating_add(WIDTH);
        let bar = self.known.min(self.log.len()).max(first).min(end);
        self.draw_entries(first, bar, chart)?;
        chart.push(if self.log.is_empty() { ' ' } else { '|' })?;
        self.draw_entries(bar, end, chart)?;
        chart.push(' ')
    }

    /// Draws a letter for each entry between two places.
    fn draw_entries(&self, from: usize, to: usize, chart: &mut String) -> Result<(), AllocError> {
        for place in from..to {
            chart.push(match self.log.get(place) {
                Some(letter) => char::from(*letter),
                None => ' ',
            })?;
        }
        Ok(())
    }
}
