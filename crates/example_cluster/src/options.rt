//! The words of the command line.

use crate::fault::{FAULTS, Fault};
use crate::server::SERVERS;
use anyhow::{Context, Result, bail};

/// What `--help` prints before the names of the faults.
pub const HELP: &str = "\
Simulates clusters of five servers, one for each seed, and checks that they are safe and converge.
The status is 0 if all are and do, and 1 otherwise.

    cluster [NAME=VALUE ..]
    cluster --help | -h

    seed=1            the first seed
    seeds=1           how many clusters: one for this seed and for each that follows it
    events=1000       how many events happen to a cluster before its network is mended
    chart=50          draw a row for each thing of note, and after so many events; 0 draws nothing
    trace=FILE        record the first cluster: write its events into a file, for raft_trace
    traces=FOLDER     the same, with a file for each server in a folder
    fault=NAME        plant a fault in all servers:
";

/// Where the events of the first cluster are recorded.
#[derive(Clone, Copy)]
pub enum Recording<'a> {
    /// Nowhere.
    Off,
    /// Those of all servers in the file of this path.
    File(&'a str),
    /// Those of each server in a file of its own, in the folder of this path.
    Folder(&'a str),
}

/// What the command line asks for.
#[derive(Clone, Copy)]
pub struct Options<'a> {
    /// The first seed.
    pub seed: u64,
    /// How many clusters there are: at least one, and each has a seed of its own.
    pub seeds: u64,
    /// How many events happen to a cluster before its network is mended.
    pub events: u64,
    /// After how many events a row of the chart is drawn, or 0 if there is no chart.
    pub chart: u64,
    /// Where the events of the first cluster are recorded.
    pub recording: Recording<'a>,
    /// What all servers do wrong.
    pub fault: Option<Fault>,
}

impl<'a> Options<'a> {
    /// Reads the words of a command line.
    ///
    /// # Errors
    ///
    /// The first word that is no option, has no value that the option can have, or has the name of
    /// another word; or that there is no cluster, or no seed for the last one; or that the first
    /// cluster has two records.
    pub fn parse(words: &'a [String]) -> Result<Self> {
        let mut options = Options {
            seed: 1,
            seeds: 1,
            events: 1000,
            chart: 50,
            recording: Recording::Off,
            fault: None,
        };
        for word in words {
            let (name, value) = parts_of(word);
            if times(words, name) > 1 {
                bail!("'{name}' comes more than once");
            }
            match name {
                "seed" => options.seed = number(word, value)?,
                "seeds" => options.seeds = number(word, value)?,
                "events" => options.events = number(word, value)?,
                "chart" => options.chart = number(word, value)?,
                "trace" => options.recording = Recording::File(path(word, value)?),
                "traces" => options.recording = Recording::Folder(path(word, value)?),
                "fault" => options.fault = Some(fault(word, value)?),
                _ => bail!("'{word}' is no option; `--help` lists the options"),
            }
        }
        let Some(others) = options.seeds.checked_sub(1) else {
            bail!("'seeds=0' runs no cluster");
        };
        if times(words, "trace") > 0 && times(words, "traces") > 0 {
            bail!("'trace' and 'traces' exclude each other");
        }
        if options.seed.checked_add(others).is_none() {
            bail!("there are not so many seeds from {} on", options.seed);
        }
        Ok(options)
    }

    /// Returns how many lists of events the cluster of a seed records.
    pub fn lists(&self, seed: u64) -> u64 {
        match self.recording {
            Recording::File(_) if seed == self.seed => 1,
            Recording::Folder(_) if seed == self.seed => SERVERS,
            _ => 0,
        }
    }
}

/// Returns the name of an option, and its value.
fn parts_of(word: &str) -> (&str, &str) {
    word.split_once('=').unwrap_or((word, ""))
}

/// Returns how many words name an option.
fn times(words: &[String], name: &str) -> u64 {
    let mut times = 0u64;
    for word in words {
        times = times.saturating_add(u64::from(parts_of(word).0 == name));
    }
    times
}

/// Reads the value of an option that is a number.
fn number(word: &str, value: &str) -> Result<u64> {
    value
        .parse()
        .context(format_args!("'{word}' has no number as its value"))
}

/// Reads the value of an option that is a path.
fn path<'a>(word: &str, value: &'a str) -> Result<&'a str> {
    if value.is_empty() {
        bail!("'{word}' has no path as its value");
    }
    Ok(value)
}

/// Reads the name of a fault.
fn fault(word: &str, value: &str) -> Result<Fault> {
    for (fault, name, _) in FAULTS {
        if name == value {
            return Ok(fault);
        }
    }
    bail!("'{word}' names no fault; `--help` lists the faults")
}
