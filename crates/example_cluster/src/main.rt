//! A simulated Raft cluster over the crates of the layer. It is checked after each event.
//!
//! It is an example for callers and a trial of these crates, and no Raft to use: storage is prompt,
//! time is a count of ticks, a message is a value, a snapshot comes whole, one request at a time is
//! in flight to a follower, and there are no pre-votes, leases or reads of clients.
//!
//! `cluster --help` says what it can be asked for. It ends with status 1 unless all clusters are
//! safe and converge.
#![tactic(auto)]

mod candidate;
mod chart;
mod cluster;
mod deed;
mod disk;
mod event;
mod fault;
mod follower;
mod leader;
mod message;
mod network;
mod options;
mod planted;
mod record;
mod safety;
mod server;
mod tally;
mod trace;
mod types;
mod view;

use anyhow::{Context, Result, ensure};
use cluster::Cluster;
use options::{Options, Recording};
use record::Record;
use std::{env, fs};
use tally::{Number, Tally};

/// Runs a cluster of each seed, and says what was found. Returns whether all were safe and have
/// converged.
fn run(rt: &HostRuntime, options: &Options<'_>) -> Result<bool> {
    let mut tally = Tally::default();
    let mut healthy = 0u64;
    let seeds = Number(options.seeds);
    for number in 0..options.seeds {
        let seed = options.seed.saturating_add(number);
        let is_healthy = run_one(rt, options, seed, &mut tally)?;
        healthy = healthy.saturating_add(u64::from(is_healthy));
        if number % 500 == 499 {
            eprintln!(rt;
                "{} of {seeds} clusters have run",
                Number(number.saturating_add(1))
            )?;
        }
    }
    println!(rt; "{tally}")?;
    println!(rt;
        "{} of {seeds} clusters safe and converged in {} events",
        Number(healthy),
        Number(tally.events)
    )?;
    Ok(healthy == options.seeds)
}

/// Runs the cluster of a seed, and prints its chart and what is wrong. Returns whether nothing is.
fn run_one(rt: &HostRuntime, options: &Options<'_>, seed: u64, tally: &mut Tally) -> Result<bool> {
    let mut chart = String::new(rt.alloc());
    let verdict = Cluster::simulate(rt.alloc(), seed, options, tally, &mut chart)?;
    print!(rt; "{chart}")?;
    if let Err(violation) = verdict.found {
        println!(rt; "seed {seed}, event {}: {violation}", verdict.events)?;
    }
    if let Err(refused) = verdict.rules {
        println!(rt; "seed {seed}, rules: {refused}")?;
    }
    write_record(rt, options.recording, &verdict.record)?;
    Ok(verdict.found.is_ok() && verdict.rules.is_ok())
}

/// Writes the lists of a record into their files.
fn write_record(rt: &HostRuntime, recording: Recording<'_>, record: &Record) -> Result<()> {
    for (place, list) in record.lists().iter().enumerate() {
        let path = match recording {
            Recording::Folder(folder) => format!(in rt.alloc();
                "{folder}/{}.jsonl",
                place.saturating_add(1)
            )?,
            Recording::File(path) => String::from_str(rt.alloc(), path)?,
            Recording::Off => return Ok(()),
        };
        fs::write(rt, path.as_str(), list.as_str()).context(format_args!(
            "the file '{path}' cannot be written"
        ))?;
    }
    Ok(())
}

/// Prints the options, and the faults with what each means.
fn print_help(rt: &HostRuntime) -> Result<()> {
    print!(rt; "{}", options::HELP)?;
    for (_, name, meaning) in fault::FAULTS {
        println!(rt; "      {name:<24}{meaning}")?;
    }
    Ok(())
}

fn main(rt: HostRuntime) -> Result<()> {
    let words: Vec<String> = env::args(&rt)?.skip(1).collect(rt.alloc())?;
    if words
        .iter()
        .any(|word| matches!(word.as_str(), "--help" | "-h"))
    {
        return print_help(&rt);
    }
    let options = Options::parse(&words)?;
    if options.chart > 0 {
        print!(rt; "{}", chart::LEGEND)?;
    }
    let is_healthy = run(&rt, &options)?;
    ensure!(is_healthy, "not all clusters are safe and converge");
    Ok(())
}
