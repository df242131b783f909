//! Jobs that a user waits for, as workloads to be timed. Each makes its own input from a number,
//! runs the calls that the programs run, and prints a digest of all that they wrote.
#![tactic(auto)]

/// Samples of a line as a logic analyser takes them.
mod captures;
/// A sink that keeps a digest of its bytes.
mod digest;
/// The workloads.
mod jobs;
/// Blocks of audio and their cells.
mod workload_lines;
/// Numbers that look random.
mod numbers;
/// A source of pieces in random order.
mod pieces;
/// A command or a capture run, and the digest of what it wrote.
mod runs;

use anyhow::{Context, Result};
use digest::Digest;
use jobs::run_workload;
use std::env;

const USAGE: &str = "usage: aes3_workloads NAME SEED ROUNDS\n\n\
    Runs the workload NAME of bench/workloads.txt, which makes its input from the number SEED,\n\
    ROUNDS times, and prints a digest of its output and the number of its bytes.";

/// Runs the workload NAME from the number SEED, ROUNDS rounds of it, and prints its digest.
fn main(rt: HostRuntime) -> Result<()> {
    let words: Vec<String> = env::args(&rt)?.skip(1).collect(rt.alloc())?;
    let name = words.get(0).context(USAGE)?;
    if name.as_str() == "--help" {
        println!(rt; "{USAGE}")?;
        return Ok(());
    }
    let seed: u32 = words.get(1).context("there is no seed")?.parse()?;
    let rounds: u32 = words
        .get(2)
        .context("there is no number of rounds")?
        .parse()?;
    let mut digest = Digest::new();
    run_workload(
        rt.alloc(),
        name.as_str(),
        seed,
        rounds.min(1 << 20),
        &mut digest,
    )?;
    let sum = digest.sum();
    let count = digest.count();
    println!(rt; "{sum:016x} {count}")?;
    Ok(())
}
