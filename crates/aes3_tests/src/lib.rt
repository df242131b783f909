//! What no contract says about the codec's crates: worked vectors, sources and sinks that fail in
//! mid-stream, a call of each function.
#![tactic(auto)]

#[cfg(test)]
mod cell;
#[cfg(test)]
mod damage;
#[cfg(test)]
mod engine;
#[cfg(test)]
mod known_statuses;
#[cfg(test)]
mod limits;
#[cfg(test)]
mod printed_lines;
#[cfg(test)]
mod slot;
#[cfg(test)]
mod worked_blocks;
#[cfg(test)]
mod worked_locks;
