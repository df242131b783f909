//! What no contract says about jobs and command lines: worked ones, and every job over sources and
//! sinks that fail or move few bytes.
#![tactic(auto)]

#[cfg(test)]
mod bytes;
#[cfg(test)]
mod command_lines;
#[cfg(test)]
mod program;
#[cfg(test)]
mod runs;
#[cfg(test)]
mod worked_jobs;
