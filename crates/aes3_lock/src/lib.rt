//! The lock: all reports of any cells, in one pass and fixed memory (AES3-3, IEC 60958-1).
#![tactic(auto)]

/// All reports of a list of cells, with each place tried by itself.
mod all_reports;
/// The cells of one incomplete subframe and of eight at once, and the last eight cells.
mod begun_subframe;
/// A place at which a block may begin.
mod candidate;
/// Laws over the definitions alone, whatever the cells.
pub mod laws;
/// The lock: it takes words of cells, fronts of words and single cells.
mod lock;
/// All that a lock keeps, for callers that store it themselves.
mod parts;
/// Reports, the endings that they are made of, and what ends a candidate.
mod report;
/// Which cells are allowed in a block.
mod rule;
/// The scan: all preambles, and nothing else.
mod scan;
/// How many reports of each kind there were.
mod tally;
/// The preambles that end in a word of cells.
mod word_marks;

pub use all_reports::reports_of;
pub use candidate::Candidate;
pub use lock::Lock;
pub use parts::LockParts;
pub use report::{Ending, Report, Why};
pub use scan::Scan;
pub use tally::Tally;
pub use word_marks::WordMarks;
