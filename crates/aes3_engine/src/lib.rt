//! Whole runs: conversions of an input to an output.
#![tactic(auto)]

/// From cells to the V, U or C bits of their blocks.
mod carrying;
/// From a block file to cells.
mod encoding;
/// From cells to samples, up to the first block that would lose bits.
mod exact_samples;
/// From cells to samples that keep time.
mod filling;
/// The laws that samples and bits come back unchanged.
pub mod laws;
/// From cells to samples that keep time, with the marked blocks among them.
mod mended;
/// From cells to cells and block files: `normalise`, `decode` and `cut`.
mod reading;
/// Blocks with changed channel status, validity bits and user bits.
mod rewriting;
/// From cells to cells of such blocks, up to the first that does not take all settings.
mod rewriting_exactly;
/// From cells to cells of such blocks.
mod rewriting_runs;
/// From cells to samples.
mod samples;
/// From samples to a block file.
mod sampling;
/// From cells to samples, with zero for each sample that is not valid.
mod valid_samples;
/// From a block file whose words are in another form to cells.
mod word_encoding;
/// Blocks as block files in other forms.
mod words;

pub use aes3_frame::{CarriedBits, Fill};
pub use aes3_lock_runs::{
    BlockReporter, BlockWriter, Followed, Input, Listener, ReportListener, Reporter, Taker, Tally,
    cell, convert, drive, run_blocks, run_cells, run_reports, word,
};
pub use aes3_status::{Change, Taken};
pub use carrying::to_bits;
pub use encoding::encode;
pub use exact_samples::{Exact, ExactBlocks, to_exact_pcm};
pub use filling::{Filled, FilledBlocks, to_filled_pcm};
pub use mended::MendedBlocks;
pub use reading::{cut, decode, decode_words, normalise};
pub use rewriting_exactly::rewrite_exactly;
pub use rewriting_runs::{Rewritten, rewrite};
pub use samples::{SampleBlocks, put_narrowed, to_pcm};
pub use sampling::{SampleInput, from_pcm, from_pcm_words};
pub use valid_samples::{ValidSampleBlocks, to_valid_pcm};
pub use word_encoding::{EncodedWords, encode_words};
