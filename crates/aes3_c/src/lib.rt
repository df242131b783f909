//! The codec for C, and for what calls C: locks, blocks, words of cells and channel status as plain
//! numbers (AES3-1 to 4, IEC 60958-1 and -3). No function allocates or keeps anything between
//! calls; `include/aes3.h` is the header.
#![tactic(auto)]

/// The levels of samples.
mod audio_level_calls;
/// The validity, user and channel status bits of a block's channel.
mod bits;
/// Blocks: their words, bytes and cells.
mod block_calls;
/// What is put of a block: its cells, its words or its samples.
mod block_form;
/// Many blocks in a call.
mod blocks;
/// The cells of captures.
mod capture;
/// Words of 64 cells, and their written forms.
mod cell_calls;
/// The fields of consumer channel status.
mod consumer_calls;
/// Samples that would lose bits.
mod exact_calls;
/// Frames that fill the time between whole blocks.
mod frame_calls;
/// The gaps of the account of all cells.
mod gap_calls;
/// Levels as bytes.
mod level_byte;
/// The lock, kept by its caller.
mod lock_calls;
/// Cells in octets, many at once.
mod octet_calls;
/// Octets that found no room yet.
mod owed;
/// A sink over memory that is lent, which keeps what finds no room there.
mod owing;
/// Where the cells of a capture are among its samples.
mod place_calls;
/// The fields of professional channel status.
mod professional_calls;
/// From samples to cells.
mod recovering;
/// Reports as plain numbers.
mod report_record;
/// Octets of cells with the first cell in the lowest bit.
mod reversed_octets;
/// A sink over memory that is lent.
mod room;
/// The samples of blocks.
mod sample_calls;
/// The samples of many blocks as sound programs have them.
mod sample_forms;
/// Fields of channel status by their names.
mod setting_calls;
/// Channel status: its use and its check byte.
mod status_calls;
/// The cells of captures that come in pieces.
mod streaming;
/// The words of many blocks as other programs have them.
mod subframes;
/// The sums of a watched line.
mod sum_calls;
/// Cells of words as a lock takes them, with their number.
mod taking;
/// Channel status as text.
mod text;
/// The version of the library.
mod version;
/// A watched line.
mod watch_calls;
/// WAV files: their header, read and written.
mod wav;
/// The samples of WAV files.
mod wav_samples;
/// Cells in words, many at once.
mod word_calls;
