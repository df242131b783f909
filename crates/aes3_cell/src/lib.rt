//! Cells of an AES3 line: their levels, their written form, and the sources and sinks of bytes.
#![tactic(auto)]

/// Reads and writes that are tried again if a signal interrupts them.
mod attempts;
/// A sink that gathers the bytes for another one.
mod buffered;
/// Reading cell text.
mod cell_text;
/// The counts of a run.
mod counts;
/// Words of cells as octets, eight words at once.
mod eights;
/// A source that repeats one byte, for tests.
mod endless;
/// Sources and sinks of bytes.
mod ends;
/// Sources and sinks in memory that fail from some call on, for tests.
mod failing;
/// The written forms of cells.
mod form;
/// A sink in memory that holds what it took until it is flushed, for tests.
mod holding;
/// Laws of the written forms, over all lists of cells.
pub mod laws;
/// Sources and sinks in memory, which report their bytes.
mod memory;
/// Reading packed cells.
mod packed_in;
/// Writing packed cells.
mod packed_out;
/// Octets of packed cells as words of cells, many at once.
mod packed_words;
/// Cells among separators, 64 bytes at once.
mod scattered;
/// A sink in memory that takes few bytes in a call, for tests.
mod short;
/// A few cells.
mod some_cells;
/// Sources and sinks over std's readers and writers.
mod standard;
/// Writing cell text.
mod text_out;
/// Words of 64 cells, their line of text, their octets, and how a sink gets them.
mod word;

pub use aes3_level::Level;
pub use aes3_refusals::RunError;
pub use attempts::{Reader, Trouble, Writer};
pub use buffered::BufferedSink;
pub use cell_text::{BadCell, CellText, LINES, TextFront};
pub use counts::Counts;
pub use endless::EndlessSource;
pub use ends::{Fault, Sink, Source, write_all};
pub use failing::{FailingSink, FailingSource};
pub use form::Form;
pub use holding::HoldingSink;
pub use memory::{MemorySink, MemorySource};
pub use packed_in::{BadPadding, PackedIn};
pub use packed_out::PackedOut;
pub use packed_words::words_of_octets;
pub use short::ShortSink;
pub use some_cells::SomeCells;
pub use standard::{StdSink, StdSource};
pub use text_out::TextOut;
pub use word::{
    LINE_LEN, line_of_word, octets_of_word, put_ending, put_word, put_words, word_of_octets,
    word_of_text,
};
