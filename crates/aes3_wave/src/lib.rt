//! WAV files: reading and writing the header, and the samples after it (RIFF/WAVE; RF64 of EBU Tech
//! 3306 and BW64 of ITU-R BS.2088).
#![tactic(auto)]

/// The samples of frames.
mod channels;
/// The chunks before the samples.
mod chunk;
/// Why a header is rejected.
mod header_error;
/// What the reader of a header keeps.
mod header_reader;
/// The reader of a header.
mod header_reading;
/// Writing the header.
mod header_writing;
/// The laws of headers.
pub mod laws;
/// Numbers in octets.
mod octets;
/// The octets of a file that are its samples.
mod span;
/// The format of the samples.
mod wave_format;

pub use channels::{Channels, Mono};
pub use chunk::WaveHeader;
pub use header_error::{Cause, HeaderError};
pub use header_reader::HeaderReader;
pub use header_writing::{Depth, HeaderOctets, header_of};
pub use span::SampleSpan;
pub use wave_format::{Container, WaveFormat, Width};
