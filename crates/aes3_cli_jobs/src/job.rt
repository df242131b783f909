//! The jobs of the program.

ghost use Rattle.std.specs.Prelude.{◌≡◌};
ghost use Rattle.aes3_cli_jobs.specs.Forms.{block_len, cells_len, finds_faults, reads_packed, writes_packed};

use crate::work::{ReadWork, StreamWork};
use aes3_cell::Form;
use aes3_forms_samples::SampleFormat;
use aes3_forms_words::Words;
use aes3_frame::BLOCK_BYTES;
use aes3_status::Change;
use aes3_wave::{Channels, Mono};

/// How many bytes of a block file make a block: 384 words of four bytes.
const BLOCK_FILE_LEN: u64 = BLOCK_BYTES as u64;

/// How many bytes of packed cells make a block: 24,576 cells, eight in each byte.
const PACKED_LEN: u64 = 3072;

/// A job of the program.
#[derive(Clone, Copy, PartialEq, Eq)]
pub enum Job {
    /// Block file to cells; the words of the file have this form.
    Encode {
        output: Form,
        words: Words,
    },
    /// Cells to the normal stream of some of their blocks.
    Stream {
        input: Form,
        output: Form,
        work: StreamWork,
    },
    /// Cells to something other than cells: lines, samples, a block file or bits.
    Read {
        input: Form,
        work: ReadWork,
    },
    /// Samples in a form to a block file with channel status, whose words have this form. If
    /// `exact` is true, samples of more than 24 bits are errors.
    FromPcm {
        format: SampleFormat,
        exact: bool,
        change: Change,
        words: Words,
    },
    /// Two channels of a WAV file to a block file, whose words have this form. If no channels are
    /// chosen they are the first two, or a single channel as `mono` says. If `exact` is true,
    /// samples of more than 24 bits are errors. If the change gives no channel status, it is made
    /// for the header, for consumer or professional use.
    FromWav {
        channels: Option<Channels>,
        mono: Mono,
        exact: bool,
        professional: bool,
        change: Change,
        words: Words,
    },
}

/// How many bytes of cells in this form make a block; `None` for text, whose line ends don't count.
fn cells_len(form: Form) -> Option<u64>
    ensures { result ≡ cells_len form }
{
    match form {
        Form::Text => None,
        Form::Packed => Some(PACKED_LEN),
    }
}

impl Job {
    /// Whether the job reads packed cells.
    pub fn reads_packed(&self) -> bool
        ensures { result ≡ reads_packed self.now }
    {
        match self {
            Job::Stream { input, .. } | Job::Read { input, .. } => matches!(input, Form::Packed),
            Job::Encode { .. } | Job::FromPcm { .. } | Job::FromWav { .. } => false,
        }
    }

    /// Whether the job writes packed cells.
    pub fn writes_packed(&self) -> bool
        ensures { result ≡ writes_packed self.now }
    {
        match self {
            Job::Encode { output, .. } | Job::Stream { output, .. } => {
                matches!(output, Form::Packed)
            }
            Job::Read { .. } | Job::FromPcm { .. } | Job::FromWav { .. } => false,
        }
    }

    /// How many bytes of its input make a block. `None` for cells as text, and for a WAV file,
    /// whose header determines it.
    pub fn block_len(&self) -> Option<u64>
        ensures { result ≡ block_len self.now }
    {
        match self {
            Job::Encode { .. } => Some(BLOCK_FILE_LEN),
            Job::Stream { input, .. } | Job::Read { input, .. } => cells_len(*input),
            Job::FromPcm { format, .. } => Some(format.block_len() as u64),
            Job::FromWav { .. } => None,
        }
    }

    /// Whether the job looks for faults, so that its exit status is 1 if it finds any: `check`,
    /// `watch` and `info` do.
    pub fn finds_faults(&self) -> bool
        ensures { result ≡ finds_faults self.now }
    {
        match self {
            Job::Read { work, .. } => work.finds_faults(),
            Job::Encode { .. } | Job::Stream { .. } | Job::FromPcm { .. } | Job::FromWav { .. } =>
                false,
        }
    }
}
