//! What is done with the cells that a job reads.

ghost use Rattle.std.specs.Prelude.{◌≡◌};
ghost use Rattle.aes3_cli_jobs.specs.Forms.{read_finds_faults, wave_depth};

use aes3_forms_samples::SampleFormat;
use aes3_forms_words::Words;
use aes3_frame::{CarriedBits, Channel, Fill};
use aes3_status::{Change, Detail, Lines, Notation, Style};
use aes3_wave::Depth;

/// Which blocks are written as a normal stream, and how they are changed.
#[derive(Clone, Copy, PartialEq, Eq)]
pub enum StreamWork {
    /// All blocks.
    Normal,
    /// `count` blocks, the first of which has the number `from`.
    Cut { from: u64, count: u64 },
    /// All blocks, with changed channel status, validity and user bits. If `exact` is true, only up
    /// to the first block whose status leaves out a setting.
    Rewrite { change: Change, exact: bool },
}

/// Output that is made from cells and is not cells.
#[derive(Clone, Copy, PartialEq, Eq)]
pub enum ReadWork {
    /// A block file whose words have this form.
    Decode {
        words: Words,
    },
    /// A line for each block and each fault, or for each fault.
    Check {
        lines: Lines,
    },
    /// The same, and a line for each gap: cells that lie in no whole block.
    Account {
        lines: Lines,
    },
    /// A line if what is known of a line changes: locked, lost, back, slipped and its end, in this
    /// style.
    Watch {
        style: Style,
    },
    /// The same, and a line of counts for each `every` cells, from 1 to 2^40.
    WatchSums {
        style: Style,
        every: u64,
    },
    /// One page about a recording, in this notation.
    Info {
        notation: Notation,
    },
    /// Two lines of channel status for each block, followed by this detail.
    Show {
        detail: Detail,
    },
    /// Those of these lines whose status differs from that of the block before.
    ShowChanges {
        detail: Detail,
    },
    /// A line for each preamble.
    Scan,
    /// The samples of blocks, in this form. If `valid` is true, zero for samples that are not
    /// valid.
    ToPcm {
        format: SampleFormat,
        valid: bool,
    },
    /// The samples of blocks, in this form, up to the first that would lose bits.
    ToExactPcm {
        format: SampleFormat,
    },
    /// The samples of blocks, in this form, with frames between them that fill the time which no
    /// block covers. If `marked` is true, blocks with wrong parity bits are given too, with the
    /// wrong subframes filled.
    ToFilledPcm {
        format: SampleFormat,
        fill: Fill,
        marked: bool,
    },
    /// A WAV file of the samples of blocks, with this width. If `valid` is true, zero for samples
    /// that are not valid. Its sampling frequency is `rate` in hertz, or else the one that the
    /// first block names.
    ToWav {
        depth: Depth,
        rate: Option<u32>,
        valid: bool,
    },
    /// Such a file with the samples up to the first block that would lose bits.
    ToExactWav {
        depth: Depth,
        rate: Option<u32>,
    },
    /// Such a file with frames between blocks that fill the time which no block covers. If `marked`
    /// is true, blocks with wrong parity bits are given too, with the wrong subframes filled.
    ToFilledWav {
        depth: Depth,
        rate: Option<u32>,
        fill: Fill,
        marked: bool,
    },
    /// The bits that the subframes of a channel carry after their audio.
    ToBits {
        bits: CarriedBits,
        channel: Channel,
    },
}

impl ReadWork {
    /// Whether the work looks for faults.
    pub(crate) fn finds_faults(&self) -> bool
        ensures { result ≡ read_finds_faults self.now }
    {
        matches!(
            self,
            ReadWork::Check { .. }
                | ReadWork::Account { .. }
                | ReadWork::Watch { .. }
                | ReadWork::WatchSums { .. }
                | ReadWork::Info { .. }
        )
    }

    /// The width of the samples of the WAV file that is written; `None` if none is written.
    pub fn wave_depth(&self) -> Option<Depth>
        ensures { result ≡ wave_depth self.now }
    {
        match self {
            ReadWork::ToWav { depth, .. }
            | ReadWork::ToExactWav { depth, .. }
            | ReadWork::ToFilledWav { depth, .. } => Some(*depth),
            _ => None,
        }
    }
}
