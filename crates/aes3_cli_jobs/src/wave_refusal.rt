//! Why a command line or its job is rejected: a refusal of a run, 1 to 13, or 14 or 15 for a WAV file.

ghost use Rattle.std.specs.Prelude.{◌≡◌};
ghost use Rattle.aes3_cli_jobs.specs.Refusals.{number_of_refusal, place_of_refusal};

use aes3_cell::RunError;
use aes3_wave::HeaderError;

/// Why a command line or its job is rejected.
#[derive(Clone, Copy, PartialEq, Eq)]
pub enum Refusal {
    /// An error of a run over cells, words or samples.
    Run(RunError),
    /// The header of a WAV file is wrong or of a format that is not read, and where.
    Header(HeaderError),
    /// A WAV file does not have a chosen channel; `channels` is how many it has.
    NoChannel { channels: u16 },
}

impl Refusal {
    /// The number of the error, 1 to 15, as the program prints it.
    pub fn number(&self) -> u8
        ensures { result ≡ number_of_refusal self.now }
    {
        match self {
            Refusal::Run(error) => error.number(),
            Refusal::Header(_) => 14,
            Refusal::NoChannel { .. } => 15,
        }
    }

    /// The place of the error. For a run it is the run's. For a header it is an octet of the file,
    /// counted from 0. For a channel it is how many channels the file has.
    pub fn place(&self) -> Option<u64>
        ensures { result ≡ place_of_refusal self.now }
    {
        match self {
            Refusal::Run(error) => error.place(),
            Refusal::Header(error) => Some(error.at),
            Refusal::NoChannel { channels } => Some(u64::from(*channels)),
        }
    }
}
