//! The header of a WAV file, and the samples after it.

ghost use Rattle.std.specs.Prelude.{Bool, ◌≡◌, ◌+◌, ◌<◌, ◌^◌, None, false, true};
ghost use Rattle.aes3_cell.specs.Writes.{Wrote};
ghost use Rattle.aes3_lock.specs.Reports.{decided, reports};
ghost use Rattle.aes3_lock_runs.specs.Listening.{reports_in};
ghost use Rattle.aes3_wave.specs.Written.{written};
ghost use Rattle.aes3_wave_runs.specs.HeadedSamples.{IsOpened, IsQuiet, close_of, headed, named_after, open_after};
ghost use Rattle.aes3_wave_runs.specs.HeadedSamples.{opened_after};
ghost use Rattle.aes3_wave_runs.specs.ToWav.{first_given, rate_for};

use crate::status_use::rate_of_status;
use aes3_cell::{Fault, Sink, write_all};
use aes3_engine::{Listener, MendedBlocks, ReportListener, Reporter};
use aes3_frame::Channel;
use aes3_lock::{Ending, Lock};
use aes3_wave::{Depth, header_of};

/// The sampling frequency of a file whose first block names no frequency, in hertz.
const USUAL_RATE: u32 = 48_000;

/// The sampling frequency of the file: the chosen one, else the one that the status names.
pub(crate) fn rate_for(rate: Option<u32>, named: Option<u32>) -> u32
    ensures { result ≡ rate_for rate named }
{
    rate.or(named).unwrap_or(USUAL_RATE)
}

/// The header of a WAV file, written before the first block that is given.
#[derive(Drop)]
pub(crate) struct Header {
    depth: Depth,
    /// The chosen sampling frequency.
    rate: Option<u32>,
    /// Whether the header is written.
    is_written: bool,
    /// The sampling frequency that the status of the first block names.
    pub(crate) named: Option<u32>,
}

impl Header {
    /// Writes the header, for a length that is not known.
    ///
    /// # Errors
    /// The sink's fault; then it has taken a front of the octets.
    fn put<T: Sink>(&self, sink: &mut T, named: Option<u32>) -> Result<(), Fault>
        requires room { T.failed sink.old + 1 < 2 ^ 64 }
        ensures { Wrote T.taken T.failed sink.old sink.new
            (written self.now.depth (rate_for self.now.rate named) None) result }
    {
        let header = header_of(self.depth, rate_for(self.rate, named), None);
        write_all(sink, header.as_slice())
    }

    /// Writes the header before the first block, which names this sampling frequency.
    ///
    /// # Errors
    /// The sink's fault; then it has taken a front of the octets.
    fn begin<T: Sink>(&mut self, sink: &mut T, named: Option<u32>) -> Result<(), Fault>
        requires room { T.failed sink.old + 1 < 2 ^ 64 }
        ensures depth { self.new.depth ≡ self.old.depth }
        ensures rate { self.new.rate ≡ self.old.rate }
        ensures is_written { self.new.is_written ≡ true }
        ensures named { self.new.named ≡ named }
        ensures wrote { Wrote T.taken T.failed sink.old sink.new
            (written self.old.depth (rate_for self.old.rate named) None) result }
    {
        self.is_written = true;
        self.named = named;
        self.put(sink, named)
    }

    /// Writes the header if an ending that a lock has just returned gives the first block. If
    /// marked blocks are given too, such a block counts.
    ///
    /// # Errors
    /// The sink's fault; then it has taken a front of the octets.
    fn open<T: Sink>(
        &mut self,
        sink: &mut T,
        lock: &Lock,
        ending: Option<Ending>,
        marked: bool,
    ) -> Result<(), Fault>
        requires room { T.failed sink.old + 1 < 2 ^ 64 }
        ensures depth { self.new.depth ≡ self.old.depth }
        ensures rate { self.new.rate ≡ self.old.rate }
        ensures is_written { self.new.is_written ≡ open_after self.old.is_written
            (first_given marked (reports_in lock.now ending)) }
        ensures named { self.new.named ≡ named_after self.old.is_written self.old.named
            (first_given marked (reports_in lock.now ending)) }
        ensures wrote { Wrote T.taken T.failed sink.old sink.new
            (opened_after self.old.depth self.old.rate self.old.is_written
            (first_given marked (reports_in lock.now ending))) result }
    {
        if self.is_written {
            return Ok(());
        }
        match ending {
            None => Ok(()),
            Some(ending) => match ending {
                Ending::Whole { .. } => {
                    let block = lock.gathered_cells().block();
                    self.begin(sink, rate_of_status(&block.channel_status(Channel::First)))
                }
                Ending::Marked { .. } => {
                    if marked {
                        self.begin(sink, None)
                    } else {
                        Ok(())
                    }
                }
                Ending::Fault { .. } => Ok(()),
                Ending::Unfinished { .. } => Ok(()),
            },
        }
    }

    /// Writes the header if no block came.
    ///
    /// # Errors
    /// The sink's fault; then it has taken a front of the octets.
    fn close<T: Sink>(&self, sink: &mut T) -> Result<(), Fault>
        requires room { T.failed sink.old + 1 < 2 ^ 64 }
        ensures { Wrote T.taken T.failed sink.old sink.new
            (close_of self.now.depth self.now.rate self.now.is_written) result }
    {
        if self.is_written {
            return Ok(());
        }
        self.put(sink, None)
    }
}

/// The blocks whose samples a listener gives.
pub(crate) trait GivenBlocks {
    ghost marked: { Bool };

    /// Whether it gives marked blocks too.
    fn gives_marked(&self) -> bool
        ensures { result ≡ marked };
}

impl<R: Reporter> GivenBlocks for ReportListener<R> {
    ghost marked = { false };

    fn gives_marked(&self) -> bool {
        false
    }
}

impl GivenBlocks for MendedBlocks {
    ghost marked = { true };

    fn gives_marked(&self) -> bool {
        true
    }
}

/// Listens to cells, and writes the header of a file and after it the samples that another listener
/// makes of the cells.
#[derive(Drop)]
pub(crate) struct Headed<L> {
    pub(crate) header: Header,
    pub(crate) samples: L,
}

impl<L: Listener> Headed<L> {
    /// A listener before the first cell.
    pub(crate) fn new(depth: Depth, rate: Option<u32>, samples: L) -> Self
        ensures depth { result.header.depth ≡ depth }
        ensures rate { result.header.rate ≡ rate }
        ensures is_written { result.header.is_written ≡ false }
        ensures named { result.header.named ≡ None }
        ensures samples { result.samples ≡ samples }
    {
        Headed {
            header: Header {
                depth,
                rate,
                is_written: false,
                named: None,
            },
            samples,
        }
    }
}

impl<L: Listener + GivenBlocks> Listener for Headed<L> {
    ghost follows = { λ k c. IsOpened L.marked k.header (decided c)
        × IsQuiet L.marked (L.writes k.samples) × L.follows k.samples c };

    ghost writes = { λ k. headed L.marked k.header.depth k.header.rate (L.writes k.samples) };

    ghost finished = { λ k c. IsOpened L.marked k.header (reports c) × L.finished k.samples c };

    fn hear<T: Sink>(
        &mut self,
        sink: &mut T,
        lock: &Lock,
        blocks: u64,
        ending: Option<Ending>,
    ) -> Result<(), Fault> {
        self.header
            .open(sink, lock, ending, self.samples.gives_marked())?;
        self.samples.hear(sink, lock, blocks, ending)
    }

    fn end<T: Sink>(
        &mut self,
        sink: &mut T,
        lock: &Lock,
        blocks: u64,
        ending: Option<Ending>,
    ) -> Result<(), Fault> {
        self.header
            .open(sink, lock, ending, self.samples.gives_marked())?;
        self.header.close(sink)?;
        self.samples.end(sink, lock, blocks, ending)
    }
}
