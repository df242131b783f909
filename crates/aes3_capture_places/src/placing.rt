//! The run from a report to the same report with the samples.

ghost use Rattle.std.specs.Prelude.{◌≡◌, ◌+◌, ◌<◌, ◌≤◌, ◌^◌, [], IfErr, IfOk, OnErr, false};
ghost use Rattle.aes3_capture_places.specs.Placing.{AreFigures, ArePlaced, KeepsLatest, nothing_read};

use crate::cell_name::CellName;
use crate::places::Places;
use aes3_capture_recovery::{Figures, Refusal, Unit};
use aes3_cell::{Fault, Sink, Source, write_all};
use itoa::Buffer;

/// How many octets of the report are read at once.
const TEXT_LEN: usize = 4096;

/// How many octets of samples are read at once.
const PIECE_LEN: usize = 65_536;

/// How many octets of samples are taken at once. A mark can be made after each.
const CHUNK: usize = 64;

/// How many octets a report had, how many of its lines got the sample of the cell that they name,
/// and how many did not.
#[derive(Clone, Copy, Default)]
pub struct Outcome {
    pub octets: u64,
    pub found: u64,
    pub missing: u64,
}

/// A capture that is read as far as it is asked for.
#[derive(Drop)]
pub struct Capture {
    places: Places,
    unit: Unit,
    /// Samples in a second, if that is known.
    rate: Option<u64>,
    piece: [u8; PIECE_LEN],
    /// How many octets of a sample that is not whole wait in the piece.
    kept: usize,
    ended: bool,
    outcome: Outcome,
    ghost few: { kept ≤ 1 },
}

impl Capture {
    /// A capture of which nothing was read. `period` is the length of a cell in 65,536ths of a
    /// sample, if it is given.
    pub fn new(period: Option<u64>, unit: Unit, rate: Option<u64>) -> Self
        ensures placed { ArePlaced period [] result.places }
        ensures latest { KeepsLatest result.places }
        ensures unit { result.unit ≡ unit }
        ensures rate { result.rate ≡ rate }
        ensures outcome { result.outcome ≡ nothing_read }
        ensures unread { (result.kept ≡ 0) × (result.ended ≡ false) }
    {
        Capture {
            places: Places::new(period),
            unit,
            rate,
            piece: [0; PIECE_LEN],
            kept: 0,
            ended: false,
            outcome: Outcome::default(),
        }
    }

    /// Copies a report, and adds to each line that names a cell the sample that the cell begins at.
    /// If the rate is known, it also adds the sample's time in seconds. Returns how many lines got
    /// their sample.
    ///
    /// # Errors
    /// Whether a source or the sink failed.
    pub fn place_report<R: Source, S: Source, T: Sink>(
        &mut self,
        report: &mut R,
        samples: &mut S,
        sink: &mut T,
    ) -> Result<Outcome, Refusal>
        requires report_room { R.failed report.old + 1 < 2 ^ 64 }
        requires samples_room { S.failed samples.old + 1 < 2 ^ 64 }
        requires sink_room { T.failed sink.old + 1 < 2 ^ 64 }
        ensures report_well { IfOk result (λ _. R.failed report.new ≡ R.failed report.old) }
        ensures samples_well { IfOk result (λ _. S.failed samples.new ≡ S.failed samples.old) }
        ensures sink_well { IfOk result (λ _. T.failed sink.new ≡ T.failed sink.old) }
        ensures passed { IfOk result (λ _. T.passed sink.new ≡ T.taken sink.new) }
        ensures err { OnErr result (R.failed report.old + S.failed samples.old + T.failed sink.old
            < R.failed report.new + S.failed samples.new + T.failed sink.new) }
    {
        let mut name = CellName::new();
        let mut text = [0; TEXT_LEN];
        'pieces: for _ in 0..u64::MAX {
            let len = match report.read(&mut text) {
                Ok(len) => len,
                Err(_) => return Err(Refusal::Read),
            };
            if len == 0 {
                break;
            }
            self.outcome.octets = self.outcome.octets.saturating_add(len as u64);
            self.place_piece(&mut name, &text[..len], samples, sink)?;
        }
        let cell = name.end();
        self.put_place(cell, false, samples, sink)?;
        match sink.flush() {
            Ok(()) => Ok(self.outcome),
            Err(_) => Err(Refusal::Write),
        }
    }

    /// Copies a piece of a report, with the samples of the lines that end in it.
    fn place_piece<S: Source, T: Sink>(
        &mut self,
        name: &mut CellName,
        text: &[u8],
        samples: &mut S,
        sink: &mut T,
    ) -> Result<(), Refusal>
        requires samples_room { S.failed samples.old + 1 < 2 ^ 64 }
        requires sink_room { T.failed sink.old + 1 < 2 ^ 64 }
        ensures samples_well { IfOk result (λ _. S.failed samples.new ≡ S.failed samples.old) }
        ensures sink_well { IfOk result (λ _. T.failed sink.new ≡ T.failed sink.old) }
        ensures err { OnErr result (S.failed samples.old + T.failed sink.old < S.failed samples.new + T.failed sink.new) }
    {
        let mut from = 0;
        for at in 0..text.len() {
            let octet = text[at];
            if octet == b'\n' || octet == b'}' {
                put(sink, &text[from..at])?;
                from = at;
                let cell = name.end();
                self.put_place(cell, octet == b'}', samples, sink)?;
            } else {
                name.take(octet);
            }
        }
        put(sink, &text[from..])
    }

    /// Writes the sample of the cell that a line names, if it names one and the sample is found.
    fn put_place<S: Source, T: Sink>(
        &mut self,
        cell: Option<u64>,
        is_json: bool,
        samples: &mut S,
        sink: &mut T,
    ) -> Result<(), Refusal>
        requires samples_room { S.failed samples.old + 1 < 2 ^ 64 }
        requires sink_room { T.failed sink.old + 1 < 2 ^ 64 }
        ensures samples_well { IfOk result (λ _. S.failed samples.new ≡ S.failed samples.old) }
        ensures sink_well { IfOk result (λ _. T.failed sink.new ≡ T.failed sink.old) }
        ensures err { OnErr result (S.failed samples.old + T.failed sink.old < S.failed samples.new + T.failed sink.new) }
    {
        let Some(cell) = cell else {
            return Ok(());
        };
        match self.find(cell, samples)? {
            Some(sample) => {
                self.outcome.found = self.outcome.found.saturating_add(1);
                put_sample(sink, sample, self.rate, is_json)
            }
            None => {
                self.outcome.missing = self.outcome.missing.saturating_add(1);
                Ok(())
            }
        }
    }

    /// The sample of a cell, for which the capture is read as far as needed.
    fn find<S: Source>(&mut self, cell: u64, samples: &mut S) -> Result<Option<u64>, Refusal>
        requires { S.failed samples.old + 1 < 2 ^ 64 }
        ensures well { IfOk result (λ _. S.failed samples.new ≡ S.failed samples.old) }
        ensures err { OnErr result (S.failed samples.new ≡ S.failed samples.old + 1) }
    {
        'pieces: for _ in 0..u64::MAX {
            if self.ended || !self.places.is_ahead(cell) {
                break;
            }
            match self.read_piece(samples) {
                Ok(()) => {}
                Err(_) => return Err(Refusal::Read),
            }
        }
        match self.places.sample_of(cell) {
            Some(sample) => Ok(Some(sample)),
            None if self.ended => Ok(self.places.last_sample_of(cell)),
            None => Ok(None),
        }
    }

    /// Reads a piece of the capture, and takes its whole samples.
    fn read_piece<S: Source>(&mut self, samples: &mut S) -> Result<(), Fault>
        requires { S.failed samples.old + 1 < 2 ^ 64 }
        ensures well { IfOk result (λ _. S.failed samples.new ≡ S.failed samples.old) }
        ensures err { OnErr result (S.failed samples.new ≡ S.failed samples.old + 1) }
    {
        let kept = self.kept;
        let len = samples.read(&mut self.piece[kept..])?;
        self.ended = len == 0;
        let whole = kept + len;
        let kept = whole % self.unit.len();
        let len = whole - kept;
        for chunk in self.piece[..len].chunks(CHUNK) {
            self.places.take(self.unit, chunk);
        }
        if kept == 1 {
            self.piece[0] = self.piece[len];
        }
        self.kept = kept;
        Ok(())
    }

    /// What was found of the line in the samples that were read.
    pub fn figures(&self) -> Figures
        ensures { AreFigures self.now.places.recovery result }
    {
        self.places.figures()
    }
}

/// Writes octets.
fn put<T: Sink>(sink: &mut T, octets: &[u8]) -> Result<(), Refusal>
    requires { T.failed sink.old + 1 < 2 ^ 64 }
    ensures well { IfOk result (λ _. T.failed sink.new ≡ T.failed sink.old) }
    ensures err { OnErr result (T.failed sink.new ≡ T.failed sink.old + 1) }
{
    match write_all(sink, octets) {
        Ok(()) => Ok(()),
        Err(_) => Err(Refusal::Write),
    }
}

/// Writes the number of a sample, and its time if the rate is known.
fn put_sample<T: Sink>(
    sink: &mut T,
    sample: u64,
    rate: Option<u64>,
    is_json: bool,
) -> Result<(), Refusal>
    requires { T.failed sink.old + 1 < 2 ^ 64 }
    ensures well { IfOk result (λ _. T.failed sink.new ≡ T.failed sink.old) }
    ensures err { OnErr result (T.failed sink.new ≡ T.failed sink.old + 1) }
{
    put(
        sink,
        if is_json {
            b",\"sample\":"
        } else {
            b" sample "
        },
    )?;
    put(sink, Buffer::new().format(sample).as_bytes())?;
    let Some(rate) = rate else {
        return Ok(());
    };
    put(
        sink,
        if is_json {
            b",\"seconds\":"
        } else {
            b" seconds "
        },
    )?;
    put_seconds(sink, sample, rate)
}

/// Writes the time of a sample in seconds, with nine places.
fn put_seconds<T: Sink>(sink: &mut T, sample: u64, rate: u64) -> Result<(), Refusal>
    requires { T.failed sink.old + 1 < 2 ^ 64 }
    ensures well { IfOk result (λ _. T.failed sink.new ≡ T.failed sink.old) }
    ensures err { OnErr result (T.failed sink.new ≡ T.failed sink.old + 1) }
{
    let rate = rate.max(1);
    put(sink, Buffer::new().format(sample / rate).as_bytes())?;
    let mut left = u128::from(sample % rate) * 1_000_000_000 / u128::from(rate);
    let mut digits = [b'0'; 9];
    for i in 0..9 {
        digits[8 - i] = b'0' + (left % 10) as u8;
        left /= 10;
    }
    put(sink, b".")?;
    put(sink, &digits)
}
