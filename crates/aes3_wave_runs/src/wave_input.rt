//! The octets after the header of a WAV file as an input: the samples of two channels of each frame
//! are passed on as samples of 32 bits.

ghost use Rattle.std.specs.Prelude.{◌≡◌, ◌<◌, ◌≤◌, ◌+◌, ◌*◌, ◌^◌, ℕ, List, [], Option, length};
ghost use Rattle.std.specs.Prelude.{take};
ghost use Rattle.std.specs.Option.{ForSome};
ghost use Rattle.aes3_wave.specs.Formats.{frame_len};
ghost use Rattle.aes3_wave.specs.Samples.{two_samples};
ghost use Rattle.aes3_forms_samples.specs.Formats.{block_len, widened};
ghost use Rattle.aes3_forms_samples.specs.declared.sample_format.SampleFormat.TheVariants.{S32};
ghost use Rattle.aes3_status.specs.declared.change.Change.{Change};
ghost use Rattle.aes3_input.specs.Running.{FrontRan, movement_of};
ghost use Rattle.aes3_wave_runs.specs.Frames.{IsForm, parts_of};
ghost use Rattle.aes3_wave_runs.specs.States.{state_of};
ghost use Rattle.aes3_wave_runs.specs.Wave.{frames_most, taken_len};

use crate::frames::{PAIR_LEN, block_of, form_of, put_each};
use crate::wave_state::{FRAME_MOST, WaveInput};
use aes3_cell::{RunError, Sink};
use aes3_engine::SampleInput;
use aes3_forms_samples::{BLOCK_BYTES, SampleFormat};
use aes3_forms_words::Words;
use aes3_frame::FRAMES;
use aes3_input::{Input, feed_fronts};
use aes3_status::Change;
use aes3_wave::{Channels, WaveFormat};

/// How many frames are taken at most: their samples of 32 bits have 2^40 octets.
const FRAMES_MOST: u64 = 137_438_953_472;

fn blank_frame() -> [u8; FRAME_MOST]
    ensures { length result ≡ FRAME_MOST }
{
    [0; FRAME_MOST]
}

/// How many octets `FRAMES_MOST` frames have.
pub(crate) fn frames_most(format: WaveFormat) -> u64
    ensures most { result ≡ frames_most format }
    ensures few { result < 2 ^ 55 }
{
    FRAMES_MOST * format.frame_len() as u64
}

/// How many octets are taken as samples at most, if the header gives this length.
pub(crate) fn taken_len(format: WaveFormat, len: Option<u64>) -> u64
    ensures { result ≡ taken_len format len }
{
    match len {
        Some(len) => len.min(frames_most(format)),
        None => frames_most(format),
    }
}

impl WaveInput {
    /// An input of these two channels that has taken nothing. If `exact` is true, samples of more
    /// than 24 bits are errors. `words` is the form of the words that are written.
    pub(crate) fn new(
        format: WaveFormat,
        channels: Channels,
        len: Option<u64>,
        exact: bool,
        words: Words,
    ) -> Self
        requires first { channels.first < format.channels }
        requires second { ForSome channels.second (λ n. n < format.channels) }
        requires frame { frame_len format < 2 ^ 16 }
        ensures format { result.format ≡ format }
        ensures channels { result.channels ≡ channels }
        ensures len { result.len ≡ taken_len format len }
        ensures samples { result.samples.format ≡ S32 }
        ensures exact { result.samples.exact ≡ exact }
        ensures words { result.samples.words ≡ words }
        ensures start { (change : Change) → (state_of result change).follows [] }
    {
        let len = taken_len(format, len);
        WaveInput {
            samples: SampleInput::new(SampleFormat::S32, exact, words),
            format,
            channels,
            len,
            left: len,
            begun: blank_frame(),
            at: 0,
        }
    }

    /// How many frames are taken at once: no more than the current block lacks, so that the frames
    /// after it are taken whole.
    fn frames_due(&self, octets: &[u8]) -> usize
        requires { frame_len self.now.format ≤ length octets.now }
        ensures some { 0 < result }
        ensures few { result ≤ FRAMES }
        ensures frames { result * frame_len self.now.format ≤ length octets.now }
    {
        let due = FRAMES - self.samples.begun_len() / PAIR_LEN;
        (octets.len() / self.format.frame_len()).min(due)
    }

    /// Takes the first frames as the pairs of samples made of them, if no frame is begun. Returns
    /// how many octets they have. `octets` is a parameter only for the clauses.
    fn take_pairs<T: Sink>(
        &mut self,
        change: &mut Change,
        sink: &mut T,
        _octets: &[u8],
        count: usize,
        pairs: &[u8],
    ) -> Result<usize, RunError>
        requires some { 0 < count }
        requires frames { count * frame_len self.old.format ≤ length _octets.now }
        requires pairs { pairs.now ≡ parts_of (two_samples self.old.format self.old.channels)
            (frame_len self.old.format) count _octets.now }
        requires samples { length _octets.now ≤ self.old.left }
        requires none { self.old.at ≡ 0 }
        requires room { T.failed sink.old + 1 < 2 ^ 64 }
        requires following { (b : List ℕ) × (length b + length _octets.now ≤ 2 ^ 40)
            × (state_of self.old change.old).follows b }
        ensures { FrontRan (state_of self.old change.old) (state_of self.new change.new) _octets.now
            (movement_of T.taken T.failed sink.old sink.new) result }
    {
        let len = self.format.frame_len();
        feed_fronts(&mut self.samples, change, sink, pairs)?;
        self.left -= (count * len) as u64;
        Ok(count * len)
    }

    /// Takes all whole frames if no frame is begun and their octets are samples of 32 bits.
    fn take_wide<T: Sink>(
        &mut self,
        change: &mut Change,
        sink: &mut T,
        octets: &[u8],
    ) -> Result<usize, RunError>
        requires some { frame_len self.old.format ≤ length octets.now }
        requires wide { IsForm self.old.format self.old.channels S32 }
        requires samples { length octets.now ≤ self.old.left }
        requires none { self.old.at ≡ 0 }
        requires room { T.failed sink.old + 1 < 2 ^ 64 }
        requires following { (b : List ℕ) × (length b + length octets.now ≤ 2 ^ 40)
            × (state_of self.old change.old).follows b }
        ensures { FrontRan (state_of self.old change.old) (state_of self.new change.new) octets.now
            (movement_of T.taken T.failed sink.old sink.new) result }
    {
        let len = self.format.frame_len();
        let count = octets.len() / len;
        self.take_pairs(change, sink, octets, count, &octets[..count * len])
    }

    /// Takes the first frames as a block of samples in this form, if no frame is begun.
    #[inline(never)]
    fn take_widened<T: Sink>(
        &mut self,
        change: &mut Change,
        sink: &mut T,
        octets: &[u8],
        count: usize,
        form: SampleFormat,
        block: &[u8; BLOCK_BYTES],
    ) -> Result<usize, RunError>
        requires some { 0 < count }
        requires few { count ≤ FRAMES }
        requires frames { count * frame_len self.old.format ≤ length octets.now }
        requires block { take (PAIR_LEN * count) (widened form (take (block_len form) block.now))
            ≡ parts_of (two_samples self.old.format self.old.channels)
            (frame_len self.old.format) count octets.now }
        requires samples { length octets.now ≤ self.old.left }
        requires none { self.old.at ≡ 0 }
        requires room { T.failed sink.old + 1 < 2 ^ 64 }
        requires following { (b : List ℕ) × (length b + length octets.now ≤ 2 ^ 40)
            × (state_of self.old change.old).follows b }
        ensures { FrontRan (state_of self.old change.old) (state_of self.new change.new) octets.now
            (movement_of T.taken T.failed sink.old sink.new) result }
    {
        let mut wide = [0; BLOCK_BYTES];
        form.widen_into(block, &mut wide);
        self.take_pairs(change, sink, octets, count, &wide[..PAIR_LEN * count])
    }

    /// Takes whole frames if no frame is begun and their octets are samples in this form. One by
    /// one they would take four times as long.
    fn take_block<T: Sink>(
        &mut self,
        change: &mut Change,
        sink: &mut T,
        octets: &[u8],
        form: SampleFormat,
    ) -> Result<usize, RunError>
        requires some { frame_len self.old.format ≤ length octets.now }
        requires form { IsForm self.old.format self.old.channels form }
        requires samples { length octets.now ≤ self.old.left }
        requires none { self.old.at ≡ 0 }
        requires room { T.failed sink.old + 1 < 2 ^ 64 }
        requires following { (b : List ℕ) × (length b + length octets.now ≤ 2 ^ 40)
            × (state_of self.old change.old).follows b }
        ensures { FrontRan (state_of self.old change.old) (state_of self.new change.new) octets.now
            (movement_of T.taken T.failed sink.old sink.new) result }
    {
        let count = self.frames_due(octets);
        match octets.first_chunk() {
            Some(block) => self.take_widened(change, sink, octets, count, form, block),
            None => self.take_widened(change, sink, octets, count, form, &block_of(octets)),
        }
    }

    /// Takes whole frames, if no frame is begun, and returns how many octets they have.
    fn take_frames<T: Sink>(
        &mut self,
        change: &mut Change,
        sink: &mut T,
        octets: &[u8],
    ) -> Result<usize, RunError>
        requires some { frame_len self.old.format ≤ length octets.now }
        requires samples { length octets.now ≤ self.old.left }
        requires none { self.old.at ≡ 0 }
        requires room { T.failed sink.old + 1 < 2 ^ 64 }
        requires following { (b : List ℕ) × (length b + length octets.now ≤ 2 ^ 40)
            × (state_of self.old change.old).follows b }
        ensures { FrontRan (state_of self.old change.old) (state_of self.new change.new) octets.now
            (movement_of T.taken T.failed sink.old sink.new) result }
    {
        match form_of(self.format, self.channels) {
            Some(SampleFormat::S32) => self.take_wide(change, sink, octets),
            Some(form) => self.take_block(change, sink, octets, form),
            None => {
                let count = self.frames_due(octets);
                let mut wide = [0; BLOCK_BYTES];
                put_each(self.format, self.channels, octets, count, &mut wide);
                self.take_pairs(change, sink, octets, count, &wide[..PAIR_LEN * count])
            }
        }
    }

    /// Takes a part of a frame, at most up to its end, and returns how many octets it has.
    fn take_part<T: Sink>(
        &mut self,
        change: &mut Change,
        sink: &mut T,
        octets: &[u8],
    ) -> Result<usize, RunError>
        requires some { 0 < length octets.now }
        requires samples { length octets.now ≤ self.old.left }
        requires room { T.failed sink.old + 1 < 2 ^ 64 }
        requires following { (b : List ℕ) × (length b + length octets.now ≤ 2 ^ 40)
            × (state_of self.old change.old).follows b }
        ensures { FrontRan (state_of self.old change.old) (state_of self.new change.new) octets.now
            (movement_of T.taken T.failed sink.old sink.new) result }
    {
        let len = self.format.frame_len();
        let at = self.at;
        let count = octets.len().min(len - at);
        self.begun[at..at + count].copy_from_slice(&octets[..count]);
        if at + count < len {
            self.left -= count as u64;
            self.at = at + count;
            return Ok(count);
        }
        let pair = self.format.two_samples(self.channels, &self.begun[..len]);
        feed_fronts(&mut self.samples, change, sink, &pair)?;
        self.left -= count as u64;
        self.at = 0;
        Ok(count)
    }
}

impl Input<Change> for WaveInput {
    ghost state = { state_of };

    /// Takes whole frames, or a part of one. Octets after the samples are ignored.
    fn take_front<T: Sink>(
        &mut self,
        change: &mut Change,
        sink: &mut T,
        piece: &[u8],
    ) -> Result<usize, RunError> {
        let samples = self.left.min(piece.len() as u64) as usize;
        if samples == 0 {
            return Ok(piece.len());
        }
        if self.at == 0 && self.format.frame_len() <= samples {
            self.take_frames(change, sink, &piece[..samples])
        } else {
            self.take_part(change, sink, &piece[..samples])
        }
    }

    fn finish<T: Sink>(&mut self, change: &mut Change, sink: &mut T) -> Result<(), RunError> {
        if self.at > 0 {
            return Err(RunError::BadLength {
                left: self.at as u64,
            });
        }
        self.samples.finish(change, sink)
    }
}
