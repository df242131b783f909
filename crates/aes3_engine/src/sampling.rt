//! Samples to a block file.

ghost use Rattle.std.specs.Prelude.{◌≡◌, ◌≢◌, ℕ, ◌+◌, ◌-◌, ◌<◌, ◌≤◌, ◌^◌, ◌%◌, ◌⊎◌, List, Bool, []};
ghost use Rattle.std.specs.Prelude.{true, false, None, Err, get_or, length, map, take, IfErr, IfOk};
ghost use Rattle.std.specs.Prelude.{IfSome, IsOk, OnErr, IsTrue};
ghost use Rattle.aes3_cell.specs.Ends.{Grew, GrewFront, Told};
ghost use Rattle.aes3_files.specs.Sound.{begins_sound};
ghost use Rattle.aes3_cell.specs.Writes.{Wrote};
ghost use Rattle.aes3_frame.specs.Files.{words_of};
ghost use Rattle.aes3_frame.specs.Sampled.{payload_of_sample};
ghost use Rattle.aes3_input.specs.Running.{InputRun, ends_of};
ghost use Rattle.aes3_forms_samples.specs.declared.sample_format.SampleFormat.TheVariants.{S32};
ghost use Rattle.aes3_forms_samples.specs.Formats.{asks_exact, block_len};
ghost use Rattle.aes3_engine.specs.Rewriting.{rewritten};
ghost use Rattle.aes3_engine.specs.Sampling.{IsPcm, Samples, pcm_file, pcm_words, sampled_file, sampled_words};
ghost use Rattle.aes3_engine.specs.Sampling.{sampling_state, words_in};
ghost use Rattle.aes3_engine.specs.Words.{block_words};

use crate::rewriting::rewrite_block;
use crate::words::put_block_words;
use aes3_block::{BLOCK_BYTES, Block};
use aes3_cell::{Counts, Fault, RunError, Sink, Source};
use aes3_files::{SOUND_HEAD_LEN, SoundFile};
use aes3_forms_samples::SampleFormat;
use aes3_forms_words::Words;
use aes3_input::{Input, convert};
use aes3_status::Change;

/// How many bytes a sample of 32 bits has.
const SAMPLE_BYTES: u64 = 4;

/// How many bytes of a sound file's header are checked.
const SOUND_HEAD_BYTES: u64 = SOUND_HEAD_LEN as u64;

/// Samples as they come, and the bytes of the current block. It does the conversion of
/// `from_pcm_words`, for a run that makes its samples from other bytes. Its taker is the change of
/// each block's channel status.
#[derive(Drop)]
pub struct SampleInput {
    format: SampleFormat,
    exact: bool,
    /// The form of the words that are written.
    words: Words,
    seen: u64,
    begun: [u8; BLOCK_BYTES],
    /// How many bytes of the current block were taken.
    at: usize,
    ghost few: { at < block_len format },
    ghost room: { at < 1536 },
}

/// The first place in a piece where a sample's lowest byte isn't zero, if that is an error. The
/// piece begins at byte `at` of a sample.
fn low_bits_in(exact: bool, piece: &[u8], at: usize) -> Option<usize>
    requires { at + length piece.now < 2 ^ 64 }
    ensures none { result ≡ None → exact ≡ true → (i : ℕ) → (at + i) % 4 ≡ 0
        → get_or piece.now i 0 ≡ 0 }
    ensures asked { IfSome result (λ _. exact ≡ true) }
    ensures within { IfSome result (λ i. i < length piece.now) }
    ensures lowest { IfSome result (λ i. (at + i) % 4 ≡ 0) }
    ensures some { IfSome result (λ i. get_or piece.now i 0 ≢ 0) }
    ensures first { IfSome result (λ i. (j : ℕ) → j < i → (at + j) % 4 ≡ 0
        → get_or piece.now j 0 ≡ 0) }
{
    if !exact {
        return None;
    }
    for (i, byte) in piece.iter().enumerate() {
        if (at + i) % 4 == 0 && *byte != 0 {
            return Some(i);
        }
    }
    None
}

/// Writes the block of samples of 32 bits with its channel status, as a block file with words in
/// this form.
// One place for all forms of samples: if each form made its own block, it would be copied once
// more.
#[inline(never)]
fn put_widened<T: Sink>(
    samples: &[u8; BLOCK_BYTES],
    change: &Change,
    words: Words,
    sink: &mut T,
) -> Result<(), Fault>
    requires room { T.failed sink.old + 1 < 2 ^ 64 }
    ensures { Wrote T.taken T.failed sink.old sink.new (block_words words (rewritten change.now
        (map payload_of_sample (words_of samples.now)))) result }
{
    let mut block = Block::of_samples(samples);
    rewrite_block(&mut block, change);
    put_block_words(&block, words, sink)
}

/// Writes the block of samples in a form, likewise.
fn put_samples<T: Sink>(
    format: SampleFormat,
    samples: &[u8; BLOCK_BYTES],
    change: &Change,
    words: Words,
    sink: &mut T,
) -> Result<(), Fault>
    requires room { T.failed sink.old + 1 < 2 ^ 64 }
    ensures bytes { IfOk result (λ _. Grew (T.taken sink.old) (T.taken sink.new)
        (block_words words (rewritten change.now
        (map payload_of_sample (words_in format (take (block_len format) samples.now)))))) }
    ensures no_failure { IfOk result (λ _. T.failed sink.new ≡ T.failed sink.old) }
    ensures err { OnErr result ((T.failed sink.new ≡ T.failed sink.old + 1)
        × GrewFront (T.taken sink.old) (T.taken sink.new)
        (block_words words (rewritten change.now
        (map payload_of_sample (words_in format (take (block_len format) samples.now)))))) }
{
    match format {
        SampleFormat::S32 => put_widened(samples, change, words, sink),
        SampleFormat::S24 | SampleFormat::S24In32 | SampleFormat::S16 => {
            let mut wide = [0; BLOCK_BYTES];
            format.widen_into(samples, &mut wide);
            put_widened(&wide, change, words, sink)
        }
    }
}

impl Input<Change> for SampleInput {
    ghost state = { λ input change. sampling_state input.format input.exact
        input.words input.seen input.at input.begun change };

    /// Takes the part of a piece that belongs to the current block.
    fn take_front<T: Sink>(
        &mut self,
        change: &mut Change,
        sink: &mut T,
        piece: &[u8],
    ) -> Result<usize, RunError> {
        let at = self.at;
        let block_len = self.format.block_len();
        let len = piece.len().min(block_len - at);
        match self.low_bits_in(&piece[..len]) {
            Some(i) => {
                return Err(RunError::BadSample {
                    at: self.seen + i as u64,
                });
            }
            None => {}
        }
        self.begun[at..at + len].copy_from_slice(&piece[..len]);
        if self.has_header(at + len) {
            return Err(RunError::SoundHeader);
        }
        self.seen += len as u64;
        if at + len < block_len {
            self.at = at + len;
            return Ok(len);
        }
        self.at = 0;
        match put_samples(self.format, &self.begun, change, self.words, sink) {
            Ok(()) => Ok(len),
            Err(_) => Err(RunError::Write),
        }
    }

    /// Fills the current block up with zero samples.
    fn finish<T: Sink>(&mut self, change: &mut Change, sink: &mut T) -> Result<(), RunError> {
        let left = self.seen % self.format.frame_len() as u64;
        if left > 0 {
            return Err(RunError::BadLength { left });
        }
        if self.at == 0 {
            return Ok(());
        }
        self.begun[self.at..].fill(0);
        match put_samples(self.format, &self.begun, change, self.words, sink) {
            Ok(()) => Ok(()),
            Err(_) => Err(RunError::Write),
        }
    }
}

impl SampleInput {
    /// How many bytes of the current block have come.
    pub fn begun_len(&self) -> usize
        ensures len { result ≡ self.now.at }
        ensures few { result < 1536 }
    {
        self.at
    }

    /// Samples in this form, before the first. If `exact` is true, samples of more than 24 bits are
    /// errors. `words` is the form of the words that are written.
    pub fn new(format: SampleFormat, exact: bool, words: Words) -> Self
        ensures format { result.format ≡ format }
        ensures exact { result.exact ≡ exact }
        ensures words { result.words ≡ words }
        ensures start { Samples format exact result.seen result.at result.begun [] }
    {
        SampleInput {
            format,
            exact,
            words,
            seen: 0,
            begun: [0; BLOCK_BYTES],
            at: 0,
        }
    }

    /// The place in the next bytes where a sample's lowest byte isn't zero, if that is an error.
    fn low_bits_in(&self, piece: &[u8]) -> Option<usize>
        requires { length piece.now ≤ BLOCK_BYTES }
        ensures none { result ≡ None → asks_exact self.now.format self.now.exact ≡ true → (i : ℕ)
            → (self.now.seen + i) % SAMPLE_BYTES ≡ 0 → get_or piece.now i 0 ≡ 0 }
        ensures asked { IfSome result (λ _. asks_exact self.now.format self.now.exact ≡ true) }
        ensures within { IfSome result (λ i. i < length piece.now) }
        ensures lowest { IfSome result (λ i. (self.now.seen + i) % SAMPLE_BYTES ≡ 0) }
        ensures some { IfSome result (λ i. get_or piece.now i 0 ≢ 0) }
        ensures first { IfSome result (λ i. (j : ℕ) → j < i → (self.now.seen + j) % SAMPLE_BYTES ≡ 0
            → get_or piece.now j 0 ≡ 0) }
    {
        let at = (self.seen % SAMPLE_BYTES) as usize;
        low_bits_in(self.format.asks_exact(self.exact), piece, at)
    }

    /// Whether the header of a sound file ends in these first bytes of a block. No more than `seen`
    /// bytes were taken before.
    fn has_header(&self, len: usize) -> bool
        requires { len ≤ BLOCK_BYTES }
        ensures yes { result ≡ true → (self.now.seen < SOUND_HEAD_BYTES)
            × (begins_sound (take len self.now.begun) ≡ true) }
        ensures no { result ≡ false → self.now.seen < SOUND_HEAD_BYTES
            → begins_sound (take len self.now.begun) ≡ false }
    {
        self.seen < SOUND_HEAD_BYTES && SoundFile::begins(&self.begun[..len])
    }
}

/// Writes a block file of samples. Each sample is a word of 32 bits, lowest byte first, channel 1
/// and then channel 2 of each frame. The audio of a subframe is the highest 24 bits of its word
/// (AES3-1, IEC 60958-1); V and U are 0. The channel status of each block is what `change` makes of
/// zeros. The last block is filled up with zero samples.
///
/// # Errors
/// - `BadLength` if the input ends inside a frame.
/// - `BadSample` if `exact` is true and one of the lowest 8 bits of a word is set.
/// - `SoundHeader` if the input begins with the header of a sound file, and no sample before its
///   end was an error.
/// - `TooLong` if it has more than `max_bytes` bytes.
/// - `Read` and `Write` if the input or output failed.
///
/// The blocks that were whole before are written; after `Write`, a front of the output.
pub fn from_pcm<S: Source, T: Sink>(
    source: &mut S,
    sink: &mut T,
    max_bytes: u64,
    exact: bool,
    change: &Change,
) -> Result<Counts, RunError>
    requires source_room { S.failed source.old + 1 < 2 ^ 64 }
    requires sink_room { T.failed sink.old + 1 < 2 ^ 64 }
    requires limit { max_bytes ≤ 2 ^ 40 }

    // If it returns Ok, the block file of the samples is written, filled up with zero samples to
    // whole blocks.
    ensures file { IfOk result (λ _. (b : List ℕ) → Told (S.given source.old) (S.given source.new) b
        → Grew (T.taken sink.old) (T.taken sink.new) (pcm_file change.now b)) }

    // It returns Ok if the input is whole frames, is no sound file and fits, and neither input nor
    // output failed. If required, its samples must have at most 24 bits.
    ensures owed { (b : List ℕ) → Told (S.given source.old) (S.given source.new) b → IsPcm S32 exact b
        → length b ≤ max_bytes
        → S.failed source.new ≡ S.failed source.old → T.failed sink.new ≡ T.failed sink.old
        → IsOk result }

    // What it returns for every input, and what it has written then.
    ensures run { InputRun (sampled_file exact change.now) max_bytes
        (ends_of S.Source source.old source.new T.Sink sink.old sink.new) result }
{
    from_pcm_words(
        source,
        sink,
        max_bytes,
        SampleFormat::S32,
        exact,
        change,
        Words::Own,
    )
}

/// Does what `from_pcm` does, with samples in this form, and writes a block file whose words are in
/// this form. Audio bits that the samples don't have are 0. A sample of at most 24 bits is never an
/// error.
///
/// # Errors
/// Those of `from_pcm`.
pub fn from_pcm_words<S: Source, T: Sink>(
    source: &mut S,
    sink: &mut T,
    max_bytes: u64,
    format: SampleFormat,
    exact: bool,
    change: &Change,
    words: Words,
) -> Result<Counts, RunError>
    requires source_room { S.failed source.old + 1 < 2 ^ 64 }
    requires sink_room { T.failed sink.old + 1 < 2 ^ 64 }
    requires limit { max_bytes ≤ 2 ^ 40 }

    // If it returns Ok, the block file of the samples is written, filled up with zero samples to
    // whole blocks.
    ensures file { IfOk result (λ _. (b : List ℕ) → Told (S.given source.old) (S.given source.new) b
        → Grew (T.taken sink.old) (T.taken sink.new) (pcm_words format words change.now b)) }

    // It returns Ok if the input is whole frames, is no sound file and fits, and neither input nor
    // output failed. If required, its samples must have at most 24 bits.
    ensures owed { (b : List ℕ) → Told (S.given source.old) (S.given source.new) b → IsPcm format exact b
        → length b ≤ max_bytes
        → S.failed source.new ≡ S.failed source.old → T.failed sink.new ≡ T.failed sink.old
        → IsOk result }

    // What it returns for every input, and what it has written then.
    ensures run { InputRun (sampled_words format exact words change.now) max_bytes
        (ends_of S.Source source.old source.new T.Sink sink.old sink.new) result }
{
    let mut input = SampleInput::new(format, exact, words);
    let block_len = format.block_len() as u64;
    let mut change = *change;
    let bytes = convert(source, sink, max_bytes, &mut input, &mut change)?;
    Ok(Counts {
        bytes,
        cells: 0,
        blocks: bytes.div_ceil(block_len),
        faults: 0,
        unfinished: 0,
        marks: 0,
    })
}
