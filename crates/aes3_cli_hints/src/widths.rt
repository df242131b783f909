//! Whether samples look like those of another form than they were read as.
//!
//! Audible sound moves little from one sample to the next, while the low bits of samples move at
//! random. So samples look like a form if both channels move little in it. They look wrong in a
//! form if one of their channels moves like noise. Samples of 16 bits read as 32 are the exception:
//! the higher halves of these are a channel at double speed, and the lower halves the other
//! channel.

ghost use Rattle.std.specs.Prelude.{IfSome, IsTrue};
ghost use Rattle.aes3_cli_hints.specs.Sentences.{is_told};

use aes3_forms_samples::SampleFormat;

/// The forms, the narrowest first: samples of 16 bits can move little in a wider one too.
const FORMATS: [SampleFormat; 4] = [
    SampleFormat::S16,
    SampleFormat::S24,
    SampleFormat::S24In32,
    SampleFormat::S32,
];

/// The least range of the samples of a channel, of 65,536 steps, from which anything can be
/// concluded.
const LEAST_RANGE: u64 = 256;

/// What to do if samples that were read in this form look like those of another.
pub(crate) fn advice_on_width(format: SampleFormat, head: &[u8]) -> Option<&'static str>
    ensures { IfSome result (λ told. IsTrue (is_told told.now)) }
{
    Some(advice_on(format_by_looks(format, head)?))
}

/// Another form than this one, if the samples look like it.
fn format_by_looks(format: SampleFormat, head: &[u8]) -> Option<SampleFormat> {
    let read = Samples::of(format, head);
    for other in FORMATS {
        if other != format && looks_better(other, head, format, read) {
            return Some(other);
        }
    }
    None
}

/// Whether they look like samples of `other`, and not like those of the form that was asked for.
fn looks_better(other: SampleFormat, head: &[u8], format: SampleFormat, read: Samples) -> bool {
    let samples = Samples::of(other, head);
    if !samples.is_possible || !samples.first.moves_little() || !samples.second.moves_little() {
        return false;
    }
    match (format, other) {
        (SampleFormat::S32, SampleFormat::S16) => true,
        (SampleFormat::S32, SampleFormat::S24In32) => false,
        _ => read.first.is_noise() || read.second.is_noise(),
    }
}

/// What to do if samples are of this form.
fn advice_on(format: SampleFormat) -> &'static str
    ensures { IsTrue (is_told result.now) }
{
    match format {
        SampleFormat::S16 => "these look like samples of 16 bits: try `--pcm s16`",
        SampleFormat::S24 => "these look like samples of 24 bits in 3 bytes: try `--pcm s24`",
        SampleFormat::S24In32 => {
            "these look like samples of 24 bits in 4 bytes: try `--pcm s24in32`"
        }
        SampleFormat::S32 => "these look like samples of 32 bits: leave `--pcm` out",
    }
}

/// What is known of samples in a form.
#[derive(Clone, Copy)]
struct Samples {
    first: Channel,
    second: Channel,
    /// Whether the bytes that only carry the sign do so.
    is_possible: bool,
}

impl Samples {
    /// The samples of these bytes, read in this form.
    fn of(format: SampleFormat, head: &[u8]) -> Self {
        let mut samples = Samples {
            first: Channel::NONE,
            second: Channel::NONE,
            is_possible: true,
        };
        for frame in head.chunks_exact(format.frame_len()) {
            let (first, second) = frame.split_at(frame.len() / 2);
            samples.first.take(high_bits(format, first));
            samples.second.take(high_bits(format, second));
            samples.is_possible &= carries_sign(format, first) && carries_sign(format, second);
        }
        samples
    }
}

/// The byte of this number; 0 if there is none.
fn byte_at(sample: &[u8], at: usize) -> u8 {
    match sample.get(at) {
        Some(byte) => *byte,
        None => 0,
    }
}

/// The highest 16 bits of a sample as a number from 0 on, with silence at 32,768.
fn high_bits(format: SampleFormat, sample: &[u8]) -> u16 {
    let at = match format {
        SampleFormat::S16 => 0,
        SampleFormat::S24 | SampleFormat::S24In32 => 1,
        SampleFormat::S32 => 2,
    };
    let bits = u16::from(byte_at(sample, at)) | u16::from(byte_at(sample, at + 1)) << 8;
    bits ^ 0x8000
}

/// Whether the byte above the 24 bits of a sample is its sign, if the form has such a byte.
fn carries_sign(format: SampleFormat, sample: &[u8]) -> bool {
    match format {
        SampleFormat::S24In32 => {
            let sign = if byte_at(sample, 2) < 128 { 0 } else { 255 };
            byte_at(sample, 3) == sign
        }
        _ => true,
    }
}

/// How the samples of a channel move.
#[derive(Clone, Copy)]
struct Channel {
    last: Option<u16>,
    least: u16,
    most: u16,
    /// The sum of the distances from one sample to the next, and from silence.
    moved: u64,
    sizes: u64,
    /// How many samples there are, and how many of them differ from the one before.
    count: u64,
    changes: u64,
}

impl Channel {
    /// No samples.
    const NONE: Channel = Channel {
        last: None,
        least: u16::MAX,
        most: 0,
        moved: 0,
        sizes: 0,
        count: 0,
        changes: 0,
    };

    /// Takes the next sample.
    fn take(&mut self, sample: u16) {
        if let Some(last) = self.last {
            self.moved = self.moved.saturating_add(u64::from(sample.abs_diff(last)));
            self.changes = self.changes.saturating_add(u64::from(sample != last));
        }
        self.last = Some(sample);
        self.least = self.least.min(sample);
        self.most = self.most.max(sample);
        self.sizes = self
            .sizes
            .saturating_add(u64::from(sample.abs_diff(0x8000)));
        self.count = self.count.saturating_add(1);
    }

    /// Whether the range of the samples is large enough to conclude anything.
    fn tells(self) -> bool {
        u64::from(self.most.saturating_sub(self.least)) >= LEAST_RANGE
    }

    /// Whether they move, but by less than two fifths of their size, as audible sound does.
    fn moves_little(self) -> bool {
        self.tells()
            && self.moved.saturating_mul(5) < self.sizes.saturating_mul(2)
            && self.changes.saturating_mul(4) >= self.count
    }

    /// Whether they move by four fifths to seventeen tenths of their size. Noise does so by four
    /// thirds to 1.42.
    fn is_noise(self) -> bool {
        self.tells()
            && self.moved.saturating_mul(5) > self.sizes.saturating_mul(4)
            && self.moved.saturating_mul(10) < self.sizes.saturating_mul(17)
    }
}
