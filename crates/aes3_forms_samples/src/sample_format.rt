//! The forms of samples, and conversions of 32-bit samples to and from them.

ghost use Rattle.std.specs.Prelude.{◌≡◌, ◌≤◌, ◌<◌, length, take, ◌*◌, ◌+◌, ◌++◌, drop};
ghost use Rattle.aes3_forms_samples.specs.Formats.{asks_exact, block_len, frame_len, sample_len};
ghost use Rattle.aes3_forms_samples.specs.Formats.{narrow_one, narrowed, sign_octet, fours, fits};
ghost use Rattle.aes3_forms_samples.specs.Formats.{seconds_are_zero, widened};

/// How many samples a block has, and how many octets they have at most.
pub(crate) const BLOCK_SAMPLES: usize = 384;

pub const BLOCK_BYTES: usize = 1536;

/// How many octets a sample of 32 bits has.
const SAMPLE_BYTES: usize = 4;

/// How the 24 bits of a sample are stored in octets, the lowest octet first.
#[derive(Clone, Copy, PartialEq, Eq)]
pub enum SampleFormat {
    /// The highest bits of a word of 32, whose lowest 8 bits are 0.
    S32,
    /// Three octets.
    S24,
    /// The lowest bits of a word of 32 (`S24_LE` of ALSA). Its highest octet is written as the
    /// sign, and ignored when it is read.
    S24In32,
    /// The highest 16 bits in two octets.
    S16,
}

impl SampleFormat {
    /// How many octets a sample has.
    pub(crate) fn sample_len(self) -> usize
        ensures len { result ≡ sample_len self }
        ensures few { result ≤ 4 }
        ensures some { 0 < result }
    {
        match self {
            SampleFormat::S32 => 4,
            SampleFormat::S24 => 3,
            SampleFormat::S24In32 => 4,
            SampleFormat::S16 => 2,
        }
    }

    /// How many octets a frame of two samples has.
    pub fn frame_len(self) -> usize
        ensures len { result ≡ frame_len self }
        ensures some { 0 < result }
    {
        2 * self.sample_len()
    }

    /// How many octets the samples of a block have.
    pub fn block_len(self) -> usize
        ensures len { result ≡ block_len self }
        ensures few { result ≤ BLOCK_BYTES }
        ensures some { 0 < result }
    {
        BLOCK_SAMPLES * self.sample_len()
    }

    /// Whether samples of more than 24 bits are rejected, if `exact` asks for it. In other forms
    /// than 32 bits there are no such samples.
    pub fn asks_exact(self, exact: bool) -> bool
        ensures { result ≡ asks_exact self exact }
    {
        match self {
            SampleFormat::S32 => exact,
            SampleFormat::S24 => false,
            SampleFormat::S24In32 => false,
            SampleFormat::S16 => false,
        }
    }

    /// The four octets of a sample of 32 bits converted to this form, filled up with zeros.
    fn narrow_one(self, a: u8, b: u8, c: u8, d: u8) -> [u8; SAMPLE_BYTES]
        ensures { take (sample_len self) result ≡ narrow_one self a b c d }
    {
        match self {
            SampleFormat::S32 => [a, b, c, d],
            SampleFormat::S24 => [b, c, d, 0],
            SampleFormat::S24In32 => [b, c, d, sign_octet(d)],
            SampleFormat::S16 => [c, d, 0, 0],
        }
    }

    /// Converts samples of 32 bits, lowest octet first, to this form. The result is in the first
    /// octets, and their number is returned. Bits of a sample below those of the form are dropped.
    pub fn narrow(self, samples: &mut [u8]) -> usize
        ensures octets { take result samples.new ≡ narrowed self samples.old }
        ensures within { result ≤ length samples.new }
        ensures len { length samples.new ≡ length samples.old }
    {
        match self {
            SampleFormat::S32 => samples.len(),
            SampleFormat::S24 => self.narrow_each(samples),
            SampleFormat::S24In32 => self.narrow_each(samples),
            SampleFormat::S16 => self.narrow_each(samples),
        }
    }

    /// The same, sample by sample.
    fn narrow_each(self, samples: &mut [u8]) -> usize
        ensures octets { take result samples.new ≡ fours (narrow_one self) samples.old }
        ensures within { result ≤ length samples.new }
        ensures len { length samples.new ≡ length samples.old }
    {
        let len = self.sample_len();
        let mut at = 0;
        for i in 0..samples.len() / SAMPLE_BYTES {
            let from = SAMPLE_BYTES * i;
            let octets = self.narrow_one(
                samples[from],
                samples[from + 1],
                samples[from + 2],
                samples[from + 3],
            );
            samples[at..at + len].copy_from_slice(&octets[..len]);
            at += len;
        }
        at
    }

    /// Whether samples of 24 bits, given as samples of 32 with the lowest octet 0, lose no bit in
    /// this form. In 16 bits, a sample loses bits if its second octet is not 0.
    pub fn fits(self, samples: &[u8]) -> bool
        ensures { result ≡ fits self samples.now }
    {
        match self {
            SampleFormat::S32 => true,
            SampleFormat::S24 => true,
            SampleFormat::S24In32 => true,
            SampleFormat::S16 => seconds_are_zero(samples),
        }
    }

    /// Sample `i` of a block in this form, as four octets.
    fn wide_one(self, octets: &[u8; BLOCK_BYTES], i: usize) -> [u8; SAMPLE_BYTES]
        requires { i < BLOCK_SAMPLES }
        ensures { widened self (drop (sample_len self * i) (take (block_len self) octets.now))
            ≡ result ++ widened self (drop (sample_len self * (i + 1))
            (take (block_len self) octets.now)) }
    {
        match self {
            SampleFormat::S32 => {
                let at = 4 * i;
                [octets[at], octets[at + 1], octets[at + 2], octets[at + 3]]
            }
            SampleFormat::S24 => {
                let at = 3 * i;
                [0, octets[at], octets[at + 1], octets[at + 2]]
            }
            SampleFormat::S24In32 => {
                let at = 4 * i;
                [0, octets[at], octets[at + 1], octets[at + 2]]
            }
            SampleFormat::S16 => {
                let at = 2 * i;
                [0, 0, octets[at], octets[at + 1]]
            }
        }
    }

    /// Converts the samples of a block in this form, which are in the first octets, to samples of
    /// 32 bits, lowest octet first. Bits below those of the form are 0.
    // Into the caller's memory: returning a block would copy it, which costs a tenth of this. The
    // form is named in each case, so that no loop chooses it for each sample.
    pub fn widen_into(self, octets: &[u8; BLOCK_BYTES], wide: &mut [u8; BLOCK_BYTES])
        ensures { wide.new ≡ widened self (take (block_len self) octets.now) }
    {
        match self {
            SampleFormat::S32 => SampleFormat::S32.widen_each(octets, wide),
            SampleFormat::S24 => SampleFormat::S24.widen_each(octets, wide),
            SampleFormat::S24In32 => SampleFormat::S24In32.widen_each(octets, wide),
            SampleFormat::S16 => SampleFormat::S16.widen_each(octets, wide),
        }
    }

    /// The same, sample by sample.
    #[inline(always)]
    fn widen_each(self, octets: &[u8; BLOCK_BYTES], wide: &mut [u8; BLOCK_BYTES])
        ensures { wide.new ≡ widened self (take (block_len self) octets.now) }
    {
        for i in 0..BLOCK_SAMPLES {
            let at = SAMPLE_BYTES * i;
            wide[at..at + SAMPLE_BYTES].copy_from_slice(&self.wide_one(octets, i));
        }
    }
}

/// The sign of a number whose highest octet is `d`, in an octet above it.
fn sign_octet(d: u8) -> u8
    ensures { result ≡ sign_octet d }
{
    if d < 128 { 0 } else { 255 }
}

/// Whether the second octet of each sample of 32 bits is zero.
fn seconds_are_zero(samples: &[u8]) -> bool
    ensures { result ≡ seconds_are_zero samples.now }
{
    for i in 0..samples.len() / SAMPLE_BYTES {
        if samples[SAMPLE_BYTES * i + 1] != 0 {
            return false;
        }
    }
    true
}
