//! What a subframe carries.

ghost use Rattle.std.specs.Prelude.{◌≡◌, ◌==◌, ◌+◌, ◌<◌, ◌≤◌, ◌^◌, ◌%◌, ◌/◌, ◌↔◌, [], ◌∷◌, ◌++◌};
ghost use Rattle.std.specs.Prelude.{IsNone, IfSome};
ghost use Rattle.std.specs.Int.{bit_at};
ghost use Rattle.aes3_bits.specs.Bits.{low_bits};
ghost use Rattle.aes3_slot.specs.Slots.{payload_bits};

/// The audio sample word and the V, U and C bits of one subframe (AES3-1, AES3-2; IEC 60958-1).
#[derive(Clone, Copy, PartialEq, Eq)]
pub struct Subframe {
    /// Time slots 4 to 27: a sample of 24 bits in two's complement, the least significant bit
    /// first.
    pub audio: u32,
    /// Validity: false if the sample is suitable for conversion to analogue.
    pub v: bool,
    /// The user data bit.
    pub u: bool,
    /// The channel status bit.
    pub c: bool,
    ghost in_range: { audio < 2 ^ 24 },
}

/// The number of values of an audio sample word of 24 bits.
pub const AUDIO_LIMIT: u32 = 1 << 24;

impl Subframe {
    ghost use Rattle.aes3_frame.specs.Subframes.{bits_of, signed_of};

    /// A subframe of these bits, or `None` if `audio` has more than 24 bits.
    pub fn try_new(audio: u32, v: bool, u: bool, c: bool) -> Option<Subframe>
        ensures none { IsNone result ↔ (2 ^ 24 ≤ audio) }
        ensures audio { IfSome result (λ s. s.audio ≡ audio) }
        ensures validity { IfSome result (λ s. s.v ≡ v) }
        ensures user { IfSome result (λ s. s.u ≡ u) }
        ensures status { IfSome result (λ s. s.c ≡ c) }
    {
        if audio < AUDIO_LIMIT {
            Some(Subframe { audio, v, u, c })
        } else {
            None
        }
    }

    /// The auxiliary bits, time slots 4 to 7, if the sample word has at most 20 bits.
    pub fn aux(&self) -> u8
        ensures { result ≡ self.now.audio % 16 }
    {
        (self.audio % 16) as u8
    }

    /// The sample in time slots 8 to 27, if the sample word has at most 20 bits.
    pub fn sample20(&self) -> i32
        ensures { result ≡ signed_of 20 (self.now.audio / 16) }
    {
        let sample = (self.audio / 16) as i32;
        if sample < 1 << 19 {
            sample
        } else {
            sample - (1 << 20)
        }
    }

    /// The sample of 24 bits.
    pub fn signed24(&self) -> i32
        ensures { result ≡ signed_of 24 self.now.audio }
    {
        let sample = self.audio as i32;
        if sample < 1 << 23 {
            sample
        } else {
            sample - (1 << 24)
        }
    }

    /// The 27 bits as a number: bit `n` is time slot `4 + n`.
    pub fn payload(&self) -> u32
        ensures bound { result < 2 ^ 27 }
        ensures bits { payload_bits result ≡ bits_of self.now }
    {
        let bits = with_bit(self.audio, 24, self.v);
        let bits = with_bit(bits, 25, self.u);
        with_bit(bits, 26, self.c)
    }

    /// The subframe of a payload.
    pub fn of_payload(payload: u32) -> Subframe
        requires { payload < 2 ^ 27 }
        ensures { bits_of result ≡ payload_bits payload }
    {
        Subframe {
            audio: payload % AUDIO_LIMIT,
            v: has_bit(payload, 24),
            u: has_bit(payload, 25),
            c: has_bit(payload, 26),
        }
    }
}

/// Appends a bit to `len` bits.
fn with_bit(bits: u32, len: u32, bit: bool) -> u32
    requires few { len < 32 }
    requires bound { bits < 2 ^ len }
    ensures bits { low_bits (len + 1) result ≡ low_bits len bits ++ bit ∷ [] }
    ensures bound { result < 2 ^ (len + 1) }
{
    bits | u32::from(bit) << len
}

/// Whether bit `at` is set.
fn has_bit(bits: u32, at: u32) -> bool
    requires { at < 32 }
    ensures { result ≡ (bit_at bits at == 1) }
{
    (bits >> at) & 1 == 1
}
