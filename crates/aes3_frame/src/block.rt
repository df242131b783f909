//! Blocks, and the words that a block file has for them: bit `n` is time slot `n`, and slots 0 to 3
//! are zero. Blocks are also made of samples in the form of sound programs. The V, U and C bits of
//! their two channels are read and set as bytes.
use aes3_slot::{SUBFRAME_CELLS, payload_parity, slot_bits};
use std::marker::Model;

/// How many frames a block has.
pub const FRAMES: usize = 192;

/// How many subframes a block has.
pub const SUBFRAMES: usize = 384;

/// How many cells a frame has.
pub const FRAME_CELLS: u64 = 2 * SUBFRAME_CELLS;

/// How many cells a block has.
pub const BLOCK_CELLS: u64 = SUBFRAME_CELLS * SUBFRAMES as u64;

/// How many bytes a block has in a block file.
pub const BLOCK_BYTES: usize = 4 * SUBFRAMES;

/// How many bytes the channel status of one channel has in a block.
pub const STATUS_LEN: usize = 24;

/// The number of payloads of 27 bits.
pub const PAYLOAD_LIMIT: u32 = 1 << 27;

/// One of the two channels of a line.
#[derive(Clone, Copy, PartialEq, Eq)]
pub enum Channel {
    /// Channel 1, the first subframe of each frame.
    First,
    /// Channel 2, the second subframe of each frame.
    Second,
}

/// The bits that each subframe carries after its audio, 192 of each kind for a channel in a block
/// (AES3-1, IEC 60958-1).
#[derive(Clone, Copy, PartialEq, Eq)]
pub enum CarriedBits {
    /// V, which is 0 if the sample is valid.
    Validity,
    /// U, the user data.
    User,
    /// C, the channel status.
    Status,
}

/// A block: 192 frames that begin with preamble Z (AES3-3, IEC 60958-1).
///
/// A contract sees it as its 384 payloads in order of transmission, channel 1 first.
#[derive(Drop)]
pub struct Block {
    words: [u32; SUBFRAMES],
}

impl Model for Block {
    ghost use Rattle.std.specs.Prelude.{List, Bool, ℕ, ◌<◌, ◌≡◌, true, get_or, map};
    ghost use Rattle.aes3_frame.specs.Files.{is_lawful, payload_of};
    ghost use Rattle.aes3_frame.specs.Blocks.{block_subframes};

    ghost Value = { List (List Bool) };

    ghost view = { λ b. map payload_of b.words };

    ghost invariant = { λ b. (i : ℕ) → i < block_subframes → is_lawful (get_or b.words i 0) ≡ true };
}

ghost use Rattle.std.specs.Prelude.{◌≡◌, ◌<◌, ◌≤◌, ◌+◌, ◌*◌, ◌/◌, ◌^◌, ℕ, IfErr, IfOk, Some, true, false};
ghost use Rattle.std.specs.Prelude.{[], count_ones, drop, get_or, length, map, replicate, slice_get};
ghost use Rattle.std.specs.Prelude.{slice_index_or, slice_set, take};
ghost use Rattle.aes3_bits.specs.Bits.{number};
ghost use Rattle.aes3_frame.specs.Blocks.{block_subframes, zero_block};
ghost use Rattle.aes3_frame.specs.Files.{has_code, has_parity, is_lawful, payload_of, words_of};
ghost use Rattle.aes3_frame.specs.Ones.{ones_in};
ghost use Rattle.aes3_frame.specs.Statuses.{bits_at, bits_of_bytes, bytes_in, place_of, status_len};
ghost use Rattle.aes3_frame.specs.Statuses.{first_subframe_of, validity_of, user_of, with_bits_at};
ghost use Rattle.aes3_frame.specs.Statuses.{with_validity, with_user, status_of, with_status};
ghost use Rattle.aes3_frame.specs.Subframes.{bits_of};
ghost use Rattle.aes3_frame.specs.Sampled.{payload_of_sample};
ghost use Rattle.aes3_slot.specs.ReadWords.{read_word, read_words};
ghost use Rattle.aes3_slot.specs.Slots.{payload_bits, payload_len, slots_bits};

use crate::frame::Frame;
use crate::subframe::Subframe;

impl Channel {
    /// The number of its first subframe in a block; each later one is two subframes after the one
    /// before.
    #[inline(always)]
    pub fn first_subframe(self) -> usize
        ensures subframe { result ≡ first_subframe_of self }
        ensures few { result ≤ 1 }
    {
        match self {
            Channel::First => 0,
            Channel::Second => 1,
        }
    }
}

/// Words of payloads that are 0.
#[tactic(auto, unfolding(crate::specs::Blocks::block_subframes))]
pub fn zero_words() -> [u32; SUBFRAMES]
    ensures { result ≡ replicate block_subframes 0 }
{
    [0; SUBFRAMES]
}

/// The valid word of a payload.
pub(crate) fn word_of_payload(payload: u32) -> u32
    requires { payload < 2 ^ 27 }
    ensures lawful { is_lawful result ≡ true }
    ensures payload { payload_of result ≡ payload_bits payload }
{
    let parity = u32::from(payload_parity(payload));
    (payload | (parity << 27)) << 4
}

/// The payload of a word.
pub fn payload_of_word(word: u32) -> u32
    ensures bound { result < 2 ^ 27 }
    ensures bits { payload_bits result ≡ payload_of word }
{
    (word >> 4) % PAYLOAD_LIMIT
}

/// Whether the bit at `place` of a word's payload is set.
#[inline(always)]
pub(crate) fn bit_of_word(word: u32, place: u32) -> bool
    requires { place < 27 }
    ensures { slice_index_or (payload_of word) place false ≡ result }
{
    word >> (4 + place) & 1 == 1
}

/// The valid word of the same payload with another bit at `place`.
#[inline(always)]
pub(crate) fn with_bit(word: u32, place: u32, value: bool) -> u32
    requires lawful { is_lawful word ≡ true }
    requires place { place < 27 }
    ensures lawful { is_lawful result ≡ true }
    ensures payload { payload_of result ≡ slice_set (payload_of word) place value }
{
    // If the bit changes, so does the parity: inverting it keeps it right, without a count of ones.
    let slot = 4 + place;
    let changed = (word ^ u32::from(value) << slot) & 1 << slot;
    word ^ (changed | changed << (31 - slot))
}

/// The bits in slots 4 to 31 of a word, with its parity bit.
pub(crate) fn slots_of_word(word: u32) -> u32
    ensures bound { result < 2 ^ 28 }
    ensures value { result ≡ word / 16 }
{
    word >> 4
}

/// Whether bits 0 to 3 of a word are zero.
pub fn has_right_code(word: u32) -> bool
    ensures { result ≡ has_code word }
{
    word % 16 == 0
}

/// Whether bit 31 of a word makes the number of ones in bits 4 to 31 even.
pub fn has_right_parity(word: u32) -> bool
    ensures { result ≡ has_parity word }
{
    (word >> 4).count_ones() % 2 == 0
}

/// Whether a word is valid in a block file.
pub(crate) fn is_lawful_word(word: u32) -> bool
    ensures { result ≡ is_lawful word }
{
    has_right_code(word) && has_right_parity(word)
}

/// Sample `subframe` of a block.
fn sample_at(bytes: &[u8; BLOCK_BYTES], subframe: usize) -> u32
    requires { subframe < SUBFRAMES }
    ensures { result ≡ get_or (words_of bytes.now) subframe 0 }
{
    let at = 4 * subframe;
    u32::from_le_bytes([bytes[at], bytes[at + 1], bytes[at + 2], bytes[at + 3]])
}

/// The valid word whose audio is the highest 24 of 32 bits, with V, U and C zero.
fn word_of_sample(sample: u32) -> u32
    ensures lawful { is_lawful result ≡ true }
    ensures payload { payload_of result ≡ payload_of_sample sample }
{
    word_of_payload(sample >> 8)
}

/// The valid word of the payload that a subframe's 64 cells carry.
pub(crate) fn word_of_cells(cells: u64) -> u32
    ensures lawful { is_lawful result ≡ true }
    ensures payload { payload_of result ≡ take payload_len (read_word cells) }
{
    word_of_payload(slot_bits(cells) % PAYLOAD_LIMIT)
}

/// The place of the bit in a payload.
#[inline(always)]
fn place_in_payload(bit: CarriedBits) -> u32
    ensures place { result ≡ place_of bit }
    ensures bound { result < 27 }
{
    match bit {
        CarriedBits::Validity => 24,
        CarriedBits::User => 25,
        CarriedBits::Status => 26,
    }
}

/// Bit `i` of bytes.
#[inline(always)]
fn bit_of(bytes: &[u8; STATUS_LEN], i: usize) -> bool
    requires { i < FRAMES }
    ensures { slice_get (bits_of_bytes bytes.now) i ≡ Some result }
{
    bytes[i / 8] >> (i % 8) & 1 == 1
}

impl Block {
    /// The block all of whose bits are 0.
    pub fn zero() -> Block
        ensures { result ≡ zero_block }
    {
        Block {
            words: zero_words(),
        }
    }

    /// The block of these samples, channel 1 and then channel 2 of each frame. They are 384 words
    /// of 32 bits, lowest byte first. The highest 24 bits of each are the audio of its subframe
    /// (AES3-1, IEC 60958-1). The lowest 8 bits are ignored, and V, U and C are zero.
    pub fn of_samples(bytes: &[u8; BLOCK_BYTES]) -> Block
        ensures { result ≡ map payload_of_sample (words_of bytes.now) }
    {
        let mut words = zero_words();
        for subframe in 0..SUBFRAMES {
            words[subframe] = word_of_sample(sample_at(bytes, subframe));
        }
        Block::of_words(words)
    }

    /// The block whose payloads these subframes carry, 64 cells each, the earliest in bit 0.
    /// Preambles and parity bits are ignored.
    pub fn of_cells(words: &[u64; SUBFRAMES]) -> Block
        ensures { result ≡ map (take payload_len) (read_words words.now) }
    {
        let mut lawful = zero_words();
        for (subframe, cells) in words.iter().enumerate() {
            lawful[subframe] = word_of_cells(*cells);
        }
        Block::of_words(lawful)
    }

    /// A copy of the block.
    pub fn copy(&self) -> Block
        ensures { result ≡ self.now }
    {
        Block { words: self.words }
    }

    /// Frame `i`.
    pub fn frame(&self, i: usize) -> Frame
        requires { i < FRAMES }
        ensures first { slice_get self.now (2 * i) ≡ Some (bits_of result.first) }
        ensures second { slice_get self.now (2 * i + 1) ≡ Some (bits_of result.second) }
    {
        Frame {
            first: Subframe::of_payload(payload_of_word(self.words[2 * i])),
            second: Subframe::of_payload(payload_of_word(self.words[2 * i + 1])),
        }
    }

    /// Sets frame `i`. All other frames are unchanged.
    pub fn set_frame(&mut self, i: usize, frame: Frame)
        requires { i < FRAMES }
        ensures { self.new ≡ slice_set (slice_set self.old (2 * i) (bits_of frame.first))
            (2 * i + 1) (bits_of frame.second) }
    {
        self.words[2 * i] = word_of_payload(frame.first.payload());
        self.words[2 * i + 1] = word_of_payload(frame.second.payload());
    }

    /// Sets the bit at `place` of payload `subframe`. All other bits are unchanged.
    #[inline(always)]
    pub(crate) fn set_bit(&mut self, subframe: usize, place: u32, value: bool)
        requires subframe { subframe < SUBFRAMES }
        requires place { place < 27 }
        ensures { self.new
            ≡ slice_set self.old subframe (slice_set (slice_index_or self.old subframe []) place value) }
    {
        self.words[subframe] = with_bit(self.words[subframe], place, value);
    }

    /// The block of these words of a block file.
    ///
    /// # Errors
    /// The number of the first word that is not valid.
    #[tactic(auto, unfolding(crate::specs::Blocks::block_subframes))]
    pub fn try_of_words(words: &[u32; SUBFRAMES]) -> Result<Block, usize>
        ensures block { IfOk result (λ b. b ≡ map payload_of words.now) }
        ensures lawful { IfOk result (λ _. (i : ℕ) → i < block_subframes
            → is_lawful (get_or words.now i 0) ≡ true) }
        ensures within { IfErr result (λ n. n < block_subframes) }
        ensures unlawful { IfErr result (λ n. is_lawful (get_or words.now n 0) ≡ false) }
        ensures first { IfErr result (λ n. (i : ℕ) → i < n
            → is_lawful (get_or words.now i 0) ≡ true) }
    {
        for (i, word) in words.iter().enumerate() {
            if !is_lawful_word(*word) {
                return Err(i);
            }
        }
        Ok(Block::of_words(*words))
    }

    /// The block of valid words.
    pub fn of_words(words: [u32; SUBFRAMES]) -> Block
        requires { (i : ℕ) → i < block_subframes → is_lawful (get_or words i 0) ≡ true }
        ensures { result ≡ map payload_of words }
    {
        Block { words }
    }

    /// The words of the block in a block file.
    pub fn words(&self) -> &[u32; SUBFRAMES]
        ensures count { length result.now ≡ block_subframes }
        ensures lawful { (i : ℕ) → i < block_subframes → is_lawful (get_or result.now i 0) ≡ true }
        ensures payloads { map payload_of result.now ≡ self.now }
    {
        &self.words
    }

    /// The validity bits of a channel (AES3-1, IEC 60958-1): bit `i % 8` of byte `i / 8` is the V
    /// bit of frame `i`, as in a channel status.
    #[tactic(auto, unfolding(crate::specs::Statuses::validity_of))]
    pub fn validity(&self, channel: Channel) -> [u8; STATUS_LEN]
        ensures { result ≡ validity_of self.now channel }
    {
        self.bytes(CarriedBits::Validity, channel)
    }

    /// Sets the validity bits of a channel. Everything else is unchanged but the parity bits that
    /// depend on them.
    #[tactic(auto, unfolding(crate::specs::Statuses::with_validity))]
    pub fn set_validity(&mut self, channel: Channel, bytes: &[u8; STATUS_LEN])
        ensures { self.new ≡ with_validity self.old channel bytes.now }
    {
        self.set_bytes(CarriedBits::Validity, channel, bytes);
    }

    /// The user data bits of a channel (AES3-1, IEC 60958-1): bit `i % 8` of byte `i / 8` is the U
    /// bit of frame `i`, as in a channel status.
    #[tactic(auto, unfolding(crate::specs::Statuses::user_of))]
    pub fn user(&self, channel: Channel) -> [u8; STATUS_LEN]
        ensures { result ≡ user_of self.now channel }
    {
        self.bytes(CarriedBits::User, channel)
    }

    /// Sets the user data bits of a channel. Everything else is unchanged but the parity bits that
    /// depend on them.
    #[tactic(auto, unfolding(crate::specs::Statuses::with_user))]
    pub fn set_user(&mut self, channel: Channel, bytes: &[u8; STATUS_LEN])
        ensures { self.new ≡ with_user self.old channel bytes.now }
    {
        self.set_bytes(CarriedBits::User, channel, bytes);
    }

    /// The channel status of a channel (AES3-2, IEC 60958-1): bit `i % 8` of byte `i / 8` is the C
    /// bit of frame `i`.
    #[tactic(auto, unfolding(crate::specs::Statuses::status_of))]
    pub fn channel_status(&self, channel: Channel) -> [u8; STATUS_LEN]
        ensures { result ≡ status_of self.now channel }
    {
        self.bytes(CarriedBits::Status, channel)
    }

    /// Sets the channel status of a channel. Everything else is unchanged but the parity bits that
    /// depend on it.
    #[tactic(auto, unfolding(crate::specs::Statuses::with_status))]
    pub fn set_channel_status(&mut self, channel: Channel, status: &[u8; STATUS_LEN])
        ensures { self.new ≡ with_status self.old channel status.now }
    {
        self.set_bytes(CarriedBits::Status, channel, status);
    }

    /// The V, U or C bits of a channel's frames as bytes.
    #[inline(always)]
    pub(crate) fn bytes(&self, bit: CarriedBits, channel: Channel) -> [u8; STATUS_LEN]
        ensures { result ≡ bytes_in status_len (bits_at (place_of bit) self.now channel) }
    {
        let mut bytes = [0; STATUS_LEN];
        for k in 0..STATUS_LEN {
            bytes[k] = self.byte(bit, channel, k);
        }
        bytes
    }

    /// Sets the V, U or C bits of a channel's frames.
    #[inline(always)]
    pub(crate) fn set_bytes(&mut self, bit: CarriedBits, channel: Channel, bytes: &[u8; STATUS_LEN])
        ensures { self.new ≡ with_bits_at (place_of bit) channel self.old
            (bits_of_bytes bytes.now) }
    {
        let place = place_in_payload(bit);
        let first = channel.first_subframe();
        // Byte by byte, so that each bit of a byte has a shift that is known at compile time. The
        // frames are set in order.
        for k in 0..STATUS_LEN {
            for j in 0..8 {
                let i = 8 * k + j;
                self.set_bit(2 * i + first, place, bit_of(bytes, i));
            }
        }
    }

    /// Byte `k` of these bits.
    #[inline(always)]
    fn byte(&self, bit: CarriedBits, channel: Channel, k: usize) -> u8
        requires { k < STATUS_LEN }
        ensures { result
            ≡ number (take 8 (drop (8 * k) (bits_at (place_of bit) self.now channel))) }
    {
        let mut byte = 0;
        for j in 0..8 {
            byte |= u8::from(self.bit(bit, channel, 8 * k + j)) << j;
        }
        byte
    }

    /// The V, U or C bit of a channel in frame `i`.
    #[inline(always)]
    fn bit(&self, bit: CarriedBits, channel: Channel, i: usize) -> bool
        requires { i < FRAMES }
        ensures { slice_get (bits_at (place_of bit) self.now channel) i ≡ Some result }
    {
        bit_of_word(
            self.words()[2 * i + channel.first_subframe()],
            place_in_payload(bit),
        )
    }
}

/// The number of ones in a byte.
#[tactic(auto, using(std::proofs::lemmas::Nat::ones_le_self))]
fn ones(byte: u8) -> u64
    ensures ones { result ≡ count_ones byte }
    ensures few { result ≤ 255 }
{
    u64::from(byte.count_ones())
}

/// The number of ones in these bytes. For the bits of a channel it is a number of frames of the
/// block.
pub fn ones_in(bytes: &[u8; STATUS_LEN]) -> u64
    ensures { result ≡ ones_in bytes.now }
{
    let mut found = 0;
    for byte in bytes {
        found += ones(*byte);
    }
    found
}
