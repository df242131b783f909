//! The places of channel status in a block, its samples, and reading block files by words.

use crate::known_statuses::with_byte;
use aes3_block::{Block, BlockFile, Channel, FileFault, Frame, Subframe, samples_of_block};

/// Whether, among the first payloads of a block, only that of one frame has a bit, the last but
/// one. No second payload may have any.
fn has_bit_in(block: &Block, frame: usize) -> bool {
    for i in 0..192 {
        let carried = block.frame(i);
        let first = u32::from(i == frame) << 26;
        if carried.first.payload() != first || carried.second.payload() != 0 {
            return false;
        }
    }
    true
}

/// Whether a channel status with a single bit is carried in this frame.
fn is_carried_in(status: &[u8; 24], frame: usize) -> bool {
    let mut block = Block::zero();
    block.set_channel_status(Channel::First, status);
    block.channel_status(Channel::First) == *status
        && block.channel_status(Channel::Second) == [0; 24]
        && has_bit_in(&block, frame)
}

/// A byte's number, its value, and the frame that carries its bit.
const CARRIED: &[(usize, u8, usize)] = &[(0, 0x01, 0), (0, 0x80, 7), (1, 0x01, 8), (23, 0x80, 191)];

#[test]
fn frames_that_carry_a_bit(rt: HostRuntime) {
    for (k, byte, frame) in CARRIED {
        assert!(rt;
            is_carried_in(&with_byte([0; 24], *k, *byte), *frame),
            "frame {frame}"
        );
    }
}

/// A word with audio 1 and its parity bit.
const WORD: &[u8; 4] = &[0x10, 0, 0, 0x80];

/// The same without the parity bit.
const WRONG: &[u8; 4] = &[0x10, 0, 0, 0];

/// Feeds a word's bytes one by one, as long as there is no fault. Returns whether they end a block.
fn by_bytes(file: &mut BlockFile, bytes: &[u8; 4]) -> Result<bool, FileFault> {
    let mut block = false;
    for byte in bytes.iter() {
        if file.seen() < 1 << 20 && file.feed_byte(*byte)?.is_some() {
            block = true;
        }
    }
    Ok(block)
}

/// Whether a word is taken at once.
fn is_taken(file: &mut BlockFile, bytes: &[u8; 4]) -> bool {
    file.seen() < 1 << 20 && file.feed_word(bytes)
}

/// Whether all words of a block but the last are taken at once, and the last one byte by byte.
fn takes_a_block(file: &mut BlockFile) -> bool {
    for _ in 0..383 {
        if !is_taken(file, WORD) {
            return false;
        }
    }
    !is_taken(file, WORD) && by_bytes(file, WORD) == Ok(true)
}

/// Whether an invalid word after a block is left to be rejected byte by byte, and no word after it
/// is taken.
fn refuses_a_word(file: &mut BlockFile) -> bool {
    let fault = FileFault::BadParity { at: 384 };
    let is_left = !is_taken(file, WRONG) && file.seen() == 1_536;
    let is_refused = by_bytes(file, WRONG) == Err(fault) && file.end() == Err(fault);
    is_left && is_refused && !is_taken(file, WORD)
}

#[test]
fn words_of_a_file(rt: HostRuntime) {
    let mut file = BlockFile::new();
    assert!(rt; takes_a_block(&mut file) && refuses_a_word(&mut file));
}

/// Audio as its four low bits, as a sample of 20 bits and as one of 24.
fn samples_of(audio: u32) -> Option<(u8, i32, i32)> {
    let subframe = Subframe::try_new(audio, false, false, false)?;
    Some((subframe.aux(), subframe.sample20(), subframe.signed24()))
}

#[test]
fn samples_of_subframes(rt: HostRuntime) {
    assert!(rt; samples_of(16_777_205) == Some((5, -1, -11)));
    assert!(rt; samples_of(8_388_608) == Some((0, -524_288, -8_388_608)));
    assert!(rt; samples_of(16_777_216).is_none());
}

/// A block of zeros except for the last frame.
fn with_last_frame() -> Option<Block> {
    let mut block = Block::zero();
    let frame = Frame {
        first: Subframe::try_new(0x12_3456, true, true, true)?,
        second: Subframe::try_new(0x80_0001, false, false, false)?,
    };
    block.set_frame(191, frame);
    Some(block)
}

/// Whether the samples of a block are zeros except for the last two, which are these.
fn ends_in_samples(block: &Block, last: &[u8; 8]) -> bool {
    let mut samples = [0; 1_536];
    samples[1_528..].copy_from_slice(last);
    samples_of_block(block) == samples
}

#[test]
fn samples_of_the_last_frame(rt: HostRuntime) {
    let block = with_last_frame().expect(&rt, "audio of 24 bits");
    let last = [0, 0x56, 0x34, 0x12, 0, 0x01, 0, 0x80];
    assert!(rt; ends_in_samples(&block, &last));
}
