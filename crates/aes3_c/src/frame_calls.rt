//! Frames that fill the time between whole blocks.

ghost use Rattle.std.specs.Prelude.{◌≡◌, ◌<◌, ◌^◌};
ghost use Rattle.aes3_engine.specs.Filling.{Placed, frames_between, missing};

use aes3_frame::{FRAME_CELLS, FRAMES};

/// How many frames a block has.
const BLOCK_FRAMES: u64 = FRAMES as u64;

/// How many frames there are before a block at place `at`, if the first block is at place `first`.
fn frames_before(first: u64, at: u64) -> u64
    ensures count { result ≡ frames_between first at }
    ensures few { result < 2 ^ 58 }
{
    let cells = at.saturating_sub(first);
    cells / FRAME_CELLS + cells % FRAME_CELLS / (FRAME_CELLS / 2)
}

/// How many frames are missing between the whole block at place `before` and the next one, at place
/// `at`. With that many frames between them, each block is in time, to half a frame. `first` is the
/// place of the first whole block of all.
#[unsafe(no_mangle)]
pub extern "C" fn aes3_frames_between(first: u64, before: u64, at: u64) -> u64
    ensures { (x y : Placed) → x.place ≡ before → y.place ≡ at → result ≡ missing first x y }
{
    frames_before(first, at).saturating_sub(frames_before(first, before) + BLOCK_FRAMES)
}
