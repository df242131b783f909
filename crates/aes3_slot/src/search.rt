//! Preambles in 64 cells at once (AES3-3; IEC 60958-1).

ghost use Rattle.std.specs.Prelude.{◌≡◌, ℕ, ◌+◌, ◌*◌, ◌<◌, ◌≤◌, ◌&&◌, not, length, get_or, drop};
ghost use Rattle.std.specs.Prelude.{slice_index_or, if◌then◌else◌};
ghost use Rattle.std.specs.Int.{bit_at};
ghost use Rattle.aes3_slot.specs.declared.mark.Mark.TheVariants.{X, Y, Z};
ghost use Rattle.aes3_slot.specs.Preambles.{begins_with, begins_with_any, unlike_at, with_seven};
ghost use Rattle.aes3_slot.specs.Preambles.{words_with_seven, InLanes, MarksAreTold};

use std::simd::prelude::*;

/// The cells that differ from the cell `distance` after them, a one for each.
fn unlike(cells: u64, next: u64, distance: u32) -> u64
    requires { (0 < distance) × (distance < 8) }
    ensures { (k : ℕ) → k < 64 → bit_at result k
        ≡ (if unlike_at (with_seven cells next) k distance then 1 else 0) }
{
    cells ^ (cells >> distance | next << (64 - distance))
}

/// The cells at which a preamble may begin, by those of its cells that are alike in all preambles.
fn beginnings(cells: u64, next: u64) -> u64
    ensures { (k : ℕ) → k < 64 → bit_at result k
        ≡ (if (not (unlike_at (with_seven cells next) k 1)
        && not (unlike_at (with_seven cells next) k 2))
        && (unlike_at (with_seven cells next) k 3 && unlike_at (with_seven cells next) k 7) then 1
        else 0) }
{
    !unlike(cells, next, 1)
        & !unlike(cells, next, 2)
        & (unlike(cells, next, 3) & unlike(cells, next, 7))
}

/// Where the preamble of a block begins, in either polarity, a one for each such cell.
///
/// The first of the 64 `cells` is in the lowest bit. The lowest seven bits of `next` are the cells
/// after them, so that a preamble may begin at the last cell.
pub fn block_preambles(cells: u64, next: u64) -> u64
    ensures { (k : ℕ) → k < 64 → bit_at result k
        ≡ (if begins_with Z (drop k (with_seven cells next)) then 1 else 0) }
{
    beginnings(cells, next)
        & (!unlike(cells, next, 4) & (unlike(cells, next, 5) & unlike(cells, next, 6)))
}

/// Where each preamble begins in 64 cells, in either polarity, a one for each such cell.
#[derive(Clone, Copy, PartialEq, Eq)]
pub struct MarkPlaces {
    /// Where X begins.
    pub x: u64,
    /// Where Y begins.
    pub y: u64,
    /// Where Z begins.
    pub z: u64,
}

/// Where each preamble begins. The cells are given as for `block_preambles`.
pub fn mark_places(cells: u64, next: u64) -> MarkPlaces
    ensures x { (k : ℕ) → k < 64 → bit_at result.x k
        ≡ (if begins_with X (drop k (with_seven cells next)) then 1 else 0) }
    ensures y { (k : ℕ) → k < 64 → bit_at result.y k
        ≡ (if begins_with Y (drop k (with_seven cells next)) then 1 else 0) }
    ensures z { (k : ℕ) → k < 64 → bit_at result.z k
        ≡ (if begins_with Z (drop k (with_seven cells next)) then 1 else 0) }
{
    let begun = beginnings(cells, next);
    let fifth = unlike(cells, next, 4);
    let sixth = unlike(cells, next, 5);
    let seventh = unlike(cells, next, 6);
    MarkPlaces {
        x: begun & (fifth & (sixth & !seventh)),
        y: begun & (fifth & (!sixth & seventh)),
        z: begun & (!fifth & (sixth & seventh)),
    }
}

/// Where any preamble begins, in either polarity, a one for each such cell. The cells are given as
/// for `block_preambles`.
pub fn preambles(cells: u64, next: u64) -> u64
    ensures { (k : ℕ) → k < 64 → bit_at result k
        ≡ (if begins_with_any (drop k (with_seven cells next)) then 1 else 0) }
{
    let places = mark_places(cells, next);
    places.x | (places.y | places.z)
}

/// `unlike` of eight words at once, each with the cells after it.
fn unlike_of_eight(cells: u64x8, next: u64x8, distance: u64) -> u64x8
    requires { (0 < distance) × (distance < 8) }
    ensures { InLanes result (λ i k. unlike_at
        (with_seven (slice_index_or cells i 0) (slice_index_or next i 0)) k distance) }
{
    cells ^ (cells >> u64x8::splat(distance) | next << u64x8::splat(64 - distance))
}

/// `block_preambles` of eight words at once, each with the cells after it.
fn block_preambles_of_eight(cells: u64x8, next: u64x8) -> u64x8
    ensures { InLanes result (λ i k. begins_with Z
        (drop k (with_seven (slice_index_or cells i 0) (slice_index_or next i 0)))) }
{
    !unlike_of_eight(cells, next, 1)
        & !unlike_of_eight(cells, next, 2)
        & (unlike_of_eight(cells, next, 3) & unlike_of_eight(cells, next, 7))
        & (!unlike_of_eight(cells, next, 4)
            & (unlike_of_eight(cells, next, 5) & unlike_of_eight(cells, next, 6)))
}

/// `find_marks` of the first words, eight at once, as long as all eight have a word after them.
/// Returns how many words it took.
fn find_marks_of_eights(words: &[u64], next: u8, out: &mut [u64]) -> usize
    requires { length out.old ≡ length words.now }
    ensures len { length out.new ≡ length words.now }
    ensures within { result ≤ length words.now }
    ensures marks { MarksAreTold words.now next out.new result }
{
    let mut i = 0;
    while i + 9 <= words.len() {
        let cells = u64x8::from_slice(&words[i..]);
        let behind = u64x8::from_slice(&words[i + 1..]);
        block_preambles_of_eight(cells, behind).copy_to_slice(&mut out[i..]);
        i += 8;
    }
    i
}

/// Where the preamble of a block begins in words of 64 cells. Bit `k` of `out[i]` is one exactly if
/// the eight cells from cell `64 i + k` on are preamble Z, in either polarity. The lowest seven
/// bits of `next` are the cells after the last word.
pub fn find_marks(words: &[u64], next: u8, out: &mut [u64])
    requires { length out.old ≡ length words.now }
    ensures len { length out.new ≡ length words.now }
    ensures marks { (i k : ℕ) → i < length words.now → k < 64
        → bit_at (get_or out.new i 0) k ≡ (if begins_with Z
        (drop (64 * i + k) (words_with_seven words.now next)) then 1 else 0) }
{
    let told = find_marks_of_eights(words, next, out);
    for i in told..words.len() {
        let behind = match words.get(i + 1) {
            Some(behind) => *behind,
            None => u64::from(next),
        };
        out[i] = block_preambles(words[i], behind);
    }
}
