//! The levels of a line among samples of several lines, and the edges among them: one by one, or the
//! places of many at once. Also how far edges are from their expected positions.

ghost use Rattle.std.specs.Prelude.{ℕ, ◌+◌, ◌*◌, ◌<◌, ◌≤◌, ◌≡◌, ◌^◌, get_or, length, replicate};
ghost use Rattle.std.specs.Prelude.{true, List, ◌-◌, ◌%◌, ◌∷◌, ◌++◌, [], drop, map, take};
ghost use Rattle.std.specs.Int.{bit_at};
ghost use Rattle.std.specs.List.{flat_map};
ghost use Rattle.aes3_level.specs.Cells.{other};
ghost use Rattle.aes3_level.specs.Words.{level_of, low_cells, word_cells};
ghost use Rattle.aes3_capture_recovery.specs.Endings.{level_if};
ghost use Rattle.aes3_capture_recovery.specs.Levels.{AreLevels, AreWords, IsWord, bits_of_sample};
ghost use Rattle.aes3_capture_recovery.specs.Distances.{AreDistances, distance_at, greatest};
ghost use Rattle.aes3_capture_recovery.specs.Distances.{spread_after, squares, total};
ghost use Rattle.aes3_capture_recovery.specs.Turns.{Put, gaps, last_place, set_bits, turns};

use aes3_capture::TRACKED;
use aes3_level::even_bits;
use std::simd::prelude::*;

/// The layout of the samples: octets of eight lines, or pairs of octets of sixteen lines, the lower
/// lines first. It also says which line of them it is.
#[derive(Clone, Copy)]
pub enum Unit {
    /// Samples of one octet, and the line in this bit.
    Octets(u8),
    /// Samples of two octets, and the line in this bit.
    Pairs(u8),
}

impl Unit {
    /// How many octets a sample has.
    pub fn len(self) -> usize
        ensures bits { 8 * result ≡ bits_of_sample self }
        ensures some { 1 ≤ result }
        ensures few { result ≤ 2 }
    {
        match self {
            Unit::Octets(_) => 1,
            Unit::Pairs(_) => 2,
        }
    }
}

/// This bit of each of 64 octets, that of the first in the lowest bit.
#[inline(always)]
fn bits_of(octets: &[u8; 64], bit: u8) -> u64
    requires within { bit < 8 }
    ensures { (i : ℕ) → i < 64 → bit_at result i ≡ bit_at (get_or octets.now i 0) bit }
{
    let mask = u8x64::splat(1 << bit);
    // If it compared with zero, each mask would have to be inverted.
    (u8x64::from_array(*octets) & mask)
        .simd_eq(mask)
        .to_bitmask()
}

/// The levels of the samples in 64 octets, the first in the lowest bit, and the number of samples.
#[inline(always)]
pub fn levels_of(unit: Unit, octets: &[u8; 64]) -> (u64, u32)
    ensures few { result.1 ≤ 64 }
    ensures levels { AreLevels unit octets.now result.0 result.1 }
    ensures bound { result.0 < 2 ^ result.1 }
{
    match unit {
        Unit::Octets(bit) => (bits_of(octets, bit % 8), 64),
        Unit::Pairs(bit) => {
            let found = bits_of(octets, bit % 8);
            (even_bits(if bit < 8 { found } else { found >> 1 }), 32)
        }
    }
}

/// How many octets are searched for edges at once.
pub(crate) const BLOCK: usize = 4096;

/// The levels of the samples in a block of octets, as words of 64 of them, and the number of words.
/// The first level of a word is in its lowest bit.
pub fn words_of(unit: Unit, block: &[u8; BLOCK]) -> ([u64; WORDS], usize)
    ensures few { result.1 ≤ 64 }
    ensures levels { AreWords unit block.now result.0 result.1 }
{
    let mut words = [0; WORDS];
    let count = WORDS / unit.len();
    for i in 0..count {
        words[i] = word_at(unit, block, i);
    }
    (words, count)
}

/// The levels of the 64 samples of a block that make word number `i`.
#[inline(always)]
fn word_at(unit: Unit, block: &[u8; BLOCK], i: usize) -> u64
    requires { bits_of_sample unit * (i + 1) ≤ 512 }
    ensures { IsWord unit block.now i result }
{
    match unit {
        Unit::Octets(bit) => levels_at(block, 64 * i, bit % 8),
        Unit::Pairs(bit) => levels_of_pairs_at(block, 128 * i, bit % 16),
    }
}

/// This bit of 64 octets of a block from octet `at` on, that of the first in the lowest bit.
#[inline(always)]
fn levels_at(block: &[u8; BLOCK], at: usize, bit: u8) -> u64
    requires within { at + 64 ≤ 4096 }
    requires bit { bit < 8 }
    ensures { (j : ℕ) → j < 64 → bit_at result j ≡ bit_at (get_or block.now (at + j) 0) bit }
{
    let mut octets = [0; 64];
    octets.copy_from_slice(&block[at..at + 64]);
    bits_of(&octets, bit)
}

/// This bit of 64 pairs of octets of a block from octet `at` on, that of the first pair in the
/// lowest bit. Each pair has the lower octet first.
#[inline(always)]
fn levels_of_pairs_at(block: &[u8; BLOCK], at: usize, bit: u8) -> u64
    requires within { at + 128 ≤ 4096 }
    requires bit { bit < 16 }
    ensures { (j : ℕ) → j < 64 → bit_at result j
        ≡ bit_at (get_or block.now (at + 2 * j) 0 + 256 * get_or block.now (at + 2 * j + 1) 0) bit }
{
    let mut levels = [0; 64];
    for j in 0..64 {
        let sample = u16::from(block[at + 2 * j]) + 256 * u16::from(block[at + 2 * j + 1]);
        levels[j] = (sample >> bit & 1) as u8;
    }
    bits_of(&levels, 0)
}

/// Levels of samples that are still to be taken, the first in the lowest bit.
#[derive(Clone, Copy)]
pub struct Piece {
    levels: u64,
    len: u32,
    ghost few: { len ≤ 64 },
}

impl Piece {
    ghost use Rattle.aes3_capture_recovery.specs.Runs.{levels_in};

    /// The levels of at most 64 samples, the first in the lowest bit.
    #[inline(always)]
    pub fn new(levels: u64, len: u32) -> Self
        requires { len ≤ 64 }
        ensures { levels_in result ≡ low_cells len levels }
    {
        Piece { levels, len }
    }
}

/// The level of a line, and how many samples since its latest edge are still waiting.
#[derive(Clone, Copy)]
pub struct Edges {
    high: bool,
    run: u32,
}

impl Edges {
    ghost use Rattle.std.specs.Prelude.{IfSome, IfNone};
    ghost use Rattle.aes3_capture_recovery.specs.Runs.{EdgeCame, NoEdgeCame};

    /// A line of this level before the first sample.
    pub fn new(high: bool) -> Self
        ensures high { result.high ≡ high }
        ensures none { result.run ≡ 0 }
    {
        Edges { high, run: 0 }
    }

    /// A line of this level, with `run` samples since the latest edge that are still waiting.
    pub(crate) fn standing(high: bool, run: u32) -> Self
        ensures high { result.high ≡ high }
        ensures run { result.run ≡ run }
    {
        Edges { high, run }
    }

    /// Whether the line is high.
    pub(crate) fn is_high(&self) -> bool
        ensures { result ≡ self.now.high }
    {
        self.high
    }

    /// How many samples of its level since the latest edge are still waiting.
    pub(crate) fn waiting(&self) -> u32
        ensures { result ≡ self.now.run }
    {
        self.run
    }

    /// Takes the waiting samples, which no edge follows yet.
    pub fn take_waiting(&mut self) -> u32
        ensures all { result ≡ self.old.run }
        ensures none { self.new.run ≡ 0 }
        ensures level { self.new.high ≡ self.old.high }
    {
        let run = self.run;
        self.run = 0;
        run
    }

    /// Advances to the next edge of a piece, and returns how many samples waited before it. The
    /// sample after the edge then waits. `None` if the piece has no further edge; then its samples
    /// wait too.
    #[inline(always)]
    pub fn next_edge(&mut self, piece: &mut Piece) -> Option<u32>
        ensures edge { IfSome result (λ run. EdgeCame self.old piece.old run self.new piece.new) }
        ensures rest { IfNone result (NoEdgeCame self.old piece.old self.new) }
    {
        let same = equal_levels(piece.levels, self.high).min(piece.len);
        let run = self.run.saturating_add(same);
        if same == piece.len {
            self.run = run;
            return None;
        }
        piece.levels = piece.levels >> same >> 1;
        piece.len = piece.len - same - 1;
        self.high = !self.high;
        self.run = 1;
        Some(run)
    }
}

/// The number of levels equal to this one at the beginning of a word.
#[inline(always)]
fn equal_levels(levels: u64, high: bool) -> u32
    ensures most { result ≤ 64 }
    ensures equal { (n : ℕ) → n ≤ result → low_cells n levels ≡ replicate n (level_if high) }
    ensures next { result < 64 → level_of (bit_at levels result) ≡ other (level_if high) }
{
    if high {
        (!levels).trailing_zeros()
    } else {
        levels.trailing_zeros()
    }
}

/// Whether each level of these words is this one.
pub(crate) fn are_all_equal(words: &[u64], high: bool) -> bool
    ensures { result ≡ true → flat_map word_cells words.now ≡ replicate (64 * length words.now) (level_if high) }
{
    for i in 0..words.len() {
        if equal_levels(words[i], high) < 64 {
            return false;
        }
    }
    true
}

/// How many words of 64 levels are taken at once.
pub const WORDS: usize = 64;

/// The greatest number of edges among their levels.
const EDGES: usize = 64 * WORDS;

/// The place of the first word. It leaves room for the place of the edge before it.
pub(crate) const BEGIN: u32 = 128;

/// The places of edges, in samples, and the runs of samples between them.
#[derive(Drop)]
pub struct Places {
    /// The first is that of the edge before the words. Those after the last are meaningless.
    places: [u32; EDGES + 65],
    /// How many samples there are between each place and the next.
    runs: [u32; EDGES],
    ghost many: { length runs ≡ 4096 },
}

impl Places {
    /// No places.
    pub fn new() -> Self {
        Places {
            places: [0; EDGES + 65],
            runs: [0; EDGES],
        }
    }

    /// Finds the edges of words, with this level before them and an edge `waiting` samples before
    /// the first. Returns how many there are. `sparse` says that few words have more than two; then
    /// it costs less.
    pub fn find(&mut self, words: &[u64], high: bool, waiting: u32, sparse: bool) -> usize
        requires few { length words.now ≤ 64 }
        requires near { waiting ≤ 128 }
        ensures most { result ≤ 64 * length words.now }
        ensures places { take (result + 1) self.new.places ≡ (128 - waiting)
            ∷ turns (level_if high) 128 (flat_map word_cells words.now) }
        ensures runs { self.new.runs ≡ self.old.runs }
    {
        self.places[0] = BEGIN - waiting;
        let mut before = u64::from(high);
        let mut count = 0;
        for i in 0..words.len() {
            let word = words[i];
            let changes = word ^ (word << 1 | before);
            let base = BEGIN + 64 * i as u32;
            count = put_places(&mut self.places, count + 1, base, changes, sparse) - 1;
            before = word >> 63;
        }
        count
    }

    /// Computes how many samples there are between each of `count` edges and the one before it.
    /// Returns the longest of these runs.
    pub fn measure(&mut self, count: usize) -> u32
        requires few { count ≤ 4096 }
        ensures runs { (first : ℕ) (more : List ℕ) → take (count + 1) self.old.places ≡ first ∷ more
            → take count self.new.runs ≡ gaps first more }
        ensures places { self.new.places ≡ self.old.places }
    {
        let mut longest = 0;
        for i in 0..count {
            let run = self.places[i + 1].saturating_sub(self.places[i]);
            self.runs[i] = run;
            longest = longest.max(run);
        }
        longest
    }

    /// How many samples of `words` words follow the last of `count` edges.
    pub fn behind(&self, count: usize, words: usize) -> u32
        requires few { count ≤ 4096 }
        requires many { words ≤ 64 }
        ensures { (first : ℕ) (more : List ℕ) → take (count + 1) self.now.places ≡ first ∷ more
            → result ≡ (128 + 64 * words) - last_place first more }
    {
        (BEGIN + 64 * words as u32).saturating_sub(self.places[count])
    }

    /// The run that ends at edge number `at`.
    pub fn run(&self, at: usize) -> u32
        requires within { at < 4096 }
        ensures { take 1 (drop at self.now.runs) ≡ result ∷ [] }
    {
        self.runs[at]
    }

    /// The runs of the edges from number `at` on.
    pub fn runs(&self, at: usize, count: usize) -> &[u32]
        requires ordered { at ≤ count }
        requires few { count ≤ 4096 }
        ensures { result.now ≡ take (count - at) (drop at self.now.runs) }
    {
        &self.runs[at..count]
    }

    /// The place of the edge before number `at`, and those of 32 edges from it on.
    pub fn near(&self, at: usize) -> &[u32]
        requires within { at < 4096 }
        ensures { length result.now ≡ 33 }
    {
        &self.places[at..at + TRACKED + 1]
    }
}

/// Puts the places of the bits of a word that are set, the lowest first. Returns how many places
/// there are then.
///
/// Four are put at once, or two for a sparse word, since the number of bits can't be predicted.
/// What is put after the last is meaningless.
#[inline(always)]
fn put_places(places: &mut [u32], from: usize, base: u32, bits: u64, sparse: bool) -> usize
    requires room { from + 66 ≤ length places.old }
    requires base_bound { base + 64 < 2 ^ 32 }
    ensures written { take result places.new ≡ take from places.old ++ set_bits 64 base bits }
    ensures least { from ≤ result }
    ensures most { result ≤ from + 64 }
    ensures length { length places.new ≡ length places.old }
{
    let count = bits.count_ones() as usize;
    let (mut rest, mut at) = put_first(places, from, base, bits, sparse);
    while at < count {
        rest = put_some(places, from + at, base, rest, 4);
        at += 4;
    }
    from + count
}

/// Puts the places of the two or four lowest bits that are set. Returns the other bits, and how
/// many places it put.
#[inline(always)]
fn put_first(places: &mut [u32], at: usize, base: u32, bits: u64, sparse: bool) -> (u64, usize)
    requires room { at + 4 ≤ length places.old }
    requires base_bound { base + 64 < 2 ^ 32 }
    ensures put { (wanted : List ℕ) → Put wanted base places.old at bits
        → Put wanted base places.new (at + result.1) result.0 }
    ensures even { result.1 % 2 ≡ 0 }
    ensures most { result.1 ≤ 4 }
    ensures length { length places.new ≡ length places.old }
{
    if sparse {
        (put_some(places, at, base, bits, 2), 2)
    } else {
        (put_some(places, at, base, bits, 4), 4)
    }
}

/// Puts the places of the `count` lowest bits that are set, and returns the other bits.
#[inline(always)]
fn put_some(places: &mut [u32], at: usize, base: u32, bits: u64, count: usize) -> u64
    requires room { at + count ≤ length places.old }
    requires base_bound { base + 64 < 2 ^ 32 }
    ensures put { (wanted : List ℕ) → Put wanted base places.old at bits
        → Put wanted base places.new (at + count) result }
    ensures length { length places.new ≡ length places.old }
{
    let mut rest = bits;
    for i in 0..count {
        places[at + i] = base + rest.trailing_zeros();
        rest &= rest.wrapping_sub(1);
    }
    rest
}

/// How far some edges are from their expected positions, in 256ths of a sample.
#[derive(Clone, Copy)]
pub struct Distances {
    /// Each distance.
    pub each: [u32; TRACKED],
    /// The greatest distance.
    pub greatest: u32,
    /// The sum of the distances, and that of their squares.
    pub sum: u32,
    pub squares: u64,
}

/// Distances up to this one are summed up in 32 bits.
const SMALL: u32 = (1 << 13) - 1;

/// How far `count` edges are from the middle of their grid, which has moved a sixteenth of the way
/// to each.
pub fn distances_of(places: &[u32; TRACKED], count: usize, middle: u32) -> Distances
    requires few { count ≤ 32 }
    ensures each { take count result.each ≡ map (distance_at middle) (take count places.now) }
    ensures greatest { result.greatest ≡ greatest (map (distance_at middle) (take count places.now)) }
    ensures sum { result.sum ≡ total (map (distance_at middle) (take count places.now)) }
    ensures squares { result.squares ≡ squares (map (distance_at middle) (take count places.now)) }
{
    if count == TRACKED {
        let all = small_distances(places, middle);
        if all.greatest <= SMALL {
            return all;
        }
    }
    // Separate numbers until the end, so that LLVM takes several edges at once.
    let mut each = [0; TRACKED];
    let mut greatest = 0;
    let mut sum = 0;
    let mut squares = 0;
    for i in 0..count {
        let left = places[i].abs_diff(middle) >> 8;
        let distance = left + left / 15;
        each[i] = distance;
        greatest = distance.max(greatest);
        sum += distance;
        squares += u64::from(distance) * u64::from(distance);
    }
    Distances {
        each,
        greatest,
        sum,
        squares,
    }
}

/// How far all 32 edges are from the middle of their grid, as `distances_of` computes it, if no
/// distance is greater than `SMALL`.
///
/// It uses 32 bits and a fixed number of edges, so that LLVM takes several of them at once.
#[inline(always)]
fn small_distances(places: &[u32; TRACKED], middle: u32) -> Distances
    ensures { result.greatest ≤ 8191 → AreDistances middle (take 32 places.now) (take 32 result.each) result.greatest result.sum
        result.squares }
{
    let mut each = [0; TRACKED];
    let mut greatest = 0;
    let mut sum = 0;
    let mut squares = 0u32;
    for i in 0..TRACKED {
        let left = places[i].abs_diff(middle) >> 8;
        // Add a fifteenth.
        let distance = left + (left.wrapping_mul(34_953) >> 19);
        each[i] = distance;
        greatest = distance.max(greatest);
        sum += distance;
        squares = squares.wrapping_add(distance.wrapping_mul(distance));
    }
    Distances {
        each,
        greatest,
        sum,
        squares: u64::from(squares),
    }
}

/// The mean distance after `count` of these, with a weight of 1/256 for each.
#[inline(always)]
pub fn spread_behind(spread: u64, distances: &Distances, count: usize) -> u64
    requires few { count ≤ 32 }
    requires near { spread + total (take count distances.now.each) ≤ 2 ^ 32 }
    ensures behind { result ≡ spread_after spread (take count distances.now.each) }
    ensures most { result ≤ 2 ^ 32 }
{
    let mut behind = spread;
    for i in 0..count {
        behind = behind - (behind >> 8) + u64::from(distances.each[i]);
    }
    behind
}
