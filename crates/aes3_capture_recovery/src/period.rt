//! Finds a line by its preambles: the length of a cell, and the positions of the edges.

ghost use Rattle.std.specs.Prelude.{ℕ, ◌^◌, ◌+◌, ◌<◌, ◌≤◌, ◌≡◌, ◌&&◌, if◌then◌else◌, nat_eq, nat_le, nat_lt, get_or, length, take};
ghost use Rattle.std.specs.Prelude.{IsTrue, IfSome, IsSomeAnd, List, ◌-◌, ◌*◌, ◌/◌, ◌%◌, max};
ghost use Rattle.aes3_capture.specs.declared.follower.Bounds.{Bounds};
ghost use Rattle.aes3_capture.specs.Captures.{AreDisplaced, IsAbout, sum_to};
ghost use Rattle.aes3_capture.specs.Directions.{IsAt};
ghost use Rattle.aes3_capture_recovery.specs.Finding.{CountsLine, IsACapture};
ghost use Rattle.aes3_capture_recovery.specs.Finding.{AllowsCells, AreCapturedRuns, AreEnds, AreOfALine, AreOfManySubframes, AreOfSubframes, IsFound, IsLikeAPreamble, IsStarted, IsSix, IsTolerable, long_pairs, pair_at, sums_to};
ghost use Rattle.aes3_capture_recovery.specs.declared.period.Anchor.{Anchor};
ghost use Rattle.aes3_capture_recovery.specs.declared.period.Side.{Side};
ghost use Rattle.aes3_capture_recovery.specs.declared.period.Side.TheVariants.{Of};
ghost use Rattle.aes3_capture_recovery.specs.Measuring.{HavePreambles, IsAround, IsAskedFor, IsLine, IsMeasured, IsSteady, are_preamble, place_at};

use aes3_capture::{Bounds, Follower, PARTS};

/// How many runs of samples are measured at once.
pub(crate) const RUNS: usize = 256;

/// A subframe has at most 60 runs, so any 64 in a row include the first run of a preamble.
const GROUP: usize = 64;

/// The greatest number of groups of runs.
const GROUPS: usize = RUNS / GROUP;

/// How many edges at each end of the runs determine the period, the same number rising and falling.
const ENDS: usize = 16;

/// The least and the greatest number of samples of the longest pair, which has six cells.
const SHORTEST_PAIR: u32 = 12;

const LONGEST_PAIR: u32 = 1 << 16;

/// The shortest and the longest period of a line, in parts of a sample: 2 samples and a 64th, and
/// 8,000.
pub const SHORTEST_PERIOD: u64 = 2 * PARTS + PARTS / 64;

pub const LONGEST_PERIOD: u64 = 8000 * PARTS;

/// Two runs in a row: their number of samples, and the number of the first run.
#[derive(Clone, Copy)]
struct Pair {
    samples: u32,
    at: usize,
}

/// Which runs can be the first of a preamble.
#[derive(Clone, Copy, PartialEq, Eq)]
enum Side {
    /// Those of one direction: every second run, from the first or the second on.
    Of(usize),
    /// All.
    Both,
}

/// The first run of a preamble: its number, and the numbers of samples and subframes before it.
#[derive(Clone, Copy, Default)]
struct Anchor {
    run: usize,
    samples: u64,
    subframes: u64,
}

/// How many samples a run has; 0 if there is no such run.
fn run_at(runs: &[u32], i: usize) -> u64
    ensures bound { result < 2 ^ 32 }
    ensures value { result ≡ get_or runs.now i 0 }
{
    match runs.get(i) {
        Some(run) => u64::from(*run),
        None => 0,
    }
}

/// The longest of the pairs whose first run is in this range.
fn longest_pair(runs: &[u32], from: usize, to: usize) -> Pair
    requires within { to < length runs.now }
    requires ordered { from ≤ to }
    ensures most { (i : ℕ) → from ≤ i → i < to → pair_at runs.now i ≤ result.samples }
    ensures value { 0 < result.samples → (result.at < to) × (result.samples ≡ pair_at runs.now result.at) }
{
    let mut longest = Pair {
        samples: 0,
        at: from,
    };
    for i in from..to {
        let samples = runs[i].saturating_add(runs[i + 1]);
        if samples > longest.samples {
            longest = Pair { samples, at: i };
        }
    }
    longest
}

/// The longest pair of the first half and that of the second half, the longer one first.
fn longest_pairs(runs: &[u32]) -> (Pair, Pair)
    requires some { 2 ≤ length runs.now }

    // The first is the longest of all.
    ensures most { (i : ℕ) → i + 1 < length runs.now → pair_at runs.now i ≤ result.0.samples }
    ensures value { 0 < result.0.samples
        → (result.0.at + 1 < length runs.now) × (result.0.samples ≡ pair_at runs.now result.0.at) }
{
    let half = runs.len() / 2;
    let front = longest_pair(runs, 0, half);
    let rear = longest_pair(runs, half, runs.len() - 1);
    if front.samples >= rear.samples {
        (front, rear)
    } else {
        (rear, front)
    }
}

/// Whether pairs are like those of a line whose longest pair has six cells. Seven in eight have at
/// least a quarter of that, since no pair has less than two cells. Seven in eight have at most four
/// fifths, since few have more than four cells.
fn are_likely(runs: &[u32], longest: u32) -> bool
    // They are if no pair is too short, and only the few pairs of five and six cells of a line are
    // longer.
    ensures found { (line : List ℕ) → ((i : ℕ) → i + 1 < length runs.now → longest ≤ 4 * pair_at runs.now i)
        → ((i : ℕ) → i + 1 < length runs.now → get_or line i 0 + get_or line (i + 1) 0 ≤ 4
        → pair_at runs.now i ≤ longest - longest / 5)
        → long_pairs line (length runs.now - 1) ≤ length runs.now / 8 → IsTrue result }
{
    let least = longest.div_ceil(4);
    let most = longest - longest / 5;
    let mut short = 0;
    let mut long = 0;
    for i in 1..runs.len() {
        let pair = runs[i - 1].saturating_add(runs[i]);
        short += usize::from(pair < least);
        long += usize::from(pair > most);
    }
    let few = runs.len() / 8;
    short <= few && long <= few
}

/// A score of how likely a run is the first of a preamble, whose longest pair has this number of
/// samples. Among runs of one direction, the likeliest is the longest. Among all runs, it is the
/// one with the largest sum of twice itself, the next run and the third after it; in this sum a
/// late direction makes no difference. A run of more than four cells belongs to no preamble.
fn score(runs: &[u32], i: usize, longest: u64, side: Side) -> u64
    requires few { i < 2 ^ 32 }
    requires short { longest < 2 ^ 32 }
    ensures value { (s : ℕ) → side ≡ Of s → i % 2 ≡ s → 3 * get_or runs.now i 0 ≤ 2 * longest → result ≡ get_or runs.now i 0 }
    ensures side { (s : ℕ) → side ≡ Of s → 0 < result → (i % 2 ≡ s) × (result ≡ get_or runs.now i 0) }
{
    let run = run_at(runs, i);
    if 3 * run > 2 * longest {
        return 0;
    }
    match side {
        Side::Of(side) if i % 2 == side => run,
        Side::Of(_) => 0,
        Side::Both => 2 * run + run_at(runs, i + 1) + run_at(runs, i + 3),
    }
}

/// How many samples there are before a run.
fn samples_before(runs: &[u32], run: usize) -> u64
    requires few { length runs.now ≤ 256 }
    requires within { run ≤ length runs.now }
    ensures bound { result < 2 ^ 40 }
    ensures value { result ≡ sum_to runs.now run }
{
    let mut samples = 0;
    for i in 0..run {
        samples += u64::from(runs[i]);
    }
    samples
}

/// The likeliest first run of a preamble in a group of runs.
fn likeliest(runs: &[u32], begin: usize, longest: u64, side: Side) -> usize
    requires few { length runs.now ≤ 256 }
    requires within { begin + 64 ≤ length runs.now }
    requires short { longest < 2 ^ 32 }
    ensures within { result < length runs.now }

    // For one side it is the longest of those that are not too long, if there is one.
    ensures longest { (s i : ℕ) → side ≡ Of s → begin ≤ i → i < begin + 64 → i % 2 ≡ s → 0 < get_or runs.now i 0
        → 3 * get_or runs.now i 0 ≤ 2 * longest
        → (begin ≤ result) × (result < begin + 64) × (result % 2 ≡ s) × (get_or runs.now i 0 ≤ get_or runs.now result 0) }
{
    let mut best = 0;
    let mut found = begin;
    for i in begin..begin + GROUP {
        let now = score(runs, i, longest, side);
        if now > best {
            best = now;
            found = i;
        }
    }
    found
}

/// The most likely number of subframes between two preambles with this number of samples between
/// them: 64 cells are 32/3 of the longest pair.
fn subframes_in(samples: u64, longest: u64) -> u64
    requires samples { samples < 2 ^ 40 }
    requires some { 0 < longest }
    requires short { longest < 2 ^ 32 }
    ensures bound { result < 2 ^ 48 }
    ensures value { result ≡ (12 * samples + 64 * longest) / (128 * longest) }
{
    (12 * samples + 64 * longest) / (128 * longest)
}

/// The likely preamble in each group of runs, the last group ending with the runs, and the number
/// of groups.
fn anchors(runs: &[u32], longest: u64, side: Side) -> ([Anchor; GROUPS], usize)
    requires few { length runs.now ≤ 256 }
    requires some { 128 ≤ length runs.now }
    requires long { 0 < longest }
    requires short { longest < 2 ^ 32 }
    ensures count { result.1 ≤ 4 }
    ensures within { (i : ℕ) (other : Anchor) → i < result.1 → (get_or result.0 i other).run < length runs.now }

    // If the runs are a capture, the first and the last of these are first runs of preambles, with
    // the right number of subframes between them.
    ensures found { (narrow : Bounds) (spread late later place s : ℕ) (places line : List ℕ) (other : Anchor)
        → AreCapturedRuns narrow spread late later place s places line runs.now → IsSix narrow spread longest → side ≡ Of s
        → (result.1 ≡ 4) × AreEnds place line runs.now (get_or result.0 0 other) (get_or result.0 3 other) }
{
    let count = runs.len().div_ceil(GROUP);
    let mut found = [Anchor::default(); GROUPS];
    let mut before = Anchor::default();
    for g in 0..count {
        let begin = (g * GROUP).min(runs.len() - GROUP);
        let run = likeliest(runs, begin, longest, side);
        let samples = samples_before(runs, run);
        let distance = samples.saturating_sub(before.samples);
        let more = if g == 0 {
            0
        } else {
            subframes_in(distance, longest)
        };
        let subframes = before.subframes + more;
        before = Anchor {
            run,
            samples,
            subframes,
        };
        found[g] = before;
    }
    (found, count)
}

/// The bounds of cells of about this period, which may change by one part in `part`.
fn bounds_within(period: u64, part: u64) -> Option<Bounds>
    requires part { 512 ≤ part }
    ensures longest { IfSome result (λ bounds. period ≤ bounds.high) }
    ensures shortest { IfSome result (λ bounds. bounds.low ≤ period) }
    ensures around { part ≡ 1024 → IfSome result (λ bounds. IsAround bounds period) }
    ensures about { 132096 ≤ period → period ≤ 524288000 → IsSomeAnd result (λ bounds. IsAbout bounds period part) }
{
    if period < SHORTEST_PERIOD || period > LONGEST_PERIOD {
        return None;
    }
    Some(Bounds {
        low: period - period / part,
        high: period + period / part,
    })
}

/// The bounds of cells of about this period: it may change by a 1024th.
fn bounds_around(period: u64) -> Option<Bounds>
    ensures around { IfSome result (λ bounds. IsAround bounds period) }
    ensures longest { IfSome result (λ bounds. period ≤ bounds.high) }
    ensures shortest { IfSome result (λ bounds. bounds.low ≤ period) }
    ensures about { 132096 ≤ period → period ≤ 524288000 → IsSomeAnd result (λ bounds. IsAbout bounds period 1024) }
{
    bounds_within(period, 1024)
}

/// Whether a preamble may begin with a run, if this is the length of a cell. Its four runs have
/// eight cells, to within one, and the first run is more than one cell longer than the third. A
/// preamble that the end cuts off may begin.
fn may_begin(runs: &[u32], run: usize, period: u64) -> bool
    requires few { run < 2 ^ 32 }
    requires short { period < 2 ^ 60 }
    ensures begins { (run + 4 ≤ length runs.now → IsLikeAPreamble runs.now run period) → IsTrue result }
{
    if runs.len() < run + 4 {
        return true;
    }
    let first = run_at(runs, run);
    let third = run_at(runs, run + 2);
    let four = first + run_at(runs, run + 1) + third + run_at(runs, run + 3);
    (four * PARTS).abs_diff(8 * period) <= period && first.saturating_sub(third) * PARTS > period
}

/// The follower at the first edge, found by following the runs before an anchor in reverse. It
/// starts at the end of the anchor, whose first run has three cells.
fn at_first(runs: &[u32], anchor: usize, bounds: Bounds, measured: u64) -> Follower
    requires within { anchor < length runs.now }
    ensures bounds { result.bounds ≡ bounds }
    ensures quiet { result.elapsed ≡ 0 }

    // It follows the line whose runs these are, if the anchor has three cells.
    ensures found { (narrow : Bounds) (spread late later : ℕ) (places cells : List ℕ)
        → AreOfALine narrow bounds spread late later places cells runs.now → get_or cells anchor 0 ≡ 3
        → IsAt result spread late later places 0 }
{
    let period = measured.clamp(bounds.low, bounds.high);
    let middle = bounds.low + bounds.low / 2;
    let run = u64::from(runs[anchor]) * PARTS;
    let other = (middle + 3 * period).saturating_sub(run);
    let mut follower = Follower::at(bounds, period, middle, other.min(3 * bounds.low));
    for i in 0..anchor + 1 {
        follower.run(runs[anchor - i]);
    }
    follower.reverse(period)
}

/// Whether four runs of cells are a preamble: 3, 3, 1, 1 or 3, 2, 1, 2 or 3, 1, 1, 3.
fn is_preamble(first: u32, second: u32, third: u32, fourth: u32) -> bool
    ensures { result ≡ are_preamble first second third fourth }
{
    first == 3 && third == 1 && 1 <= second && second <= 3 && fourth == 4 - second
}

/// Counts the cells of runs with a follower of their line. Returns whether seven in eight runs have
/// one to three cells, as on a line.
fn count_runs(follower: Follower, runs: &[u32], cells: &mut [u32; RUNS]) -> bool
    requires few { length runs.now ≤ 256 }
    requires quiet { follower.elapsed ≡ 0 }
    ensures steady { IsTrue result → (steady : IsSteady follower runs.now) × (steady.cells ≡ take (length runs.now) cells.new) }

    // If the follower follows the line of these runs, these are its cells.
    ensures found { (narrow : Bounds) (spread late later : ℕ) (places line : List ℕ)
        → AreOfALine narrow follower.bounds spread late later places line runs.now → IsAt follower spread late later places 0
        → IsTrue result × (take (length runs.now) cells.new ≡ line) }
{
    let mut follower = follower;
    let mut steady = 0;
    for i in 0..runs.len() {
        let count = follower.run(runs[i]);
        cells[i] = count as u32;
        if 1 <= count && count <= 3 {
            steady += 1;
        }
    }
    steady >= runs.len() - runs.len() / 8
}

/// How many cells there are before a run, less whole subframes.
fn cells_before(cells: &[u32; RUNS], run: usize) -> u64
    requires within { run ≤ 256 }
    ensures bound { result < 64 }
    ensures value { result ≡ place_at 0 cells.now run }
{
    let mut place = 0;
    for i in 0..run {
        place = (place + u64::from(cells[i])) % 64;
    }
    place
}

/// 1 if a preamble begins with these four runs at a multiple of a subframe, else 0.
fn preamble_at(place: u64, first: u32, second: u32, third: u32, fourth: u32) -> u32
    ensures { result ≡ (if nat_eq place 0 && are_preamble first second third fourth then 1 else 0) }
{
    if place == 0 && is_preamble(first, second, third, fourth) {
        1
    } else {
        0
    }
}

/// How many multiples of a subframe are at the beginning of a run of cells and inside it, of which
/// only the first cells count.
fn places_at(place: u64, cells: u32) -> u32
    requires within { place < 64 }
    ensures { result ≡ (if nat_eq place 0 && nat_le 1 cells then 1 else 0) + (if nat_lt 64 (place + cells) then 1 else 0) }
{
    let begins = if place == 0 && cells >= 1 { 1 } else { 0 };
    let inside = if place + u64::from(cells) > 64 { 1 } else { 0 };
    begins + inside
}

/// Whether preambles begin at three in four of the multiples of a subframe from the beginning of a
/// run, and at enough of them.
fn have_preambles(cells: &[u32; RUNS], count: usize, run: usize) -> bool
    requires few { count ≤ 256 }
    requires many { 128 ≤ count }
    requires within { run < 256 }
    ensures some { IsTrue result → HavePreambles (take count cells.now) }

    // On a line they do, if a preamble begins with that run.
    ensures found { (place : ℕ) → AreOfSubframes place (take count cells.now) → place_at place (take count cells.now) run ≡ 0
        → run < count → IsTrue result }
{
    let mut place = (64 - cells_before(cells, run)) % 64;
    let mut due = 0;
    let mut found = 0;
    for i in 0..count - 3 {
        found += preamble_at(place, cells[i], cells[i + 1], cells[i + 2], cells[i + 3]);
        due += places_at(place, cells[i]);
        place = (place + u64::from(cells[i])) % 64;
    }
    if (found as usize) < (count / 64 - 1).max(2) {
        return false;
    }
    4 * found >= 3 * due
}

/// The period, from the mean positions of the first and of the last edges.
fn period_of(runs: &[u32], cells: &[u32; RUNS]) -> u64
    requires few { length runs.now ≤ 256 }
    requires many { 128 ≤ length runs.now }
    ensures { result ≡ (sums_to runs.now (length runs.now - 15) 16 - sums_to runs.now 0 16) * 65536
        / max (sums_to cells.now (length runs.now - 15) 16 - sums_to cells.now 0 16) 1 }
{
    let mut at = 0u64;
    let mut cell = 0u64;
    let mut early = 0u64;
    let mut early_cells = 0u64;
    let mut late = 0u64;
    let mut late_cells = 0u64;
    for i in 0..runs.len() {
        if i < ENDS {
            early += at;
            early_cells += cell;
        }
        at += u64::from(runs[i]);
        cell += u64::from(cells[i]);
        if i >= runs.len() - ENDS {
            late += at;
            late_cells += cell;
        }
    }
    late.saturating_sub(early) * PARTS / late_cells.saturating_sub(early_cells).max(1)
}

/// The follower at the first edge for cells of this length, if it counts the cells of a line.
/// Writes these cells.
fn start(
    runs: &[u32],
    anchor: usize,
    bounds: Bounds,
    measured: u64,
    cells: &mut [u32; RUNS],
) -> Option<Follower>
    requires few { length runs.now ≤ 256 }
    requires many { 128 ≤ length runs.now }
    requires within { anchor < length runs.now }
    ensures line { IfSome result (IsLine bounds runs.now) }

    // It is found if these are the runs of a line, and the anchor is the first of a preamble. Then
    // the line's cells are written.
    ensures found { (narrow : Bounds) (spread late later place : ℕ) (places line : List ℕ)
        → AreOfALine narrow bounds spread late later places line runs.now → AreOfSubframes place line
        → get_or line anchor 0 ≡ 3 → place_at place line anchor ≡ 0
        → IsStarted narrow spread late later places result × (take (length runs.now) cells.new ≡ line) }
{
    let follower = at_first(runs, anchor, bounds, measured);
    if count_runs(follower, runs, cells) && have_preambles(cells, runs.len(), anchor) {
        Some(follower)
    } else {
        None
    }
}

/// A follower from the first edge on, by the first runs of two preambles; `None` if the cells that
/// it counts are not those of a line.
fn by_anchors(runs: &[u32], known: Option<u64>, first: Anchor, last: Anchor) -> Option<Follower>
    requires few { length runs.now ≤ 256 }
    requires many { 128 ≤ length runs.now }
    requires first_within { first.run < length runs.now }
    requires last_within { last.run < length runs.now }
    ensures measured { IfSome result (λ follower. IsMeasured known runs.now follower) }

    // It is found by the first runs of the first preamble and of the last.
    ensures found { (narrow : Bounds) (spread late later place side : ℕ) (places line : List ℕ)
        → AreCapturedRuns narrow spread late later place side places line runs.now → AreEnds place line runs.now first last
        → AllowsCells known narrow → IsFound known narrow spread late later places result }
{
    let subframes = last.subframes.saturating_sub(first.subframes);
    if subframes == 0 || subframes > 64 {
        return None;
    }
    let samples = last.samples.saturating_sub(first.samples);
    let measured = samples.min(1 << 40) * PARTS / (64 * subframes);
    if !may_begin(runs, first.run, measured) || !may_begin(runs, last.run, measured) {
        return None;
    }
    // With few subframes jitter changes the measured period more than with many.
    let part = match known {
        Some(_) => 1024,
        None => (128 * (subframes + 3)).min(1024),
    };
    let mut cells = [0; RUNS];
    let Some(bounds) = bounds_within(known.unwrap_or(measured), part) else {
        return None;
    };
    if start(runs, last.run, bounds, measured, &mut cells).is_none() {
        return None;
    }
    // Repeated, with the period of all these cells.
    let measured = period_of(runs, &cells);
    let Some(bounds) = bounds_around(known.unwrap_or(measured)) else {
        return None;
    };
    start(runs, last.run, bounds, measured, &mut cells)
}

/// A follower by the length of the longest pair: six cells, the first three of which begin a
/// preamble.
fn by_pair(runs: &[u32], known: Option<u64>, longest: u32, side: Side) -> Option<Follower>
    requires few { length runs.now ≤ 256 }
    requires many { 128 ≤ length runs.now }
    requires long { 0 < longest }
    ensures measured { IfSome result (λ follower. IsMeasured known runs.now follower) }

    // It is found if this is a pair of six cells, and preambles begin on this side.
    ensures found { (narrow : Bounds) (spread late later place s : ℕ) (places line : List ℕ)
        → AreCapturedRuns narrow spread late later place s places line runs.now → IsSix narrow spread longest → side ≡ Of s
        → AllowsCells known narrow → IsFound known narrow spread late later places result }
{
    let (anchors, count) = anchors(runs, u64::from(longest), side);
    let tries = [(0, 1), (0, 2), (1, 1), (1, 2)];
    for k in 0..4 {
        let (first, last) = tries[k];
        if first + last < count {
            let found = by_anchors(runs, known, anchors[first], anchors[count - last]);
            if found.is_some() {
                return found;
            }
        }
    }
    None
}

/// A follower by the longest pair, if pairs are like those of a line. On a clean line its first run
/// begins a preamble. The other two attempts are for lines with wrong parity and for damage.
fn by_longest(runs: &[u32], known: Option<u64>, longest: Pair) -> Option<Follower>
    requires few { length runs.now ≤ 256 }
    requires many { 128 ≤ length runs.now }
    ensures measured { IfSome result (λ follower. IsMeasured known runs.now follower) }

    // It is found if no pair is longer.
    ensures found { (narrow : Bounds) (spread late later place side : ℕ) (places line : List ℕ)
        → AreCapturedRuns narrow spread late later place side places line runs.now
        → ((i : ℕ) → i + 1 < length runs.now → pair_at runs.now i ≤ longest.samples)
        → (0 < longest.samples → (longest.at + 1 < length runs.now) × (longest.samples ≡ pair_at runs.now longest.at))
        → AllowsCells known narrow → IsFound known narrow spread late later places result }
{
    if longest.samples < SHORTEST_PAIR
        || longest.samples > LONGEST_PAIR
        || !are_likely(runs, longest.samples)
    {
        return None;
    }
    let side = longest.at % 2;
    let found = by_pair(runs, known, longest.samples, Side::Of(side));
    if found.is_some() {
        return found;
    }
    let found = by_pair(runs, known, longest.samples, Side::Of(1 - side));
    if found.is_some() {
        return found;
    }
    by_pair(runs, known, longest.samples, Side::Both)
}

/// A follower of the line with these runs, 128 to 256 of them, from the edge before them on; `None`
/// if they are not those of a line. `known` is its period in parts of a sample, if it is given.
pub fn follower_of_runs(runs: &[u32], known: Option<u64>) -> Option<Follower>
    ensures measured { IfSome result (λ follower. IsMeasured known runs.now follower) }

    // It is found if these are 256 runs of a line in which it can be found, and it follows that
    // line from its first edge on.
    ensures found { (narrow : Bounds) (spread late later place side : ℕ) (places line : List ℕ)
        → AreCapturedRuns narrow spread late later place side places line runs.now → AllowsCells known narrow
        → IsFound known narrow spread late later places result }

    // This holds if edges are near their places and cells have one length, to within one part in
    // 32,768.
    ensures tolerance { (narrow : Bounds) (cell spread late later place side : ℕ) (places line : List ℕ)
        → AreDisplaced narrow spread late later places line runs.now → AreOfManySubframes place side line
        → IsAbout narrow cell 65536 → IsTolerable cell spread late later → AllowsCells known narrow
        → IsFound known narrow spread late later places result }

    // All cells that it counts are those of the line, in these runs and in any number of later
    // ones.
    ensures cells { (narrow : Bounds) (spread late later place side displaced : ℕ) (line all : List ℕ)
        → IsACapture narrow spread late later place side displaced line all → runs.now ≡ take 256 all → AllowsCells known narrow
        → IsSomeAnd result (CountsLine line all) }
{
    if runs.len() < 2 * GROUP || runs.len() > RUNS {
        return None;
    }
    let (longer, other) = longest_pairs(runs);
    let found = by_longest(runs, known, longer);
    // One half may have a run that is not the line's.
    if found.is_some() || longer.samples - longer.samples / 9 <= other.samples {
        return found;
    }
    by_longest(runs, known, other)
}

/// A follower of a line of which only the period is known, if it is.
pub(crate) fn known_follower(known: Option<u64>) -> Option<Follower>
    ensures { IfSome result (λ follower. IsAskedFor known follower) }
{
    match known {
        Some(period) => match bounds_around(period) {
            Some(bounds) => Some(Follower::new(bounds, period)),
            None => None,
        },
        None => None,
    }
}

/// A follower of no line.
pub(crate) fn any_follower() -> Follower {
    let bounds = Bounds {
        low: 2 * PARTS,
        high: 2 * PARTS,
    };
    Follower::new(bounds, 2 * PARTS)
}
