//! A watch for samples in which a line has too few edges for an AES3 line.

ghost use Rattle.std.specs.Prelude.{◌≡◌, ◌-◌, None, true, false};
ghost use Rattle.std.specs.Option.{option_or};
ghost use Rattle.aes3_capture_runs.specs.Sparse.{has_few_edges, is_due, sparse_samples};

use aes3_capture_recovery::Figures;

/// The least number of cells whose edges are counted: of few cells, the time slots that are cut at
/// the two ends would show.
const CELLS_OF_COUNT: u64 = 2_048;

/// Samples in which a line that is followed has too few edges.
#[derive(Clone, Copy)]
pub struct SparseSamples {
    /// The first of them, counted from 0.
    pub from: u64,
    /// The first sample after them.
    pub to: u64,
}

/// Watches how many edges a line has.
///
/// In an AES3 line each time slot of two cells begins with an edge, and a preamble of eight cells
/// has four. So a line with fewer edges than one in two cells has another rate than the one at
/// which it is followed.
#[derive(Drop)]
pub struct EdgeWatch {
    latest: Figures,
    sparse: Option<SparseSamples>,
}

impl EdgeWatch {
    /// A watch before the first sample.
    pub fn new() -> Self
        ensures { result.sparse ≡ None }
    {
        EdgeWatch {
            latest: Figures::default(),
            sparse: None,
        }
    }

    /// Takes what was found of the line up to now, in the middle of a capture, and counts its edges
    /// if enough cells came. (At the end, cells are given that no edge has ended.)
    pub fn note(&mut self, figures: &Figures)
        ensures latest { is_due self.old.latest figures.now ≡ true → self.new.latest ≡ figures.now }
        ensures sparse { is_due self.old.latest figures.now ≡ true → self.new.sparse
            ≡ option_or self.old.sparse (sparse_samples self.old.latest figures.now) }
        ensures unchanged { is_due self.old.latest figures.now ≡ false → self.new ≡ self.old }
    {
        if cells_between(&self.latest, figures) >= CELLS_OF_COUNT {
            self.sparse = self.sparse.or(sparse_samples(&self.latest, figures));
            self.latest = *figures;
        }
    }

    /// The first samples with too few edges, if there are any.
    pub fn sparse(&self) -> Option<SparseSamples>
        ensures { result ≡ self.now.sparse }
    {
        self.sparse
    }
}

/// How many cells came from one time to another.
fn cells_between(before: &Figures, now: &Figures) -> u64
    ensures { result ≡ now.now.cells - before.now.cells }
{
    now.cells.saturating_sub(before.cells)
}

/// The samples from one time to another, if too few edges were followed in them.
fn sparse_samples(before: &Figures, now: &Figures) -> Option<SparseSamples>
    ensures { result ≡ sparse_samples before.now now.now }
{
    if !has_few_edges(before, now) {
        return None;
    }
    Some(SparseSamples {
        from: before.samples,
        to: now.samples,
    })
}

/// Whether a line was followed from one time to another, without a measurement, and had more than
/// 33 cells for each 16 edges.
fn has_few_edges(before: &Figures, now: &Figures) -> bool
    ensures { result ≡ has_few_edges before.now now.now }
{
    let edges = now.edges.saturating_sub(before.edges);
    let cells = cells_between(before, now);
    let is_followed = now.measured > 0
        && now.measured == before.measured
        && now.misses == before.misses
        && now.dead == before.dead
        && edges > 0;
    is_followed && cells >= CELLS_OF_COUNT && cells.saturating_mul(16) > edges.saturating_mul(33)
}
