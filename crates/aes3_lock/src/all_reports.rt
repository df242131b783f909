//! All reports of a list of cells, with each place tried by itself.
ghost use Rattle.std.specs.Prelude.{◌≡◌, ◌<◌, ◌≤◌, ◌+◌, ◌^◌, IfOk, length, option_to_list, take};
ghost use Rattle.aes3_level.specs.Words.{low_cells};
ghost use Rattle.aes3_slot.specs.Rules.{before};
ghost use Rattle.aes3_lock.specs.Candidates.{front};
ghost use Rattle.aes3_lock.specs.Reports.{outcome_at, reports, told};
ghost use Rattle.aes3_lock.specs.Following.{Filled};

use crate::begun_subframe::{PREAMBLE_CELLS, with_cell, with_next};
use crate::candidate::Candidate;
use crate::report::{Report, report_with};
use crate::rule::may_stand;
use aes3_frame::{BLOCK_CELLS, GatheredCells, SUBFRAMES};
use aes3_level::Level;
use aes3_slot::SUBFRAME_CELLS;
use std::alloc::{AllocError, Global};

/// The first eight cells as an octet.
fn first_eight(cells: &[Level]) -> u8
    requires { 8 ≤ length cells.now }
    ensures { low_cells 8 result ≡ take 8 cells.now }
{
    let mut recent = 0;
    for cell in cells[..8].iter() {
        recent = with_cell(recent, *cell);
    }
    recent
}

/// How many cells continue as a block's after the level `level_before`, and the level of the last
/// one. The cells of whole subframes go into `words`.
fn go_through(level_before: Level, cells: &[Level], words: &mut [u64; SUBFRAMES]) -> (u64, Level)
    ensures front { result.0 ≡ front level_before cells.now }
    ensures last { result.1 ≡ before level_before cells.now result.0 }
    ensures words { Filled words.new (take result.0 cells.now) }
{
    let mut level = level_before;
    let mut previous = level_before;
    let mut subframe = 0;
    let mut offset = 0;
    for cell in cells.iter() {
        if offset == BLOCK_CELLS || !may_stand(offset, *cell, level, previous) {
            return (offset, previous);
        }
        let len = offset % SUBFRAME_CELLS;
        subframe = with_next(subframe, len, *cell);
        if len == SUBFRAME_CELLS - 1 {
            words[(offset / SUBFRAME_CELLS) as usize] = subframe;
            subframe = 0;
            level = *cell;
        }
        previous = *cell;
        offset += 1;
    }
    (offset, previous)
}

/// The report of place `at`, where these cells begin.
fn report_at(at: u64, cells: &[Level]) -> Option<Report>
    requires { at + length cells.now < 2 ^ 64 }
    ensures { option_to_list result ≡ told at (outcome_at cells.now) }
{
    if cells.len() < 8 {
        return None;
    }
    let Some(begun) = Candidate::in_last_eight(PREAMBLE_CELLS, first_eight(cells)) else {
        return None;
    };
    let candidate = Candidate {
        at,
        before: begun.before,
        level: begun.level,
    };
    let mut words = [0; SUBFRAMES];
    let (offset, previous) = go_through(candidate.before, cells, &mut words);
    let gathered = GatheredCells::of_words(&words);
    let place = offset as usize;
    let ending = if place < cells.len() {
        candidate.ended_by(offset, cells[place], previous, &gathered)
    } else {
        candidate.cut_after(offset, &gathered)
    };
    Some(report_with(ending, &gathered))
}

/// All reports of these cells, in order of place, with every place tried by itself.
///
/// # Errors
/// `AllocError` if there is no memory for the reports.
pub fn reports_of(alloc: Global, cells: &[Level]) -> Result<Vec<Report>, AllocError>
    ensures { IfOk result (λ found. found.items ≡ reports cells.now) }
{
    let mut found = Vec::new(alloc);
    for at in 0..cells.len() {
        if let Some(report) = report_at(at as u64, &cells[at..]) {
            found.push(report)?;
        }
    }
    Ok(found)
}
