//! The workloads.

ghost use Rattle.std.specs.Prelude.{◌≡◌, ◌+◌, ◌<◌, ◌≤◌, ◌^◌};

use crate::captures::{Sampling, captures, still};
use crate::digest::Digest;
use crate::numbers::Numbers;
use crate::runs::{run_capture, run_command, some_of};
use crate::workload_lines::{
    Layout, NO_STATUS, blocks, dense_preambles, noise, packed_cells, samples_of_block, slipped,
    text_cells, with_inverted_cells,
};
use aes3_capture_recovery::Unit;
use anyhow::{Result, bail};
use std::alloc::{AllocError, Global};

/// How many blocks the input of a workload is made of.
const BLOCKS: u32 = 24;

/// The last octet of packed cells that fill their octets.
const NONE_UNUSED: &[u8] = &[0];

/// Text in the lines that the codec writes.
const LINES: Layout = Layout {
    line: 64,
    group: 0,
    end: "\n",
};

/// The source of a workload's data, and the digest of what it wrote.
#[derive(Drop)]
struct Workload<'a> {
    alloc: Global,
    numbers: Numbers,
    rounds: u32,
    digest: &'a mut Digest,
}

impl<'a> Workload<'a> {
    /// Runs a command on `count` pieces in each round.
    fn run(
        &mut self,
        words: &[&str],
        pieces: &[Vec<u8>],
        count: u32,
        ending: &[u8],
    ) -> Result<(), AllocError> {
        let count = count.saturating_mul(self.rounds);
        let source = some_of(pieces, &mut self.numbers, count, ending);
        run_command(self.alloc, words, source, self.digest)
    }

    /// Runs a command on `count` pieces of text in each round.
    fn text(&mut self, words: &[&str], pieces: &[Vec<u8>], count: u32) -> Result<(), AllocError> {
        self.run(words, pieces, count, &[])
    }

    /// Runs a command on `count` packed pieces in each round.
    fn packed(&mut self, words: &[&str], pieces: &[Vec<u8>], count: u32) -> Result<(), AllocError> {
        self.run(words, pieces, count, NONE_UNUSED)
    }

    /// Recovers the cells of `count` pieces of a capture in each round.
    fn capture(&mut self, unit: Unit, pieces: &[Vec<u8>], count: u32) -> Result<(), AllocError> {
        let count = count.saturating_mul(self.rounds);
        let source = some_of(pieces, &mut self.numbers, count, &[]);
        run_capture(self.alloc, unit, source, self.digest)
    }

    /// Packed blocks; some have an inverted cell.
    fn line(&mut self) -> Result<Vec<Vec<u8>>, AllocError> {
        let blocks = blocks(self.alloc, &mut self.numbers, BLOCKS)?;
        let mut pieces = packed_cells(self.alloc, blocks.as_slice())?;
        let some = with_inverted_cells(
            self.alloc,
            packed_cells(self.alloc, &blocks.as_slice()[..blocks.len().min(2)])?,
            &mut self.numbers,
            3000,
        )?;
        for piece in some {
            pieces.push(piece)?;
        }
        Ok(pieces)
    }

    /// Recordings, as archives, gateways and test sets read them.
    fn recordings(&mut self) -> Result<(), AllocError> {
        let packed = self.line()?;
        let text = text_cells(self.alloc, packed.as_slice(), LINES)?;
        self.text(&["normal"], text.as_slice(), 1000)?;
        self.text(&["check"], text.as_slice(), 1000)?;
        self.text(&["decode"], text.as_slice(), 1000)?;
        let both = ["normal", "--packed-in", "--packed-out"];
        self.packed(&both, packed.as_slice(), 2000)?;
        self.packed(&["check", "--packed-in"], packed.as_slice(), 2000)?;
        self.packed(&["decode", "--packed-in"], packed.as_slice(), 2000)
    }

    /// Cells as other tools write them.
    fn awkward_text(&mut self) -> Result<(), AllocError> {
        let packed = self.line()?;
        let short = Layout {
            line: 63,
            group: 0,
            end: "\n",
        };
        let short = text_cells(self.alloc, packed.as_slice(), short)?;
        self.text(&["check"], short.as_slice(), 500)?;
        let grouped = Layout {
            line: 64,
            group: 8,
            end: "\r\n",
        };
        let grouped = text_cells(self.alloc, packed.as_slice(), grouped)?;
        self.text(&["normal", "--packed-out"], grouped.as_slice(), 500)?;
        let single = Layout {
            line: 1,
            group: 0,
            end: "\n",
        };
        let single = text_cells(self.alloc, packed.as_slice(), single)?;
        self.text(&["decode"], single.as_slice(), 300)?;
        let whole = Layout {
            line: 0,
            group: 0,
            end: "",
        };
        let whole = text_cells(self.alloc, packed.as_slice(), whole)?;
        self.text(&["check"], whole.as_slice(), 500)
    }

    /// Damaged and hostile lines.
    fn hostile_lines(&mut self) -> Result<(), AllocError> {
        let alloc = self.alloc;
        let dense = dense_preambles(alloc, &mut self.numbers, 5)?;
        let text = text_cells(alloc, dense.as_slice(), LINES)?;
        self.text(&["check"], text.as_slice(), 60)?;
        self.text(&["normal"], text.as_slice(), 60)?;
        self.packed(&["check", "--packed-in", "--gaps"], dense.as_slice(), 60)?;
        let less_dense = dense_preambles(alloc, &mut self.numbers, 6)?;
        self.packed(&["normal", "--packed-in"], less_dense.as_slice(), 60)?;
        let random = noise(alloc, &mut self.numbers, 8, 3072)?;
        self.packed(&["check", "--packed-in"], random.as_slice(), 400)?;
        let packed = self.line()?;
        let slips = slipped(alloc, packed.as_slice(), &mut self.numbers, 2000)?;
        self.packed(&["check", "--packed-in", "--gaps"], slips.as_slice(), 400)?;
        let hit = with_inverted_cells(alloc, packed, &mut self.numbers, 400)?;
        let hit = text_cells(alloc, hit.as_slice(), LINES)?;
        self.text(&["normal"], hit.as_slice(), 400)
    }

    /// Blocks changed, decoded and made, as converters and gateways do.
    fn changed_blocks(&mut self) -> Result<(), AllocError> {
        let alloc = self.alloc;
        let packed = self.line()?;
        let settings = [
            "rewrite",
            "--packed-in",
            "--packed-out",
            "--set1",
            "rate=44100",
            "--set2",
            "rate=32000",
            "--mend-check",
        ];
        self.packed(&settings, packed.as_slice(), 600)?;
        let validity = [
            "rewrite",
            "--packed-in",
            "--packed-out",
            "--valid1",
            "0",
            "--clear-user1",
            "--clear-user2",
        ];
        self.packed(&validity, packed.as_slice(), 600)?;
        self.packed(&["to-pcm", "--packed-in"], packed.as_slice(), 600)?;
        let mut samples = Vec::new(alloc);
        for _ in 0..BLOCKS {
            samples.push(samples_of_block(alloc, &mut self.numbers)?)?;
        }
        let status = [
            "from-pcm",
            "--status1",
            NO_STATUS,
            "--status2",
            NO_STATUS,
            "--set1",
            "rate=48000",
            "--set2",
            "rate=48000",
        ];
        self.text(&status, samples.as_slice(), 600)?;
        let files = blocks(alloc, &mut self.numbers, BLOCKS)?;
        self.text(&["encode", "--packed-out"], files.as_slice(), 600)?;
        self.text(&["encode"], files.as_slice(), 300)
    }

    /// A line searched, shown and watched.
    fn search_and_watch(&mut self) -> Result<(), AllocError> {
        let packed = self.line()?;
        let text = text_cells(self.alloc, packed.as_slice(), LINES)?;
        self.text(&["scan"], text.as_slice(), 600)?;
        self.packed(&["scan", "--packed-in"], packed.as_slice(), 600)?;
        self.packed(&["watch", "--packed-in"], packed.as_slice(), 600)?;
        self.packed(
            &["show", "--packed-in", "--changes"],
            packed.as_slice(),
            600,
        )
    }

    /// Captures of logic analysers: most with four samples in a cell, of steady lines, and of a
    /// line that loses its signal, regains it and is noise.
    fn captures(&mut self) -> Result<(), AllocError> {
        let alloc = self.alloc;
        let line = self.line()?;
        let few = Sampling {
            unit: Unit::Octets(3),
            period: 266_667,
            jitter: 24_000,
        };
        let steady = captures(alloc, line.as_slice(), &mut self.numbers, few)?;
        self.capture(few.unit, steady.as_slice(), 80)?;
        let many = Sampling {
            unit: Unit::Octets(6),
            period: 2_162_688,
            jitter: 60_000,
        };
        let some = &line.as_slice()[..line.len().min(3)];
        let slow = captures(alloc, some, &mut self.numbers, many)?;
        self.capture(many.unit, slow.as_slice(), 10)?;
        let wide = Sampling {
            unit: Unit::Pairs(9),
            period: 1_161_000,
            jitter: 40_000,
        };
        let slow = captures(alloc, some, &mut self.numbers, wide)?;
        self.capture(wide.unit, slow.as_slice(), 10)?;
        let mut unsteady = steady;
        for _ in 0..3 {
            unsteady.push(still(alloc, &mut self.numbers, few.unit, 60_000)?)?;
        }
        for piece in noise(alloc, &mut self.numbers, 2, 10_000)? {
            unsteady.push(piece)?;
        }
        self.capture(few.unit, unsteady.as_slice(), 30)
    }
}

/// Runs this number of rounds of a workload from this seed, and adds what it writes to the digest.
pub fn run_workload(
    alloc: Global,
    name: &str,
    seed: u32,
    rounds: u32,
    digest: &mut Digest,
) -> Result<()> {
    let numbers = Numbers::new(seed, 0);
    let mut workload = Workload {
        alloc,
        numbers,
        rounds,
        digest,
    };
    match name {
        "recordings" => workload.recordings()?,
        "awkward-text" => workload.awkward_text()?,
        "hostile-lines" => workload.hostile_lines()?,
        "changed-blocks" => workload.changed_blocks()?,
        "search-and-watch" => workload.search_and_watch()?,
        "captures" => workload.captures()?,
        _ => bail!("there is no workload of this name"),
    }
    Ok(())
}
