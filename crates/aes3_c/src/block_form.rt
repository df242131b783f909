//! What is put of a block: its cells, its words or its samples.

ghost use Rattle.std.specs.Prelude.{◌≡◌, ◌<◌, ◌≤◌, length};
ghost use Rattle.std.specs.List.{flat_map};
ghost use Rattle.aes3_level.specs.Words.{word_cells};
ghost use Rattle.aes3_cell.specs.Packed.{octets_of};
ghost use Rattle.aes3_forms_samples.specs.Formats.{block_len, narrowed};
ghost use Rattle.aes3_forms_words.specs.Lists.{written_of};
ghost use Rattle.aes3_frame.specs.Blocks.{block_cells};
ghost use Rattle.aes3_frame.specs.Files.{block_bytes};
ghost use Rattle.aes3_frame.specs.Samples.{block_samples};
ghost use Rattle.aes3_c.specs.Blocks.{form_len, octets_in, sample_form, words_form};

use aes3_block::{
    BLOCK_BYTES, Block, SUBFRAMES, bytes_of_block, fill_block_cells, samples_of_block,
};
use aes3_cell::{Level, octets_of_word};
use aes3_forms_samples::SampleFormat;
use aes3_forms_words::{Words, write_words};

/// How many octets the cells of a block have.
const CELL_OCTETS: usize = 3072;

/// What is put of a block.
#[derive(Clone, Copy)]
pub(crate) enum BlockForm {
    /// Its cells behind a cell of this level, eight an octet, the first in its highest bit.
    Cells(Level),
    /// Its words in this form.
    Subframes(Words),
    /// Its samples in this form.
    Samples(SampleFormat),
}

/// The form of words by its number.
pub(crate) fn words_form(number: u8) -> Words
    ensures { result ≡ words_form number }
{
    match number {
        1 => Words::Alsa,
        2 => Words::Am824,
        _ => Words::Own,
    }
}

/// The form of samples by its number.
pub(crate) fn sample_form(number: u8) -> SampleFormat
    ensures { result ≡ sample_form number }
{
    match number {
        1 => SampleFormat::S24,
        2 => SampleFormat::S24In32,
        3 => SampleFormat::S16,
        _ => SampleFormat::S32,
    }
}

/// Puts the octets of words of cells.
fn put_octets(cells: &[u64; SUBFRAMES], octets: &mut [u8])
    requires { length octets.old ≡ CELL_OCTETS }
    ensures { octets.new ≡ octets_of (flat_map word_cells cells.now) }
{
    for (slot, word) in cells.iter().enumerate() {
        octets[8 * slot..8 * slot + 8].copy_from_slice(&octets_of_word(*word));
    }
}

/// Puts the cells of a block.
fn put_cells(block: &Block, before: Level, octets: &mut [u8])
    requires { length octets.old ≡ CELL_OCTETS }
    ensures { octets.new ≡ octets_of (block_cells before block.now) }
{
    let mut cells = [0; SUBFRAMES];
    fill_block_cells(before, block, &mut cells);
    put_octets(&cells, octets);
}

/// Puts the words of a block.
fn put_subframes(block: &Block, words: Words, octets: &mut [u8])
    requires { length octets.old ≡ BLOCK_BYTES }
    ensures { octets.new ≡ written_of words (block_bytes block.now) }
{
    octets.copy_from_slice(&bytes_of_block(block));
    write_words(octets, words);
}

/// Puts the samples of a block.
fn put_samples(block: &Block, format: SampleFormat, octets: &mut [u8])
    requires { length octets.old ≡ block_len format }
    ensures { octets.new ≡ narrowed format (block_samples block.now) }
{
    let mut samples = samples_of_block(block);
    let len = format.narrow(&mut samples);
    octets.copy_from_slice(&samples[..len]);
}

impl BlockForm {
    /// How many octets a block has.
    pub(crate) fn len(self) -> usize
        ensures len { result ≡ form_len self }
        ensures some { 0 < result }
        ensures few { result ≤ CELL_OCTETS }
    {
        match self {
            BlockForm::Cells(_) => CELL_OCTETS,
            BlockForm::Subframes(_) => BLOCK_BYTES,
            BlockForm::Samples(format) => format.block_len(),
        }
    }

    /// Puts a block.
    pub(crate) fn put(self, block: &Block, octets: &mut [u8])
        requires { length octets.old ≡ form_len self }
        ensures { octets.new ≡ octets_in self block.now }
    {
        match self {
            BlockForm::Cells(before) => put_cells(block, before, octets),
            BlockForm::Subframes(words) => put_subframes(block, words, octets),
            BlockForm::Samples(format) => put_samples(block, format, octets),
        }
    }
}
