//! Reports.

ghost use Rattle.std.specs.Prelude.{◌≡◌, ◌<◌, ◌^◌, ℕ, Bool, List, get_or, map, option_map};
ghost use Rattle.aes3_slot.specs.ReadWords.{read_words};
ghost use Rattle.aes3_frame.specs.Files.{payload_of, word_of};
ghost use Rattle.aes3_lock.specs.Outcomes.{payloads_of};
ghost use Rattle.aes3_lock.specs.Reports.{ending_report};
ghost use Rattle.aes3_c.specs.Codes.{why_code, why_of_code};
ghost use Rattle.aes3_c.specs.States.{Coded, HasBlock, told_in, told_of};

use crate::level_byte::byte_of_level;
use aes3_block::Block;
use aes3_lock::{Ending, Why};

/// A report, or none. `kind` is 0 for none, 1 for a whole block, and 2 for a marked one. It is 3
/// for a fault, and 4 for the begun block at the end of the cells.
#[repr(C)]
#[derive(Drop)]
pub struct Aes3Report {
    /// The place of the block's first cell.
    pub at: u64,
    /// For a fault the cell that refutes the block, for a begun block how many of its cells there
    /// are.
    pub cell: u64,
    /// For a whole block its words, as in a block file.
    pub words: [u32; 384],
    /// For a marked block how many subframes have a wrong parity bit.
    pub wrong: u16,
    pub kind: u8,
    /// For a whole or a marked block the level before its first cell.
    pub before: u8,
    /// For a fault 0 for a preamble, 1 for biphase, 2 for a block that isn't closed.
    pub why: u8,
}

// As in the header.
const _: () = prove!(size_of::<Aes3Report>() == 1560);

const _: () = prove!(align_of::<Aes3Report>() == 8);

fn byte_of_why(why: Why) -> u8
    ensures why { why_of_code result ≡ why }
    ensures code { result ≡ why_code why }
{
    match why {
        Why::Preamble => 0,
        Why::Biphase => 1,
        Why::Unclosed => 2,
    }
}

/// The reason of a byte.
pub(crate) fn why_of_byte(byte: u8) -> Why
    ensures { result ≡ why_of_code byte }
{
    match byte {
        0 => Why::Preamble,
        1 => Why::Biphase,
        _ => Why::Unclosed,
    }
}

/// Puts a copy of the words.
// In place: an array that is returned would be one more on the stack.
fn put_words(words: &[u32; 384], out: &mut [u32; 384])
    ensures copied { out.new ≡ words.now }
    ensures fits { (i : ℕ) → i < 384 → get_or words.now i 0 < 2 ^ 32 }
{
    // Counting the ones of a word gives a proof the fact that each word has 32 bits.
    prove!(words[0].count_ones() <= 32);
    *out = *words;
}

/// Puts the words of a block, as in a block file.
fn put_words_of(block: &Block, out: &mut [u32; 384])
    ensures words { out.new ≡ map word_of block.now }
    ensures payloads { map payload_of out.new ≡ block.now }
{
    put_words(block.words(), out);
}

/// Puts the words of the block whose subframes have these cells.
pub(crate) fn put_block(cells: &[u64; 384], words: &mut [u32; 384])
    ensures words { words.new ≡ map word_of (payloads_of (read_words cells.now)) }
    ensures payloads { map payload_of words.new ≡ payloads_of (read_words cells.now) }
{
    put_words_of(&Block::of_cells(cells), words);
}

/// Puts the ending of a block that was begun, if there is one, and leaves the words unchanged.
pub(crate) fn put_ending(ending: Option<Ending>, out: &mut Aes3Report)
    ensures told { (slots : List (List Bool)) → told_of (payloads_of slots) out.new
        ≡ option_map (ending_report slots) ending }
    ensures codes { (slots : List (List Bool))
        → Coded (option_map (ending_report slots) ending) out.new }
    ensures words { out.new.words ≡ out.old.words }
{
    match ending {
        None => out.kind = 0,
        Some(Ending::Whole { at, before }) => {
            out.kind = 1;
            out.at = at;
            out.before = byte_of_level(before);
        }
        Some(Ending::Marked { at, before, wrong }) => {
            out.kind = 2;
            out.at = at;
            out.before = byte_of_level(before);
            out.wrong = wrong;
        }
        Some(Ending::Fault { at, cell, why }) => {
            out.kind = 3;
            out.at = at;
            out.cell = cell;
            out.why = byte_of_why(why);
        }
        Some(Ending::Unfinished { at, cells }) => {
            out.kind = 4;
            out.at = at;
            out.cell = cells;
        }
    }
}

/// Puts the ending of a block that was begun, if there is one. If the block is whole, also puts its
/// words, given the cells of its subframes.
pub(crate) fn put_report(cells: &[u64; 384], ending: Option<Ending>, out: &mut Aes3Report)
    ensures told { told_in out.new ≡ option_map (ending_report (read_words cells.now)) ending }
    ensures codes { Coded (option_map (ending_report (read_words cells.now)) ending) out.new }
    ensures block { HasBlock (option_map (ending_report (read_words cells.now)) ending) out.new }
{
    put_ending(ending, out);
    if out.kind == 1 {
        put_block(cells, &mut out.words);
    }
}
