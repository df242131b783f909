//! Cells to the V, U or C bits of their blocks.

ghost use Rattle.std.specs.Prelude.{◌≡◌, ℕ, ◌+◌, ◌<◌, ◌≤◌, ◌^◌, List, [], Bool, IfOk};
ghost use Rattle.std.specs.List.{All};
ghost use Rattle.aes3_cell.specs.Ends.{Grew, Told};
ghost use Rattle.aes3_frame.specs.Blocks.{IsBlock};
ghost use Rattle.aes3_lock.specs.Reports.{blocks};
ghost use Rattle.aes3_input.specs.Inputs.{cells_of};
ghost use Rattle.aes3_input.specs.Driving.{CellRun};
ghost use Rattle.aes3_input.specs.Running.{ends_of};
ghost use Rattle.aes3_lock_runs.specs.BlockRuns.{decided_blocks, written_stream};
ghost use Rattle.aes3_lock_runs.specs.ReportRuns.{counts_of};
ghost use Rattle.aes3_engine.specs.Carrying.{all_carried, carried};

use aes3_block::{Block, Channel, GatheredCells};
use aes3_cell::{Counts, Fault, Form, RunError, Sink, Source, write_all};
use aes3_frame::CarriedBits;
use aes3_lock_runs::{BlockWriter, run_blocks};

/// The V, U or C bits of a channel in a block, as octets.
fn carried_bytes(block: &Block, bits: CarriedBits, channel: Channel) -> [u8; 24]
    ensures { result ≡ carried bits channel block.now }
{
    match bits {
        CarriedBits::Validity => block.validity(channel),
        CarriedBits::User => block.user(channel),
        CarriedBits::Status => block.channel_status(channel),
    }
}

/// Writes the bits of one kind that a channel carries in blocks.
#[derive(Drop)]
struct CarriedBlocks {
    bits: CarriedBits,
    channel: Channel,
}

impl BlockWriter for CarriedBlocks {
    ghost writes = { λ k n b. carried k.bits k.channel b };

    ghost ends = { λ _. [] };

    fn put<T: Sink>(&self, sink: &mut T, _number: u64, cells: &GatheredCells) -> Result<(), Fault> {
        write_all(
            sink,
            &carried_bytes(&cells.block(), self.bits, self.channel),
        )
    }

    fn put_end<T: Sink>(&self, _sink: &mut T) -> Result<(), Fault> {
        Ok(())
    }
}

/// Reads cells from any cell on, and writes the bits that one channel carries in the whole, closed
/// blocks in them. These are the validity bits, the user bits or the channel status, 24 octets for
/// each block. Bit `i % 8` of octet `i / 8` is the bit of frame `i`, bit 0 the lowest (AES3-1,
/// AES3-2, IEC 60958-1).
///
/// # Errors
/// Those of `normalise`. The bits of the blocks that were decided before are written; after
/// `Write`, a front of them.
pub fn to_bits<S: Source, T: Sink>(
    source: &mut S,
    sink: &mut T,
    max_bytes: u64,
    input: Form,
    bits: CarriedBits,
    channel: Channel,
) -> Result<Counts, RunError>
    requires source_room { S.failed source.old + 1 < 2 ^ 64 }
    requires sink_room { T.failed sink.old + 1 < 2 ^ 64 }
    requires limit { max_bytes ≤ 2 ^ 40 }

    // If it returns Ok, exactly these bits of the whole, closed blocks in the input are written,
    // one block after the other.
    ensures bits { IfOk result (λ _. (b : List ℕ) → Told (S.given source.old) (S.given source.new) b
        → Grew (T.taken sink.old) (T.taken sink.new)
        (all_carried bits channel (blocks (cells_of input b)))) }
    // From what `encode` writes for blocks it writes their bits.
    ensures back { IfOk result (λ _. (bs : List (List (List Bool))) → All IsBlock bs
        → Told (S.given source.old) (S.given source.new) (written_stream input bs)
        → Grew (T.taken sink.old) (T.taken sink.new) (all_carried bits channel bs)) }
    // A run over cells: it returns Ok if it can. An error has its cause, and what was decided
    // before it is written.
    ensures run { CellRun max_bytes input (record {
      whole = λ c. all_carried bits channel (blocks c);
      begun = λ c. all_carried bits channel (decided_blocks c);
      counts = counts_of input;
    }) (ends_of S.Source source.old source.new T.Sink sink.old sink.new) result }
{
    run_blocks(
        source,
        sink,
        max_bytes,
        input,
        CarriedBlocks { bits, channel },
    )
}
