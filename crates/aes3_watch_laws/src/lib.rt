//! Laws of the account of an input's cells, and of the lines of a watched line (AES3-3, IEC
//! 60958-1): over the definitions alone, whatever the cells.
#![tactic(auto)]

ghost use Rattle.aes3_watch_laws.specs.GapLaws.{AccountIsInTime, AccountIsWhole, AccountStands};
ghost use Rattle.aes3_watch_laws.specs.GapLaws.{ChangeIsLost, GapsAreShort, LossIsLost};
ghost use Rattle.aes3_watch_laws.specs.GapLaws.{NoGapLosesNothing, PieceHasNoGap, RowHasNoGap};
ghost use Rattle.aes3_watch_laws.specs.SumLaws.{BegunEventsStay, EventsStay};
ghost use Rattle.aes3_watch_laws.specs.PeriodLaws.{AllBlocksCount, AllCellsCount, FaultsHaveCauses};
ghost use Rattle.aes3_watch_laws.specs.PeriodLaws.{PeriodsAddUp, SumsAreByPeriods};
ghost use Rattle.aes3_watch_laws.specs.WatchLaws.{BlocksFollow, CellsHaveFewEvents, EventsAreFew};
ghost use Rattle.aes3_watch_laws.specs.WatchLaws.{LocksOnce, LossesAreGaps, PieceStaysLocked};
ghost use Rattle.aes3_watch_laws.specs.WatchLaws.{RowStaysLocked};

/// The whole blocks and the gaps of the account of any cells are these cells, each exactly once, in
/// order. Its reports are all reports on them.
pub fn account_is_whole()
    ensures { AccountIsWhole }
{}

/// The part of an account that is certain whatever cells follow accounts for all cells but at most
/// the last 49,151. It begins the account of these cells and any that follow.
pub fn account_is_in_time()
    ensures time { AccountIsInTime }
    ensures stands { AccountStands }
{}

/// Each gap of an account has at least one cell, and at most 24,576.
pub fn gaps_are_short()
    ensures { GapsAreShort }
{}

/// If no gap of the account counts, the whole blocks follow each other directly. Before the first
/// and after the last there are fewer cells than a block has.
pub fn no_gap_loses_nothing()
    ensures { NoGapLosesNothing }
{}

/// If one cell of a stream of whole blocks changes, a gap of the account counts. So `check --gaps`
/// ends with status 1.
pub fn change_is_lost()
    ensures { ChangeIsLost }
{}

/// If one cell of a stream of whole blocks is lost between the first block and the last, a gap
/// counts too.
pub fn loss_is_lost()
    ensures { LossIsLost }
{}

/// No gap of the account counts if three things hold for cells. They have at least one whole block,
/// and their whole blocks follow each other directly. Fewer cells than a block has are before the
/// first and after the last. So no gap counts in a piece of a valid stream that has a whole block.
pub fn whole_rows_have_no_gap()
    ensures row { RowHasNoGap }
    ensures piece { PieceHasNoGap }
{}

/// `watch` reports cells as lost, or a block as slipped, exactly if a gap of the account counts. So
/// it ends with the status of `check --gaps`.
pub fn losses_are_gaps()
    ensures { LossesAreGaps }
{}

/// Whatever the cells are, `watch` writes at most six lines for each whole block, and two others.
/// So it writes at most six for each 24,576 cells, and two.
pub fn events_are_few()
    ensures blocks { EventsAreFew }
    ensures cells { CellsHaveFewEvents }
{}

/// `watch` writes one `locked` for cells that have a whole block, and none for others. If there is
/// a whole block and no gap of the account counts, it writes no `lost`, `back` or `slipped`. Then
/// the line is locked at its end. So it is for a piece of a valid stream that has a whole block.
pub fn lawful_lines_stay_locked()
    ensures once { LocksOnce }
    ensures row { RowStaysLocked }
    ensures piece { PieceStaysLocked }
{}

/// Each whole block follows the one before it directly, or `watch` reports what is between them.
/// Either fewer cells than a block has lie between them, and it reports the block as `slipped`. Or
/// it reports these cells as `lost`, from the first of them on, and the block as `back`.
pub fn blocks_follow_or_are_told()
    ensures { BlocksFollow }
{}

/// The events that `watch_sums` writes besides its sums are those that `watch` writes, in their
/// order, whatever the period. This also holds if a run ended with an error.
pub fn sums_leave_events()
    ensures all { EventsStay }
    ensures begun { BegunEventsStay }
{}

/// For any cells, `watch_sums` writes each period in order, and then the end. For a period it
/// writes the events of `watch` that lie there, and then what counts there of the whole account.
pub fn sums_are_by_periods()
    ensures { SumsAreByPeriods }
{}

/// The sum of all periods is what the whole account and all events come to, whatever the period. It
/// has each whole block, and each cell in a whole block, in a lost gap or where the input is cut.
/// It has as many faults as the three causes together.
pub fn sums_add_up()
    ensures all { PeriodsAddUp }
    ensures blocks { AllBlocksCount }
    ensures cells { AllCellsCount }
    ensures faults { FaultsHaveCauses }
{}
