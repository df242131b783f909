//! Cells that are cut into pieces.
ghost use Rattle.aes3_lock.specs.Splits.{ReportsJoin};

/// The reports of cells are those of two parts, one after the other. The first part is a front with
/// at least 24,576 more cells, of which the reports that begin in the front count. The second part
/// is the cells after the front. So the pieces of a capture can be processed separately.
pub fn reports_join()
    ensures { ReportsJoin }
{}
