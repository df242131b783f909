//! Runs that write lines of text for each report or each block on cells (AES3-2, AES3-3, IEC
//! 60958-1, IEC 60958-3). The lines themselves, and `scan`, are in lower crates and are re-exported
//! here.
#![tactic(auto)]

/// The reports on cells, line by line.
mod checking;
/// Laws over the definitions alone, whatever the cells.
pub mod laws;
/// The channel status of blocks, line by line.
mod showing;

pub use aes3_text_lines::{
    Detail, Lines, SettingsFault, add_choices, consumer_setting, line_of_mark, line_of_status,
    line_of_status_with, professional_setting, settings_of_texts, text_of_detail,
};
pub use aes3_text_reports::{line_of_report, scan};
pub use checking::check;
pub use showing::{show, show_changes, show_detail};
