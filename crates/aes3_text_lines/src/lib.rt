//! Lines of preambles, of channel status, of events and of sums (AES3-2, AES3-3, IEC 60958-1,
//! IEC 60958-3).
#![tactic(auto)]

/// Events of a watched line, and their lines.
mod event;
/// Lines of preambles that are written together.
mod gathered_lines;
/// The line of a preamble.
mod mark_line;
/// The line of a channel status.
mod status_line;
/// The words of codes that are numbers in a line of channel status.
mod status_names;
/// Sums of a watched line, and their lines.
mod sum;
/// A short line, written from its end.
mod tail;

pub use aes3_status::{
    Detail, Lines, Notation, SettingsFault, Style, add_choices, consumer_setting,
    professional_setting, settings_of_texts,
};
pub use event::{Event, Marking, line_of_event};
pub use gathered_lines::{GATHERED_LEN, GatheredLines};
pub use mark_line::{MARK_LEN, line_of_mark};
pub use status_line::{line_of_status, line_of_status_with, text_of_detail};
pub use sum::{Figures, Sum, line_of_sum};
pub use tail::{TAIL_LEN, Tail};
