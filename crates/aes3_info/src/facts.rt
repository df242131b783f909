//! All facts on the page.

use crate::channel_facts::ChannelFacts;
use crate::gaps::GapFacts;
use crate::reports::ReportFacts;

/// What is known of a recording.
#[derive(Clone, Copy)]
pub(crate) struct Facts {
    /// How many cells it has.
    pub(crate) cells: u64,
    pub(crate) reports: ReportFacts,
    pub(crate) gaps: GapFacts,
    /// The first channel.
    pub(crate) first: ChannelFacts,
    /// The second channel.
    pub(crate) second: ChannelFacts,
}
