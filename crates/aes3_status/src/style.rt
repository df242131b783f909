//! How the lines of events are written.

/// The notation of the line of an event.
#[derive(Clone, Copy, PartialEq, Eq)]
pub enum Notation {
    /// In words.
    Words,
    /// As a JSON object.
    Json,
}

/// How the lines of events are written.
#[derive(Clone, Copy, PartialEq, Eq)]
pub struct Style {
    pub notation: Notation,
    /// The number of frames in a second, at least one, if times are written.
    pub rate: Option<u32>,
}
