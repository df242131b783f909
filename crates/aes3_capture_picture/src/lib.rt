//! A picture of a capture: how far the edges of its line are from their places, the length of a
//! cell over time, and where there was no signal.
#![tactic(auto)]

/// How many edges are how far from their places, drawn.
mod bars;
/// A clock that follows the edges of a line.
mod clock;
/// The length of a cell over time, drawn.
mod curve;
/// The text of a picture.
mod drawing;
/// The file that a picture is written to.
mod file;
/// How many edges are how far from their places.
mod histogram;
/// A sink for cells that nobody reads.
mod nowhere;
/// Numbers as a picture has them.
mod numbers;
/// The length of a cell over time.
mod periods;
/// What a picture shows, measured while the samples pass.
mod picture;
/// A source that shows what it gives to a picture.
mod source;
/// Stretches without signal.
mod stretches;

pub use file::{PictureFault, PictureFile};
pub use picture::Picture;
pub use source::Pictured;
