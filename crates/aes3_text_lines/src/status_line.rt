//! The line of a channel status.

ghost use Rattle.std.specs.Prelude.{◌≡◌, ◌<◌, ◌≤◌, ◌+◌, ◌^◌, length};
ghost use Rattle.aes3_cell.specs.Writes.{Wrote};
ghost use Rattle.aes3_text_lines.specs.StatusLines.{channel_digit, detail_text, head_text, status_line};
ghost use Rattle.aes3_text_lines.specs.StatusLines.{status_line_with};

use crate::status_names::put_names;
use crate::tail::Tail;
use aes3_cell::{Fault, Sink};
use aes3_frame::{Block, Channel, ones_in};
use aes3_status::{Detail, Line, put_status};

/// How many bytes the beginning of a line has at most.
const HEAD_LEN: usize = 40;

/// The number of a channel.
pub(crate) fn channel_digit(channel: Channel) -> &'static str
    ensures digit { result.now ≡ channel_digit channel }
    ensures len { length result.now ≡ 1 }
{
    match channel {
        Channel::First => "1",
        Channel::Second => "2",
    }
}

/// The beginning of a line: which block and which channel.
fn head_of(block: u64, channel: Channel) -> Line
    ensures text { result ≡ head_text block channel }
    ensures len { length result ≤ HEAD_LEN }
{
    let mut line = Line::new();
    line.text("block=");
    line.number(block);
    line.text(" channel=");
    line.text(channel_digit(channel));
    line
}

/// What follows the status of a channel of a block that begins at cell `at` (AES3-1, IEC 60958-1:
/// validity and user bits; AES3-2, IEC 60958-3: words of codes).
pub fn text_of_detail(detail: Detail, channel: Channel, at: u64, block: &Block) -> Tail
    ensures { result ≡ detail_text detail channel at block.now }
{
    let mut text = Tail::new();
    match detail {
        Detail::Plain => {}
        Detail::Place => {
            text.number(at);
            text.text(b" at=");
        }
        Detail::Carried => {
            text.number(at);
            text.text(b" at=");
            text.number(ones_in(&block.user(channel)));
            text.text(b" u=");
            text.number(ones_in(&block.validity(channel)));
            text.text(b" v=");
        }
        Detail::Names => put_names(&mut text, &block.channel_status(channel)),
    }
    text
}

/// Writes the line of the status of `channel` in block number `block`, with a text before its line
/// feed, as one buffer.
///
/// # Errors
/// The sink's fault; then it has taken a front of the line.
pub fn line_of_status_with<T: Sink>(
    block: u64,
    channel: Channel,
    status: &[u8; 24],
    text: &Tail,
    sink: &mut T,
) -> Result<(), Fault>
    requires room { T.failed sink.old + 1 < 2 ^ 64 }
    ensures { Wrote T.taken T.failed sink.old sink.new
        (status_line_with block channel status.now text.now) result }
{
    let mut line = head_of(block, channel);
    put_status(&mut line, status);
    line.bytes(text.as_bytes());
    line.end(sink)
}

/// Writes the line of the status of `channel` in block number `block`, as one buffer.
///
/// # Errors
/// The sink's fault; then it has taken a front of the line.
pub fn line_of_status<T: Sink>(
    block: u64,
    channel: Channel,
    status: &[u8; 24],
    sink: &mut T,
) -> Result<(), Fault>
    requires room { T.failed sink.old + 1 < 2 ^ 64 }
    ensures { Wrote T.taken T.failed sink.old sink.new
        (status_line block channel status.now) result }
{
    line_of_status_with(block, channel, status, &Tail::new(), sink)
}
