//! Channel status as text.

ghost use Rattle.std.specs.Prelude.{◌≡◌, ◌≤◌, drop, take};
ghost use Rattle.aes3_status.specs.StatusTexts.{status_text};

use aes3_status::{Line, STATUS_LEN, put_status};

/// Puts the use and the fields of a channel status as `aes3 show` prints them (AES3-2, IEC
/// 60958-3), each with a space before it. Returns how many bytes it put.
#[unsafe(no_mangle)]
pub extern "C" fn aes3_status_text(status: &[u8; 24], text: &mut [u8; STATUS_LEN]) -> u32
    ensures within { result ≤ STATUS_LEN }
    ensures text { take result text.new ≡ status_text status.now }
    ensures others { drop result text.new ≡ drop result text.old }
{
    let mut line = Line::new();
    put_status(&mut line, status);
    let bytes = line.as_bytes();
    text[..bytes.len()].copy_from_slice(bytes);
    bytes.len() as u32
}
