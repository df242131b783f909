//! Reading the header of a WAV file from a source.

ghost use Rattle.std.specs.Prelude.{◌<◌, ◌≤◌, ◌+◌, ◌^◌, IfOk};
ghost use Rattle.aes3_input.specs.Running.{movement_of};
ghost use Rattle.aes3_wave.specs.Formats.{frame_len};
ghost use Rattle.aes3_wave_runs.specs.Headers.{HeaderRun};

use crate::wave_error::WaveError;
use aes3_cell::{RunError, Source};
use aes3_input::read_piece;
use aes3_wave::{HeaderReader, WaveHeader};

/// How many octets are read at once at most.
const PIECE_LEN: usize = 4096;

/// Reads the header of a WAV file, and no octet after it.
///
/// # Errors
/// `Header` if it is rejected, `TooLong` if it has more than `max_bytes` octets, `Read` if the
/// source failed.
pub fn read_header<S: Source>(source: &mut S, max_bytes: u64) -> Result<WaveHeader, WaveError>
    requires source_room { S.failed source.old + 1 < 2 ^ 64 }
    requires limit { max_bytes ≤ 2 ^ 40 }
    ensures run { HeaderRun max_bytes (S.has_ended source.new)
        (movement_of S.given S.failed source.old source.new) result }
    ensures frame { IfOk result (λ header. frame_len header.format < 2 ^ 16) }
{
    let mut reader = HeaderReader::new();
    let mut piece = [0; PIECE_LEN];
    let mut seen: u64 = 0;
    'pieces: loop {
        let room = reader.wanted().min(max_bytes + 1 - seen);
        let n = match read_piece(source, &mut piece, room) {
            Ok(n) => n,
            Err(_) => return Err(WaveError::Run(RunError::Read)),
        };
        if n == 0 {
            return match reader.end() {
                Ok(header) => Ok(header),
                Err(error) => Err(WaveError::Header(error)),
            };
        }
        seen += n as u64;
        if seen > max_bytes {
            return Err(WaveError::Run(RunError::TooLong));
        }
        match reader.take(&piece[..n]) {
            Ok(_) => {}
            Err(error) => return Err(WaveError::Header(error)),
        }
        match reader.header() {
            Some(header) => return Ok(header),
            None => {}
        }
    }
}
