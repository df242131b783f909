//! WAV files: their header, read and written.

ghost use Rattle.std.specs.Prelude.{◌≡◌, ◌≢◌, ◌<◌, ◌≤◌, ◌+◌, ◌^◌, ◌++◌, List, ℕ, [], Ok, Err, Some, None};
ghost use Rattle.std.specs.Prelude.{drop, length, take};
ghost use Rattle.std.specs.Option.{ForSome};
ghost use Rattle.aes3_wave.specs.declared.chunk.WaveHeader.{WaveHeader};
ghost use Rattle.aes3_wave.specs.declared.header_error.HeaderError.{HeaderError};
ghost use Rattle.aes3_wave.specs.Following.{Follows};
ghost use Rattle.aes3_wave.specs.Headers.{judged};
ghost use Rattle.aes3_wave.specs.Written.{written};
ghost use Rattle.aes3_wave.specs.declared.header_writing.Depth.{Depth};
ghost use Rattle.aes3_c.specs.Wav.{answer_code, cause_code, depth_of, frames_len, header_in};
ghost use Rattle.aes3_c.specs.Wav.{header_len, len_code, wav_of, width_bits};

use aes3_wave::{Cause, Depth, HeaderError, HeaderReader, WaveHeader, Width, header_of};

/// What the header of a WAV file says.
#[repr(C)]
#[derive(Drop)]
pub struct Aes3Wav {
    /// The octet of the file at which the samples begin.
    pub start: u64,
    /// How many octets they have; 2^64 - 1 if they go on to the end of the file.
    pub len: u64,
    /// How many frames a second has, and how many channels a frame.
    pub rate: u32,
    pub channels: u16,
    /// How many octets a sample has, and how many of its bits are valid.
    pub octets: u8,
    pub bits: u8,
}

// As the header has it.
const _: () = prove!(size_of::<Aes3Wav>() == 24);

const _: () = prove!(align_of::<Aes3Wav>() == 8);

/// The return value if the header is whole.
const WHOLE: u8 = 1;

/// The return value if more octets are needed.
const MORE: u8 = 0;

/// Why a header is rejected, as a number.
fn cause_code(cause: Cause) -> u8
    ensures { result ≡ cause_code cause }
{
    match cause {
        Cause::NotRiff => 2,
        Cause::NotWave => 3,
        Cause::ShortSizes => 4,
        Cause::ShortFormat => 5,
        Cause::NotPcm { .. } => 6,
        Cause::NoChannels => 7,
        Cause::WrongBits { .. } => 8,
        Cause::WrongFrame { .. } => 9,
        Cause::NoFormat => 10,
        Cause::Ended => 11,
    }
}

/// How many octets the samples have, as a number.
fn len_code(len: Option<u64>) -> u64
    ensures { result ≡ len_code len }
{
    match len {
        Some(len) => len,
        None => u64::MAX,
    }
}

/// How many bits of a sample are valid.
fn width_bits(width: Width) -> u8
    ensures { result ≡ width_bits width }
{
    match width {
        Width::Bits8 => 8,
        Width::Bits16 => 16,
        Width::Bits20 => 20,
        Width::Bits24 => 24,
        Width::Bits32 => 32,
    }
}

/// A header as plain numbers.
fn wav_of(header: &WaveHeader) -> Aes3Wav
    ensures { result ≡ wav_of header.now }
{
    Aes3Wav {
        start: header.start,
        len: len_code(header.len),
        rate: header.format.rate,
        channels: header.format.channels,
        octets: header.format.container.len() as u8,
        bits: width_bits(header.format.width),
    }
}

/// What octets say of the header that they begin, with a reader that has taken nothing.
///
/// # Errors
/// Why it is rejected.
fn judge(reader: &mut HeaderReader, octets: &[u8]) -> Result<Option<WaveHeader>, HeaderError>
    requires { Follows reader.old [] }
    ensures judged { result ≡ judged octets.now }
    ensures follows { result ≡ Ok None → Follows reader.new octets.now }
{
    reader.take(octets)?;
    Ok(reader.header())
}

/// Judges the first octets of a WAV file. If its header is whole, puts what it says, and returns 1.
/// If more octets are needed, puts the least number of octets of the file that are needed, and
/// returns 0. If the header is rejected, puts the octet that is wrong, and returns the cause: 2 or
/// more. Then it is rejected whatever octets follow.
#[unsafe(no_mangle)]
pub extern "C" fn aes3_wav_read(octets: &[u8], wav: &mut Aes3Wav, at: &mut u64) -> u8
    ensures code { result ≡ answer_code (judged octets.now) }
    ensures header { (header : WaveHeader) → judged octets.now ≡ Ok (Some header)
        → wav.new ≡ wav_of header }
    ensures told { (header : WaveHeader) → judged octets.now ≡ Ok (Some header)
        → header_in wav.new ≡ header }
    ensures place { (e : HeaderError) → judged octets.now ≡ Err e → at.new ≡ e.at }
    ensures more { judged octets.now ≡ Ok None → length octets.now < at.new }
    ensures open { judged octets.now ≡ Ok None → (piece : List ℕ)
        → length octets.now + length piece < at.new → judged (octets.now ++ piece) ≡ Ok None }
    ensures kept { result ≢ 1 → wav.new ≡ wav.old }
    ensures left { result ≡ 1 → at.new ≡ at.old }
{
    let mut reader = HeaderReader::new();
    match judge(&mut reader, octets) {
        Ok(Some(header)) => {
            *wav = wav_of(&header);
            WHOLE
        }
        Ok(None) => {
            *at = (octets.len() as u64).saturating_add(reader.wanted());
            MORE
        }
        Err(error) => {
            *at = error.at;
            cause_code(error.cause)
        }
    }
}

/// How many octets a written header has at most.
const MOST_LEN: usize = 104;

/// The depth of samples with this number of bits.
fn depth_of(bits: u8) -> Option<Depth>
    ensures { result ≡ depth_of bits }
{
    match bits {
        16 => Some(Depth::Sixteen),
        24 => Some(Depth::TwentyFour),
        32 => Some(Depth::ThirtyTwo),
        _ => None,
    }
}

/// How many octets `frames` frames of two channels have, if their number is known.
fn frames_len(depth: Depth, frames: u64) -> Option<u64>
    ensures len { result ≡ frames_len depth frames }
    ensures few { ForSome result (λ n. n < 2 ^ 63) }
{
    if frames >= 1 << 60 {
        return None;
    }
    Some(match depth {
        Depth::Sixteen => 4 * frames,
        Depth::TwentyFour => 6 * frames,
        Depth::ThirtyTwo => 8 * frames,
    })
}

/// Puts the header of a WAV file with samples of two channels, of 16, 24 or 32 bits each, as `aes3
/// to-wav -o` writes it. If `frames` is 2^60 or more, their number is not known: the header is that
/// of `to-wav` without `-o`. Returns how many octets it put; 0 for other bits.
#[unsafe(no_mangle)]
pub extern "C" fn aes3_wav_write(
    bits: u8,
    rate: u32,
    frames: u64,
    octets: &mut [u8; MOST_LEN],
) -> u32
    ensures header { (depth : Depth) → depth_of bits ≡ Some depth
        → take result octets.new ≡ written depth rate (frames_len depth frames) }
    ensures len { (depth : Depth) → depth_of bits ≡ Some depth → result ≡ header_len depth }
    ensures none { depth_of bits ≡ None → result ≡ 0 }
    ensures within { result ≤ MOST_LEN }
    ensures others { drop result octets.new ≡ drop result octets.old }
{
    let Some(depth) = depth_of(bits) else {
        return 0;
    };
    let header = header_of(depth, rate, frames_len(depth, frames));
    let bytes = header.as_slice();
    octets[..bytes.len()].copy_from_slice(bytes);
    bytes.len() as u32
}
