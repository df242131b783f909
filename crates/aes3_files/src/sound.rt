//! The headers of sound files.

ghost use Rattle.std.specs.Prelude.{◌≡◌, length};
ghost use Rattle.aes3_files.specs.Sound.{begins_sound, is_aiff, is_riff, is_rifx, is_wave, is_wave64};
ghost use Rattle.aes3_files.specs.Sound.{sound_file, sound_head};

/// How many of a file's first bytes decide whether it is a sound file.
pub const SOUND_HEAD_LEN: usize = 12;

/// The place where a RIFF or an IFF file says what it holds, after its own name and its length.
const FORM_PLACE: usize = 8;

/// The place where an MPEG-4 file names its first box, after the length of that box.
const BOX_PLACE: usize = 4;

/// A kind of sound file, by its first bytes.
#[derive(Clone, Copy, PartialEq, Eq)]
pub enum SoundFile {
    /// WAV: `RIFF`, `RF64` (EBU Tech 3306) or `BW64` (ITU-R BS.2088), any four octets, and `WAVE`.
    Wave,
    /// WAV with the highest octet of each number first: `RIFX`, any four octets, and `WAVE`.
    Rifx,
    /// AIFF: `FORM`, any four octets, and `AIFF` or `AIFC`.
    Aiff,
    /// Sony Wave64, which begins with the identifier of its first chunk.
    Wave64,
    /// FLAC (RFC 9639).
    Flac,
    /// Apple's Core Audio Format.
    CoreAudio,
    /// Ogg (RFC 3533), which holds Vorbis, Opus or FLAC.
    Ogg,
    /// MP3 after an ID3v2 tag.
    Mp3,
    /// The format of Sun and NeXT, `.au`.
    Sun,
    /// MPEG-4 (ISO/IEC 14496-12), which holds AAC or ALAC.
    Mpeg4,
}

impl SoundFile {
    /// The kind of sound file that these bytes begin, if they begin one. It needs `SOUND_HEAD_LEN`
    /// bytes to decide.
    #[tactic(auto, unfolding(crate::specs::Sound::sound_file))]
    pub fn of(first: &[u8]) -> Option<Self>
        ensures { result ≡ sound_file first.now }
    {
        if first.len() < SOUND_HEAD_LEN {
            return None;
        }
        sound_head(&first[..SOUND_HEAD_LEN])
    }

    /// Whether these bytes begin a sound file.
    pub fn begins(first: &[u8]) -> bool
        ensures { result ≡ begins_sound first.now }
    {
        SoundFile::of(first).is_some()
    }
}

/// The kind of sound file with this header.
fn sound_head(head: &[u8]) -> Option<SoundFile>
    requires { length head.now ≡ SOUND_HEAD_LEN }
    ensures { result ≡ sound_head head.now }
{
    if is_wave(head) {
        Some(SoundFile::Wave)
    } else if is_rifx(head) {
        Some(SoundFile::Rifx)
    } else if is_aiff(head) {
        Some(SoundFile::Aiff)
    } else if is_wave64(head) {
        Some(SoundFile::Wave64)
    } else if head.starts_with(b"fLaC") {
        Some(SoundFile::Flac)
    } else if head.starts_with(b"caff") {
        Some(SoundFile::CoreAudio)
    } else if head.starts_with(b"OggS") {
        Some(SoundFile::Ogg)
    } else if head.starts_with(b"ID3") {
        Some(SoundFile::Mp3)
    } else if head.starts_with(b".snd") {
        Some(SoundFile::Sun)
    } else if head[BOX_PLACE..].starts_with(b"ftyp") {
        Some(SoundFile::Mpeg4)
    } else {
        None
    }
}

/// Whether it is the header of a WAV file.
fn is_wave(head: &[u8]) -> bool
    requires { length head.now ≡ SOUND_HEAD_LEN }
    ensures { result ≡ is_wave head.now }
{
    is_riff(head) && head[FORM_PLACE..].starts_with(b"WAVE")
}

/// Whether it is the header of a RIFF file, with either kind of lengths.
fn is_riff(head: &[u8]) -> bool
    ensures { result ≡ is_riff head.now }
{
    head.starts_with(b"RIFF") || head.starts_with(b"RF64") || head.starts_with(b"BW64")
}

/// Whether it is the header of a WAV file with the highest octet of each number first.
fn is_rifx(head: &[u8]) -> bool
    requires { length head.now ≡ SOUND_HEAD_LEN }
    ensures { result ≡ is_rifx head.now }
{
    head.starts_with(b"RIFX") && head[FORM_PLACE..].starts_with(b"WAVE")
}

/// Whether it is the header of an AIFF file.
fn is_aiff(head: &[u8]) -> bool
    requires { length head.now ≡ SOUND_HEAD_LEN }
    ensures { result ≡ is_aiff head.now }
{
    let form = &head[FORM_PLACE..];
    head.starts_with(b"FORM") && (form.starts_with(b"AIFF") || form.starts_with(b"AIFC"))
}

/// Whether it is the header of a Wave64 file.
fn is_wave64(head: &[u8]) -> bool
    ensures { result ≡ is_wave64 head.now }
{
    head.starts_with(b"riff\x2E\x91\xCF\x11")
}
