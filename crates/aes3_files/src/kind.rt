//! Kinds of file by their first bytes.

ghost use Rattle.std.specs.Prelude.{◌≡◌, Bool};
ghost use Rattle.std.specs.List.{list_all};
ghost use Rattle.aes3_files.specs.Kinds.{file_kind, is_bit, is_cell_text, is_compressed, is_in, is_text};
ghost use Rattle.aes3_files.specs.Kinds.{are_changes};

use crate::sound::SoundFile;

/// What the first bytes of an input look like.
#[derive(Clone, Copy)]
pub enum FileKind {
    /// Nothing.
    Empty,
    /// The header of a sound file.
    Sound(SoundFile),
    /// The header of a value change dump (IEEE 1364), which lists the changes of signals as text.
    ValueChanges,
    /// The header of a zip archive, which sigrok's sessions are.
    Session,
    /// The header of a file of gzip, bzip2, xz or zstd.
    Compressed,
    /// The header of a program of Linux (ELF).
    Executable,
    /// Only cells and separators.
    CellText,
    /// A printable text of another kind.
    OtherText,
    /// Words of 32 bits, lowest byte first, each with its four lowest bits clear.
    BlockFile,
    /// Only octets 0 and 1, as a logic analyser gives for one line.
    Samples,
    /// Octets of any other kind.
    Octets,
}

impl FileKind {
    /// What these first bytes of an input look like.
    pub fn of(first: &[u8]) -> Self
        ensures { (block : Bool) × (result ≡ file_kind block first.now) }
    {
        kind_by(first, are_block_words(first))
    }
}

/// What they look like; `is_block` says whether they can be words of a block file.
fn kind_by(first: &[u8], is_block: bool) -> FileKind
    ensures { result ≡ file_kind is_block first.now }
{
    if first.is_empty() {
        FileKind::Empty
    } else if let Some(sound) = SoundFile::of(first) {
        FileKind::Sound(sound)
    } else if are_changes(first) {
        FileKind::ValueChanges
    } else if first.starts_with(b"PK\x03\x04") {
        FileKind::Session
    } else if is_compressed(first) {
        FileKind::Compressed
    } else if first.starts_with(b"\x7FELF") {
        FileKind::Executable
    } else if Alphabet::Cells.has_all(first) {
        FileKind::CellText
    } else if Alphabet::Ascii.has_all(first) {
        FileKind::OtherText
    } else if is_block {
        FileKind::BlockFile
    } else if Alphabet::Bits.has_all(first) {
        FileKind::Samples
    } else {
        FileKind::Octets
    }
}

/// A set of bytes that a kind of file consists of.
#[derive(Clone, Copy)]
pub(crate) enum Alphabet {
    /// Cells and separators.
    Cells,
    /// Text in ASCII.
    Ascii,
    /// 0 and 1.
    Bits,
}

impl Alphabet {
    /// Whether the byte is in the set.
    fn has(self, byte: u8) -> bool
        ensures { result ≡ is_in self byte }
    {
        match self {
            Alphabet::Cells => is_cell_text(byte),
            Alphabet::Ascii => is_text(byte),
            Alphabet::Bits => byte <= 1,
        }
    }

    /// Whether all of the bytes are in the set.
    fn has_all(self, bytes: &[u8]) -> bool
        ensures { result ≡ list_all (is_in self) bytes.now }
    {
        for byte in bytes {
            if !self.has(*byte) {
                return false;
            }
        }
        true
    }
}

/// Whether the byte is a cell or a separator.
fn is_cell_text(byte: u8) -> bool
    ensures { result ≡ is_cell_text byte }
{
    matches!(byte, b'0' | b'1' | b' ' | b'\t' | b'\r' | b'\n')
}

/// Whether the byte is of a text in ASCII.
fn is_text(byte: u8) -> bool
    ensures { result ≡ is_text byte }
{
    matches!(byte, b' '..=b'~' | b'\t' | b'\r' | b'\n')
}

/// Whether every whole word has its four lowest bits clear.
fn are_block_words(first: &[u8]) -> bool {
    for byte in first.iter().step_by(4) {
        if *byte % 16 != 0 {
            return false;
        }
    }
    first.len() >= 4
}

/// Whether these bytes are the header of a file of gzip, bzip2, xz or zstd.
fn is_compressed(first: &[u8]) -> bool
    ensures { result ≡ is_compressed first.now }
{
    first.starts_with(b"\x1F\x8B")
        || first.starts_with(b"BZh")
        || first.starts_with(b"\xFD7zXZ")
        || first.starts_with(b"\x28\xB5\x2F\xFD")
}

/// Whether these bytes begin a value change dump. Any of its parts may be the first.
fn are_changes(first: &[u8]) -> bool
    ensures { result ≡ are_changes first.now }
{
    first.starts_with(b"$date")
        || first.starts_with(b"$version")
        || first.starts_with(b"$timescale")
        || first.starts_with(b"$comment")
        || first.starts_with(b"$scope")
}
