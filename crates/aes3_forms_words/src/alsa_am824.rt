//! The words of subframes in the forms of other programs.

ghost use Rattle.std.specs.Prelude.{◌≡◌, ◌<◌};
ghost use Rattle.aes3_forms_words.specs.Forms.{by_place, code, is_within, own_word, with_code};
ghost use Rattle.aes3_forms_words.specs.Forms.{without_code, written_word};
ghost use Rattle.aes3_forms_words.specs.Lists.{each_word};

/// The form of the 32-bit words of subframes: slots 4 to 31 and a code of the preamble.
#[derive(Clone, Copy, PartialEq, Eq)]
pub enum Words {
    /// A block file: the lowest octet first, and 0 in bits 0 to 3.
    Own,
    /// ALSA's `IEC958_SUBFRAME_LE`: the same with a code in bits 0 to 3: 8 for Z, 2 for X, 4 for Y.
    /// When a word is read, the code may also be 0.
    Alsa,
    /// AM824 of IEC 61883-6 and SMPTE ST 2110-31: the highest octet first, with 0, 0, B, F, P, C, U
    /// and V in it, followed by 24 bits of audio.
    Am824,
}

/// One of the codes of Z, X and Y, by the place of a subframe in its block.
fn by_place(z: u8, x: u8, y: u8, place: usize) -> u8
    ensures { result ≡ by_place z x y place }
{
    if place == 0 {
        z
    } else if place % 2 == 0 {
        x
    } else {
        y
    }
}

/// An octet with a code added to its bits 0 to 3.
fn with_code(code: u8, octet: u8) -> u8
    requires { code < 16 }
    ensures { result ≡ with_code code octet }
{
    octet / 16 * 16 + (octet % 16 + code) % 16
}

/// An octet with a code subtracted from its bits 0 to 3.
fn without_code(code: u8, octet: u8) -> u8
    requires { code < 16 }
    ensures { result ≡ without_code code octet }
{
    octet / 16 * 16 + (octet % 16 + (16 - code)) % 16
}

impl Words {
    /// The code of the preamble at this place of a block.
    fn code(self, place: usize) -> u8
        ensures code { result ≡ code self place }
        ensures few { result < 16 }
    {
        match self {
            Words::Own => 0,
            Words::Alsa => by_place(8, 2, 4, place),
            Words::Am824 => by_place(3, 1, 0, place),
        }
    }

    /// Whether a word that begins with this octet can't begin a block, because its code is that of
    /// X or Y.
    pub fn is_within(self, octet: u8) -> bool
        ensures { result ≡ is_within self octet }
    {
        match self {
            Words::Own => false,
            Words::Alsa => octet % 16 == 2 || octet % 16 == 4,
            Words::Am824 => octet / 16 == 1 || octet / 16 == 0,
        }
    }

    /// A word of a block file in this form.
    pub(crate) fn written_word(self, place: usize, a: u8, b: u8, c: u8, d: u8) -> [u8; 4]
        ensures { result ≡ written_word self place a b c d }
    {
        let coded = with_code(self.code(place), a);
        match self {
            Words::Own => [a, b, c, d],
            Words::Alsa => [coded, b, c, d],
            Words::Am824 => [
                coded % 16 * 16 + d / 16,
                d % 16 * 16 + c / 16,
                c % 16 * 16 + b / 16,
                b % 16 * 16 + coded / 16,
            ],
        }
    }

    /// The word of a block file that a word in this form is read as.
    fn own_word(self, place: usize, a: u8, b: u8, c: u8, d: u8) -> [u8; 4]
        ensures { result ≡ own_word self place a b c d }
    {
        let code = self.code(place);
        match self {
            Words::Own => [a, b, c, d],
            Words::Alsa if a % 16 == 0 => [a, b, c, d],
            Words::Alsa => [without_code(code, a), b, c, d],
            Words::Am824 => [
                without_code(code, d % 16 * 16 + a / 16),
                c % 16 * 16 + d / 16,
                b % 16 * 16 + c / 16,
                a % 16 * 16 + b / 16,
            ],
        }
    }

    /// The word of a block file that a word in this form is read as, at this place of its block.
    pub fn read_word(self, place: usize, word: [u8; 4]) -> [u8; 4]
        ensures { result ≡ each_word (own_word self) place word }
    {
        self.own_word(place, word[0], word[1], word[2], word[3])
    }
}
