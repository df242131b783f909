//! Channel status as the text of a command line.

ghost use Rattle.std.specs.Prelude.{◌≡◌, ◌↔◌, IsSome, IfSome, Ok};
ghost use Rattle.hex.specs.Hex.{decode_of};
ghost use Rattle.aes3_cli_arguments.specs.StatusTexts.{IsStatusText, status_in};

use hex::FromHex;

/// The 24 bytes of channel status (AES3-2, IEC 60958-3) in a text of 48 hexadecimal digits; `None`
/// for any other text. Byte 0 comes first, and in each byte the high four bits. Letters may be of
/// either case.
pub fn status_of_text(text: &str) -> Option<[u8; 24]>
    ensures status { result ≡ status_in text.now }
    ensures found { IsSome result ↔ IsStatusText text.now }
    ensures digits { IfSome result (λ status. decode_of text.now ≡ Ok status) }
{
    <[u8; 24] as FromHex>::from_hex(text).ok()
}
