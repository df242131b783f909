//! The version of the library.

ghost use Rattle.std.specs.Prelude.{◌≡◌};
ghost use Rattle.aes3_c.specs.Codes.{version_number};

/// The version, which is that of the program: 65,536 times the major number, plus 256 times the
/// minor number, plus the patch number.
#[unsafe(no_mangle)]
pub extern "C" fn aes3_version() -> u32
    ensures { result ≡ version_number 0 1 0 }
{
    0x00_01_00
}
