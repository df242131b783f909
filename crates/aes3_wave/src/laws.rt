//! Laws of headers: the contract of each function is a law over all lists of octets.

ghost use Rattle.aes3_wave.specs.Laws.{DecidedStays, HeadersHaveParts, PartsAreRead, WrittenAreRead};

/// A header that is rejected, or whole, stays so whatever octets follow.
pub fn decided_stays()
    ensures { DecidedStays }
{}

/// A header is what its chunks say, whatever comes after it.
pub fn parts_are_read()
    ensures { PartsAreRead }
{}

/// Octets that have a header begin with the chunks of a header.
pub fn headers_have_parts()
    ensures { HeadersHaveParts }
{}

/// A header that is written is read back.
pub fn written_are_read()
    ensures { WrittenAreRead }
{}
