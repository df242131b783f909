//! Channel status for either use.
ghost use Rattle.std.specs.Prelude.{◌≡◌};

use crate::consumer::Con;
use crate::field::is_for_professional_use;
use crate::professional::Pro;

/// The channel status of one channel in one block, 24 bytes (AES3-2, IEC 60958-3).
#[derive(Clone, Copy)]
pub enum Status {
    /// Professional use (AES3-2).
    Professional(Pro),
    /// Consumer use (IEC 60958-3).
    Consumer(Con),
}

impl Status {
    ghost use Rattle.aes3_status.specs.Statuses.{read_status, bytes_of};

    /// Reads a channel status: byte 0 bit 0 is 1 for professional, 0 for consumer use
    /// (AES3-2, IEC 60958-1).
    pub fn read(bytes: &[u8; 24]) -> Status
        ensures status { result ≡ read_status bytes.now }
        ensures bytes { bytes_of result ≡ bytes.now }
    {
        if is_for_professional_use(bytes) {
            Status::Professional(Pro::of_bytes(bytes))
        } else {
            Status::Consumer(Con::of_bytes(bytes))
        }
    }

    /// The 24 bytes that the status was read from.
    pub fn to_bytes(&self) -> [u8; 24]
        ensures { result ≡ bytes_of self.now }
    {
        match self {
            Status::Professional(professional) => professional.to_bytes(),
            Status::Consumer(consumer) => consumer.to_bytes(),
        }
    }
}
