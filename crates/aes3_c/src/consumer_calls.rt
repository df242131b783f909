//! The fields of consumer channel status.

ghost use Rattle.std.specs.Prelude.{◌≡◌, ◌↔◌, ◌<◌, ℕ, List, true, false, not, get_or, length};
ghost use Rattle.aes3_status.specs.Statuses.{is_professional};
ghost use Rattle.aes3_c.specs.Consumer.{ConsumerFits, consumer_bytes, consumer_fields};
ghost use Rattle.aes3_c.specs.Consumer.{first_bytes};

use aes3_status::{Con, Status};

/// The fields of a channel status for consumer use (IEC 60958-3), each as `aes3_status` reads it.
#[repr(C)]
#[derive(Drop)]
pub struct Aes3Consumer {
    pub payload: u8,
    pub copyright: u8,
    pub emphasis: u8,
    pub mode: u8,
    pub category: u8,
    pub generation: u8,
    pub source: u8,
    pub number: u8,
    pub rate: u8,
    pub accuracy: u8,
    pub b3high: u8,
    pub greatest: u8,
    pub word: u8,
    pub original: u8,
    pub rest: [u8; 19],
}

// As in the header.
const _: () = prove!(size_of::<Aes3Consumer>() == 33);

const _: () = prove!(align_of::<Aes3Consumer>() == 1);

fn fields_of(status: &Con) -> Aes3Consumer
    ensures { result ≡ consumer_fields status.now }
{
    Aes3Consumer {
        payload: status.payload(),
        copyright: status.copyright(),
        emphasis: status.emphasis(),
        mode: status.mode(),
        category: status.category(),
        generation: status.generation(),
        source: status.source(),
        number: status.number(),
        rate: status.rate(),
        accuracy: status.accuracy(),
        b3high: status.b3high(),
        greatest: status.greatest(),
        word: status.word(),
        original: status.original(),
        rest: status.rest(),
    }
}

/// Puts the fields of a channel status for consumer use, and returns true. If it is not for
/// consumer use, returns false and changes nothing.
#[unsafe(no_mangle)]
pub extern "C" fn aes3_status_consumer(status: &[u8; 24], fields: &mut Aes3Consumer) -> bool
    ensures consumer { result ≡ not (is_professional status.now) }
    ensures fields { result ≡ true → fields.new ≡ consumer_fields status.now }
    ensures left { result ≡ false → fields.new ≡ fields.old }
{
    let Status::Consumer(status) = Status::read(status) else {
        return false;
    };
    *fields = fields_of(&status);
    true
}

/// Whether each field has bits for its code.
fn fits(fields: &Aes3Consumer) -> bool
    ensures fits { result ≡ true → ConsumerFits fields.now }
    ensures only { ConsumerFits fields.now → result ≡ true }
{
    fields.payload < 2
        && fields.copyright < 2
        && fields.emphasis < 8
        && fields.mode < 4
        && fields.category < 128
        && fields.generation < 2
        && fields.source < 16
        && fields.number < 16
        && fields.rate < 16
        && fields.accuracy < 4
        && fields.b3high < 4
        && fields.greatest < 2
        && fields.word < 8
        && fields.original < 16
}

/// The first bytes of a status with these fields, those before `rest`.
fn first_bytes(fields: &Aes3Consumer) -> [u8; 5]
    requires { ConsumerFits fields.now }
    ensures { result ≡ first_bytes fields.now }
{
    let first = (fields.payload << 1) + (fields.copyright << 2) + (fields.emphasis << 3);
    [
        first + (fields.mode << 6),
        fields.category + (fields.generation << 7),
        fields.source + (fields.number << 4),
        fields.rate + (fields.accuracy << 4) + (fields.b3high << 6),
        fields.greatest + (fields.word << 1) + (fields.original << 4),
    ]
}

/// The bytes of a status with these fields.
fn bytes_of(fields: &Aes3Consumer) -> [u8; 24]
    requires { ConsumerFits fields.now }
    ensures { result ≡ consumer_bytes fields.now }
{
    let mut bytes = [0; 24];
    bytes[..5].copy_from_slice(&first_bytes(fields));
    bytes[5..].copy_from_slice(&fields.rest);
    bytes
}

/// Puts the channel status for consumer use that has these fields (IEC 60958-3), and returns true.
/// If a code has more bits than its field, returns false and changes nothing.
#[unsafe(no_mangle)]
pub extern "C" fn aes3_status_of_consumer(fields: &Aes3Consumer, status: &mut [u8; 24]) -> bool
    ensures fits { result ≡ true ↔ ConsumerFits fields.now }
    ensures consumer { result ≡ true → is_professional status.new ≡ false }
    ensures fields { result ≡ true → consumer_fields status.new ≡ fields.now }

    // No other status is for consumer use and has these fields.
    ensures only { result ≡ true → (bytes : List ℕ) → length bytes ≡ 24
        → ((i : ℕ) → get_or bytes i 0 < 256) → is_professional bytes ≡ false
        → consumer_fields bytes ≡ fields.now → bytes ≡ status.new }
    ensures left { result ≡ false → status.new ≡ status.old }
{
    if !fits(fields) {
        return false;
    }
    *status = bytes_of(fields);
    true
}
