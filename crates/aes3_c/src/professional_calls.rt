//! The fields of professional channel status.

ghost use Rattle.std.specs.Prelude.{◌≡◌, ◌↔◌, ◌<◌, ℕ, List, true, false, not, get_or, length};
ghost use Rattle.std.specs.Prelude.{slice_set};
ghost use Rattle.aes3_status.specs.Check.{check_state_of};
ghost use Rattle.aes3_status.specs.Statuses.{is_professional};
ghost use Rattle.aes3_c.specs.Professional.{ProfessionalFits, professional_bytes};
ghost use Rattle.aes3_c.specs.Professional.{professional_fields};

use aes3_status::{Check, Pro, Status, check_byte};

/// The fields of a channel status for professional use (AES3-2), each as `aes3_status` reads it.
#[repr(C)]
#[derive(Drop)]
pub struct Aes3Professional {
    pub payload: u8,
    pub emphasis: u8,
    pub unlocked: u8,
    pub rate: u8,
    pub mode: u8,
    pub user: u8,
    pub aux: u8,
    pub word: u8,
    pub b2high: u8,
    pub b3: u8,
    pub b4: u8,
    pub b5: u8,
    pub origin: [u8; 4],
    pub destination: [u8; 4],
    pub local: u32,
    pub time: u32,
    pub unreliable: u8,
    pub b22low: u8,
}

// As in the header.
const _: () = prove!(size_of::<Aes3Professional>() == 32);

const _: () = prove!(align_of::<Aes3Professional>() == 4);

fn fields_of(status: &Pro) -> Aes3Professional
    ensures { result ≡ professional_fields status.now }
{
    Aes3Professional {
        payload: status.payload(),
        emphasis: status.emphasis(),
        unlocked: status.unlocked(),
        rate: status.rate(),
        mode: status.mode(),
        user: status.user(),
        aux: status.aux(),
        word: status.word(),
        b2high: status.b2high(),
        b3: status.b3(),
        b4: status.b4(),
        b5: status.b5(),
        origin: status.origin(),
        destination: status.destination(),
        local: status.local(),
        time: status.time(),
        unreliable: status.unreliable(),
        b22low: status.b22low(),
    }
}

/// Puts the fields of a channel status for professional use, and returns true. If it is not for
/// professional use, returns false and changes nothing.
#[unsafe(no_mangle)]
pub extern "C" fn aes3_status_professional(status: &[u8; 24], fields: &mut Aes3Professional) -> bool
    ensures professional { result ≡ is_professional status.now }
    ensures fields { result ≡ true → fields.new ≡ professional_fields status.now }
    ensures left { result ≡ false → fields.new ≡ fields.old }
{
    let Status::Professional(status) = Status::read(status) else {
        return false;
    };
    *fields = fields_of(&status);
    true
}

/// Whether each field has bits for its code.
fn fits(fields: &Aes3Professional) -> bool
    ensures fits { result ≡ true → ProfessionalFits fields.now }
    ensures only { ProfessionalFits fields.now → result ≡ true }
{
    fields.payload < 2
        && fields.emphasis < 8
        && fields.unlocked < 2
        && fields.rate < 4
        && fields.mode < 16
        && fields.user < 16
        && fields.aux < 8
        && fields.word < 8
        && fields.b2high < 4
        && fields.unreliable < 16
        && fields.b22low < 16
}

/// The bytes of a status with these fields, with 0 as the check byte.
fn bytes_of(fields: &Aes3Professional) -> [u8; 24]
    requires { ProfessionalFits fields.now }
    ensures bytes { result ≡ professional_bytes fields.now 0 }
    ensures fields { (check : ℕ) → check < 256
        → professional_fields (slice_set result 23 check) ≡ fields.now }
{
    let first = 1 + (fields.payload << 1) + (fields.emphasis << 2) + (fields.unlocked << 5);
    let origin = &fields.origin;
    let destination = &fields.destination;
    let local = fields.local.to_le_bytes();
    let time = fields.time.to_le_bytes();
    [
        first + (fields.rate << 6),
        fields.mode + (fields.user << 4),
        fields.aux + (fields.word << 3) + (fields.b2high << 6),
        fields.b3,
        fields.b4,
        fields.b5,
        origin[0],
        origin[1],
        origin[2],
        origin[3],
        destination[0],
        destination[1],
        destination[2],
        destination[3],
        local[0],
        local[1],
        local[2],
        local[3],
        time[0],
        time[1],
        time[2],
        time[3],
        fields.b22low + (fields.unreliable << 4),
        0,
    ]
}

/// Puts the channel status for professional use that has these fields, with its check byte
/// (AES3-2), and returns true. If a code has more bits than its field, returns false and changes
/// nothing.
#[unsafe(no_mangle)]
pub extern "C" fn aes3_status_of_professional(
    fields: &Aes3Professional,
    status: &mut [u8; 24],
) -> bool
    ensures fits { result ≡ true ↔ ProfessionalFits fields.now }
    ensures professional { result ≡ true → is_professional status.new ≡ true }
    ensures fields { result ≡ true → professional_fields status.new ≡ fields.now }
    ensures check { result ≡ true → check_state_of status.new ≡ Check.Good }

    // No other status is for professional use and has these fields and a check byte that holds.
    ensures only { result ≡ true → (bytes : List ℕ) → length bytes ≡ 24
        → ((i : ℕ) → get_or bytes i 0 < 256) → is_professional bytes ≡ true
        → professional_fields bytes ≡ fields.now → check_state_of bytes ≡ Check.Good
        → bytes ≡ status.new }
    ensures left { result ≡ false → status.new ≡ status.old }
{
    if !fits(fields) {
        return false;
    }
    *status = bytes_of(fields);
    status[23] = check_byte(status);
    true
}
