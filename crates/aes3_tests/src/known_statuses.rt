//! Outside vectors of the check byte, and the fields of known channel statuses.

use aes3_status::{Check, Con, Pro, Status, check_byte, check_state, with_check};

/// A channel status that begins with these bytes, followed by zeros and byte 23.
pub(crate) fn status_of(front: [u8; 6], last: u8) -> [u8; 24] {
    let mut bytes = [0; 24];
    bytes[..6].copy_from_slice(&front);
    bytes[23] = last;
    bytes
}

/// A channel status with one byte replaced.
pub(crate) fn with_byte(mut bytes: [u8; 24], at: usize, value: u8) -> [u8; 24] {
    if let Some(byte) = bytes.get_mut(at) {
        *byte = value;
    }
    bytes
}

/// The first bytes of a channel status, the check byte that is sent, the right one, and the state
/// of the one that is sent.
const CHECKS: &[([u8; 6], u8, u8, Check)] = &[
    ([0x01, 0, 0, 0, 0, 0], 0x32, 0x32, Check::Good),
    ([0x01, 0, 0, 0, 0, 0], 0x00, 0x32, Check::Absent),
    ([0x01, 0, 0, 0, 0, 0], 0x33, 0x32, Check::Bad),
    // J.17 pre-emphasis, unlocked, stereophonic.
    ([0x3D, 0x02, 0, 0, 0x02, 0], 0x9B, 0x9B, Check::Good),
];

fn is_checked(front: [u8; 6], sent: u8, check: u8, state: Check) -> bool {
    let status = status_of(front, sent);
    check_byte(&status) == check
        && check_state(&status) == state
        && with_check(status) == status_of(front, check)
}

#[test]
fn check_bytes(rt: HostRuntime) {
    for (front, sent, check, state) in CHECKS {
        assert!(rt; is_checked(*front, *sent, *check, *state), "sent {sent}");
    }
}

fn professional(bytes: &[u8; 24]) -> Option<Pro> {
    match Status::read(bytes) {
        Status::Professional(fields) => Some(fields),
        Status::Consumer(_) => None,
    }
}

/// The fields of bytes 0 to 5.
fn professional_codes(bytes: &[u8; 24]) -> Option<[u8; 12]> {
    let fields = professional(bytes)?;
    Some([
        fields.payload(),
        fields.emphasis(),
        fields.unlocked(),
        fields.rate(),
        fields.mode(),
        fields.user(),
        fields.aux(),
        fields.word(),
        fields.b2high(),
        fields.b3(),
        fields.b4(),
        fields.b5(),
    ])
}

/// A status in which each field has another number than its neighbours.
const PROFESSIONAL: [u8; 24] = [
    0xAF, 0xC2, 0x6C, 3, 42, 5, b'A', b'B', b'C', b'D', b'W', b'X', b'Y', b'Z', 4, 3, 2, 1, 13, 12,
    11, 10, 0xA5, 0,
];

#[test]
fn professional_fields(rt: HostRuntime) {
    // J.17, unlocked, stereophonic.
    let coded = status_of([0x3D, 0x02, 0x00, 0x00, 0x02, 0], 0);
    assert!(rt; professional_codes(&coded) == Some([0, 7, 1, 0, 2, 0, 0, 0, 0, 0, 2, 0]));
    // 50/15 microseconds, 48 kHz.
    let codes = [1, 3, 1, 2, 2, 12, 4, 5, 1, 3, 42, 5];
    assert!(rt; professional_codes(&PROFESSIONAL) == Some(codes));
}

/// Bytes 6 to 13 and 18 to 21 are unreliable.
fn has_texts_and_times(fields: &Pro) -> bool {
    fields.origin() == *b"ABCD"
        && fields.destination() == *b"WXYZ"
        && fields.local() == 0x0102_0304
        && fields.time() == 0x0A0B_0C0D
        && fields.unreliable() == 10
        && fields.b22low() == 5
}

#[test]
fn professional_texts_and_times(rt: HostRuntime) {
    let status = Status::read(&PROFESSIONAL);
    assert!(rt; matches!(&status, Status::Professional(fields) if has_texts_and_times(fields)));
    assert!(rt; status.to_bytes() == PROFESSIONAL);
}

/// The fields of bytes 0 to 4, and the bytes after them.
fn consumer_codes(bytes: &[u8; 24]) -> Option<([u8; 14], [u8; 19])> {
    let Status::Consumer(fields) = Status::read(bytes) else {
        return None;
    };
    let codes = [
        fields.payload(),
        fields.copyright(),
        fields.emphasis(),
        fields.mode(),
        fields.category(),
        fields.generation(),
        fields.source(),
        fields.number(),
        fields.rate(),
        fields.accuracy(),
        fields.b3high(),
        fields.greatest(),
        fields.word(),
        fields.original(),
    ];
    Some((codes, fields.rest()))
}

#[test]
fn consumer_fields(rt: HostRuntime) {
    // A compact disc: copyright not asserted, 48 kHz, 24 bits of 24.
    let disc = status_of([0x04, 0x01, 0x21, 0x02, 0x0B, 0], 0);
    let codes = [0, 1, 0, 0, 1, 0, 1, 2, 2, 0, 0, 1, 5, 0];
    assert!(rt; consumer_codes(&disc) == Some((codes, [0; 19])));
    // Other numbers, 16 bits of 20.
    let other = status_of([0x58, 0xFF, 0x00, 0x90, 0xA2, 7], 0);
    let codes = [0, 0, 3, 1, 127, 1, 0, 0, 0, 1, 2, 0, 1, 10];
    let mut rest = [0; 19];
    rest[0] = 7;
    assert!(rt; consumer_codes(&other) == Some((codes, rest)));
}
