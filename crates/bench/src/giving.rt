// The bytes that a line gives to its operation.
use crate::bytes::Bytes;
use crate::{fields, input};

// The most bytes beside a text: those of an OEM frame, in which 02, address and sequence byte stand before it, and 03 and the
// checksum behind it.
const FRAME_BYTES: usize = 5;

// The most bytes that a line gives.
pub(crate) const GIVEN_MOST: usize = input::LINE_BYTES + FRAME_BYTES;

// How a field gives its bytes.
#[derive(Clone, Copy)]
pub(crate) enum Form {
    Plain,
    // `-`, or two digits a byte.
    Hex,
    // With a CR behind them.
    Typed,
    // As the text of an OEM frame with this sequence byte.
    Oem(u8),
}

// Makes the bytes that a field gives to the unit of a number.
pub(crate) fn give(field: &[u8], form: Form, number: u8, out: &mut Bytes<GIVEN_MOST>) {
    out.clear();
    match form {
        Form::Plain => out.add(field),
        Form::Hex => decode(field, out),
        Form::Typed => {
            out.add(field);
            out.add(b"\r");
        }
        Form::Oem(sequence) => frame_oem(number, sequence, field, out),
    }
}

// The bytes that hex digits tell.
fn decode(digits: &[u8], out: &mut Bytes<GIVEN_MOST>) {
    for pair in digits.chunks_exact(2) {
        if let Some(byte) = fields::byte(pair) {
            out.push(byte);
        }
    }
}

// An OEM frame: 02, the address of a unit, which is 1 to 16, the sequence byte, the text, 03 and the checksum.
fn frame_oem(number: u8, sequence: u8, text: &[u8], out: &mut Bytes<GIVEN_MOST>) {
    out.add(&[2, b'0'.saturating_add(number), sequence]);
    out.add(text);
    let sum = checksum::sum(out.as_slice());
    out.add(&[3, checksum::with_byte(sum, 3)]);
}
