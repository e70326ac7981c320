// The fields of a line, parted by single spaces, and what each kind of field reads as.
ghost use Rattle.std.specs.Prelude.{◌≡◌, ◌<◌, ◌≢◌, length, slice_index, IfSome, MatchOption};
ghost use Rattle.std.specs.List.{AllWithin};

use digits::Operand;

// What ends a line.
pub(crate) const LF: u8 = 10;

// What is wrong with a line.
#[derive(Clone, Copy, PartialEq, Eq)]
pub(crate) enum Fault {
    NoOperation,
    TooMany,
    TooGreat,
    Missing,
    NoNumber,
    OddHex,
    NoHex,
    NoRun,
    BadCommand,
}

// The place of the first such byte. `position` and `all` hand an item as an Option of a reference, which `chip/pointer-places` does
// not follow; so here the index is counted, and elsewhere a `for` goes over the bytes.
pub(crate) fn find(s: &[u8], byte: u8) -> Option<usize>
    ensures bounds { IfSome result (λ n. n < length s.now) }
    ensures found { IfSome result (λ n. slice_index s.now n ≡ byte) }
    ensures passed { MatchOption result (AllWithin (λ b. b ≢ byte) s.now 0 (length s.now)) (λ n. AllWithin (λ b. b ≢ byte) s.now 0 n) }
{
    for i in 0..s.len() {
        if s[i] == byte {
            return Some(i);
        }
    }
    None
}

// What stands before the first such byte, and what behind it; nothing where there is none.
pub(crate) fn cut(s: &[u8], byte: u8) -> (&[u8], Option<&[u8]>) {
    match find(s, byte) {
        Some(n) => (&s[..n], Some(&s[n + 1..])),
        None => (s, None),
    }
}

// A number.
pub(crate) fn number(field: &[u8]) -> Result<u32, Fault> {
    match digits::read_operand(field, 0) {
        Operand::Number(n, end) if end == field.len() => Ok(n),
        Operand::Above(end) if end == field.len() => Err(Fault::TooGreat),
        _ => Err(Fault::NoNumber),
    }
}

// Bytes: `-`, or hex digits, two a byte.
pub(crate) fn check_hex(field: &[u8]) -> Result<(), Fault> {
    if field == b"-".as_slice() {
        return Ok(());
    }
    if field.len() % 2 == 1 {
        return Err(Fault::OddHex);
    }
    for b in field {
        if !b.is_ascii_hexdigit() {
            return Err(Fault::NoHex);
        }
    }
    Ok(())
}

// The byte that two hex digits tell.
pub(crate) fn byte(digits: &[u8]) -> Option<u8> {
    let [high, low] = digits else {
        return None;
    };
    let high = char::from(*high).to_digit(16)?;
    let low = char::from(*low).to_digit(16)?;
    u8::try_from(16 * high + low).ok()
}
