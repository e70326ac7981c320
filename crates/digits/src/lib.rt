// Operands: a run of digits read as a number of any size, and a number written in decimal.
#![tactic(auto)]

mod taking;

ghost use Rattle.std.specs.Prelude.{◌≡◌, [], ◌∷◌, ◌+◌, ◌*◌, ◌<◌, ◌≤◌, min, drop, MatchOption};
ghost use Rattle.digits.specs.Operand.{digit_run, widest, operand_at, operand_up_to};
ghost use Rattle.digits.specs.Decimal.{decimal, WrittenIs};
ghost use Rattle.digits.specs.ReadBack.{DigitClaims};

#[derive(Clone, Copy)]
pub enum Operand {
    // No digit stands there.
    Missing,
    // The value, and the place past the run.
    Number(u32, usize),
    // The value is more than 32 bits hold, or the digits are more than may be; the place past the run.
    Above(usize),
}

// The greatest number that 32 bits hold.
const WIDEST: u64 = 4294967295;

// The most digits of an operand.
pub const OPERAND_MOST: usize = 10;

// The operand at a place of s: the longest run of digits.
pub fn read_operand(s: &[u8], at: usize) -> Operand
    ensures { result ≡ operand_at s.now at }
{
    let mut i = at;
    let mut v: u64 = 0;
    while let Some(d) = digit_at(s, i) {
        v = push(v, d);
        i += 1;
    }
    if i == at {
        return Operand::Missing;
    }
    match u32::try_from(v) {
        Ok(n) => Operand::Number(n, i),
        Err(_) => Operand::Above(i),
    }
}

// The same where so many digits are the most.
pub fn read_up_to(s: &[u8], at: usize, most: usize) -> Operand
    ensures { result ≡ operand_up_to most s.now at }
{
    let operand = read_operand(s, at);
    let Operand::Number(_, next) = operand else {
        return operand;
    };
    if most < next - at {
        Operand::Above(next)
    } else {
        operand
    }
}

// Writes n in decimal without leading zeros from a place of the buffer; the place past it, or None where there is no room.
pub fn write_number(buffer: &mut [u8], at: usize, n: u32) -> Option<usize>
    ensures { WrittenIs buffer.old at (decimal n) result buffer.new }
{
    let mut digits = [0u8; taking::MOST_DIGITS];
    let count = taking::make_digits(n, &mut digits);
    write_bytes(buffer, at, &digits[..count])
}

// Writes bytes from a place of the buffer; the place past them, or None where there is no room.
pub fn write_bytes(buffer: &mut [u8], at: usize, bytes: &[u8]) -> Option<usize>
    ensures { WrittenIs buffer.old at bytes.now result buffer.new }
{
    if parts::put_at(buffer, at, bytes) {
        Some(at + bytes.len())
    } else {
        None
    }
}

// Writes one byte at a place of the buffer; the place past it, or None where there is no room.
pub fn write_byte(buffer: &mut [u8], at: usize, b: u8) -> Option<usize>
    ensures { WrittenIs buffer.old at (b ∷ []) result buffer.new }
{
    if buffer.len() <= at {
        return None;
    }
    buffer[at] = b;
    Some(at + 1)
}

// The digit at a place of s, or None where no digit stands.
fn digit_at(s: &[u8], at: usize) -> Option<u32>
    ensures { MatchOption result (digit_run (drop at s.now) ≡ []) (λ d. (digit_run (drop at s.now) ≡ d ∷ digit_run (drop (at + 1) s.now)) × (d < 10)) }
{
    // By an index: an Option of a reference lies otherwise on a chip, where `chip/pointer-places` refuses it.
    if s.len() <= at {
        return None;
    }
    let b = s[at];
    if b.is_ascii_digit() {
        Some(u32::from(b - b'0'))
    } else {
        None
    }
}

// A number with one digit more behind it; one that 32 bits do not hold stays as it is, above all that they do.
fn push(v: u64, d: u32) -> u64
    requires { (v ≤ widest * 10 + 9) × (d < 10) }
    ensures { (min result (widest + 1) ≡ min (v * 10 + d) (widest + 1)) × (result ≤ widest * 10 + 9) }
{
    if WIDEST < v {
        return v;
    }
    v * 10 + u64::from(d)
}

// What is claimed of operands and decimals together.
pub fn digit_claims()
    ensures { DigitClaims }
{}
