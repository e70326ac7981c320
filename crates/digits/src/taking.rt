// The digits of a number, the highest first: powers of ten are taken away, so that a chip without divide needs no helper.
ghost use Rattle.std.specs.Prelude.{◌≡◌, cond, ◌+◌, ◌-◌, ◌*◌, ◌^◌, ◌<◌, ◌≤◌, length, take, leb};
ghost use Rattle.digits.specs.Decimal.{decimal};

// The digits of the widest number.
pub(crate) const MOST_DIGITS: usize = 10;

// What is left of a number, and the digit that was taken from it.
#[derive(Clone, Copy)]
struct Taken {
    rest: u32,
    digit: u8,
}

// Makes the digits of n in the first of ten places; how many they are.
pub(crate) fn make_digits(n: u32, digits: &mut [u8; MOST_DIGITS]) -> usize
    ensures { (result ≤ 10) × (take result digits.new ≡ decimal n) }
{
    let count = count_digits(n);
    let mut rest = n;
    for i in 0..count {
        let taken = take_digit(rest, power_of(count - 1 - i));
        digits[i] = b'0' + taken.digit;
        rest = taken.rest;
    }
    count
}

// How many digits n has: no zero leads.
fn count_digits(n: u32) -> usize
    ensures { result ≡ length (decimal n) }
{
    for k in 1..MOST_DIGITS {
        if n < power_of(k) {
            return k;
        }
    }
    MOST_DIGITS
}

// Ten to the power k. A table for speed: with `u32::pow` a number of ten digits takes 1.4 times the instructions.
fn power_of(k: usize) -> u32
    requires { k < 10 }
    ensures { result ≡ 10 ^ k }
{
    match k {
        0 => 1,
        1 => 10,
        2 => 100,
        3 => 1000,
        4 => 10000,
        5 => 100000,
        6 => 1000000,
        7 => 10000000,
        8 => 100000000,
        _ => 1000000000,
    }
}

// The digit of n at a power, and what is left. By comparisons: a loop that takes a constant away the optimiser makes a division.
// 4, 2, 2 and 1 times the power: 8 times the highest does not fit 32 bits.
fn take_digit(n: u32, power: u32) -> Taken
    requires { (n < power * 10) × (power ≤ 1000000000) }
    ensures { (power * result.digit + result.rest ≡ n) × (result.rest < power) × (result.digit < 10) }
{
    let two = power + power;
    let whole = Taken { rest: n, digit: 0 };
    let below_six = take_part(whole, two + two, 4);
    let below_four = take_part(below_six, two, 2);
    let below_two = take_part(below_four, two, 2);
    take_part(below_two, power, 1)
}

// A part taken away, so many times the power, where the rest has it.
fn take_part(t: Taken, part: u32, times: u8) -> Taken
    requires { t.digit + times ≤ 10 }
    ensures { (result.rest ≡ cond (leb part t.rest) (t.rest - part) t.rest)
        × (result.digit ≡ cond (leb part t.rest) (t.digit + times) t.digit) }
{
    if part <= t.rest {
        return Taken {
            rest: t.rest - part,
            digit: t.digit + times,
        };
    }
    t
}
