// Answers: a line each, which a form and what fills it make, written in one write. `println!` is none of the forms that
// `chip/pointer-places` follows, and the bench runs on chips too.
ghost use Rattle.std.specs.Prelude.{◌≡◌, ◌<◌, ◌≤◌, drop, false};
ghost use Rattle.std.specs.Fmt.{digits, digit_glyph};

use crate::bytes::Bytes;
use crate::fields::Fault;
use crate::state;
use commands::Fault as Refusal;
use std::io;

// Room for the digits of a number.
const DIGITS_ROOM: usize = 64;

// The longest answer is `store` of the longest image.
const ANSWER_BYTES: usize = 6 + 2 * state::IMAGE_MOST + 1;

// A line of answer as it is made.
#[derive(Drop)]
pub(crate) struct Answer {
    line: Bytes<ANSWER_BYTES>,
}

impl Answer {
    pub(crate) fn new() -> Answer {
        Answer { line: Bytes::new() }
    }

    // Adds a form, filled: `#` is the next number in decimal, `~` in two hex digits, `^` in sixteen; `*` is the bytes in hex, `-` where
    // there are none, and `$` the bytes as they are.
    pub(crate) fn add(&mut self, form: &[u8], numbers: &[u64], bytes: &[u8]) {
        let mut left = numbers;
        for mark in form {
            let (n, others) = match left {
                [n, others @ ..] if matches!(*mark, b'#' | b'~' | b'^') => (*n, others),
                _ => (0, left),
            };
            left = others;
            add_mark(&mut self.line, *mark, n, bytes);
        }
    }

    // Adds a text.
    pub(crate) fn add_text(&mut self, text: &[u8]) {
        self.line.add(text);
    }

    // Tells it.
    pub(crate) fn tell(&mut self, rt: &impl Print) -> io::Result<()> {
        self.line.add(b"\n");
        rt.write_all(self.line.as_slice())
    }
}

// Tells an answer that is a text alone.
pub(crate) fn say(rt: &impl Print, text: &[u8]) -> io::Result<()> {
    let mut a = Answer::new();
    a.add_text(text);
    a.tell(rt)
}

// Tells an answer that is one form, filled.
pub(crate) fn tell(rt: &impl Print, form: &[u8], numbers: &[u64], bytes: &[u8]) -> io::Result<()> {
    let mut a = Answer::new();
    a.add(form, numbers, bytes);
    a.tell(rt)
}

// Adds what a mark stands for; most stand for themselves.
fn add_mark(out: &mut Bytes<ANSWER_BYTES>, mark: u8, n: u64, bytes: &[u8]) {
    match mark {
        b'#' => add_number(out, n, 10, 1),
        b'~' => add_number(out, n, 16, 2),
        b'^' => add_number(out, n, 16, 16),
        b'*' => add_bytes(out, bytes),
        b'$' => out.add(bytes),
        _ => out.push(mark),
    }
}

// Adds a number in a base up to 16, with at least so many digits.
fn add_number(out: &mut Bytes<ANSWER_BYTES>, n: u64, base: u64, width: usize)
    requires { (2 ≤ base) × (base ≤ 16) }
{
    let mut digits = [b'0'; DIGITS_ROOM];
    let from = put_digits(n, base, &mut digits);
    out.add(&digits[from.min(DIGITS_ROOM.saturating_sub(width))..]);
}

// Puts the digits of a number, in a base up to 16, at the end of the bytes: where they begin.
fn put_digits(n: u64, base: u64, out: &mut [u8; DIGITS_ROOM]) -> usize
    requires { (2 ≤ base) × (base ≤ 16) }
    ensures bound { result ≤ 64 }
    ensures value { drop result out.new ≡ digits base false n }
{
    let mut at = DIGITS_ROOM;
    let mut left = n;
    while at > 0 {
        at -= 1;
        out[at] = digit(left % base);
        left /= base;
        if left == 0 {
            break;
        }
    }
    at
}

// A digit below 16, in lower case.
fn digit(d: u64) -> u8
    requires { d < 16 }
    ensures { result ≡ digit_glyph false d }
{
    if d < 10 {
        b'0' + d as u8
    } else {
        b'a' - 10 + d as u8
    }
}

// Adds bytes in hex; no bytes is `-`.
fn add_bytes(out: &mut Bytes<ANSWER_BYTES>, bytes: &[u8]) {
    if bytes.is_empty() {
        out.push(b'-');
    }
    for b in bytes {
        out.push(digit(u64::from(*b / 16)));
        out.push(digit(u64::from(*b % 16)));
    }
}

// Tells words, a code, and the place of the fault where it has one.
pub(crate) fn tell_refused(rt: &impl Print, words: &[u8], refusal: Refusal) -> io::Result<()> {
    let code = u64::from(refusal.code);
    if refusal.place == 0 {
        return tell(rt, b"$ #", &[code], words);
    }
    tell(rt, b"$ # #", &[code, refusal.place as u64], words)
}

// Tells why a line is none of the operations, with the name of the field that is wrong.
pub(crate) fn tell_fault(rt: &impl Print, fault: Fault, name: &[u8]) -> io::Result<()> {
    let form = match fault {
        Fault::NoOperation => b"? no such operation".as_slice(),
        Fault::TooMany => b"? a field too many",
        Fault::TooGreat => b"? too great",
        Fault::Missing => b"? $ is missing",
        Fault::NoNumber => b"? $ is not a number",
        Fault::OddHex => b"? $ has an odd digit",
        Fault::NoHex => b"? $ is not hex",
        Fault::NoRun => b"? $ is neither R nor -",
        Fault::BadCommand => b"? $ has a bad command",
    };
    tell(rt, form, &[], name)
}
