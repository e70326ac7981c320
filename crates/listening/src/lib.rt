// What is heard on the line, commands and answers together: a record for each unit of the frames that came to it alone, of its
// answers, and of its last status. 02, E10.
#![tactic(auto)]

ghost use Rattle.std.specs.Prelude.{◌≡◌, not, cond, eqb, [], ◌∷◌, ◌≤◌, ◌<◌};
ghost use Rattle.parts.specs.Letters.{etx};
ghost use Rattle.answers.specs.Reading.{good_status};
ghost use Rattle.digits.specs.Operand.{widest};
ghost use Rattle.digits.specs.Decimal.{decimal};
ghost use Rattle.listening.specs.Table.{once_more, noted};
ghost use Rattle.listening.specs.Lines.{hex_digit, status_text, unit_line, line_with};
ghost use Rattle.listening.specs.Pieces.{record_place, with_finish, added, added_each};
ghost use Rattle.listening.specs.Listen.{alone_of, after_address, may_follow};
ghost use Rattle.listening.specs.Listen.{after_oem_address, after_sequence, after_oem_body, after_oem_status};
ghost use Rattle.listening.specs.Listen.{standing, unit_after, ended_by, other_heard, not_sum, opens_at, hear_of, fresh_listener, listen_of};
ghost use Rattle.listening.specs.Claims.{ListeningClaims};

use answers::HOST_ADDRESS;
use checksum::{ETX, STX};
use frames::{CR, FIRST_SEQUENCE, LAST_SEQUENCE, SLASH, ZERO};

// What was heard of one unit, with the status of its last answer, where there was one.
#[derive(Clone, Copy)]
pub struct UnitRecord {
    pub frames: u32,
    pub answers: u32,
    pub last: Option<u8>,
}

// What a byte finishes: nothing that counts, a frame to a unit alone, or a whole answer of a unit with its status. Units are 1 to
// 16; 0 is nobody.
// Three cases of 02: as an Option around the last two, each match would nest another.
#[derive(Clone, Copy)]
pub enum Finish {
    Nothing,
    FrameTo(u8),
    AnswerOf(u8, u8),
}

// Where the listener stands: outside a frame; of a plain one in the address place, in a body with what its CR finishes, or of an
// answer at the status, in the data with the status and how many bytes came, behind the 03 with the status; of an OEM one the
// same, with the sum of its bytes so far, and what the checksum finishes where it is known.
#[derive(Clone, Copy)]
pub enum Spot {
    Outside,
    Address,
    Body(Finish),
    AnswerStatus,
    AnswerData(u8, u16),
    AnswerEnd(u8),
    OemAddress,
    OemSequence(Finish, u8),
    OemBody(Finish, u8),
    OemStatus(u8),
    OemData(u8, u16, u8),
    OemSum(Finish, u8),
}

// Where the listener stands, and the unit of the last frame to a unit alone; 0 where none has come.
// 0 is nobody in `Finish` and in the table's rule too: an Option here would stand in both, and each use would take it apart.
#[derive(Clone, Copy)]
pub struct Ear {
    pub spot: Spot,
    pub unit: u8,
}

// The listener: how far it has heard, and the records of the units 1 to 16.
#[derive(Clone, Copy)]
pub struct Listener {
    pub ear: Ear,
    pub table: [UnitRecord; UNITS],
}

// A line of text: its bytes, zeros behind them, and how many bytes.
// A buffer with its length: the text is the call's own, and the library has no heap.
#[derive(Clone, Copy)]
pub struct Line {
    pub bytes: [u8; LINE_BYTES],
    pub length: usize,
}

// The sixteen units, and the bytes that call them alone.
const UNITS: usize = 16;

const FIRST_UNIT: u8 = 0x31;

const LAST_UNIT: u8 = 0x40;

// The longest line has a unit of three digits, counts of ten, two digits of a status, and three spaces.
const LINE_BYTES: usize = 28;

// How many bytes data may have, and which: of `answers` only the test of a status is shared.
const MOST_DATA: u16 = 256;

const LEAST_DATA: u8 = 0x20;

const GREATEST_DATA: u8 = 0x7E;

const SPACE: u8 = b' ';

const DASH: u8 = b'-';

// A listener that has heard nothing.
pub fn fresh() -> Listener
    ensures { result ≡ fresh_listener }
{
    let blank = UnitRecord {
        frames: 0,
        answers: 0,
        last: None,
    };
    let ear = Ear {
        spot: Spot::Outside,
        unit: 0,
    };
    let table = [blank; UNITS];
    Listener { ear, table }
}

// The listener after more bytes of the line.
pub fn listen(from: Listener, bytes: &[u8]) -> Listener
    ensures { result ≡ listen_of from bytes.now }
{
    let mut l = from;
    for b in bytes {
        let h = hear(l.ear, *b);
        l.ear = h.ear;
        // the table is lent only where something was finished
        if matches!(h.finish, Finish::Nothing) {
            continue;
        }
        note(&mut l.table, h.finish);
    }
    l
}

// The line of a unit and its record, as `1 1 1 60` or `2 0 0 --`.
pub fn unit_line(unit: u8, r: UnitRecord) -> Line
    ensures { result ≡ line_with (unit_line unit r) }
{
    let blank = Line {
        bytes: [0u8; LINE_BYTES],
        length: 0,
    };
    let number = add_byte(add_number(blank, u32::from(unit)), SPACE);
    let frames = add_byte(add_number(number, r.frames), SPACE);
    let answers = add_byte(add_number(frames, r.answers), SPACE);
    add_status(answers, r.last)
}

// Does nothing: its promise is what 02 says of listening.
pub fn listening_claims()
    ensures { ListeningClaims }
{}

// Where the listener stands behind a byte, and what the byte finishes.
#[derive(Clone, Copy)]
struct Hearing {
    ear: Ear,
    finish: Finish,
}

// One byte more.
#[tactic(auto, unfolding(crate::specs::Listen::hear_of))]
fn hear(ear: Ear, b: u8) -> Hearing
    ensures { result ≡ hear_of ear b }
{
    let Ear { spot, unit } = ear;
    if opens(SLASH, spot, b) {
        return stand(Spot::Address, unit);
    }
    if opens(STX, spot, b) {
        return stand(Spot::OemAddress, unit);
    }
    take(spot, unit, b)
}

// Whether b is the byte x that begins a frame, and not in the checksum place.
fn opens(x: u8, spot: Spot, b: u8) -> bool
    ensures { result ≡ opens_at x spot b }
{
    b == x && !summing(spot)
}

// Whether the listener stands in the checksum place.
fn summing(spot: Spot) -> bool
    ensures { result ≡ not (not_sum spot) }
{
    matches!(spot, Spot::OemSum(_, _))
}

// A byte that begins no frame.
fn take(spot: Spot, unit: u8, b: u8) -> Hearing
    ensures { result ≡ other_heard spot unit b }
{
    match spot {
        Spot::Outside => stand(Spot::Outside, unit),
        Spot::Address => stand(in_address(b), unit),
        Spot::Body(f) => end_at(CR, b, f, Spot::Body(f), unit),
        Spot::AnswerStatus => { stand(in_status(b, Spot::AnswerData(b, 0), Spot::Outside), unit) }
        Spot::AnswerData(status, n) => {
            let end = Spot::AnswerEnd(status);
            let more = Spot::AnswerData(status, n.saturating_add(1));
            stand(in_data(n, b, end, more, Spot::Outside), unit)
        }
        Spot::AnswerEnd(status) => end_at(
            CR,
            b,
            Finish::AnswerOf(unit, status),
            Spot::Outside,
            unit,
        ),
        Spot::OemAddress => stand(in_oem_address(b), unit),
        Spot::OemSequence(f, s) => stand(in_oem_sequence(f, checksum::with_byte(s, b), b), unit),
        Spot::OemBody(f, s) => stand(in_oem_body(f, checksum::with_byte(s, b), b), unit),
        Spot::OemStatus(s) => stand(in_oem_status(checksum::with_byte(s, b), b), unit),
        Spot::OemData(status, n, s) => {
            let sum = checksum::with_byte(s, b);
            let end = Spot::OemSum(Finish::AnswerOf(unit, status), sum);
            let more = Spot::OemData(status, n.saturating_add(1), sum);
            let other = Spot::OemBody(Finish::Nothing, sum);
            stand(in_data(n, b, end, more, other), unit)
        }
        Spot::OemSum(f, s) => end_at(s, b, f, Spot::Outside, unit),
    }
}

// The listener there, and nothing finished.
fn stand(spot: Spot, unit: u8) -> Hearing
    ensures { result ≡ standing spot unit }
{
    Hearing {
        ear: Ear { spot, unit },
        finish: Finish::Nothing,
    }
}

// The byte that ends a frame or an answer, or another one.
fn end_at(end: u8, b: u8, f: Finish, other: Spot, unit: u8) -> Hearing
    ensures { result ≡ ended_by end b f other unit }
{
    if b == end {
        return Hearing {
            ear: Ear {
                spot: Spot::Outside,
                unit: unit_after(f, unit),
            },
            finish: f,
        };
    }
    stand(other, unit)
}

// The unit of the last frame to a unit alone.
fn unit_after(f: Finish, unit: u8) -> u8
    ensures { result ≡ unit_after f unit }
{
    match f {
        Finish::FrameTo(u) => u,
        Finish::Nothing | Finish::AnswerOf(_, _) => unit,
    }
}

// What a frame with this address finishes.
#[tactic(auto, unfolding(crate::specs::Listen::alone_of))]
fn alone(a: u8) -> Finish
    ensures { result ≡ alone_of a }
{
    match a {
        FIRST_UNIT..=LAST_UNIT => Finish::FrameTo(a - ZERO),
        _ => Finish::Nothing,
    }
}

// In the address place of a plain frame.
fn in_address(b: u8) -> Spot
    ensures { result ≡ after_address b }
{
    if b == HOST_ADDRESS {
        return Spot::AnswerStatus;
    }
    Spot::Body(alone(b))
}

// At the status of an answer: the place behind one that a packet may have, or another.
fn in_status(b: u8, good: Spot, other: Spot) -> Spot
    ensures { result ≡ cond (good_status b) good other }
{
    if answers::good_status(b) { good } else { other }
}

// In the data of an answer: behind the 03 that ends them, behind one byte more of them, or behind another byte.
fn in_data(n: u16, b: u8, end: Spot, more: Spot, other: Spot) -> Spot
    ensures { result ≡ cond (eqb b etx) end (cond (may_follow n b) more other) }
{
    if b == ETX {
        return end;
    }
    if may_follow(n, b) { more } else { other }
}

// In the address place of an OEM frame.
fn in_oem_address(b: u8) -> Spot
    ensures { result ≡ after_oem_address b }
{
    if b == ETX {
        return Spot::Outside;
    }
    let s = checksum::with_byte(STX, b);
    if b == HOST_ADDRESS {
        return Spot::OemStatus(s);
    }
    Spot::OemSequence(alone(b), s)
}

// In the sequence place; the sums are with the byte.
fn in_oem_sequence(f: Finish, s: u8, b: u8) -> Spot
    ensures { result ≡ after_sequence f s b }
{
    match b {
        ETX => Spot::Outside,
        FIRST_SEQUENCE..=LAST_SEQUENCE => Spot::OemBody(f, s),
        _ => Spot::OemBody(Finish::Nothing, s),
    }
}

// In the body of an OEM frame.
fn in_oem_body(f: Finish, s: u8, b: u8) -> Spot
    ensures { result ≡ after_oem_body f s b }
{
    if b == ETX {
        return Spot::OemSum(f, s);
    }
    Spot::OemBody(f, s)
}

// At the status of an OEM answer.
fn in_oem_status(s: u8, b: u8) -> Spot
    ensures { result ≡ after_oem_status s b }
{
    if b == ETX {
        return Spot::Outside;
    }
    in_status(b, Spot::OemData(b, 0, s), Spot::OemBody(Finish::Nothing, s))
}

// Whether b may stand behind n bytes of data: fewer than 256 are there, and it is 20 to 7E hex.
#[tactic(auto, unfolding(crate::specs::Listen::may_follow))]
fn may_follow(n: u16, b: u8) -> bool
    ensures { result ≡ may_follow n b }
{
    n < MOST_DATA && LEAST_DATA <= b && b <= GREATEST_DATA
}

// Notes in a lent table of any length what was finished: the record of its unit changes, where the table has one, and no other.
fn note(table: &mut [UnitRecord], f: Finish)
    ensures { table.new ≡ noted table.old f }
{
    let k = place(f);
    if k < table.len() {
        table[k] = with_finish(table[k], f);
    }
}

// The place of the record that it is about.
fn place(f: Finish) -> usize
    ensures { result ≡ record_place f }
{
    match f {
        Finish::Nothing => 0,
        Finish::FrameTo(u) | Finish::AnswerOf(u, _) => usize::from(u.saturating_sub(1)),
    }
}

// That record, with what it adds to it.
fn with_finish(r: UnitRecord, f: Finish) -> UnitRecord
    ensures { result ≡ with_finish r f }
{
    match f {
        Finish::FrameTo(u) if u != 0 => UnitRecord {
            frames: one_more(r.frames),
            ..r
        },
        Finish::AnswerOf(u, s) if u != 0 => UnitRecord {
            answers: one_more(r.answers),
            last: Some(s),
            ..r
        },
        _ => r,
    }
}

// One more; "counts stay at 4294967295 once there".
fn one_more(n: u32) -> u32
    ensures { result ≡ once_more n }
{
    n.saturating_add(1)
}

// A line with a number behind it, which has 32 bits.
fn add_number(l: Line, n: u32) -> Line
    ensures { (result ≡ added l (decimal n)) × (n ≤ widest) }
{
    let mut bytes = l.bytes;
    match digits::write_number(&mut bytes, l.length, n) {
        Some(length) => Line { bytes, length },
        None => l,
    }
}

// A line with one byte behind it.
fn add_byte(l: Line, b: u8) -> Line
    ensures { result ≡ added l (b ∷ []) }
{
    let mut bytes = l.bytes;
    match digits::write_byte(&mut bytes, l.length, b) {
        Some(length) => Line { bytes, length },
        None => l,
    }
}

// A line with the two bytes of a last status behind it.
fn add_status(l: Line, last: Option<u8>) -> Line
    ensures { result ≡ added_each l (status_text last) }
{
    match last {
        None => add_byte(add_byte(l, DASH), DASH),
        Some(s) => add_byte(add_byte(l, hex_digit(s / 16)), hex_digit(s % 16)),
    }
}

// A hex digit, in upper case.
#[tactic(auto, unfolding(crate::specs::Lines::hex_digit))]
fn hex_digit(n: u8) -> u8
    requires { n < 16 }
    ensures { result ≡ hex_digit n }
{
    if n < 10 { b'0' + n } else { b'A' + (n - 10) }
}
