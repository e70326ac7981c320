// The receiver of one unit: the frames for it and its groups, in both framings, out of the bytes of the line. 01, "Frames"; 02, E1.
#![tactic(auto)]

ghost use Rattle.std.specs.Prelude.{◌≡◌, List, ℕ, ◌<◌, true, not, length};
ghost use Rattle.frames.specs.Addresses.{called_of};
ghost use Rattle.frames.specs.Receive.{ours, receiver_at, receiver_of, heard_with, fresh_progress, quiet, finished, begun_plain, stored, closed_by_cr};
ghost use Rattle.frames.specs.Receive.{heard, begun_oem, begins, elsewhere, other_byte, byte_received, receive_of};
ghost use Rattle.frames.specs.Pieces.{completed, is_outside, leaves_body, in_plain, quiet_at, whole_of, stepped_at, Advances};
ghost use Rattle.frames.specs.declared.Place.{Place};
ghost use Rattle.frames.specs.Claims.{FrameClaims};

use checksum::{ETX, STX};

// Where the receiver stands: outside a frame; of a plain frame in the address place, or in the body of one for this unit alone
// or for a group of it; of an OEM frame in the address place, the sequence place, the body or the checksum place, with whom it
// is for, its sequence byte, and the sum of its bytes so far.
#[derive(Clone, Copy)]
pub enum Place {
    Outside,
    Address,
    Alone,
    Group,
    OemAddress,
    OemSequence(Frame, u8),
    OemBody(Frame, u8, u8),
    OemSum(Frame, u8, u8),
}

// What has been completed: nothing, a frame for this unit alone, or one for a group of it. Three cases of 01, not an Option's two.
#[derive(Clone, Copy)]
pub enum Frame {
    Nothing,
    Alone,
    Group,
}

// How it was framed, an OEM frame with its sequence byte; plain where nothing has been completed.
#[derive(Clone, Copy)]
pub enum Framing {
    Plain,
    Oem(u8),
}

// How far a receiver is: where it stands, and how many bytes of the body it keeps. The body lies where the caller lends it;
// what stands behind its bytes is left from earlier frames.
#[derive(Clone, Copy)]
pub struct Progress {
    pub length: usize,
    pub place: Place,
}

// How far a feed call brings it, how many bytes it consumed, and what they completed, in which framing.
#[derive(Clone, Copy)]
pub struct Heard {
    pub progress: Progress,
    pub consumed: usize,
    pub frame: Frame,
    pub framing: Framing,
}

// A frame is `/`, an address byte, a body, CR.
pub const SLASH: u8 = b'/';

pub const CR: u8 = 13;

// An OEM frame is 02, an address byte, a sequence byte, a body, 03, the checksum of all these. Sequence bytes are 30 to 3F hex.
pub const FIRST_SEQUENCE: u8 = 0x30;

pub const LAST_SEQUENCE: u8 = 0x3F;

// The body has 0 to 256 bytes; one more is kept of a longer one.
const MOST_KEPT: usize = 257;

// Units 1 to 16 are the bytes after `0`; pairs are two apart from `A` on, fours four apart from `Q` on, all is `_`.
const UNITS: u8 = 16;

pub const ZERO: u8 = b'0';

const PAIRS: u8 = b'A';

const FOURS: u8 = b'Q';

const ALL: u8 = b'_';

// A receiver that has seen nothing.
pub fn fresh() -> Progress
    ensures { result ≡ fresh_progress }
{
    Progress {
        place: Place::Outside,
        length: 0,
    }
}

// The bytes up to and with the CR or the checksum of the first frame for this unit or its groups, else all.
pub fn receive(p: Progress, body: &mut [u8; MOST_KEPT], unit: u8, bytes: &[u8]) -> Heard
    ensures { heard_with result body.new ≡ receive_of (receiver_of p body.old) unit bytes.now }
{
    let mut h = at(p.place, p.length);
    // A step takes one byte or many, and the answer counts them: no iterator over the bytes would be plainer.
    let mut i: usize = 0;
    while i < bytes.len() {
        let a = advance(h, body, unit, bytes, i);
        h = a.head;
        i = a.next;
        if ends(h.frame) {
            return apart(h, i, h.frame, h.framing);
        }
    }
    apart(h, i, Frame::Nothing, Framing::Plain)
}

// The receiver without its body, and what the last byte completed.
#[derive(Clone, Copy)]
struct Head {
    progress: Progress,
    frame: Frame,
    framing: Framing,
}

// Where it is after some bytes, and the place of the next one.
#[derive(Clone, Copy)]
struct Advanced {
    head: Head,
    next: usize,
}

// What a feed call answers where it ends at h.
fn apart(h: Head, consumed: usize, frame: Frame, framing: Framing) -> Heard
    ensures { (body : List ℕ)
        → heard_with result body ≡ record { receiver = whole_of h body; consumed = consumed; frame = frame; framing = framing } }
{
    Heard {
        progress: h.progress,
        consumed,
        frame,
        framing,
    }
}

// Whether a feed call ends here: a frame for this unit or its groups is complete.
fn ends(f: Frame) -> bool
    ensures { result ≡ ours f }
{
    matches!(f, Frame::Alone | Frame::Group)
}

// One byte more, or many at once: most stand in a plain body or outside a frame.
fn advance(h: Head, body: &mut [u8; MOST_KEPT], unit: u8, bytes: &[u8], i: usize) -> Advanced
    requires { i < length bytes.now }
    ensures { Advances (whole_of h body.old) unit bytes.now i result body.new }
{
    let p = h.progress;
    if inside(p.place) {
        return keep(p, body, bytes, i);
    }
    if outside(p.place) {
        return look_out(p.length, bytes, i);
    }
    Advanced {
        head: step(p, body, unit, bytes[i]),
        next: i + 1,
    }
}

// The bytes of a plain body, up to and with the one that ends it.
fn keep(p: Progress, body: &mut [u8; MOST_KEPT], bytes: &[u8], i: usize) -> Advanced
    requires { (i < length bytes.now) × (ours (completed p.place) ≡ true) }
    ensures { (u : ℕ) → Advances (receiver_of p body.old) u bytes.now i result body.new }
{
    let mut n = p.length;
    for k in i..bytes.len() {
        let b = bytes[k];
        if leaves(b) {
            return Advanced {
                head: leave(completes(p.place), n, b),
                next: k + 1,
            };
        }
        if n < MOST_KEPT {
            body[n] = b;
            n += 1;
        }
    }
    Advanced {
        head: at(p.place, n),
        next: bytes.len(),
    }
}

// The bytes outside a frame, up to and with the one that begins one.
fn look_out(kept: usize, bytes: &[u8], i: usize) -> Advanced
    requires { i < length bytes.now }
    ensures { (u : ℕ) (body : List ℕ) → Advances (receiver_at Place.Outside kept body) u bytes.now i result body }
{
    for k in i..bytes.len() {
        if bytes[k] == SLASH {
            return Advanced {
                head: at(Place::Address, kept),
                next: k + 1,
            };
        }
        if bytes[k] == STX {
            return Advanced {
                head: at(Place::OemAddress, kept),
                next: k + 1,
            };
        }
    }
    Advanced {
        head: at(Place::Outside, kept),
        next: bytes.len(),
    }
}

// What one byte makes of the receiver.
#[tactic(auto, unfolding(crate::specs::Receive::byte_received))]
fn step(p: Progress, body: &mut [u8; MOST_KEPT], unit: u8, b: u8) -> Head
    ensures { stepped_at result body.new ≡ byte_received (receiver_of p body.old) unit b }
{
    if opens(SLASH, p.place, b) {
        return at(Place::Address, p.length);
    }
    if opens(STX, p.place, b) {
        return at(Place::OemAddress, p.length);
    }
    take(p, body, unit, b)
}

// Whether b is the byte x that begins a frame, and not in the checksum place.
fn opens(x: u8, p: Place, b: u8) -> bool
    ensures { result ≡ begins x p b }
{
    b == x && !summing(p)
}

// Whether the receiver stands in the checksum place.
fn summing(p: Place) -> bool
    ensures { result ≡ not (elsewhere p) }
{
    matches!(p, Place::OemSum(_, _, _))
}

// A byte that begins no frame.
fn take(p: Progress, body: &mut [u8; MOST_KEPT], unit: u8, b: u8) -> Head
    ensures { stepped_at result body.new ≡ other_byte p.place unit b (receiver_of p body.old) }
{
    let length = p.length;
    match p.place {
        Place::Outside => at(Place::Outside, length),
        Place::Address => in_address(length, unit, b),
        Place::Alone | Place::Group => add(completes(p.place), p, body, b),
        Place::OemAddress => in_oem_address(length, unit, b),
        Place::OemSequence(w, s) => in_oem_sequence(w, s, length, b),
        Place::OemBody(w, q, s) => in_oem_body(w, q, s, length, body, b),
        Place::OemSum(w, q, s) => in_oem_sum(w, q, s, length, b),
    }
}

// Whether the receiver stands in a plain body.
fn inside(p: Place) -> bool
    ensures { result ≡ ours (completed p) }
{
    ends(completes(p))
}

// Whether it stands outside a frame.
fn outside(p: Place) -> bool
    ensures { result ≡ is_outside p }
{
    matches!(p, Place::Outside)
}

// The receiver there, and nothing completed.
fn at(place: Place, length: usize) -> Head
    ensures { result ≡ quiet_at place length }
{
    Head {
        progress: Progress { place, length },
        frame: Frame::Nothing,
        framing: Framing::Plain,
    }
}

// A plain frame is complete, or an OEM one; of one for others nothing is told.
fn finish(w: Frame, g: Framing, length: usize) -> Head
    ensures { (body : List ℕ) → stepped_at result body ≡ finished w g (receiver_at Place.Outside length body) }
{
    match w {
        Frame::Nothing => at(Place::Outside, length),
        Frame::Alone | Frame::Group => Head {
            frame: w,
            framing: g,
            ..at(Place::Outside, length)
        },
    }
}

// What a CR completes.
fn completes(p: Place) -> Frame
    ensures { result ≡ completed p }
{
    match p {
        Place::Alone => Frame::Alone,
        Place::Group => Frame::Group,
        _ => Frame::Nothing,
    }
}

// Whether a byte ends a plain body: the CR, or a new frame. All three are at most `/`, and letters and digits are above it: without
// the first test a byte of a long body costs 4 instructions more (tried).
fn leaves(b: u8) -> bool
    ensures { result ≡ leaves_body b }
{
    b <= SLASH && matches!(b, CR | STX | SLASH)
}

// What such a byte makes of the receiver in the body of a frame for w.
fn leave(w: Frame, length: usize, b: u8) -> Head
    requires { leaves_body b ≡ true }
    ensures { (p : Place) (body : List ℕ) → stepped_at result body ≡ in_plain w b (receiver_at p length body) }
{
    if b == SLASH {
        return at(Place::Address, length);
    }
    if b == STX {
        return at(Place::OemAddress, length);
    }
    finish(w, Framing::Plain, length)
}

// The CR of a frame for w, or one byte more.
fn add(w: Frame, p: Progress, body: &mut [u8; MOST_KEPT], b: u8) -> Head
    ensures { stepped_at result body.new
        ≡ closed_by_cr w b (receiver_of p body.old) (quiet (stored b (receiver_of p body.old))) }
{
    if b == CR {
        return finish(w, Framing::Plain, p.length);
    }
    store(p, body, b)
}

// One body byte more, where it is kept.
#[tactic(auto, unfolding(crate::specs::Receive::stored))]
fn store(p: Progress, body: &mut [u8; MOST_KEPT], b: u8) -> Head
    ensures { stepped_at result body.new ≡ quiet (stored b (receiver_of p body.old)) }
{
    if p.length < MOST_KEPT {
        body[p.length] = b;
        return at(p.place, p.length + 1);
    }
    at(p.place, p.length)
}

// In the address place of a plain frame.
fn in_address(length: usize, unit: u8, b: u8) -> Head
    ensures { (body : List ℕ) → stepped_at result body ≡ other_byte Place.Address unit b (receiver_at Place.Address length body) }
{
    if b == CR {
        return at(Place::Outside, length);
    }
    begin(length, called(unit, b))
}

// After an address byte that calls c: a body begins, or the frame is not looked at.
fn begin(length: usize, c: Frame) -> Head
    ensures { (p : Place) (body : List ℕ) → stepped_at result body ≡ quiet (begun_plain c (receiver_at p length body)) }
{
    match c {
        Frame::Nothing => at(Place::Outside, length),
        Frame::Alone => at(Place::Alone, 0),
        Frame::Group => at(Place::Group, 0),
    }
}

// In the address place of an OEM frame.
fn in_oem_address(length: usize, unit: u8, b: u8) -> Head
    ensures { (body : List ℕ) → stepped_at result body ≡ other_byte Place.OemAddress unit b (receiver_at Place.OemAddress length body) }
{
    if b == ETX {
        return at(Place::Outside, length);
    }
    at(
        Place::OemSequence(called(unit, b), checksum::with_byte(STX, b)),
        length,
    )
}

// In the sequence place.
fn in_oem_sequence(w: Frame, s: u8, length: usize, b: u8) -> Head
    ensures { (u : ℕ) (body : List ℕ)
        → stepped_at result body ≡ other_byte (Place.OemSequence w s) u b (receiver_at (Place.OemSequence w s) length body) }
{
    if b == ETX {
        return at(Place::Outside, length);
    }
    begin_oem(hear(w, b), b, checksum::with_byte(s, b), length)
}

// Whom a frame with this sequence byte is still for.
#[tactic(auto, unfolding(crate::specs::Receive::heard))]
fn hear(w: Frame, q: u8) -> Frame
    ensures { result ≡ heard w q }
{
    match q {
        FIRST_SEQUENCE..=LAST_SEQUENCE => w,
        _ => Frame::Nothing,
    }
}

// After the sequence byte.
fn begin_oem(w: Frame, q: u8, s: u8, length: usize) -> Head
    ensures { (p : Place) (body : List ℕ) → stepped_at result body ≡ quiet (begun_oem w q s (receiver_at p length body)) }
{
    at(Place::OemBody(w, q, s), if ends(w) { 0 } else { length })
}

// In an OEM body.
fn in_oem_body(w: Frame, q: u8, s: u8, length: usize, body: &mut [u8; MOST_KEPT], b: u8) -> Head
    ensures { (u : ℕ)
        → stepped_at result body.new
        ≡ other_byte (Place.OemBody w q s) u b (receiver_at (Place.OemBody w q s) length body.old) }
{
    let sum = checksum::with_byte(s, b);
    if b == ETX {
        return at(Place::OemSum(w, q, sum), length);
    }
    let place = Place::OemBody(w, q, sum);
    if ends(w) {
        return store(Progress { place, length }, body, b);
    }
    at(place, length)
}

// In the checksum place.
fn in_oem_sum(w: Frame, q: u8, s: u8, length: usize, b: u8) -> Head
    ensures { (u : ℕ) (body : List ℕ)
        → stepped_at result body ≡ other_byte (Place.OemSum w q s) u b (receiver_at (Place.OemSum w q s) length body) }
{
    if b == s {
        return finish(w, Framing::Oem(q), length);
    }
    at(Place::Outside, length)
}

// Whom an address byte calls: this unit alone, a group of it, or neither.
#[tactic(auto, using(crate::proofs::Addresses::called_is), unfolding(crate::specs::Addresses::called_of))]
fn called(unit: u8, b: u8) -> Frame
    ensures { result ≡ called_of unit b }
{
    if unit < 1 || UNITS < unit {
        return Frame::Nothing;
    }
    if b == ZERO + unit {
        return Frame::Alone;
    }
    if b == PAIRS + 2 * ((unit - 1) / 2) || b == FOURS + 4 * ((unit - 1) / 4) || b == ALL {
        return Frame::Group;
    }
    Frame::Nothing
}

// Does nothing: its promise is what 01 says of frames, for every receiver, unit number and list of bytes.
pub fn frame_claims()
    ensures { FrameClaims }
{}
