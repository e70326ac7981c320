// OEM frames: their numbers, and which body a repeat obeys.
ghost use Rattle.std.specs.Prelude.{◌≡◌};
ghost use Rattle.drive.specs.Repeats.{is_repeat, is_query, chosen, is_refusal, numbered_by, last_after};

use frames::{Frame, Framing};

// A sequence byte has its number in the low three bits, and bit 3 for a repeat.
const NUMBERS: u8 = 8;

const SEQUENCES: u8 = 16;

// The body that is obeyed: of a repeat the query that it is, or none.
pub(crate) fn choose(last: Option<u8>, framing: Framing, body: &[u8]) -> &[u8]
    ensures { result.now ≡ chosen last framing body.now }
{
    if is_repeat(last, framing) && !is_query(body) {
        return parts::first(body, 0);
    }
    body
}

// Whether a frame repeats the last number.
fn is_repeat(last: Option<u8>, framing: Framing) -> bool
    ensures { result ≡ is_repeat last framing }
{
    let Framing::Oem(q) = framing else {
        return false;
    };
    let Some(n) = last else {
        return false;
    };
    NUMBERS <= q % SEQUENCES && q % NUMBERS == n
}

// Whether a body is a query other than `?9`.
fn is_query(body: &[u8]) -> bool
    ensures { result ≡ is_query body.now }
{
    matches!(
        body,
        b"Q" | b"$" | b"?0" | b"?2" | b"?4" | b"?5" | b"?6" | b"?7"
    )
}

// The last number after a frame whose answer has this code.
pub(crate) fn last_after(frame: Frame, framing: Framing, code: u8, last: Option<u8>) -> Option<u8>
    ensures { result ≡ last_after frame framing code last }
{
    match frame {
        Frame::Nothing => last,
        Frame::Alone | Frame::Group => number_after(framing, code, last),
    }
}

// The same after a completed frame.
fn number_after(framing: Framing, code: u8, last: Option<u8>) -> Option<u8>
    ensures { result ≡ numbered_by framing code last }
{
    let Framing::Oem(q) = framing else {
        return last;
    };
    if is_refusal(code) {
        return last;
    }
    Some(q % NUMBERS)
}

// Whether a code is that of a refused frame.
fn is_refusal(code: u8) -> bool
    ensures { result ≡ is_refusal code }
{
    matches!(code, 2 | 3 | 15)
}
