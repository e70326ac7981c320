// What a feed call hears, and a completed frame obeyed.
ghost use Rattle.std.specs.Prelude.{◌≡◌, ◌≤◌, length, not};
ghost use Rattle.answers.specs.Packet.{packet_bytes, status_of};
ghost use Rattle.frames.specs.Receive.{heard_with};
ghost use Rattle.obeying.specs.Obeying.{body_obeyed};
ghost use Rattle.drive.specs.Unit.{unit_of};
ghost use Rattle.drive.specs.Calls.{body_for, feed_taken};
ghost use Rattle.drive.specs.Promises.{fed_taken};
ghost use Rattle.drive.specs.Steps.{feed_answer, WriteDone};

use crate::{Fed, FeedRefused, Record};
use frames::Heard;
use obeying::Write;
use turns::Core;

// The longest packet.
const PACKET_BYTES: usize = 262;

// Whether a feed call is taken, or why it is refused.
pub(crate) fn feed_answer(image: &[u8], buffer: &[u8]) -> Result<(), FeedRefused>
    ensures { result ≡ feed_answer image.now buffer.now }
{
    if buffer.len() < PACKET_BYTES {
        return Err(FeedRefused::BufferShort);
    }
    if !image::is_right_length(image) {
        return Err(FeedRefused::ImageLength);
    }
    Ok(())
}

// A call that completes no frame.
pub(crate) fn feed_nothing(u: Record, h: Heard) -> Fed
    ensures { result ≡ record {
      unit = record { core = u.core; progress = h.progress; number = u.number; last = u.last };
      consumed = h.consumed;
      answered = 0;
    } }
{
    Fed {
        unit: Record {
            progress: h.progress,
            ..u
        },
        consumed: h.consumed,
        answered: 0,
    }
}

// A call that completes a frame: its body, or what a repeat chooses of it, is obeyed, what it has to write is written, and the answer.
pub(crate) fn feed_frame(
    u: Record,
    h: Heard,
    body: &[u8; crate::BODY_BYTES],
    text: &mut [u8; crate::TEXT_BYTES],
    image: &mut [u8],
    buffer: &mut [u8],
) -> Fed
    requires { packet_bytes ≤ length buffer.old }
    ensures { fed_taken result body.now text.new image.new buffer.new
        ≡ feed_taken (heard_with h body.now) (body_for u.last (heard_with h body.now))
        (body_obeyed (body_for u.last (heard_with h body.now)) u.core)
        (unit_of u body.now text.old) image.old buffer.old }
{
    let kept = parts::first(body, h.progress.length);
    let chosen = crate::repeats::choose(u.last, h.framing, kept);
    let o = obeying::obey(u.core, chosen);
    apply(o.write, chosen, text, image);
    let status = status_after(o.core, o.code);
    let answered = crate::answering::answer_completed(
        h.frame,
        h.framing,
        status,
        o.tell,
        o.core.flow.length,
        text,
        buffer,
    );
    let last = crate::repeats::last_after(h.frame, h.framing, o.code, u.last);
    Fed {
        unit: Record {
            core: o.core,
            progress: h.progress,
            number: u.number,
            last,
        },
        consumed: h.consumed,
        answered,
    }
}

// The status byte that tells a code: idle or running after the frame.
fn status_after(c: Core, code: u8) -> u8
    ensures { result ≡ status_of (not c.running) code }
{
    answers::status(!c.running, code)
}

// What a body has to write, written to the text and the image.
fn apply(w: Write, body: &[u8], text: &mut [u8; crate::TEXT_BYTES], image: &mut [u8])
    ensures { WriteDone w body.now text.old image.old text.new image.new }
{
    match w {
        Write::Nothing => {}
        Write::Text(n) => {
            parts::put_text(text, parts::first(body, n));
        }
        Write::Store { slot, at, length } => {
            // What cannot be stored leaves the image as it was; an obeyed store can be.
            let _ = image::store(image, slot, parts::part(body, at, length));
        }
        Write::Clear => {
            image::clear(image);
        }
    }
}
