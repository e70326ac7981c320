// One drive's side of the DT protocol: the calls that firmware makes. A unit is its record, handed over by value, and two texts
// that the caller lends: the body being received, and the current text.
#![tactic(auto)]

mod answering;
mod feeding;
mod repeats;
mod starting;
mod turning;

ghost use Rattle.std.specs.Prelude.{◌≡◌, List, ℕ};
ghost use Rattle.drive.specs.Unit.{unit_of};
ghost use Rattle.drive.specs.Calls.{no_unit, start_of, feed_of};
ghost use Rattle.drive.specs.Promises.{started_with, fed_with, TurnedIs};

use frames::{Frame, Progress};
use image::BadImage;
use turns::{Action, Core};

// A unit without its texts.
#[derive(Clone, Copy)]
pub struct Record {
    pub core: Core,
    pub progress: Progress,
    pub number: u8,
    // The number of the last OEM frame that was not refused; at start there is none.
    pub last: Option<u8>,
}

// Why a start is refused.
#[derive(Clone, Copy, PartialEq, Eq)]
pub enum StartRefused {
    UnitNumber,
    ImageLength,
    ImageBad,
}

// Why a feed call is refused.
#[derive(Clone, Copy, PartialEq, Eq)]
pub enum FeedRefused {
    BufferShort,
    ImageLength,
}

// What a feed call answers.
#[derive(Clone, Copy)]
pub struct Fed {
    pub unit: Record,
    pub consumed: usize,
    // Bytes of the answer at the front of the buffer; 0 where there is none.
    pub answered: usize,
}

// Why a turn is refused.
#[derive(Clone, Copy, PartialEq, Eq)]
pub enum TurnRefused {
    ImageLength,
    Sample,
    Steps,
}

// What a turn answers.
#[derive(Clone, Copy)]
pub struct Turned {
    pub unit: Record,
    pub action: Action,
}

// The bytes lent for the body being received, one more than the longest body has, and for the current text.
pub(crate) const BODY_BYTES: usize = 257;

pub(crate) const TEXT_BYTES: usize = 256;

// No unit: the record of number 0, which no address calls, for a program that needs one before a start.
pub fn no_unit() -> Record
    ensures { (body text : List ℕ) → unit_of result body text ≡ no_unit body text }
{
    Record {
        core: turns::fresh_core(),
        progress: frames::fresh(),
        number: 0,
        last: None,
    }
}

// The unit of a number, idle or running program 0 of the image. Operands of too many digits in programs stored earlier do not
// refuse it. A refused start leaves the texts as they were lent.
pub fn start(
    number: u8,
    image: &[u8],
    body: &mut [u8; BODY_BYTES],
    text: &mut [u8; TEXT_BYTES],
) -> Result<Record, StartRefused>
    ensures { started_with result body.new text.new
        ≡ start_of number image.now body.old text.old }
{
    if !starting::is_unit(number) {
        return Err(StartRefused::UnitNumber);
    }
    match image::check_older(image) {
        Ok(()) => Ok(starting::start_unit(number, image, text)),
        Err(BadImage::WrongLength) => Err(StartRefused::ImageLength),
        Err(BadImage::Bad) => Err(StartRefused::ImageBad),
    }
}

// The bytes of a feed call, up to the end of the first frame for this unit: it is obeyed and, if for it alone, answered. A
// refused call leaves the unit, the texts, the image and the buffer as they were.
pub fn feed(
    u: Record,
    body: &mut [u8; BODY_BYTES],
    text: &mut [u8; TEXT_BYTES],
    bytes: &[u8],
    image: &mut [u8],
    buffer: &mut [u8],
) -> Result<Fed, FeedRefused>
    ensures { fed_with u result body.new text.new image.new buffer.new
        ≡ feed_of (unit_of u body.old text.old) bytes.now image.old buffer.old }
{
    feeding::feed_answer(image, buffer)?;
    let heard = frames::receive(u.progress, body, u.number, bytes);
    let Frame::Nothing = heard.frame else {
        return Ok(feeding::feed_frame(u, heard, body, text, image, buffer));
    };
    Ok(feeding::feed_nothing(u, heard))
}

// One turn: the report counted, then a wait served or a command taken. A refused turn leaves the unit and the text as they were.
pub fn turn(
    u: Record,
    text: &mut [u8; TEXT_BYTES],
    sample: u8,
    ms: u32,
    steps: u32,
    image: &[u8],
) -> Result<Turned, TurnRefused>
    ensures { TurnedIs u text.old sample ms steps image.now result text.new }
{
    let t = turning::turn_core(u.core, sample, ms, steps, text, image)?;
    turning::enter_text(text, t.enter, image);
    Ok(Turned {
        unit: Record { core: t.core, ..u },
        action: turns::answer_action(t.core.settings.turned, t.core.motor.last),
    })
}
