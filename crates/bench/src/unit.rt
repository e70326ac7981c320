// The operations on the unit, and what they answer.
use crate::forms::OnUnit;
use crate::state::Bench;
use crate::telling::{Answer, say, tell};
use crate::{calls, course};
use drive::{Fed, FeedRefused, Record, StartRefused, TurnRefused};
use std::io;
use turns::{Action, Direction};

// Does an operation with the bytes that it gives, and tells its answer; where there is no unit, that.
pub(crate) fn perform(
    rt: &impl Print,
    b: &mut Bench<'_>,
    operation: OnUnit,
    given: &[u8],
) -> io::Result<()> {
    let Some(u) = b.unit else {
        return say(rt, b"no unit");
    };
    match operation {
        OnUnit::Feed => match feed(b, u, given) {
            Ok(f) => tell_fed(rt, f, b.buffer.as_slice()),
            Err(refused) => tell_unfed(rt, refused),
        },
        OnUnit::Talk => match feed(b, u, given) {
            Ok(f) => tell_packet(rt, parts::first(b.buffer.as_slice(), f.answered)),
            Err(refused) => tell_unfed(rt, refused),
        },
        OnUnit::Turn { sample, ms, steps } => turn(rt, b, u, sample, ms, steps),
        OnUnit::Run(c) => course::run(rt, b, u, c),
        OnUnit::Tell => tell_unit(rt, u, &*b.text),
    }
}

// `start N`; a refused one leaves the unit as it was.
pub(crate) fn start(rt: &impl Print, b: &mut Bench<'_>, number: u8) -> io::Result<()> {
    match drive::start(number, b.image.as_slice(), &mut *b.body, &mut *b.text) {
        Ok(u) => {
            b.unit = Some(u);
            say(rt, b"started")
        }
        Err(StartRefused::UnitNumber) => say(rt, b"refused unit-number"),
        Err(StartRefused::ImageLength) => say(rt, b"refused image-length"),
        Err(StartRefused::ImageBad) => say(rt, b"refused image-bad"),
    }
}

// Feeds bytes in one call.
fn feed(b: &mut Bench<'_>, u: Record, bytes: &[u8]) -> Result<Fed, FeedRefused> {
    let image = b.image.as_mut_slice();
    let buffer = b.buffer.as_mut_slice();
    let fed = drive::feed(u, &mut *b.body, &mut *b.text, bytes, image, buffer)?;
    b.unit = Some(fed.unit);
    Ok(fed)
}

// How many bytes were consumed, and the answer.
fn tell_fed(rt: &impl Print, fed: Fed, buffer: &[u8]) -> io::Result<()> {
    let answered = parts::first(buffer, fed.answered);
    tell(rt, b"fed # *", &[fed.consumed as u64], answered)
}

// Why nothing is fed.
fn tell_unfed(rt: &impl Print, refused: FeedRefused) -> io::Result<()> {
    match refused {
        FeedRefused::BufferShort => say(rt, b"refused buffer"),
        FeedRefused::ImageLength => say(rt, b"refused image-length"),
    }
}

// An answer as text; `-` where none came.
fn tell_packet(rt: &impl Print, answered: &[u8]) -> io::Result<()> {
    let Some(p) = calls::read_either(answered) else {
        return say(rt, b"-");
    };
    let data = parts::part(answered, p.at, p.length);
    let form = match (p.idle, data.is_empty()) {
        (true, true) => b"idle #".as_slice(),
        (true, false) => b"idle # $",
        (false, true) => b"busy #",
        (false, false) => b"busy # $",
    };
    tell(rt, form, &[u64::from(p.code)], data)
}

// `turn SAMPLE MS STEPS`
fn turn(
    rt: &impl Print,
    b: &mut Bench<'_>,
    u: Record,
    sample: u8,
    ms: u32,
    steps: u32,
) -> io::Result<()> {
    match drive::turn(u, &mut *b.text, sample, ms, steps, b.image.as_slice()) {
        Ok(turned) => {
            b.unit = Some(turned.unit);
            tell_action(rt, turned.action)
        }
        Err(TurnRefused::ImageLength) => say(rt, b"refused image-length"),
        Err(TurnRefused::Sample) => say(rt, b"refused sample"),
        Err(TurnRefused::Steps) => say(rt, b"refused steps"),
    }
}

// What the motor is to do.
fn tell_action(rt: &impl Print, action: Action) -> io::Result<()> {
    tell(
        rt,
        words_of(action.direction),
        &[u64::from(action.number)],
        b"",
    )
}

// The words of an action with a direction.
pub(crate) fn words_of(direction: Direction) -> &'static [u8] {
    match direction {
        Direction::Still => b"act none",
        Direction::Up => b"act up #",
        Direction::Down => b"act down #",
    }
}

// `unit`: the record by names, and the current text.
fn tell_unit(rt: &impl Print, u: Record, text: &[u8]) -> io::Result<()> {
    let c = u.core;
    let s = c.settings;
    let numbers = [
        u64::from(c.code),
        u64::from(c.motor.position),
        u64::from(c.motor.known),
        u64::from(s.speed),
        u64::from(s.acceleration),
        step_size(s.exponent),
        u64::from(s.correction),
        u64::from(s.moving),
        u64::from(s.holding),
        u64::from(s.flag),
        u64::from(s.turned),
        u64::from(s.outputs),
        u64::from(s.baud),
        u64::from(c.motor.sample),
    ];
    let mut a = Answer::new();
    a.add_text(if c.running {
        b"unit running"
    } else {
        b"unit idle"
    });
    let form =
        b" code=# position=# known=# V=# L=# j=# o=# m=# h=# f=# F=# J=# baud=# sample=# last=";
    a.add(form, &numbers, b"");
    match u.last {
        None => a.add_text(b"-"),
        Some(n) => a.add(b"#", &[u64::from(n)], b""),
    }
    let text = parts::first(text, c.flow.length);
    a.add(b" speed=# text=*", &[u64::from(c.endless)], text);
    a.tell(rt)
}

// 2 to the kept exponent of `j`, as `?6` tells it.
fn step_size(exponent: u32) -> u64 {
    1 << exponent.min(8)
}
