// Turns made one after another, each reporting all its steps: `run`, and `timeline`, which tells each of them.
use crate::forms::Course;
use crate::state::Bench;
use crate::telling::{Answer, say, tell};
use crate::{state, unit};
use digits::Operand;
use drive::{Record, TurnRefused, Turned};
use motor::Wait;
use std::io;

// The most turns of one run.
const MOST_TURNS: u32 = 100_000;

// All four inputs high: the greatest sample that a turn takes.
const SAMPLE_MOST: u8 = 15;

// `run SAMPLE MS`, `timeline SAMPLE MS`; where that is refused no turn is made.
pub(crate) fn run(rt: &impl Print, b: &mut Bench<'_>, u: Record, course: Course) -> io::Result<()> {
    if !image::is_right_length(b.image.as_slice()) {
        return say(rt, b"refused image-length");
    }
    if SAMPLE_MOST < course.sample {
        return say(rt, b"refused sample");
    }
    make_turns(rt, b, u, course)
}

// Makes turns until the unit has ended or waits, and tells how many.
fn make_turns(rt: &impl Print, b: &mut Bench<'_>, u: Record, course: Course) -> io::Result<()> {
    let mut now = u;
    for n in 0..MOST_TURNS {
        if !goes_on(now, course.sample) {
            return tell_ran(rt, now, n, course.sample);
        }
        now = make_turn(rt, b, now, n, course)?;
    }
    tell_ran(rt, now, MOST_TURNS, course.sample)
}

// The turn behind n others, which reports all the steps of the last action, told where that is asked for.
fn make_turn(
    rt: &impl Print,
    b: &mut Bench<'_>,
    u: Record,
    n: u32,
    course: Course,
) -> io::Result<Record> {
    let text = copied(&*b.text);
    let Ok(turned) = turn(b, u, course) else {
        // with the image and the sample that were looked at no turn is refused
        return Ok(u);
    };
    b.unit = Some(turned.unit);
    if course.told {
        tell_turn(rt, n, u, parts::first(&text, u.core.flow.length), turned)?;
    }
    Ok(turned.unit)
}

// A text as it is now. By a call the prover knows how long it is, behind the bench it does not.
fn copied(text: &[u8; state::TEXT_BYTES]) -> [u8; state::TEXT_BYTES] {
    *text
}

fn turn(b: &mut Bench<'_>, u: Record, course: Course) -> Result<Turned, TurnRefused> {
    let steps = u.core.motor.last.number;
    let image = b.image.as_slice();
    drive::turn(u, &mut *b.text, course.sample, course.ms, steps, image)
}

// How many turns were made, and how they have ended.
fn tell_ran(rt: &impl Print, u: Record, turns: u32, sample: u8) -> io::Result<()> {
    let turns = u64::from(turns);
    if !u.core.running {
        return tell(rt, b"ran # idle #", &[turns, u64::from(u.core.code)], b"");
    }
    if goes_on(u, sample) {
        return tell(rt, b"ran # busy", &[turns], b"");
    }
    tell(rt, b"ran # waits", &[turns], b"")
}

// Whether a unit runs and waits for no input that the sample does not have.
fn goes_on(u: Record, sample: u8) -> bool {
    match u.core.motor.wait {
        Wait::Input(digits) => u.core.running && motor::level_there(digits, sample),
        _ => u.core.running,
    }
}

// The line of a turn: its number, the place in the text, the command taken, then what it leaves. Turns and places are told from 1 on.
fn tell_turn(rt: &impl Print, n: u32, u: Record, text: &[u8], turned: Turned) -> io::Result<()> {
    let at = u.core.flow.at;
    let left = turned.unit.core.motor;
    let turn = u64::from(n).saturating_add(1);
    let place = (at as u64).saturating_add(1);
    let numbers = [turn, place, u64::from(left.position)];
    let mut a = Answer::new();
    let taken = taken(u.core.motor.wait, command_at(text, at));
    a.add(b"turn #: at # $, position #", &numbers, taken);
    if !left.known {
        a.add_text(b"?");
    }
    a.add_text(b", wait ");
    add_wait(&mut a, left.wait);
    a.add_text(b", ");
    let action = turned.action;
    a.add(
        unit::words_of(action.direction),
        &[u64::from(action.number)],
        b"",
    );
    a.tell(rt)
}

// What a turn takes of a text: `-` where it serves a wait, `end` where no command is left.
fn taken<'a>(wait: Wait, command: &'a [u8]) -> &'a [u8] {
    if !matches!(wait, Wait::Nothing) {
        b"-"
    } else if command.is_empty() {
        b"end"
    } else {
        command
    }
}

// The command at a place of a text that was checked, as it was typed; nothing where none is left.
fn command_at(text: &[u8], at: usize) -> &[u8] {
    let end = command_end(text, at);
    parts::part(text, at, end.saturating_sub(at))
}

// The place past the command at a place.
fn command_end(text: &[u8], at: usize) -> usize {
    let after = at.saturating_add(1);
    if matches!(parts::part(text, at, 1), [b'g']) {
        return after;
    }
    match digits::read_operand(text, after) {
        Operand::Missing => after,
        Operand::Number(_, end) | Operand::Above(end) => end,
    }
}

// Adds what a run waits for, and what is left of it; of an input its two digits.
fn add_wait(a: &mut Answer, wait: Wait) {
    match wait {
        Wait::Nothing => a.add_text(b"none"),
        Wait::Move {
            endless: false,
            left,
            ..
        } => add_left(a, b"move #", left),
        Wait::Move {
            endless: true,
            left,
            ..
        } => add_left(a, b"endless #", left),
        Wait::LegAway { left, .. } => add_left(a, b"away #", left),
        Wait::LegToward(left) => add_left(a, b"toward #", left),
        Wait::Delay(left) => add_left(a, b"delay #", left),
        Wait::Input(digits) if digits < 10 => add_left(a, b"input 0#", digits),
        Wait::Input(digits) => add_left(a, b"input #", digits),
    }
}

fn add_left(a: &mut Answer, form: &[u8], left: u32) {
    a.add(form, &[u64::from(left)], b"");
}
