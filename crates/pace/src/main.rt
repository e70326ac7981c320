// What feed and turn cost: a stream of bytes, or a turn, again and again, and a digest of all that was answered. Unit 1 on the
// empty image. The first line of standard input is `feed MOST TIMES`, `asks MOST TIMES` (the same, from a position of ten digits)
// or `turn STEPS TIMES`; the bytes behind it are the stream.
#![tactic(auto)]

ghost use Rattle.std.specs.Prelude.{◌≤◌, length};

use digits::Operand;
use drive::{Record, Turned};
use std::io;
use std::io::Read;
use turns::{Action, Direction};

// The most bytes that are read; what follows them is left.
const INPUT_BYTES: usize = 4096;

const IMAGE_BYTES: usize = 4160;

const BUFFER_BYTES: usize = 262;

// The texts that a unit is lent.
const BODY_BYTES: usize = 257;

const TEXT_BYTES: usize = 256;

// Where the status of an answer stands.
const STATUS_AT: usize = 2;

// `feed `, `asks ` and `turn ` have so many bytes.
const WORD_BYTES: usize = 5;

// A position of ten digits.
const FAR: u32 = 2147483647;

#[derive(Clone, Copy, PartialEq, Eq)]
enum Call {
    Feed,
    Asks,
    Turn,
}

// What the first line asks for: which call, with what, how often; and the stream.
#[derive(Clone, Copy)]
struct Task<'a> {
    call: Call,
    number: u32,
    times: u32,
    stream: &'a [u8],
}

// A unit, and the digest of what it has answered: kept apart from what is lent, so that it stays in registers.
#[derive(Clone, Copy)]
struct Paced {
    unit: Record,
    sum: u32,
}

// What the calls are lent.
#[derive(Drop)]
struct Lent {
    body: [u8; BODY_BYTES],
    text: [u8; TEXT_BYTES],
    image: [u8; IMAGE_BYTES],
    buffer: [u8; BUFFER_BYTES],
}

// Tells the digest of what standard input asks for; 0 where it cannot be read.
fn main(rt: HostRuntime) -> io::Result<()> {
    let mut input = [0u8; INPUT_BYTES];
    let n = read_full(&mut rt.stdin(), &mut input);
    let sum = task_of(&input[..n]).map_or(0, |task| run(task));
    println!(rt; "{sum}")
}

// Reads until the bytes are full, the input ends or a read fails: how many were read.
fn read_full(input: &mut impl Read, bytes: &mut [u8]) -> usize
    ensures { result ≤ length bytes.new }
{
    let mut done = 0;
    while done < bytes.len() {
        let n = input.read(&mut bytes[done..]).unwrap_or(0);
        if n == 0 {
            break;
        }
        done += n;
    }
    done
}

// What the first line asks for.
fn task_of(input: &[u8]) -> Option<Task<'_>> {
    let call = match input.first()? {
        b't' => Call::Turn,
        b'a' => Call::Asks,
        _ => Call::Feed,
    };
    let Operand::Number(number, next) = digits::read_operand(input, WORD_BYTES) else {
        return None;
    };
    let Operand::Number(times, end) = digits::read_operand(input, next.saturating_add(1)) else {
        return None;
    };
    let stream = input.get(end.saturating_add(1)..)?;
    Some(Task {
        call,
        number,
        times,
        stream,
    })
}

// The digest of a task. Before turns the stream is fed once, in one call.
fn run(task: Task<'_>) -> u32 {
    let mut lent = Lent::new();
    let mut p = begin(&mut lent);
    match task.call {
        Call::Feed => feed_times(p, task, &mut lent),
        Call::Asks => {
            p.unit.core.motor.position = FAR;
            feed_times(p, task, &mut lent)
        }
        Call::Turn => {
            let fed = feed_stream(p, task.stream, task.stream.len(), &mut lent);
            turn_times(fed, task.number, task.times, &mut lent)
        }
    }
}

impl Lent {
    // The empty image, and nothing in the others.
    fn new() -> Lent {
        let mut image = [0u8; IMAGE_BYTES];
        image::clear(&mut image);
        Lent {
            body: [0; BODY_BYTES],
            text: [0; TEXT_BYTES],
            image,
            buffer: [0; BUFFER_BYTES],
        }
    }
}

// Unit 1 as it is started, and an empty digest.
fn begin(lent: &mut Lent) -> Paced {
    let started = drive::start(1, &lent.image, &mut lent.body, &mut lent.text);
    Paced {
        unit: started.unwrap_or(drive::no_unit()),
        sum: 0,
    }
}

// The stream fed again and again.
fn feed_times(p: Paced, task: Task<'_>, lent: &mut Lent) -> u32 {
    let mut now = p;
    for _ in 0..task.times {
        now = feed_stream(now, task.stream, task.number as usize, lent);
    }
    now.sum
}

// The stream fed once, in calls of at most so many bytes, up to where nothing is consumed.
fn feed_stream(p: Paced, stream: &[u8], most: usize, lent: &mut Lent) -> Paced {
    let mut u = p.unit;
    let mut sum = p.sum;
    let mut left = stream;
    while !left.is_empty() {
        let bytes = &left[..most.min(left.len())];
        let image = &mut lent.image;
        let Ok(f) = drive::feed(
            u,
            &mut lent.body,
            &mut lent.text,
            bytes,
            image,
            &mut lent.buffer,
        ) else {
            break;
        };
        u = f.unit;
        sum = add_fed(sum, f.answered, f.consumed, lent.buffer[STATUS_AT]);
        if f.consumed == 0 {
            break;
        }
        left = &left[f.consumed.min(left.len())..];
    }
    Paced { unit: u, sum }
}

// The digest with the length and the status of an answer, where there is one, and with what was consumed.
fn add_fed(sum: u32, answered: usize, consumed: usize, status: u8) -> u32 {
    let more = add(sum, consumed);
    if answered == 0 {
        return more;
    }
    add(more, answered).wrapping_add(u32::from(status))
}

// The digest with a count.
fn add(sum: u32, n: usize) -> u32 {
    sum.wrapping_add((n & 0xffff_ffff) as u32)
}

// A turn again and again: at most so many of the steps that the action before allowed are reported. The digest, with the position.
fn turn_times(p: Paced, steps: u32, times: u32, lent: &mut Lent) -> u32 {
    let mut u = p.unit;
    let mut sum = p.sum;
    let mut number = 0;
    for i in 0..times {
        let sample = (i % 16) as u8;
        let reported = steps.min(number);
        let Ok(Turned { unit, action }) = drive::turn(
            u,
            &mut lent.text,
            sample,
            1,
            reported,
            &lent.image,
        ) else {
            break;
        };
        u = unit;
        number = action.number;
        sum = sum.wrapping_add(code_of(action));
    }
    sum.wrapping_add(u.core.motor.position)
}

// An action as a number.
fn code_of(action: Action) -> u32 {
    match action.direction {
        Direction::Up => action.number,
        Direction::Down => action.number.wrapping_add(1),
        Direction::Still => 7,
    }
}
