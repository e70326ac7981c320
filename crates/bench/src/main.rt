// The tester's program: operations on standard input, one a line, and a line of answer for each.
#![tactic(auto)]

mod bytes;
mod calls;
mod course;
mod fields;
mod forms;
mod giving;
mod heard;
mod input;
mod list;
mod state;
mod telling;
mod unit;

use bytes::Bytes;
use forms::Task;
use giving::GIVEN_MOST;
use input::Reader;
use state::Bench;
use std::io;

// Answers every line of the input. Nothing says that the input ends: the loop counts its turns, up to a number that no run reaches.
fn main(rt: HostRuntime) -> io::Result<()> {
    let mut stdin = rt.stdin();
    let mut reader = Reader::new();
    let mut line = Bytes::new();
    let mut given = Bytes::new();
    let mut image = Bytes::new();
    let mut buffer = Bytes::new();
    let mut body = [0; state::BODY_BYTES];
    let mut text = [0; state::TEXT_BYTES];
    let mut bench = Bench {
        unit: None,
        image: &mut image,
        buffer: &mut buffer,
        body: &mut body,
        text: &mut text,
    };
    bench.begin();
    for _ in 0..u64::MAX {
        let Some(bytes) = reader.next_line(&mut stdin, &mut line) else {
            return Ok(());
        };
        serve_line(&rt, &mut bench, bytes, &mut given)?;
    }
    Ok(())
}

// Answers a line; the bytes that it gives are made in a buffer.
fn serve_line(
    rt: &impl Print,
    b: &mut Bench<'_>,
    line: &[u8],
    given: &mut Bytes<GIVEN_MOST>,
) -> io::Result<()> {
    let (task, f) = forms::read(line);
    match task {
        Ok(task) => {
            giving::give(f.field, f.form, b.unit.map_or(0, |u| u.number), given);
            serve(rt, b, task, given.as_slice())
        }
        Err(fault) => telling::tell_fault(rt, fault, f.name),
    }
}

// Does what a line asks for, with the bytes that it gives, and tells the answer.
fn serve(rt: &impl Print, b: &mut Bench<'_>, task: Task, given: &[u8]) -> io::Result<()> {
    match task {
        Task::Image => {
            b.lend_image(given);
            tell_length(rt, b"image #", b.image.as_slice())
        }
        Task::Empty => {
            b.lend_empty();
            tell_length(rt, b"image #", b.image.as_slice())
        }
        Task::Room(n) => {
            b.lend_room(n);
            tell_length(rt, b"room #", b.buffer.as_slice())
        }
        Task::Buffer => telling::tell(rt, b"buffer *", &[], b.buffer.as_slice()),
        Task::Store => telling::tell(rt, b"store *", &[], b.image.as_slice()),
        Task::Start(number) => unit::start(rt, b, number),
        Task::Write { slot, run } => calls::write(rt, slot, run, given, b.buffer.as_mut_slice()),
        Task::OnUnit(operation) => unit::perform(rt, b, operation, given),
        Task::Call(call) => calls::ask(rt, call, given),
        Task::Help => telling::tell(rt, b"$", &[], forms::table()),
    }
}

// Tells how many bytes are lent.
fn tell_length(rt: &impl Print, form: &[u8], lent: &[u8]) -> io::Result<()> {
    telling::tell(rt, form, &[lent.len() as u64], b"")
}
