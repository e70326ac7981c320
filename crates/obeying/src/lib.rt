// What a body makes of a unit, and what is to be written: before any packet or image is. 01, "Lines" and "What comes back".
#![tactic(auto)]

mod speed;

ghost use Rattle.std.specs.Prelude.{◌≡◌, ◌≤◌, Ok};
ghost use Rattle.lines.specs.Bodies.{body_of};
ghost use Rattle.turns.specs.declared.Core.{Core};
ghost use Rattle.turns.specs.Turns.{started};
ghost use Rattle.obeying.specs.Obeying.{step_size, place_told, refused_at, refused, telling, writing, terminated, immediate_obeyed};
ghost use Rattle.obeying.specs.Obeying.{resumed, run_obeyed, again_obeyed, loaded_for, speed_obeyed, speed_or_busy, line_or_busy, body_obeyed};
ghost use Rattle.obeying.specs.Changes.{changed_by, ordered_as};
ghost use Rattle.obeying.specs.Deeds.{BodiesDo};

use commands::Fault;
use lines::{Body, Immediate, Taken};
use turns::Core;

// The data of an answer.
#[derive(Clone, Copy)]
pub enum Tell {
    Nothing,
    Number(u32),
    // The current text.
    Text,
}

// What is to be written.
#[derive(Clone, Copy)]
pub enum Write {
    Nothing,
    // The first bytes of the body, as the current text.
    Text(usize),
    // A part of the body, to a slot of the image.
    Store { slot: u32, at: usize, length: usize },
    // All slots empty.
    Clear,
}

// What a body makes of a core, what is answered, and what is to be written.
#[derive(Clone, Copy)]
pub struct Obeyed {
    pub core: Core,
    pub code: u8,
    pub tell: Tell,
    pub write: Write,
}

// What is changed of a core.
#[derive(Clone, Copy)]
enum Change {
    Stay,
    // The run ends, and the held code stays.
    Stop,
    // A wait at `H` ends.
    Resume,
    // A run starts on a text of so many bytes.
    Start(usize),
    // A text of so many bytes is loaded and held.
    Load(usize),
    // The endless speed is set.
    Speed(u32),
}

// What a body orders: the change of the core, what is answered, and what is to be written.
#[derive(Clone, Copy)]
struct Order {
    change: Change,
    // A refusal's own; without one the held code is answered.
    code: Option<u8>,
    tell: Tell,
    write: Write,
}

// Running, and not immediate nor a resuming `R`.
const BUSY: u8 = 15;

// The kept exponent of `j` is 0 to 8.
const MOST_EXPONENT: u32 = 8;

// A body obeyed or refused.
pub fn obey(c: Core, body: &[u8]) -> Obeyed
    ensures { result ≡ body_obeyed body.now c }
{
    let o = order_of(c, body);
    let d = changed(c, o.change);
    Obeyed {
        core: d,
        code: o.code.unwrap_or(d.code),
        tell: o.tell,
        write: o.write,
    }
}

// A core with a change made, in this one place.
fn changed(mut c: Core, change: Change) -> Core
    ensures { result ≡ changed_by change c }
{
    match change {
        Change::Stay => {}
        Change::Stop => {
            c.motor = motor::stop(c.motor);
            c.running = false;
        }
        Change::Resume => {
            c.motor = motor::resume(c.motor);
        }
        Change::Start(n) => {
            c.flow = flow::begin(n);
            c.running = true;
            c.loaded = false;
            c.code = 0;
        }
        Change::Load(n) => {
            c.flow = flow::begin(n);
            c.running = false;
            c.loaded = true;
        }
        Change::Speed(n) => {
            c.endless = n;
        }
    }
    c
}

// What a body orders.
fn order_of(c: Core, body: &[u8]) -> Order
    ensures { ordered_as result c ≡ body_obeyed body.now c }
{
    match lines::body_of(body) {
        Err(f) => refuse_at(f),
        Ok(Body::Empty) => hold(Change::Stay, Tell::Nothing),
        Ok(Body::Immediate(i)) => order_immediate(c, i),
        Ok(Body::Run) => order_run(c),
        Ok(Body::Again) => order_again(c),
        Ok(Body::Line) => order_line(c, body),
    }
}

// A frame refused without a place: its own code and no data.
fn refuse(code: u8) -> Order
    ensures { (c : Core) → ordered_as result c ≡ refused code c }
{
    refuse_at(Fault { code, place: 0 })
}

// A refused body: its own code, and the place of its fault.
fn refuse_at(f: Fault) -> Order
    requires { f.place ≤ 257 }
    ensures { (c : Core) → ordered_as result c ≡ refused_at f c }
{
    Order {
        change: Change::Stay,
        code: Some(f.code),
        tell: tell_place(f.place),
        write: Write::Nothing,
    }
}

// A place as data, 0 as none.
fn tell_place(place: usize) -> Tell
    requires { place ≤ 257 }
    ensures { result ≡ place_told place }
{
    if place == 0 {
        return Tell::Nothing;
    }
    Tell::Number(place as u32)
}

// All others: the held code.
fn hold(change: Change, tell: Tell) -> Order
    ensures { (c : Core) → ordered_as result c ≡ telling tell (changed_by change c) }
{
    Order {
        change,
        code: None,
        tell,
        write: Write::Nothing,
    }
}

// The held code, and something to write.
fn hold_writing(change: Change, write: Write) -> Order
    ensures { (c : Core) → ordered_as result c ≡ writing write (changed_by change c) }
{
    Order {
        change,
        code: None,
        tell: Tell::Nothing,
        write,
    }
}

// What an immediate body orders, while running too.
fn order_immediate(c: Core, i: Immediate) -> Order
    ensures { ordered_as result c ≡ immediate_obeyed i c }
{
    let tell = match i {
        Immediate::Terminate => return hold(terminate(c), Tell::Nothing),
        Immediate::Clear => return hold_writing(Change::Stay, Write::Clear),
        Immediate::Status => Tell::Nothing,
        Immediate::CurrentText => Tell::Text,
        Immediate::Position => Tell::Number(c.motor.position),
        Immediate::Speed => Tell::Number(c.settings.speed),
        Immediate::Sample => Tell::Number(u32::from(c.motor.sample)),
        Immediate::EndlessSpeed => Tell::Number(c.endless),
        Immediate::StepSize => Tell::Number(step_size(c.settings.exponent)),
        Immediate::Correction => Tell::Number(c.settings.correction),
    };
    hold(Change::Stay, tell)
}

// `T`.
fn terminate(c: Core) -> Change
    ensures { changed_by result c ≡ terminated c }
{
    if c.running {
        return Change::Stop;
    }
    Change::Stay
}

// 2 to the kept exponent of `j`.
fn step_size(exponent: u32) -> u32
    ensures { result ≡ step_size exponent }
{
    1 << exponent.min(MOST_EXPONENT)
}

// `R` alone: a wait at `H` ends, or a loaded line not yet run runs.
fn order_run(c: Core) -> Order
    ensures { ordered_as result c ≡ run_obeyed c }
{
    if c.running {
        return resume(c);
    }
    if c.loaded {
        return hold(run_text(c), Tell::Nothing);
    }
    hold(Change::Stay, Tell::Nothing)
}

// `R` while running.
fn resume(c: Core) -> Order
    ensures { ordered_as result c ≡ resumed c }
{
    if motor::waits_input(c.motor) {
        return hold(Change::Resume, Tell::Nothing);
    }
    refuse(BUSY)
}

// `X` alone.
fn order_again(c: Core) -> Order
    ensures { ordered_as result c ≡ again_obeyed c }
{
    if c.running {
        return refuse(BUSY);
    }
    hold(run_text(c), Tell::Nothing)
}

// The current text run from its beginning.
fn run_text(c: Core) -> Change
    ensures { changed_by result c ≡ started c.flow.length c }
{
    Change::Start(c.flow.length)
}

// A line or a store, where the unit is idle; where it runs, none but the endless speed.
fn order_line(c: Core, body: &[u8]) -> Order
    requires { body_of body.now ≡ Ok Body.Line }
    ensures { ordered_as result c ≡ line_or_busy body.now c }
{
    if c.running {
        return order_speed_or_busy(c, body);
    }
    match lines::line_of(body) {
        Err(f) => refuse_at(f),
        Ok(Taken::Line { length, run }) => hold_writing(load(length, run), Write::Text(length)),
        Ok(Taken::Store { slot, at, length }) => {
            hold_writing(Change::Stay, Write::Store { slot, at, length })
        }
    }
}

// A line while running.
fn order_speed_or_busy(c: Core, body: &[u8]) -> Order
    ensures { ordered_as result c ≡ speed_or_busy body.now c }
{
    if motor::is_endless(c.motor) && speed::is_speed_line(body) {
        return order_speed(body);
    }
    refuse(BUSY)
}

// The endless speed set, or the line refused.
fn order_speed(body: &[u8]) -> Order
    ensures { (c : Core) → ordered_as result c ≡ speed_obeyed body.now c }
{
    match lines::check_line(body) {
        Ok(()) => hold(Change::Speed(speed::speed_in(body)), Tell::Nothing),
        Err(fault) => refuse_at(fault),
    }
}

// A line's text at its beginning: run, or held.
fn load(length: usize, run: bool) -> Change
    ensures { (c : Core) → changed_by result c ≡ loaded_for run length c }
{
    if run {
        return Change::Start(length);
    }
    Change::Load(length)
}

// Does nothing: its promise is that a body does one of a few things.
pub fn bodies_do()
    ensures { BodiesDo }
{}
