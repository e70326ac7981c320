// One turn of a unit: one wait served, or one command taken.
#![tactic(auto)]

mod acting;
mod setting;
mod taking;

ghost use Rattle.std.specs.Prelude.{◌≡◌};
ghost use Rattle.turns.specs.Turns.{with_flow, with_motor, with_settings, fresh_core, started, ended, running, step_of, settled, turn_core, direction_of, action_answered};

use flow::Flow;
use motor::{Last, Motor};
use setting::Settings;

// A unit's record but for its number, its receiver and its text.
#[derive(Clone, Copy)]
pub struct Core {
    pub running: bool,
    // A line was loaded and has not been run.
    pub loaded: bool,
    // The held code.
    pub code: u8,
    // The speed of the endless move that is on, or of the last one; 0 before the first.
    pub endless: u32,
    pub settings: Settings,
    pub motor: Motor,
    pub flow: Flow,
}

// The core after a turn, and the slot whose text becomes the current one, if any.
#[derive(Clone, Copy)]
pub struct Stepped {
    pub core: Core,
    pub enter: Option<u32>,
}

#[derive(Clone, Copy, PartialEq, Eq)]
pub enum Direction {
    Up,
    Down,
    Still,
}

// What the motor is to do: a direction and the greatest number of microsteps.
#[derive(Clone, Copy)]
pub struct Action {
    pub direction: Direction,
    pub number: u32,
}

// The core of a fresh unit.
pub fn fresh_core() -> Core
    ensures { result ≡ fresh_core }
{
    Core {
        flow: flow::begin(0),
        motor: motor::fresh_motor(),
        settings: setting::default_settings(),
        running: false,
        loaded: false,
        code: 0,
        endless: 0,
    }
}

// A run starts on a text of so many bytes.
pub fn start_run(mut c: Core, length: usize) -> Core
    ensures { result ≡ started length c }
{
    c.flow = flow::begin(length);
    c.running = true;
    c.loaded = false;
    c.code = 0;
    c
}

// A run ends with a held code.
pub fn end_run(mut c: Core, code: u8) -> Core
    ensures { result ≡ ended code c }
{
    c.motor = motor::stop(c.motor);
    c.running = false;
    c.code = code;
    c
}

pub(crate) fn set_flow(mut c: Core, f: Flow) -> Core
    ensures { result ≡ with_flow f c }
{
    c.flow = f;
    c
}

pub(crate) fn set_settings(mut c: Core, s: Settings) -> Core
    ensures { result ≡ with_settings s c }
{
    c.settings = s;
    c
}

pub(crate) fn set_motor(mut c: Core, m: Motor) -> Core
    ensures { result ≡ with_motor m c }
{
    c.motor = m;
    c
}

// One wait served, or one command taken.
fn run_on(c: Core, before: u8, ms: u32, steps: u32, text: &[u8], image: &[u8]) -> Stepped
    ensures { result ≡ running before ms steps text.now image.now c }
{
    if motor::is_free(c.motor.wait) {
        return taking::take_next(c, text, image);
    }
    taking::stay(acting::move_on(c, motor::serve(c.motor, before, c.settings.flag, ms, steps)))
}

// The report counted, then the wait or the command.
fn step(c: Core, sample: u8, ms: u32, steps: u32, text: &[u8], image: &[u8]) -> Stepped
    ensures { result ≡ step_of sample ms steps text.now image.now c }
{
    let d = set_motor(c, motor::report(c.motor, sample, steps));
    if c.running {
        return run_on(d, c.motor.sample, ms, steps, text, image);
    }
    taking::stay(set_motor(d, motor::resume(d.motor)))
}

// A whole turn of the core, over the current text and the image.
pub fn turn_core(c: Core, sample: u8, ms: u32, steps: u32, text: &[u8], image: &[u8]) -> Stepped
    ensures { result ≡ turn_core sample ms steps text.now image.now c }
{
    settle(step(
        c,
        sample,
        ms,
        steps,
        parts::first(text, c.flow.length),
        image,
    ))
}

// The next motor action answered, and kept as the last one.
fn settle(s: Stepped) -> Stepped
    ensures { result ≡ settled s }
{
    Stepped {
        core: set_motor(s.core, motor::answer(s.core.motor)),
        enter: s.enter,
    }
}

// The action as it is answered: turned by F1.
pub fn answer_action(f: u32, l: Last) -> Action
    ensures { result ≡ action_answered f l }
{
    if l.number == 0 {
        return Action {
            direction: Direction::Still,
            number: 0,
        };
    }
    Action {
        direction: way(l.up, f),
        number: l.number,
    }
}

// Up or down, turned by F1.
fn way(up: bool, f: u32) -> Direction
    ensures { result ≡ direction_of up f }
{
    if up == (f == 0) {
        Direction::Up
    } else {
        Direction::Down
    }
}
