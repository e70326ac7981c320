// One command of the text taken.
ghost use Rattle.std.specs.Prelude.{◌≡◌};
ghost use Rattle.commands.specs.Reading.{read_at};
ghost use Rattle.flow.specs.Flow.{begun, gone};
ghost use Rattle.turns.specs.Turns.{stays, skip_taken, with_flow, astray, flowed, skipped, enters, jumped, command_taken, read_taken};

use crate::{Core, Stepped, acting};
use commands::{Command, Read};
use flow::Flow;

// The command that stands at the place of the flow, or the end of the run.
pub(crate) fn take_next(c: Core, text: &[u8], image: &[u8]) -> Stepped
    ensures { result ≡ read_taken (read_at text.now c.flow.at) text.now image.now c }
{
    match commands::read_command(text, c.flow.at) {
        Read::At(d, next) => take_command(c, d, next, text, image),
        Read::Bad(_, _) => stay(go_astray(c)),
        Read::End => stay(crate::end_run(c, c.code)),
    }
}

// One command of the text taken.
fn take_command(c: Core, d: Command, next: usize, text: &[u8], image: &[u8]) -> Stepped
    ensures { result ≡ command_taken d next text.now image.now c }
{
    match d {
        Command::LoopBegin => stay(flow_on(c, flow::begin_loop(c.flow, next))),
        Command::LoopEnd(n) => stay(flow_on(c, flow::end_loop(c.flow, n, next))),
        Command::Skip(digits) => stay(skip(c, digits, text, next)),
        Command::Jump(slot) => jump(c, slot, image),
        Command::Plain(a) => stay(acting::act(go_to(c, next), a)),
    }
}

// A loop's begin or end.
fn flow_on(c: Core, f: Option<Flow>) -> Core
    ensures { result ≡ flowed f c }
{
    match f {
        Some(flow) => crate::set_flow(c, flow),
        None => go_astray(c),
    }
}

// Gone on to a place.
fn go_to(c: Core, next: usize) -> Core
    ensures { result ≡ with_flow (gone next c.flow) c }
{
    crate::set_flow(c, flow::go_on(c.flow, next))
}

// What no checked text comes to.
fn go_astray(c: Core) -> Core
    ensures { result ≡ astray c }
{
    crate::end_run(c, c.code)
}

// S: the next command is skipped where the input has the level.
fn skip(c: Core, digits: u32, text: &[u8], next: usize) -> Core
    ensures { result ≡ skip_taken digits text.now next c }
{
    if motor::level_there(digits, c.motor.sample) {
        return pass(c, text, next);
    }
    go_to(c, next)
}

// Gone on past the command at a place.
fn pass(c: Core, text: &[u8], at: usize) -> Core
    ensures { result ≡ skipped (read_at text.now at) c }
{
    let Read::At(_, past) = commands::read_command(text, at) else {
        return go_astray(c);
    };
    go_to(c, past)
}

// e: the slot's text becomes the current one, or the run stops.
fn jump(c: Core, slot: u32, image: &[u8]) -> Stepped
    ensures { result ≡ jumped slot image.now c }
{
    let n = image::slot_text(image, slot).len();
    // Only a good slot has a text: it need not be judged twice.
    if 0 < n {
        return go_into(c, slot, n);
    }
    if image::slot_good(image, slot) {
        return go_into(c, slot, 0);
    }
    stay(crate::end_run(c, 1))
}

// A slot's text of so many bytes is begun.
fn go_into(c: Core, slot: u32, n: usize) -> Stepped
    ensures { result ≡ enters slot (with_flow (begun n) c) }
{
    Stepped {
        core: crate::set_flow(c, flow::begin(n)),
        enter: Some(slot),
    }
}

// No slot's text becomes the current one.
pub(crate) fn stay(c: Core) -> Stepped
    ensures { result ≡ stays c }
{
    Stepped {
        core: c,
        enter: None,
    }
}
