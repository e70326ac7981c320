// A plain command: a move, a setting, a wait.
ghost use Rattle.std.specs.Prelude.{◌≡◌};
ghost use Rattle.turns.specs.Turns.{moved, speed_after, relative_moved, acted};

use crate::{Core, setting};
use commands::Act;
use motor::{Motor, Stop};

// A plain command, behind which the flow stands already.
pub(crate) fn act(c: Core, a: Act) -> Core
    ensures { result ≡ acted a c }
{
    match a {
        Act::MoveTo(n) => move_on(c, motor::move_to(c.motor, n)),
        Act::MoveUp(n) => move_on_by(c, n, motor::move_by(c.motor, true, n)),
        Act::MoveDown(n) => move_on_by(c, n, motor::move_by(c.motor, false, n)),
        Act::SetPosition(n) => crate::set_motor(c, motor::place_at(c.motor, n)),
        Act::Home(n) => crate::set_motor(c, motor::home(c.motor, c.settings.flag, n)),
        Act::Set(which, n) => crate::set_settings(c, setting::set(c.settings, which, n)),
        Act::Delay(n) => crate::set_motor(c, motor::delay(c.motor, n)),
        Act::WaitInput(n) => crate::set_motor(c, motor::hold(c.motor, n)),
    }
}

// The motor goes on, or the run stops.
pub(crate) fn move_on(c: Core, m: Result<Motor, Stop>) -> Core
    ensures { result ≡ moved m c }
{
    match m {
        Ok(motor) => crate::set_motor(c, motor),
        Err(stop) => crate::end_run(c, motor::code(stop)),
    }
}

// The same for P and D: an endless move that is taken has its speed from V.
fn move_on_by(c: Core, n: u32, m: Result<Motor, Stop>) -> Core
    ensures { result ≡ relative_moved n m c }
{
    let mut d = move_on(c, m);
    d.endless = speed_after(c, n, m);
    d
}

// The endless speed after P or D.
fn speed_after(c: Core, n: u32, m: Result<Motor, Stop>) -> u32
    ensures { result ≡ speed_after n m c }
{
    if n == 0 && m.is_ok() {
        c.settings.speed
    } else {
        c.endless
    }
}
