// The operand that a letter asks for, and the command with it.
ghost use Rattle.std.specs.Prelude.{◌≡◌, ℕ};
ghost use Rattle.commands.specs.Reading.{required, or_else, not_before, letter_at};
ghost use Rattle.commands.specs.Fitting.{fitted_read, act_numbered, numbered_as};

use crate::{Act, Asks, Command, MALFORMED, OUT_OF_RANGE, Range, table};
use digits::Operand;

// The number of a letter that asks so, with its operand from a place of s, of so many digits at most, and the place past it; or the
// code of a fault. So the command is made in one place.
#[tactic(auto, using(crate::proofs::ReadingLaws::begins_at))]
pub(crate) fn fit_at(asks: Asks, s: &[u8], at: usize, most: usize) -> Result<(u32, usize), u8>
    ensures { (l : ℕ) → fitted_read l at result ≡ letter_at most asks l s.now at }
{
    match asks {
        Asks::Unknown => Err(MALFORMED),
        Asks::Nothing => Ok((0, at)),
        Asks::Required(range) => fit_required(range, digits::read_up_to(s, at, most), at),
        Asks::OrElse(range, m) => fit_or(range, m, digits::read_up_to(s, at, most), at),
    }
}

// The number of an operand that must stand at `at`.
fn fit_required(range: Range, operand: Operand, at: usize) -> Result<(u32, usize), u8>
    requires { not_before at operand }
    ensures { (l : ℕ) → fitted_read l at result ≡ required l range operand at }
{
    let Operand::Number(n, next) = operand else {
        return Err(OUT_OF_RANGE);
    };
    if table::is_within(range, n, next - at) {
        Ok((n, next))
    } else {
        Err(OUT_OF_RANGE)
    }
}

// The same, where no operand means the number m.
fn fit_or(range: Range, m: u32, operand: Operand, at: usize) -> Result<(u32, usize), u8>
    requires { not_before at operand }
    ensures { (l : ℕ) → fitted_read l at result ≡ or_else l range m operand at }
{
    match operand {
        Operand::Missing => Ok((m, at)),
        _ => fit_required(range, operand, at),
    }
}

// A command of a row with its number.
pub(crate) fn numbered(c: Command, n: u32) -> Command
    ensures { result ≡ numbered_as n c }
{
    match c {
        Command::LoopBegin => Command::LoopBegin,
        Command::LoopEnd(_) => Command::LoopEnd(n),
        Command::Skip(_) => Command::Skip(n),
        Command::Jump(_) => Command::Jump(n),
        Command::Plain(a) => Command::Plain(act_numbered(a, n)),
    }
}

// The same of a plain command.
fn act_numbered(a: Act, n: u32) -> Act
    ensures { result ≡ act_numbered n a }
{
    match a {
        Act::MoveTo(_) => Act::MoveTo(n),
        Act::MoveUp(_) => Act::MoveUp(n),
        Act::MoveDown(_) => Act::MoveDown(n),
        Act::SetPosition(_) => Act::SetPosition(n),
        Act::Home(_) => Act::Home(n),
        Act::Set(which, _) => Act::Set(which, n),
        Act::Delay(_) => Act::Delay(n),
        Act::WaitInput(_) => Act::WaitInput(n),
    }
}
