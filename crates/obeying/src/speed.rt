// The endless speed set on the way: a body of exactly `V`, its operand and `R`.
ghost use Rattle.std.specs.Prelude.{◌≡◌};
ghost use Rattle.digits.specs.Operand.{operand_at};
ghost use Rattle.obeying.specs.Speed.{operand_end, number_in, speed_line, speed_in};

use digits::Operand;

// Whether a body is such a line, its operand missing or out of range too.
pub(crate) fn is_speed_line(body: &[u8]) -> bool
    ensures { result ≡ speed_line body.now }
{
    match body {
        [b'V', .., b'R'] => operand_end(digits::read_operand(body, 1)) == body.len() - 1,
        _ => false,
    }
}

// The place behind the operand; without one, that behind the letter.
fn operand_end(operand: Operand) -> usize
    ensures { result ≡ operand_end operand }
{
    match operand {
        Operand::Missing => 1,
        Operand::Number(_, next) | Operand::Above(next) => next,
    }
}

// The number behind the letter.
pub(crate) fn speed_in(body: &[u8]) -> u32
    ensures { result ≡ speed_in body.now }
{
    number_in(digits::read_operand(body, 1))
}

// The number that an operand is; 0 where it is none.
fn number_in(operand: Operand) -> u32
    ensures { result ≡ number_in operand }
{
    match operand {
        Operand::Number(n, _) => n,
        Operand::Missing | Operand::Above(_) => 0,
    }
}
