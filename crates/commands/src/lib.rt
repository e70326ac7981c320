// The commands of a line: one read at a place, one written.
#![tactic(auto)]

mod fitting;
mod table;
mod writing;

ghost use Rattle.std.specs.Prelude.{◌≡◌};
ghost use Rattle.digits.specs.Decimal.{WrittenIs};
ghost use Rattle.commands.specs.Table.{named_of, exponent_of};
ghost use Rattle.commands.specs.Reading.{read_by, read_at};
ghost use Rattle.commands.specs.Writing.{spelled};
ghost use Rattle.commands.specs.Claims.{CommandClaims};

// The code of a letter that is unknown or misplaced.
pub const MALFORMED: u8 = 2;

// The code of an operand that is missing or out of range.
pub const OUT_OF_RANGE: u8 = 3;

// A command with its operand as typed.
#[derive(Clone, Copy)]
pub enum Command {
    LoopBegin,
    LoopEnd(u32),
    Skip(u32),
    Jump(u32),
    Plain(Act),
}

// A command that steers no loop and no text.
#[derive(Clone, Copy)]
pub enum Act {
    MoveTo(u32),
    MoveUp(u32),
    MoveDown(u32),
    SetPosition(u32),
    Home(u32),
    Set(Setting, u32),
    Delay(u32),
    WaitInput(u32),
}

// What a command sets: a variant each, its letter and range in `table.rt`.
#[derive(Clone, Copy, PartialEq, Eq)]
pub enum Setting {
    TopSpeed,
    Acceleration,
    FlagLevel,
    Turned,
    MoveCurrent,
    HoldCurrent,
    StepSize,
    Correction,
    Outputs,
    Baud,
}

// Why a line is refused, 2 or 3, and where: counting bytes from 1, 0 for no place. Numbers, since they are 01's, which answers carry:
// `line_code_lem` and the K table speak of them.
#[derive(Clone, Copy, PartialEq, Eq)]
pub struct Fault {
    pub code: u8,
    pub place: usize,
}

#[derive(Clone, Copy)]
pub enum Read {
    // A command, and the place past it.
    At(Command, usize),
    // The code of a fault and its place, apart: a fault would share a word with a command, and be copied by bytes.
    Bad(u8, usize),
    End,
}

// Which numbers an operand may be.
#[derive(Clone, Copy)]
pub enum Range {
    // From the first to the second.
    From(u32, u32),
    // One bit set, at most 256.
    OneBit,
    // 9600, 19200, 38400.
    Rate,
    // Two digits, level then input.
    Input,
}

// What a letter asks of its operand.
#[derive(Clone, Copy)]
pub enum Asks {
    // It is no command's letter.
    Unknown,
    // No operand.
    Nothing,
    Required(Range),
    // None means the number.
    OrElse(Range, u32),
}

// A letter's row: what it asks, and its command before the number is known.
#[derive(Clone, Copy)]
struct Lettered {
    asks: Asks,
    command: Command,
}

// How a command is written: its letter, and its operand.
#[derive(Clone, Copy)]
pub enum Spelling {
    Alone(u8),
    WithNumber(u8, u32),
    // At least two digits.
    WithTwoDigits(u8, u32),
}

// What stands at a place of s.
pub fn read_command(s: &[u8], at: usize) -> Read
    ensures { result ≡ read_at s.now at }
{
    read_by(s, at, digits::OPERAND_MOST)
}

// The same where an operand has so many digits at most.
pub fn read_by(s: &[u8], at: usize, most: usize) -> Read
    ensures { result ≡ read_by most s.now at }
{
    // By an index: an Option of a reference lies otherwise on a chip, where `chip/pointer-places` refuses it.
    if s.len() <= at {
        return Read::End;
    }
    let Lettered { asks, command } = table::row_of(s[at]);
    match fitting::fit_at(asks, s, at + 1, most) {
        Ok((n, next)) => Read::At(fitting::numbered(command, n), next),
        Err(code) => Read::Bad(code, at + 1),
    }
}

// The command of a letter with any number, in its range or not; None where the letter has none.
#[tactic(auto, unfolding(crate::specs::Table::named_of))]
pub fn command_of(letter: u8, n: u32) -> Option<Command>
    ensures { result ≡ named_of letter n }
{
    let Lettered { asks, command } = table::row_of(letter);
    match asks {
        Asks::Unknown => None,
        _ => Some(fitting::numbered(command, n)),
    }
}

// Writes a command as the host does, from a place of the buffer; the place past it, or None where there is no room.
#[tactic(auto, unfolding(crate::specs::Writing::spelled))]
pub fn write_command(buffer: &mut [u8], at: usize, c: Command) -> Option<usize>
    ensures { WrittenIs buffer.old at (spelled c) result buffer.new }
{
    match writing::command_spelling(c) {
        Spelling::Alone(letter) => digits::write_byte(buffer, at, letter),
        Spelling::WithNumber(letter, n) => writing::write_number(buffer, at, letter, n),
        Spelling::WithTwoDigits(letter, n) => writing::write_two_digits(buffer, at, letter, n),
    }
}

// The exponent of a number with exactly one bit set, at most 256; None of another.
pub fn exponent_of(n: u32) -> Option<u32>
    ensures { result ≡ exponent_of n }
{
    if n <= 256 && n.count_ones() == 1 {
        Some(n.trailing_zeros())
    } else {
        None
    }
}

// What is claimed of commands.
pub fn command_claims()
    ensures { CommandClaims }
{}
