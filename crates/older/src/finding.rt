// What stands at a place of a text, and what a command becomes on the other drive.
ghost use Rattle.std.specs.Prelude.{◌≡◌, true, cond, ◌&&◌, leb, ◌≤◌};
ghost use Rattle.digits.specs.Operand.{operand_at};
ghost use Rattle.commands.specs.Writing.{in_range};
ghost use Rattle.older.specs.Older.{both_have, sets_ramp, older_takes, becomes};
ghost use Rattle.older.specs.Items.{stand_in, past_operand, stands_at};
ghost use Rattle.older.specs.Pass.{carried_of};

use crate::{Stands, Way};
use commands::{Act, Command, Read, Setting};
use digits::Operand;

// What stands at a place of a text.
pub(crate) fn stands_at(way: Way, text: &[u8], at: usize) -> Stands
    ensures { result ≡ stands_at way text.now at }
{
    // By an index: an Option of a reference lies otherwise on a chip, where `chip/pointer-places` refuses it.
    if text.len() <= at {
        return Stands::Ends;
    }
    let letter = text[at];
    if !both_have(letter) {
        return Stands::Lacks;
    }
    match commands::read_command(text, at) {
        Read::At(c, next) => carries(way, letter, c, next),
        Read::Bad(_, _) => Stands::Unfit(stand_in(letter), past_operand(text, at + 1)),
        Read::End => Stands::Ends,
    }
}

// A command that was read, as the other drive has it.
fn carries(way: Way, letter: u8, c: Command, next: usize) -> Stands
    requires { in_range c ≡ true }
    ensures { result ≡ cond (older_takes way c) (Stands.Carries (becomes way c) next) (Stands.Unfit (stand_in letter) next) }
{
    match carry(way, c) {
        Some(d) => Stands::Carries(d, next),
        None => Stands::Unfit(stand_in(letter), next),
    }
}

// Whether both drives have a letter.
#[tactic(auto, unfolding(crate::specs::Older::both_have, crate::specs::Older::older_asks, crate::specs::Older::older_in, crate::specs::Older::older_table, commands::specs::Table::one_of, commands::specs::Table::asks_of, commands::specs::Table::find, commands::specs::Table::table))]
fn both_have(letter: u8) -> bool
    ensures { result ≡ both_have letter }
{
    matches!(
        letter,
        b'A' | b'P'
            | b'D'
            | b'z'
            | b'Z'
            | b'V'
            | b'L'
            | b'f'
            | b'm'
            | b'h'
            | b'j'
            | b'o'
            | b'J'
            | b'M'
            | b'g'
            | b'G'
            | b'H'
            | b'S'
            | b'e'
    )
}

// What a bad command is for the structure: a loop's end or a skip still, else neither.
fn stand_in(letter: u8) -> Command
    ensures { result ≡ stand_in letter }
{
    match letter {
        b'G' => Command::LoopEnd(0),
        b'S' => Command::Skip(0),
        _ => Command::Jump(0),
    }
}

// The place behind the digits at a place.
fn past_operand(text: &[u8], at: usize) -> usize
    ensures { result ≡ past_operand at (operand_at text.now at) }
{
    match digits::read_operand(text, at) {
        Operand::Missing => at,
        Operand::Number(_, next) | Operand::Above(next) => next,
    }
}

// A command in our range, as the other drive has it, or None: settings alone differ.
fn carry(way: Way, c: Command) -> Option<Command>
    requires { in_range c ≡ true }
    ensures { result ≡ carried_of way c }
{
    match c {
        Command::Plain(Act::Set(which, n)) => carry_setting(way, which, n),
        _ => Some(c),
    }
}

// A setting: the older drive has other speeds and no step size of 1; no correction is in both ranges; it has no `F` and no `b`.
#[tactic(auto, unfolding(crate::specs::Older::older_in_range, crate::specs::Older::older_asks, crate::specs::Older::older_in, crate::specs::Older::older_table, crate::specs::Older::sets_ramp, commands::specs::Table::one_of, commands::specs::Table::within, crate::specs::Older::becomes, commands::specs::Writing::in_range, commands::specs::Table::asks_of, commands::specs::Table::find, commands::specs::Table::table))]
fn carry_setting(way: Way, which: Setting, n: u32) -> Option<Command>
    requires { in_range (Command.Plain (Act.Set which n)) ≡ true }
    ensures { result ≡ carried_of way (Command.Plain (Act.Set which n)) }
{
    match which {
        Setting::TopSpeed => carry_from(which, n, 50, 10000, n),
        Setting::Acceleration => carry_ramp(way, n),
        Setting::StepSize => carry_from(which, n, 2, 256, n),
        Setting::FlagLevel | Setting::MoveCurrent | Setting::HoldCurrent | Setting::Outputs => {
            fit(which, n)
        }
        Setting::Turned | Setting::Correction | Setting::Baud => None,
    }
}

// The acceleration: 12207 of our units are 15000 of the older drive's.
#[tactic(auto, unfolding(crate::specs::Older::older_in_range, crate::specs::Older::older_asks, crate::specs::Older::older_in, crate::specs::Older::older_table, crate::specs::Older::sets_ramp, commands::specs::Table::one_of, commands::specs::Table::within, crate::specs::Older::becomes))]
fn carry_ramp(way: Way, n: u32) -> Option<Command>
    requires { n ≤ 65000 }
    ensures { result ≡ carried_of way (Command.Plain (Act.Set Setting.Acceleration n)) }
{
    match way {
        Way::Inward => carry_from(Setting::Acceleration, n, 1, 20, 15000 * n / 12207),
        Way::Outward => {
            let x = 12207 * n / 15000;
            carry_from(Setting::Acceleration, x, 1, 20, x)
        }
    }
}

// A setting to n, where the older drive's number lies between two others.
fn carry_from(which: Setting, older: u32, least: u32, most: u32, n: u32) -> Option<Command>
    ensures { result ≡ cond (leb least older && leb older most) (Some (Command.Plain (Act.Set which n))) None }
{
    if least <= older && older <= most {
        fit(which, n)
    } else {
        None
    }
}

// A setting to n.
fn fit(which: Setting, n: u32) -> Option<Command>
    ensures { result ≡ Some (Command.Plain (Act.Set which n)) }
{
    Some(Command::Plain(Act::Set(which, n)))
}

// Whether a command sets the acceleration.
#[tactic(auto, unfolding(crate::specs::Older::sets_ramp))]
pub(crate) fn is_ramp(c: Command) -> bool
    ensures { result ≡ sets_ramp c }
{
    matches!(c, Command::Plain(Act::Set(Setting::Acceleration, _)))
}
