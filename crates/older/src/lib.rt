// Texts of the older drive read into ours, and ours written back. 02, E12.
#![tactic(auto)]

mod finding;
mod passing;
mod writing;

ghost use Rattle.older.specs.declared.Way.TheVariants.{Inward, Outward};
ghost use Rattle.older.specs.Items.{TranslatedIs};
ghost use Rattle.older.specs.Claims.{OlderClaims};

use commands::Command;
use lines::Scan;

// Which way a text goes.
#[derive(Clone, Copy)]
pub enum Way {
    // A text of the older drive into ours.
    Inward,
    // Ours, written back.
    Outward,
}

// Why a text is refused; at one place the first of these.
#[derive(Clone, Copy, PartialEq, Eq)]
pub enum Why {
    // A letter that one of the drives lacks.
    BadLetter,
    // An operand missing or outside either range.
    BadOperand,
    // A fault of structure.
    BadStructure,
    // A command past 14 inward or 25 outward.
    PastMost,
}

// Why, and the place of the first byte, counting from 1.
#[derive(Clone, Copy, PartialEq, Eq)]
pub struct Refusal {
    pub why: Why,
    pub place: usize,
}

// So many bytes at the front of the buffer, and whether a ramp was slowed.
#[derive(Clone, Copy)]
pub struct Translated {
    pub length: usize,
    pub slowed: bool,
}

// Why there is no text.
#[derive(Clone, Copy, PartialEq, Eq)]
pub enum NotTranslated {
    Refused(Refusal),
    // The buffer is too short.
    NoRoom,
}

// What stands at a place of a text.
#[derive(Clone, Copy)]
enum Stands {
    // A command as the other drive has it, and the place past it.
    Carries(Command, usize),
    // A letter that one of the drives lacks.
    Lacks,
    // A bad operand: what the command is for the structure, and the place past its digits.
    Unfit(Command, usize),
    Ends,
}

// What a text has shown so far: its structure, the leftmost letter, operand and command past the most (0 where there is none), how many
// more commands it may have, and whether a ramp was slowed.
// Places stay numbers, since `lines::left_of`, whose promise may not change, has 0 for none.
#[derive(Clone, Copy)]
struct Sight {
    scan: Scan,
    letter: usize,
    operand: usize,
    late: usize,
    left: usize,
    slowed: bool,
}

// 25 commands of a letter and ten digits.
const TEXT_MOST: usize = 275;

// Reads a text of the older drive into ours, at the front of a buffer.
pub fn into_ours(text: &[u8], buffer: &mut [u8]) -> Result<Translated, NotTranslated>
    ensures { TranslatedIs Inward text.now buffer.old result buffer.new }
{
    translate(Way::Inward, text, buffer)
}

// Writes a text of ours back for the older drive, at the front of a buffer.
pub fn for_older(text: &[u8], buffer: &mut [u8]) -> Result<Translated, NotTranslated>
    ensures { TranslatedIs Outward text.now buffer.old result buffer.new }
{
    translate(Way::Outward, text, buffer)
}

// The same, either way.
fn translate(way: Way, text: &[u8], buffer: &mut [u8]) -> Result<Translated, NotTranslated>
    ensures { TranslatedIs way text.now buffer.old result buffer.new }
{
    let slowed = passing::judge(way, text).map_err(NotTranslated::Refused)?;
    let mut line = [0u8; TEXT_MOST];
    let n = writing::write_text(way, text, &mut line).ok_or(NotTranslated::NoRoom)?;
    let length = digits::write_bytes(buffer, 0, &line[..n]).ok_or(NotTranslated::NoRoom)?;
    Ok(Translated { length, slowed })
}

// What is claimed of texts that go from one drive to the other.
pub fn older_claims()
    ensures { OlderClaims }
{}
