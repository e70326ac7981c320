// The host's side: a line written from a list of commands.
#![tactic(auto)]

ghost use Rattle.std.specs.Prelude.{◌≤◌, length};
ghost use Rattle.lines.specs.Lists.{slot_spelled, commands_text, run_text, written_of};
ghost use Rattle.host.specs.Host.{host_list, LineIs};
ghost use Rattle.host.specs.Adding.{AddedIs, TakenIs, CheckedIs};
ghost use Rattle.host.specs.Claims.{HostClaims};

use commands::{Command, Fault};

// Why a list is not written.
#[derive(Clone, Copy, PartialEq, Eq)]
pub enum NotWritten {
    // The code that the line check gives to the line, and the place of the fault in it.
    Refused(Fault),
    // The buffer is too short.
    NoRoom,
}

// "The body has 0 to 256 bytes."
const LINE_BYTES: usize = 256;

// Writes a slot or none, commands, and R or none, as a body alone at the front of a buffer; how many bytes it has.
pub fn write_line(
    slot: Option<u32>,
    commands: &[Command],
    run: bool,
    buffer: &mut [u8],
) -> Result<usize, NotWritten>
    ensures { LineIs (host_list slot commands.now run) buffer.old result buffer.new }
{
    let mut line = [0u8; LINE_BYTES];
    let Some(n) = make_line(slot, commands, run, &mut line) else {
        return Err(NotWritten::Refused(Fault {
            code: commands::MALFORMED,
            place: 0,
        }));
    };
    write_checked(&line[..n], buffer)
}

// What is claimed of the host's lines.
pub fn host_claims()
    ensures { HostClaims }
{}

// Writes a line that the line check takes.
fn write_checked(line: &[u8], buffer: &mut [u8]) -> Result<usize, NotWritten>
    ensures { CheckedIs line.now buffer.old result buffer.new }
{
    match lines::check_line(line) {
        Ok(()) => write_taken(line, buffer),
        Err(fault) => Err(NotWritten::Refused(fault)),
    }
}

// Writes a line where the buffer has room for it.
fn write_taken(line: &[u8], buffer: &mut [u8]) -> Result<usize, NotWritten>
    ensures { TakenIs line.now buffer.old result buffer.new }
{
    digits::write_bytes(buffer, 0, line).ok_or(NotWritten::NoRoom)
}

// Makes the line from its first byte on, where it does not pass the end: more than 256 commands do, as each has a byte at least.
fn make_line(
    slot: Option<u32>,
    commands: &[Command],
    run: bool,
    line: &mut [u8; LINE_BYTES],
) -> Option<usize>
    ensures { AddedIs line.old 0 (written_of (host_list slot commands.now run)) result line.new }
{
    let start = add_slot(line, slot)?;
    let end = add_commands(line, start, commands)?;
    add_run(line, end, run)
}

// Adds s and the slot's number, or nothing.
fn add_slot(line: &mut [u8], slot: Option<u32>) -> Option<usize>
    ensures { AddedIs line.old 0 (slot_spelled slot) result line.new }
{
    let Some(n) = slot else {
        return Some(0);
    };
    let at = digits::write_byte(line, 0, b's')?;
    digits::write_number(line, at, n)
}

// Adds commands from a place on.
fn add_commands(line: &mut [u8], start: usize, commands: &[Command]) -> Option<usize>
    requires { start ≤ length line.old }
    ensures { AddedIs line.old start (commands_text commands.now) result line.new }
{
    let mut at = start;
    for c in commands {
        at = commands::write_command(line, at, *c)?;
    }
    Some(at)
}

// Adds R, or nothing.
fn add_run(line: &mut [u8], at: usize, run: bool) -> Option<usize>
    requires { at ≤ length line.old }
    ensures { AddedIs line.old at (run_text run) result line.new }
{
    if run {
        digits::write_byte(line, at, b'R')
    } else {
        Some(at)
    }
}
