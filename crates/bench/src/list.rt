// The list of `write`: commands as letters and operands.
use crate::fields;
use commands::Command;

// Reads a list, and keeps as many of its commands as there is room for: how many; none where one of them is bad.
pub(crate) fn read(list: &[u8], commands: &mut [Command]) -> Option<usize> {
    let mut n = 0;
    let mut letter = None;
    for field in list.split(|b| *b == b' ') {
        let Some(l) = letter else {
            letter = Some(field);
            continue;
        };
        let command = command(l, field)?;
        letter = None;
        if n < commands.len() {
            commands[n] = command;
            n += 1;
        }
    }
    // the last letter has its operand
    if letter.is_some() { None } else { Some(n) }
}

// The command of a letter and its operand.
fn command(letter: &[u8], operand: &[u8]) -> Option<Command> {
    let [letter] = letter else {
        return None;
    };
    commands::command_of(*letter, operand_of(*letter, operand)?)
}

// The operand of a letter: `-` of `g`, two digits of `H` and `S`.
fn operand_of(letter: u8, operand: &[u8]) -> Option<u32> {
    match letter {
        b'g' if operand == b"-".as_slice() => Some(0),
        b'g' => None,
        b'H' | b'S' if operand.len() != 2 => None,
        _ => fields::number(operand).ok(),
    }
}
