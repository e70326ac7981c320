// Listening on the bus: the line's raw bytes on standard input, and at their end a line for each unit: its number, the frames that
// came to it alone, its answers, and its last status in two hex digits or `--`. 02, E10.
#![tactic(auto)]

use listening::UnitRecord;
use std::io;
use std::io::Read;

// The bytes of a read.
const CHUNK_BYTES: usize = 4096;

// Hears all of the input, in the pieces that the reads give. Nothing says that the input ends: the loop counts its turns, up to a
// number that no run reaches.
fn main(rt: HostRuntime) -> io::Result<()> {
    let mut stdin = rt.stdin();
    let mut chunk = [0u8; CHUNK_BYTES];
    let mut l = listening::fresh();
    for _ in 0..u64::MAX {
        let Ok(n) = stdin.read(&mut chunk) else {
            return eprintln!(rt; "listen: standard input cannot be read");
        };
        if n == 0 {
            return print_all(&rt, &l.table);
        }
        l = listening::listen(l, &chunk[..n]);
    }
    Ok(())
}

// A line for each unit, in rising order.
fn print_all(rt: &impl Print, table: &[UnitRecord]) -> io::Result<()> {
    for (unit, record) in (1u8..=16).zip(table) {
        print_one(rt, unit, *record)?;
    }
    Ok(())
}

// A line, and its end.
fn print_one(rt: &impl Print, unit: u8, r: UnitRecord) -> io::Result<()> {
    let l = listening::unit_line(unit, r);
    rt.write_all(parts::first(&l.bytes, l.length))?;
    rt.write_all(b"\n")
}
