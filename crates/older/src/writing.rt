// The commands of a text that carry over, written plainly.
ghost use Rattle.host.specs.Adding.{AddedIs};
ghost use Rattle.older.specs.Items.{text_for};

use crate::{Stands, Way, finding};

// Writes them from the first byte of a line on, where they do not pass its end.
// `judge` walks the same way: one walk for both would lend each its own state, and be no plainer than the two matches.
pub(crate) fn write_text(way: Way, text: &[u8], line: &mut [u8]) -> Option<usize>
    ensures { AddedIs line.old 0 (text_for way text.now) result line.new }
{
    let mut at: usize = 0;
    let mut end: usize = 0;
    loop {
        match finding::stands_at(way, text, at) {
            Stands::Carries(c, next) => {
                end = commands::write_command(line, end, c)?;
                at = next;
            }
            Stands::Lacks => {
                at += 1;
            }
            Stands::Unfit(_, next) => {
                at = next;
            }
            Stands::Ends => {
                return Some(end);
            }
        }
    }
}
