// `listen HEX`: what a listener from a fresh table has heard of each unit.
use crate::bytes::Bytes;
use crate::telling;
use std::io;

// Sixteen lines have at most 29 bytes each, with what parts them.
const HEARD_BYTES: usize = 464;

// Tells the sixteen lines, parted by `; `.
pub(crate) fn tell(rt: &impl Print, bytes: &[u8]) -> io::Result<()> {
    let heard = listening::listen(listening::fresh(), bytes);
    let mut out = Bytes::<HEARD_BYTES>::new();
    // counted by hand: `zip` hands an `Option` of a reference, which `chip/pointer-places` does not follow
    let mut unit = 0u8;
    for record in &heard.table {
        unit = unit.saturating_add(1);
        if unit != 1 {
            out.add(b"; ");
        }
        let line = listening::unit_line(unit, *record);
        out.add(parts::first(&line.bytes, line.length));
    }
    telling::tell(rt, b"heard $", &[], out.as_slice())
}
