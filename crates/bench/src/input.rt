// The lines of standard input: bytes are read as they come, and kept until their line ends.
ghost use Rattle.std.specs.Prelude.{◌≤◌};

use crate::bytes::Bytes;
use crate::fields;
use crate::fields::LF;
use std::io::Read;

// The bytes of a read.
const CHUNK_BYTES: usize = 4096;

// A line has fewer bytes than that; a longer one is none of the operations.
pub(crate) const LINE_BYTES: usize = 65536;

#[derive(Drop)]
pub(crate) struct Reader {
    // What the last read gave, and where the bytes begin and end that are in no line yet.
    chunk: [u8; CHUNK_BYTES],
    at: usize,
    end: usize,
    // Whether the end of input has come.
    ended: bool,
    ghost inside: { at ≤ end },
    ghost fits: { end ≤ 4096 },
}

impl Reader {
    // Before the first line.
    pub(crate) fn new() -> Reader {
        Reader {
            chunk: [0; CHUNK_BYTES],
            at: 0,
            end: 0,
            ended: false,
        }
    }

    // The next line, which an LF or the end of input ends; none where none is left. The reads are counted: nothing says that a line ends.
    pub(crate) fn next_line<'a>(
        &mut self,
        input: &mut impl Read,
        line: &'a mut Bytes<LINE_BYTES>,
    ) -> Option<&'a [u8]> {
        line.clear();
        for _ in 0..u64::MAX {
            if self.take(line) || self.ended {
                break;
            }
            self.read(input);
        }
        let bytes = line.as_slice();
        if self.ended && bytes.is_empty() {
            return None;
        }
        Some(bare(bytes))
    }

    // Adds to the line what was read, up to an LF: whether there was one.
    fn take(&mut self, line: &mut Bytes<LINE_BYTES>) -> bool {
        let bytes = &self.chunk[self.at..self.end];
        match fields::find(bytes, LF) {
            Some(n) => {
                line.add(&bytes[..n]);
                self.at += n + 1;
                true
            }
            None => {
                line.add(bytes);
                self.at = self.end;
                false
            }
        }
    }

    // Reads once. A failed read counts as the end of input.
    fn read(&mut self, input: &mut impl Read) {
        let n = input.read(&mut self.chunk).unwrap_or(0);
        self.at = 0;
        self.end = n;
        self.ended = n == 0;
    }
}

// A line without a CR at its end; of one that is too long nothing.
fn bare(line: &[u8]) -> &[u8] {
    if line.len() == LINE_BYTES {
        return b"";
    }
    line.strip_suffix(b"\r").unwrap_or(line)
}
