// Bytes put one behind another.
ghost use Rattle.std.specs.Prelude.{◌≤◌};

// Up to N bytes.
#[derive(Drop)]
pub(crate) struct Bytes<const N: usize> {
    bytes: [u8; N],
    length: usize,
    ghost fits: { length ≤ N },
}

impl<const N: usize> Bytes<N> {
    // No bytes.
    pub(crate) fn new() -> Bytes<N> {
        Bytes {
            bytes: [0; N],
            length: 0,
        }
    }

    pub(crate) fn as_slice(&self) -> &[u8] {
        &self.bytes[..self.length]
    }

    pub(crate) fn as_mut_slice(&mut self) -> &mut [u8] {
        let n = self.length;
        let bytes = &mut self.bytes;
        let all = &mut bytes[..];
        &mut all[..n]
    }

    // Takes all bytes away.
    pub(crate) fn clear(&mut self) {
        self.length = 0;
    }

    // Adds a byte, where there is room.
    pub(crate) fn push(&mut self, byte: u8) {
        if self.length < N {
            self.bytes[self.length] = byte;
            self.length += 1;
        }
    }

    // Adds bytes, as many as there is room for.
    pub(crate) fn add(&mut self, more: &[u8]) {
        let n = more.len().min(N - self.length);
        let end = self.length + n;
        let all = &mut self.bytes[..];
        all[self.length..end].copy_from_slice(&more[..n]);
        self.length = end;
    }

    // Makes them so many of one byte, or as many as there is room for.
    pub(crate) fn fill(&mut self, byte: u8, n: usize) {
        self.bytes.fill(byte);
        self.length = n.min(N);
    }
}
