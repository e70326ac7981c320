// What the bench holds: a unit, and the bytes that it lends. Each of them lies for itself: of bytes that lie in one struct and are lent
// to the same functions `chip/pointer-places` does not find the end.
use crate::bytes::Bytes;
use drive::Record;

#[derive(Drop)]
pub(crate) struct Bench<'a> {
    // None until a start is not refused.
    pub(crate) unit: Option<Record>,
    // The image and the answer buffer.
    pub(crate) image: &'a mut Bytes<IMAGE_MOST>,
    pub(crate) buffer: &'a mut Bytes<ROOM_MOST>,
    // The body being received, and the current text.
    pub(crate) body: &'a mut [u8; BODY_BYTES],
    pub(crate) text: &'a mut [u8; TEXT_BYTES],
}

pub(crate) const BODY_BYTES: usize = 257;

pub(crate) const TEXT_BYTES: usize = 256;

// The most bytes of an image, and those of the one with all slots empty.
pub(crate) const IMAGE_MOST: usize = 4200;

const EMPTY_BYTES: usize = 4160;

// The most bytes of an answer buffer, and those of the first.
pub(crate) const ROOM_MOST: usize = 512;

const FIRST_ROOM: usize = 262;

// What an answer buffer holds before anything is written in it.
const BLANK: u8 = 0xa5;

impl Bench<'_> {
    // The bench at its beginning lends the image with all slots empty.
    pub(crate) fn begin(&mut self) {
        self.lend_empty();
        self.lend_room(FIRST_ROOM);
    }

    // Lends these bytes as the image.
    pub(crate) fn lend_image(&mut self, bytes: &[u8]) {
        self.image.clear();
        self.image.add(bytes);
    }

    // Lends the image with all slots empty.
    pub(crate) fn lend_empty(&mut self) {
        self.image.fill(0, EMPTY_BYTES);
        image::clear(self.image.as_mut_slice());
    }

    // Lends an answer buffer of so many bytes, in which nothing was written.
    pub(crate) fn lend_room(&mut self, n: usize) {
        self.buffer.fill(BLANK, n);
    }
}
