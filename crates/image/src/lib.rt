// The image of the programs in lent bytes: judged, read, stored to, cleared. Nothing else knows how it is laid out.
#![tactic(auto)]

mod slot;

ghost use Rattle.std.specs.Prelude.{◌≡◌, ◌+◌, ◌<◌, ◌≤◌, length};
ghost use Rattle.image.specs.Image.{image_bytes, right_length, entry_bytes, body_bytes, word_at, entry_of, slot_body};
ghost use Rattle.image.specs.Image.{all_zeros, good_at, slot_by, slot_good, slot_text, with_entry, with_body};
ghost use Rattle.image.specs.Calls.{checked_by, checked_of, older_of, StoredIs, ClearedIs};
ghost use Rattle.image.specs.Claims.{ImageClaims};

use slot::Slot;

// Why an image is not good.
#[derive(Clone, Copy, PartialEq, Eq)]
pub enum BadImage {
    // It is not 4,160 bytes.
    WrongLength,
    Bad,
}

// Why a text is not stored.
#[derive(Clone, Copy, PartialEq, Eq)]
pub enum NotStored {
    // The image is not 4,160 bytes.
    WrongLength,
    // The slot is not 0 to 15.
    NoSlot,
    // The text is longer than a body.
    TooLong,
}

const IMAGE_BYTES: usize = 4160;

const SLOTS: u32 = 16;

const WORD_BYTES: usize = 2;

const ENTRY_BYTES: usize = WORD_BYTES + WORD_BYTES;

const CONTENTS_BYTES: usize = 64;

const BODY_BYTES: usize = 256;

// Whether an image is good.
pub fn check_image(image: &[u8]) -> Result<(), BadImage>
    ensures { result ≡ checked_of image.now }
{
    check_by(image, digits::OPERAND_MOST)
}

// Whether an image is good but for operands of too many digits: a text has no more digits than bytes.
pub fn check_older(image: &[u8]) -> Result<(), BadImage>
    ensures { result ≡ older_of image.now }
{
    check_by(image, BODY_BYTES)
}

// Whether an image is good, with operands of so many digits at most.
fn check_by(image: &[u8], most: usize) -> Result<(), BadImage>
    ensures { result ≡ checked_by most image.now }
{
    if image.len() != IMAGE_BYTES {
        return Err(BadImage::WrongLength);
    }
    // As `(0..SLOTS).all(..)` it was tried: from calls of a closure that reads a slice the check did not find `slots_by`.
    for slot in 0..SLOTS {
        if !slot_by(image, slot, most) {
            return Err(BadImage::Bad);
        }
    }
    Ok(())
}

// Whether the image has the right length.
pub fn is_right_length(image: &[u8]) -> bool
    ensures { result ≡ right_length image.now }
{
    image.len() == IMAGE_BYTES
}

// Whether an image has a slot, and its entry and body are good.
pub fn slot_good(image: &[u8], slot: u32) -> bool
    ensures { result ≡ slot_good image.now slot }
{
    slot_by(image, slot, digits::OPERAND_MOST)
}

// The same with operands of so many digits at most.
fn slot_by(image: &[u8], slot: u32, most: usize) -> bool
    ensures { result ≡ slot_by most image.now slot }
{
    if image.len() != IMAGE_BYTES {
        return false;
    }
    let Some(slot) = Slot::new(slot) else {
        return false;
    };
    good_at(
        slot.start(),
        entry_of(image, slot),
        body_of(image, slot),
        most,
    )
}

// The text of a slot; none where the slot is not good.
pub fn slot_text(image: &[u8], slot: u32) -> &[u8]
    ensures { result.now ≡ slot_text image.now slot }
{
    match Slot::new(slot) {
        Some(at) if slot_good(image, slot) => {
            let n = word_at(entry_of(image, at), WORD_BYTES);
            &body_of(image, at)[..n]
        }
        _ => &image[..0],
    }
}

// Makes a text that of a slot: its entry and its body are written anew, and nothing else. The text is not judged.
pub fn store(image: &mut [u8], slot: u32, text: &[u8]) -> Result<(), NotStored>
    ensures { StoredIs image.old slot text.now result image.new }
{
    if image.len() != IMAGE_BYTES {
        return Err(NotStored::WrongLength);
    }
    let Some(slot) = Slot::new(slot) else {
        return Err(NotStored::NoSlot);
    };
    if BODY_BYTES < text.len() {
        return Err(NotStored::TooLong);
    }
    put_entry(image, slot, text.len());
    put_body(image, slot, text);
    Ok(())
}

// Makes the image the good one with all slots empty; whether its length was right.
pub fn clear(image: &mut [u8]) -> bool
    ensures { ClearedIs image.old result image.new }
{
    if image.len() != IMAGE_BYTES {
        return false;
    }
    for number in 0..SLOTS {
        put_entry(image, Slot { number }, 0);
    }
    parts::wipe_at(image, CONTENTS_BYTES, IMAGE_BYTES - CONTENTS_BYTES);
    true
}

// The length stands in four contracts: a lent slice as an array is a Result or an Option of a reference, which lies otherwise on a
// chip, where `chip/pointer-places` refuses it.
// The entry of a slot.
fn entry_of(image: &[u8], slot: Slot) -> &[u8]
    requires { length image.now ≡ image_bytes }
    ensures { result.now ≡ entry_of image.now slot.number }
{
    let at = slot.entry_place();
    &image[at..at + ENTRY_BYTES]
}

// The body of a slot.
fn body_of(image: &[u8], slot: Slot) -> &[u8]
    requires { length image.now ≡ image_bytes }
    ensures { result.now ≡ slot_body image.now slot.number }
{
    let at = slot.start();
    &image[at..at + BODY_BYTES]
}

// The number in two bytes from a place, low byte first.
#[tactic(auto, unfolding(crate::specs::Image::word_at))]
fn word_at(bytes: &[u8], at: usize) -> usize
    requires { at + 1 < length bytes.now }
    ensures { result ≡ word_at bytes.now at }
{
    usize::from(u16::from_le_bytes([bytes[at], bytes[at + 1]]))
}

// Whether an entry and a body are good as those of a slot that is to start so, with operands of so many digits at most.
fn good_at(start: usize, entry: &[u8], body: &[u8], most: usize) -> bool
    requires { (length entry.now ≡ entry_bytes) × (length body.now ≡ body_bytes) }
    ensures { result ≡ good_at most start entry.now body.now }
{
    if word_at(entry, 0) != start {
        return false;
    }
    let n = word_at(entry, WORD_BYTES);
    if BODY_BYTES < n {
        return false;
    }
    if lines::check_text_by(&body[..n], most) {
        return all_zero(&body[n..]);
    }
    false
}

// Whether all bytes are 0: looked at without a stop, many at a time.
fn all_zero(bytes: &[u8]) -> bool
    ensures { result ≡ all_zeros bytes.now }
{
    let mut clean = true;
    for byte in bytes {
        clean &= *byte == 0;
    }
    clean
}

// Writes the entry of a slot whose text has n bytes.
fn put_entry(image: &mut [u8], slot: Slot, n: usize)
    requires { (length image.old ≡ image_bytes) × (n ≤ body_bytes) }
    ensures { image.new ≡ with_entry image.old slot.number n }
{
    let [start_low, start_high] = (slot.start() as u16).to_le_bytes();
    let [n_low, n_high] = (n as u16).to_le_bytes();
    parts::put_at(
        image,
        slot.entry_place(),
        &[start_low, start_high, n_low, n_high],
    );
}

// Writes the body of a slot: a text, and zeros behind it.
fn put_body(image: &mut [u8], slot: Slot, text: &[u8])
    requires { (length image.old ≡ image_bytes) × (length text.now ≤ body_bytes) }
    ensures { image.new ≡ with_body image.old slot.number text.now }
{
    let start = slot.start();
    let n = text.len();
    parts::put_at(image, start, text);
    parts::wipe_at(image, start + n, BODY_BYTES - n);
}

// What is claimed of images: which are good, and what a store and a clear do to every slot.
pub fn image_claims()
    ensures { ImageClaims }
{}
