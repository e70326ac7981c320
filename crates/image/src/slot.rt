// A slot of the image, and where its entry and its body stand.
ghost use Rattle.std.specs.Prelude.{◌≡◌, ◌*◌, ◌<◌, ◌≤◌, MatchOption};
ghost use Rattle.image.specs.Image.{slots, entry_bytes, slot_start};

use crate::{BODY_BYTES, CONTENTS_BYTES, ENTRY_BYTES, SLOTS};

// The number of a slot: 0 to 15.
#[derive(Clone, Copy)]
pub(crate) struct Slot {
    pub(crate) number: u32,
    ghost in_range: { number < slots },
}

impl Slot {
    // None where the image has no such slot.
    pub(crate) fn new(number: u32) -> Option<Slot>
        ensures { MatchOption result (slots ≤ number) (λ s. s.number ≡ number) }
    {
        if number < SLOTS {
            Some(Slot { number })
        } else {
            None
        }
    }

    // Where its body starts.
    pub(crate) fn start(self) -> usize
        ensures { result ≡ slot_start self.number }
    {
        CONTENTS_BYTES + BODY_BYTES * self.number as usize
    }

    // Where its entry stands.
    pub(crate) fn entry_place(self) -> usize
        ensures { result ≡ entry_bytes * self.number }
    {
        ENTRY_BYTES * self.number as usize
    }
}
