// Parts of lent bytes: written where there is room, else left as they were.
#![tactic(auto)]

ghost use Rattle.std.specs.Prelude.{◌≡◌, take, replicate};
ghost use Rattle.parts.specs.Parts.{part, fits_at, padded_text, PutIs};

// "The body has 0 to 256 bytes."
const TEXT_BYTES: usize = 256;

// The first n bytes, or all where there are fewer.
pub fn first(s: &[u8], n: usize) -> &[u8]
    ensures { result.now ≡ take n s.now }
{
    if n < s.len() { &s[0..n] } else { s }
}

// The n bytes from place at, or as many as there are.
pub fn part(s: &[u8], at: usize, n: usize) -> &[u8]
    ensures { result.now ≡ part s.now at n }
{
    if at < s.len() {
        first(&s[at..], n)
    } else {
        &s[0..0]
    }
}

// Whether src fits dst from place at; if so it is written there, else nothing is.
pub fn put_at(dst: &mut [u8], at: usize, src: &[u8]) -> bool
    ensures { PutIs dst.old at src.now result dst.new }
{
    if !has_room(dst, at, src.len()) {
        return false;
    }
    dst[at..at + src.len()].copy_from_slice(src);
    true
}

// Whether n zeros fit dst from place at; if so they are written there, else nothing is.
pub fn wipe_at(dst: &mut [u8], at: usize, n: usize) -> bool
    ensures { PutIs dst.old at (replicate n 0) result dst.new }
{
    if !has_room(dst, at, n) {
        return false;
    }
    dst[at..at + n].fill(0);
    true
}

// The first 256 bytes of a text, with zeros behind them.
pub fn padded_text(text: &[u8]) -> [u8; TEXT_BYTES]
    ensures { result ≡ padded_text text.now }
{
    let mut bytes = [0u8; TEXT_BYTES];
    put_text(&mut bytes, text);
    bytes
}

// The same, in place of another text.
pub fn put_text(dst: &mut [u8; TEXT_BYTES], text: &[u8])
    ensures { dst.new ≡ padded_text text.now }
{
    *dst = [0u8; TEXT_BYTES];
    put_at(dst, 0, first(text, TEXT_BYTES));
}

// Whether n bytes fit dst from place at.
fn has_room(dst: &[u8], at: usize, n: usize) -> bool
    ensures { result ≡ fits_at dst.now at n }
{
    at <= dst.len() && n <= dst.len() - at
}
