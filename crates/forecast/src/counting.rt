// The commands of a text counted in one pass: a stack of five counts that moves, so that no place in it is computed.
ghost use Rattle.std.specs.Prelude.{◌≡◌, ◌+◌, ◌*◌, ◌<◌, leb};
ghost use Rattle.forecast.specs.Count.{most_counted, barred_act};
ghost use Rattle.forecast.specs.Pass.{marked, exceeded, tally_more, tally_opened, loop_closed, plain_tallied, tallied, tally_told, text_counted};

use crate::{Tally, Uncounted};
use commands::{Act, Command, Fault, Read};

// 2^63 - 1.
const MOST: u64 = 9223372036854775807;

// Reads a text to its end or its first fault, and counts.
pub(crate) fn count_text(text: &[u8]) -> Result<u64, Uncounted>
    ensures { result ≡ text_counted text.now }
{
    let mut tally = Tally {
        here: 0,
        first: 0,
        second: 0,
        third: 0,
        fourth: 0,
        letter: false,
        over: false,
    };
    let mut at: usize = 0;
    // Each command's end is told by what reads it, so no iterator walks the text.
    loop {
        match commands::read_command(text, at) {
            Read::At(c, next) => {
                tally = tally_one(tally, c);
                at = next;
            }
            Read::Bad(code, place) => {
                return Err(Uncounted::Refused(Fault { code, place }));
            }
            Read::End => {
                return tell(tally);
            }
        }
    }
}

// One command more.
fn tally_one(t: Tally, c: Command) -> Tally
    ensures { result ≡ tallied t c }
{
    match c {
        Command::LoopBegin => begin_loop(t),
        Command::LoopEnd(n) => end_loop(t, n),
        Command::Skip(_) | Command::Jump(_) => mark(t),
        Command::Plain(a) => tally_plain(t, a),
    }
}

// A letter that is not counted.
fn mark(t: Tally) -> Tally
    ensures { result ≡ marked t }
{
    Tally { letter: true, ..t }
}

// A count over the bound.
fn exceed(t: Tally) -> Tally
    ensures { result ≡ exceeded t }
{
    Tally { over: true, ..t }
}

// A command that is taken once, each time that it stands next.
fn one_more(t: Tally) -> Tally
    ensures { result ≡ tally_more t }
{
    if t.here < MOST {
        Tally {
            here: t.here + 1,
            ..t
        }
    } else {
        exceed(t)
    }
}

// A plain command.
fn tally_plain(t: Tally, a: Act) -> Tally
    ensures { result ≡ plain_tallied t a }
{
    if is_barred(a) { mark(t) } else { one_more(t) }
}

// Whether a plain command is on the list: `H`, `P0`, `D0`.
fn is_barred(a: Act) -> bool
    ensures { result ≡ barred_act a }
{
    matches!(a, Act::WaitInput(_) | Act::MoveUp(0) | Act::MoveDown(0))
}

// A loop begins: its `g` is counted outside, and its body has cost nothing yet.
fn begin_loop(t: Tally) -> Tally
    ensures { result ≡ tally_opened (tally_more t) }
{
    let u = one_more(t);
    Tally {
        here: 0,
        first: u.here,
        second: u.first,
        third: u.second,
        fourth: u.third,
        ..u
    }
}

// A loop ends: its body and its `G`, n times, come to what stands around it.
fn end_loop(t: Tally, n: u32) -> Tally
    ensures { result ≡ loop_closed t n }
{
    if n == 0 {
        return mark(t);
    }
    if !fits(t.first, t.here, n) {
        return exceed(t);
    }
    Tally {
        here: t.first + u64::from(n) * (t.here + 1),
        first: t.second,
        second: t.third,
        third: t.fourth,
        fourth: 0,
        ..t
    }
}

// Whether a loop's cost and what stands around it stay within the bound: told before the product is made.
fn fits(around: u64, here: u64, n: u32) -> bool
    requires { 0 < n }
    ensures { result ≡ leb (around + n * (here + 1)) most_counted }
{
    around <= MOST && here < (MOST - around) / u64::from(n)
}

// The answer at the end of a text.
fn tell(t: Tally) -> Result<u64, Uncounted>
    ensures { result ≡ tally_told t }
{
    if t.letter {
        return Err(Uncounted::Letter);
    }
    if t.over {
        return Err(Uncounted::TooMany);
    }
    Ok(t.here)
}
