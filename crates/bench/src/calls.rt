// The operations that need no unit: `line`, `text`, `read`, `count`, `listen`, `older`, `newer`, `ramp`, `write`.
use crate::forms::Call;
use crate::telling::{say, tell, tell_refused};
use crate::{heard, list};
use answers::Packet;
use commands::Command;
use forecast::Uncounted;
use host::NotWritten;
use older::{NotTranslated, Refusal, Translated, Why};
use ramp::{Figures, Refused};
use std::io;

// The longest text of the older drive: 25 commands of eleven bytes.
const TEXT_MOST: usize = 275;

// One command more than a line can have, so that a longer list is refused.
const LIST_MOST: usize = 257;

// Tells the answer to a call.
pub(crate) fn ask(rt: &impl Print, call: Call, given: &[u8]) -> io::Result<()> {
    match call {
        Call::Line => match lines::check_line(given) {
            Ok(()) => say(rt, b"line 0"),
            Err(fault) => tell_refused(rt, b"line", fault),
        },
        Call::Text if lines::check_text(given) => say(rt, b"text ok"),
        Call::Text => say(rt, b"text bad"),
        Call::Ramp { v, l, n } => tell_ramp(rt, v, l, n),
        Call::Read => tell_packet(rt, given),
        Call::Count => tell_count(rt, given),
        Call::Listen => heard::tell(rt, given),
        Call::Older => {
            let mut out = [0; TEXT_MOST];
            let translated = older::into_ours(given, &mut out);
            tell_translated(rt, b"older * slowed=#", translated, &out)
        }
        Call::Newer => {
            let mut out = [0; TEXT_MOST];
            let translated = older::for_older(given, &mut out);
            tell_translated(rt, b"newer * slowed=#", translated, &out)
        }
    }
}

// Status and data of a packet.
fn tell_packet(rt: &impl Print, bytes: &[u8]) -> io::Result<()> {
    let Some(p) = read_either(bytes) else {
        return say(rt, b"refused packet");
    };
    let data = parts::part(bytes, p.at, p.length);
    tell(rt, b"packet ~ *", &[u64::from(p.status)], data)
}

// A packet read, in the OEM framing where it begins with 02.
pub(crate) fn read_either(bytes: &[u8]) -> Option<Packet> {
    match bytes {
        [2, ..] => answers::read_oem_packet(bytes),
        _ => answers::read_packet(bytes),
    }
}

// How many commands a run takes, or why that is not said.
fn tell_count(rt: &impl Print, body: &[u8]) -> io::Result<()> {
    match forecast::count(body) {
        Ok(n) => tell(rt, b"count #", &[n], b""),
        Err(Uncounted::Letter) => say(rt, b"refused letter"),
        Err(Uncounted::TooMany) => say(rt, b"refused count"),
        Err(Uncounted::Refused(fault)) => tell_refused(rt, b"refused", fault),
    }
}

// The text and whether a ramp was slowed, or why there is none and where.
fn tell_translated(
    rt: &impl Print,
    form: &[u8],
    translated: Result<Translated, NotTranslated>,
    out: &[u8],
) -> io::Result<()> {
    match translated {
        Ok(t) => tell(
            rt,
            form,
            &[u64::from(t.slowed)],
            parts::first(out, t.length),
        ),
        Err(NotTranslated::Refused(refusal)) => tell_untranslated(rt, refusal),
        Err(NotTranslated::NoRoom) => say(rt, b"refused buffer"),
    }
}

// Why a text is not translated, and where.
fn tell_untranslated(rt: &impl Print, refusal: Refusal) -> io::Result<()> {
    let form = match refusal.why {
        Why::BadLetter => b"refused letter #".as_slice(),
        Why::BadOperand => b"refused operand #",
        Why::BadStructure => b"refused structure #",
        Why::PastMost => b"refused commands #",
    };
    tell(rt, form, &[refusal.place as u64], b"")
}

// `ramp V L N`, `ramp V L endless`
fn tell_ramp(rt: &impl Print, v: u32, l: u32, n: Option<u32>) -> io::Result<()> {
    match ramp::ramp(v, l, n) {
        Ok(figures) => tell_figures(rt, figures),
        Err(Refused::V) => say(rt, b"refused V"),
        Err(Refused::L) => say(rt, b"refused L"),
        Err(Refused::N) => say(rt, b"refused N"),
    }
}

// Peak and distance, and the bits of three floats.
fn tell_figures(rt: &impl Print, f: Figures) -> io::Result<()> {
    let numbers = [
        u64::from(f.peak),
        f.distance,
        bits_of(f.floats.speed),
        bits_of(f.floats.acceleration),
        bits_of(f.floats.time),
    ];
    tell(rt, b"ramp # # ^ ^ ^", &numbers, b"")
}

// The bits of a float; of every not-a-number those of one, since `to_bits` is for numbers.
fn bits_of(x: f64) -> u64 {
    if x != x {
        0x7ff8_0000_0000_0000
    } else {
        f64::to_bits(x)
    }
}

// `write SLOT RUN LIST`
pub(crate) fn write(
    rt: &impl Print,
    slot: Option<u32>,
    run: bool,
    list: &[u8],
    buffer: &mut [u8],
) -> io::Result<()> {
    let mut commands = [Command::LoopBegin; LIST_MOST];
    let n = list::read(list, &mut commands).unwrap_or(0);
    match host::write_line(slot, &commands[..n.min(LIST_MOST)], run, buffer) {
        Ok(n) => tell(rt, b"wrote *", &[], parts::first(buffer, n)),
        Err(NotWritten::NoRoom) => say(rt, b"refused buffer"),
        Err(NotWritten::Refused(fault)) => tell_refused(rt, b"refused", fault),
    }
}
