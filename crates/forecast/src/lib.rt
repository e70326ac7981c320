// How many commands a run of a text takes when nothing stops it. 02, E14.
#![tactic(auto)]

mod counting;

ghost use Rattle.std.specs.Prelude.{◌≡◌};
ghost use Rattle.forecast.specs.Count.{count_of};
ghost use Rattle.forecast.specs.Pass.{line_counted};
ghost use Rattle.forecast.specs.Claims.{ForecastClaims};

use commands::Fault;
use lines::{Body, Taken};

// Why it is not said how many commands it will take.
#[derive(Clone, Copy, PartialEq, Eq)]
pub enum Uncounted {
    // The line check refuses the body.
    Refused(Fault),
    // The text has an `e`, `S`, `H`, a bare `G`, or a `G`, `P` or `D` of 0.
    Letter,
    // The count is over 2^63 - 1.
    TooMany,
}

// What a text has shown so far: what each open loop's body has cost, innermost first, and last the text outside; whether a letter was refused, and whether a
// count went over the bound. Two flags stay: both are found before it is known which is told, a letter wherever it stands (`tally_told`).
#[derive(Clone, Copy)]
struct Tally {
    here: u64,
    first: u64,
    second: u64,
    third: u64,
    fourth: u64,
    letter: bool,
    over: bool,
}

// How many commands a run of a body's text takes when nothing stops it.
pub fn count(body: &[u8]) -> Result<u64, Uncounted>
    ensures { result ≡ count_of body.now }
{
    match lines::body_of(body).map_err(Uncounted::Refused)? {
        Body::Line => count_line(body),
        _ => Ok(0),
    }
}

// The same of a line or a store.
fn count_line(body: &[u8]) -> Result<u64, Uncounted>
    ensures { result ≡ line_counted body.now }
{
    match lines::line_of(body).map_err(Uncounted::Refused)? {
        Taken::Line { length, .. } => counting::count_text(parts::first(body, length)),
        Taken::Store { at, length, .. } => counting::count_text(parts::part(body, at, length)),
    }
}

// What is claimed of the count.
pub fn forecast_claims()
    ensures { ForecastClaims }
{}
