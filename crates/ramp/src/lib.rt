#![tactic(auto)]

ghost use Rattle.std.specs.Prelude.{◌≡◌, ◌+◌, ◌*◌, ◌/◌, ◌^◌, min, ◌≤◌, ◌<◌};
ghost use Rattle.ramp.specs.Ranges.{top_v, top_l, top_n, outside, Within};
ghost use Rattle.ramp.specs.Peak.{double_unit, greatest};
ghost use Rattle.ramp.specs.Ramp.{verdict_number, peak_figures, figures_told, figures_of};
ghost use Rattle.ramp.specs.Claims.{RampClaims};

// Which of V, L and N is outside its range.
#[derive(Clone, Copy, PartialEq, Eq)]
pub enum Refused {
    V,
    L,
    N,
}

// The ramp record: exact speed and acceleration, and their one rounded quotient.
#[derive(Clone, Copy)]
pub struct RampRecord {
    pub speed: f64,
    pub acceleration: f64,
    pub time: f64,
}

// The ramp figures: the peak and the ramp distance are whole numbers.
#[derive(Clone, Copy)]
pub struct Figures {
    pub peak: u32,
    pub distance: u64,
    pub floats: RampRecord,
}

// The tops of V, L and N.
const TOP_V: u32 = 16777216;

const TOP_L: u32 = 65000;

const TOP_N: u32 = 2147483647;

// The acceleration of one L in microsteps per second squared, and twice that.
const UNIT: f64 = 6103.5;

const DOUBLE_UNIT: u64 = 12207;

// The ramp figures at top speed V and acceleration L, of a move of N microsteps or, for None, of an endless one.
pub fn ramp(v: u32, l: u32, n: Option<u32>) -> Result<Figures, Refused>
    ensures { result ≡ figures_of v l n }
{
    if outside(1, TOP_V, v) {
        return Err(Refused::V);
    }
    if outside(1, TOP_L, l) {
        return Err(Refused::L);
    }
    // Either way to one call of `taken`: with two the archives for chips ask the firmware for one helper of memory more.
    let peak = match n {
        None => v,
        Some(n) => {
            if outside(1, TOP_N, n) {
                return Err(Refused::N);
            }
            finite_peak(v, l, n)
        }
    };
    Ok(taken(peak, l))
}

// Whether x is outside low to top: two comparisons, since the ends of a range that is asked would stand in memory, where the chip's check of places loses them.
fn outside(low: u32, top: u32, x: u32) -> bool
    ensures { result ≡ outside low top x }
{
    x < low || top < x
}

// The number of an outcome, for the C interface: 0 where the figures stand, else that of the refusal.
pub fn code(figures: Result<Figures, Refused>) -> u32
    ensures { result ≡ verdict_number figures }
{
    match figures {
        Ok(_) => 0,
        Err(Refused::V) => 1,
        Err(Refused::L) => 2,
        Err(Refused::N) => 3,
    }
}

// The figures that are told: of a refusal all 0.
pub fn told(figures: Result<Figures, Refused>) -> Figures
    ensures { result ≡ figures_told figures }
{
    figures.unwrap_or(Figures {
        peak: 0,
        distance: 0,
        floats: RampRecord {
            speed: 0.0,
            acceleration: 0.0,
            time: 0.0,
        },
    })
}

// The figures of a move that reaches a peak.
fn taken(peak: u32, l: u32) -> Figures
    requires { Within 1 top_v peak × Within 1 top_l l }
    ensures { result ≡ peak_figures peak l }
{
    // 01's form: exact casts, one exact product, one division.
    let speed = peak as f64;
    let acceleration = l as f64 * UNIT;
    let wide = u64::from(peak);
    Figures {
        peak,
        distance: wide * wide / (DOUBLE_UNIT * u64::from(l)),
        floats: RampRecord {
            speed,
            acceleration,
            time: speed / acceleration,
        },
    }
}

// The peak of a finite move.
fn finite_peak(v: u32, l: u32, n: u32) -> u32
    requires { Within 1 top_v v × Within 1 top_l l × Within 1 top_n n }
    ensures { result ≡ greatest v (double_unit * l * n) }
{
    let room = DOUBLE_UNIT * u64::from(l) * u64::from(n);
    greatest_under(u64::from(v), room) as u32
}

// The greatest whole p up to v with 2 p² ≤ room: v itself in a long move, else down to it by Newton's steps for a root.
fn greatest_under(v: u64, room: u64) -> u64
    requires { v ≤ top_v }
    ensures { result ≡ greatest v room }
{
    if 2 * (v * v) <= room {
        return v;
    }
    let square = room / 2;
    let mut peak = v.min(step(guess(square), square));
    while room < 2 * (peak * peak) {
        peak = step(peak, square);
    }
    peak
}

// Newton's step for the root of square: from any x above 0 it does not go below the root.
fn step(x: u64, square: u64) -> u64
    requires { (0 < x) × (x ≤ 2 ^ 32) × (square < 2 ^ 63) }
    ensures { result ≡ (x + square / x) / 2 }
{
    (x + square / x) / 2
}

// A power of two near the root of square: any number above 0 would do, and a near one saves divisions.
fn guess(square: u64) -> u64
    ensures { (0 < result) × (result ≤ 2 ^ 32) }
{
    1u64 << ((64 - square.leading_zeros()) / 2)
}

// What readers are to believe of the figures, whatever V, L and N are.
pub fn ramp_claims()
    ensures { RampClaims }
{}
