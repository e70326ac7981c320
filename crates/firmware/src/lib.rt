// The C port: the line check, the image check and the ramp figures, through plain numbers and byte slices.
#![tactic(auto)]

ghost use Rattle.std.specs.Prelude.{◌≡◌};
ghost use Rattle.lines.specs.Bodies.{line_fault, line_code_lem};
ghost use Rattle.firmware.specs.Port.{text_number, image_number, ramp_of, figures, ramp_number};

use commands::Fault;
use image::BadImage;
use ramp::{Figures, Refused};

// The code and the place that C is told: 0 and 0 where nothing is wrong.
#[tactic(auto, unfolding(lines::specs::Bodies::line_fault))]
fn fault_of(body: &[u8]) -> Fault
    ensures { result ≡ line_fault body.now }
{
    match lines::check_line(body) {
        Ok(()) => Fault { code: 0, place: 0 },
        Err(f) => f,
    }
}

// The code that an idle unit gives to a frame's body: 0, 2 or 3.
#[tactic(auto, unfolding(lines::specs::Bodies::line_code_lem))]
#[unsafe(no_mangle)]
pub extern "C" fn dt_check_line(body: &[u8]) -> u32
    ensures { result ≡ line_code_lem body.now }
{
    u32::from(fault_of(body).code)
}

// The place of the fault in a frame's body, counting its bytes from 1; 0 where there is none.
#[unsafe(no_mangle)]
pub extern "C" fn dt_line_place(body: &[u8]) -> u32
    ensures { result ≡ (line_fault body.now).place }
{
    fault_of(body).place as u32
}

// 0 where a text may be stored, else 1.
#[tactic(auto, unfolding(crate::specs::Port::text_number))]
#[unsafe(no_mangle)]
pub extern "C" fn dt_check_text(text: &[u8]) -> u32
    ensures { result ≡ text_number text.now }
{
    if lines::check_text(text) { 0 } else { 1 }
}

// 0 for a good image, 1 for a wrong length, 2 for a bad image.
#[tactic(auto, unfolding(crate::specs::Port::image_number))]
#[unsafe(no_mangle)]
pub extern "C" fn dt_check_image(image: &[u8]) -> u32
    ensures { result ≡ image_number image.now }
{
    match image::check_image(image) {
        Ok(()) => 0,
        Err(BadImage::WrongLength) => 1,
        Err(BadImage::Bad) => 2,
    }
}

// The figures of a ramp, endless where that is not 0, or why they are refused.
fn figures_of(v: u32, l: u32, endless: u32, n: u32) -> Result<Figures, Refused>
    ensures { result ≡ ramp_of v l endless n }
{
    ramp::ramp(v, l, if endless == 0 { Some(n) } else { None })
}

// The figures that C is told: of a refusal all 0.
fn told(v: u32, l: u32, endless: u32, n: u32) -> Figures
    ensures { result ≡ figures v l endless n }
{
    ramp::told(figures_of(v, l, endless, n))
}

// 0 where the figures stand; 1, 2, 3 where V, L, N is refused.
#[tactic(auto, unfolding(crate::specs::Port::ramp_number))]
#[unsafe(no_mangle)]
pub extern "C" fn dt_ramp_check(v: u32, l: u32, endless: u32, n: u32) -> u32
    ensures { result ≡ ramp_number v l endless n }
{
    ramp::code(figures_of(v, l, endless, n))
}

// One figure a call, alike in all else: the C interface has no call that hands back several.
// The peak, in microsteps per second; 0 where refused.
#[unsafe(no_mangle)]
pub extern "C" fn dt_ramp_peak(v: u32, l: u32, endless: u32, n: u32) -> u32
    ensures { result ≡ (figures v l endless n).peak }
{
    told(v, l, endless, n).peak
}

// The ramp distance, in microsteps; 0 where refused.
#[unsafe(no_mangle)]
pub extern "C" fn dt_ramp_distance(v: u32, l: u32, endless: u32, n: u32) -> u64
    ensures { result ≡ (figures v l endless n).distance }
{
    told(v, l, endless, n).distance
}

// The speed, exactly the peak; 0 where refused.
#[unsafe(no_mangle)]
pub extern "C" fn dt_ramp_speed(v: u32, l: u32, endless: u32, n: u32) -> f64
    ensures { result ≡ (figures v l endless n).floats.speed }
{
    told(v, l, endless, n).floats.speed
}

// The acceleration, exactly L times 6103.5; 0 where refused.
#[unsafe(no_mangle)]
pub extern "C" fn dt_ramp_acceleration(v: u32, l: u32, endless: u32, n: u32) -> f64
    ensures { result ≡ (figures v l endless n).floats.acceleration }
{
    told(v, l, endless, n).floats.acceleration
}

// The time to the peak, in seconds; 0 where refused.
#[unsafe(no_mangle)]
pub extern "C" fn dt_ramp_time(v: u32, l: u32, endless: u32, n: u32) -> f64
    ensures { result ≡ (figures v l endless n).floats.time }
{
    told(v, l, endless, n).floats.time
}
