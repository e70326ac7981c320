// The settings of a unit: what each is at a fresh start, and how each is set.
ghost use Rattle.std.specs.Prelude.{◌≡◌};
ghost use Rattle.turns.specs.Settings.{defaults, with_setting};

use commands::Setting;

// V L f F m h j o J b; of j the exponent.
#[derive(Clone, Copy)]
pub struct Settings {
    pub speed: u32,
    pub acceleration: u32,
    pub flag: u32,
    pub turned: u32,
    pub moving: u32,
    pub holding: u32,
    pub exponent: u32,
    pub correction: u32,
    pub outputs: u32,
    pub baud: u32,
}

// The settings of a fresh unit.
pub(crate) fn default_settings() -> Settings
    ensures { result ≡ defaults }
{
    Settings {
        speed: 305175,
        acceleration: 1000,
        flag: 0,
        turned: 0,
        moving: 25,
        holding: 10,
        exponent: 8,
        correction: 1500,
        outputs: 0,
        baud: 9600,
    }
}

// The settings with one of them set.
pub(crate) fn set(mut s: Settings, which: Setting, n: u32) -> Settings
    ensures { result ≡ with_setting which n s }
{
    match which {
        Setting::TopSpeed => s.speed = n,
        Setting::Acceleration => s.acceleration = n,
        Setting::FlagLevel => s.flag = n,
        Setting::Turned => s.turned = n,
        Setting::MoveCurrent => s.moving = n,
        Setting::HoldCurrent => s.holding = n,
        Setting::StepSize => s.exponent = commands::exponent_of(n).unwrap_or(s.exponent),
        Setting::Correction => s.correction = n,
        Setting::Outputs => s.outputs = n,
        Setting::Baud => s.baud = n,
    }
    s
}
