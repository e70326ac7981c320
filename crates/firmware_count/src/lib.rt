// The C port of the count of commands: an object of its own in the archive, which is linked where the count is asked for.
#![tactic(auto)]

ghost use Rattle.std.specs.Prelude.{◌≡◌};
ghost use Rattle.firmware_count.specs.Port.{counted_number};

use forecast::Uncounted;

// 2^63: no count is so great.
const UNCOUNTED: u64 = 9223372036854775808;

// How many commands a run of a body's text takes; from 2^63 on the number of a refusal.
#[tactic(auto, unfolding(crate::specs::Port::counted_number))]
#[unsafe(no_mangle)]
pub extern "C" fn dt_count(body: &[u8]) -> u64
    ensures { result ≡ counted_number body.now }
{
    match forecast::count(body) {
        Ok(n) => n,
        Err(Uncounted::Refused(f)) => UNCOUNTED + u64::from(f.code),
        Err(Uncounted::Letter) => UNCOUNTED + 4,
        Err(Uncounted::TooMany) => UNCOUNTED + 5,
    }
}
