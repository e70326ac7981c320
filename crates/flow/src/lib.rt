// The place in the current text and the open loops.
#![tactic(auto)]

ghost use Rattle.std.specs.Prelude.{◌≡◌, ◌<◌, get_or, set};
ghost use Rattle.flow.specs.Flow.{begun, gone, closed, loop_begun, loop_ended};

// "At most four open".
const MOST_OPEN: usize = 4;

// Where a run stands in its text: the text's length, the next place, and for each open loop its start and how often its body has run.
#[derive(Clone, Copy)]
pub struct Flow {
    pub length: usize,
    pub at: usize,
    pub starts: [usize; MOST_OPEN],
    pub dones: [u32; MOST_OPEN],
    pub depth: usize,
}

// A text of so many bytes, at its beginning.
pub fn begin(length: usize) -> Flow
    ensures { result ≡ begun length }
{
    Flow {
        length,
        at: 0,
        starts: [0; MOST_OPEN],
        dones: [0; MOST_OPEN],
        depth: 0,
    }
}

// Gone on to a place.
pub fn go_on(mut f: Flow, next: usize) -> Flow
    ensures { result ≡ gone next f }
{
    f.at = next;
    f
}

// A loop begins, behind which `next` stands; None where none may begin.
pub fn begin_loop(f: Flow, next: usize) -> Option<Flow>
    ensures { result ≡ loop_begun next f }
{
    if MOST_OPEN <= f.depth {
        return None;
    }
    Some(Flow {
        at: next,
        starts: put(f.starts, f.depth, next),
        dones: put(f.dones, f.depth, 0),
        depth: f.depth + 1,
        ..f
    })
}

// A loop ends with the count n, behind which `next` stands; None where none is open.
pub fn end_loop(f: Flow, n: u32, next: usize) -> Option<Flow>
    ensures { result ≡ loop_ended n next f }
{
    if f.depth == 0 || MOST_OPEN < f.depth {
        return None;
    }
    Some(close(f, f.depth - 1, n, next))
}

// The loop at a depth goes back to its start until its body has run n times, then it is left.
fn close(f: Flow, d: usize, n: u32, next: usize) -> Flow
    requires { d < 4 }
    ensures { result ≡ closed d n next f }
{
    let start = at_depth(f.starts, d);
    if n == 0 {
        return Flow { at: start, ..f };
    }
    let done = at_depth(f.dones, d);
    if done < n - 1 {
        return Flow {
            at: start,
            dones: put(f.dones, d, done + 1),
            ..f
        };
    }
    Flow {
        at: next,
        depth: d,
        ..f
    }
}

// What stands at a depth: each place is read by its own number, so that the record stays in registers.
fn at_depth<T: Copy>(places: [T; MOST_OPEN], d: usize) -> T
    requires { d < 4 }
    ensures { (z : T) → result ≡ get_or places d z }
{
    match d {
        0 => places[0],
        1 => places[1],
        2 => places[2],
        _ => places[3],
    }
}

// The places with x at a depth: each is written by its own number, so that the record stays in registers.
fn put<T: Copy>(places: [T; MOST_OPEN], d: usize, x: T) -> [T; MOST_OPEN]
    ensures { result ≡ set places d x }
{
    [
        if d == 0 { x } else { places[0] },
        if d == 1 { x } else { places[1] },
        if d == 2 { x } else { places[2] },
        if d == 3 { x } else { places[3] },
    ]
}
