// Why the motor stops a run.
#[derive(Clone, Copy, PartialEq, Eq)]
pub enum Stop {
    FlagNotFound,
    PositionUnknown,
    RangeLeft,
}
