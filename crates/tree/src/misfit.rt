// Why a call on a tree is not answered.
#[derive(Clone, Copy, Debug, PartialEq, Eq)]
pub enum Misfit {
    // The deck has no station or over 256, or the node memory is not twice its width.
    OtherLength,
    // No such station.
    NoStation,
    // A range with `from` not below `to`, or `to` past the last station.
    NoRange,
}
