// When a deck is judged: as it stands, or between the stages of loading it.
#[derive(Clone, Copy, Debug, PartialEq, Eq)]
pub enum Occasion {
    Standing,
    Stage,
}
