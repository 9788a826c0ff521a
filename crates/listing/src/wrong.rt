// What is wrong with a line that cannot be read.
ghost use Rattle.std.specs.Prelude.{◌≡◌};
ghost use Rattle.listing.specs.declared.wrong.Wrong.TheVariants.{NoMemory as OutOfMemory};

use std::alloc::AllocError;
use thiserror::Error;

#[derive(Clone, Copy, Debug, Error)]
pub enum Wrong<'a> {
    #[error("this is not UTF-8 text")]
    NotText,
    #[error("the {field} is missing")]
    Missing {
        field: &'static str,
    },
    #[error("the {field} `{word}` is not {wanted}")]
    Unfit {
        field: &'static str,
        word: &'a str,
        wanted: &'static str,
    },
    #[error("there are too many words, from `{first}` on")]
    TooMany {
        first: &'a str,
    },
    #[error("the book has a basic record already")]
    SecondBasic,
    #[error("the book has no basic record")]
    NoBasic,
    #[error("there is no memory left for this")]
    NoMemory,
}

impl From<AllocError> for Wrong<'_> {
    ghost from_gives = { λ _ r. r ≡ OutOfMemory };

    fn from(_error: AllocError) -> Self {
        Wrong::NoMemory
    }
}

// The same with the line's number, counted from 1.
#[derive(Clone, Copy, Debug, Error)]
#[error("line {number}: {wrong}")]
pub struct BadLine<'a> {
    pub number: usize,
    pub wrong: Wrong<'a>,
}
