// Why a program ends early.
ghost use Rattle.listing.specs.declared.failure.Failure.TheVariants.{Usage as OfUsage, Book as OfBook, Line as OfLine, Stream as OfStream};

use std::alloc::AllocError;
use std::io;
use thiserror::Error;

#[derive(Debug, Drop, Error)]
pub enum Failure {
    #[error("usage: {program} BOOK")]
    Usage { program: &'static str },
    #[error("cannot read the book {path}: {error}")]
    Book { path: String, error: io::Error },
    // What is wrong with a line of the book.
    #[error("{0}")]
    Line(String),
    // The arguments or standard input cannot be read, or standard output cannot be written.
    #[error("cannot go on: {0}")]
    Stream(#[from] io::Error),
}

// Want of memory is a failure of a stream.
impl From<AllocError> for Failure {
    ghost from_gives = { λ _ r. elim r [ OfUsage _ ↦ ⊥ | OfBook _ _ ↦ ⊥ | OfLine _ ↦ ⊥ | OfStream _ ↦ Unit {0} ] };

    fn from(error: AllocError) -> Failure {
        Failure::Stream(io::Error::from(error))
    }
}
