// The book of a program.
ghost use Rattle.std.specs.Prelude.{◌≡◌, IfOk, Some};

use crate::book_text::BookText;
use crate::failure::Failure;
use std::{env, fs};

// Reads the book whose file is the program's one argument.
pub fn read_book(rt: &HostRuntime, program: &'static str) -> Result<BookText, Failure>
    ensures { IfOk result (λ book. book.lists.basic ≡ Some book.basic) }
{
    let path = book_path(rt, program)?;
    let bytes = fs::read(rt, path.as_str()).map_err(|error| Failure::Book { path, error })?;
    // A match: making the text can fail too, and a closure of `map_err` holds no `?`.
    match BookText::read(rt.alloc(), bytes.as_slice()) {
        Ok(book) => Ok(book),
        Err(bad) => Err(Failure::Line(bad.to_string(rt.alloc())?)),
    }
}

fn book_path(rt: &HostRuntime, program: &'static str) -> Result<String, Failure> {
    let mut args = env::args(rt)?.skip(1);
    match (args.next(), args.next()) {
        (Some(path), None) => Ok(path),
        _ => Err(Failure::Usage { program }),
    }
}
