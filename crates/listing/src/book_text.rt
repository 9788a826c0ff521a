// A book as its file tells it.
ghost use Rattle.std.specs.Prelude.{◌≡◌, IfOk, Some};

use crate::lists::Lists;
use crate::wrong::{BadLine, Wrong};
use book::Basic;
use std::alloc::Global;
use std::io;
use std::str::from_utf8;

#[derive(Drop)]
pub struct BookText {
    pub basic: Basic,
    pub lists: Lists,
}

impl BookText {
    // The book that these bytes tell, or their first line that cannot be read.
    pub fn read(heap: Global, bytes: &[u8]) -> Result<BookText, BadLine<'_>>
        ensures { IfOk result (λ book. book.lists.basic ≡ Some book.basic) }
    {
        let text = from_utf8(bytes).map_err(|error| BadLine {
            number: line_at(bytes, error.valid_up_to()),
            wrong: Wrong::NotText,
        })?;
        let mut lists = Lists::new(heap);
        lists.fill(text)?;
        let basic = lists.basic.ok_or_else(|| BadLine {
            number: text.lines().count().max(1),
            wrong: Wrong::NoBasic,
        })?;
        Ok(BookText { basic, lists })
    }

    // Prints the entries in the order of the file. Each line is written by itself: whoever reads the output meanwhile, or
    // writes to the same file, sees whole lines.
    pub fn print(&self, rt: &HostRuntime) -> io::Result<()> {
        for entry in self.lists.entries.iter() {
            rt.println(entry)?;
        }
        Ok(())
    }
}

// The number, from 1, of the line in which the byte at `at` stands.
fn line_at(bytes: &[u8], at: usize) -> usize {
    let before = bytes.iter().take(at);
    let ends = before.filter(|byte| **byte == b'\n').count();
    ends.saturating_add(1)
}

#[cfg(test)]
mod tests {
    use super::BookText;

    // No clause says that any book is read: this one has an entry of each kind.
    #[test]
    fn a_book_is_read(rt: HostRuntime) {
        let text =
            b"basic 1 2 3 4 # empty\nstation 0 9 - 9 1\nzone 0 1 9\nframe 0 aft 9\nvertex 1 2\n";
        assert!(rt; BookText::read(rt.alloc(), text).is_ok());
    }
}
