// A call as it was typed, with a blank after each word.
use std::fmt;

#[derive(Clone, Copy)]
pub struct Typed<'a>(pub &'a str);

impl fmt::Display for Typed<'_> {
    fn fmt<W: fmt::Write>(&self, f: &mut fmt::Formatter<W>) -> fmt::Result {
        for word in self.0.split_whitespace() {
            write!(f, "{word} ")?;
        }
        Ok(())
    }
}
