// Something that may be absent, as it is printed: a word stands for it then.
use std::fmt;

#[derive(Clone, Copy)]
pub struct OrWord<T>(pub Option<T>, pub &'static str);

impl<T: fmt::Display> fmt::Display for OrWord<T> {
    fn fmt<W: fmt::Write>(&self, f: &mut fmt::Formatter<W>) -> fmt::Result {
        match &self.0 {
            Some(value) => value.fmt(f),
            None => f.write_str(self.1),
        }
    }
}
