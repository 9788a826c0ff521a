// A refusal as it is printed, in the words of `listing`: its own here, since these cases stand on the two lowest layers
// alone. A record's fault goes up whole, so this serves both.
use book::BookFault;
use std::fmt;

#[derive(Clone, Copy)]
pub(crate) struct Refusal(pub(crate) BookFault);

impl fmt::Display for Refusal {
    fn fmt<W: fmt::Write>(&self, f: &mut fmt::Formatter<W>) -> fmt::Result {
        write!(
            f,
            "refused {} layer {} place {}",
            self.0.number(),
            self.0.layer(),
            self.0.place()
        )
    }
}
