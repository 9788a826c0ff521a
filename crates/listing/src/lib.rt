// The text of a book, of summaries and of refusals, as the programs read and print it.
#![tactic(auto)]

mod arm;
mod book_file;
mod book_text;
mod by_hand;
mod call_line;
mod decks;
mod entry;
mod entry_text;
mod failure;
mod fields;
mod kept;
mod line;
mod lists;
mod number;
mod or_word;
mod refusal;
mod summary;
mod typed;
mod wrong;

pub use book_file::read_book;
pub use book_text::BookText;
pub use decks::print_decks;
pub use entry::Entry;
pub use failure::Failure;
pub use fields::Fields;
pub use kept::Kept;
pub use line::{Line, read_told, told};
pub use lists::{Lists, Numbered};
pub use number::Number;
pub use or_word::OrWord;
pub use refusal::Refusal;
pub use summary::Summary;
pub use typed::Typed;
pub use wrong::{BadLine, Wrong};
