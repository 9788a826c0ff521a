// The fields of one line, read one after the other up to the first that is wrong.
ghost use Rattle.std.specs.Prelude.{◌≡◌, ℕ, List, MatchOption, IfOk, Ok, None, codes};
ghost use Rattle.std.specs.Char.{is_not_whitespace};
ghost use Rattle.std.specs.Str.{NoCharPasses};
ghost use Rattle.std.specs.Str.Iter.{split_whitespace_rest};
ghost use Rattle.listing.specs.Lines.{WordOf};

use crate::number::Number;
use crate::wrong::Wrong;
use std::str::SplitWhitespace;

#[derive(Drop)]
pub struct Fields<'a> {
    rest: SplitWhitespace<'a>,
}

impl<'a> Fields<'a> {
    pub(crate) fn of(told: &'a str) -> Fields<'a>
        ensures { split_whitespace_rest result.rest ≡ told.now }
    {
        Fields {
            rest: told.split_whitespace(),
        }
    }

    // The word that says what the line is, if the line has any.
    pub(crate) fn first(&mut self) -> Option<&'a str>
        ensures { MatchOption result (NoCharPasses is_not_whitespace (split_whitespace_rest self.old.rest)) (λ word. WordOf self.old word.now) }
    {
        self.rest.next()
    }

    // The next word.
    pub fn word(&mut self, field: &'static str) -> Result<&'a str, Wrong<'a>>
        ensures { IfOk result (λ word. WordOf self.old word.now) }
    {
        self.rest.next().ok_or(Wrong::Missing { field })
    }

    // The next word as a number.
    pub fn number<N: Number>(&mut self, field: &'static str) -> Result<N, Wrong<'a>>
    where
        N::Err: Drop,
        ensures { IfOk result (λ number. (word : List ℕ) × WordOf self.old word × N.FromStr.from_str_gives word (Ok number)) }
    {
        let word = self.word(field)?;
        number_of(field, word)
    }

    // A limit, or `-` for none.
    pub(crate) fn limit(&mut self, field: &'static str) -> Result<Option<u32>, Wrong<'a>>
        ensures { IfOk result (λ limit. (word : List ℕ) × WordOf self.old word × (limit ≡ None → word ≡ codes "-")) }
    {
        match self.word(field)? {
            "-" => Ok(None),
            word => Ok(Some(number_of(field, word)?)),
        }
    }

    // No word may be left.
    pub(crate) fn end(mut self) -> Result<(), Wrong<'a>>
        ensures { IfOk result (λ _. NoCharPasses is_not_whitespace (split_whitespace_rest self.entry.rest)) }
    {
        self.rest
            .next()
            .map_or(Ok(()), |first| Err(Wrong::TooMany { first }))
    }
}

fn number_of<'a, N: Number>(field: &'static str, word: &'a str) -> Result<N, Wrong<'a>>
where
    N::Err: Drop,
    ensures { IfOk result (λ number. N.FromStr.from_str_gives word.now (Ok number)) }
{
    word.parse::<N>().map_err(|_| Wrong::Unfit {
        field,
        word,
        wanted: N::WANTED,
    })
}
