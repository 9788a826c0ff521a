// Lines of text: a word that says what the line is, its fields, and a comment.
ghost use Rattle.std.specs.Prelude.{◌≡◌, ℕ, List, ◌<◌, length, take, ◌≢◌, slice_index, IfOk, IfSome};
ghost use Rattle.listing.specs.Lines.{Says};

use crate::fields::Fields;
use crate::wrong::Wrong;

// What a line can say.
pub trait Line: Sized {
    // Which first words are known.
    const KNOWN: &'static str;

    // What is said by a line with this first word.
    ghost says: { List ℕ → Self → Type 0 };

    // What a line with this first word says, or none where the word is not known.
    fn read<'a>(first: &str, fields: &mut Fields<'a>) -> Result<Option<Self>, Wrong<'a>>
        ensures { IfOk result (λ read. IfSome read (λ said. says first.now said)) };
}

// What a line tells before its comment.
pub fn told(line: &str) -> &str
    ensures bare { (k : ℕ) → k < length result.now → slice_index result.now k ≢ 35 }
    ensures front { result.now ≡ take (length result.now) line.now }
{
    line.split_once('#').map_or(line, |(told, _)| told)
}

// What is told, or none where nothing is. `named` is what a first word is called that is not known.
pub fn read_told<'a, L: Line + Drop>(
    told: &'a str,
    named: &'static str,
) -> Result<Option<L>, Wrong<'a>>
    ensures { IfOk result (λ said. Says L.Line.says told.now said) }
{
    let mut fields = Fields::of(told);
    let Some(first) = fields.first() else {
        return Ok(None);
    };
    let Some(said) = L::read(first, &mut fields)? else {
        return Err(Wrong::Unfit {
            field: named,
            word: first,
            wanted: L::KNOWN,
        });
    };
    fields.end()?;
    Ok(Some(said))
}
