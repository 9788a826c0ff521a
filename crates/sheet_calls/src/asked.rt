// What a line of standard input asks.
use crate::stage_bytes::stage_bytes;
use kinds::ForeBroken;
use listing::{Fields, Line, Wrong, read_told};
use sheet::{Call, Correction};
use std::alloc::Global;

#[derive(Drop)]
pub enum Asked {
    // A call on the sheet that brings no limits.
    Call(Call<'static, ForeBroken>),
    // Calls by the limits of the book.
    Judge,
    Release,
    Change(Correction),
    // Stages by the same limits, by the bytes of their records.
    Stages(Vec<u8>),
    // The first station up to which the masses come to so much.
    FirstMass(i64),
    // The sheet's state, and the masses aboard.
    Show,
}

impl Asked {
    // What is told, or none where nothing is.
    pub(crate) fn of(heap: Global, told: &str) -> Result<Option<Asked>, Wrong<'_>> {
        match stage_bytes(heap, told)? {
            Some(bytes) => Ok(Some(Asked::Stages(bytes))),
            None => read_told(told, "call"),
        }
    }
}

impl Line for Asked {
    const KNOWN: &'static str =
        "load, unload, shift, change, range, first, judge, stages, release, reopen or show";

    // What a word asks for is tested, not proved.
    ghost says = { λ _ _. Unit {0} };

    fn read<'a>(first: &str, fields: &mut Fields<'a>) -> Result<Option<Asked>, Wrong<'a>> {
        let asked = match first {
            "change" => Asked::Change(Correction {
                station: fields.number("station")?,
                kg: fields.number("mass")?,
            }),
            "judge" => Asked::Judge,
            "release" => Asked::Release,
            "first" => first_of(fields)?,
            "show" => Asked::Show,
            _ => return Ok(call(first, fields)?.map(Asked::Call)),
        };
        Ok(Some(asked))
    }
}

// A call that brings no limits, or none where the word is another. Not by way of a record's call: a station has any
// width here, and a refusal names the width.
fn call<'a>(
    first: &str,
    fields: &mut Fields<'a>,
) -> Result<Option<Call<'static, ForeBroken>>, Wrong<'a>> {
    let call = match first {
        "load" => Call::Load {
            station: fields.number("station")?,
            kg: fields.number("mass")?,
        },
        "unload" => Call::Unload {
            station: fields.number("station")?,
            kg: fields.number("mass")?,
        },
        "shift" => Call::Shift {
            from: fields.number("station to shift from")?,
            to: fields.number("station to shift to")?,
            kg: fields.number("mass")?,
        },
        "range" => Call::Range {
            from: fields.number("first station")?,
            to: fields.number("end station")?,
        },
        "reopen" => Call::Reopen,
        _ => return Ok(None),
    };
    Ok(Some(call))
}

// Which test is asked for.
fn first_of<'a>(fields: &mut Fields<'a>) -> Result<Asked, Wrong<'a>> {
    match fields.word("test")? {
        "mass" => Ok(Asked::FirstMass(fields.number("mass")?)),
        "fore" => Ok(Asked::Call(Call::First { test: ForeBroken })),
        word => Err(Wrong::Unfit {
            field: "test",
            word,
            wanted: "mass or fore",
        }),
    }
}
