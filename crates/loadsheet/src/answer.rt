// The answer to a line of standard input: the call, its record, and the call that was read back.
use crate::call_text::CallText;
use arrayvec::ArrayVec;
use book::BookFault;
use listing::{Refusal, Typed, Wrong, read_told, told};
use records::{Call, RecordFault, echo};
use std::fmt;
use std::str::from_utf8;

// Room for the longest record, which has 12 bytes.
const ROOM: usize = 16;

#[derive(Drop)]
pub struct Answer<'a> {
    typed: Typed<'a>,
    back: Result<Echoed, Refusal>,
}

impl<'a> Answer<'a> {
    // The answer to this line, or none where it says nothing.
    pub(crate) fn to(line: &'a [u8]) -> Result<Option<Answer<'a>>, Wrong<'a>> {
        let line = from_utf8(line).map_err(|_| Wrong::NotText)?;
        let told = told(line);
        let Some(call) = read_told::<Call>(told, "call")? else {
            return Ok(None);
        };
        let typed = Typed(told);
        let back = Echoed::of(call).map_err(|fault| Refusal::from(BookFault::from(fault)));
        Ok(Some(Answer { typed, back }))
    }
}

impl fmt::Display for Answer<'_> {
    fn fmt<W: fmt::Write>(&self, f: &mut fmt::Formatter<W>) -> fmt::Result {
        let typed = self.typed;
        match &self.back {
            Ok(echoed) => write!(f, "{typed}-> {echoed}"),
            Err(refusal) => write!(f, "{typed}-> {refusal}"),
        }
    }
}

// A call's record, and the call that was read back from it.
#[derive(Drop)]
struct Echoed {
    record: ArrayVec<u8, ROOM>,
    call: Call,
}

impl Echoed {
    fn of(call: Call) -> Result<Echoed, RecordFault> {
        let mut memory = [0; ROOM];
        let (call, count) = echo(&mut memory, &call)?;
        let mut record = ArrayVec::from(memory);
        record.truncate(count);
        Ok(Echoed { record, call })
    }
}

// The record's bytes in hexadecimal, with a blank after each.
impl fmt::Display for Echoed {
    fn fmt<W: fmt::Write>(&self, f: &mut fmt::Formatter<W>) -> fmt::Result {
        for byte in self.record.iter() {
            write!(f, "{byte:02x} ")?;
        }
        let call = CallText(self.call);
        write!(f, "-> {call}")
    }
}
