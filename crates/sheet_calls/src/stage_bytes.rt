// The bytes that a line hands to stages: records that the writer made, or hex digits.
use listing::{Wrong, read_told};
use records::{Call, Writer};
use std::alloc::Global;

// How many bytes the longest record has.
const LONGEST: usize = 12;

// The bytes of the stages that are told, or none where the line is another call.
pub(crate) fn stage_bytes(heap: Global, told: &str) -> Result<Option<Vec<u8>>, Wrong<'_>> {
    let Some(stages) = after("stages", told) else {
        return Ok(None);
    };
    match after("hex", stages) {
        Some(digits) => Ok(Some(hex_bytes(heap, digits)?)),
        None => Ok(Some(records_of(heap, stages)?)),
    }
}

// What follows this first word, or none where the first word is another.
fn after<'a>(word: &str, told: &'a str) -> Option<&'a str> {
    if told.split_whitespace().next() != Some(word) {
        return None;
    }
    told.split_once(word).map(|(_, rest)| rest)
}

// The records of calls with `;` between them, one after the other.
fn records_of(heap: Global, calls: &str) -> Result<Vec<u8>, Wrong<'_>> {
    let count = calls.split(';').count();
    let mut memory = vec![in heap; 0; count.saturating_mul(LONGEST)]?;
    let mut writer = Writer::new(memory.as_mut_slice());
    for told in calls.split(';') {
        let Some(call) = read_told::<Call>(told, "stage")? else {
            return Err(Wrong::Missing { field: "stage" });
        };
        writer.write(&call).map_err(|_| Wrong::NoMemory)?;
    }
    let written = writer.written();
    memory.truncate(written);
    Ok(memory)
}

// The bytes of words of hex digits. A word is decoded pair by pair: a whole one would be held twice.
fn hex_bytes(heap: Global, digits: &str) -> Result<Vec<u8>, Wrong<'_>> {
    let mut bytes = Vec::new(heap);
    for word in digits.split_whitespace() {
        for pair in word.as_bytes().chunks(2) {
            let mut byte = [0];
            hex::decode_to_slice(pair, &mut byte).map_err(|_| Wrong::Unfit {
                field: "text",
                word,
                wanted: "pairs of hex digits",
            })?;
            bytes.push(byte[0]).map_err(|_| Wrong::NoMemory)?;
        }
    }
    Ok(bytes)
}
