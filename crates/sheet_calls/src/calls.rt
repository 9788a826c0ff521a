// The calls on standard input, each answered by a line of its own.
use crate::answer::{Said, Shown};
use crate::asked::Asked;
use crate::desk::Desk;
use crate::nodes::nodes_of;
use book::{Envelope, Limits};
use edits::SheetFault;
use kinds::House;
use listing::{BadLine, BookText, Refusal, Typed, Wrong, told};
use sheet::{Answer, Call, Planning, Sheet};
use std::io::{BufRead, BufReader};
use std::str::from_utf8;
use std::{fmt, io};

// Opens a sheet on the book, and carries out each call on it; an opening that is refused ends it.
pub(crate) fn answer_calls(rt: &HostRuntime, book: &BookText) -> io::Result<()> {
    let lists = &book.lists;
    let mut nodes = nodes_of::<House>(rt.alloc(), lists.stations.len())?;
    let (envelope, sheet) = match opened(book, nodes.as_mut_slice()) {
        Ok(opened) => opened,
        Err(fault) => return print_said(rt, "open", &Refusal(fault)),
    };
    print_said(rt, "open", &Said(Answer::Done))?;
    let mut desk = Desk {
        basic: book.basic,
        stations: lists.stations.iter().copied().collect(rt.alloc())?,
        nodes,
        limits: Limits {
            zones: lists.zones.as_slice(),
            frames: lists.frames.as_slice(),
            envelope: &envelope,
        },
    };
    answer_lines(rt, &mut desk, Sheet::InPlanning(sheet))
}

// The envelope is made first, and then the sheet is opened.
fn opened(book: &BookText, nodes: &mut [House]) -> Result<(Envelope, Planning), SheetFault> {
    let envelope = Envelope::new(book.lists.vertices.as_slice())?;
    let sheet = Planning::open(book.lists.stations.as_slice(), nodes, book.basic)?;
    Ok((envelope, sheet))
}

fn answer_lines(rt: &HostRuntime, desk: &mut Desk<'_>, mut sheet: Sheet) -> io::Result<()> {
    let lines = BufReader::new(rt.alloc(), rt.stdin())?.split(rt.alloc(), b'\n');
    for (index, line) in lines.enumerate() {
        sheet = answer_line(rt, desk, sheet, index.saturating_add(1), line?.as_slice())?;
    }
    Ok(())
}

// The sheet after a line: as it was where the line says nothing or cannot be read.
fn answer_line(
    rt: &HostRuntime,
    desk: &mut Desk<'_>,
    sheet: Sheet,
    number: usize,
    line: &[u8],
) -> io::Result<Sheet> {
    match asked(rt, line) {
        Ok(Some((asked, told))) => answer(rt, desk, sheet, told, asked),
        Ok(None) => Ok(sheet),
        Err(wrong) => {
            rt.println(BadLine { number, wrong })?;
            Ok(sheet)
        }
    }
}

// What a line asks, and how it was told; none where it tells nothing. `loadsheet` reads its lines by the same two
// steps and makes something else of them: a function for both would hold no more than these two calls.
fn asked<'a>(rt: &HostRuntime, line: &'a [u8]) -> Result<Option<(Asked, &'a str)>, Wrong<'a>> {
    let line = from_utf8(line).map_err(|_| Wrong::NotText)?;
    let told = told(line);
    let asked = Asked::of(rt.alloc(), told)?;
    Ok(asked.map(|asked| (asked, told)))
}

// The sheet after what is asked of it, whose answer is printed.
fn answer(
    rt: &HostRuntime,
    desk: &mut Desk<'_>,
    sheet: Sheet,
    told: &str,
    asked: Asked,
) -> io::Result<Sheet> {
    let limits = desk.limits;
    let (sheet, answer) = match asked {
        Asked::Call(call) => desk.step(sheet, &call),
        Asked::Judge => desk.step(sheet, &Call::Judge { limits }),
        Asked::Release => desk.step(sheet, &Call::Release { limits }),
        Asked::Change(asked) => desk.step(sheet, &Call::Change { limits, asked }),
        Asked::Stages(bytes) => {
            let bytes = bytes.as_slice();
            desk.step(sheet, &Call::Stages { limits, bytes })
        }
        Asked::FirstMass(mass) => (sheet, desk.first_mass(rt.alloc(), mass)?),
        Asked::Show => {
            let shown = Shown {
                sheet: &sheet,
                stations: desk.stations.as_slice(),
            };
            print_said(rt, told, &shown)?;
            return Ok(sheet);
        }
    };
    print_said(rt, told, &Said(answer))?;
    Ok(sheet)
}

// Prints a call as it was typed, and what is said to it.
fn print_said<S: fmt::Display>(rt: &HostRuntime, told: &str, said: &S) -> io::Result<()> {
    let typed = Typed(told);
    println!(rt; "{typed}-> {said}")
}
