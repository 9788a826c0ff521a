// Bytes that are or are not a record.
use crate::refusal::Refusal;
use records::{Call, Writer, read};
use std::io;

const LOAD: [u8; 12] = [8, 0, 1, 0, 1, 0, 250, 0, 0, 0, 0xaa, 0xbb];

// Bytes with a name, and where in them a record is read.
const READS: [(&str, &[u8], usize); 11] = [
    ("load and two bytes more", &LOAD, 0),
    ("those two bytes", &LOAD, 10),
    ("past the end", &LOAD, 13),
    ("three bytes", &[8, 0, 1], 0),
    ("one byte short", &[8, 0, 1, 0, 1, 0, 250, 0, 0], 0),
    ("short and unknown", &[8, 0, 9, 0], 0),
    ("kind 0", &[2, 0, 0, 0], 0),
    ("kind 5", &[2, 0, 5, 0], 0),
    ("length 0", &[0, 0, 1, 0], 0),
    (
        "load with a shift's length",
        &[10, 0, 1, 0, 1, 0, 2, 0, 250, 0, 0, 0],
        0,
    ),
    (
        "shift with a load's length",
        &[8, 0, 3, 0, 1, 0, 2, 0, 250, 0, 0, 0],
        0,
    ),
];

fn print_read(rt: &HostRuntime, name: &str, bytes: &[u8], at: usize) -> io::Result<()> {
    match read(bytes, at) {
        Ok((_, next)) => println!(rt; "{name}: a call, the next begins at {next}"),
        Err(fault) => println!(rt; "{name}: {}", Refusal(fault.into())),
    }
}

fn print_bytes(rt: &HostRuntime, bytes: &[u8]) -> io::Result<()> {
    for byte in bytes {
        print!(rt; "{byte:02x} ")?;
    }
    println!(rt; "")
}

// Two records into room for one and a part: what stands after the refusal.
fn print_room(rt: &HostRuntime) -> io::Result<()> {
    let mut memory = [0xee; 17];
    let call = Call::Load {
        station: 1,
        kg: 250,
    };
    let mut writer = Writer::new(&mut memory);
    let first = writer.write(&call).is_ok();
    let second = writer.write(&call);
    let written = writer.written();
    println!(rt; "first written: {first}, bytes of finished records: {written}")?;
    if let Err(fault) = second {
        println!(rt; "second: {}", Refusal(fault.into()))?;
    }
    print_bytes(rt, &memory)
}

pub(crate) fn run(rt: &HostRuntime) -> io::Result<()> {
    for (name, bytes, at) in READS {
        print_read(rt, name, bytes, at)?;
    }
    print_room(rt)
}
