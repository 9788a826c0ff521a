use crate::correction::Correction;
use book::Limits;

// A call on a sheet, with all that it brings beside the sheet's own memory.
#[derive(Clone, Copy)]
pub enum Call<'a, T> {
    Load {
        station: usize,
        kg: u32,
    },
    Unload {
        station: usize,
        kg: u32,
    },
    Shift {
        from: usize,
        to: usize,
        kg: u32,
    },
    Range {
        from: usize,
        to: usize,
    },
    First {
        test: T,
    },
    Judge {
        limits: Limits<'a>,
    },
    Stages {
        limits: Limits<'a>,
        bytes: &'a [u8],
    },
    Release {
        limits: Limits<'a>,
    },
    Change {
        limits: Limits<'a>,
        asked: Correction,
    },
    Reopen,
}
