use edits::SheetFault;

// How a run of stages ends: every limit was kept in each, or the first that broke one with its verdict, or the
// first that was refused. Stages count from 0.
// No `Result`: no case is a failure of the call, and a definition gives the stages each of the three.
#[derive(Clone, Copy)]
pub enum Ending {
    AllKept,
    Broken {
        stage: usize,
        code: u8,
        place: usize,
    },
    Refused {
        stage: usize,
        fault: SheetFault,
    },
}
