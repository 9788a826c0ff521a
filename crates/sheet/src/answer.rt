use edits::SheetFault;

// What a sheet answers to a call, `K` being the kind of its summaries.
#[derive(Clone, Copy)]
pub enum Answer<K> {
    Done,
    Refused(SheetFault),
    Summary(K),
    First(Option<usize>),
    Verdict {
        code: u8,
        place: usize,
    },
    NoStage,
    Stopped {
        stage: usize,
        code: u8,
        place: usize,
    },
    StageRefused {
        stage: usize,
        fault: SheetFault,
    },
    // The sheet's state does not admit the call.
    NotAdmitted,
}
