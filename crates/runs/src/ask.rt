// A call that needs no judging, so that any kind of summary can answer it.
// Its forms stand in `Call` too: a `Call` that held an `Ask` would have each caller name both.
#[derive(Clone, Copy)]
pub enum Ask<T> {
    Load { station: usize, kg: u32 },
    Unload { station: usize, kg: u32 },
    Shift { from: usize, to: usize, kg: u32 },
    Range { from: usize, to: usize },
    First { test: T },
}
