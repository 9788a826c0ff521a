use book::Basic;

// What a sheet carries from call to call, beside the memory that the caller brings: how many stations it has,
// the basic record, and how many kilograms of the allowance are used.
#[derive(Clone, Copy)]
pub struct Numbers {
    pub(crate) n: usize,
    pub(crate) basic: Basic,
    pub(crate) used: u32,
}
