// How many URBs there were, and what became of them.

// How many URBs were ever accepted, and what became of those that are no longer pending.
#[repr(C)]
#[derive(Clone, Copy, Default)]
pub struct Counts {
    pub accepted: u64,
    pub returned: u64,
    pub unlinked: u64,
    pub dropped: u64,
}

// How many URBs were accepted, are pending, were returned, unlinked and dropped.
#[derive(Clone, Copy)]
pub struct Numbers {
    pub accepted: u64,
    pub pending: u64,
    pub returned: u64,
    pub unlinked: u64,
    pub dropped: u64,
}
