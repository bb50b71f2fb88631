// The marks, offsets and limits of a tape, as in specs/Layout.antt.
pub const MAX_RECORDS: usize = 65_536;

pub const MAX_COUNT: u16 = 62_000;

pub const DATA_LEN: usize = 61_440;

// `C>`, `D>`, `I>` and `X>`.
pub const STREAM_MARK: u16 = 0x433e;

pub const COMPLETION_MARK: u16 = 0x443e;

pub const ISO_MARK: u16 = 0x493e;

pub const CLOSE_MARK: u16 = 0x583e;

pub const MARK_AT: usize = 0;

pub const MARK_LEN: usize = 2;

pub const COUNT_AT: usize = 2;

pub const STREAM_AT: usize = 4;

pub const TICKET_AT: usize = 2;

pub const STATUS_AT: usize = 10;

pub const ACTUAL_AT: usize = 14;

pub const COMPLETION_LEN: usize = 18;

pub const RESULT_COUNT_AT: usize = 14;

pub const RESULTS_AT: usize = 15;

pub const RESULT_LEN: usize = 8;

pub const RESULT_STATUS_AT: usize = 4;

pub const MAX_RECORD_LEN: usize = STREAM_AT + MAX_COUNT as usize;
