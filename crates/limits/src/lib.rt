// Every limit, phase and number of the engine, as in specs/Limits.antt.
#![tactic(auto)]

pub const MAX_DEVICES: usize = 16;

pub const MAX_INTERFACES: usize = 16;

pub const PATH_LEN: usize = 256;

pub const MAX_BUSNUM: u32 = 65_535;

pub const MAX_DEVNUM: u32 = 127;

pub const MAX_PENDING: usize = 32;

pub const LAST_TICKET: u64 = 0xffff_ffff_ffff_ffff;

pub const MAX_EP: u32 = 15;

pub const MAX_TRANSFER: u32 = 16_384;

pub const NO_PACKETS: u32 = 0xffff_ffff;

pub const MAX_PACKETS: usize = 32;

pub const DESCRIPTORS_LEN: usize = 512;

pub const WORK_LEN: usize = 16_896;

pub const REPLY_LEN: usize = 8192;

pub const HEADER_ROOM: usize = 560;

pub const WAITING: u8 = 0;

pub const ATTACHED: u8 = 1;

pub const CLOSED: u8 = 2;

pub const SHORT_BUFFER: u32 = 1;

pub const BAD_TABLE: u32 = 2;

pub const SESSION_CLOSED: u32 = 3;

pub const NOT_PENDING: u32 = 4;

pub const STATUS_ABOVE_0: u32 = 5;

pub const MISFIT: u32 = 6;

pub const SHORT_DATA: u32 = 7;

pub const BAD_VERSION: u32 = 10;

pub const BAD_CODE: u32 = 11;

pub const BAD_COMMAND: u32 = 12;

pub const BAD_DIRECTION: u32 = 13;

pub const BAD_LENGTH: u32 = 14;

pub const BAD_PACKETS: u32 = 15;

pub const SEQNUM_PENDING: u32 = 16;

pub const DIRTY_PADDING: u32 = 17;

pub const BAD_DEVID: u32 = 18;
