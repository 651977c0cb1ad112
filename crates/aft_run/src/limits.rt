//! The limits of a run.

/// Lines of a script, also those without a command.
pub const SCRIPT_LINES: u32 = 20_000;

/// Bytes of a value.
pub const VALUE_BYTES: usize = 4_096;

/// Pairs of a page of a scan.
pub const PAGE_PAIRS: u32 = 64;

/// Bytes of a file that is read: 2^32 - 1.
pub const FILE_BYTES: u64 = 4_294_967_295;

/// The greatest time of a commit, in milliseconds since 1970: 2^48 - 1.
pub const LAST_TIME: u64 = 281_474_976_710_655;
