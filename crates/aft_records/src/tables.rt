//! The stored tables.

use aft_fields::{Kind, Layout};

/// Versions: time, UUID, key and value.
pub(crate) const VERSIONS: Layout<4> = Layout {
    tag: *b"AV1",
    kinds: [Kind::U64, Kind::U128, Kind::Text, Kind::Bytes],
};

/// Records of the first format: time, UUID and keys.
pub(crate) const COMMITS: Layout<3> = Layout {
    tag: *b"AC1",
    kinds: [Kind::U64, Kind::U128, Kind::Texts],
};

/// Records of the second format: time, UUID and keys, and the node, the incarnation and the reads of their origin.
pub(crate) const RECORDS: Layout<6> = Layout {
    tag: *b"AC2",
    kinds: [
        Kind::U64,
        Kind::U128,
        Kind::Texts,
        Kind::U64,
        Kind::U64,
        Kind::Texts,
    ],
};

/// Full markers: time, UUID and keys.
pub(crate) const FULLS: Layout<3> = Layout {
    tag: *b"AF1",
    kinds: [Kind::U64, Kind::U128, Kind::Texts],
};

/// Short markers: time and UUID.
pub(crate) const DONES: Layout<2> = Layout {
    tag: *b"AD1",
    kinds: [Kind::U64, Kind::U128],
};
