//! The well-known communities (RFC 1997).

/// Not to be told outside of the confederation: here, to no external peer.
pub const NO_EXPORT: u32 = 0xFFFF_FF01;

/// Not to be told to any peer.
pub const NO_ADVERTISE: u32 = 0xFFFF_FF02;

/// Not to be told to external peers, those of the confederation's members among them.
pub const NO_EXPORT_SUBCONFED: u32 = 0xFFFF_FF03;
