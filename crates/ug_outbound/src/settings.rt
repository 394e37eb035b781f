use ug_types::Addr;

/// The speaker's own settings.
#[derive(Clone, Copy, PartialEq, Eq)]
pub struct Local {
    /// The local AS.
    pub asn: u32,
    pub router_id: Addr,
    /// The cluster that it reflects for (RFC 4456).
    pub cluster_id: Addr,
    /// How many packets a queue holds.
    pub queue_limit: u32,
    /// After how many events the peers are brought up to date.
    pub coalesce: u32,
    /// After how many events with a full queue its slowest peers are moved.
    pub slow_after: u32,
}
