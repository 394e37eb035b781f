/// What a peer is to the speaker: of another AS, of its own, or of its own and a client (RFC 4456).
#[derive(Clone, Copy, PartialEq, Eq)]
pub enum Kind {
    External,
    Internal,
    Client,
}
