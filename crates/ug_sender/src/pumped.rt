//! What a lane's step answers, and what a round of steps does.

/// What one step of a lane came to.
#[derive(Clone, Copy, PartialEq, Eq)]
pub enum Pumped {
    /// A session began, on the wire too.
    Begun,
    /// A packet was handed out, and is sent whole; or it was of another session than the open one, and nothing is sent.
    Sent,
    /// There was nothing to send.
    Idle,
    /// A call of the wire failed, and the loss of its session was asked of the board.
    Lost,
    /// There is nothing more to send.
    Stopped,
}

/// What a round of a lane came to: how many packets were handed out in its turn, and how it ended. It ends as a step does;
/// at `Sent` all packets are sent, and there may be more.
#[derive(Clone, Copy, PartialEq, Eq)]
pub struct Round {
    pub packets: usize,
    pub end: Pumped,
}
