//! A board of the speaker that is shipped.

ghost use Rattle.std.specs.Prelude.{◌≡◌, IfOk};
ghost use Rattle.std.specs.Vec.{vec_len};

use crate::running::Shipped;
use crate::wrong::Wrong;
use std::alloc::Global;
use std::sync::ledger::Ledger;
use ug_board::{Board, LaneSaid, LaneStep, Machine};
use ug_commands::configurations_open;
use ug_config::read_config;
use ug_events::Event;
use ug_speaker::Speaker;
use ug_types::{Name, NoMemory, PeerId, Steps};
use ug_world::Refusal;

/// A job of the speaker.
pub type Job = <Shipped as Machine>::Job;

/// What is said to a job.
pub type Said = <Shipped as Machine>::Said;

/// A board, and room for one message.
#[derive(Drop)]
pub struct Stage {
    board: Board<Shipped>,
    buf: Vec<u8>,
    ghost room: { vec_len buf ≡ 65535 },
}

impl Stage {
    /// The board in the world of a configuration.
    pub fn open(alloc: Global, text: &[u8]) -> Result<Stage, Wrong> {
        let board = board_of(alloc, text)?;
        let buf = room_of(alloc)?;
        Ok(Stage { board, buf })
    }

    /// The machine.
    pub fn machine(&self) -> &Shipped {
        self.board.machine()
    }

    /// Whether the world accepts an event.
    pub fn judge(&self, event: &Event) -> Result<(), Refusal> {
        self.board.machine().world().judge(event)
    }

    /// The peer with this name.
    pub fn peer_named(&self, alloc: Global, name: &str) -> Result<Option<PeerId>, NoMemory> {
        match Name::read(alloc, name.as_bytes())? {
            Some(name) => Ok(self.board.machine().world().peer_named(&name)),
            None => Ok(None),
        }
    }

    /// Does a job. None where it may not be done now.
    pub fn job<L: Ledger>(
        &mut self,
        job: Job,
        steps: &mut Steps<L>,
    ) -> Result<Option<Said>, NoMemory> {
        if self.board.is_spent() || !self.board.machine().legal(&job) {
            return Ok(None);
        }
        let said = self.board.job(0, job, steps)?;
        Ok(Some(said))
    }

    /// Takes the step of a lane.
    pub fn lane(&mut self, step: LaneStep) -> LaneSaid {
        self.board.lane(1, step, self.buf.as_mut_slice())
    }

    /// Tells the loss of a session, and whether it is noted.
    pub fn lose(&mut self, peer: PeerId, session: u32) -> bool {
        let may = self.board.machine().may_lose(peer, session);
        let _said = self.lane(LaneStep::Lost { peer, session });
        may
    }

    /// The first bytes of what was handed out last.
    pub fn handed(&self, len: usize) -> &[u8] {
        let bytes = self.buf.as_slice();
        &bytes[..len.min(bytes.len())]
    }
}

fn board_of(alloc: Global, text: &[u8]) -> Result<Board<Shipped>, Wrong> {
    configurations_open();
    let Ok(world) = read_config(alloc, text) else {
        return Err(Wrong::Line("the configuration is refused"));
    };
    let Ok(machine) = Shipped::begin_with(alloc, world) else {
        return Err(Wrong::from(NoMemory));
    };
    match Board::new(alloc, machine) {
        Ok(board) => Ok(board),
        Err(_) => Err(Wrong::from(NoMemory)),
    }
}

fn room_of(alloc: Global) -> Result<Vec<u8>, NoMemory>
    ensures { IfOk result (λ buf. vec_len buf ≡ 65535) }
{
    Ok(vec![in alloc; 0u8; 65535]?)
}
