//! The traits of the outside. Each object has a count of faults that never falls. A call fails only where that
//! count rose in the call, and one that answers `Ok` leaves it as it was.

ghost use Rattle.std.specs.Prelude.{◌≡◌, ℕ, ◌+◌, ◌<◌, ◌≤◌, true, false, List, [], ◌∷◌, length, take, Option, OnOk, OnErr, IfOk, IsErrOf};
ghost use Rattle.ug_edge.specs.Told.{Rose, TakesFront, IsEnded, AppendsPiece, IsFresh, BeginsSession, SendsPiece, FileText, HasPicked, Picks, WireName, WiresMade, MakesWire, AppendsAll};

/// A call of the outside failed.
#[derive(Clone, Copy, PartialEq, Eq)]
pub struct Failed;

/// Why a site could not do what was asked.
#[derive(Clone, Copy, PartialEq, Eq)]
pub enum SiteFault {
    Failed,
    NoMemory,
}

/// What bytes are read from.
pub trait Source {
    /// The bytes that are left to read, where told.
    ghost left: { Self → Option (List ℕ) };

    /// How often a read, or the choice of what to read, has failed.
    ghost faults: { Self → ℕ };

    /// Beside what it reads a source may have files to choose from, where told, the names that were picked, the wires that
    /// it made, and a count of its own for those that could not be made. Reading changes none of these.
    ghost files: { Self → Option (List FileText) };

    ghost picks: { Self → Picks };

    ghost made: { Self → WiresMade };

    ghost wire_faults: { Self → ℕ };

    /// Puts the next bytes at the front of `buf`, and answers how many: 0, for a `buf` that has room, at the
    /// end alone.
    fn read(&mut self, buf: &mut [u8]) -> Result<usize, Failed>
        ensures count { IfOk result (λ n. n ≤ length buf.old) }
        ensures taken { IfOk result (λ n. TakesFront (left self.old) (left self.new) (take n buf.new)) }
        ensures end { IfOk result (λ n. n ≡ 0 → 0 < length buf.old → IsEnded (left self.old)) }
        ensures err { OnErr result (left self.new ≡ left self.old) }
        ensures failed { OnErr result (Rose (faults self.old) (faults self.new)) }
        ensures unharmed { OnOk result (faults self.new ≡ faults self.old) }
        ensures faults { faults self.old ≤ faults self.new }
        ensures files { files self.new ≡ files self.old }
        ensures picks { picks self.new ≡ picks self.old }
        ensures made { made self.new ≡ made self.old }
        ensures wire_faults { wire_faults self.new ≡ wire_faults self.old };
}

/// What a report is written to.
pub trait Sink {
    /// What was written so far, where told.
    ghost held: { Self → Option (List ℕ) };

    /// How often a write has failed.
    ghost faults: { Self → ℕ };

    /// Takes bytes from the front of the piece, at least one of a piece that has any, and answers how many.
    fn write(&mut self, piece: &[u8]) -> Result<usize, Failed>
        ensures count { IfOk result (λ n. n ≤ length piece.now) }
        ensures some { IfOk result (λ n. 0 < length piece.now → 1 ≤ n) }
        ensures appended { IfOk result (λ n. AppendsPiece (held self.old) (held self.new) (take n piece.now)) }
        ensures err { OnErr result (held self.new ≡ held self.old) }
        ensures failed { OnErr result (Rose (faults self.old) (faults self.new)) }
        ensures unharmed { OnOk result (faults self.new ≡ faults self.old) }
        ensures faults { faults self.old ≤ faults self.new };
}

/// The way to one peer: its sessions, one after the other, each a stream of bytes.
pub trait Wire: Send + Drop {
    /// The bytes of each session, the first of them first, where told.
    ghost sessions: { Self → Option (List (List ℕ)) };

    /// How many sessions were begun.
    ghost begun: { Self → ℕ };

    /// How often a call has failed.
    ghost faults: { Self → ℕ };

    /// For whom the wire was made: the folder, and the name of the peer.
    ghost made_for: { Self → WireName };

    /// Begins a further session, which is empty. It is there also where the call failed.
    fn begin(&mut self) -> Result<(), Failed>
        requires { begun self.old < 4294967295 }
        ensures sessions { BeginsSession (sessions self.old) (sessions self.new) }
        ensures begun { begun self.new ≡ begun self.old + 1 }
        ensures made_for { made_for self.new ≡ made_for self.old }
        ensures failed { OnErr result (Rose (faults self.old) (faults self.new)) }
        ensures unharmed { OnOk result (faults self.new ≡ faults self.old) }
        ensures faults { faults self.old ≤ faults self.new };

    /// Takes bytes from the front of the piece into the last session, at least one of a piece that has any, and
    /// answers how many.
    fn send(&mut self, piece: &[u8]) -> Result<usize, Failed>
        requires { 0 < begun self.old }
        ensures count { IfOk result (λ n. n ≤ length piece.now) }
        ensures some { IfOk result (λ n. 0 < length piece.now → 1 ≤ n) }
        ensures sent { IfOk result (λ n. SendsPiece (sessions self.old) (sessions self.new) (take n piece.now)) }
        ensures err { OnErr result (sessions self.new ≡ sessions self.old) }
        ensures begun { begun self.new ≡ begun self.old }
        ensures made_for { made_for self.new ≡ made_for self.old }
        ensures failed { OnErr result (Rose (faults self.old) (faults self.new)) }
        ensures unharmed { OnOk result (faults self.new ≡ faults self.old) }
        ensures faults { faults self.old ≤ faults self.new };
}

/// Where files are read from and wires are made.
pub trait Site: Source {
    type Wire: Wire;

    /// Makes the named file the one that is read from, from its start. Where this fails nothing is left to read.
    /// Running out of memory is no pick.
    fn pick(&mut self, name: &str) -> Result<(), SiteFault>
        ensures picked { OnOk result (HasPicked (Self.files self.old) name.now (Self.left self.new)) }
        ensures err { OnErr result (IsEnded (Self.left self.new)) }
        ensures is_open { OnOk result ((Self.picks self.new).is_open ≡ true) }
        ensures is_closed { OnErr result ((Self.picks self.new).is_open ≡ false) }
        ensures named { OnOk result (AppendsAll (Self.picks self.old).names (Self.picks self.new).names (name.now ∷ [])) }
        ensures refused { IsErrOf result SiteFault.Failed → AppendsAll (Self.picks self.old).names (Self.picks self.new).names (name.now ∷ []) }
        ensures unnamed { IsErrOf result SiteFault.NoMemory → (Self.picks self.new).names ≡ (Self.picks self.old).names }
        ensures failed { IsErrOf result SiteFault.Failed → Rose (Self.faults self.old) (Self.faults self.new) }
        ensures unharmed { OnOk result (Self.faults self.new ≡ Self.faults self.old) }
        ensures starved { IsErrOf result SiteFault.NoMemory → Self.faults self.new ≡ Self.faults self.old }
        ensures faults { Self.faults self.old ≤ Self.faults self.new }
        ensures files { Self.files self.new ≡ Self.files self.old }
        ensures made { Self.made self.new ≡ Self.made self.old }
        ensures wire_faults { Self.wire_faults self.new ≡ Self.wire_faults self.old };

    /// A wire that is made for the named peer, with no sessions and no faults. It is one more of the wires that the site made; where
    /// the call fails none was made.
    fn wire(&mut self, dir: &str, peer: &str) -> Result<Self::Wire, SiteFault>
        ensures sessions { IfOk result (λ wire. IsFresh (Self.Wire.sessions wire)) }
        ensures begun { IfOk result (λ wire. Self.Wire.begun wire ≡ 0) }
        ensures no_faults { IfOk result (λ wire. Self.Wire.faults wire ≡ 0) }
        ensures made_for { IfOk result (λ wire. Self.Wire.made_for wire ≡ record { dir = dir.now; peer = peer.now }) }
        ensures made { OnOk result (MakesWire (Self.made self.old) (Self.made self.new) dir.now peer.now) }
        ensures unmade { OnErr result (Self.made self.new ≡ Self.made self.old) }
        ensures failed { IsErrOf result SiteFault.Failed → Rose (Self.wire_faults self.old) (Self.wire_faults self.new) }
        ensures unharmed { OnOk result (Self.wire_faults self.new ≡ Self.wire_faults self.old) }
        ensures starved { IsErrOf result SiteFault.NoMemory → Self.wire_faults self.new ≡ Self.wire_faults self.old }
        ensures wire_faults { Self.wire_faults self.old ≤ Self.wire_faults self.new }
        ensures left { Self.left self.new ≡ Self.left self.old }
        ensures picks { Self.picks self.new ≡ Self.picks self.old }
        ensures faults { Self.faults self.new ≡ Self.faults self.old }
        ensures files { Self.files self.new ≡ Self.files self.old };
}
