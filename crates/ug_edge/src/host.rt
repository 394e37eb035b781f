//! The real forms: files of the system, and standard output. What they hold is not told.

ghost use Rattle.std.specs.Prelude.{◌≡◌, ◌<◌, ◌≤◌, length, take, is_some, true, false, None, Err, IfOk, OnOk, OnErr};
ghost use Rattle.std.specs.String.{string_bytes};
ghost use Rattle.std.specs.Io.KnownBytes.{Appends, Consumes, IsAtEnd, Keeps};
ghost use Rattle.ug_edge.specs.Told.{Rose};

use crate::counts::raise;
use crate::outside::{Failed, Sink, Site, SiteFault, Source, Wire};
use std::alloc::Global;
use std::io::{Read, Write};
use std::os::unix::fs::{FileTypeExt, MetadataExt};
use std::rt::Files;
use std::{fs, io};

/// A site over the files of the system. A wire's folder has to be there.
#[derive(Drop)]
pub struct HostSite<R: Files> {
    rt: R,
    alloc: Global,
    file: Option<R::File>,
    made: u64,
    faults: u64,
    wire_faults: u64,
}

/// A wire whose session number n is the file DIR/PEER.n.
#[derive(Drop)]
pub struct HostWire<R: Files> {
    rt: R,
    alloc: Global,
    dir: String,
    peer: String,
    file: Option<R::File>,
    begun: u32,
    faults: u64,
}

/// A sink over standard output. What a write has answered for is out.
#[derive(Drop)]
pub struct StdoutSink<R: Print> {
    rt: R,
    faults: u64,
}

impl<R: Files> HostSite<R> {
    /// A site from which no file was picked yet. Memory is needed for the names of wires and of their files.
    pub fn new(rt: R, alloc: Global) -> HostSite<R>
        ensures faults { ⟦<HostSite<R> as Source>⟧.faults result ≡ 0 }
        ensures wire_faults { ⟦<HostSite<R> as Source>⟧.wire_faults result ≡ 0 }
        ensures made { (⟦<HostSite<R> as Source>⟧.made result).count ≡ 0 }
    {
        HostSite {
            rt,
            alloc,
            file: None,
            made: 0,
            faults: 0,
            wire_faults: 0,
        }
    }
}

impl<R: Files> Source for HostSite<R> {
    ghost left = { λ _. None };

    ghost faults = { λ site. site.faults };

    ghost files = { λ _. None };

    ghost picks = { λ site. record { is_open = is_some site.file; names = None } };

    ghost made = { λ site. record { count = site.made; names = None } };

    ghost wire_faults = { λ site. site.wire_faults };

    fn read(&mut self, buf: &mut [u8]) -> Result<usize, Failed> {
        let Some(file) = &mut self.file else {
            return Ok(0);
        };
        let Ok(count) = read_some(file, buf) else {
            self.faults = raise(self.faults);
            return Err(Failed);
        };
        Ok(count)
    }
}

impl<R: Files + Clone + Send + Drop> Site for HostSite<R>
where
    R::File: Send,
{
    type Wire = HostWire<R>;

    fn pick(&mut self, name: &str) -> Result<(), SiteFault>
        ensures failed { OnErr result (result ≡ Err SiteFault.Failed) }
        ensures rose { OnErr result (Rose (⟦<HostSite<R> as Source>⟧.faults self.old) (⟦<HostSite<R> as Source>⟧.faults self.new)) }
        ensures unharmed { OnOk result (⟦<HostSite<R> as Source>⟧.faults self.new ≡ ⟦<HostSite<R> as Source>⟧.faults self.old) }
        ensures faults { ⟦<HostSite<R> as Source>⟧.faults self.old ≤ ⟦<HostSite<R> as Source>⟧.faults self.new }
        ensures is_open { OnOk result ((⟦<HostSite<R> as Source>⟧.picks self.new).is_open ≡ true) }
        ensures is_closed { OnErr result ((⟦<HostSite<R> as Source>⟧.picks self.new).is_open ≡ false) }
        ensures made { ⟦<HostSite<R> as Source>⟧.made self.new ≡ ⟦<HostSite<R> as Source>⟧.made self.old }
        ensures wire_faults { ⟦<HostSite<R> as Source>⟧.wire_faults self.new ≡ ⟦<HostSite<R> as Source>⟧.wire_faults self.old }
    {
        self.file = None;
        let Ok(file) = fs::open(&self.rt, name) else {
            self.faults = raise(self.faults);
            return Err(SiteFault::Failed);
        };
        self.file = Some(file);
        Ok(())
    }

    fn wire(&mut self, dir: &str, peer: &str) -> Result<HostWire<R>, SiteFault> {
        if !is_folder(&self.rt, dir) {
            self.wire_faults = raise(self.wire_faults);
            return Err(SiteFault::Failed);
        }
        let Some(made) = self.made.checked_add(1) else {
            return Err(SiteFault::NoMemory);
        };
        let Ok(rt) = self.rt.clone() else {
            return Err(SiteFault::NoMemory);
        };
        let Ok(dir) = String::from_str(self.alloc, dir) else {
            return Err(SiteFault::NoMemory);
        };
        let Ok(peer) = String::from_str(self.alloc, peer) else {
            return Err(SiteFault::NoMemory);
        };
        self.made = made;
        Ok(HostWire {
            rt,
            alloc: self.alloc,
            dir,
            peer,
            file: None,
            begun: 0,
            faults: 0,
        })
    }
}

fn is_folder<R: Files>(rt: &R, path: &str) -> bool {
    match fs::metadata(rt, path) {
        Ok(metadata) => metadata.is_dir(),
        Err(_) => false,
    }
}

impl<R: Files> HostWire<R> {
    /// Makes the file of the session that was begun last, in place of one that was there.
    fn make_file(&self) -> Result<R::File, Failed> {
        let dir = self.dir.as_str();
        let peer = self.peer.as_str();
        let number = self.begun;
        let Ok(path) = format!(in self.alloc; "{dir}/{peer}.{number}") else {
            return Err(Failed);
        };
        if !may_be_written(&self.rt, path.as_str()) {
            return Err(Failed);
        }
        let Ok(file) = fs::create(&self.rt, path.as_str()) else {
            return Err(Failed);
        };
        Ok(file)
    }
}

/// Whether nothing stands at the path, or a plain file of this name alone, or a pipe: what is reached by a link, or has a
/// further name, may lie outside of the folder.
fn may_be_written<R: Files>(rt: &R, path: &str) -> bool {
    match fs::symlink_metadata(rt, path) {
        Ok(there) => {
            let kind = there.file_type();
            (kind.is_file() || kind.is_fifo()) && there.nlink() < 2
        }
        Err(error) => error.kind() == io::ErrorKind::NotFound,
    }
}

impl<R: Files + Send + Drop> Wire for HostWire<R>
where
    R::File: Send,
{
    ghost sessions = { λ _. None };

    ghost begun = { λ wire. wire.begun };

    ghost faults = { λ wire. wire.faults };

    ghost made_for = { λ wire. record { dir = string_bytes wire.dir; peer = string_bytes wire.peer } };

    fn begin(&mut self) -> Result<(), Failed> {
        self.begun += 1;
        self.file = None;
        let Ok(file) = self.make_file() else {
            self.faults = raise(self.faults);
            return Err(Failed);
        };
        self.file = Some(file);
        Ok(())
    }

    fn send(&mut self, piece: &[u8]) -> Result<usize, Failed> {
        let Some(file) = &mut self.file else {
            self.faults = raise(self.faults);
            return Err(Failed);
        };
        let Ok(count) = write_some(file, piece) else {
            self.faults = raise(self.faults);
            return Err(Failed);
        };
        Ok(count)
    }
}

/// Reads the next bytes to the front of the buffer, and answers how many: 0, for a buffer that has room, at the end
/// alone.
fn read_some<F: Read>(from: &mut F, buf: &mut [u8]) -> Result<usize, Failed>
    ensures count { IfOk result (λ n. n ≤ length buf.old) }
    ensures taken { IfOk result (λ n. Consumes (F.remaining from.old) (F.remaining from.new) (take n buf.new)) }
    ensures end { IfOk result (λ n. n ≡ 0 → 0 < length buf.old → IsAtEnd (F.remaining from.new)) }
    ensures err { OnErr result (Keeps (F.remaining from.old) (F.remaining from.new)) }
{
    match from.read(buf) {
        Ok(count) => Ok(count),
        Err(_) => Err(Failed),
    }
}

/// Writes some bytes from the front of the piece, at least one of a piece that has any, and answers how many.
fn write_some<W: Write>(to: &mut W, piece: &[u8]) -> Result<usize, Failed>
    ensures count { IfOk result (λ n. n ≤ length piece.now) }
    ensures some { IfOk result (λ n. 0 < length piece.now → 1 ≤ n) }
    ensures written { IfOk result (λ n. Appends (W.contents to.old) (W.contents to.new) (take n piece.now)) }
{
    let Ok(count) = to.write(piece) else {
        return Err(Failed);
    };
    if count == 0 && !piece.is_empty() {
        return Err(Failed);
    }
    Ok(count)
}

impl<R: Print> StdoutSink<R> {
    /// A sink that was written nothing.
    pub fn new(rt: R) -> StdoutSink<R>
        ensures { ⟦<StdoutSink<R> as Sink>⟧.faults result ≡ 0 }
    {
        StdoutSink { rt, faults: 0 }
    }
}

impl<R: Print> Sink for StdoutSink<R> {
    ghost held = { λ _. None };

    ghost faults = { λ sink. sink.faults };

    fn write(&mut self, piece: &[u8]) -> Result<usize, Failed> {
        let Ok(count) = write_some(&mut io::writer(&self.rt), piece) else {
            self.faults = raise(self.faults);
            return Err(Failed);
        };
        Ok(count)
    }
}
