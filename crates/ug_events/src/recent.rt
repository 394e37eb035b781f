//! The paths that were read lately.

ghost use Rattle.std.specs.Prelude.{◌≡◌, true, Ok, IsTrue, IfOk, IfSome};
ghost use Rattle.std.specs.List.{list_all};
ghost use Rattle.ug_events.specs.Events.{AreGiven, is_some_path, is_in_range};
ghost use Rattle.ug_events.specs.Facts.{AreGiven-prop};
ghost use Rattle.ug_events.specs.Words.{words};
ghost use Rattle.ug_events.specs.Paths.{paths_of};
ghost use Rattle.ug_events.specs.Views.{Gives};

use crate::event::{Given, GivenList};
use crate::paths::read_paths;
use crate::refusal::LineRefusal;
use std::alloc::Global;
use std::collections::HashMap;
use std::hash::{FoldHasher, Hasher};
use ug_types::{Family, NoMemory, Shared};

/// How many bytes the texts that are remembered may weigh together.
const ROOM: usize = 1 << 24;

/// How many bytes a text that is remembered weighs beside its own.
const BESIDE_TEXT: usize = 128;

/// Paths as they were read: of which family, and from which text.
#[derive(Drop)]
struct ReadPaths {
    family: Family,
    text: Vec<u8>,
    paths: GivenList,
    // the text says the paths, which keep their rules
    ghost read: { paths_of family (words text.items) ≡ Ok paths.items },
    ghost given: { AreGiven paths.items } by { AreGiven-prop paths.items },
    ghost some: { is_some_path paths.items ≡ true },
    ghost in_range: { list_all (is_in_range family) paths.items ≡ true },
}

/// Paths that were read lately, by the hashes of their texts. Those of an equal text are the same ones. Where there is no
/// room for one more text, all are forgotten first.
#[derive(Drop)]
pub struct Recent {
    texts: HashMap<u64, ReadPaths>,
    last: u64,
    room: usize,
}

impl Recent {
    /// Before any. It takes no memory.
    pub fn new(alloc: Global) -> Recent {
        Recent {
            texts: HashMap::new(alloc),
            last: 0,
            room: ROOM,
        }
    }

    /// The paths of a prefix of the family. A text that is remembered isn't read again, and its paths are shared; those of
    /// another share the attributes of the last ones that have equal ones.
    pub fn read(
        &mut self,
        alloc: Global,
        family: Family,
        rest: &[u8],
    ) -> Result<GivenList, LineRefusal>
        ensures read { Gives (λ list. list.items) result (paths_of family (words rest.now)) }
        ensures given { IfOk result (λ list. AreGiven list.items) }
        ensures some { IfOk result (λ list. is_some_path list.items ≡ true) }
        ensures in_range { IfOk result (λ list. list_all (is_in_range family) list.items ≡ true) }
    {
        if let Some(known) = self.known(self.last, family, rest) {
            return Ok(known.paths.share()?);
        }
        let hash = hash_of(rest);
        if let Some(known) = self.known(hash, family, rest) {
            let paths = known.paths.share()?;
            self.last = hash;
            return Ok(paths);
        }
        let paths = Shared::new(alloc, read_paths(alloc, self.near(), family, rest)?)?;
        let read = ReadPaths {
            family,
            text: Vec::from_slice(alloc, rest)?,
            paths: paths.share()?,
        };
        self.remember(hash, read)?;
        Ok(paths)
    }

    /// The paths of that text, where they are remembered under that hash.
    fn known(&self, hash: u64, family: Family, text: &[u8]) -> Option<&ReadPaths>
        ensures family { IfSome result (λ read. read.now.family ≡ family) }
        ensures text { IfSome result (λ read. read.now.text.items ≡ text.now) }
    {
        let read = self.texts.get(&hash)?;
        if read.is_of(family, text) {
            Some(read)
        } else {
            None
        }
    }

    /// The paths that were read last, if any.
    fn near(&self) -> &[Given] {
        match self.texts.get(&self.last) {
            Some(last) => last.paths.get().as_slice(),
            None => &[],
        }
    }

    /// They are the last ones from now on.
    fn remember(&mut self, hash: u64, read: ReadPaths) -> Result<(), NoMemory> {
        let weight = read.text.len() + BESIDE_TEXT;
        if weight > self.room {
            self.texts.clear();
            self.room = ROOM;
        }
        self.room = self.room.saturating_sub(weight);
        self.last = hash;
        let Ok(_) = self.texts.insert(hash, read) else {
            return Err(NoMemory);
        };
        Ok(())
    }
}

fn hash_of(text: &[u8]) -> u64 {
    let mut state = FoldHasher::default();
    state.write(text);
    state.finish()
}

impl ReadPaths {
    /// Whether they were read from that text, as paths of that family.
    fn is_of(&self, family: Family, text: &[u8]) -> bool
        ensures family { IsTrue result → self.now.family ≡ family }
        ensures text { IsTrue result → self.now.text.items ≡ text.now }
    {
        self.family == family && self.text.as_slice() == text
    }
}
