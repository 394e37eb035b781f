//! The paths of a prefix.

ghost use Rattle.std.specs.Prelude.{◌≡◌, ◌∷◌, [], IfOk};

use std::alloc::{AllocError, Global};
use std::marker::Model;
use std::slice;
use ug_types::{NoMemory, Path};

/// The paths of a prefix, the best first. One alone stands in the row itself, with no memory of its own. Contracts see the
/// list of them.
#[derive(Drop)]
pub struct Best {
    alloc: Global,
    paths: Paths,
}

#[derive(Drop)]
enum Paths {
    One(Path),
    Listed(Vec<Path>),
}

impl Model for Best {
    ghost use Rattle.std.specs.Prelude.{List};
    ghost use Rattle.ug_types.specs.declared.route.Path.{Path};
    ghost use Rattle.ug_world.specs.Stored.{paths_in};

    ghost Value = { List Path };

    ghost view = { λ b. paths_in b.paths };
}

impl Best {
    /// This path alone.
    pub fn one(alloc: Global, path: Path) -> Best
        ensures { result ≡ path ∷ [] }
    {
        Best {
            alloc,
            paths: Paths::One(path),
        }
    }

    /// These paths, in their memory.
    pub fn new(alloc: Global, paths: Vec<Path>) -> Best
        ensures { result ≡ paths.items }
    {
        Best {
            alloc,
            paths: Paths::Listed(paths),
        }
    }

    /// The paths, the best first.
    pub fn as_slice(&self) -> &[Path]
        ensures { result.now ≡ self.now }
    {
        match &self.paths {
            Paths::One(path) => slice::from_ref(path),
            Paths::Listed(paths) => paths.as_slice(),
        }
    }
}

impl Clone for Best {
    ghost is_clone = { λ paths copy. copy ≡ paths };

    fn clone(&self) -> Result<Best, AllocError> {
        match copied(self) {
            Ok(copy) => Ok(copy),
            Err(NoMemory) => Err(AllocError),
        }
    }
}

/// Equal ones, which share the attributes.
fn copied(best: &Best) -> Result<Best, NoMemory>
    ensures { IfOk result (λ copy. copy ≡ best.now) }
{
    match best.as_slice() {
        [path] => Ok(Best::one(best.alloc, copy_path(path)?)),
        paths => Ok(Best::new(best.alloc, copy_paths(best.alloc, paths)?)),
    }
}

/// Equal paths, which share the attributes.
fn copy_paths(alloc: Global, paths: &[Path]) -> Result<Vec<Path>, NoMemory>
    ensures { IfOk result (λ copy. copy.items ≡ paths.now) }
{
    let mut copy = Vec::with_capacity(alloc, paths.len())?;
    for path in paths {
        copy.push(copy_path(path)?)?;
    }
    Ok(copy)
}

/// An equal path, which shares the attributes.
fn copy_path(path: &Path) -> Result<Path, NoMemory>
    ensures { IfOk result (λ copy. copy ≡ path.now) }
{
    Ok(Path {
        id: path.id,
        learned: path.learned,
        attrs: path.attrs.share()?,
    })
}
