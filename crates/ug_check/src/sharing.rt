//! What is kept once for many routes.

ghost use Rattle.std.specs.Prelude.{◌≡◌, IfOk, IsTrue};

use crate::row::Announced;
use std::alloc::Global;
use std::rc::Rc;
use ug_types::{Attrs, NoMemory, value_laws};

/// What was shared last. UPDATEs that have the same attributes, one after the other, share them.
#[derive(Drop)]
pub struct Sharing {
    last: Option<Rc<Announced>>,
}

impl Sharing {
    /// Before any. It takes no memory.
    pub fn new() -> Sharing {
        Sharing { last: None }
    }

    /// These attributes, announced when so many refreshes had begun, to be shared.
    pub fn share(
        &mut self,
        alloc: Global,
        attrs: &Attrs,
        seen: u64,
    ) -> Result<Rc<Announced>, NoMemory>
        ensures attrs { IfOk result (λ shared. shared.value.attrs ≡ attrs.now) }
        ensures seen { IfOk result (λ shared. shared.value.seen ≡ seen) }
    {
        if let Some(last) = &self.last {
            if is_same(last, attrs, seen) {
                return Ok(last.clone()?);
            }
        }
        let attrs = attrs.copy(alloc)?;
        let shared = Rc::new(alloc, Announced { attrs, seen })?;
        self.last = Some(shared.clone()?);
        Ok(shared)
    }
}

fn is_same(shared: &Rc<Announced>, attrs: &Attrs, seen: u64) -> bool
    ensures attrs { IsTrue result → shared.now.value.attrs ≡ attrs.now }
    ensures seen { IsTrue result → shared.now.value.seen ≡ seen }
{
    value_laws();
    let last = shared.as_ref();
    last.seen == seen && last.attrs == *attrs
}
