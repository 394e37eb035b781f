//! What one peer should have under a key, of what goes out to the peers of its group key.

ghost use Rattle.std.specs.Prelude.{◌≡◌, Some, IfOk, OnOk, IfSome, option_copied};
ghost use Rattle.ug_hearing.specs.Logs.{AddsChange};
ghost use Rattle.ug_message.specs.NextHops.{told_to};
ghost use Rattle.ug_types.specs.declared.route.OutAttrs as outs;
ghost use Rattle.ug_types.specs.Attributes.{Attributes};
ghost use Rattle.ug_audit_rules.specs.Merges.{told_if, first_in, IsPassed, IsLeast, IsTold};

use crate::group_log::{GroupChange, is_same_value};
use crate::routes::told;
use crate::since::Since;
use std::alloc::Global;
use ug_hearing::{Change, is_same, value_at};
use ug_types::{Attrs, NoMemory, OutAttrs, PeerEnds, Shared};

/// Tells a peer at these ends its next hops. Equal values that it is asked for one behind the other are shared.
#[derive(Drop)]
pub struct Teller {
    pub ends: PeerEnds,
    pub last: Option<Shared<OutAttrs>>,
    pub told: Option<Shared<Attrs>>,
    ghost kept: { (o : outs.OutAttrs) (a : Attributes) → last ≡ Some o → told ≡ Some a → a ≡ told_to ends o },
}

impl Teller {
    /// A teller before any value.
    pub fn new(ends: PeerEnds) -> Teller
        ensures { result.ends ≡ ends }
    {
        Teller {
            ends,
            last: None,
            told: None,
        }
    }

    /// What the peer is told, where it is up.
    fn tell_if(
        &mut self,
        alloc: Global,
        up: bool,
        value: Option<&Shared<OutAttrs>>,
    ) -> Result<Option<Shared<Attrs>>, NoMemory>
        ensures value { IfOk result (λ told. told ≡ told_if self.old.ends up (option_copied value.entry)) }
        ensures ends { self.new.ends ≡ self.old.ends }
    {
        if !up {
            return Ok(None);
        }
        match value {
            Some(out) => {
                let told = self.tell(alloc, out)?;
                Ok(Some(told))
            }
            None => Ok(None),
        }
    }

    fn tell(&mut self, alloc: Global, out: &Shared<OutAttrs>) -> Result<Shared<Attrs>, NoMemory>
        ensures value { IfOk result (λ told. told ≡ told_to self.old.ends out.now) }
        ensures ends { self.new.ends ≡ self.old.ends }
    {
        if let Some(told) = self.again(out.get()) {
            return Ok(told.share()?);
        }
        let copy = out.get().copy(alloc)?;
        let told = Shared::new(alloc, told(copy, &self.ends))?;
        let last = out.share()?;
        let shared = told.share()?;
        self.told = None;
        self.last = Some(last);
        self.told = Some(shared);
        Ok(told)
    }

    /// What it told last, where that was of an equal value.
    fn again(&self, out: &OutAttrs) -> Option<&Shared<Attrs>>
        ensures { IfSome (option_copied result) (λ told. told ≡ told_to self.now.ends out.now) }
    {
        let Some(last) = &self.last else {
            return None;
        };
        let Some(told) = &self.told else {
            return None;
        };
        if !is_same_value(last.get(), out) {
            return None;
        }
        Some(told)
    }
}

/// The changes of what the peer should have, of when it was up and of what goes out, in the place of those that were there.
pub fn merge(
    alloc: Global,
    teller: &mut Teller,
    ups: &[Since<bool>],
    outs: &[GroupChange],
    changes: &mut Vec<Change>,
) -> Result<(), NoMemory>
    ensures merged { OnOk result (IsTold teller.old.ends ups.now outs.now changes.new.items) }
    ensures ends { teller.new.ends ≡ teller.old.ends }
{
    changes.clear();
    let mut up = false;
    let mut out = None;
    let mut ups_left = ups;
    let mut outs_left = outs;
    while let Some(at) = least(ups_left, outs_left) {
        (up, ups_left) = pass_up(at, up, ups_left);
        (out, outs_left) = pass_out(at, out, outs_left);
        let value = teller.tell_if(alloc, up, out)?;
        add(changes, at, value)?;
    }
    Ok(())
}

/// Whether the peer is up in a version, where it was so before it, and the changes behind it.
fn pass_up(at: u32, up: bool, ups: &[Since<bool>]) -> (bool, &[Since<bool>])
    ensures { IsPassed at up ups.now result.0 result.1.now }
{
    if ups.is_empty() || ups[0].version != at {
        return (up, ups);
    }
    (ups[0].value, &ups[1..])
}

/// What goes out in a version, where that went out before it, and the changes behind it.
fn pass_out<'a>(
    at: u32,
    out: Option<&'a Shared<OutAttrs>>,
    outs: &'a [GroupChange],
) -> (Option<&'a Shared<OutAttrs>>, &'a [GroupChange])
    ensures { IsPassed at (option_copied out.entry) outs.now (option_copied result.0) result.1.now }
{
    if outs.is_empty() || outs[0].version != at {
        return (out, outs);
    }
    (outs[0].value.as_ref(), &outs[1..])
}

/// The least version of a first change.
fn least(ups: &[Since<bool>], outs: &[GroupChange]) -> Option<u32>
    ensures { IsLeast ups.now outs.now result }
{
    if ups.is_empty() {
        return first(outs);
    }
    if outs.is_empty() {
        return first(ups);
    }
    if ups[0].version < outs[0].version {
        return Some(ups[0].version);
    }
    Some(outs[0].version)
}

/// The version of the first change.
fn first<T>(list: &[Since<T>]) -> Option<u32>
    ensures { result ≡ first_in list.now }
{
    if list.is_empty() {
        return None;
    }
    Some(list[0].version)
}

/// Adds a change, where the value is another than the last.
fn add(changes: &mut Vec<Change>, at: u32, value: Option<Shared<Attrs>>) -> Result<(), NoMemory>
    ensures { OnOk result (AddsChange at value changes.old.items changes.new.items) }
{
    let last = value_at(changes, changes.len());
    if is_same(last, told_value(&value)) {
        return Ok(());
    }
    changes.push(Change { place: at, value })?;
    Ok(())
}

fn told_value(value: &Option<Shared<Attrs>>) -> Option<&Attrs>
    ensures { option_copied result ≡ value.now }
{
    match value {
        Some(attrs) => Some(attrs.get()),
        None => None,
    }
}
