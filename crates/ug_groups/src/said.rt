//! Replies.

ghost use Rattle.std.specs.Prelude.{◌≡◌, [], IfOk};
ghost use Rattle.ug_group_rules.specs.Machine as machine;
ghost use Rattle.ug_group_rules.specs.Rules.{marks_of};

use std::alloc::Global;
use std::marker::Model;
use ug_types::{Mark, MarkList, NoMemory};

#[derive(Drop)]
pub(crate) enum Told {
    Took(Box<MarkList>),
    TookNone,
    Formatted(u64),
    Merged,
    Moved(u32),
    Marks(Box<MarkList>),
    Closed,
}

/// A reply. Marks stand behind a pointer.
#[derive(Drop)]
pub struct GroupSaid {
    pub(crate) told: Told,
}

impl Model for GroupSaid {
    ghost use Rattle.ug_group_rules.specs.Machine.{Said};

    ghost Value = { Said };

    ghost use Rattle.ug_groups.specs.Jobs.{said_of};

    ghost view = { λ s. said_of s.told };
}

impl GroupSaid {
    /// An event is taken, with these marks.
    pub fn took(alloc: Global, marks: MarkList) -> Result<GroupSaid, NoMemory>
        ensures { IfOk result (λ said. said ≡ machine.Took marks.items) }
    {
        if marks.is_empty() {
            return Ok(GroupSaid {
                told: Told::TookNone,
            });
        }
        Ok(GroupSaid {
            told: Told::Took(Box::new(alloc, marks)?),
        })
    }

    /// A packet is formatted, with this number.
    pub fn formatted(made: u64) -> GroupSaid
        ensures { result ≡ machine.Formatted made }
    {
        GroupSaid {
            told: Told::Formatted(made),
        }
    }

    /// Two subgroups are one.
    pub fn merged() -> GroupSaid
        ensures { result ≡ machine.Merged }
    {
        GroupSaid { told: Told::Merged }
    }

    /// Members sit in that subgroup now.
    pub fn moved(sub: u32) -> GroupSaid
        ensures { result ≡ machine.Moved sub }
    {
        GroupSaid {
            told: Told::Moved(sub),
        }
    }

    /// How much each peer was told.
    pub fn marks(alloc: Global, marks: MarkList) -> Result<GroupSaid, NoMemory>
        ensures { IfOk result (λ said. said ≡ machine.Marks marks.items) }
    {
        Ok(GroupSaid {
            told: Told::Marks(Box::new(alloc, marks)?),
        })
    }

    /// There is no further job.
    pub fn closed() -> GroupSaid
        ensures { result ≡ machine.Closed }
    {
        GroupSaid { told: Told::Closed }
    }

    /// The marks.
    pub fn as_slice(&self) -> &[Mark]
        ensures { result.now ≡ marks_of self.now }
    {
        match &self.told {
            Told::Took(marks) | Told::Marks(marks) => marks.as_slice(),
            Told::TookNone | Told::Formatted(_) | Told::Merged | Told::Moved(_) | Told::Closed =>
                &[],
        }
    }

    /// An equal one of its own.
    pub fn copy(&self) -> Result<GroupSaid, NoMemory>
        ensures { IfOk result (λ copy. copy ≡ self.now) }
    {
        match &self.told {
            Told::Took(marks) => {
                let alloc = *Box::allocator(marks);
                GroupSaid::took(alloc, marks.copy(alloc)?)
            }
            Told::TookNone => Ok(GroupSaid {
                told: Told::TookNone,
            }),
            Told::Formatted(made) => Ok(GroupSaid::formatted(*made)),
            Told::Merged => Ok(GroupSaid::merged()),
            Told::Moved(sub) => Ok(GroupSaid::moved(*sub)),
            Told::Marks(marks) => {
                let alloc = *Box::allocator(marks);
                GroupSaid::marks(alloc, marks.copy(alloc)?)
            }
            Told::Closed => Ok(GroupSaid::closed()),
        }
    }
}
