//! The log of a group key.

ghost use Rattle.std.specs.Prelude.{◌≡◌, ◌<◌, [], IfOk, OnOk};
ghost use Rattle.ug_world.specs.Private.{keys_of};
ghost use Rattle.ug_audit_rules.specs.GroupLogs.{IsNotedAt};

use crate::group_log::GroupLog;
use crate::routes::wanted;
use std::alloc::Global;
use std::sync::ledger::Ledger;
use ug_outbound::GroupKey;
use ug_types::{Key, NoMemory, Steps};
use ug_world::World;

/// A group key, and from a version on what its peers should have.
#[derive(Drop)]
pub struct Group {
    pub key: GroupKey,
    pub start: u32,
    pub log: GroupLog,
}

impl Group {
    /// From the world of a version on.
    pub fn begin<L: Ledger>(
        alloc: Global,
        key: GroupKey,
        world: &World,
        steps: &mut Steps<L>,
    ) -> Result<Group, NoMemory>
        requires { world.now.version < 4294967296 }
        ensures key { IfOk result (λ group. group.key ≡ key) }
        ensures start { IfOk result (λ group. group.start ≡ world.now.version) }
        ensures noted { IfOk result (λ group. IsNotedAt world.now key (keys_of key.add_path world.now.routes) [] group.log.changes) }
    {
        let keys = world.keys(alloc, key.add_path)?;
        let mut group = Group {
            key,
            start: world.version() as u32,
            log: GroupLog::new(alloc),
        };
        group.note_keys(alloc, world, &keys, steps)?;
        Ok(group)
    }

    /// Notes what its peers should have under these keys in the world of a new version.
    pub fn note_keys<L: Ledger>(
        &mut self,
        alloc: Global,
        world: &World,
        keys: &[Key],
        steps: &mut Steps<L>,
    ) -> Result<(), NoMemory>
        requires { world.now.version < 4294967296 }
        ensures key { self.new.key ≡ self.old.key }
        ensures start { self.new.start ≡ self.old.start }
        ensures noted { OnOk result (IsNotedAt world.now self.old.key keys.now self.old.log.changes self.new.log.changes) }
    {
        let version = world.version() as u32;
        for key in keys {
            let value = wanted(alloc, &self.key, world, key, steps)?;
            self.log.note(alloc, version, key, value)?;
        }
        Ok(())
    }
}
