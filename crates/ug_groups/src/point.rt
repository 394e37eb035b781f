//! What a subgroup keeps beside its queue.

ghost use Rattle.std.specs.Prelude.{◌≡◌, ◌<◌, ◌≤◌, ℕ, IsSome, ◌&&◌, ◌^◌, not, true, false, nat_eq, length, slice_get, option_copied, IfSome, IfOk, OnOk, OnErr, ◌+◌, if◌then◌else◌};
ghost use Rattle.ug_types.specs.declared.route.OutAttrs as values;
ghost use Rattle.ug_types.specs.Bytes.{is_empty};
ghost use Rattle.ug_intern.specs.Pools.{Pooled, held, uses_of};
ghost use Rattle.ug_adjout.specs.Tables.{value_at, rows_after};
ghost use Rattle.ug_adjout.specs.Pending.{IsExact, nothing_out};
ghost use Rattle.ug_adjout.specs.Formatting.Due.{Nothing};
ghost use Rattle.ug_pack.specs.Ready.{key_order, IsKeyOf};
ghost use Rattle.ug_group_rules.specs.declared.phase.Phase.TheVariants.{Quiet};
ghost use Rattle.ug_group_rules.specs.Packets.{Says, EndOfRib, RefreshBegins, RefreshEnds, routes_due, same_group, same_out};
ghost use Rattle.ug_group_rules.specs.Machine.{is_owed, is_quiet, is_pending, owes, is_level, says_next, formatted, asked, is_joinable};
ghost use Rattle.ug_groups.specs.Values.{value_in, out_in, valued_by};
ghost use Rattle.ug_groups.specs.Holders.{holds, rows_of, IsCounted, IsMoved, IsUsed, HasRoom};
ghost use Rattle.ug_groups.specs.Packets.{said};
ghost use Rattle.ug_groups.specs.FamilyRibs.{AreDue};
ghost use Rattle.ug_groups.specs.Sent.{session_of, IsSent, IsRouted};
ghost use Rattle.ug_groups.specs.Standings.{seen, IsFit, IsKept, AreShown, wanting, desiring, forced, begun, told, ended};

use crate::holding::exchange;
use crate::packet::Packet;
use crate::phases::{is_owed, is_quiet};
use crate::plain::{end_of_rib, refresh_begins, refresh_ends};
use crate::rib_out::RibOut;
use crate::routed::Routed;
use crate::routing::{know_ids, routed};
use crate::side::Side;
use crate::telling::tell;
use std::alloc::Global;
use std::marker::Model;
use std::mem;
use ug_group_rules::Phase;
use ug_intern::{AttrId, Pool};
use ug_outbound::GroupKey;
use ug_types::{Key, NoMemory, OutAttrs};

/// What peers of one group key that stand at the same point share, beside their packets: the key; what was told and what
/// they should have, by ids of a pool; whether End-of-RIB is due; whether nothing was formatted yet; the phase of a
/// refresh; and through how many events in a row the queue was full with keys pending.
#[derive(Drop)]
pub struct Point {
    alloc: Global,
    key: GroupKey,
    out: RibOut,
    ending: bool,
    fresh: bool,
    phase: Phase,
    stuck: u64,
}

impl Model for Point {
    ghost use Rattle.ug_groups.specs.Standings.{Standing, IsKept};

    ghost Value = { Standing };

    ghost view = { λ p. record { key = p.key; adj = p.out.adj; ending = p.ending; fresh = p.fresh; phase = p.phase; stuck = p.stuck } };

    ghost invariant = { λ p. IsKept p.key p.out.family p.out.adj };
}

impl Point {
    /// One of which nothing was formatted and nothing is desired. It takes no memory.
    pub fn new(alloc: Global, key: GroupKey) -> Point
        ensures { result ≡ record { key = key; adj = nothing_out; ending = true; fresh = true; phase = Quiet; stuck = 0 } }
    {
        let family = key.family;
        Point {
            alloc,
            key,
            out: RibOut::new(alloc, family),
            ending: true,
            fresh: true,
            phase: Phase::Quiet,
            stuck: 0,
        }
    }

    /// A key is desired so from now on. What it was before. Running out of memory changes nothing.
    fn want(&mut self, key: &Key, id: Option<AttrId>) -> Result<Option<AttrId>, NoMemory>
        requires own { IsKeyOf self.old.key.family self.old.key.add_path key.now }
        ensures was { IfOk result (λ was. was ≡ value_at key_order self.old.adj.desired key.now) }
        ensures ok { OnOk result (self.new ≡ wanting key.now id self.old) }
        ensures err { OnErr result (self.new ≡ self.old) }
    {
        let was = self.out.want(key, id)?;
        Ok(was)
    }

    /// A key is desired with what the id stands for from now on, or no more, and the pool counts it in place of what it was
    /// desired with. Running out of memory changes nothing.
    pub fn desire(
        &mut self,
        pool: &mut Pool<OutAttrs>,
        key: &Key,
        id: Option<AttrId>,
    ) -> Result<(), NoMemory>
        requires own { IsKeyOf self.old.key.family self.old.key.add_path key.now }
        requires used { IsUsed pool.old id }
        requires counted { IsCounted pool.old self.old.adj }
        requires room { HasRoom 1 pool.old }
        ensures point { OnOk result (seen pool.new self.new ≡ desiring key.now (valued_by pool.old id) (seen pool.old self.old)) }
        ensures moved { OnOk result (IsMoved pool.old pool.new self.old.adj self.new.adj) }
        ensures key { self.new.key ≡ self.old.key }
        ensures err { OnErr result (self.new ≡ self.old) }
        ensures pool { OnErr result (pool.new ≡ pool.old) }
    {
        know_ids(pool);
        self.know_kept();
        let was = self.want(key, id)?;
        exchange(pool, was, id);
        Ok(())
    }

    /// All routes are to be told again: between marks, or at once. Running out of memory leaves it without routes.
    pub fn refresh(&mut self, pool: &Pool<OutAttrs>) -> Result<(), NoMemory>
        requires counted { IsCounted pool.now self.old.adj }
        ensures point { OnOk result (seen pool.now self.new ≡ asked (seen pool.now self.old)) }
        ensures moved { OnOk result (IsMoved pool.now pool.now self.old.adj self.new.adj) }
        ensures key { self.new.key ≡ self.old.key }
    {
        know_ids(pool);
        self.know_kept();
        if self.key.enhanced_refresh {
            self.phase = Phase::Owed;
            return Ok(());
        }
        self.force()?;
        Ok(())
    }

    /// It has another key, whose sessions are the same. What peers of that key should have is told by `desire`.
    pub fn rekey(&mut self, key: GroupKey)
        requires { session_of key ≡ session_of self.old.key }
        ensures { self.new ≡ record self.old { key = key } }
    {
        self.key = key;
    }

    /// Its queue was never full with keys pending.
    pub fn unstick(&mut self)
        ensures { self.new ≡ record self.old { stuck = 0 } }
    {
        self.stuck = 0;
    }

    /// Another event has passed, and its queue is full or not. A count that has no room counts as out of memory.
    pub fn count(&mut self, full: bool) -> Result<(), NoMemory>
        ensures ok { OnOk result (self.new ≡ record self.old { stuck = if full && not (is_empty self.old.adj.pending) then self.old.stuck + 1 else 0 }) }
        ensures err { OnErr result (self.new ≡ self.old) }
    {
        if !full || !self.out.is_pending() {
            self.stuck = 0;
            return Ok(());
        }
        if self.stuck == u64::MAX {
            return Err(NoMemory);
        }
        self.stuck += 1;
        Ok(())
    }

    /// An equal one of its own, whose queue was never full. The pool counts its ids too.
    pub fn copy(&self, pool: &mut Pool<OutAttrs>) -> Result<Point, NoMemory>
        requires counted { IsCounted pool.old self.now.adj }
        requires room { HasRoom (length self.now.adj.formatted + length self.now.adj.desired) pool.old }
        ensures point { IfOk result (λ copy. copy ≡ record self.now { stuck = 0 }) }
        ensures uses { OnOk result ((id : ℕ) → uses_of (held pool.new id) ≡ uses_of (held pool.old id) + holds self.now.adj id) }
        ensures values { (id : ℕ) → value_in pool.new id ≡ value_in pool.old id }
        ensures err { OnErr result (pool.new ≡ pool.old) }
    {
        let key = self.key.copy(self.alloc)?;
        let out = self.out.copy()?;
        self.hold_ids(pool);
        Ok(Point {
            alloc: self.alloc,
            key,
            out,
            ending: self.ending,
            fresh: self.fresh,
            phase: self.phase,
            stuck: 0,
        })
    }

    /// The pool counts its ids once more.
    fn hold_ids(&self, pool: &mut Pool<OutAttrs>)
        requires counted { IsCounted pool.old self.now.adj }
        requires room { HasRoom (length self.now.adj.formatted + length self.now.adj.desired) pool.old }
        ensures uses { (id : ℕ) → uses_of (held pool.new id) ≡ uses_of (held pool.old id) + holds self.now.adj id }
        ensures values { (id : ℕ) → value_in pool.new id ≡ value_in pool.old id }
    {
        self.out.hold_ids(pool);
    }

    /// It ends, and the pool counts its ids no more. It takes no memory.
    pub fn retire(self, pool: &mut Pool<OutAttrs>)
        requires counted { IsCounted pool.old self.adj }
        ensures uses { (id : ℕ) → uses_of (held pool.new id) + holds self.adj id ≡ uses_of (held pool.old id) }
        ensures values { (id : ℕ) → IsSome (held pool.new id) → value_in pool.new id ≡ value_in pool.old id }
    {
        self.out.let_ids_go(pool);
    }

    /// What the key is desired with.
    pub fn desired(&self, key: &Key) -> Option<AttrId>
        requires { key.now.prefix.family ≡ self.now.key.family }
        ensures { result ≡ value_at key_order self.now.adj.desired key.now }
    {
        self.out.desired(key)
    }

    /// The least row of the table above the key, or the first one; None exactly where there is none.
    pub fn row_after(&self, side: Side, key: Option<&Key>) -> Option<(Key, AttrId)>
        requires { IfSome (option_copied key) (λ q. q.prefix.family ≡ self.now.key.family) }
        ensures { result ≡ slice_get (rows_after key_order (option_copied key.entry) (rows_of side self.now.adj)) 0 }
    {
        self.out.row_after(side, key)
    }

    /// How many keys have a row: no table has more.
    pub fn row_count(&self) -> usize
        ensures formatted { length self.now.adj.formatted ≤ result }
        ensures desired { length self.now.adj.desired ≤ result }
        ensures small { result < 2 ^ 64 }
    {
        self.out.row_count()
    }

    /// Whether keys are pending.
    pub fn is_pending(&self) -> bool
        ensures { (pool : Pooled values.OutAttrs) → result ≡ is_pending (seen pool self.now) }
    {
        self.out.is_pending()
    }

    /// Whether a packet is owed: keys are pending, End-of-RIB is due, or a refresh has to begin or to end.
    pub fn owes(&self) -> bool
        ensures { (pool : Pooled values.OutAttrs) → result ≡ owes (seen pool self.now) }
    {
        self.out.is_pending() || self.ending || !is_quiet(self.phase)
    }

    /// Whether its members have all that they should have, once they have taken its packets.
    pub fn is_level(&self) -> bool
        ensures { (pool : Pooled values.OutAttrs) → result ≡ is_level (seen pool self.now) }
    {
        if self.owes() {
            return false;
        }
        self.out.is_unforced()
    }

    /// Its group key.
    pub fn key(&self) -> &GroupKey
        ensures { result.now ≡ self.now.key }
    {
        &self.key
    }

    /// Whether it has an equal key.
    pub fn has_key(&self, key: &GroupKey) -> bool
        ensures { result ≡ same_group self.now.key key.now }
    {
        self.key == *key
    }

    /// Whether a session of this key that starts may share it.
    pub fn is_joinable(&self, key: &GroupKey) -> bool
        ensures { (pool : Pooled values.OutAttrs) → result ≡ is_joinable key.now (seen pool self.now) }
    {
        self.key == *key && self.fresh && self.ending
    }

    /// Through how many events in a row its queue was full with keys pending.
    pub fn stuck(&self) -> u64
        ensures { result ≡ self.now.stuck }
    {
        self.stuck
    }

    /// Its list of pending keys is exact, and each forced key has a row.
    #[tactic(auto, using(crate::proofs::Formats::shown_values))]
    pub fn know_exact(&self, pool: &Pool<OutAttrs>)
        requires counted { IsCounted pool.now self.now.adj }
        ensures exact { IsExact key_order same_out (seen pool.now self.now).out }
        ensures shown { AreShown (seen pool.now self.now).out }
    {
        know_ids(pool);
        self.know_kept();
    }

    /// All keys are forced. Running out of memory leaves it without routes.
    #[tactic(auto, using(crate::proofs::KeptRibs::kept_forced, crate::proofs::KeptRibs::kept_nothing))]
    fn force(&mut self) -> Result<(), NoMemory>
        ensures point { OnOk result (self.new ≡ forced self.old) }
        ensures key { self.new.key ≡ self.old.key }
    {
        let nothing = RibOut::new(self.alloc, self.key.family);
        let mut out = mem::replace(&mut self.out, nothing);
        out.force_all()?;
        self.out = out;
        Ok(())
    }

    /// A packet was formatted.
    fn note_packet(&mut self)
        ensures { self.new ≡ record self.old { fresh = false; stuck = 0 } }
    {
        self.fresh = false;
        self.stuck = 0;
    }

    /// A refresh begins: all keys are forced. The packet that tells it.
    #[tactic(auto, using(crate::proofs::PlainPackets::sent_mark, crate::proofs::PlainPackets::sent_as))]
    fn begin(&mut self, made: u64) -> Result<Packet, NoMemory>
        ensures packet { IfOk result (λ p. said p ≡ record { made = made; says = RefreshBegins }) }
        ensures sent { IfOk result (IsSent (session_of self.old.key)) }
        ensures point { OnOk result (self.new ≡ begun self.old) }
        ensures key { self.new.key ≡ self.old.key }
    {
        let packet = refresh_begins(self.alloc, &self.key, made)?;
        self.force()?;
        self.phase = Phase::Open;
        self.note_packet();
        Ok(packet)
    }

    /// End-of-RIB is told where it is due, and else the end of a refresh. The packet that tells it.
    fn end(&mut self, made: u64) -> Result<Packet, NoMemory>
        ensures packet { IfOk result (λ p. said p ≡ record { made = made; says = if self.old.ending then EndOfRib else RefreshEnds }) }
        ensures sent { IfOk result (IsSent (session_of self.old.key)) }
        ensures point { OnOk result (self.new ≡ ended self.old) }
        ensures key { self.new.key ≡ self.old.key }
    {
        if self.ending {
            let packet = end_of_rib(self.alloc, &self.key, made)?;
            self.ending = false;
            self.note_packet();
            return Ok(packet);
        }
        let packet = refresh_ends(self.alloc, &self.key, made)?;
        self.phase = Phase::Quiet;
        self.note_packet();
        Ok(packet)
    }

    /// The keys of a packet are formatted. It takes no memory.
    fn tell(&mut self, pool: &mut Pool<OutAttrs>, keys: &[Key])
        requires keys { AreDue (record { family = self.old.key.family; adj = self.old.adj }) keys.now }
        requires counted { IsCounted pool.old self.old.adj }
        requires room { HasRoom (length keys.now) pool.old }
        ensures point { self.new ≡ told keys.now self.old }
        ensures moved { IsMoved pool.old pool.new self.old.adj self.new.adj }
    {
        tell(&mut self.out, pool, keys);
        self.note_packet();
    }

    /// The pending list is exact, and all keys are those of the group key's sessions.
    pub fn know_kept(&self)
        ensures { IsKept self.now.key self.now.key.family self.now.adj }
    {
        let _out = &self.out;
    }

    /// Whether the begin of a refresh is told next: it waits for End-of-RIB.
    fn begins(&self) -> bool
        ensures { result ≡ (is_owed self.now.phase && not self.now.ending) }
    {
        is_owed(self.phase) && !self.ending
    }

    /// The packet of the routes that are due, and their keys; None exactly where none are.
    fn due(&self, pool: &Pool<OutAttrs>, made: u64) -> Result<Option<Routed>, NoMemory>
        requires fit { IsFit (seen pool.now self.now) }
        requires counted { IsCounted pool.now self.now.adj }
        ensures { IfOk result (IsRouted self.now.key made (record { family = self.now.key.family; adj = self.now.adj }) (routes_due self.now.key (out_in pool.now self.now.adj))) }
    {
        routed(self.alloc, &self.key, &self.out, pool, made)
    }

    /// Formats one packet. By the first that applies: the begin of a refresh, which forces all keys, and which waits for
    /// End-of-RIB; withdrawals; the first pending key with those of equal attributes; End-of-RIB; the end of a refresh.
    pub fn next_packet(&mut self, pool: &mut Pool<OutAttrs>, made: u64) -> Result<Packet, NoMemory>
        requires fit { IsFit (seen pool.old self.old) }
        requires counted { IsCounted pool.old self.old.adj }
        requires room { HasRoom (2 ^ 64) pool.old }
        ensures packet { IfOk result (λ p. said p ≡ record { made = made; says = says_next (seen pool.old self.old) }) }
        ensures sent { IfOk result (IsSent (session_of self.old.key)) }
        ensures point { OnOk result (seen pool.new self.new ≡ formatted (seen pool.old self.old)) }
        ensures key { self.new.key ≡ self.old.key }
        ensures moved { OnOk result (IsMoved pool.old pool.new self.old.adj self.new.adj) }
    {
        know_ids(pool);
        self.know_kept();
        if self.begins() {
            let packet = self.begin(made)?;
            return Ok(packet);
        }
        let Some(due) = self.due(pool, made)? else {
            return self.end(made);
        };
        let Routed { packet, keys } = due;
        self.tell(pool, keys.as_slice());
        Ok(packet)
    }
}
