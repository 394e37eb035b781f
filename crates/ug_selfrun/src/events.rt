//! Events, each drawn.

ghost use Rattle.std.specs.Prelude.{◌≡◌, ◌<◌, ◌≤◌, true, length, replicate, IfOk};
ghost use Rattle.ug_events.specs.Views.{event_of};
ghost use Rattle.ug_selfrun.specs.Draws.{seeded};
ghost use Rattle.ug_selfrun.specs.Workload.{routes_drawn, withdrawal_drawn, refresh_drawn, policy_drawn, list_drawn, session_drawn, event_drawn};

use crate::configuration::{entries_up_to, name_gl, name_gp, peer_name};
use crate::drawing::{draw, draw_paths, draw_prefix};
use rand_pcg::Pcg32;
use std::alloc::Global;
use std::marker::Model;
use ug_events::Event;
use ug_types::NoMemory;

/// What is known between two events: the generator, and for each of at most 16 peers whether it was put up last.
#[derive(Drop)]
pub(crate) struct Drawing {
    rng: Pcg32,
    up: Vec<bool>,
}

impl Model for Drawing {
    ghost use Rattle.ug_selfrun.specs.Workload.{Drawing};

    ghost Value = { Drawing };

    ghost view = { λ d. record { draws = d.rng; up = d.up.items } };
}

impl Drawing {
    /// The generator of a seed, and so many peers, all of which are up.
    #[tactic(auto, unfolding(crate::specs::Draws::seeded))]
    pub(crate) fn new(alloc: Global, seed: u64, peers: usize) -> Result<Drawing, NoMemory>
        ensures { IfOk result (λ d. d ≡ record { draws = seeded seed; up = replicate peers true }) }
    {
        Ok(Drawing {
            rng: Pcg32::new(seed, 1),
            up: vec![in alloc; true; peers]?,
        })
    }

    /// The next event.
    #[tactic(auto, unfolding(crate::specs::Workload::event_drawn))]
    pub(crate) fn draw_event(&mut self, alloc: Global) -> Result<Event, NoMemory>
        requires some { 0 < length self.old.up }
        requires few { length self.old.up ≤ 16 }
        ensures drawn { IfOk result (λ event. (event_of event, self.new) ≡ event_drawn (length self.old.up) self.old) }
        ensures peers { length self.new.up ≡ length self.old.up }
    {
        let peers = self.up.len() as u32;
        let a = draw(&mut self.rng, 100);
        if a < 60 {
            draw_routes(alloc, &mut self.rng)
        } else if a < 85 {
            Ok(draw_withdrawal(&mut self.rng))
        } else if a < 90 {
            draw_refresh(alloc, peers, &mut self.rng)
        } else if a < 95 {
            draw_policy(alloc, peers, &mut self.rng)
        } else if a < 98 {
            draw_session(alloc, &mut self.up, &mut self.rng)
        } else {
            draw_list(alloc, &mut self.rng)
        }
    }
}

/// A prefix has paths.
fn draw_routes(alloc: Global, rng: &mut Pcg32) -> Result<Event, NoMemory>
    ensures { IfOk result (λ event. (event_of event, rng.new) ≡ routes_drawn rng.old) }
{
    let prefix = draw_prefix(rng);
    let paths = draw_paths(alloc, rng)?;
    Ok(Event::Paths { prefix, paths })
}

/// A prefix has no path any more.
fn draw_withdrawal(rng: &mut Pcg32) -> Event
    ensures { (event_of result, rng.new) ≡ withdrawal_drawn rng.old }
{
    Event::Withdraw {
        prefix: draw_prefix(rng),
    }
}

/// A peer asks for all routes again.
fn draw_refresh(alloc: Global, peers: u32, rng: &mut Pcg32) -> Result<Event, NoMemory>
    requires some { 0 < peers }
    requires few { peers ≤ 16 }
    ensures { IfOk result (λ event. (event_of event, rng.new) ≡ refresh_drawn peers rng.old) }
{
    let k = draw(rng, peers);
    Ok(Event::Refresh {
        peer: peer_name(alloc, 1 + k)?,
    })
}

/// A peer has no policy, or another one.
fn draw_policy(alloc: Global, peers: u32, rng: &mut Pcg32) -> Result<Event, NoMemory>
    requires some { 0 < peers }
    requires few { peers ≤ 16 }
    ensures { IfOk result (λ event. (event_of event, rng.new) ≡ policy_drawn peers rng.old) }
{
    let k = draw(rng, peers);
    let peer = peer_name(alloc, 1 + k)?;
    if draw(rng, 2) == 0 {
        return Ok(Event::Policy { peer, policy: None });
    }
    Ok(Event::Policy {
        peer,
        policy: Some(name_gp(alloc)?),
    })
}

/// A peer goes down where it was put up last, and else comes up.
fn draw_session(alloc: Global, up: &mut Vec<bool>, rng: &mut Pcg32) -> Result<Event, NoMemory>
    requires some { 0 < length up.old.items }
    requires few { length up.old.items ≤ 16 }
    ensures drawn { IfOk result (λ event. (event_of event, record { draws = rng.new; up = up.new.items }) ≡ session_drawn (length up.old.items) up.old.items rng.old) }
    ensures peers { length up.new.items ≡ length up.old.items }
{
    let k = draw(rng, up.len() as u32);
    let peer = peer_name(alloc, 1 + k)?;
    let place = k as usize;
    if up[place] {
        up[place] = false;
        return Ok(Event::Down { peer });
    }
    up[place] = true;
    Ok(Event::Up { peer })
}

/// The list has another entry.
fn draw_list(alloc: Global, rng: &mut Pcg32) -> Result<Event, NoMemory>
    ensures { IfOk result (λ event. (event_of event, rng.new) ≡ list_drawn rng.old) }
{
    let le = 16 + draw(rng, 17) as u8;
    Ok(Event::List {
        name: name_gl(alloc)?,
        entries: entries_up_to(alloc, le)?,
    })
}
