//! Numbers, and what is made of a few of them.

ghost use Rattle.std.specs.Prelude.{◌≡◌, ◌+◌, ◌*◌, ◌<◌, ◌^◌, IfOk};
ghost use Rattle.ug_selfrun.specs.Draws.{draw};
ghost use Rattle.ug_selfrun.specs.Configuration.{slash24};
ghost use Rattle.ug_selfrun.specs.Workload.{prefix_drawn, paths_drawn, own_path};

use rand_core::utils::NextWord;
use rand_pcg::Pcg32;
use std::alloc::Global;
use ug_events::{Given, GivenList};
use ug_types::{Addr, AttrParts, Attrs, Family, NoMemory, Prefix, Sequence, Shared};

/// The next number below this one.
#[tactic(auto, unfolding(crate::specs::Draws::draw))]
pub(crate) fn draw(rng: &mut Pcg32, below: u32) -> u32
    requires { 0 < below }
    ensures drawn { (result, rng.new) ≡ draw below rng.old }
    ensures within { result < below }
{
    rng.next_word() % below
}

/// The IPv4 prefix of 24 bits of this number.
pub(crate) fn slash24(number: u32) -> Prefix
    requires { number < 2 ^ 24 }
    ensures { result ≡ slash24 number }
{
    Prefix {
        family: Family::V4,
        bits: (number as u128) << 104,
        len: 24,
    }
}

/// A prefix 10.x.y.0/24.
#[tactic(auto, unfolding(crate::specs::Workload::prefix_drawn))]
pub(crate) fn draw_prefix(rng: &mut Pcg32) -> Prefix
    ensures { (result, rng.new) ≡ prefix_drawn rng.old }
{
    let x = draw(rng, 16);
    let y = draw(rng, 256);
    slash24(0x0A_0000 + x * 256 + y)
}

/// A path of the speaker's own.
#[tactic(auto, unfolding(ug_message::specs::Spellable::has_ipv4_addresses))]
fn own_path(alloc: Global, id: u32, med: u32) -> Result<Given, NoMemory>
    requires { 0 < id }
    ensures { IfOk result (λ given. given ≡ own_path id med) }
{
    let mut parts = AttrParts::plain(alloc, 0, Sequence::new(alloc), Addr::v4(0));
    parts.med = Some(med);
    let Ok(attrs) = Attrs::new(parts) else {
        unreachable!()
    };
    let attrs = Shared::new(alloc, attrs)?;
    Ok(Given {
        id,
        from: None,
        attrs,
    })
}

/// One path or two.
#[tactic(auto, unfolding(crate::specs::Workload::paths_drawn))]
pub(crate) fn draw_paths(alloc: Global, rng: &mut Pcg32) -> Result<GivenList, NoMemory>
    ensures { IfOk result (λ paths. (paths.items, rng.new) ≡ paths_drawn rng.old) }
{
    let mut paths = Vec::new(alloc);
    let is_alone = draw(rng, 2) == 0;
    let med = draw(rng, 8);
    paths.push(own_path(alloc, 1, med)?)?;
    if !is_alone {
        let med = draw(rng, 8);
        paths.push(own_path(alloc, 2, med)?)?;
    }
    Ok(Shared::new(alloc, Sequence::from_vec(paths))?)
}
