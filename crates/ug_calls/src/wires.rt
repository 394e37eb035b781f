//! Wires that wait for each other, and a wire with room for so many bytes (`ug_edge`).

use std::process::Abort;
use ug_edge::{Failed, GatedSite, GatedWire, RoomWire, Site, Wire};
use ug_types::Sequence;

fn begin(rt: &impl Abort, wire: &mut RoomWire) -> Result<(), Failed> {
    assert!(rt; wire.sessions() < u32::MAX);
    wire.begin()
}

fn send(rt: &impl Abort, wire: &mut RoomWire, piece: &[u8]) -> Result<usize, Failed> {
    assert!(rt; wire.sessions() > 0);
    wire.send(piece)
}

#[test]
fn a_room_wire_takes_what_fits(rt: HostRuntime) {
    let Ok(mut wire) = RoomWire::new(rt.alloc(), 2, 5) else {
        panic!(rt; "no memory");
    };
    assert!(rt; begin(&rt, &mut wire).is_ok() && send(&rt, &mut wire, b"abc") == Ok(3));
    assert!(rt; begin(&rt, &mut wire).is_ok());
    for (piece, taken) in [("defg", Ok(2)), ("fg", Err(Failed)), ("", Ok(0))] {
        assert!(rt; send(&rt, &mut wire, piece.as_bytes()) == taken, "{piece}");
    }
    assert!(rt; begin(&rt, &mut wire).is_err() && send(&rt, &mut wire, b"") == Err(Failed));
    assert!(rt; wire.sessions() == 3);
    assert!(rt; wire.session(1) == b"abc".as_slice() && wire.session(2) == b"de".as_slice());
    assert!(rt; wire.session(3).is_empty());
}

/// A wire of the site with its first session.
fn begun(rt: &impl Abort, site: &mut GatedSite, peer: &str) -> GatedWire {
    let Ok(mut wire) = site.wire("dir", peer) else {
        panic!(rt; "no wire");
    };
    assert!(rt; wire.sessions() == 0 && wire.begin().is_ok());
    wire
}

/// Whether the wire takes a text whole, and holds it.
fn takes_text(wire: GatedWire) -> bool {
    let mut wire = wire;
    wire.sessions() == 1
        && wire.send(b"text") == Ok(4)
        && wire.sessions() == 1
        && wire.session(1) == b"text".as_slice()
}

/// A third wire there isn't.
#[test]
fn gated_wires_wait_for_each_other(rt: HostRuntime) {
    let Ok(mut site) = GatedSite::new(rt.alloc(), Sequence::new(rt.alloc())) else {
        panic!(rt; "no memory");
    };
    let (one, other) = (begun(&rt, &mut site, "p"), begun(&rt, &mut site, "q"));
    assert!(rt; site.wire("dir", "r").is_err());
    let both = std::thread::join(&rt, move || takes_text(one), move || takes_text(other));
    assert_eq!(rt; both, (true, true));
}
