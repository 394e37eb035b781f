//! A chain of segments: 130 values fill two of them and begin a third (`ug_segchain`).

use std::process::Abort;
use std::sync::atomic::{AtomicU64, Ordering};
use ug_segchain::SegChain;

/// A value that counts its drops.
struct Counted<'a> {
    value: u64,
    drops: &'a AtomicU64,
}

impl Drop for Counted<'_> {
    fn drop(self) {
        self.drops.fetch_add(1, Ordering::SeqCst);
        let Counted { value: _, drops: _ } = self;
    }
}

/// Adds the values from 1 to 130, for which there is room already.
fn fill<'a>(rt: &impl Abort, chain: &mut SegChain<Counted<'a>>, drops: &'a AtomicU64) {
    assert!(rt; chain.reserve(130).is_ok());
    for value in 1..131u64 {
        let Ok(()) = chain.reserve(1) else {
            panic!(rt; "no memory");
        };
        chain.push(Counted { value, drops });
    }
}

#[test]
fn values_stand_in_their_order_and_each_is_dropped_once(rt: HostRuntime) {
    let drops = AtomicU64::new(0);
    let mut chain = SegChain::new(rt.alloc());
    assert!(rt; chain.front().is_none() && chain.pop_front().is_none());
    fill(&rt, &mut chain, &drops);
    for value in 1..71u64 {
        let Some(first) = chain.pop_front() else {
            panic!(rt; "no value");
        };
        assert_eq!(rt; first.value, value);
    }
    assert_eq!(rt; (chain.len(), drops.load(Ordering::SeqCst)), (60, 70));
    assert_eq!(rt; chain.at(0).value, 71);
    drop(chain);
    assert_eq!(rt; drops.load(Ordering::SeqCst), 130);
}
