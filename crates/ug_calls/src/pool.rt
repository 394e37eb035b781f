//! Values that are shared (`ug_intern`).

use std::process::Abort;
use ug_intern::{AttrId, Pool};

/// One holder fewer of a live id.
fn let_go(rt: &impl Abort, pool: &mut Pool<u64>, id: AttrId) {
    assert!(rt; pool.uses(id) > 0);
    pool.drop_one(id);
}

#[test]
fn equal_values_share_an_id(rt: HostRuntime) {
    let mut pool: Pool<u64> = Pool::new(rt.alloc());
    let Ok(seven) = pool.hold(7) else {
        panic!(rt; "no memory");
    };
    let Ok(eight) = pool.hold(8) else {
        panic!(rt; "no memory");
    };
    assert!(rt; pool.hold(7) == Ok(seven));
    assert!(rt; pool.uses(seven) == 2 && pool.uses(eight) == 1);
    let_go(&rt, &mut pool, seven);
    let_go(&rt, &mut pool, eight);
    assert!(rt; pool.uses(eight) == 0);
    assert!(rt; pool.uses(seven) == 1);
    assert_eq!(rt; *pool.get(seven), 7);
}
