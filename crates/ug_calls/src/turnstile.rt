//! Threads that take turns (`ug_turnstile`).

ghost use Rattle.std.specs.Prelude.{◌≡◌, ◌++◌, false, [], ◌∷◌, IfOk, MatchBool};
ghost use denote.Param.Send.{IsSync};
ghost use Rattle.ug_turnstile.specs.Passes.{IsSamePass, IsBack};

use std::alloc::Global;
use std::sync::Wait;
use std::thread::{Threads, join};
use ug_turnstile::{Logged, Pass, PassList, Turnstile};
use ug_types::NoMemory;

// How often it was raised, from where, and by which pass each time.
#[derive(Drop)]
struct Counter {
    start: u64,
    count: u64,
    raised: Vec<u32>,
}

impl Logged for Counter {
    type Entry = u32;

    type Root = u64;

    ghost root = { λ c. c.start };

    ghost entries = { λ c. c.raised.items };

    ghost spent = { λ _. false };

    ghost owner = { λ e. e };

    fn owner(entry: &u32) -> u32 {
        *entry
    }
}

impl Counter {
    fn new(alloc: Global) -> Counter
        ensures { result.raised.items ≡ [] }
    {
        Counter {
            start: 7,
            count: 7,
            raised: Vec::new(alloc),
        }
    }

    fn raise(&mut self, by: u32) -> bool
        ensures start { self.new.start ≡ self.old.start }
        ensures raised { MatchBool result (self.new.raised.items ≡ self.old.raised.items ++ by ∷ []) (self.new.raised.items ≡ self.old.raised.items) }
    {
        let Ok(()) = self.raised.push(by) else {
            return false;
        };
        self.count = self.count.wrapping_add(1);
        true
    }
}

fn raise_once<R: Wait>(rt: &R, turnstile: &Turnstile<Counter>, pass: &mut Pass<Counter>)
    requires here { pass.old.turnstile ≡ turnstile.now.id }
    requires free { pass.old.holds ≡ false }
    ensures same { IsSamePass pass.old pass.new }
    ensures free { pass.new.holds ≡ false }
{
    let mut turn = turnstile.take(rt, pass);
    let number = pass.number();
    turn.state().raise(number);
    turnstile.give(pass, turn);
}

fn raise_often<R: Wait>(
    rt: &R,
    turnstile: &Turnstile<Counter>,
    mut pass: Pass<Counter>,
) -> Pass<Counter>
    requires here { pass.turnstile ≡ turnstile.now.id }
    requires free { pass.holds ≡ false }
    ensures same { IsSamePass pass result }
    ensures free { result.holds ≡ false }
{
    for _ in 0..100u32 {
        raise_once(rt, turnstile, &mut pass);
    }
    pass
}

fn raise_by_two<R: Threads + Wait + Sync>(
    rt: &R,
    turnstile: &Turnstile<Counter>,
    first: Pass<Counter>,
    second: Pass<Counter>,
) -> (Pass<Counter>, Pass<Counter>)
    requires here { (first.turnstile ≡ turnstile.now.id) × (second.turnstile ≡ turnstile.now.id) }
    requires free { (first.holds ≡ false) × (second.holds ≡ false) }
    ensures first { IsSamePass first result.0 × (result.0.holds ≡ false) }
    ensures second { IsSamePass second result.1 × (result.1.holds ≡ false) }
{
    join(
        rt,
        move || raise_often(rt, turnstile, first),
        move || raise_often(rt, turnstile, second),
    )
}

fn raise_by_three<R: Threads + Wait + Sync>(
    rt: &R,
    turnstile: &Turnstile<Counter>,
    first: Pass<Counter>,
    second: Pass<Counter>,
    third: Pass<Counter>,
) -> (Pass<Counter>, (Pass<Counter>, Pass<Counter>))
    requires here { (first.turnstile ≡ turnstile.now.id) × (second.turnstile ≡ turnstile.now.id) × (third.turnstile ≡ turnstile.now.id) }
    requires free { (first.holds ≡ false) × (second.holds ≡ false) × (third.holds ≡ false) }
    ensures first { IsSamePass first result.0 × (result.0.holds ≡ false) }
    ensures second { IsSamePass second result.1.0 × (result.1.0.holds ≡ false) }
    ensures third { IsSamePass third result.1.1 × (result.1.1.holds ≡ false) }
{
    join(
        rt,
        move || raise_often(rt, turnstile, first),
        move || -> (Pass<Counter>, Pass<Counter>)
            requires here { (second.turnstile ≡ turnstile.now.id) × (third.turnstile ≡ turnstile.now.id) }
            requires free { (second.holds ≡ false) × (third.holds ≡ false) }
            requires shared { IsSync R.row }
            ensures second { IsSamePass second result.0 × (result.0.holds ≡ false) }
            ensures third { IsSamePass third result.1 × (result.1.holds ≡ false) }
        { raise_by_two(rt, turnstile, second, third) },
    )
}

fn count_by_three<R: Threads + Wait + Sync>(rt: &R, alloc: Global) -> Result<Counter, NoMemory> {
    let Ok((turnstile, mut passes)) = Turnstile::new(alloc, Counter::new(alloc), 3) else {
        return Err(NoMemory);
    };
    let third = passes.remove(2);
    let second = passes.remove(1);
    let first = passes.remove(0);
    let (first, (second, third)) = raise_by_three(rt, &turnstile, first, second, third);
    let passes = together(passes, third, first, second)?;
    Ok(close_all(turnstile, passes))
}

// The order of the passes doesn't matter.
fn close_all(turnstile: Turnstile<Counter>, passes: PassList<Counter>) -> Counter
    requires count { turnstile.count ≡ 3 }
    requires passes { (a : _) × (b : _) × (c : _) × (passes.items ≡ a ∷ b ∷ c ∷ []) × IsBack turnstile 2 a × IsBack turnstile 0 b × IsBack turnstile 1 c }
{
    turnstile.close(passes)
}

fn together(
    mut passes: PassList<Counter>,
    first: Pass<Counter>,
    second: Pass<Counter>,
    third: Pass<Counter>,
) -> Result<PassList<Counter>, NoMemory>
    requires { passes.items ≡ [] }
    ensures { IfOk result (λ all. all.items ≡ first ∷ second ∷ third ∷ []) }
{
    let Ok(()) = passes.push(first) else {
        return Err(NoMemory);
    };
    let Ok(()) = passes.push(second) else {
        return Err(NoMemory);
    };
    let Ok(()) = passes.push(third) else {
        return Err(NoMemory);
    };
    Ok(passes)
}

fn count_of(counter: &Counter, number: u32) -> u32 {
    let mut count: u32 = 0;
    for raised in counter.raised.as_slice() {
        if *raised == number {
            count = count.saturating_add(1);
        }
    }
    count
}

#[test]
fn three_threads_take_a_hundred_turns_each(rt: HostRuntime) {
    for _ in 0..100u32 {
        let Ok(counter) = count_by_three(&rt, rt.alloc()) else {
            panic!(rt; "no memory");
        };
        assert!(rt; counter.raised.len() == 300 && counter.count == 307);
        for number in 0..3u32 {
            assert!(rt; count_of(&counter, number) == 100);
        }
    }
}
