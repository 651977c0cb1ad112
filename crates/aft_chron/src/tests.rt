//! The lock round a list of numbers, on one thread and on several.
ghost use Rattle.std.specs.Prelude.{◌≡◌, ℕ, ◌+◌, ◌*◌, ◌^◌, ◌<◌, ◌≤◌, ◌⊎◌, [], ◌∷◌, ◌++◌, length, true, false, Contains, IfOk, OnOk, OnErr};
ghost use Rattle.aft_chron.specs.Standing.{IsFree, left, once};
ghost use Rattle.aft_chron.specs.Tried.{IsSamePlace, IsSameHolder};
ghost use Rattle.std.specs.Thread.{IsSync};

use crate::{Chron, Memory, Pass, Storied};
use std::alloc::{AllocError, Global};
use std::marker::Model;
use std::process::Abort;
use std::sync::Wait;
use std::test::Fail;
use std::thread;
use std::thread::Threads;

/// Numbers in the order in which they were added. None of them counts.
#[derive(Debug, Drop)]
struct Numbers {
    items: Vec<u64>,
}

impl Model for Numbers {
    ghost use Rattle.std.specs.Prelude.{List, ℕ};

    ghost Value = { List ℕ };

    ghost view = { λ numbers. numbers.items.items };
}

impl Numbers {
    fn new(alloc: Global) -> Numbers
        ensures { result ≡ [] }
    {
        Numbers {
            items: Vec::new(alloc),
        }
    }

    fn add(&mut self, number: u64) -> Result<(), AllocError>
        ensures ok { OnOk result (self.new ≡ self.old ++ number ∷ []) }
        ensures err { OnErr result (self.new ≡ self.old) }
    {
        self.items.push(number)?;
        Ok(())
    }
}

impl Storied for Numbers {
    type Entry = u64;

    ghost history = { λ numbers. numbers };

    ghost count = { λ numbers. 0 };

    fn entries(&self) -> u64 {
        self.items.len() as u64
    }

    fn counted(&self) -> u64 {
        0
    }
}

/// Takes a turn that adds this number.
#[tactic(auto, using(crate::proofs::Tried::contains_added))]
fn add<R: Wait>(
    rt: &R,
    lock: &Chron<Numbers>,
    pass: &mut Pass<u64>,
    number: u64,
) -> Result<(), AllocError>
    requires pass { IsFree pass.old lock.now × (0 < pass.old.parts) }
    ensures pass { IsSamePlace pass.old pass.new }
    ensures added { OnOk result (Contains pass.new.seen number) }
{
    let mut turn = lock.enter(rt, pass);
    let added = turn.value.add(number);
    lock.leave(turn, pass);
    added
}

/// A lock round no numbers, and its pass with all parts.
fn lock_round_none(alloc: Global, parts: u32) -> Result<(Chron<Numbers>, Pass<u64>), Memory>
    requires { 0 < parts }
    ensures { IfOk result (λ made. IsFree made.1 made.0 × (made.1.parts ≡ parts) × (made.1.whole ≡ parts) × (made.1.counted ≡ 0) × (made.1.made ≡ [])) }
{
    match Chron::new(alloc, Numbers::new(alloc), parts) {
        Ok(made) => Ok(made),
        Err((_, memory)) => Err(memory),
    }
}

/// What the lock keeps, once its two passes have met.
#[tactic(auto, using(crate::proofs::Tried::contains_begun))]
fn closed(lock: Chron<Numbers>, mut first: Pass<u64>, second: Pass<u64>) -> Numbers
    requires first { IsFree first lock }
    requires second { IsFree second lock }
    requires all { first.parts + second.parts ≡ first.whole }
    // What either had seen is in it.
    ensures first { (n : ℕ) → Contains first.seen n → Contains result n }
    ensures second { (n : ℕ) → Contains second.seen n → Contains result n }
{
    lock.meet(&mut first, second);
    lock.close(first)
}

/// One pass adds 5, and one that is split off then finds it and adds 6.
fn five_and_six<R: Wait + Abort>(
    rt: &R,
    lock: Chron<Numbers>,
    mut first: Pass<u64>,
) -> Result<Numbers, AllocError>
    requires pass { IsFree first lock × (first.parts ≡ 2) × (first.whole ≡ 2) × (first.counted ≡ 0) }
    ensures both { IfOk result (λ numbers. Contains numbers 5 × Contains numbers 6) }
{
    add(rt, &lock, &mut first, 5)?;
    let mut second = lock.split(&mut first, 1);
    assert_eq!(rt; second.seen(), 1);
    add(rt, &lock, &mut second, 6)?;
    assert_eq!(rt; second.seen(), 2);
    Ok(closed(lock, first, second))
}

#[test]
fn two_passes_on_one_thread(rt: HostRuntime) -> Result<(), Fail> {
    let (lock, first) = lock_round_none(rt.alloc(), 2)?;
    let numbers = five_and_six(&rt, lock, first)?;
    assert_eq!(rt; numbers.items.as_slice(), [5, 6].as_slice());
    Ok(())
}

/// Takes a turn that adds this number, and gives the pass back.
fn added<R: Wait>(
    rt: &R,
    lock: &Chron<Numbers>,
    mut pass: Pass<u64>,
    number: u64,
) -> (Pass<u64>, Result<(), AllocError>)
    requires pass { IsFree pass lock.now × (0 < pass.parts) }
    ensures pass { IsSamePlace pass result.0 }
    ensures added { OnOk result.1 (Contains result.0.seen number) }
{
    let done = add(rt, lock, &mut pass, number);
    (pass, done)
}

/// Two threads take a turn each, one to add 5 and one to add 6.
fn two_threads<R: Threads + Wait + Sync>(
    rt: &R,
    lock: &Chron<Numbers>,
    one: Pass<u64>,
    two: Pass<u64>,
) -> (
    (Pass<u64>, Result<(), AllocError>),
    (Pass<u64>, Result<(), AllocError>),
)
    requires one { IsFree one lock.now × (0 < one.parts) }
    requires two { IsFree two lock.now × (0 < two.parts) }
    ensures one { IsSamePlace one result.0.0 }
    ensures five { OnOk result.0.1 (Contains result.0.0.seen 5) }
    ensures two { IsSamePlace two result.1.0 }
    ensures six { OnOk result.1.1 (Contains result.1.0.seen 6) }
{
    thread::join(
        rt,
        move || -> (Pass<u64>, Result<(), AllocError>)
            requires { IsFree one lock.now × (0 < one.parts) }
            ensures { IsSamePlace one result.0 × OnOk result.1 (Contains result.0.seen 5) }
        { added(rt, lock, one, 5) },
        move || -> (Pass<u64>, Result<(), AllocError>)
            requires { IsFree two lock.now × (0 < two.parts) }
            ensures { IsSamePlace two result.0 × OnOk result.1 (Contains result.0.seen 6) }
        { added(rt, lock, two, 6) },
    )
}

/// One pass adds 5, and one that is split off adds 6, each on a thread of its own.
fn five_beside_six<R: Threads + Wait + Sync>(
    rt: &R,
    lock: Chron<Numbers>,
    mut first: Pass<u64>,
) -> Result<Numbers, AllocError>
    requires pass { IsFree first lock × (first.parts ≡ 2) × (first.whole ≡ 2) × (first.counted ≡ 0) }
    ensures both { IfOk result (λ numbers. Contains numbers 5 × Contains numbers 6) }
{
    let second = lock.split(&mut first, 1);
    let ((first, five), (second, six)) = two_threads(rt, &lock, first, second);
    five?;
    six?;
    Ok(closed(lock, first, second))
}

#[test]
fn two_passes_on_threads_of_their_own(rt: HostRuntime) -> Result<(), Fail> {
    let (lock, first) = lock_round_none(rt.alloc(), 2)?;
    let numbers = five_beside_six(&rt, lock, first)?;
    let items = numbers.items.as_slice();
    assert!(rt; items == [5, 6].as_slice() || items == [6, 5].as_slice());
    Ok(())
}

/// Adds a thousand numbers, from this one on, in a turn each.
fn thousand<R: Wait>(
    rt: &R,
    lock: &Chron<Numbers>,
    mut pass: Pass<u64>,
    from: u64,
) -> (Pass<u64>, Result<(), AllocError>)
    requires pass { IsFree pass lock.now × (0 < pass.parts) }
    requires numbers { from < 2 ^ 32 }
    ensures pass { IsSamePlace pass result.0 }
{
    for i in 0..1000 {
        if let Err(error) = add(rt, lock, &mut pass, from + i) {
            return (pass, Err(error));
        }
    }
    (pass, Ok(()))
}

/// As many threads as the pass has parts add a thousand numbers each, from this one on.
fn thousands<R: Threads + Wait + Sync>(
    rt: &R,
    lock: &Chron<Numbers>,
    mut pass: Pass<u64>,
    parts: u32,
    from: u64,
) -> (Pass<u64>, Result<(), AllocError>)
    requires pass { IsFree pass lock.now × (pass.counted ≡ 0) }
    requires parts { (pass.parts ≡ parts) × (0 < parts) × (parts < 9) }
    requires numbers { from + 1000 * parts < 2 ^ 32 }
    ensures pass { IsSamePlace pass result.0 }
{
    if parts == 1 {
        return thousand(rt, lock, pass, from);
    }
    let half = parts / 2;
    let kept = parts - half;
    let next = from + 1000 * u64::from(kept);
    let other = lock.split(&mut pass, half);
    let ((mut pass, one), (other, two)) = thread::join(
        rt,
        move || -> (Pass<u64>, Result<(), AllocError>)
            requires { IsSync R.row × IsFree pass lock.now × (pass.counted ≡ 0) × (pass.parts ≡ kept) × (0 < kept) × (kept < 9) × (from + 1000 * kept < 2 ^ 32) }
            ensures { IsSamePlace pass result.0 }
        { thousands(rt, lock, pass, kept, from) },
        move || -> (Pass<u64>, Result<(), AllocError>)
            requires { IsSync R.row × IsFree other lock.now × (other.counted ≡ 0) × (other.parts ≡ half) × (0 < half) × (half < 9) × (next + 1000 * half < 2 ^ 32) }
            ensures { IsSamePlace other result.0 }
        { thousands(rt, lock, other, half, next) },
    );
    lock.meet(&mut pass, other);
    (pass, one.and(two))
}

#[test]
fn eight_threads_add_a_thousand_each(rt: HostRuntime) -> Result<(), Fail> {
    let (lock, pass) = lock_round_none(rt.alloc(), 8)?;
    let (pass, added) = thousands(&rt, &lock, pass, 8, 0);
    added?;
    let mut numbers = lock.close(pass);
    assert_eq!(rt; numbers.items.len(), 8000);
    numbers.items.sort()?;
    for wanted in 0..8000u64 {
        assert_eq!(rt; numbers.items.get(wanted as usize).copied(), Some(wanted));
    }
    Ok(())
}

/// Notes in order. Those with a yes count: they are answers. The others are marks.
#[derive(Debug, Drop)]
struct Notes {
    items: Vec<(bool, u64)>,
    number_of_answers: u64,
}

impl Model for Notes {
    ghost use Rattle.std.specs.Prelude.{◌≡◌, List, Bool, ℕ};
    ghost use Rattle.aft_chron.specs.Tried.{answers};

    ghost Value = { List (Bool × ℕ) };

    ghost view = { λ notes. notes.items.items };

    ghost invariant = { λ notes. notes.number_of_answers ≡ answers notes.items.items };
}

impl Notes {
    fn new(alloc: Global) -> Notes
        ensures { result ≡ [] }
    {
        Notes {
            items: Vec::new(alloc),
            number_of_answers: 0,
        }
    }

    #[tactic(auto, using(crate::proofs::Tried::answers_end, crate::proofs::Tried::answers_most))]
    fn add(&mut self, counts: bool, number: u64) -> Result<(), AllocError>
        ensures ok { OnOk result (self.new ≡ self.old ++ (counts, number) ∷ []) }
        ensures err { OnErr result (self.new ≡ self.old) }
    {
        self.items.push((counts, number))?;
        if counts {
            self.number_of_answers += 1;
        }
        Ok(())
    }
}

impl Storied for Notes {
    type Entry = (bool, u64);

    ghost use Rattle.aft_chron.specs.Tried.{answers};

    ghost history = { λ notes. notes };

    ghost count = { answers };

    fn entries(&self) -> u64 {
        self.items.len() as u64
    }

    fn counted(&self) -> u64 {
        self.number_of_answers
    }
}

/// Takes a turn that adds an answer, or a mark.
#[tactic(auto, using(crate::proofs::Tried::answers_end))]
fn note<R: Wait>(
    rt: &R,
    lock: &Chron<Notes>,
    pass: &mut Pass<(bool, u64)>,
    counts: bool,
    number: u64,
) -> Result<(), AllocError>
    requires pass { IsFree pass.old lock.now × (0 < pass.old.parts) }
    requires left { once counts ≤ left pass.old }
    ensures pass { IsSameHolder pass.old pass.new }
    ensures counted { OnOk result (pass.new.counted ≡ pass.old.counted + once counts) }
{
    let mut turn = lock.enter(rt, pass);
    let added = turn.value.add(counts, number);
    lock.leave(turn, pass);
    added
}

#[test]
fn answers_count_and_marks_do_not(rt: HostRuntime) -> Result<(), Fail> {
    let made = Chron::new(rt.alloc(), Notes::new(rt.alloc()), 2);
    let Ok((lock, mut first)) = made else {
        return Err(Fail::from(Memory));
    };
    note(&rt, &lock, &mut first, false, 1)?;
    note(&rt, &lock, &mut first, true, 2)?;
    let mut second = lock.split(&mut first, 1);
    note(&rt, &lock, &mut first, false, 3)?;
    note(&rt, &lock, &mut second, true, 4)?;
    note(&rt, &lock, &mut second, false, 5)?;
    lock.meet(&mut first, second);
    let notes = lock.close(first);
    assert_eq!(rt; notes.counted(), 2);
    assert_eq!(rt;
        notes.items.as_slice(),
        [(false, 1), (true, 2), (false, 3), (true, 4), (false, 5)].as_slice()
    );
    Ok(())
}
