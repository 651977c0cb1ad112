//! The lines of a script on one thread.

ghost use Rattle.std.specs.Prelude.{◌≡◌, ◌<◌, ◌+◌, ◌∷◌, ℕ, List, Some, [], length, slice_get};
ghost use Rattle.aft_lines.specs.Asked.{Asked};
ghost use Rattle.aft_lines.specs.LegalTrace.{LegalTrace};
ghost use Rattle.aft_model.specs.declared.script.Step.{Step};
ghost use Rattle.aft_step.specs.Asking.{HasRoom, IsAskedOf};
ghost use Rattle.aft_step.specs.Crowding.{AreFirst, ComesTo, IsWordOf};
ghost use Rattle.aft_step.specs.Worlds.{ran_of, shown};
ghost use Rattle.aft_turns.specs.Steps.{SameStore};
ghost use Rattle.aft_lines.specs.Opened.{Opened};

use crate::client::Client;
use aft_boot::World;
use aft_keeper::{Clock, Keeper};
use aft_model::{Line, Order, Script, Step};
use std::alloc::Global;
use std::array;

/// Runs the lines of a script on one thread. Each word of the order is one turn of its client's line that runs, or of its next line,
/// or with `*` each turn to that line's end; a word of a client without a line left does nothing. Behind the last word the lines that
/// aren't over run in order of line number, each to its end. Each turn has seen all that is at the door.
///
/// The world has just been opened, with room for an answer of each line. The script's lines are numbered upwards from 1, of clients from
/// 1 to 64; each keeps to one node, which is there, and the door, and puts at most 4,096 bytes. Then the trace is legal: it is what
/// such a script and order may come to.
pub fn step<K: Keeper, C: Clock>(
    alloc: Global,
    world: &mut World<K>,
    script: &Script,
    order: &Order,
    clock: &C,
)
    requires asked { (asked : Asked) × IsAskedOf asked script.now order.now (C.time clock.now) × Opened asked (ran_of (shown world.old.door world.old.nodes world.old.boxes world.old.office)) × HasRoom asked (shown world.old.door world.old.nodes world.old.boxes world.old.office) }
    ensures legal { (asked : Asked) → IsAskedOf asked script.now order.now (C.time clock.now) → Opened asked (ran_of (shown world.old.door world.old.nodes world.old.boxes world.old.office)) → HasRoom asked (shown world.old.door world.old.nodes world.old.boxes world.old.office) → LegalTrace asked (ran_of (shown world.new.door world.new.nodes world.new.boxes world.new.office)) }
    ensures store { SameStore world.old.door world.new.door }
{
    let lines = script.lines.as_slice();
    let mut clients = first_clients();
    follow_all(
        alloc,
        world,
        lines,
        &mut clients,
        order.words.as_slice(),
        clock,
    );
    finish_all(alloc, world, lines, &mut clients, clock);
}

/// The clients of the numbers from 1 to 64, none of whose lines has begun.
fn first_clients() -> [Client; 64]
    ensures { AreFirst result }
{
    array::from_fn(|i| Client::new(i as u32 + 1))
}

/// Follows the words of the order, one after the other.
fn follow_all<K: Keeper, C: Clock>(
    alloc: Global,
    world: &mut World<K>,
    lines: &[Line],
    clients: &mut [Client],
    words: &[Step],
    clock: &C,
)
    requires stands { (asked : Asked) × (asked.script.lines ≡ lines.now) × (asked.clock ≡ C.time clock.now) × ((i : ℕ) (word : Step) → slice_get words.now i ≡ Some word → IsWordOf asked word) × ComesTo asked words.now 0 (shown world.old.door world.old.nodes world.old.boxes world.old.office) clients.old }
    ensures goes { (asked : Asked) → asked.script.lines ≡ lines.now → asked.clock ≡ C.time clock.now → ((i : ℕ) (word : Step) → slice_get words.now i ≡ Some word → IsWordOf asked word) → ComesTo asked words.now 0 (shown world.old.door world.old.nodes world.old.boxes world.old.office) clients.old → ComesTo asked [] 0 (shown world.new.door world.new.nodes world.new.boxes world.new.office) clients.new }
    ensures store { SameStore world.old.door world.new.door }
{
    for word in words {
        follow(alloc, world, lines, clients, *word, clock);
    }
}

/// Follows one word: its client goes on, if there is one of its number.
fn follow<K: Keeper, C: Clock>(
    alloc: Global,
    world: &mut World<K>,
    lines: &[Line],
    clients: &mut [Client],
    word: Step,
    clock: &C,
)
    requires stands { (asked : Asked) × (rest : List Step) × (asked.script.lines ≡ lines.now) × (asked.clock ≡ C.time clock.now) × IsWordOf asked word × ComesTo asked (word ∷ rest) 0 (shown world.old.door world.old.nodes world.old.boxes world.old.office) clients.old }
    ensures goes { (asked : Asked) (rest : List Step) → asked.script.lines ≡ lines.now → asked.clock ≡ C.time clock.now → IsWordOf asked word → ComesTo asked (word ∷ rest) 0 (shown world.old.door world.old.nodes world.old.boxes world.old.office) clients.old → ComesTo asked rest 0 (shown world.new.door world.new.nodes world.new.boxes world.new.office) clients.new }
    ensures store { SameStore world.old.door world.new.door }
{
    let index = word.client.wrapping_sub(1) as usize;
    if index < clients.len() {
        let client = &mut clients[index];
        client.go_on(alloc, world, lines, clock, word.whole);
    }
}

/// Runs the lines that aren't over, each to its end.
fn finish_all<K: Keeper, C: Clock>(
    alloc: Global,
    world: &mut World<K>,
    lines: &[Line],
    clients: &mut [Client],
    clock: &C,
)
    requires stands { (asked : Asked) × (asked.script.lines ≡ lines.now) × (asked.clock ≡ C.time clock.now) × ComesTo asked [] 0 (shown world.old.door world.old.nodes world.old.boxes world.old.office) clients.old }
    ensures goes { (asked : Asked) → asked.script.lines ≡ lines.now → asked.clock ≡ C.time clock.now → ComesTo asked [] 0 (shown world.old.door world.old.nodes world.old.boxes world.old.office) clients.old → ComesTo asked [] (length lines.now) (shown world.new.door world.new.nodes world.new.boxes world.new.office) clients.new }
    ensures store { SameStore world.old.door world.new.door }
{
    for index in 0..lines.len() {
        finish(alloc, world, lines, clients, index, clock);
    }
}

/// Runs the line at this index to its end, where it isn't over.
fn finish<K: Keeper, C: Clock>(
    alloc: Global,
    world: &mut World<K>,
    lines: &[Line],
    clients: &mut [Client],
    index: usize,
    clock: &C,
)
    requires within { index < length lines.now }
    requires stands { (asked : Asked) × (asked.script.lines ≡ lines.now) × (asked.clock ≡ C.time clock.now) × ComesTo asked [] index (shown world.old.door world.old.nodes world.old.boxes world.old.office) clients.old }
    ensures goes { (asked : Asked) → asked.script.lines ≡ lines.now → asked.clock ≡ C.time clock.now → ComesTo asked [] index (shown world.old.door world.old.nodes world.old.boxes world.old.office) clients.old → ComesTo asked [] (index + 1) (shown world.new.door world.new.nodes world.new.boxes world.new.office) clients.new }
    ensures store { SameStore world.old.door world.new.door }
{
    let client = &mut clients[lines[index].client as usize - 1];
    if client.is_at(index) {
        client.go_on(alloc, world, lines, clock, true);
    }
}
