//! The generator of scripts and orders.

ghost use Rattle.std.specs.Prelude.{◌≡◌, ◌<◌, ◌≤◌, ◌+◌, ◌%◌, ◌^◌, ◌/◌, ◌++◌, ◌∷◌, [], IfOk, OnOk, length, filter, codes};
ghost use Rattle.std.specs.Fmt.{decimal};
ghost use Rattle.aft_script.specs.Runnable.{AreRunnable};
ghost use Rattle.aft_script.specs.Generator.{Made, after_draw, and_begin, and_calls, and_get, and_line, and_nodes_kept, and_put, and_store_kept, and_transaction, client_of_transaction, drawn, four_turns, generated_lines, generated_steps, kept, key_of_number, made_after, next_state, one_line, times, uuid_of_number};

use crate::order::has_client;
use aft_id::{Bytes, List, Memory};
use aft_model::{Command, Line, Order, Script, Step};
use aft_records::Key;
use std::alloc::Global;
use uuid::Uuid;

/// What the state of the draws is multiplied by.
const FACTOR: u128 = 6_364_136_223_846_793_005;
/// What is then added to it.
const ADDEND: u128 = 1_442_695_040_888_963_407;
/// How many keys there are.
const KEYS: u64 = 50;
/// The client of the housekeeping.
const KEEPER: u32 = 5;

/// Makes a script of so many transactions, and an order for it. The draws begin at the state `first`; the same numbers
/// make the same script.
///
/// Four clients have four transactions each, in turn: two puts, two gets, one put, one get, each with its commit. A
/// fifth has announcements, deliveries and local rounds of both nodes after each hundred of them, and a round of the
/// manager and a collection after each five hundred.
pub fn generate(alloc: Global, count: u32, first: u64) -> Result<(Script, Order), Memory>
    requires some { 1 ≤ count }
    requires few { count ≤ 5000 }
    ensures script { IfOk result (λ made. made.0.lines ≡ generated_lines count first) }
    ensures order { IfOk result (λ made. made.1.words ≡ generated_steps (generated_lines count first)) }
    ensures runnable { IfOk result (λ made. AreRunnable 2 made.0.lines) }
    ensures few { IfOk result (λ made. length made.0.lines ≤ 20000) }
{
    let mut maker = Maker {
        alloc,
        state: first,
        lines: Vec::new(alloc),
    };
    for before in 0..count {
        maker.transaction(before + 1)?;
        maker.keep_nodes(before + 1)?;
        maker.keep_store(before + 1)?;
    }
    let words = steps_for(alloc, maker.lines.as_slice())?;
    let lines = List::from_vec(maker.lines);
    Ok((
        Script { lines },
        Order {
            words: List::from_vec(words),
        },
    ))
}

/// What was made so far.
#[derive(Drop)]
struct Maker {
    alloc: Global,
    state: u64,
    lines: Vec<Line>,
}

impl Maker {
    ghost use Rattle.aft_script.specs.Making.{made_by};

    /// Draws a number below a bound.
    fn draw(&mut self, bound: u64) -> u64
        requires { 0 < bound }
        ensures made { made_by self.new ≡ after_draw (made_by self.old) }
        ensures value { result ≡ drawn (made_by self.new) bound }
        ensures below { result < bound }
    {
        self.state = next_state(self.state);
        (self.state / (1 << 33)) % bound
    }

    /// Adds a line.
    fn line(&mut self, client: u32, order: Command) -> Result<(), Memory>
        requires { length self.old.lines.items < 2 ^ 31 }
        ensures { OnOk result (made_by self.new ≡ and_line client order (made_by self.old)) }
    {
        let number = self.lines.len() as u32 + 1;
        self.lines.push(Line {
            number,
            client,
            order,
        })?;
        Ok(())
    }

    /// Adds a begin of a transaction at a node that is drawn.
    fn begin(&mut self, i: u32) -> Result<(), Memory>
        requires number { 1 ≤ i }
        requires room { length self.old.lines.items < 2 ^ 31 }
        ensures { OnOk result (made_by self.new ≡ and_begin i (made_by self.old)) }
    {
        let node = 1 + self.draw(2) as u32;
        self.line(
            client_of(i),
            Command::Begin {
                uuid: uuid_of(i),
                node,
            },
        )
    }

    /// Adds a put of a key that is drawn.
    fn put(&mut self, i: u32) -> Result<(), Memory>
        requires number { 1 ≤ i }
        requires room { length self.old.lines.items < 2 ^ 31 }
        ensures { OnOk result (made_by self.new ≡ and_put i (made_by self.old)) }
    {
        let number = self.draw(KEYS);
        let key = key_of(self.alloc, number)?;
        let value = value_of(self.alloc, i)?;
        self.line(client_of(i), Command::Put { key, value })
    }

    /// Adds a get of a key that is drawn.
    fn get(&mut self, i: u32) -> Result<(), Memory>
        requires number { 1 ≤ i }
        requires room { length self.old.lines.items < 2 ^ 31 }
        ensures { OnOk result (made_by self.new ≡ and_get i (made_by self.old)) }
    {
        let number = self.draw(KEYS);
        let key = key_of(self.alloc, number)?;
        self.line(client_of(i), Command::Get { key })
    }

    /// Adds the puts or the gets of a transaction.
    fn calls(&mut self, i: u32) -> Result<(), Memory>
        requires number { 1 ≤ i }
        requires room { length self.old.lines.items + 1 < 2 ^ 31 }
        ensures { OnOk result (made_by self.new ≡ and_calls i (made_by self.old)) }
    {
        match i % 4 {
            1 => {
                self.put(i)?;
                self.put(i)
            }
            2 => {
                self.get(i)?;
                self.get(i)
            }
            3 => self.put(i),
            _ => self.get(i),
        }
    }

    /// Adds a transaction: a begin, its puts or its gets, and a commit.
    fn transaction(&mut self, i: u32) -> Result<(), Memory>
        requires number { 1 ≤ i }
        requires room { length self.old.lines.items + 4 < 2 ^ 31 }
        ensures made { OnOk result (made_by self.new ≡ and_transaction i (made_by self.old)) }
        ensures few { OnOk result (length self.new.lines.items ≤ length self.old.lines.items + 4) }
    {
        self.begin(i)?;
        self.calls(i)?;
        self.line(client_of(i), Command::Commit)
    }

    /// Adds the housekeeping of the nodes, after each hundred transactions.
    fn keep_nodes(&mut self, i: u32) -> Result<(), Memory>
        requires { length self.old.lines.items + 6 < 2 ^ 31 }
        ensures made { OnOk result (made_by self.new ≡ and_nodes_kept i (made_by self.old)) }
        ensures few { OnOk result (length self.new.lines.items ≤ length self.old.lines.items + 6) }
    {
        if i % 100 == 0 {
            self.line(KEEPER, Command::Announce { node: 1 })?;
            self.line(KEEPER, Command::Announce { node: 2 })?;
            self.line(KEEPER, Command::Deliver { node: 1 })?;
            self.line(KEEPER, Command::Deliver { node: 2 })?;
            self.line(KEEPER, Command::Local { node: 1 })?;
            self.line(KEEPER, Command::Local { node: 2 })?;
        }
        Ok(())
    }

    /// Adds the housekeeping of the store, after each five hundred transactions.
    fn keep_store(&mut self, i: u32) -> Result<(), Memory>
        requires { length self.old.lines.items + 2 < 2 ^ 31 }
        ensures made { OnOk result (made_by self.new ≡ and_store_kept i (made_by self.old)) }
        ensures few { OnOk result (length self.new.lines.items ≤ length self.old.lines.items + 2) }
    {
        if i % 500 == 0 {
            self.line(KEEPER, Command::Manager)?;
            self.line(KEEPER, Command::Collect)?;
        }
        Ok(())
    }
}

/// The next state of the draws.
fn next_state(state: u64) -> u64
    ensures { result ≡ next_state state }
{
    ((u128::from(state) * FACTOR + ADDEND) % (1 << 64)) as u64
}

/// The client of a transaction.
fn client_of(i: u32) -> u32
    requires { 1 ≤ i }
    ensures { result ≡ client_of_transaction i }
{
    1 + (i - 1) / 4 % 4
}

/// The UUID of a transaction.
fn uuid_of(i: u32) -> Uuid
    ensures { result ≡ uuid_of_number i }
{
    Uuid::from_u128(u128::from(i))
}

/// The key of a number.
fn key_of(alloc: Global, number: u64) -> Result<Key, Memory>
    ensures { IfOk result (λ key. key ≡ key_of_number number) }
{
    let text = format!(in alloc; "k{number}")?;
    Key::new(alloc, text.as_bytes()).map_err(|_| Memory)
}

/// The value of a transaction.
fn value_of(alloc: Global, i: u32) -> Result<Bytes, Memory>
    ensures { IfOk result (λ value. value ≡ codes "v" ++ decimal i) }
{
    let text = format!(in alloc; "v{i}")?;
    Ok(Bytes::from_vec(text.into_bytes()))
}

/// The order for generated lines.
fn steps_for(alloc: Global, lines: &[Line]) -> Result<Vec<Step>, Memory>
    ensures { IfOk result (λ steps. steps.items ≡ generated_steps lines.now) }
{
    let four = kept(
        alloc,
        lines,
        &[
            Step {
                client: 1,
                whole: false,
            },
            Step {
                client: 2,
                whole: false,
            },
            Step {
                client: 3,
                whole: false,
            },
            Step {
                client: 4,
                whole: false,
            },
        ],
    )?;
    let one = kept(
        alloc,
        lines,
        &[Step {
            client: KEEPER,
            whole: true,
        }],
    )?;
    let mut block = times(alloc, 50, four.as_slice())?;
    block.extend_from_slice(one.as_slice())?;
    times(alloc, 400, block.as_slice())
}

/// Those steps whose clients have lines.
fn kept(alloc: Global, lines: &[Line], steps: &[Step]) -> Result<Vec<Step>, Memory>
    ensures { IfOk result (λ v. v.items ≡ kept lines.now steps.now) }
{
    let mut some = Vec::new(alloc);
    for step in steps {
        if has_client(lines, step.client as usize) {
            some.push(*step)?;
        }
    }
    Ok(some)
}

/// Steps, so many times.
fn times(alloc: Global, count: u32, steps: &[Step]) -> Result<Vec<Step>, Memory>
    ensures { IfOk result (λ v. v.items ≡ times count steps.now) }
{
    let mut all = Vec::new(alloc);
    for _done in 0..count {
        all.extend_from_slice(steps)?;
    }
    Ok(all)
}
