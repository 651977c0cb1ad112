//! Reading an order.

ghost use Rattle.std.specs.Prelude.{◌≡◌, ◌<◌, IfSome, None, if◌then◌else◌, nat_lt, ℕ};
ghost use Rattle.aft_script.specs.Gives.{Reads};
ghost use Rattle.aft_script.specs.Orders.{has_client, is_marked, order_of, step_by, step_of};

use crate::fault::ScriptFault;
use crate::split::split_word;
use crate::values::{MAX_CLIENT, number_to};
use aft_id::List;
use aft_model::{Line, Order, Script, Step};
use std::alloc::Global;

/// The most words of an order.
const MAX_WORDS: usize = 1_000_000;
/// The places of the clients 0 to 64.
const CLIENTS: usize = 65;

/// Reads an order for a script: words between spaces and LFs, each the number of a client that the script has, or that
/// number followed by `*`.
///
/// `Word` has the first word that is none of these or is past the 1,000,000th, counted from 1.
pub fn read_order(alloc: Global, bytes: &[u8], script: &Script) -> Result<Order, ScriptFault>
    ensures { Reads (λ order. order.words) result (order_of script.now.lines bytes.now) }
{
    let clients = clients_of(script.lines.as_slice());
    let mut steps = Vec::new(alloc);
    let mut rest = bytes;
    while let Some((word, behind)) = split_word(rest) {
        let Some(step) = next_step(&clients, steps.len(), word) else {
            return Err(ScriptFault::Word {
                number: steps.len() as u32 + 1,
            });
        };
        steps.push(step)?;
        rest = behind;
    }
    Ok(Order {
        words: List::from_vec(steps),
    })
}

/// Which clients have lines, by their numbers.
fn clients_of(lines: &[Line]) -> [bool; CLIENTS]
    ensures { (k : ℕ) → k < 65 → is_marked result k ≡ has_client lines.now k }
{
    let mut clients = [false; CLIENTS];
    for client in 0..CLIENTS {
        clients[client] = has_client(lines, client);
    }
    clients
}

/// Whether there is a line of a client.
pub(crate) fn has_client(lines: &[Line], client: usize) -> bool
    ensures { result ≡ has_client lines.now client }
{
    lines.iter().any(|line| line.client as usize == client)
}

/// The step that the word behind so many others is.
fn next_step(clients: &[bool; CLIENTS], before: usize, word: &[u8]) -> Option<Step>
    ensures { result ≡ (if nat_lt before 1000000 then step_of (is_marked clients.now) word.now else None) }
{
    if before < MAX_WORDS {
        step_of(clients, word)
    } else {
        None
    }
}

/// The step that a word is.
fn step_of(clients: &[bool; CLIENTS], word: &[u8]) -> Option<Step>
    ensures { result ≡ step_of (is_marked clients.now) word.now }
{
    match word.strip_suffix(b"*".as_slice()) {
        Some(number) => step_by(clients, true, number_to(number, MAX_CLIENT)),
        None => step_by(clients, false, number_to(word, MAX_CLIENT)),
    }
}

/// The step of a client, if it has lines.
fn step_by(clients: &[bool; CLIENTS], whole: bool, client: Option<u32>) -> Option<Step>
    requires { IfSome client (λ k. k < 65) }
    ensures { result ≡ step_by (is_marked clients.now) whole client }
{
    let client = client?;
    if clients[client as usize] {
        Some(Step { client, whole })
    } else {
        None
    }
}
