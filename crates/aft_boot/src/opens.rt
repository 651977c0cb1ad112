//! The opening of a world: the audit of its store, and the first boot of each node.

ghost use Rattle.std.specs.Prelude.{◌≡◌, ◌≤◌, ◌<◌, ◌^◌, [], IfErr, IfOk, IsFalse, IsTrue, MatchResult, length, map};
ghost use Rattle.std.specs.List.{list_all};
ghost use Rattle.aft_audit.specs.Audit.{HasOpened};
ghost use Rattle.aft_audit.specs.declared.fault.AuditFault.TheVariants as faults;
ghost use Rattle.aft_boot.specs.FirstBoots.{HaveServed, HaveStopped, IsReadyFor};
ghost use Rattle.aft_boot.specs.World.{IsMade, IsStopped, NoWorldFor, TellsFirst, empty_boxes, fresh_office, is_ready, is_store, ran_over, refused_run, settings_of};
ghost use Rattle.aft_conf.specs.Settings.{AreSettings};
ghost use Rattle.aft_keeper.specs.Cause.{HasCause};
ghost use Rattle.aft_lines.specs.Asked.{Asked};
ghost use Rattle.aft_lines.specs.Lines.{node_numbers};
ghost use Rattle.aft_lines.specs.Opened.{Opened};
ghost use Rattle.aft_lines.specs.RefusedTrace.{RefusedTrace};
ghost use Rattle.aft_model.specs.Opening.{has_failed};
ghost use Rattle.aft_turns.specs.Steps.{SameStore};

use crate::driving::booted;
use crate::world::World;
use aft_audit::{AuditFault, audit};
use aft_conf::Conf;
use aft_door::Door;
use aft_id::{List, Memory};
use aft_keeper::Keeper;
use aft_mail::{Mailbox, Office};
use aft_node::Node;
use std::alloc::Global;

/// Opens a world over a store: the store is audited, and nodes 1, 2, .. are booted in order, which then serve the commits that their
/// scans showed, less those that these supersede. There is room for an answer of each of so many lines, fewer than 2^31, at each node
/// and at the office, which has heard of the audit's commits; the boxes are empty. Nothing of any line is in its histories.
///
/// `Store` comes exactly where a call of the audit or of a first boot failed; `TooMany` where one of them was shown the 20,001st
/// name; `Damaged` where the audit found an offender, with the first, or a first boot was shown a name or bytes without a reading,
/// with the name as replies write it. `Memory` may come at any time. After a refusal the door's history has the beginning of an
/// opening, and nothing else.
pub fn opening<K: Keeper>(
    alloc: Global,
    keeper: K,
    conf: &Conf,
    lines: u32,
) -> Result<World<K>, (Door<K>, AuditFault)>
    requires settings { AreSettings conf.now }
    requires lines { lines < 2 ^ 31 }
    ensures run { IfOk result (λ world. (asked : Asked) → asked.settings ≡ settings_of conf.now → Opened asked (ran_over world.door.history world.nodes world.boxes world.office.history)) }
    ensures numbers { IfOk result (λ world. map (λ node. node.number) world.nodes ≡ node_numbers (settings_of conf.now)) }
    ensures nodes { IfOk result (λ world. IsTrue (list_all (is_ready (settings_of conf.now) lines (length world.door.history)) world.nodes)) }
    ensures boxes { IfOk result (λ world. world.boxes ≡ empty_boxes (settings_of conf.now)) }
    ensures office { IfOk result (λ world. world.office ≡ fresh_office world.door.history lines) }
    ensures works { IfOk result (λ world. IsFalse (has_failed world.door.history)) }
    ensures refused { IfErr result (λ why. (asked : Asked) → asked.settings ≡ settings_of conf.now → RefusedTrace asked (refused_run (settings_of conf.now) why.0.history)) }
    ensures why { IfErr result (λ why. NoWorldFor why.1 why.0.history) }
    ensures failed { IfErr result (λ why. has_failed why.0.history ≡ is_store why.1) }
    ensures store { MatchResult result (λ world. TellsFirst (K.contents keeper) (K.log keeper) world.door) (λ why. TellsFirst (K.contents keeper) (K.log keeper) why.0) }
    ensures cause { MatchResult result (λ world. K.faults keeper ≤ world.door.faults) (λ why. HasCause (why.1 ≡ faults.Store) (K.faults keeper) why.0.faults) }
{
    let mut door = Door::new(alloc, keeper);
    let opened = open(alloc, &mut door, conf, lines);
    Door::law_legal(&door);
    match opened {
        Ok((nodes, boxes, office)) => Ok(World {
            door,
            nodes,
            boxes,
            office,
        }),
        Err(fault) => Err((door, fault)),
    }
}

/// The audit, and all that stands beside the door.
fn open<K: Keeper>(
    alloc: Global,
    door: &mut Door<K>,
    conf: &Conf,
    lines: u32,
) -> Result<(List<Node>, List<Mailbox>, Office), AuditFault>
    requires settings { AreSettings conf.now }
    requires lines { lines < 2 ^ 31 }
    requires new { door.old.history ≡ [] }
    ensures made { IfOk result (λ parts. IsMade (settings_of conf.now) lines door.new.history parts.0 parts.1 parts.2) }
    ensures stopped { IfErr result (λ fault. IsStopped (settings_of conf.now) fault door.new.history) }
    ensures cause { HasCause (IsTrue (has_failed door.new.history)) door.old.faults door.new.faults }
    ensures store { SameStore door.old door.new }
{
    let commits = audit(alloc, door)?;
    Door::law_legal(door);
    let office = Office::new(alloc, &commits, lines)?;
    let boxes = boxes(alloc, conf)?;
    let nodes = boots(alloc, door, conf, lines)?;
    Ok((nodes, boxes, office))
}

/// An empty box for the office, and one for each node.
fn boxes(alloc: Global, conf: &Conf) -> Result<List<Mailbox>, Memory>
    requires settings { AreSettings conf.now }
    ensures { IfOk result (λ boxes. boxes ≡ empty_boxes (settings_of conf.now)) }
{
    let mut boxes = Vec::new(alloc);
    for _ in 0..conf.nodes + 1 {
        boxes.push(Mailbox::new(alloc, conf.mailbox)?)?;
    }
    Ok(List::from_vec(boxes))
}

/// The nodes, each behind its first boot, in the order of their numbers.
fn boots<K: Keeper>(
    alloc: Global,
    door: &mut Door<K>,
    conf: &Conf,
    lines: u32,
) -> Result<List<Node>, AuditFault>
    requires settings { AreSettings conf.now }
    requires lines { lines < 2 ^ 31 }
    requires ready { IsReadyFor 1 door.old.history }
    ensures boots { MatchResult result (λ nodes. HaveServed conf.now.cache lines conf.now.nodes nodes door.old.history door.new.history) (λ fault. HaveStopped conf.now.nodes fault door.old.history door.new.history) }
    ensures cause { HasCause (IsTrue (has_failed door.new.history) × IsFalse (has_failed door.old.history)) door.old.faults door.new.faults }
    ensures store { SameStore door.old door.new }
{
    let mut nodes = Vec::new(alloc);
    for served in 0..conf.nodes {
        let node = booted(alloc, door, served + 1, conf.cache, lines)?;
        nodes.push(node)?;
    }
    Ok(List::from_vec(nodes))
}
