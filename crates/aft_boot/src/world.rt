//! What a run is made over.

use aft_door::Door;
use aft_id::List;
use aft_keeper::Keeper;
use aft_mail::{Mailbox, Office};
use aft_node::Node;

/// What a run is made over: the door, the nodes, the boxes and the office. Node 1 is the first of the nodes; box 0 is the office's,
/// and the box of a node has the node's number as its index.
#[derive(Drop)]
pub struct World<K: Keeper> {
    pub door: Door<K>,
    pub nodes: List<Node>,
    pub boxes: List<Mailbox>,
    pub office: Office,
}
