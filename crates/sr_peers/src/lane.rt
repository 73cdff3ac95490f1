//! What is kept of a link between two peers.

ghost use Rattle.sr_peers.specs.Follows.{IsLeft};

use hd_delivery::Side;
use std::alloc::Global;

/// What was said on a link and isn't read yet.
#[derive(Drop)]
pub(crate) struct LinkBytes {
    pub(crate) to_server: Vec<u8>,
    pub(crate) to_client: Vec<u8>,
    // whether the client was there: it may have refused the link
    pub(crate) opened: bool,
}

/// Forgets what came to a side on a link that it has left, and gives its memory back: nobody reads it.
pub(crate) fn leave(alloc: Global, lanes: &mut Vec<LinkBytes>, side: Side, link: Option<u64>)
    ensures { IsLeft side link lanes.old.items lanes.new.items }
{
    let Some(link) = link else {
        return;
    };
    let at = link as usize;
    if at >= lanes.len() {
        return;
    }
    let lane = &mut lanes[at];
    match side {
        Side::Client => lane.to_client = Vec::new(alloc),
        Side::Server => lane.to_server = Vec::new(alloc),
    }
}
