//! What a server says at an event.

ghost use Rattle.std.specs.Prelude.{◌≡◌, ◌++◌, ◌∷◌, [], OnOk, length, take};
ghost use Rattle.hw_lanes.specs.Replies.{IsReply};
ghost use Rattle.hd_server.specs.declared.vocabulary.Said.TheVariants as say;
ghost use Rattle.hub_server.specs.Words.{AreReplies, reply_and_end};

use hd_server::Said;
use hw_lanes::{Reply, Vec8};
use std::alloc::{AllocError, Global};
use std::marker::Model;
use std::mem;

/// What is said at an event, the first first. Each reply is one that a door takes.
#[derive(Drop)]
pub struct Words {
    said: Vec<Said>,
}

impl Model for Words {
    ghost use Rattle.std.specs.Prelude.{List};
    ghost use Rattle.hd_server.specs.declared.vocabulary.Said.{Said};
    ghost use Rattle.hub_server.specs.Words.{AreReplies};

    ghost Value = { List Said };

    ghost view = { λ w. w.said.items };

    ghost invariant = { λ w. AreReplies w.said.items };
}

impl Words {
    /// Nothing.
    pub(crate) fn new(alloc: Global) -> Words
        ensures { result ≡ [] }
    {
        Words {
            said: Vec::new(alloc),
        }
    }

    /// The reply to the request that the lane waits for.
    pub(crate) fn reply(&mut self, lane: u64, reply: Reply) -> Result<(), AllocError>
        requires { IsReply reply }
        ensures { OnOk result (self.new ≡ self.old ++ say.Reply lane reply ∷ []) }
    {
        self.said.push(Said::Reply { lane, reply })?;
        Ok(())
    }

    /// The reply to the request that the lane waits for. Where the lane `ends` after it, the reply tells that, and the lane is to end.
    pub(crate) fn answer(&mut self, lane: u64, reply: Reply, ends: bool) -> Result<(), AllocError>
        requires { IsReply reply }
        ensures { OnOk result (self.new ≡ self.old ++ reply_and_end lane reply ends) }
    {
        self.reply(lane, with_close(reply, ends))?;
        if ends {
            self.shut(lane)?;
        }
        Ok(())
    }

    /// One message, for a lane that is a WebSocket.
    pub(crate) fn bytes(&mut self, lane: u64, bytes: Vec8, text: bool) -> Result<(), AllocError>
        ensures { OnOk result (self.new ≡ self.old ++ say.Bytes lane bytes text ∷ []) }
    {
        self.said.push(Said::Bytes { lane, bytes, text })?;
        Ok(())
    }

    /// The lane is to end.
    pub(crate) fn shut(&mut self, lane: u64) -> Result<(), AllocError>
        ensures { OnOk result (self.new ≡ self.old ++ say.Shut lane ∷ []) }
    {
        self.said.push(Said::Shut { lane })?;
        Ok(())
    }

    /// How much was said.
    pub(crate) fn count(&self) -> usize
        ensures { result ≡ length self.now }
    {
        self.said.len()
    }

    /// What was said after the first `count` is unsaid.
    pub(crate) fn truncate(&mut self, count: usize)
        ensures { self.new ≡ take count self.old }
    {
        self.said.truncate(count);
    }

    /// All of them, and nothing is left.
    pub(crate) fn take(&mut self, alloc: Global) -> Vec<Said>
        ensures words { result.items ≡ self.old }
        ensures none { self.new ≡ [] }
        ensures replies { AreReplies result.items }
    {
        mem::replace(&mut self.said, Vec::new(alloc))
    }
}

/// The reply, which tells whether its lane ends after it.
fn with_close(mut reply: Reply, close: bool) -> Reply
    requires { IsReply reply }
    ensures is { result ≡ record reply { close = close } }
    ensures sent { IsReply result }
{
    reply.close = close;
    reply
}
