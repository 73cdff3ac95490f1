//! A machine's connections as those to which a message goes.

ghost use Rattle.std.specs.Prelude.{refl};
ghost use Rattle.hj_jobs.specs.Meaning.{meaning};
ghost use Rattle.hub_machine.specs.Delivers.{Delivers, HasClosedPeer, codec_at};

use crate::machine::Machine;
use crate::members::Members;
use hd_delivery::Reason;
use he_end::{SendError, Spelled};
use hj_jobs::Hub;
use hm_message::{Codec, Message};

impl<H: Hub> Members for Machine<H> {
    ghost Delivers = { Delivers (meaning H.begin_of H.step_of) };

    ghost starts = { λ s. (λ a f. (a, refl, f), refl) };

    ghost codec_of = { codec_at };

    fn codec(&self, conn: u64) -> Option<Codec> {
        self.peers.get(&conn)?.end().codec()
    }

    fn send_spelled(
        &mut self,
        conn: u64,
        message: &Message,
        spelled: &Spelled,
    ) -> Result<(), SendError> {
        self.wake(conn);
        let Some(peer) = self.peers.get_mut(&conn) else {
            return Err(SendError::Closed);
        };
        peer.send_spelled(message, spelled.frame())?;
        Ok(())
    }

    fn slow(&mut self, conn: u64) {
        self.wake(conn);
        self.close_slow(conn);
        self.close_out(conn);
    }
}

impl<H: Hub> Machine<H> {
    /// The peer of a connection closes its end as too slow. The connection is still in its groups.
    fn close_slow(&mut self, conn: u64)
        ensures { HasClosedPeer (meaning H.begin_of H.step_of) self.old self.new conn }
    {
        if let Some(peer) = self.peers.get_mut(&conn) {
            peer.close(Reason::Slow, false);
        }
    }
}
