//! The connections to which a message goes.

ghost use Rattle.std.specs.Prelude.{◌≡◌, ℕ, List, ◌++◌, ◌∷◌, [], Option, Some as Given};
ghost use Rattle.std.specs.Result.{result_err};
ghost use Rattle.hm_message.specs.Message.{Fits};
ghost use Rattle.hm_message.specs.declared.message.Codec.{Codec as CodecMeant};
ghost use Rattle.hd_calls.specs.Hubs.{Invoked};
ghost use Rattle.he_end.specs.Calls.{IsSpelled};
ghost use Rattle.hp_peer.specs.Calling.{IsNotice};
ghost use Rattle.hub_machine.specs.Spreads.{Delivering, Sends, Slows};

use he_end::{SendError, Spelled};
use hm_message::{Codec, Message};

/// Connections by their numbers.
///
/// An implementation says by `Delivers` which dealings with them, in order, lead from one state to another (none from a state to itself), and by
/// `codec_of` in which codec each is spoken to. What a refused message leaves is for `Delivers` to say.
pub trait Members {
    ghost Delivers: { Self → List Delivering → Self → Type 0 };

    ghost starts: { (s : Self) → Delivers s [] s };

    ghost codec_of: { Self → ℕ → Option CodecMeant };

    /// The codec in which the connection is spoken to.
    fn codec(&self, conn: u64) -> Option<Codec>
        ensures { result ≡ codec_of self.now conn };

    /// Sends the connection a message, which is an Invocation without an id and without streams, in the frame that it has in the
    /// connection's codec. No codec changes.
    fn send_spelled(
        &mut self,
        conn: u64,
        message: &Message,
        spelled: &Spelled,
    ) -> Result<(), SendError>
        requires notice { (c : Invoked) × IsNotice message.now c }
        requires fits { Fits message.now }
        requires member { codec_of self.old conn ≡ Given spelled.now.codec }
        requires spelled { IsSpelled spelled.now.codec message.now spelled.now.frame }
        ensures dealt { (s : Self) (deals : List Delivering) → Delivers s deals self.old →
            Delivers s (deals ++ Sends conn message.now (result_err result) ∷ []) self.new }
        ensures same { (k : ℕ) → codec_of self.new k ≡ codec_of self.old k };

    /// Closes the connection as too slow. The codec of no other changes.
    fn slow(&mut self, conn: u64)
        ensures dealt { (s : Self) (deals : List Delivering) → Delivers s deals self.old → Delivers s (deals ++ Slows conn ∷ []) self.new }
        ensures others { (k : ℕ) → (k ≡ conn → ⊥) → codec_of self.new k ≡ codec_of self.old k };
}
