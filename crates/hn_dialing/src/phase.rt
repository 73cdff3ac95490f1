//! How far a connection is that is dialed.

ghost use Rattle.std.specs.Prelude.{◌≡◌};
ghost use Rattle.hd_dialing.specs.Events.{is_on as is_on_by, is_over as is_over_by, is_upgrade};
ghost use Rattle.hn_dialing.specs.Stands.{is_link, is_negotiate, lane_in, phase_of};

/// How far a connection is that is dialed.
///
/// ```text
///              token told                  socket up
///  Negotiates ------------> Upgrades ------------> Stands
///       ^  |                  ^   |                   |
///  dial |  | lost        dial |   | lost              | lost, or the link given up
///       |  v    (no token)    |   v    (a token)      v
///        Away                  Away                 Away      Over: refused, five lost in a row, a draw that failed, or left
/// ```
#[derive(Clone, Copy, Debug, Drop, PartialEq, Eq)]
pub enum Phase {
    /// No lane is up, nor being made.
    Away,
    /// A token was asked for.
    Negotiates { lane: u64 },
    /// A socket was asked for.
    Upgrades { lane: u64 },
    /// The socket is up.
    Stands { lane: u64 },
    /// It is dialed no more.
    Over,
}

impl Phase {
    /// The lane that is up or being made.
    pub fn lane(self) -> Option<u64>
        ensures { result ≡ lane_in (phase_of self) }
    {
        match self {
            Phase::Away => None,
            Phase::Negotiates { lane } => Some(lane),
            Phase::Upgrades { lane } => Some(lane),
            Phase::Stands { lane } => Some(lane),
            Phase::Over => None,
        }
    }

    /// It is dialed no more.
    pub fn is_over(self) -> bool
        ensures { result ≡ is_over_by (phase_of self) }
    {
        match self {
            Phase::Away => false,
            Phase::Negotiates { .. } => false,
            Phase::Upgrades { .. } => false,
            Phase::Stands { .. } => false,
            Phase::Over => true,
        }
    }

    /// This lane is up or being made.
    pub(crate) fn is_on(self, lane: u64) -> bool
        ensures { result ≡ is_on_by lane (phase_of self) }
    {
        match self {
            Phase::Away => false,
            Phase::Negotiates { lane: own } => lane == own,
            Phase::Upgrades { lane: own } => lane == own,
            Phase::Stands { lane: own } => lane == own,
            Phase::Over => false,
        }
    }

    /// A token was asked for on this lane.
    pub(crate) fn negotiates_on(self, lane: u64) -> bool
        ensures { result ≡ is_negotiate lane (phase_of self) }
    {
        match self {
            Phase::Away => false,
            Phase::Negotiates { lane: own } => lane == own,
            Phase::Upgrades { .. } => false,
            Phase::Stands { .. } => false,
            Phase::Over => false,
        }
    }

    /// A socket was asked for on this lane.
    pub(crate) fn upgrades_on(self, lane: u64) -> bool
        ensures { result ≡ is_upgrade lane (phase_of self) }
    {
        match self {
            Phase::Away => false,
            Phase::Negotiates { .. } => false,
            Phase::Upgrades { lane: own } => lane == own,
            Phase::Stands { .. } => false,
            Phase::Over => false,
        }
    }

    /// The socket is up on this lane.
    pub(crate) fn stands_on(self, lane: u64) -> bool
        ensures { result ≡ is_link lane (phase_of self) }
    {
        match self {
            Phase::Away => false,
            Phase::Negotiates { .. } => false,
            Phase::Upgrades { .. } => false,
            Phase::Stands { lane: own } => lane == own,
            Phase::Over => false,
        }
    }
}
