//! What a line `stop ID K P` has left.
ghost use Rattle.std.specs.Prelude.{◌≤◌};

/// What a line `stop ID K P` has left: so many changing calls still pass, and the crash at the call behind them leaves the
/// image of this pick.
#[derive(Clone, Copy, Debug)]
pub struct Arming {
    pub calls: u64,
    pub pick: u8,
    ghost within: { pick ≤ 3 },
}
