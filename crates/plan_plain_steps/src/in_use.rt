//! Which levels are in use: a high viewer leaves the finest out.

ghost use Rattle.std.specs.Prelude.{◌≡◌, ℕ, ◌^◌, ◌<◌, ◌≤◌, length};
ghost use Rattle.plan_model.specs.Limits.{IsSize, IsLevelCount};
ghost use Rattle.plan_model.specs.States.{is_seen, finest_used, finest_at, is_used};
ghost use Rattle.plan_model.specs.Sound.{IsReady};

use crate::holders::or_found;
use crate::state::PlainState;

// 2 to a power of at most 20.
fn power_of_two(power: u8) -> u32
    requires { power ≤ 20 }
    ensures value { result ≡ 2 ^ power }
{
    1 << power
}

// Whether a level of so many is seen from an altitude: it is the coarsest, or the altitude is at most
// 2^(K + level).
#[tactic(auto, unfolding(plan_model::specs::States::is_seen))]
fn is_seen(k: u8, levels: u8, altitude: u32, level: u8) -> bool
    requires k { IsSize k }
    requires levels { IsLevelCount levels }
    requires level { level < levels }
    ensures value { result ≡ is_seen k levels altitude level }
{
    level + 1 == levels || altitude <= power_of_two(k + level)
}

/// The finest level in use of so many, for a viewer at an altitude: the first that is the coarsest or for
/// which the altitude is at most 2^(K + level).
pub fn finest_used(k: u8, levels: u8, altitude: u32) -> u8
    requires k { IsSize k }
    requires levels { IsLevelCount levels }
    ensures value { result ≡ finest_used k levels altitude }
    ensures below { result < levels }
{
    let mut first = None;
    for level in 0..levels {
        let seen = is_seen(k, levels, altitude, level);
        first = or_found(first, seen, level);
    }
    first.unwrap_or(0)
}

impl PlainState {
    /// The viewer's altitude.
    pub fn altitude(&self) -> u32
        ensures value { result ≡ self.now.altitude }
    {
        self.altitude
    }

    /// How many levels there are.
    pub fn level_count(&self) -> u8
        requires { IsReady self.now }
        ensures value { result ≡ length self.now.levels }
    {
        self.levels.len() as u8
    }

    /// The finest level in use.
    pub fn finest(&self) -> u8
        requires { IsReady self.now }
        ensures value { result ≡ finest_at self.now }
        ensures below { result < length self.now.levels }
    {
        finest_used(self.k, self.levels.len() as u8, self.altitude)
    }

    /// Whether a level is in use.
    #[tactic(auto, unfolding(plan_model::specs::States::is_used))]
    pub fn is_used(&self, level: u8) -> bool
        requires { IsReady self.now }
        ensures value { result ≡ is_used self.now level }
    {
        self.finest() <= level
    }
}
