// How many places a ring has.
ghost use Rattle.std.specs.Prelude.{◌≡◌, ◌<◌, ◌≤◌, MatchResult};
ghost use Rattle.script.specs.declared.reason.Reason.TheVariants.{NotARing};

use crate::reason::Reason;

// The most places of a ring that the day lends.
pub const MOST_PLACES: usize = 64;

#[derive(Clone, Copy)]
pub struct Places {
    pub count: usize,
    ghost few: { count ≤ 64 },
}

impl TryFrom<usize> for Places {
    type Error = Reason;

    ghost try_from_gives = { λ n r. MatchResult r (λ p. (n ≤ 64) × (p.count ≡ n)) (λ w. (64 < n) × (w ≡ NotARing)) };

    fn try_from(count: usize) -> Result<Places, Reason> {
        if count <= MOST_PLACES {
            Ok(Places { count })
        } else {
            Err(Reason::NotARing)
        }
    }
}
