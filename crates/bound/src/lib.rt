// How seldom two different texts share a hash, over any field.
#![tactic(auto)]

ghost use Rattle.std.specs.Prelude.{◌≡◌};
ghost use Rattle.bound.specs.Bound.{OnlyZeroMakesZero, chunks, share, ShareAtMost, CollisionBound};

use field::Field;

// In how many of `F::order()` rings at most the two texts have the same hash, if they differ.
#[tactic(auto, using(crate::proofs::Theorem::share_at_most))]
pub fn collisions<F: Field>(a: &[u8], b: &[u8]) -> u64
    ensures value { result ≡ share (chunks a.now b.now) }
    ensures meaning { ShareAtMost F.Field.model result a.now b.now }
    ensures bound { OnlyZeroMakesZero F.Field.model → CollisionBound F.Field.model }
{
    let chunks = hash::chunks(a).max(hash::chunks(b));
    if chunks == 1 {
        1_024
    } else {
        2_048 + chunks as u64
    }
}
