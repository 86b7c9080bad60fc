// What a finite field is to the hash and to all that is built on it.
#![tactic(auto)]

ghost use Rattle.std.specs.Prelude.{◌≡◌};
ghost use Rattle.field.specs.Model.{Model};
ghost use Rattle.field.specs.Laws.{FieldLaws};
ghost use Rattle.field.specs.WeightedSums.{weighted_sum};

// A field whose elements are the numbers below its order. Every 64-bit number is a working number and means one
// element; an element may have several working numbers. No operation refuses.
pub trait Field {
    ghost model: { Model };

    fn order() -> u64
        ensures { result ≡ model.size };

    fn sum(a: u64, b: u64) -> u64
        ensures element { model.means result ≡ model.plus (model.means a) (model.means b) };

    fn product(a: u64, b: u64) -> u64
        ensures element { model.means result ≡ model.times (model.means a) (model.means b) };

    // The sum of four products, each of a number and the weight at its place. A field that can add up before it reduces
    // has a faster way.
    fn weighted_sum(numbers: [u64; 4], weights: [u64; 4]) -> u64
        ensures element { model.means result ≡ weighted_sum model numbers weights }
    {
        let [a, b, c, d] = numbers;
        let [s, t, u, v] = weights;
        Self::sum(
            Self::sum(Self::product(a, s), Self::product(b, t)),
            Self::sum(Self::product(c, u), Self::product(d, v)),
        )
    }

    // The own number of the element that `x` means.
    fn reduce(x: u64) -> u64
        ensures { result ≡ model.means x };

    ghost holds: { FieldLaws model };
}
