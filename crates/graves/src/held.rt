// The draws that a grave holds: handed out, and neither sealed nor voided.
ghost use Rattle.std.specs.Prelude.{◌≡◌, ◌∷◌, length, if◌then◌else◌, Some, None, nat_le};
ghost use Rattle.std.specs.Option.{option_map};
ghost use Rattle.promise.specs.Draws.{holds, without};
ghost use Rattle.graves.specs.Held.{draws};

// At most four draws, the oldest first. An enum: it needs no heap, and has no state that the rules do not have.
#[derive(Clone, Copy)]
pub enum Held {
    Zero,
    One(u64),
    Two(u64, u64),
    Three(u64, u64, u64),
    Four(u64, u64, u64, u64),
}

impl Held {
    // One draw more, unless four are held.
    pub fn push(self, draw: u64) -> Option<Held>
        ensures { option_map draws result ≡ (if nat_le 4 (length (draws self)) then None else Some (draw ∷ draws self)) }
    {
        match self {
            Held::Zero => Some(Held::One(draw)),
            Held::One(a) => Some(Held::Two(a, draw)),
            Held::Two(a, b) => Some(Held::Three(a, b, draw)),
            Held::Three(a, b, c) => Some(Held::Four(a, b, c, draw)),
            Held::Four(..) => None,
        }
    }

    // Without the draw, if it is held.
    pub fn remove(self, draw: u64) -> Option<Held>
        ensures { option_map draws result ≡ (if holds draw (draws self) then Some (without draw (draws self)) else None) }
    {
        match self {
            Held::One(a) if a == draw => Some(Held::Zero),
            Held::Two(a, b) if b == draw => Some(Held::One(a)),
            Held::Two(a, b) if a == draw => Some(Held::One(b)),
            Held::Three(a, b, c) if c == draw => Some(Held::Two(a, b)),
            Held::Three(a, b, c) if b == draw => Some(Held::Two(a, c)),
            Held::Three(a, b, c) if a == draw => Some(Held::Two(b, c)),
            Held::Four(a, b, c, d) if d == draw => Some(Held::Three(a, b, c)),
            Held::Four(a, b, c, d) if c == draw => Some(Held::Three(a, b, d)),
            Held::Four(a, b, c, d) if b == draw => Some(Held::Three(a, c, d)),
            Held::Four(a, b, c, d) if a == draw => Some(Held::Three(b, c, d)),
            _ => None,
        }
    }

    pub fn count(self) -> u64
        ensures { result ≡ length (draws self) }
    {
        match self {
            Held::Zero => 0,
            Held::One(..) => 1,
            Held::Two(..) => 2,
            Held::Three(..) => 3,
            Held::Four(..) => 4,
        }
    }
}
