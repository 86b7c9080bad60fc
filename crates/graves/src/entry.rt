// What a grave's record says, and how its state goes on.
ghost use Rattle.std.specs.Prelude.{◌≡◌};
ghost use Rattle.graves.specs.States.{next_outcome, stated};

use crate::held::Held;
use seal::{Key, Refusal};

// A grave is free until it is opened, then open with its count of false seals, locked by the fourth, and at last closed.
#[derive(Clone, Copy)]
pub enum State {
    Free,
    Open { false_seals: u8 },
    Locked,
    Closed,
}

// What a call asks of a grave's state.
#[derive(Clone, Copy)]
pub enum Event {
    Open,
    Draw,
    Seal,
    Void,
    FalseSeal,
    Clear,
    Close,
}

impl State {
    // The state after an event, or why the event is refused. By the project's rule the two are matched together.
    pub fn after(self, event: Event) -> Result<State, Refusal>
        ensures { stated result ≡ next_outcome self event }
    {
        match (self, event) {
            (State::Free, Event::Open) => Ok(State::Open { false_seals: 0 }),
            (_, Event::Open) => Err(Refusal::GraveNotFree),
            (State::Free | State::Closed, _) => Err(Refusal::GraveFreeOrClosed),
            (State::Locked, Event::Draw | Event::FalseSeal) => Err(Refusal::GraveLocked),
            (State::Open { false_seals }, Event::FalseSeal) => {
                if false_seals < 3 {
                    Ok(State::Open {
                        false_seals: false_seals + 1,
                    })
                } else {
                    Ok(State::Locked)
                }
            }
            (_, Event::Clear) => Ok(State::Open { false_seals: 0 }),
            (_, Event::Close) => Ok(State::Closed),
            (_, Event::Draw | Event::Seal | Event::Void) => Ok(self),
        }
    }
}

// A plain struct, so that definitions can make one.
#[derive(Clone, Copy)]
pub struct Entry {
    pub state: State,
    pub key: Key,
    // the number of the next draw
    pub next: u64,
    pub held: Held,
    // how many sheets were sealed, and how many draws voided
    pub sealed: u64,
    pub voided: u64,
    // the draw of the newest sheet, if one was sealed
    pub current: Option<u64>,
}
