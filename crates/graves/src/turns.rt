// What each call makes of its grave's record, or why it is refused there. A call that is refused leaves the record, but
// for a check's false seal.
ghost use Rattle.std.specs.Prelude.{◌≡◌, not, ◌&&◌, length, IfOk};
ghost use Rattle.refusal.specs.Outcomes.{gives, told, decided};
ghost use Rattle.promise.specs.Records.{is_free, same_key, with_state, after_open, after_draw, after_seal, after_void, after_clear, after_close};
ghost use Rattle.seal.specs.Seals.{sealing};
ghost use Rattle.promise.specs.Register.{draw_causes, seal_causes, void_causes, use_causes, check_causes};
ghost use Rattle.promise.specs.Past as rule;
ghost use Rattle.graves.specs.Entries.{the_record, turned, given, standing_told};
ghost use Rattle.graves.specs.States.{state, state_causes, state_after};
ghost use Rattle.graves.specs.Turns.{TurnsBy, open_here, give_up_causes, with_held};
ghost use Rattle.graves.specs.Held.{draws};
ghost use Rattle.graves.specs.Sound.{Uncounted};
ghost use Rattle.promise.specs.Draws.{without};
ghost use Rattle.graves.specs.Checks.{claimed, checked_told, after_answer};

use crate::entry::{Entry, Event, State};
use crate::held::Held;
use crate::record::Record;
use seal::{Cipher, Claim, Field, Key, Refusal, admit, check_seal, seal_text};

// How many draws a grave hands out in all.
const MOST_DRAWS: u64 = 1_000_000;

// What an accepted sheet is: of the grave's newest draw, or of an older one.
#[derive(Clone, Copy, PartialEq, Eq, Debug)]
pub enum Standing {
    Current,
    Superseded,
}

impl Entry {
    // Whether the record is of a grave that has or had the key.
    pub fn holds_key(&self, key: Key) -> bool
        ensures { result ≡ (not (is_free (state self.now.state)) && same_key self.now.key key) }
    {
        let used = !matches!(self.state, State::Free);
        used && self.key == key
    }

    // The standing of a true sheet under the draw.
    pub fn standing_of(&self, draw: u64) -> Standing
        ensures { standing_told result ≡ rule.standing self.now.current draw }
    {
        match self.current {
            Some(newest) if newest == draw => Standing::Current,
            _ => Standing::Superseded,
        }
    }
}

impl Record {
    // The state goes on, and nothing else changes.
    pub fn gone_on(self, event: Event) -> Result<Record, Refusal>
        ensures { turned result ≡ decided (state_causes (state self.entry.state) event) (gives (with_state (state_after (state self.entry.state) event) (the_record self))) }
    {
        let state = self.entry.state.after(event)?;
        Ok(Record {
            entry: Entry {
                state,
                ..self.entry
            },
        })
    }

    // What the record says once the held draw is given up, to be sealed or voided.
    fn given_up(self, event: Event, draw: u64) -> Result<Entry, Refusal>
        ensures uncounted { IfOk result Uncounted }
        ensures given { given result ≡ decided (give_up_causes (the_record self) event draw) (gives (with_held (without draw (draws self.entry.held)) (with_state (state_after (state self.entry.state) event) (the_record self)))) }
    {
        let entry = self.gone_on(event)?.entry;
        let held = entry.held.remove(draw).ok_or(Refusal::DrawNotHeld)?;
        Ok(Entry { held, ..entry })
    }

    // Opens a free grave with a key, unless the key is used.
    pub fn open(&mut self, key: Key, used: bool) -> Result<(), Refusal>
        ensures { TurnsBy (λ r. open_here r used) (λ _. tt) (after_open key) (the_record self.old) (told result) (the_record self.new) }
    {
        let entry = self.gone_on(Event::Open)?.entry;
        if used {
            return Err(Refusal::KeyUsed);
        }
        *self = Record {
            entry: Entry { key, ..entry },
        };
        Ok(())
    }

    // Hands out the next draw, and gives its number.
    pub fn draw(&mut self) -> Result<u64, Refusal>
        ensures { TurnsBy draw_causes (λ r. r.next) after_draw (the_record self.old) (told result) (the_record self.new) }
    {
        let entry = self.gone_on(Event::Draw)?.entry;
        let held = entry.held.push(entry.next).ok_or(Refusal::FourDrawsHeld)?;
        if entry.next >= MOST_DRAWS {
            return Err(Refusal::DrawsExhausted);
        }
        *self = Record {
            entry: Entry {
                next: entry.next + 1,
                held,
                ..entry
            },
        };
        Ok(entry.next)
    }

    // Seals a text under a held draw. The cipher is asked only where no earlier test refuses.
    pub fn seal<F: Field, C: Cipher>(
        &mut self,
        cipher: &mut C,
        draw: u64,
        text: &[u8],
        ring: &mut [u64],
    ) -> Result<u64, Refusal>
        ensures sealed { let S = sealing F.Field.model (C.Cipher.function cipher.old) in TurnsBy (λ r. seal_causes S r draw text.now (length ring.old)) (λ r. S.seal r.key draw text.now) (after_seal draw) (the_record self.old) (told result) (the_record self.new) }
        ensures kept { C.Cipher.function cipher.new ≡ C.Cipher.function cipher.old }
    {
        let entry = self.given_up(Event::Seal, draw)?;
        let seal = seal_text::<F, C>(cipher, self.entry.key, draw, text, ring)?;
        *self = Record {
            entry: Entry {
                sealed: entry.sealed + 1,
                current: Some(draw),
                ..entry
            },
        };
        Ok(seal)
    }

    pub fn void(&mut self, draw: u64) -> Result<(), Refusal>
        ensures { TurnsBy (λ r. void_causes r draw) (λ _. tt) (after_void draw) (the_record self.old) (told result) (the_record self.new) }
    {
        let entry = self.given_up(Event::Void, draw)?;
        *self = Record {
            entry: Entry {
                voided: entry.voided + 1,
                ..entry
            },
        };
        Ok(())
    }

    // False seals become none, and a locked grave is open.
    pub fn clear(&mut self) -> Result<(), Refusal>
        ensures { TurnsBy use_causes (λ _. tt) after_clear (the_record self.old) (told result) (the_record self.new) }
    {
        *self = self.gone_on(Event::Clear)?;
        Ok(())
    }

    // The held draws count as voided.
    pub fn close(&mut self) -> Result<(), Refusal>
        ensures { TurnsBy use_causes (λ _. tt) after_close (the_record self.old) (told result) (the_record self.new) }
    {
        let entry = self.gone_on(Event::Close)?.entry;
        *self = Record {
            entry: Entry {
                held: Held::Zero,
                voided: entry.voided + entry.held.count(),
                ..entry
            },
        };
        Ok(())
    }

    // The cipher is asked only where no earlier test refuses; a false seal is counted, and nothing else changes.
    pub fn check<F: Field, C: Cipher>(
        &mut self,
        cipher: &mut C,
        claim: Claim<'_>,
        ring: &mut [u64],
    ) -> Result<Standing, Refusal>
        ensures answer { let S = sealing F.Field.model (C.Cipher.function cipher.old) in checked_told result ≡ decided (check_causes S (the_record self.old) (claimed claim.entry) (length ring.old)) (gives (rule.standing self.old.entry.current claim.entry.draw)) }
        ensures after { the_record self.new ≡ after_answer (the_record self.old) (checked_told result) }
        ensures kept { C.Cipher.function cipher.new ≡ C.Cipher.function cipher.old }
    {
        let counted = self.gone_on(Event::FalseSeal)?;
        admit(claim.text, ring.len())?;
        if claim.draw >= self.entry.next {
            return Err(Refusal::DrawNotHandedOut);
        }
        let key = self.entry.key;
        if !check_seal::<F, C>(cipher, key, claim, ring)? {
            *self = counted;
            return Err(Refusal::SealWrong);
        }
        Ok(self.entry.standing_of(claim.draw))
    }
}
