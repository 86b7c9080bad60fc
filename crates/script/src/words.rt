// The words of a line, read one after the other: each is a part of the line, or a text is.
ghost use Rattle.std.specs.Prelude.{◌≡◌};
ghost use Rattle.std.specs.Fn.{FnOnceReturnsAt};
ghost use Rattle.script.specs.Heard.{Heard, seen};
ghost use Rattle.script.specs.Parts.{ReadBy, word_part, name_part, field_part, cipher_part, places_part, grave_part, draw_part, key_part, seal_part, text_part, quoted};
ghost use Rattle.script.specs.Words.{skipped, before, behind, is_empty};

use crate::fault::Fault;
use crate::hex::{key_of, seal_of, text_of};
use crate::names::Name;
use crate::places::Places;
use crate::reason::Reason;
use cipher::Key;
use ciphers::CipherName;
use fields::FieldName;
use std::alloc::Global;
use std::marker::Model;

// What stands before the first space, and what behind it.
fn at_space(text: &str) -> (&str, &str)
    ensures { (result.0.now ≡ before 32 text.now) × (result.1.now ≡ behind 32 text.now) }
{
    text.split_once(' ').unwrap_or((text, ""))
}

// The text without the white space in front.
fn skip_white(text: &str) -> &str
    ensures { result.now ≡ skipped text.now }
{
    text.trim_start()
}

// A clause sees what is left of the line.
#[derive(Drop)]
pub struct Words<'a> {
    rest: &'a str,
}

impl<'a> Model for Words<'a> {
    ghost use Rattle.std.specs.Prelude.{ℕ, List};

    ghost Value = { List ℕ };

    ghost view = { λ w. w.rest.now };
}

impl<'a> Words<'a> {
    pub fn new(line: &'a str) -> Words<'a>
        ensures { result ≡ line.now }
    {
        Words { rest: line }
    }

    // Whether nothing but white space is left.
    pub fn is_at_end(&self) -> bool
        ensures { result ≡ is_empty (skipped self.now) }
    {
        skip_white(self.rest).is_empty()
    }

    #[tactic(auto, unfolding(crate::specs::Parts::word_part))]
    fn word(&mut self) -> Result<&'a str, Reason>
        ensures { seen (λ w. w.now) result self.new ≡ word_part self.old }
    {
        let (word, after) = at_space(skip_white(self.rest));
        if word.is_empty() {
            return Err(Reason::WordMissing);
        }
        self.rest = after;
        Ok(word)
    }

    // What the next word stands for; `otherwise` is the reason where it stands for nothing.
    fn part<T, F: FnOnce(&str) -> Option<T>>(
        &mut self,
        read: F,
        otherwise: Reason,
    ) -> Result<T, Reason>
        requires { F.IsAlwaysCallable read }
        ensures { ReadBy (FnOnceReturnsAt F.FnOnce read) otherwise (word_part self.old) (seen (λ x. x) result self.new) }
    {
        read(self.word()?).ok_or(otherwise)
    }

    #[tactic(auto, unfolding(crate::specs::Parts::name_part))]
    pub fn name(&mut self) -> Result<Name, Reason>
        ensures { seen (λ x. x) result self.new ≡ name_part self.old }
    {
        self.part(|word| word.parse().ok(), Reason::UnknownWord)
    }

    #[tactic(auto, unfolding(crate::specs::Parts::field_part))]
    pub fn field(&mut self) -> Result<FieldName, Reason>
        ensures { seen (λ x. x) result self.new ≡ field_part self.old }
    {
        self.part(|word| word.parse().ok(), Reason::NotAField)
    }

    #[tactic(auto, unfolding(crate::specs::Parts::cipher_part))]
    pub fn cipher(&mut self) -> Result<CipherName, Reason>
        ensures { seen (λ x. x) result self.new ≡ cipher_part self.old }
    {
        self.part(|word| word.parse().ok(), Reason::NotACipher)
    }

    #[tactic(auto, using(crate::proofs::Numbered::parsed), unfolding(crate::specs::Parts::places_part))]
    pub fn places(&mut self) -> Result<Places, Reason>
        ensures { seen (λ p. p.count) result self.new ≡ places_part self.old }
    {
        let count: usize = self.part(|word| word.parse().ok(), Reason::NotARing)?;
        Places::try_from(count)
    }

    #[tactic(auto, using(crate::proofs::Numbered::parsed), unfolding(crate::specs::Parts::grave_part))]
    pub fn grave(&mut self) -> Result<u16, Reason>
        ensures { seen (λ x. x) result self.new ≡ grave_part self.old }
    {
        self.part(|word| word.parse().ok(), Reason::NotAGrave)
    }

    #[tactic(auto, using(crate::proofs::Numbered::parsed), unfolding(crate::specs::Parts::draw_part))]
    pub fn draw(&mut self) -> Result<u64, Reason>
        ensures { seen (λ x. x) result self.new ≡ draw_part self.old }
    {
        self.part(|word| word.parse().ok(), Reason::NotADraw)
    }

    #[tactic(auto, unfolding(crate::specs::Parts::key_part))]
    pub fn key(&mut self) -> Result<Key, Reason>
        ensures { seen (λ x. x) result self.new ≡ key_part self.old }
    {
        self.part(key_of, Reason::NotAKey)
    }

    #[tactic(auto, unfolding(crate::specs::Parts::seal_part))]
    pub fn seal(&mut self) -> Result<u64, Reason>
        ensures { seen (λ x. x) result self.new ≡ seal_part self.old }
    {
        self.part(seal_of, Reason::NotASeal)
    }

    // What stands before the next double quote.
    #[tactic(auto, unfolding(crate::specs::Parts::quoted))]
    fn quoted(&mut self, heap: Global) -> Result<Vec<u8>, Fault>
        ensures { Heard (λ v. (v.items, self.new)) result (quoted self.old) }
    {
        let (inside, after) = self.rest.split_once('"').ok_or(Reason::NotAText)?;
        self.rest = after;
        Ok(Vec::from_slice(heap, inside.as_bytes())?)
    }

    // A text at the front: quoted, or a word.
    pub fn text(&mut self, heap: Global) -> Result<Vec<u8>, Fault>
        ensures { Heard (λ v. (v.items, self.new)) result (text_part self.old) }
    {
        if let Some(quoted) = skip_white(self.rest).strip_prefix('"') {
            self.rest = quoted;
            return self.quoted(heap);
        }
        text_of(heap, self.word()?)
    }
}
