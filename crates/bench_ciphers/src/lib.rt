// Ciphers for tests: one whose every answer is zero, and one that counts the questions put to the cipher below it.
#![tactic(auto)]

ghost use Rattle.std.specs.Prelude.{◌≡◌};
ghost use Rattle.bench_ciphers.specs.Zero.{zero_block};
ghost use Rattle.bench_ciphers.specs.Counted.{one_more};

use cipher::{Block, Cipher, Key};

#[derive(Clone, Copy)]
pub struct ZeroCipher;

impl Cipher for ZeroCipher {
    ghost function = { λ _ _ _. zero_block };

    fn encipher(&mut self, _key: Key, _block: Block) -> Block {
        Block {
            first: 0,
            second: 0,
        }
    }
}

#[derive(Drop)]
pub struct Counting<C> {
    cipher: C,
    questions: u64,
}

impl<C: Cipher> Counting<C> {
    pub fn new(cipher: C) -> Self
        ensures below { result.cipher ≡ cipher }
        ensures none { result.questions ≡ 0 }
    {
        Counting {
            cipher,
            questions: 0,
        }
    }

    pub fn questions(&self) -> u64
        ensures { result ≡ self.now.questions }
    {
        self.questions
    }
}

impl<C: Cipher> Cipher for Counting<C> {
    ghost function = { λ s. C.Cipher.function s.cipher };

    fn encipher(&mut self, key: Key, block: Block) -> Block
        ensures answer { result ≡ C.Cipher.function self.old.cipher key block }
        ensures kept { C.Cipher.function self.new.cipher ≡ C.Cipher.function self.old.cipher }
        ensures counted { self.new.questions ≡ one_more self.old.questions }
    {
        self.questions = self.questions.saturating_add(1);
        self.cipher.encipher(key, block)
    }
}

#[cfg(test)]
mod tests {
    use super::*;

    #[test]
    fn counts_and_passes_on(rt: HostRuntime) {
        let mut cipher = Counting::new(ZeroCipher);
        assert_eq!(rt; cipher.questions(), 0);
        let key = Key {
            first: 1,
            second: 2,
        };
        let block = Block {
            first: 3,
            second: 4,
        };
        assert_eq!(rt; cipher.encipher(key, block).first, 0);
        assert_eq!(rt; cipher.encipher(key, block).second, 0);
        assert_eq!(rt; cipher.questions(), 2);
    }
}
