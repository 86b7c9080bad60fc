// The promise of the seal book over every run, whatever calls are made.
#![tactic(auto)]

ghost use Rattle.std.specs.Prelude.{◌≡◌, ℕ, ◌<◌, List, length};
ghost use Rattle.cipher.specs.declared.Block.{Block};
ghost use Rattle.cipher.specs.declared.Key.{Key};
ghost use Rattle.field.specs.Model.{Model};
ghost use Rattle.field.specs.Laws.{FieldLaws};
ghost use Rattle.seal.specs.Sealing.{Sealing};
ghost use Rattle.seal.specs.Seals.{sealing};
ghost use Rattle.promise.specs.History.{Call};
ghost use Rattle.promise.specs.Records.{new, Open, Locked, in_use_with};
ghost use Rattle.promise.specs.Register.{Reached};
ghost use Rattle.promise.specs.Runs.{heard, left_by};
ghost use Rattle.promise.specs.Promise.{Promise};
ghost use Rattle.promise.specs.Teeth.{Teeth};
ghost use Rattle.promise.specs.Examples.{Examples};

// How many graves a book has. The promise holds of a book over any field and any cipher, after any calls.
pub fn graves() -> u16
    ensures count { result ≡ length new }
    ensures promise { (m : Model) (f : Key → Block → Block) → FieldLaws m → Promise m (sealing m f) }
    ensures any { (S : Sealing) (cs : List Call) → Reached S (heard S cs) (left_by S cs) }
{
    256
}

// With how many false seals a grave is locked. The law refutes books that go wrong here and elsewhere, whatever the
// sealing, and the rules answer as in the examples.
pub fn false_seals_to_lock() -> u8
    ensures locks { in_use_with result ≡ Locked }
    ensures fewer { (n : ℕ) → n < result → in_use_with n ≡ Open n }
    ensures teeth { (S : Sealing) (k j : Key) (x y : List ℕ) → Teeth S k j x y }
    ensures examples { Examples }
{
    4
}
