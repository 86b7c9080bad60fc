// The words that name a call.
ghost use Rattle.std.specs.Prelude.{◌≡◌};
ghost use Rattle.std.specs.Result.{result_ok};
ghost use Rattle.script.specs.Names.{name_of};

use std::str::FromStr;

// The first word of a line.
#[derive(Clone, Copy)]
pub enum Name {
    Book,
    Ring,
    Open,
    Draw,
    Seal,
    Void,
    Check,
    Clear,
    Close,
    Tell,
    Owing,
}

// A word that names no call.
#[derive(Clone, Copy)]
pub struct UnknownName;

impl FromStr for Name {
    type Err = UnknownName;

    ghost from_str_gives = { λ word r. result_ok r ≡ name_of word };

    fn from_str(word: &str) -> Result<Name, UnknownName> {
        match word {
            "book" => Ok(Name::Book),
            "ring" => Ok(Name::Ring),
            "open" => Ok(Name::Open),
            "draw" => Ok(Name::Draw),
            "seal" => Ok(Name::Seal),
            "void" => Ok(Name::Void),
            "check" => Ok(Name::Check),
            "clear" => Ok(Name::Clear),
            "close" => Ok(Name::Close),
            "tell" => Ok(Name::Tell),
            "owing" => Ok(Name::Owing),
            _ => Err(UnknownName),
        }
    }
}
