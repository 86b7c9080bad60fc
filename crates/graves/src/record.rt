// A grave's record that can exist: its draws add up.
ghost use Rattle.std.specs.Prelude.{◌≡◌, ◌≤◌, true};
ghost use Rattle.graves.specs.Sound.{held_soundly, handed_out};

use crate::entry::Entry;

#[derive(Clone, Copy)]
pub struct Record {
    pub entry: Entry,
    // no draw is held twice, and none that was not handed out
    ghost held: { held_soundly entry ≡ true },
    // the draws handed out are those sealed, voided and held
    ghost counts: { handed_out entry ≡ entry.next },
    ghost few: { entry.next ≤ 1000000 },
}
