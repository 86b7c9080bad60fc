// A guard over a lent ring list: when it goes, at whatever way out, the list holds only zeros.
ghost use Rattle.std.specs.Prelude.{◌≡◌, length, replicate};

pub struct Wipe<'a> {
    pub ring: &'a mut [u64],
}

impl Drop for Wipe<'_> {
    fn drop(self)
        ensures { self.exit.0.now ≡ replicate (length self.entry.ring.now) 0 }
    {
        self.ring.fill(0);
        let Wipe { ring: _ } = self;
    }
}
