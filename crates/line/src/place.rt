// Where a reader stands: an offset, and how many fields it has read, counted up to 255.
ghost use Rattle.std.specs.Prelude.{◌≡◌, unwrap_or};

#[derive(Clone, Copy)]
pub struct Place {
    pub(crate) at: usize,
    pub(crate) field: u8,
}

// Puts a place back where it was when the reading of a field began, unless the reading is kept.
pub(crate) struct Rewind<'p> {
    pub(crate) place: &'p mut Place,
    // where to go back to; none where the reading is kept
    pub(crate) back: Option<Place>,
}

impl Drop for Rewind<'_> {
    fn drop(self)
        ensures { self.exit.0.now ≡ unwrap_or self.entry.back self.entry.place.now }
    {
        let Rewind { place, back } = self;
        if let Some(start) = back {
            *place = start;
        }
    }
}
