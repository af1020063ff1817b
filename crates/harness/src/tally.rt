//! What a list of stored answers has shown.
ghost use Rattle.std.specs.Prelude.{◌≡◌, ◌-◌};
ghost use Rattle.harness.specs.Tally.{none_yet, counted};

/// What a list has shown so far.
#[derive(Clone, Copy, Debug, Default, PartialEq, Eq)]
pub struct Tally {
    pub records: u64,
    pub mismatches: u64,
    /// Whether the list ends within a record.
    pub cut_short: bool,
}

impl Tally {
    /// Nothing read yet.
    pub fn new() -> Self
        ensures { result ≡ none_yet }
    {
        Self::default()
    }

    /// Some records more, with so many mismatches among them. Both counts wrap at 64 bits.
    pub fn count(self, records: u64, mismatches: u64) -> Self
        ensures { result ≡ counted self records mismatches }
    {
        Self {
            records: self.records.wrapping_add(records),
            mismatches: self.mismatches.wrapping_add(mismatches),
            ..self
        }
    }

    /// How many mismatches are still to be shown, eight in all.
    pub fn left_to_show(self) -> u64
        ensures { result ≡ 8 - self.mismatches }
    {
        8u64.saturating_sub(self.mismatches)
    }
}
