//! Marks of up to 64 contexts, one bit for each.
ghost use Rattle.std.specs.Prelude.{ℕ, ◌&&◌, ◌<◌, ◌||◌, ◌≡◌, ◌≢◌, false, not};
ghost use Rattle.tariff_compile.specs.Marks.{is_marked};

/// Which of the places 0 to 63 are marked.
#[derive(Clone, Copy)]
pub(crate) struct Marks {
    bits: u64,
}

impl Marks {
    /// No place is marked.
    pub(crate) fn none() -> Marks
        ensures { (place : ℕ) → is_marked result place ≡ false }
    {
        Marks { bits: 0 }
    }

    /// Each place is marked, or none.
    pub(crate) fn all_or_none(marked: bool) -> Marks
        ensures { (place : ℕ) → place < 64 → is_marked result place ≡ marked }
    {
        if marked {
            Marks::none().others()
        } else {
            Marks::none()
        }
    }

    /// Marks a place if it is to be marked; the others stay as they are.
    pub(crate) fn and_at(self, place: usize, marked: bool) -> Marks
        requires { place < 64 }
        ensures here { is_marked result place ≡ (is_marked self place || marked) }
        ensures others { (other : ℕ) → other ≢ place → is_marked result other ≡ is_marked self other }
    {
        if marked {
            Marks {
                bits: self.bits | 1 << place,
            }
        } else {
            self
        }
    }

    /// The places that are marked in both.
    pub(crate) fn both(self, with: Marks) -> Marks
        ensures { (place : ℕ) → is_marked result place ≡ (is_marked self place && is_marked with place) }
    {
        Marks {
            bits: self.bits & with.bits,
        }
    }

    /// The places that are marked in one or both.
    pub(crate) fn either(self, or: Marks) -> Marks
        ensures { (place : ℕ) → is_marked result place ≡ (is_marked self place || is_marked or place) }
    {
        Marks {
            bits: self.bits | or.bits,
        }
    }

    /// The places that are not marked.
    pub(crate) fn others(self) -> Marks
        ensures { (place : ℕ) → place < 64 → is_marked result place ≡ not (is_marked self place) }
    {
        Marks { bits: !self.bits }
    }

    /// Whether a place is marked.
    pub(crate) fn is_marked(self, place: usize) -> bool
        requires { place < 64 }
        ensures { result ≡ is_marked self place }
    {
        self.bits >> place & 1 == 1
    }
}
