// A node's list of parents, as it was given, while it is read.
#![tactic(auto)]

ghost use Rattle.std.specs.Prelude.{◌≡◌, List, [], ◌∷◌, ◌++◌, ℕ, ◌<◌};
ghost use Rattle.tables.specs.Limits.{count_max};
ghost use Rattle.listings.specs.Lists.{given_max};
ghost use Rattle.listings.specs.Inner.Listing.{listing_of};

// What is known of it so far: its set, the least number that would still ascend, and the counts.
#[derive(Clone, Copy, Debug, Default, PartialEq, Eq)]
pub struct Listing {
    pub set: u64,
    pub low: u64,
    pub reordered: u64,
    pub dropped: u64,
    pub padded: u64,
}

impl Listing {
    // No parent yet, and so many padded numbers before.
    pub fn none(padded: u64) -> Self
        ensures { result ≡ listing_of padded [] }
    {
        Self {
            padded,
            ..Self::default()
        }
    }

    // One parent more, and the padded numbers up to it. One that repeats another is dropped, and says nothing of the order.
    #[inline(always)]
    pub fn with_parent(self, parent: u64, padded: u64) -> Self
        requires { (parent < count_max) × (self.dropped < given_max) }
        ensures { (given : List ℕ) → self ≡ listing_of self.padded given → result ≡ listing_of padded (given ++ parent ∷ []) }
    {
        if sets::is_member(self.set, parent as usize) {
            let dropped = self.dropped + 1;
            return Self {
                dropped,
                padded,
                ..self
            };
        }
        let below = parent < self.low;
        Self {
            set: sets::with_member(self.set, parent as usize),
            low: parent + 1,
            reordered: if below { 1 } else { self.reordered },
            padded,
            ..self
        }
    }
}
