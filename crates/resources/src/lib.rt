// A set of the eight resources as one number of eight bits, bit r for resource r.
#![tactic(auto)]

ghost use Rattle.std.specs.Prelude.{◌≡◌};
ghost use Rattle.resources.specs.Resources.{has, with, without};

#[derive(Clone, Copy, PartialEq, Eq)]
pub struct Set(pub u8);

impl Set {
    pub const EMPTY: Set = Set(0);

    // Resources are 0 to 7.
    const RESOURCES: u8 = 8;

    // Whether r is in the set; no r above 7 is.
    pub fn contains(self, r: u8) -> bool
        ensures { result ≡ has self r }
    {
        r < Self::RESOURCES && self.0 & (1u8 << r) != 0
    }

    #[tactic(auto, unfolding(crate::specs::Resources::with))]
    pub fn insert(self, r: u8) -> Set
        ensures { result ≡ with self r }
    {
        if r < Self::RESOURCES {
            Set(self.0 | (1u8 << r))
        } else {
            self
        }
    }

    pub fn remove(self, r: u8) -> Set
        ensures { result ≡ without self r }
    {
        if r < Self::RESOURCES {
            Set(self.0 & !(1u8 << r))
        } else {
            self
        }
    }
}
