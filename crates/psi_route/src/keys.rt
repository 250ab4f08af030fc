//! Keys of targets: the target with the least one is chosen.

ghost use Rattle.std.specs.Prelude.{◌<◌, ◌↔◌, IsTrue};

/// The key of a target: its table's value at its number of customers, and its place in the list.
#[derive(Clone, Copy)]
pub(crate) struct Key {
    pub weight: u32,
    pub place: u8,
    pub ghost few: { place < 32 },
}

impl Key {
    ghost use Rattle.psi_route.specs.Keys.{key_of, IsLesser};

    /// Returns whether this key is the lesser one: by the values first, then by the places.
    pub fn is_before(self, other: Key) -> bool
        ensures { IsTrue result ↔ (key_of self < key_of other) }
    {
        self.weight < other.weight || (self.weight == other.weight && self.place < other.place)
    }

    /// Returns the lesser of the keys that are there.
    pub fn lesser(found: Option<Key>, offered: Option<Key>) -> Option<Key>
        ensures { IsLesser found offered result }
    {
        match offered {
            None => found,
            Some(key) => match found {
                None => offered,
                Some(best) => if key.is_before(best) { offered } else { found },
            },
        }
    }
}

// More than each value of a table.
const NO_WEIGHT: u64 = 4_294_967_296;

/// The weight and the place of the least key that is found so far; the weight is 2^32, above all weights,
/// where there is none.
#[derive(Clone, Copy)]
pub(crate) struct Leader {
    pub weight: u64,
    pub place: usize,
    pub ghost few: { place < 32 },
}

impl Leader {
    ghost use Rattle.std.specs.Prelude.{◌≡◌, ◌^◌, ◌≤◌, Some, None};

    /// No key is found.
    pub fn none() -> Leader
        ensures { result.weight ≡ 2 ^ 32 }
    {
        Leader {
            weight: NO_WEIGHT,
            place: 0,
        }
    }

    /// Returns the place of the key, if one is found.
    pub fn chosen(self) -> Option<u8>
        ensures found { self.weight < 2 ^ 32 → result ≡ Some self.place }
        ensures none { 2 ^ 32 ≤ self.weight → result ≡ None }
    {
        if self.weight < NO_WEIGHT {
            Some(self.place as u8)
        } else {
            None
        }
    }
}
