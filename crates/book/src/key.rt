// A parcel's key: 65,536 times the number of the office that accepted it, and how many parcels that office had accepted
// before.
ghost use Rattle.parcels.specs.Numbers.{keys_of_an_office};
ghost use Rattle.std.specs.Prelude.{◌≡◌, ◌+◌, ◌*◌, ◌%◌};
ghost use Rattle.parcels.specs.Book.{origin};

const KEYS_OF_AN_OFFICE: u32 = 65_536;

// A key, taken apart. Two bytes for each part: every number that four bytes hold is put together from two parts in one way.
#[derive(Clone, Copy, Debug, PartialEq, Eq)]
pub struct KeyParts {
    pub office: u16,
    // how many parcels the office had accepted before
    pub before: u16,
}

impl From<KeyParts> for u32 {
    ghost from_gives = { λ parts key. key ≡ keys_of_an_office * parts.office + parts.before };

    fn from(parts: KeyParts) -> u32 {
        KEYS_OF_AN_OFFICE * u32::from(parts.office) + u32::from(parts.before)
    }
}

impl From<u32> for KeyParts {
    ghost from_gives = { λ key parts. (parts.office ≡ origin key) × (parts.before ≡ key % keys_of_an_office) };

    fn from(key: u32) -> KeyParts {
        KeyParts {
            office: (key / KEYS_OF_AN_OFFICE) as u16,
            before: (key % KEYS_OF_AN_OFFICE) as u16,
        }
    }
}
