// Keys and values of the size that records have.

/// A key of 24 bytes.
#[derive(Clone, Copy, Debug, PartialEq, Eq, PartialOrd, Ord)]
pub(crate) struct Key {
    high: u64,
    low: u64,
    version: u64,
}

/// A value of 192 bytes.
pub(crate) type Value = [u64; 24];

/// The order in which keys come.
#[derive(Clone, Copy, Debug, PartialEq, Eq)]
pub(crate) enum Order {
    Random,
    Rising,
}

impl Order {
    /// Its name.
    pub(crate) fn name(self) -> &'static str {
        match self {
            Order::Random => "random",
            Order::Rising => "rising",
        }
    }

    /// The key that comes at this place.
    pub(crate) fn key(self, place: u64) -> Key {
        match self {
            Order::Rising => Key {
                high: 0,
                low: 1,
                version: place,
            },
            Order::Random => {
                let mixed = place.wrapping_mul(0x9E37_79B9_7F4A_7C15);
                Key {
                    high: 0,
                    low: mixed % 3,
                    version: mixed >> 8,
                }
            }
        }
    }
}
