ghost use Rattle.std.specs.Prelude.{◌≡◌, ◌<◌, ◌+◌, ◌^◌, IfSome, is_some, true};

/// How many keys and values a tree has.
#[derive(Clone, Copy, Debug, PartialEq, Eq)]
pub struct Counts {
    /// The keys, the root among them.
    pub keys: u64,
    /// The values of all keys.
    pub values: u64,
}

impl Counts {
    /// None of either.
    pub fn none() -> Counts
        ensures keys { result.keys ≡ 0 }
        ensures values { result.values ≡ 0 }
    {
        Counts { keys: 0, values: 0 }
    }

    /// One key more, with so many values; `None` where 64 bits can't hold a number.
    pub fn with_key(self, values: u32) -> Option<Counts>
        ensures keys { IfSome result (λ more. more.keys ≡ self.keys + 1) }
        ensures values { IfSome result (λ more. more.values ≡ self.values + values) }
        ensures held { self.keys + 1 < 2 ^ 64 → self.values + values < 2 ^ 64 → is_some result ≡ true }
    {
        let Some(keys) = self.keys.checked_add(1) else {
            return None;
        };
        let Some(values) = self.values.checked_add(u64::from(values)) else {
            return None;
        };
        Some(Counts { keys, values })
    }
}
