// What every source answers.
ghost use Rattle.std.specs.Prelude.{◌≡◌, ℕ, ◌+◌, ◌-◌, ◌^◌, ◌<◌, true, List, length, IfSome, ◌==◌, nat_le};
ghost use Rattle.std.specs.List.{position_from};
ghost use Rattle.source.specs.Bytes.{byte_at, run};

// A source means one list of bytes. Both answers come from it, and no question changes it.
pub trait Source {
    ghost bytes: { Self → List ℕ };

    // How many bytes there are.
    fn len(&self) -> u64
        ensures { result ≡ length (bytes self.now) };

    // The byte at p, or none from the length on.
    fn byte(&self, p: u64) -> Option<u8>
        ensures { result ≡ byte_at (bytes self.now) p };

    // Whether the `count` bytes from `start` are all there; their end then fits 64 bits.
    final fn has(&self, start: u64, count: u64) -> bool
        ensures value { result ≡ nat_le (start + count) (length (bytes self.now)) }
        ensures fits { result ≡ true → start + count < 2 ^ 64 }
    {
        let len = self.len();
        start.checked_add(count).is_some_and(|end| end <= len)
    }

    // How many bytes come before the first of a value, among those from `start` and below `end`.
    final fn find(&self, start: u64, end: u64, value: u8) -> Option<u64>
        ensures value { result ≡ position_from (λ b. b == value) 0 (run start (end - start) (bytes self.now)) }
        ensures within { IfSome result (λ n. (start + n < end) × (start + n < length (bytes self.now))) }
    {
        for p in start..end.min(self.len()) {
            if self.byte(p) == Some(value) {
                return Some(p - start);
            }
        }
        None
    }
}

// A loan of a source is that source.
impl<S: Source> Source for &S {
    ghost bytes = { λ s. S.Source.bytes s.now };

    fn len(&self) -> u64 {
        (**self).len()
    }

    fn byte(&self, p: u64) -> Option<u8> {
        (**self).byte(p)
    }
}
