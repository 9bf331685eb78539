// What takes bytes without a wait.
ghost use Rattle.std.specs.Prelude.{◌≡◌, ◌≤◌, ◌++◌, ℕ, List, Bool, true, length, take};

/// What takes bytes as far as it can at once, and no further. One of the system tells none.
pub trait Outlet {
    /// Whether it tells what it has taken.
    ghost tells: { Bool };

    /// All that it has taken, of one that tells.
    ghost taken: { Self → List ℕ };

    /// Takes the first of these bytes, as many as it can without a wait. It answers how many these are: none also where it fails.
    fn take(&mut self, bytes: &[u8]) -> usize
        ensures within { result ≤ length bytes.now }
        ensures taken { tells ≡ true →
            taken self.new ≡ taken self.old ++ take result bytes.now };
}
