// Where queued lines are stored.
ghost use Rattle.std.specs.Prelude.{◌≡◌, ℕ, ◌<◌, ◌≤◌, List, [], ◌∷◌, ◌++◌, length, MatchOption};

/// A store for a bounded number of lines, all of whose memory was allocated when it was made.
pub(crate) trait Store: Drop {
    /// The lines, the first to be taken first.
    ghost lines: { Self → List (List ℕ) };
    /// How many lines there may be.
    ghost room: { Self → ℕ };

    /// The number of lines.
    fn len(&self) -> usize
        ensures len { result ≡ length (lines self.now) }
        ensures within { result ≤ room self.now };

    /// Puts a line at the end.
    fn put(&mut self, line: Vec<u8>)
        requires { length (lines self.old) < room self.old }
        ensures lines { lines self.new ≡ lines self.old ++ line.items ∷ [] }
        ensures room { room self.new ≡ room self.old };

    /// Takes the first line.
    fn take_first(&mut self) -> Option<Vec<u8>>
        ensures first { MatchOption result
            ((lines self.old ≡ []) × (lines self.new ≡ []))
            (λ line. lines self.old ≡ line.items ∷ lines self.new) }
        ensures room { room self.new ≡ room self.old };
}
