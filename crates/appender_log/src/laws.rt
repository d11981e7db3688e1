//! Laws of the lines of records, each the contract of a function that does nothing.
ghost use Rattle.std.specs.Prelude.{◌≡◌, ◌≢◌, ◌++◌, ℕ, ℤ, List, All, codes};
ghost use Rattle.json.specs.Token.{Token};
ghost use Rattle.appender_log.specs.Json.{IsJsonLine};
ghost use Rattle.appender_log.specs.OneLine.{one_line};
ghost use Rattle.appender_log.specs.Time.{time_text};

/// A text in one line has no newline, and neither has a time before it. So the line of a record has one, its last
/// byte.
pub fn lines_have_one_newline()
    ensures text { (text : List ℕ) → All (λ b. b ≢ 10) (one_line text) }
    ensures time { (nanos : ℤ) (text : List ℕ) → All (λ b. b ≢ 10) (time_text nanos ++ codes " " ++ one_line text) }
{}

/// The line of a record as JSON has one newline, its last byte.
pub fn json_lines_have_one_newline()
    ensures { (ts : List Token) (line : List ℕ) → IsJsonLine ts line
        → (text : List ℕ) × All (λ b. b ≢ 10) text × (line ≡ text ++ codes "\n") }
{}
