// The texts of numbers.
ghost use Rattle.std.specs.Prelude.{◌≡◌, string_bytes, MatchResult};
ghost use Rattle.std.proofs.Props.{props};
ghost use Rattle.json.specs.Print.{IsNumber};

use json::is_number;

// The text of a number in JSON.
#[derive(Drop)]
pub(super) struct Number {
    pub(super) text: String,
    ghost valid: { IsNumber (string_bytes text) } by { Prim.hlevel props },
}

impl Number {
    // Returns the text as the error if it is not a number.
    pub(super) fn new(text: String) -> Result<Number, String>
        ensures { MatchResult result (λ n. n.text ≡ text) (λ t. t ≡ text) }
    {
        if is_number(text.as_str()) {
            Ok(Number { text })
        } else {
            Err(text)
        }
    }
}
