// Archives of log files, by their names.
ghost use Rattle.std.specs.Prelude.{◌≡◌, ◌<◌, IfSome, length};
ghost use Rattle.std.specs.Char.{is_ascii_alphanumeric};
ghost use Rattle.std.specs.List.{list_all};
ghost use Rattle.std.specs.Option.{option_map};
ghost use Rattle.appender_names.specs.Archive as spec;

// Returns what is before the last dot of a name, if just 1 to 8 ASCII letters and digits are after it.
pub(crate) fn before_ending(name: &[u8]) -> Option<&[u8]>
    ensures { option_map (λ base. base.now) result ≡ spec.before_ending name.now }
{
    let dot = ending_dot(name)?;
    Some(&name[..dot])
}

// Returns the place of that dot.
fn ending_dot(name: &[u8]) -> Option<usize>
    ensures value { result ≡ spec.ending_dot name.now }
    ensures bound { IfSome result (λ at. at < length name.now) }
{
    let [first, rest @ ..] = name else {
        return None;
    };
    if *first == b'.' && is_ending(rest) {
        return Some(0);
    }
    let at = ending_dot(rest)?;
    Some(at + 1)
}

fn is_ending(text: &[u8]) -> bool
    ensures { result ≡ spec.is_ending text.now }
{
    !text.is_empty() && text.len() <= 8 && is_alphanumeric(text)
}

fn is_alphanumeric(text: &[u8]) -> bool
    ensures { result ≡ list_all is_ascii_alphanumeric text.now }
{
    text.iter().all(|b| b.is_ascii_alphanumeric())
}
