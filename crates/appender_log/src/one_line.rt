// Texts in one line.
ghost use Rattle.std.specs.Prelude.{◌≡◌, ◌<◌, ◌++◌, true, IfOk, OnOk};
ghost use Rattle.appender_log.specs.OneLine.{hex_digit, is_control, record_escape, one_line};

use std::alloc::{AllocError, Global};

/// Returns a text in one line: its control characters are escaped. A text without any is returned as it is.
pub(super) fn escape(alloc: Global, text: Vec<u8>) -> Result<Vec<u8>, AllocError>
    ensures { IfOk result (λ line. line.items ≡ one_line text.items) }
{
    if is_one_line(text.as_slice()) {
        return Ok(text);
    }
    let mut line = Vec::with_capacity(alloc, text.len())?;
    push_escapes(&mut line, text.as_slice())?;
    Ok(line)
}

#[tactic(auto, using(crate::proofs::OneLines::plain_more))]
fn is_one_line(text: &[u8]) -> bool
    ensures { result ≡ true → one_line text.now ≡ text.now }
{
    for byte in text {
        if is_control(*byte) {
            return false;
        }
    }
    true
}

fn is_control(byte: u8) -> bool
    ensures { result ≡ is_control byte }
{
    byte < 32 || byte == 127
}

fn push_escapes(line: &mut Vec<u8>, text: &[u8]) -> Result<(), AllocError>
    ensures { OnOk result (line.new.items ≡ line.old.items ++ one_line text.now) }
{
    for byte in text {
        push_escape(line, *byte)?;
    }
    Ok(())
}

fn push_escape(line: &mut Vec<u8>, byte: u8) -> Result<(), AllocError>
    ensures { OnOk result (line.new.items ≡ line.old.items ++ record_escape byte) }
{
    match byte {
        b'\n' => line.extend_from_slice(b"\\n"),
        b'\r' => line.extend_from_slice(b"\\r"),
        _ if is_control(byte) => line.extend_from_slice(&[
            b'\\',
            b'x',
            hex_digit(byte / 16),
            hex_digit(byte % 16),
        ]),
        _ => Ok(line.push(byte)?),
    }
}

// A hexadecimal digit, in lower case.
fn hex_digit(digit: u8) -> u8
    requires { digit < 16 }
    ensures { result ≡ hex_digit digit }
{
    if digit < 10 {
        b'0' + digit
    } else {
        b'a' - 10 + digit
    }
}
