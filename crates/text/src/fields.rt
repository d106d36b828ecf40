ghost use Rattle.std.specs.Prelude.{◌≡◌};
ghost use Rattle.text.specs.Fields.{IsName, IsNumber};
ghost use Rattle.text.specs.Readers.{Exactly};

use crate::fault::FieldFault;

const MOST_DIGITS: usize = 7;

const LONGEST_NAME: usize = 40;

/// The number that `bytes` writes. A text that is too long is refused unread.
pub fn number(bytes: &[u8]) -> Result<u32, FieldFault>
    ensures { Exactly result (λ n. n) FieldFault.Number (IsNumber bytes.now) }
{
    if bytes.len() > MOST_DIGITS || !matches!(bytes, [b'0'] | [b'1'..=b'9', ..]) {
        return Err(FieldFault::Number);
    }
    // By a loop: `from_str_radix` wants a `&str`, and with the check that makes one it takes three times as long.
    let mut value = 0;
    for &b in bytes {
        if !b.is_ascii_digit() {
            return Err(FieldFault::Number);
        }
        value = value * 10 + u32::from(b - b'0');
    }
    Ok(value)
}

/// The same bytes, if they are a name. A text that is too long is refused unread.
pub fn name(bytes: &[u8]) -> Result<&[u8], FieldFault>
    ensures { Exactly result (λ s. s.now) FieldFault.Name (λ bs. (bs ≡ bytes.now) × IsName bs) }
{
    if bytes.is_empty()
        || bytes.len() > LONGEST_NAME
        || !bytes.iter().all(|b| matches!(b, b' '..=b'~'))
    {
        return Err(FieldFault::Name);
    }
    Ok(bytes)
}
