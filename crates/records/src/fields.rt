// The fields of a line that others follow: each reads one field up to its tab, and hands on what stands behind it.
ghost use Rattle.std.specs.Prelude.{◌≡◌, ℕ, List, decimal};
ghost use Rattle.text.specs.Fields.{Small, IsName};
ghost use Rattle.text.specs.Readers.{Exactly};
ghost use Rattle.text.specs.declared.fault.FieldFault.{FieldFault as AnyFault};
ghost use Rattle.records.specs.Lines.{IsSetText};
ghost use Rattle.records.specs.Tabs.{◌·◌, FieldRead};

use text::{FieldFault, cut, name, number, numbers};

/// The name that the first field is, and the bytes behind its tab.
pub fn name_field(bytes: &[u8]) -> Result<(&[u8], &[u8]), FieldFault>
    ensures { Exactly {A = List ℕ × List ℕ} result (λ p. (p.0.now, p.1.now)) AnyFault.Name (λ q. IsName q.0 × (bytes.now ≡ q.0 · q.1)) }
{
    field(bytes, FieldFault::Name, |front| name(front))
}

/// The number that the first field is, and the bytes behind its tab.
pub fn number_field(bytes: &[u8]) -> Result<(u32, &[u8]), FieldFault>
    ensures { Exactly {A = ℕ × List ℕ} result (λ p. (p.0, p.1.now)) AnyFault.Number (λ q. Small q.0 × (bytes.now ≡ decimal q.0 · q.1)) }
{
    field(bytes, FieldFault::Number, |front| number(front))
}

/// The text of rising numbers that the first field is, and the bytes behind its tab.
pub fn set_field(bytes: &[u8]) -> Result<(&[u8], &[u8]), FieldFault>
    ensures { Exactly {A = List ℕ × List ℕ} result (λ p. (p.0.now, p.1.now)) AnyFault.List (λ q. IsSetText q.0 × (bytes.now ≡ q.0 · q.1)) }
{
    field(bytes, FieldFault::List, |front| set(front))
}

/// The same bytes, if they are a set: a list that rises.
pub fn set(bytes: &[u8]) -> Result<&[u8], FieldFault>
    ensures { Exactly result (λ s. s.now) AnyFault.List (λ bs. (bs ≡ bytes.now) × IsSetText bs) }
{
    numbers(bytes, true)
}

// What `read` makes of the bytes before the first tab, and those behind it. Where no tab stands, `fault` is the answer.
fn field<'a, T, F: FnOnce(&'a [u8]) -> Result<T, FieldFault>>(
    bytes: &'a [u8],
    fault: FieldFault,
    read: F,
) -> Result<(T, &'a [u8]), FieldFault>
    requires { F.IsAlwaysCallable read }
    ensures { FieldRead (F.post read) fault bytes.now result }
{
    let (front, rest) = cut(bytes, b'\t').ok_or(fault)?;
    Ok((read(front)?, rest))
}
