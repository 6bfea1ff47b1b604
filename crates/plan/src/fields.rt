// The fields of a line.
ghost use Rattle.std.specs.Prelude.{IfOk, vec_items, decimal, Decides};
ghost use Rattle.std.specs.Option.{option_map};
ghost use Rattle.plan.specs.Lines.{fields, Number, Numbers};
ghost use Rattle.plan.specs.Steps.{Padded, Reads};

use std::alloc::{AllocError, Global};

// Whether a sign is in front, or a zero with more after it: `parse` would take both.
fn padded(field: &[u8]) -> bool
    ensures { Decides result (Padded field.now) }
{
    matches!(field, [b'+', ..] | [b'0', _, ..])
}

// The number that a field writes: digits, with a leading zero only in 0 itself.
pub(crate) fn number(field: &[u8]) -> Option<u32>
    ensures { Reads decimal Number field.now result }
{
    if padded(field) {
        return None;
    }
    std::str::from_utf8(field).ok()?.parse().ok()
}

// The numbers of a line after its letter, with one blank before each.
pub(crate) fn numbers(heap: Global, tail: &[u8]) -> Result<Option<Vec<u32>>, AllocError>
    ensures { IfOk result (λ v. Reads fields Numbers tail.now (option_map vec_items v)) }
{
    let mut fields = tail.split(|b| *b == b' ');
    let Some([]) = fields.next() else {
        return Ok(None);
    };
    let mut items = Vec::new(heap);
    for field in fields {
        let Some(n) = number(field) else {
            return Ok(None);
        };
        items.push(n)?;
    }
    Ok(Some(items))
}
