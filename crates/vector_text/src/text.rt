//! Vectors as text: a line for each, `vec` and its entries.

ghost use Rattle.std.specs.Prelude.{◌≡◌, ◌<◌, ◌∷◌, ◌++◌, decimal, IsTrue, OnOk, OnErr, IfOk};
ghost use Rattle.std.specs.List.{All};
ghost use Rattle.cone_text_definitions.specs.VectorText.{vector_text, entries_text, list_text};
ghost use Rattle.vector_text.specs.ViewEntries.{view_numbers};

use crate::view::EntryView;
use cone_arithmetic::{PackedRay, Ray};
use out_of_memory::NoMemory;
use std::alloc::Global;
use text_io::{append, append_decimal};

/// Appends a space and the digits of `entry`. Most entries are below 10, so that case comes first.
fn push_entry(alloc: Global, text: &mut Vec<u8>, entry: u128) -> Result<(), NoMemory>
    ensures { OnOk result (text.new.items ≡ text.old.items ++ 32 ∷ decimal entry) }
{
    if entry < 10 {
        append(text, &[b' ', b'0' + entry as u8])
    } else {
        append(text, b" ")?;
        append_decimal(alloc, text, entry)
    }
}

/// Appends the digits `x`, each after a space.
fn push_digits(text: &mut Vec<u8>, x: &[u8; 8]) -> Result<(), NoMemory>
    requires { All (λ digit. digit < 10) x.now }
    ensures { OnOk result (text.new.items ≡ text.old.items ++ entries_text x.now) }
{
    append(
        text,
        &[
            b' ',
            b'0' + x[0],
            b' ',
            b'0' + x[1],
            b' ',
            b'0' + x[2],
            b' ',
            b'0' + x[3],
            b' ',
            b'0' + x[4],
            b' ',
            b'0' + x[5],
            b' ',
            b'0' + x[6],
            b' ',
            b'0' + x[7],
        ],
    )
}

/// Whether each of `x` is a digit.
fn are_digits(x: &[u8; 8]) -> bool
    ensures { IsTrue result → All (λ digit. digit < 10) x.now }
{
    x.iter().all(|digit| *digit < 10)
}

/// Appends the entries of `x`, each after a space.
fn push_each(alloc: Global, text: &mut Vec<u8>, x: &[u8]) -> Result<(), NoMemory>
    ensures { OnOk result (text.new.items ≡ text.old.items ++ entries_text x.now) }
{
    for entry in x {
        push_entry(alloc, text, u128::from(*entry))?;
    }
    Ok(())
}

/// Appends the eight entries of `x`, each after a space; with one call if all have one digit, as most do.
fn push_eight(alloc: Global, text: &mut Vec<u8>, x: &[u8; 8]) -> Result<(), NoMemory>
    ensures { OnOk result (text.new.items ≡ text.old.items ++ entries_text x.now) }
{
    if are_digits(x) {
        push_digits(text, x)
    } else {
        push_each(alloc, text, x)
    }
}

/// Appends the entries of `x`, each after a space.
fn push_bytes(alloc: Global, text: &mut Vec<u8>, x: &[u8]) -> Result<(), NoMemory>
    ensures { OnOk result (text.new.items ≡ text.old.items ++ entries_text x.now) }
{
    let mut rest = x;
    while let Some((eight, after)) = rest.split_first_chunk::<8>() {
        push_eight(alloc, text, eight)?;
        rest = after;
    }
    push_each(alloc, text, rest)
}

/// Appends the entries of `x`, each after a space.
fn push_wide(alloc: Global, text: &mut Vec<u8>, x: &[u128]) -> Result<(), NoMemory>
    ensures { OnOk result (text.new.items ≡ text.old.items ++ entries_text x.now) }
{
    for entry in x {
        push_entry(alloc, text, *entry)?;
    }
    Ok(())
}

/// Appends the entries of `x`, each after a space.
fn push_entries(alloc: Global, text: &mut Vec<u8>, x: EntryView<'_>) -> Result<(), NoMemory>
    ensures { OnOk result (text.new.items ≡ text.old.items ++ entries_text (view_numbers x.entry)) }
{
    match x {
        EntryView::Bytes(bytes) => push_bytes(alloc, text, bytes),
        EntryView::Wide(wide) => push_wide(alloc, text, wide),
    }
}

/// Appends the entries of `ray`, each after a space. If memory runs out `out` is unchanged.
pub fn write_entries(alloc: Global, ray: &Ray, out: &mut Vec<u8>) -> Result<(), NoMemory>
    ensures ok { OnOk result (out.new.items ≡ out.old.items ++ entries_text ray.now) }
    ensures err { OnErr result (out.new.items ≡ out.old.items) }
{
    let mut text = Vec::new(alloc);
    push_entries(alloc, &mut text, EntryView::Wide(ray.entries()))?;
    append(out, &text)
}

/// Appends the line of the vector `x`.
fn push_line(alloc: Global, text: &mut Vec<u8>, x: EntryView<'_>) -> Result<(), NoMemory>
    ensures { OnOk result (text.new.items ≡ text.old.items ++ vector_text (view_numbers x.entry)) }
{
    append(text, b"vec")?;
    push_entries(alloc, text, x)?;
    append(text, b"\n")?;
    Ok(())
}

/// Appends a line `vec` with the entries of `x`. If memory runs out `out` is unchanged.
pub fn write_vector(alloc: Global, x: &[u128], out: &mut Vec<u8>) -> Result<(), NoMemory>
    ensures ok { OnOk result (out.new.items ≡ out.old.items ++ vector_text x.now) }
    ensures err { OnErr result (out.new.items ≡ out.old.items) }
{
    let mut text = Vec::new(alloc);
    push_line(alloc, &mut text, EntryView::Wide(x))?;
    append(out, &text)
}

/// Appends a line `vec` with the entries of each ray of `list`. If memory runs out `out` is unchanged.
pub fn write_list(alloc: Global, list: &[Ray], out: &mut Vec<u8>) -> Result<(), NoMemory>
    ensures ok { OnOk result (out.new.items ≡ out.old.items ++ list_text list.now) }
    ensures err { OnErr result (out.new.items ≡ out.old.items) }
{
    let mut text = Vec::new(alloc);
    for ray in list {
        push_line(alloc, &mut text, EntryView::Wide(ray.entries()))?;
    }
    append(out, &text)
}

/// Appends the line of the packed ray `packed`. Entries of 8 bits each are not copied.
fn push_packed(alloc: Global, text: &mut Vec<u8>, packed: &PackedRay) -> Result<(), NoMemory>
    ensures { OnOk result (text.new.items ≡ text.old.items ++ vector_text packed.now) }
{
    if let Some(bytes) = packed.bytes() {
        return push_line(alloc, text, EntryView::Bytes(bytes));
    }
    let ray = packed.to_ray(alloc)?;
    push_line(alloc, text, EntryView::Wide(ray.entries()))
}

/// A lower bound on the number of bytes of the lines of `list`.
fn least_bytes(list: &[PackedRay]) -> usize {
    match list.first() {
        Some(ray) => {
            let line = ray.columns().saturating_mul(2).saturating_add(4);
            list.len().saturating_mul(line)
        }
        None => 0,
    }
}

/// A copy of `front`, followed by the lines of `list`.
fn lines_after(alloc: Global, front: &[u8], list: &[PackedRay]) -> Result<Vec<u8>, NoMemory>
    ensures { IfOk result (λ text. text.items ≡ front.now ++ list_text list.now) }
{
    let mut text = Vec::with_capacity(alloc, least_bytes(list).saturating_add(front.len()))?;
    append(&mut text, front)?;
    // a list of packed rays is large, so at most one ray at a time is copied
    for packed in list {
        push_packed(alloc, &mut text, packed)?;
    }
    Ok(text)
}

/// Appends a line `vec` with the entries of each packed ray of `list`. If memory runs out `out` is unchanged.
pub fn write_packed_list(
    alloc: Global,
    list: &[PackedRay],
    out: &mut Vec<u8>,
) -> Result<(), NoMemory>
    ensures ok { OnOk result (out.new.items ≡ out.old.items ++ list_text list.now) }
    ensures err { OnErr result (out.new.items ≡ out.old.items) }
{
    // the lines are far longer than the text before them, so that text is copied
    *out = lines_after(alloc, out, list)?;
    Ok(())
}
