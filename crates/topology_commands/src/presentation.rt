//! The text of `pi1`.

ghost use Rattle.std.specs.Prelude.{◌≡◌, ◌+◌, ◌++◌, ◌<◌, length, IfOk, OnOk};
ghost use Rattle.std.specs.List.{flat_map};
ghost use Rattle.outcome_definitions.specs.Information.{classes_text};
ghost use Rattle.outcome_definitions.specs.Presented as presented;
ghost use Rattle.outcome_definitions.specs.Presented.{letter_text, generator_line, relator_line, generator_text, relator_text};

use command_answers::{append_number_line, yes_or_no};
use edge_group::{Group, Letter};
use out_of_memory::NoMemory;
use std::alloc::Global;
use text_io::{append, append_decimal};

fn sign(inverse: bool) -> &'static [u8]
    ensures { result.now ≡ presented.sign_text inverse }
{
    if inverse { b" -" } else { b" " }
}

/// Appends the line of the generator that `before` others precede.
fn append_generator(
    alloc: Global,
    text: &mut Vec<u8>,
    before: u32,
    class: u32,
    turns: bool,
) -> Result<(), NoMemory>
    ensures { OnOk result (text.new.items ≡ text.old.items ++ generator_line before class turns) }
{
    append(text, b"generator ")?;
    append_decimal(alloc, text, u128::from(before) + 1)?;
    append(text, b" face ")?;
    append_decimal(alloc, text, u128::from(class))?;
    append(text, b" turns ")?;
    append(text, yes_or_no(turns))?;
    append(text, b"\n")?;
    Ok(())
}

/// Appends the lines of the generators of `group`.
fn append_generators(alloc: Global, text: &mut Vec<u8>, group: &Group) -> Result<(), NoMemory>
    ensures { OnOk result (text.new.items
        ≡ text.old.items ++ classes_text (generator_text group.now.presentation)
        (length group.now.presentation.generators)) }
{
    for before in 0..group.generators() {
        let generator = before + 1;
        append_generator(
            alloc,
            text,
            before,
            group.face_of(generator),
            group.turns(generator),
        )?;
    }
    Ok(())
}

/// Appends `letter`.
fn append_letter(alloc: Global, text: &mut Vec<u8>, letter: Letter) -> Result<(), NoMemory>
    ensures { OnOk result (text.new.items ≡ text.old.items ++ letter_text letter) }
{
    append(text, sign(letter.inverse))?;
    append_decimal(alloc, text, u128::from(letter.generator))?;
    Ok(())
}

/// Appends the `letters` of a relator.
fn append_letters(alloc: Global, text: &mut Vec<u8>, letters: &[Letter]) -> Result<(), NoMemory>
    ensures { OnOk result (text.new.items ≡ text.old.items ++ flat_map letter_text letters.now) }
{
    for letter in letters {
        append_letter(alloc, text, *letter)?;
    }
    Ok(())
}

/// Appends the line of the relator around edge class `class`.
fn append_relator(
    alloc: Global,
    text: &mut Vec<u8>,
    class: u32,
    letters: &[Letter],
) -> Result<(), NoMemory>
    ensures { OnOk result (text.new.items ≡ text.old.items ++ relator_line class letters.now) }
{
    append(text, b"relator ")?;
    append_decimal(alloc, text, u128::from(class))?;
    append_letters(alloc, text, letters)?;
    append(text, b"\n")?;
    Ok(())
}

/// Appends the lines of the relators of `group`.
fn append_relators(alloc: Global, text: &mut Vec<u8>, group: &Group) -> Result<(), NoMemory>
    ensures { OnOk result (text.new.items
        ≡ text.old.items ++ classes_text (relator_text group.now.presentation)
        (length group.now.presentation.relators)) }
{
    for relator in 0..group.relators() {
        append_relator(alloc, text, group.edge_of(relator), group.relator(relator))?;
    }
    Ok(())
}

/// The text of `pi1` for the presentation `group`.
pub fn presentation_text(alloc: Global, group: &Group) -> Result<Vec<u8>, NoMemory>
    ensures { IfOk result (λ text. text.items ≡ presented.presentation_text group.now.presentation) }
{
    let mut text = Vec::new(alloc);
    append_number_line(
        alloc,
        &mut text,
        b"generators ",
        u128::from(group.generators()),
    )?;
    append_generators(alloc, &mut text, group)?;
    append_number_line(alloc, &mut text, b"relators ", u128::from(group.relators()))?;
    append_relators(alloc, &mut text, group)?;
    Ok(text)
}
