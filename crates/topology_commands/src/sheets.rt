//! The text of `cover`.

ghost use Rattle.std.specs.Prelude.{◌≡◌, ◌++◌, ◌*◌, ◌<◌, length, IfOk, OnOk};
ghost use Rattle.outcome_definitions.specs.Information.{classes_text};
ghost use Rattle.outcome_definitions.specs.Covers as covers;
ghost use Rattle.outcome_definitions.specs.Covers.{sheet_line};

use command_answers::append_flag;
use double_cover::Cover;
use gluing_table::write_table;
use out_of_memory::NoMemory;
use std::alloc::Global;
use text_io::{append, append_decimal};

/// Appends the line of tetrahedron `tet` of the cover.
fn append_sheet(alloc: Global, text: &mut Vec<u8>, cover: &Cover, tet: u32) -> Result<(), NoMemory>
    requires { tet < 2 * length cover.now }
    ensures { OnOk result (text.new.items ≡ text.old.items ++ sheet_line (length cover.now) tet) }
{
    append(text, b"# tet ")?;
    append_decimal(alloc, text, u128::from(tet))?;
    append(text, b" over ")?;
    append_decimal(alloc, text, u128::from(cover.over(tet)))?;
    append(text, b" sheet ")?;
    append_decimal(alloc, text, u128::from(cover.sheet(tet)))?;
    append(text, b"\n")?;
    Ok(())
}

/// Appends the lines of the tetrahedra of `cover`.
fn append_sheets(alloc: Global, text: &mut Vec<u8>, cover: &Cover) -> Result<(), NoMemory>
    ensures { OnOk result (text.new.items
        ≡ text.old.items ++ classes_text (sheet_line (length cover.now)) (2 * length cover.now)) }
{
    for tet in 0..cover.table().len() {
        append_sheet(alloc, text, cover, tet)?;
    }
    Ok(())
}

/// The text of `cover` for `cover`, which is connected if `connected` is true.
pub fn cover_text(alloc: Global, cover: &Cover, connected: bool) -> Result<Vec<u8>, NoMemory>
    ensures { IfOk result (λ text. text.items ≡ covers.cover_text cover.now connected) }
{
    let mut text = Vec::new(alloc);
    write_table(alloc, cover.table(), &mut text)?;
    append_sheets(alloc, &mut text, cover)?;
    append_flag(&mut text, b"# connected ", connected)?;
    Ok(text)
}
