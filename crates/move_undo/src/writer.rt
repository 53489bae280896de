//! Writes moves as text.

ghost use Rattle.std.specs.Prelude.{◌≡◌, ◌<◌, ◌++◌, [], ◌∷◌, filter, IfOk, OnOk, OnErr};
ghost use Rattle.std.specs.List.{flat_map};
ghost use Rattle.table_definitions.specs.Permutation.{four, digits_of};
ghost use Rattle.move_definitions.specs.MoveText.{move_text, core_words};
ghost use Rattle.move_undo.specs.Written.{is_chosen, core_tail, head_text};

use out_of_memory::NoMemory;
use pachner_moves::{Core, Move};
use std::alloc::Global;
use text_io::{append, append_decimal};

/// Appends the digit of vertex `v` if whether it is in `core` equals `inside`.
fn append_vertex(out: &mut Vec<u8>, core: Core, inside: bool, v: u8) -> Result<(), NoMemory>
    requires { v < 4 }
    ensures { OnOk result (out.new.items ≡ out.old.items ++ digits_of (filter (is_chosen core inside) (v ∷ []))) }
{
    if core.has(v) == inside {
        out.push(b'0' + v)?;
    }
    Ok(())
}

/// Appends the digits of the vertices in `core`, or of the others if `inside` is false.
fn append_vertices(out: &mut Vec<u8>, core: Core, inside: bool) -> Result<(), NoMemory>
    ensures { OnOk result (out.new.items ≡ out.old.items ++ digits_of (filter (is_chosen core inside) four)) }
{
    append_vertex(out, core, inside, 0)?;
    append_vertex(out, core, inside, 1)?;
    append_vertex(out, core, inside, 2)?;
    append_vertex(out, core, inside, 3)?;
    Ok(())
}

/// Appends what follows the number of the tetrahedron in the line of a move with core `core`.
#[tactic(auto, unfolding(crate::specs::Written::core_tail))]
fn append_core(out: &mut Vec<u8>, core: Core) -> Result<(), NoMemory>
    ensures { OnOk result (out.new.items ≡ out.old.items ++ core_tail core) }
{
    let size = core.size();
    if size == 4 {
        return Ok(());
    }
    append(out, b" ")?;
    append_vertices(out, core, size != 3)?;
    Ok(())
}

/// The word of the moves whose core has `size` vertices.
fn kind_word(size: u8) -> &'static [u8]
    ensures { result.now ≡ (core_words size []).0 }
{
    match size {
        4 => b"14",
        3 => b"23",
        2 => b"32",
        _ => b"41",
    }
}

/// Appends the kind of a move, by the `size` of its core, and its tetrahedron `tet`.
#[tactic(auto, unfolding(crate::specs::Written::head_text))]
fn append_head(alloc: Global, out: &mut Vec<u8>, size: u8, tet: u32) -> Result<(), NoMemory>
    ensures { OnOk result (out.new.items ≡ out.old.items ++ head_text size tet) }
{
    append(out, kind_word(size))?;
    append(out, b" ")?;
    append_decimal(alloc, out, u128::from(tet))?;
    Ok(())
}

/// The line of move `m`.
fn text_of(alloc: Global, m: Move) -> Result<Vec<u8>, NoMemory>
    ensures { IfOk result (λ text. text.items ≡ move_text m) }
{
    let mut text = Vec::new(alloc);
    append_head(alloc, &mut text, m.core.size(), m.tet)?;
    append_core(&mut text, m.core)?;
    append(&mut text, b"\n")?;
    Ok(text)
}

/// Appends the line of move `m` to `out`. If memory runs out `out` is unchanged.
pub fn write_move(alloc: Global, m: Move, out: &mut Vec<u8>) -> Result<(), NoMemory>
    ensures ok { OnOk result (out.new.items ≡ out.old.items ++ move_text m) }
    ensures err { OnErr result (out.new.items ≡ out.old.items) }
{
    let text = text_of(alloc, m)?;
    append(out, &text)
}

/// Appends a line for each of `moves` to `out`.
pub fn write_moves(alloc: Global, moves: &[Move], out: &mut Vec<u8>) -> Result<(), NoMemory>
    ensures { OnOk result (out.new.items ≡ out.old.items ++ flat_map move_text moves.now) }
{
    for m in moves {
        write_move(alloc, *m, out)?;
    }
    Ok(())
}
