//! Replaces rows of a table by fresh ones, renumbering the rows that are retained.

ghost use Rattle.std.specs.Prelude.{◌≡◌, false, ◌==◌, ◌+◌, ◌<◌, ◌≤◌, ◌^◌, [], length, vec_capacity, if◌then◌else◌, Some, None, option_and_then};
ghost use Rattle.std.specs.List.Sorted.{IsStrictlyIncreasing};
ghost use Rattle.table_definitions.specs.Lists.{has, first_some, rank_without};
ghost use Rattle.table_definitions.specs.Table as gluings;
ghost use Rattle.table_definitions.specs.Table.{max_tets, IsTable};
ghost use Rattle.table_definitions.specs.Replacing as exchange;
ghost use Rattle.table_definitions.specs.Replacing.{replaced, replaced_length};
ghost use Rattle.table_definitions.specs.Replaceable.{numbers_of, gone_before, row_back};

use crate::table::{copy_row, glue_at};
use crate::{Face, Glue, Row};
use std::marker::Model;

/// A replacement to be made: the rows of a table, the numbers of those to remove, and fresh rows with their numbers in
/// the new table. Both lists ascend.
#[derive(Drop)]
pub struct ReplacingRows<'a> {
    pub rows: &'a [Row],
    pub removed: &'a [u32],
    pub fresh: &'a [(u32, Row)],
}

impl<'a> Model for ReplacingRows<'a> {
    ghost use Rattle.gluing_table.specs.Exchanges as definition;

    ghost Value = { definition.Exchange };

    ghost view = { λ e. record { rows = e.rows.now; by = record { removed = e.removed.now; fresh = e.fresh.now } } };

    ghost invariant = { λ e. definition.IsExchange e.rows.now (record { removed = e.removed.now; fresh = e.fresh.now }) };
}

/// Whether `number` occurs in `numbers`.
fn is_among(numbers: &[u32], number: u32) -> bool
    ensures { result ≡ has numbers.now number }
{
    numbers.iter().any(|n| *n == number)
}

/// `number` less the count of smaller numbers in `gone`: its position among the numbers that are not in `gone`.
fn closed_number(gone: &[u32], number: u32) -> u32
    ensures { result ≡ rank_without gone.now number }
{
    let before = gone.iter().filter(|n| **n < number).count();
    (number as usize).saturating_sub(before) as u32
}

/// As `closed_number`, for the numbers of the rows in `gone`.
fn closed_row(gone: &[(u32, Row)], number: u32) -> u32
    ensures { result ≡ rank_without (numbers_of gone.now) number }
{
    let before = gone.iter().filter(|row| row.0 < number).count();
    (number as usize).saturating_sub(before) as u32
}

/// The inverse of `closed_number`: the number at position `place` among those that are not in `gone`, which ascends.
fn opened_number(gone: &[u32], place: u32) -> u32
    requires ascend { IsStrictlyIncreasing gone.now }
    requires fits { place + length gone.now < 2 ^ 32 }
    ensures free { has gone.now result ≡ false }
    ensures value { result ≡ place + gone_before gone.now result }
{
    let mut number = place;
    for taken in gone {
        if *taken <= number {
            number += 1;
        }
    }
    number
}

/// As `opened_number`, for the numbers of the rows in `gone`.
fn opened_row(gone: &[(u32, Row)], place: u32) -> u32
    requires ascend { IsStrictlyIncreasing (numbers_of gone.now) }
    requires fits { place + length gone.now < 2 ^ 32 }
    ensures free { has (numbers_of gone.now) result ≡ false }
    ensures value { result ≡ place + gone_before (numbers_of gone.now) result }
{
    let mut number = place;
    for taken in gone {
        if taken.0 <= number {
            number += 1;
        }
    }
    number
}

/// The row of `fresh` with the number `number`, or `None`.
fn fresh_row(fresh: &[(u32, Row)], number: u32) -> Option<Row>
    ensures { result ≡ (if has (numbers_of fresh.now) number then Some
        (exchange.fresh_row (record { removed = []; fresh = fresh.now }) number) else None) }
{
    for row in fresh {
        if row.0 == number {
            return Some(copy_row(&row.1));
        }
    }
    None
}

/// The gluing of `target` back to `from`, if `glue`, the gluing of `from`, is to `target`.
fn back_to_face(from: Face, glue: Option<Glue>, target: Face) -> Option<Glue>
    ensures { result ≡ option_and_then (exchange.inverse_if_reached target from) glue }
{
    let glue = glue?;
    if glue.other_side(from) == target {
        Some(glue.inverse_gluing(from))
    } else {
        None
    }
}

/// The gluing of `target` back to row `number`, if a gluing of that row (`row`) is to `target`.
fn back_to_row(number: u32, row: &Row, target: Face) -> Option<Glue>
    ensures { result ≡ row_back target (number, row.now) }
{
    for face in 0..4 {
        let from = Face { tet: number, face };
        let back = back_to_face(from, row[face as usize], target);
        if back.is_some() {
            return back;
        }
    }
    None
}

/// The gluing of `target` back to a fresh row, if a gluing of one is to `target`.
fn back_to_fresh(fresh: &[(u32, Row)], target: Face) -> Option<Glue>
    ensures { result ≡ first_some (row_back target) fresh.now }
{
    for row in fresh {
        let back = back_to_row(row.0, &row.1, target);
        if back.is_some() {
            return back;
        }
    }
    None
}

/// The gluing of `face` in the new table, in a retained row whose old number is `tet`.
fn retained_glue(swap: &ReplacingRows<'_>, tet: u32, face: Face) -> Option<Glue>
    requires { tet < length swap.now.rows }
    ensures { result ≡ exchange.kept_gluing swap.now.rows swap.now.by face
        (gluings.glue swap.now.rows (record { tet = tet; face = face.face })) }
{
    let face_before = Face {
        tet,
        face: face.face,
    };
    let Some(glue) = glue_at(swap.rows, face_before) else {
        return None;
    };
    if is_among(swap.removed, glue.tet) {
        return back_to_fresh(swap.fresh, face);
    }
    let tet = opened_row(swap.fresh, closed_number(swap.removed, glue.tet));
    let perm = glue.perm;
    Some(Glue { tet, perm })
}

/// Row `number` of the new table, a retained row whose old number is `tet`.
fn retained_row(swap: &ReplacingRows<'_>, tet: u32, number: u32) -> Row
    requires { tet < length swap.now.rows }
    ensures { result ≡ exchange.kept_row swap.now.rows swap.now.by tet number }
{
    [
        retained_glue(
            swap,
            tet,
            Face {
                tet: number,
                face: 0,
            },
        ),
        retained_glue(
            swap,
            tet,
            Face {
                tet: number,
                face: 1,
            },
        ),
        retained_glue(
            swap,
            tet,
            Face {
                tet: number,
                face: 2,
            },
        ),
        retained_glue(
            swap,
            tet,
            Face {
                tet: number,
                face: 3,
            },
        ),
    ]
}

/// Row `number` of the new table.
fn new_row(swap: &ReplacingRows<'_>, number: u32) -> Row
    requires { number < replaced_length swap.now.rows swap.now.by }
    ensures { result ≡ exchange.replaced_row swap.now.rows swap.now.by number }
{
    if let Some(row) = fresh_row(swap.fresh, number) {
        return row;
    }
    let tet = opened_number(swap.removed, closed_row(swap.fresh, number));
    retained_row(swap, tet, number)
}

/// The number of rows of the new table of `swap`.
fn new_length(swap: &ReplacingRows<'_>) -> u32
    ensures value { result ≡ replaced_length swap.now.rows swap.now.by }
    ensures limited { result ≤ max_tets }
    ensures is_table { IsTable (replaced swap.now.rows swap.now.by) }
{
    (swap.rows.len() - swap.removed.len() + swap.fresh.len()) as u32
}

/// Writes the rows of the new table into `new`, which is empty and has room for a table of any size. Allocates nothing.
pub fn write_replaced(new: &mut Vec<Row>, swap: &ReplacingRows<'_>)
    requires empty { new.old.items ≡ [] }
    requires room { max_tets ≤ vec_capacity new.old }
    ensures rows { new.new.items ≡ replaced swap.now.rows swap.now.by }
    ensures is_table { IsTable new.new.items }
    ensures room { max_tets ≤ vec_capacity new.new }
{
    for number in 0..new_length(swap) {
        new.push_reserved(new_row(swap, number));
    }
}
