//! The standard sphere.

ghost use Rattle.std.specs.Prelude.{◌≡◌, ◌∷◌, [], IfOk};
ghost use Rattle.move_definitions.specs.Certificates.{standard_sphere};
ghost use Rattle.move_definitions.specs.Certificates as certificates;
ghost use Rattle.table_definitions.specs.Permutation.{IsPermutationOfFour};

use gluing_table::{Glue, Row, Table};
use out_of_memory::NoMemory;
use perm_four::Perm4;
use std::alloc::{AllocError, Global};

/// The gluing to tetrahedron 0 by the permutation with images `a`, `b`, `c`, `d`.
fn to_itself(a: u8, b: u8, c: u8, d: u8) -> Option<Glue>
    ensures { IsPermutationOfFour (a ∷ b ∷ c ∷ d ∷ []) → result ≡ certificates.to_itself (a ∷ b ∷ c ∷ d ∷ []) }
{
    let perm = Perm4::new(a, b, c, d)?;
    Some(Glue { tet: 0, perm })
}

/// The row of the standard sphere: `0:1023 0:1023 0:1230 0:3012`.
fn sphere_rows(alloc: Global) -> Result<Vec<Row>, AllocError>
    ensures { IfOk result (λ rows. rows.items ≡ standard_sphere) }
{
    let mut rows = Vec::with_capacity(alloc, 1)?;
    rows.push([
        to_itself(1, 0, 2, 3),
        to_itself(1, 0, 2, 3),
        to_itself(1, 2, 3, 0),
        to_itself(3, 0, 1, 2),
    ])?;
    Ok(rows)
}

/// The standard sphere, a table of one tetrahedron.
pub fn standard(alloc: Global) -> Result<Table, NoMemory>
    ensures { IfOk result (λ table. table ≡ standard_sphere) }
{
    let rows = sphere_rows(alloc)?;
    let table = Table::from_sound_rows(alloc, rows)?;
    Ok(table)
}
