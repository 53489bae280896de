//! The calls of `gluing_table`, each once with its type. Calls that take or return a borrow are named as they are
//! called.
use bench_io::NoMemory;
use gluing_table::{
    Face, Glue, MAX_TETS, Relabelling, RelabellingFault, Row, Table, TableFault, write_table,
};
use perm_four::Perm4;
use std::alloc::Global;

#[test]
fn calls_have_their_types(_rt: HostRuntime) {
    let _most: u32 = MAX_TETS;
    let _from_rows: fn(Global, &[Row]) -> Result<Table, TableFault> = Table::from_rows;
    let _len: fn(&Table) -> u32 = Table::len;
    let _glue: fn(&Table, Face) -> Option<Glue> = Table::glue;
    let _copy: fn(&Table, Global) -> Result<Table, NoMemory> = Table::copy;
    let _equals: fn(&Table, &Table) -> bool = Table::equals;
    let _unreached: fn(&Table, Global) -> Result<Option<u32>, NoMemory> = Table::unreached;
    let _relabel: fn(&Table, Global, &Relabelling) -> Result<Table, NoMemory> = Table::relabel;
    let _replace: fn(&mut Table, &[u32], &[(u32, Row)]) = Table::replace;
    let _new: fn(Global, &[u32], &[Perm4]) -> Result<Relabelling, RelabellingFault> =
        Relabelling::new;
    let _image: fn(&Relabelling, u32) -> u32 = Relabelling::image;
    let _perm: fn(&Relabelling, u32) -> Perm4 = Relabelling::perm;
    let _write_table: fn(Global, &Table, &mut Vec<u8>) -> Result<(), NoMemory> = write_table;
}
