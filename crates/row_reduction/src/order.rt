//! A greedy order of rows: each next row has columns in the fewest blocks that no earlier row names.

ghost use Rattle.std.specs.Prelude.{◌≡◌, ◌<◌, ◌++◌, Some, IfOk, OnOk, length, map};
ghost use Rattle.std.specs.List.Sorted.{IsPermutation};
ghost use Rattle.row_reduction.specs.RowsLeft.{rows_left};

use crate::rows::RowList;
use cone_arithmetic::SparseRow;
use out_of_memory::NoMemory;
use std::alloc::Global;

/// The greatest number of rows for which each one is tried as the first.
const MOST_STARTS: usize = 128;

/// The blocks of columns that a row names, one bit each, and its number of terms. Blocks whose numbers differ by a
/// multiple of 64 share a bit, which may change the order found; any order is correct.
#[derive(Clone, Copy)]
struct RowBlocks {
    blocks: u64,
    terms: usize,
}

/// The rank of a row among those left, by which the least comes next: the number of new blocks that it names, then its
/// number of terms.
#[derive(Clone, Copy)]
struct Rank {
    fresh: u32,
    terms: usize,
}

/// The blocks named so far, and the cost so far: the sum over the rows taken of the squared number of blocks named up
/// to each.
#[derive(Clone, Copy)]
struct OrderState {
    seen: u64,
    cost: u64,
}

/// An order of rows, each given by its index, and its cost.
#[derive(Drop)]
struct RowOrder {
    places: Vec<usize>,
    cost: u64,
}

/// The blocks of `each` columns that `row` names, and its number of terms.
fn blocks_of(each: u32, row: &SparseRow) -> RowBlocks {
    let mut blocks: u64 = 0;
    for (column, _) in row.entries() {
        let block = *column / each.max(1);
        blocks |= 1 << (block % 64);
    }
    RowBlocks {
        blocks,
        terms: row.entries().len(),
    }
}

/// `blocks_of` for each of the `rows`.
fn blocks_of_all(alloc: Global, each: u32, rows: &[SparseRow]) -> Result<Vec<RowBlocks>, NoMemory> {
    let mut all = Vec::with_capacity(alloc, rows.len())?;
    for row in rows {
        all.push(blocks_of(each, row))?;
    }
    Ok(all)
}

/// The rank of row `place` when the blocks `seen` are named.
fn rank_of(seen: u64, rows: &[RowBlocks], place: usize) -> Rank {
    match rows.get(place) {
        Some(row) => Rank {
            fresh: (row.blocks & !seen).count_ones(),
            terms: row.terms,
        },
        None => Rank {
            fresh: u32::MAX,
            terms: usize::MAX,
        },
    }
}

/// Whether `one` is less than `other`.
fn is_before(one: Rank, other: Rank) -> bool {
    one.fresh < other.fresh || (one.fresh == other.fresh && one.terms < other.terms)
}

/// The position in `left` of the row of least rank, the first such.
fn first_position(seen: u64, rows: &[RowBlocks], left: &[usize]) -> usize
    requires { 0 < length left.now }
    ensures { result < length left.now }
{
    let mut best = 0;
    let mut least = rank_of(seen, rows, left[0]);
    for (position, place) in left.iter().enumerate() {
        let rank = rank_of(seen, rows, *place);
        if is_before(rank, least) {
            best = position;
            least = rank;
        }
    }
    best
}

/// The position in `left` of the row to take next: `start` for the first row of the order, and after that the row of
/// least rank.
fn next_position(seen: u64, rows: &[RowBlocks], left: &[usize], start: usize) -> usize
    requires { 0 < length left.now }
    ensures { result < length left.now }
{
    if left.len() == rows.len() {
        start.min(left.len() - 1)
    } else {
        first_position(seen, rows, left)
    }
}

/// The state after row `place` is taken; an empty row costs nothing.
fn step(walk: OrderState, rows: &[RowBlocks], place: usize) -> OrderState {
    match rows.get(place) {
        Some(row) if row.terms > 0 => {
            let seen = walk.seen | row.blocks;
            let count = u64::from(seen.count_ones());
            OrderState {
                seen,
                cost: walk.cost.saturating_add(count.saturating_mul(count)),
            }
        }
        _ => walk,
    }
}

/// The greedy order that begins with row `start`, or `None` if it costs at least `cost`.
fn order_from(
    alloc: Global,
    rows: &[RowBlocks],
    start: usize,
    cost: u64,
) -> Result<Option<RowOrder>, NoMemory> {
    let mut left: Vec<usize> = (0..rows.len()).collect(alloc)?;
    let mut places = Vec::with_capacity(alloc, left.len())?;
    let mut walk = OrderState { seen: 0, cost: 0 };
    while !left.is_empty() {
        let position = next_position(walk.seen, rows, &left, start);
        let place = left.remove(position);
        places.push(place)?;
        walk = step(walk, rows, place);
        if walk.cost >= cost {
            return Ok(None);
        }
    }
    Ok(Some(RowOrder {
        places,
        cost: walk.cost,
    }))
}

/// How many rows are tried as the first one.
fn start_count(rows: usize) -> usize {
    if rows <= MOST_STARTS { rows } else { 1 }
}

/// The order that leaves all rows in place, with a cost that any other order beats.
fn unchanged_order(alloc: Global) -> RowOrder {
    RowOrder {
        places: Vec::new(alloc),
        cost: u64::MAX,
    }
}

/// The cheapest of the greedy orders of `rows`, one for each first row that is tried. An order is given up once it
/// costs as much as the best.
fn cheapest(alloc: Global, rows: &[RowBlocks]) -> Result<RowOrder, NoMemory> {
    let mut best = unchanged_order(alloc);
    for start in 0..start_count(rows.len()) {
        if let Some(other) = order_from(alloc, rows, start, best.cost)? {
            best = other;
        }
    }
    Ok(best)
}

/// The `rows`, each in a slot from which it can be taken.
fn slots_of(alloc: Global, rows: Vec<SparseRow>) -> Result<Vec<Option<SparseRow>>, NoMemory>
    ensures { IfOk result (λ slots. slots.items ≡ map (λ row. Some row) rows.items) }
{
    let slots = rows.into_iter().map(Some).collect(alloc)?;
    Ok(slots)
}

/// Moves the row with index `place` from `left` to the end of `ordered`, if it is still there.
fn take_row(
    ordered: &mut Vec<SparseRow>,
    left: &mut [Option<SparseRow>],
    place: usize,
) -> Result<(), NoMemory>
    ensures size { length left.new ≡ length left.old }
    ensures permutation { OnOk result (IsPermutation (ordered.old.items ++ rows_left left.old)
        (ordered.new.items ++ rows_left left.new)) }
{
    if place >= left.len() {
        return Ok(());
    }
    if let Some(row) = left[place].take() {
        ordered.push(row)?;
    }
    Ok(())
}

/// Appends to `ordered` the rows that are `left`.
fn append_left(ordered: &mut Vec<SparseRow>, left: Vec<Option<SparseRow>>) -> Result<(), NoMemory>
    ensures { OnOk result (ordered.new.items ≡ ordered.old.items ++ rows_left left.items) }
{
    for slot in left {
        if let Some(row) = slot {
            ordered.push(row)?;
        }
    }
    Ok(())
}

/// The `rows` in the order of `places`, by their indices. Rows that `places` does not name come last.
fn rows_in_turn(
    alloc: Global,
    rows: Vec<SparseRow>,
    places: &[usize],
) -> Result<Vec<SparseRow>, NoMemory>
    ensures { IfOk result (λ ordered. IsPermutation rows.items ordered.items) }
{
    let mut left = slots_of(alloc, rows)?;
    let mut ordered = Vec::with_capacity(alloc, left.len())?;
    for place in places {
        take_row(&mut ordered, &mut left, *place)?;
    }
    append_left(&mut ordered, left)?;
    Ok(ordered)
}

/// Reorders the rows of `list` so that blocks of `each` columns occur as late as possible: the cheapest of the greedy
/// orders. Any order is correct.
pub(crate) fn in_cheapest_order(
    alloc: Global,
    each: u32,
    list: RowList,
) -> Result<RowList, NoMemory>
    ensures columns { IfOk result (λ ordered. ordered.columns ≡ list.columns) }
    ensures permutation { IfOk result (λ ordered. IsPermutation list.rows.items ordered.rows.items) }
{
    let all = blocks_of_all(alloc, each, &list.rows)?;
    let order = cheapest(alloc, &all)?;
    let RowList { columns, rows } = list;
    let rows = rows_in_turn(alloc, rows, &order.places)?;
    Ok(RowList { columns, rows })
}
