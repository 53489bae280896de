//! Makes rows sparser: a row is replaced by its sum or difference with another if that has fewer terms.

ghost use Rattle.std.specs.Prelude.{◌≡◌, ◌+◌, ◌<◌, ◌≢◌, ◌≤◌, ◌⊎◌, pos, negsuc, length, count_by, IfSome, IfOk, OnOk, IfErr};
ghost use Rattle.cone_row_laws.specs.Solutions.{HaveSameZeros};
ghost use Rattle.row_reduction.specs.Merging.{IsCoefficientSum};
ghost use Rattle.row_reduction.specs.Eliminating.{CancelsTerm, is_shared, is_cancelled, Thins, AreThinned};
ghost use Rattle.row_reduction.specs.Passing.{PassesThinned, IfPassed};

use crate::clear::sum_at;
use crate::fault::SolveFault;
use crate::rows::RowList;
use std::alloc::Global;

/// The greatest number of passes over all pairs of rows.
const PASSES: u32 = 20;

/// The numbers of columns at which two rows have equal coefficients, opposite ones, and any.
#[derive(Clone, Copy)]
struct SharedColumns {
    same: usize,
    opposite: usize,
    any: usize,
}

/// The index of the first term from `from` on whose column is at least `column`.
fn place_from(terms: &[(u32, i32)], from: usize, column: u32) -> usize
    requires { from ≤ length terms.now }
    ensures { result ≤ length terms.now }
{
    let mut place = from;
    while place < terms.len() && terms[place].0 < column {
        place += 1;
    }
    place
}

/// `shared` with one more common column, at which the rows have the coefficients `one` and `other`.
fn with_column(shared: SharedColumns, one: i32, other: i32) -> SharedColumns
    ensures any { result.any ≤ shared.any + 1 }
    ensures same { (result.same ≤ shared.same)
        ⊎ ((result.same ≤ shared.same + 1) × IsCoefficientSum one (negsuc 0) other (pos 0)) }
    ensures opposite { (result.opposite ≤ shared.opposite)
        ⊎ ((result.opposite ≤ shared.opposite + 1) × IsCoefficientSum one (pos 1) other (pos 0)) }
{
    SharedColumns {
        same: shared.same.saturating_add(usize::from(one == other)),
        opposite: shared
            .opposite
            .saturating_add(usize::from(i64::from(one) + i64::from(other) == 0)),
        any: shared.any.saturating_add(1),
    }
}

/// Counts the columns that `row` and `other` have in common.
fn shared_columns(row: &[(u32, i32)], other: &[(u32, i32)]) -> SharedColumns
    ensures same { 0 < result.same → CancelsTerm row.now (negsuc 0) other.now }
    ensures opposite { 0 < result.opposite → CancelsTerm row.now (pos 1) other.now }
    ensures any_shared { result.any ≤ count_by (is_shared other.now) row.now }
    ensures same_cancelled { result.same ≤ count_by (is_cancelled (negsuc 0) other.now) row.now }
    ensures opposite_cancelled { result.opposite ≤ count_by (is_cancelled (pos 1) other.now) row.now }
{
    let mut shared = SharedColumns {
        same: 0,
        opposite: 0,
        any: 0,
    };
    let mut place = 0;
    for (column, coefficient) in row {
        place = place_from(other, place, *column);
        if place < other.len() && other[place].0 == *column {
            shared = with_column(shared, *coefficient, other[place].1);
        }
    }
    shared
}

/// The factor, 1 or -1, with which adding `other` leaves `row` with fewer terms; `None` if neither does.
fn thinning_factor(row: &[(u32, i32)], other: &[(u32, i32)]) -> Option<i32>
    ensures { IfSome result (λ factor. Thins row.now factor other.now) }
{
    let shared = shared_columns(row, other);
    let taken = shared.opposite.max(shared.same);
    if taken == 0 || shared.any.saturating_add(taken) <= other.len() {
        None
    } else if shared.opposite >= shared.same {
        Some(1)
    } else {
        Some(-1)
    }
}

/// Whether row `i` became sparser in pass `pass` or in the one before.
fn is_recent(passes: &[u32], i: usize, pass: u32) -> bool {
    match passes.get(i) {
        Some(last) => pass <= last.saturating_add(1),
        None => true,
    }
}

/// Records that row `i` became sparser in pass `pass`.
fn note(passes: &mut [u32], i: usize, pass: u32) {
    if i < passes.len() {
        passes[i] = pass;
    }
}

/// Rows that are made sparser in passes: `passes[i]` is the last pass in which row `i` became sparser, 0 if there is
/// none, and `pass` the number of the current pass.
#[derive(Drop)]
struct Thinning {
    list: RowList,
    passes: Vec<u32>,
    pass: u32,
}

impl Thinning {
    /// Whether row `i` or row `j` may have changed since this pair was tried last.
    fn may_have_changed(&self, i: usize, j: usize) -> bool {
        is_recent(&self.passes, i, self.pass) || is_recent(&self.passes, j, self.pass)
    }

    /// Makes row `i` sparser by row `j` if that leaves fewer terms, and returns whether it did. Fails with `Passed` if a
    /// coefficient exceeds 1,000,000.
    fn sparsify_by(&mut self, alloc: Global, i: usize, j: usize) -> Result<bool, SolveFault>
        requires place { i < length self.old.list.rows.items }
        requires other_place { j < length self.old.list.rows.items }
        requires separate { i ≢ j }
        ensures columns { OnOk result (self.new.list.columns ≡ self.old.list.columns) }
        ensures count { OnOk result (length self.new.list.rows.items ≡ length self.old.list.rows.items) }
        ensures same { OnOk result (HaveSameZeros self.old.list.rows.items self.new.list.rows.items) }
        ensures thinned { OnOk result (AreThinned self.old.list.rows.items self.new.list.rows.items) }
        ensures passed { IfErr result (IfPassed (PassesThinned self.old.list.rows.items)) }
    {
        let list = &mut self.list;
        match thinning_factor(list.rows[i].entries(), list.rows[j].entries()) {
            Some(factor) => {
                let sum = sum_at(alloc, list, i, factor, &list.rows[j])?;
                list.rows[i] = sum;
                note(&mut self.passes, i, self.pass);
                Ok(true)
            }
            None => Ok(false),
        }
    }

    /// Makes row `i` sparser by each other row, and returns whether it changed. Fails as `sparsify_by`.
    fn sparsify_row(&mut self, alloc: Global, i: usize) -> Result<bool, SolveFault>
        requires { i < length self.old.list.rows.items }
        ensures columns { OnOk result (self.new.list.columns ≡ self.old.list.columns) }
        ensures count { OnOk result (length self.new.list.rows.items ≡ length self.old.list.rows.items) }
        ensures same { OnOk result (HaveSameZeros self.old.list.rows.items self.new.list.rows.items) }
        ensures thinned { OnOk result (AreThinned self.old.list.rows.items self.new.list.rows.items) }
        ensures passed { IfErr result (IfPassed (PassesThinned self.old.list.rows.items)) }
    {
        let mut thinner = false;
        for j in 0..self.list.rows.len() {
            if j != i && self.may_have_changed(i, j) {
                thinner |= self.sparsify_by(alloc, i, j)?;
            }
        }
        Ok(thinner)
    }

    /// One pass: makes each row sparser by all others, and returns whether a row changed. Fails as `sparsify_by`.
    fn sparsify_pass(&mut self, alloc: Global) -> Result<bool, SolveFault>
        ensures columns { OnOk result (self.new.list.columns ≡ self.old.list.columns) }
        ensures same { OnOk result (HaveSameZeros self.old.list.rows.items self.new.list.rows.items) }
        ensures thinned { OnOk result (AreThinned self.old.list.rows.items self.new.list.rows.items) }
        ensures passed { IfErr result (IfPassed (PassesThinned self.old.list.rows.items)) }
    {
        let mut thinner = false;
        for i in 0..self.list.rows.len() {
            thinner |= self.sparsify_row(alloc, i)?;
        }
        Ok(thinner)
    }
}

/// Rows that were made sparser, and whether one of them changed.
#[derive(Drop)]
pub(crate) struct Thinned {
    pub list: RowList,
    pub is_changed: bool,
}

/// Makes the rows of `list` sparser, in passes, until a pass changes nothing or `PASSES` are done. Fails with `Passed`
/// if a coefficient exceeds 1,000,000.
pub(crate) fn sparsify(alloc: Global, list: RowList) -> Result<Thinned, SolveFault>
    ensures columns { IfOk result (λ thinned. thinned.list.columns ≡ list.columns) }
    ensures same { IfOk result (λ thinned. HaveSameZeros list.rows.items thinned.list.rows.items) }
    ensures thinned { IfOk result (λ thinned. AreThinned list.rows.items thinned.list.rows.items) }
    ensures passed { IfErr result (IfPassed (PassesThinned list.rows.items)) }
{
    let passes = vec![in alloc; 0u32; list.rows.len()]?;
    let mut thinning = Thinning {
        list,
        passes,
        pass: 0,
    };
    let mut is_changed = false;
    for pass in 0..PASSES {
        thinning.pass = pass + 1;
        if !thinning.sparsify_pass(alloc)? {
            break;
        }
        is_changed = true;
    }
    let Thinning { list, .. } = thinning;
    Ok(Thinned { list, is_changed })
}
