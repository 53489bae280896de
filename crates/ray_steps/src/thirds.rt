//! The search for a third ray, whose support lies in the union of a pair's.

ghost use Rattle.std.specs.Prelude.{◌≡◌, ◌≢◌, ℕ, ◌<◌, ◌≤◌, ◌↔◌, length, IsTrue, IfSome, IfNone};
ghost use Rattle.ray_steps.specs.CompatibleLists.{IsThirdInside};
ghost use Rattle.ray_steps.specs.Unions.{HasSingle};
ghost use Rattle.support_table.specs.Counts.{columns_in_either};

use crate::compatible_list::CompatibleRays;
use support_bits::Support;
use support_table::union_count;

/// Whether `support` has at most one column.
pub fn is_single(support: &Support) -> bool
    ensures { IsTrue result ↔ columns_in_either support.now support.now ≤ 1 }
{
    let _columns = support.columns();
    union_count(support.words(), support.words()) <= 1
}

/// Whether `a` or `b` has at most one column.
pub fn has_single(a: &Support, b: &Support) -> bool
    ensures { IsTrue result ↔ HasSingle a.now b.now }
{
    is_single(a) || is_single(b)
}

/// Whether `place` is neither `i` nor `j`.
fn is_third(place: usize, i: usize, j: usize) -> bool
    ensures { IsTrue result ↔ ((place ≢ i) × (place ≢ j)) }
{
    place != i && place != j
}

/// Rays `i` and `j` with the supports `a` and `b`, and the rays among which a third ray is looked for. Invariant: all
/// supports have as many columns, and `compatible_list` has a support for each index.
#[derive(Clone, Copy)]
pub struct PairAmong<'a> {
    pub compatible_list: &'a CompatibleRays,
    pub i: usize,
    pub j: usize,
    pub a: &'a Support,
    pub b: &'a Support,
    pub ghost count: { length compatible_list.now.table.supports ≡ length compatible_list.now.places.items },
    pub ghost first: { length a.now ≡ compatible_list.now.table.columns },
    pub ghost second: { length b.now ≡ compatible_list.now.table.columns },
}

/// The index in `pair.compatible_list` of a third ray, whose support lies in the union of those of the pair: `hint` if
/// that is one, or else the first; `None` if there is none.
pub fn third_inside(pair: PairAmong, hint: usize) -> Option<usize>
    ensures some { IfSome result (λ m.
        (m < length pair.entry.compatible_list.now.places.items)
        × IsThirdInside pair.entry.compatible_list.now.places.items pair.entry.compatible_list.now.table.supports
        pair.entry.i pair.entry.j pair.entry.a.now pair.entry.b.now m) }
    ensures none { IfNone result ((m : ℕ) → m < length pair.entry.compatible_list.now.places.items
        → ¬ IsThirdInside pair.entry.compatible_list.now.places.items pair.entry.compatible_list.now.table.supports
        pair.entry.i pair.entry.j pair.entry.a.now pair.entry.b.now m) }
{
    let PairAmong {
        compatible_list,
        i,
        j,
        a,
        b,
    } = pair;
    let places = compatible_list.places.as_slice();
    let table = &compatible_list.table;
    if hint < places.len() && is_third(places[hint], i, j) && table.is_covered(hint, a, b) {
        return Some(hint);
    }
    let mut m = table.first_covered(a, b, 0);
    while m < places.len() {
        if is_third(places[m], i, j) {
            return Some(m);
        }
        m = table.first_covered(a, b, m + 1);
    }
    None
}
