ghost use Rattle.std.specs.Prelude.{◌≡◌, ◌<◌, ◌≤◌, length, IfOk};
ghost use Rattle.std.specs.List.{All};
ghost use Rattle.support_table.specs.Joins.{ArePairsOf};
ghost use Rattle.support_table.specs.Parts.{AreOuters};

use out_of_memory::NoMemory;
use std::alloc::Global;
use std::process::Abort;
use support_bits::Support;
use support_table::{Found, Outer, PartSearch, SupportTable, find_adjacent, joined, union_count};

#[test]
fn joins_both_ways(rt: HostRuntime) -> Result<(), NoMemory> {
    let support = Support::of(rt.alloc(), &[0, 5, 0, 0])?;
    let joined = joined(rt.alloc(), &[(0, 1), (1, 3), (2, 3)], &support)?;
    assert_eq!(rt; joined.words(), &[9u64][..]);
    Ok(())
}

#[test]
fn finds_the_first_inside(rt: HostRuntime) -> Result<(), NoMemory> {
    let a = Support::of(rt.alloc(), &[1, 0, 0])?;
    let b = Support::of(rt.alloc(), &[0, 0, 1])?;
    let other = Support::of(rt.alloc(), &[1, 1, 0])?;
    let mut table = SupportTable::new(rt.alloc(), 3);
    assert_eq!(rt; table.len(), 0);
    table.push(&other)?;
    table.push(&b)?;
    table.push(&other)?;
    table.push(&a)?;
    assert_eq!(rt; table.len(), 4);
    assert!(rt; table.is_covered(3, &a, &b) && !table.is_covered(2, &a, &b));
    assert!(rt; table.is_inside(3, &b, 2) && !table.is_inside(2, &b, 3));
    assert!(rt; table.meets(2, &a) && !table.meets(1, &a));
    assert_eq!(rt; table.union_count(2, &b), 3);
    assert_eq!(rt; table.first_covered(&a, &b, 0), 1);
    assert_eq!(rt; table.first_covered(&a, &b, 2), 3);
    assert_eq!(rt; table.first_covered(&b, &b, 2), 4);
    table.clear();
    assert_eq!(rt; table.len(), 0);
    Ok(())
}

#[test]
fn counts_each_column_once(rt: HostRuntime) -> Result<(), NoMemory> {
    let u = Support::of(rt.alloc(), &[2, 0, 1])?;
    let w = Support::of(rt.alloc(), &[0, 2, 1])?;
    assert_eq!(rt; union_count(u.words(), w.words()), 3);
    assert_eq!(rt; union_count(u.words(), u.words()), 2);
    let none = Support::of(rt.alloc(), &[])?;
    assert_eq!(rt; union_count(none.words(), none.words()), 0);
    let x = vec![in rt.alloc(); 0u128; 65]?;
    let y = vec![in rt.alloc(); 3u128; 65]?;
    let empty = Support::of(rt.alloc(), &x)?;
    let full = Support::of(rt.alloc(), &y)?;
    assert_eq!(rt; union_count(empty.words(), full.words()), 65);
    assert_eq!(rt; union_count(empty.words(), empty.words()), 0);
    Ok(())
}

/// Rays of `columns` columns each, whose supports are the bits of `rows`, and the columns that clash in pairs.
#[derive(Clone, Copy)]
struct Given<'a> {
    columns: u32,
    rows: &'a [u128],
    pairs: &'a [(u32, u32)],
    ghost within: { columns ≤ 128 },
    ghost are_pairs: { ArePairsOf columns pairs.now },
}

/// The columns below `columns` whose bits are set.
fn support_of(alloc: Global, columns: u32, bits: u128) -> Result<Support, NoMemory>
    requires { columns ≤ 128 }
    ensures { IfOk result (λ support. length support ≡ columns) }
{
    let mut support = Support::none(alloc, columns)?;
    for column in 0..columns {
        if (bits >> column) & 1 == 1 {
            support.insert(column);
        }
    }
    Ok(support)
}

/// Ray `place` with the columns that clash with it.
fn outer_of(alloc: Global, given: Given, place: usize, bits: u128) -> Result<Outer, NoMemory>
    ensures place { IfOk result (λ outer. outer.place ≡ place) }
    ensures support { IfOk result (λ outer. length outer.support ≡ given.entry.columns) }
    ensures joined { IfOk result (λ outer. length outer.joined ≡ given.entry.columns) }
{
    let support = support_of(alloc, given.columns, bits)?;
    let joined = joined(alloc, given.pairs, &support)?;
    Ok(Outer {
        place,
        support,
        joined,
    })
}

/// All rays.
fn outers_of(alloc: Global, given: Given) -> Result<Vec<Outer>, NoMemory>
    ensures count { IfOk result (λ outers. length outers.items ≡ length given.entry.rows.now) }
    ensures outers { IfOk result (λ outers. AreOuters given.entry.columns (length given.entry.rows.now) outers.items) }
{
    let mut outers = Vec::new(alloc);
    for (place, bits) in given.rows.iter().enumerate() {
        outers.push(outer_of(alloc, given, place, *bits)?)?;
    }
    Ok(outers)
}

/// The supports of `outers`.
fn table_of(alloc: Global, columns: u32, outers: &[Outer]) -> Result<SupportTable, NoMemory>
    requires { All (λ outer. length outer.support ≡ columns) outers.now }
    ensures columns { IfOk result (λ table. table.columns ≡ columns) }
    ensures count { IfOk result (λ table. length table.supports ≡ length outers.now) }
{
    let mut table = SupportTable::new(alloc, columns);
    for outer in outers {
        table.push(&outer.support)?;
    }
    Ok(table)
}

/// Whether ray `place` is a candidate for adjacency to outer ray `k`.
fn is_candidate(search: PartSearch, k: usize, place: usize) -> bool
    requires k { k < length search.outers.now }
    requires place { place < length search.rays.now.supports }
{
    let table = search.rays;
    let outer = &search.outers[k];
    place != outer.place
        && !table.meets(place, &outer.joined)
        && table.union_count(place, &outer.support) <= search.most
}

/// The candidates for adjacency to outer ray `k`, ascending.
fn candidates_of(alloc: Global, search: PartSearch, k: usize) -> Result<Vec<usize>, NoMemory>
    requires { k < length search.outers.now }
    ensures { IfOk result (λ places. All (λ place. place < length search.entry.rays.now.supports) places.items) }
{
    let table = search.rays;
    let mut places = Vec::new(alloc);
    for place in 0..table.len() {
        if is_candidate(search, k, place) {
            places.push(place)?;
        }
    }
    Ok(places)
}

/// Whether the residual of `place` contains that of no other one of `candidates`.
fn is_alone(search: PartSearch, k: usize, candidates: &[usize], place: usize) -> bool
    requires k { k < length search.outers.now }
    requires candidates { All (λ other. other < length search.rays.now.supports) candidates.now }
    requires place { place < length search.rays.now.supports }
{
    let table = search.rays;
    let outer = &search.outers[k];
    for other in candidates {
        if *other != place && table.is_inside(*other, &outer.support, place) {
            return false;
        }
    }
    true
}

/// Those of them that are `true` in `search.selected` and whose residual contains that of no other.
fn minimal_of(alloc: Global, search: PartSearch, k: usize) -> Result<Vec<usize>, NoMemory>
    requires { k < length search.outers.now }
{
    let candidates = candidates_of(alloc, search, k)?;
    let mut places = Vec::new(alloc);
    for place in &candidates {
        if search.selected[*place] && is_alone(search, k, &candidates, *place) {
            places.push(*place)?;
        }
    }
    Ok(places)
}

/// Asserts that `places` were found for ray `place`.
fn are_found(rt: &impl Abort, found: &[Found], place: usize, places: &[usize]) {
    let list = found.get(place).expect(rt, "an entry");
    let Some(list) = &list.places else {
        panic!(rt; "nothing was looked for");
    };
    assert_eq!(rt; list.as_slice(), places);
}

/// Asserts that `find_adjacent` finds for each ray those that the definition names, and returns them.
fn find_all(
    rt: &impl Abort,
    alloc: Global,
    given: Given,
    selected: &[bool],
    most: u64,
) -> Result<Vec<Found>, NoMemory>
    requires { length selected.now ≡ length given.rows.now }
{
    let outers = outers_of(alloc, given)?;
    let table = table_of(alloc, given.columns, &outers)?;
    let search = PartSearch {
        rays: &table,
        selected,
        outers: &outers,
        most,
    };
    let found = find_adjacent(alloc, search)?;
    for k in 0..outers.len() {
        let places = minimal_of(alloc, search, k)?;
        are_found(rt, &found, k, &places);
    }
    Ok(found)
}

/// Besides the columns of the first ray, the second and third have one more each, the fourth has both, and the last
/// clashes. If the second is not selected, it is left out.
#[test]
fn smallest_with_the_first(rt: HostRuntime) -> Result<(), NoMemory> {
    let alloc = rt.alloc();
    let given = Given {
        columns: 5,
        rows: &[3, 6, 9, 12, 16],
        pairs: &[(0, 4)],
    };
    let found = find_all(&rt, alloc, given, &[true; 5], 5)?;
    are_found(&rt, &found, 0, &[1, 2]);
    let some = find_all(&rt, alloc, given, &[true, false, true, true, true], 5)?;
    are_found(&rt, &some, 0, &[2]);
    Ok(())
}

/// Besides the columns of the first ray, the second and third have one equal column, so neither is minimal. The union
/// with the fourth has more than three columns.
#[test]
fn equal_ones_spoil_each_other(rt: HostRuntime) -> Result<(), NoMemory> {
    let alloc = rt.alloc();
    let given = Given {
        columns: 5,
        rows: &[3, 6, 5, 24],
        pairs: &[],
    };
    let found = find_all(&rt, alloc, given, &[true; 4], 5)?;
    are_found(&rt, &found, 0, &[3]);
    let near = find_all(&rt, alloc, given, &[true; 4], 3)?;
    are_found(&rt, &near, 0, &[]);
    Ok(())
}

/// At most five of the first eight and the last eight of 68 columns, scattered by `seed`.
fn scattered(seed: u64) -> u128 {
    let mixed = seed.wrapping_mul(0x9E3779B97F4A7C15);
    let mixed = (mixed ^ (mixed >> 29)).wrapping_mul(0xC2B2AE3D27D4EB4F);
    let mut bits = 0u128;
    for j in 0..5u32 {
        let n = (mixed >> (8 + 7 * j)) % 16;
        bits |= 1 << if n < 8 { n } else { n + 52 };
    }
    bits
}

/// 300 outer rays are separated by columns, and handled 64 at a time. They have 16 of 68 columns, for which a support
/// needs one word; one more ray has all columns.
#[test]
fn many_at_once(rt: HostRuntime) -> Result<(), NoMemory> {
    let alloc = rt.alloc();
    let mut rows = Vec::new(alloc);
    let mut selected = Vec::new(alloc);
    for seed in 0..300u64 {
        rows.push(scattered(seed + 1))?;
        selected.push(seed % 5 != 0)?;
    }
    let pairs = [(0, 1), (2, 3), (4, 66), (61, 62)];
    let sparse = Given {
        columns: 68,
        rows: &rows,
        pairs: &pairs,
    };
    find_all(&rt, alloc, sparse, &selected, 7)?;
    rows.push((1 << 68) - 1)?;
    selected.push(true)?;
    let full = Given {
        columns: 68,
        rows: &rows,
        pairs: &pairs,
    };
    find_all(&rt, alloc, full, &selected, 7)?;
    Ok(())
}
