ghost use Rattle.std.specs.Prelude.{◌≡◌, ◌+◌, ◌<◌, ◌≤◌, ◌↔◌, length, IsTrue};
ghost use Rattle.text_definitions.specs.Text.{max_text};
ghost use Rattle.ray_steps.specs.Clashes.{AreClashes, IsClashFree, IsInUnion};
ghost use Rattle.double_description.specs.Orders.{ChoosesBy};

use crate::sample_cones::{are_rays, cone};
use cone_core::{MAX_ENTRY, System};
use double_description::{
    LargeKind, LargeStep, NamedOrder, Order, Permit, Picker, choice, enumerate,
};
use out_of_memory::{Failure, NoMemory};
use std::alloc::Global;
use std::cell::Cell;
use std::process::Abort;
use std::test::Fail;
use support_bits::Support;

/// What an enumeration returns: the vectors of its list, or the one with an entry that exceeds the limit, and the rows
/// up to there, in the order in which they were processed.
#[derive(Drop)]
struct Expected<'a> {
    vectors: &'a [&'a [u128]],
    rows: &'a [u32],
}

/// Without clashing pairs: asserts that the enumeration of the cone `text` by `order` returns `expected`, and returns
/// whether no number exceeds `limit`.
fn rays_are(
    rt: &impl Abort,
    alloc: Global,
    text: &[u8],
    order: NamedOrder,
    limit: u128,
    expected: Expected<'_>,
) -> Result<bool, Fail>
    requires text { length text.now ≤ max_text }
    requires most_limit { limit ≤ MAX_ENTRY }
{
    let system = cone(rt, alloc, text)?;
    let permit = Permit::new(
        Vec::new(alloc),
        system.columns(),
        |_: &Support, _: &Support| true,
    );
    let rule = order.rule;
    let picker = Picker::new(rule, |s: &System, rows: &[u32]| choice(rule, s, rows));
    match enumerate(alloc, &system, &permit, &picker, limit) {
        Ok(rays) => {
            are_rays(rt, &rays.list, expected.vectors);
            assert_eq!(rt; rays.order.as_slice(), expected.rows);
            Ok(true)
        }
        Err(Failure::Fault(LargeStep { order, kind })) => {
            assert_eq!(rt; order.as_slice(), expected.rows);
            match kind {
                LargeKind::Value(x) => are_rays(rt, &[x], expected.vectors),
                LargeKind::Pair(u, w) => are_rays(rt, &[u, w], expected.vectors),
            }
            Ok(false)
        }
        Err(Failure::NoMemory) => Err(NoMemory)?,
    }
}

#[test]
fn small_cones(rt: HostRuntime) -> Result<(), Fail> {
    let alloc = rt.alloc();
    let one = b"cone 2 1\n2 -1";
    assert!(rt;
        rays_are(
            &rt,
            alloc,
            one,
            NamedOrder::GIVEN,
            MAX_ENTRY,
            Expected {
                vectors: &[&[1, 2]],
                rows: &[0]
            }
        )?
    );
    assert!(rt;
        !rays_are(
            &rt,
            alloc,
            one,
            NamedOrder::GIVEN,
            1,
            Expected {
                vectors: &[&[1, 0]],
                rows: &[0]
            }
        )?
    );
    let two = b"cone 3 2\n1 -2 0\n0 1 -2";
    assert!(rt;
        rays_are(
            &rt,
            alloc,
            two,
            NamedOrder::ZEROS,
            4,
            Expected {
                vectors: &[&[4, 2, 1]],
                rows: &[1, 0]
            }
        )?
    );
    assert!(rt;
        !rays_are(
            &rt,
            alloc,
            two,
            NamedOrder::GIVEN,
            2,
            Expected {
                vectors: &[&[2, 1, 0], &[0, 0, 1]],
                rows: &[0, 1]
            }
        )?
    );
    assert!(rt;
        !rays_are(
            &rt,
            alloc,
            two,
            NamedOrder::ZEROS,
            2,
            Expected {
                vectors: &[&[0, 2, 1]],
                rows: &[1, 0]
            }
        )?
    );
    let short = b"cone 3 2\n1 1 -1\n2 -1 0";
    assert!(rt;
        !rays_are(
            &rt,
            alloc,
            short,
            NamedOrder::SHORT,
            1,
            Expected {
                vectors: &[&[1, 0, 0]],
                rows: &[1]
            }
        )?
    );
    assert!(rt;
        !rays_are(
            &rt,
            alloc,
            short,
            NamedOrder::GIVEN,
            1,
            Expected {
                vectors: &[&[1, 0, 1]],
                rows: &[0, 1]
            }
        )?
    );
    Ok(())
}

fn is_in_union(a: &Support, b: &Support, column: u32) -> bool
    requires first { column < length a.now }
    requires second { column < length b.now }
    ensures { IsTrue result ↔ IsInUnion a.now b.now column }
{
    a.contains(column) || b.contains(column)
}

fn is_clash_free(clashes: &[(u32, u32)], a: &Support, b: &Support) -> bool
    requires lengths { length b.now ≡ length a.now }
    requires clashes { AreClashes (length a.now) clashes.now }
    ensures { IsTrue result ↔ IsClashFree clashes.now a.now b.now }
{
    for (first, second) in clashes {
        if is_in_union(a, b, *first) && is_in_union(a, b, *second) {
            return false;
        }
    }
    true
}

/// The six rows of a table in standard coordinates, with its three clashing pairs; how often the test is called.
fn surfaces_are<G: Fn(&System, &[u32]) -> usize>(
    rt: &impl Abort,
    alloc: Global,
    text: &[u8],
    picker: &Picker<G>,
    vectors: &[&[u128]],
    rows: &[u32],
) -> Result<u64, Fail>
    requires text { length text.now ≤ max_text }
    requires chooses { ChoosesBy picker.now.order (G.pre picker.now.choose) (G.post picker.now.choose) }
{
    let system = cone(rt, alloc, text)?;
    assert_eq!(rt; system.columns(), 7);
    let pairs = [(4, 5), (4, 6), (5, 6)];
    let asked = Cell::new(0u64);
    let permit = Permit::new(
        Vec::from_slice(alloc, &pairs)?,
        7,
        |a: &Support, b: &Support| -> bool
            requires lengths { length b.now ≡ length a.now }
            requires clashes { AreClashes (length a.now) pairs }
            ensures { IsTrue result ↔ IsClashFree pairs a.now b.now }
        {
            asked.set(asked.get().wrapping_add(1));
            is_clash_free(&pairs, a, b)
        },
    );
    match enumerate(alloc, &system, &permit, picker, MAX_ENTRY) {
        Ok(rays) => {
            are_rays(rt, &rays.list, vectors);
            assert_eq!(rt; rays.order.as_slice(), rows);
        }
        Err(_) => panic!(rt; "a list was expected"),
    }
    Ok(asked.get())
}

#[test]
fn surfaces_of_one_tetrahedron(rt: HostRuntime) -> Result<(), Fail> {
    let alloc = rt.alloc();
    let sphere =
        b"cone 7 6\n-1 1 0 0 0 0 0\n0 0 0 0 0 1 -1\n0 0 0 0 0 -1 1\n1 -1 0 0 0 0 0\n0 1 -1 0 -1 0 1\n-1 0 0 1 1 0 -1";
    let given = Picker::new(Order::Given, |s: &System, rows: &[u32]| {
        choice(Order::Given, s, rows)
    });
    let asked = surfaces_are(
        &rt,
        alloc,
        sphere,
        &given,
        &[&[1, 1, 0, 0, 1, 0, 0], &[1, 1, 1, 1, 0, 0, 0]],
        &[0, 1, 2, 3, 4, 5],
    )?;
    assert!(rt; asked != 0);
    let equal =
        b"cone 7 6\n-1 1 0 0 0 0 0\n0 0 0 0 0 1 -1\n0 0 0 0 0 -1 1\n0 0 0 0 0 1 -1\n0 0 0 0 0 -1 1\n0 0 -1 1 0 0 0";
    let last = Picker::new(
        Order::Free,
        |_: &System, rows: &[u32]| -> usize
            requires { 0 < length rows.now }
            ensures { result + 1 ≡ length rows.now }
        { rows.len() - 1 },
    );
    surfaces_are(
        &rt,
        alloc,
        equal,
        &last,
        &[
            &[0, 0, 0, 0, 1, 0, 0],
            &[0, 0, 1, 1, 0, 0, 0],
            &[1, 1, 0, 0, 0, 0, 0],
        ],
        &[5, 4, 3, 2, 1, 0],
    )?;
    Ok(())
}
