use crate::sample_cones::is_ray;
use cone_core::{
    CombineFault, ConeFault, MAX_ENTRY, PackedRay, Passed, Ray, SolutionFault, SparseRow, System,
    combine, compare, gcd, is_solution, read_cone,
};
use std::cmp::Ordering;
use std::test::Fail;
use text_io::{LexKind, Lexer};

#[test]
fn divides(rt: HostRuntime) {
    for (a, b, divisor) in [(0, 0, 0), (MAX_ENTRY, 0, MAX_ENTRY), (12, 18, 6), (5, 7, 1)] {
        assert_eq!(rt; gcd(a, b), divisor);
    }
    for (a, b, divisor) in [
        (18446744073709551615, 18446744073709551616, 1),
        (
            18446744073709551616,
            55340232221128654848,
            18446744073709551616,
        ),
        (
            110680464442257309690,
            73786976294838206460,
            36893488147419103230,
        ),
    ] {
        assert_eq!(rt; gcd(a, b), divisor);
    }
}

#[test]
fn compares_rays(rt: HostRuntime) -> Result<(), Fail> {
    let alloc = rt.alloc();
    let one = Ray::unit(alloc, 2, 0)?;
    let other = Ray::unit(alloc, 2, 1)?;
    let longer = Ray::unit(alloc, 3, 0)?;
    let steep = combine(alloc, &one, &other, 1, 18446744073709551616, MAX_ENTRY)
        .ok()
        .ok_or("too large")?;
    is_ray(&rt, &steep, &[18446744073709551616, 1]);
    assert_eq!(rt; one.compare(&other), Ordering::Greater);
    assert_eq!(rt; one.compare(&longer), Ordering::Less);
    assert_eq!(rt; one.compare(&steep), Ordering::Less);
    assert_eq!(rt; steep.compare(&other), Ordering::Greater);
    assert_eq!(rt; steep.compare(&steep), Ordering::Equal);
    assert_eq!(rt; compare(&[1, 0], &[1, 0, 0]), Ordering::Less);
    Ok(())
}

#[test]
fn raises_rays(rt: HostRuntime) -> Result<(), Fail> {
    let alloc = rt.alloc();
    let small = PackedRay::unit(alloc, 3, 0)?.with_new_entry(alloc, 1, 18446744073709551615)?;
    is_ray(&rt, &small.to_ray(alloc)?, &[1, 18446744073709551615, 0]);
    let large = PackedRay::unit(alloc, 3, 0)?.with_new_entry(alloc, 1, MAX_ENTRY)?;
    is_ray(&rt, &large.to_ray(alloc)?, &[1, MAX_ENTRY, 0]);
    let larger = large.with_new_entry(alloc, 2, 7)?;
    is_ray(&rt, &larger.into_ray(alloc)?, &[1, MAX_ENTRY, 7]);
    Ok(())
}

#[test]
fn combines_rays(rt: HostRuntime) -> Result<(), Fail> {
    let alloc = rt.alloc();
    let first = Ray::unit(alloc, 3, 0)?;
    let second = Ray::unit(alloc, 3, 1)?;
    let third = Ray::unit(alloc, 3, 2)?;
    let Ok(two) = combine(alloc, &first, &second, 1, 2, MAX_ENTRY) else {
        panic!(rt; "too large");
    };
    let Ok(four) = combine(alloc, &two, &third, 1, 2, 4) else {
        panic!(rt; "too large");
    };
    let passed = combine(alloc, &two, &third, 1, 2, 3);
    assert!(rt; matches!(passed, Err(CombineFault::Passed { column: 0 })));
    is_ray(&rt, &two, &[2, 1, 0]);
    is_ray(&rt, &four.copy(alloc)?, &[4, 2, 1]);
    Ok(())
}

#[test]
fn takes_common_divisors_out(rt: HostRuntime) -> Result<(), Fail> {
    let alloc = rt.alloc();
    let one = Ray::unit(alloc, 2, 0)?;
    let other = Ray::unit(alloc, 2, 1)?;
    let Ok(steep) = combine(alloc, &one, &other, 2, 1, 2) else {
        panic!(rt; "too large");
    };
    let Ok(reduced) = combine(alloc, &one, &steep, 1, 1, 2) else {
        panic!(rt; "too large");
    };
    is_ray(&rt, &steep, &[1, 2]);
    is_ray(&rt, &reduced, &[1, 1]);
    Ok(())
}

#[test]
fn combines_rays_exceeding_64_bits(rt: HostRuntime) -> Result<(), Fail> {
    let alloc = rt.alloc();
    let one = Ray::unit(alloc, 2, 0)?;
    let other = Ray::unit(alloc, 2, 1)?;
    let (below, exceeded) = (18446744073709551615, 18446744073709551616);
    let large = combine(alloc, &one, &other, below, exceeded, MAX_ENTRY)
        .ok()
        .ok_or("too large")?;
    is_ray(&rt, &large, &[exceeded, below]);
    let passed = combine(alloc, &one, &other, exceeded, below, below);
    assert!(rt; matches!(passed, Err(CombineFault::Passed { column: 1 })));
    let (first, second) = (1180591620717411303423, 5902958103587056517120);
    let steep = combine(alloc, &one, &other, second, first, MAX_ENTRY)
        .ok()
        .ok_or("too large")?;
    is_ray(&rt, &steep, &[first, second]);
    let reduced = combine(alloc, &one, &steep, 1, 1, MAX_ENTRY)
        .ok()
        .ok_or("too large")?;
    is_ray(&rt, &reduced, &[1, 5]);
    Ok(())
}

#[test]
fn rows_are_kept(rt: HostRuntime) -> Result<(), Fail> {
    let alloc = rt.alloc();
    let nine = [
        (0, 1),
        (1, -1),
        (2, 2),
        (3, -3),
        (4, 5),
        (5, -8),
        (6, 13),
        (7, -21),
        (9, 34),
    ];
    let mut system = System::new(alloc, 10);
    assert_eq!(rt; system.columns(), 10);
    assert_eq!(rt; system.len(), 0);
    system.push_row(SparseRow::new(alloc, &[(0, 2), (1, -1)])?)?;
    system.push_row(SparseRow::new(alloc, &nine)?)?;
    assert_eq!(rt; system.len(), 2);
    assert_eq!(rt; system.row(0).entries(), [(0, 2), (1, -1)].as_slice());
    assert_eq!(rt; system.row(1).entries(), nine.as_slice());
    Ok(())
}

#[test]
fn reads_cones(rt: HostRuntime) -> Result<(), Fail> {
    let alloc = rt.alloc();
    let mut lexer = Lexer::new(b"cone 3 2\n1 -2 0\n0 0 0");
    assert!(rt; lexer.next_line());
    let system = read_cone(alloc, &mut lexer).ok().ok_or("no cone")?;
    assert_eq!(rt; system.columns(), 3);
    assert_eq!(rt; system.len(), 2);
    assert_eq!(rt; system.row(0).entries(), [(0, 1), (1, -2)].as_slice());
    assert_eq!(rt; system.row(1).entries().len(), 0);
    assert!(rt; is_solution(&system, &[2, 1, 5]).is_ok());
    let other = is_solution(&system, &[1, 1, 0]);
    assert!(rt; matches!(other, Err(SolutionFault::NotZero { row: 0 })));
    let large = is_solution(&system, &[0, MAX_ENTRY, 0]);
    assert!(rt; matches!(large, Err(SolutionFault::Passed { row: 0 })));
    let mut lexer = Lexer::new(b"cone 0 3");
    assert!(rt; lexer.next_line());
    let rows = read_cone(alloc, &mut lexer).ok().ok_or("no cone")?;
    assert_eq!(rt; rows.len(), 3);
    let mut lexer = Lexer::new(b"cone 1 1\n1000001");
    assert!(rt; lexer.next_line());
    match read_cone(alloc, &mut lexer) {
        Err(ConeFault::Lex(fault)) => {
            let reported = (fault.place.line, fault.place.column, fault.kind);
            assert!(rt; reported == (2, 1, LexKind::NumberTooWide));
        }
        _ => panic!(rt; "a fault was expected"),
    }
    Ok(())
}
