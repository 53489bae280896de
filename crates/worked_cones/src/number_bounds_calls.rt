use cone_core::{SparseRow, System};
use number_bounds::{column_squares, columns_fit, greatest_size, is_product_within};

#[test]
fn squares_and_sizes(rt: HostRuntime) {
    let alloc = rt.alloc();
    let mut system = System::new(alloc, 3);
    let one = SparseRow::new(alloc, &[(0, 2), (2, -3)]).expect(&rt, "a row");
    system.push_row(one).expect(&rt, "room");
    let other = SparseRow::new(alloc, &[(1, -1), (2, 7)]).expect(&rt, "a row");
    system.push_row(other).expect(&rt, "room");
    match column_squares(alloc, &system) {
        Ok(Some(squares)) => assert!(&rt; squares[..] == [4, 1, 58]),
        _ => assert!(&rt; false),
    }
    assert_eq!(&rt; greatest_size(&system), Some(8));
    assert!(&rt; is_product_within(8, 256, 2048));
    assert!(&rt; !is_product_within(8, 256, 2047));
}

#[test]
fn columns_by_themselves(rt: HostRuntime) {
    let alloc = rt.alloc();
    let mut system = System::new(alloc, 3);
    let one = SparseRow::new(alloc, &[(0, 2), (2, -3)]).expect(&rt, "a row");
    system.push_row(one).expect(&rt, "room");
    // size 5, sums of squares 4, 0 and 9
    assert_eq!(&rt; columns_fit(alloc, &system, 180).ok(), Some(true));
    assert_eq!(&rt; columns_fit(alloc, &system, 179).ok(), Some(false));
}
