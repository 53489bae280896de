use finite_walks::{classes, component, mark_joined, orbit};
use std::test::Fail;

#[test]
fn walks_return_or_end(rt: HostRuntime) -> Result<(), Fail> {
    let next = [Some(2), None, Some(4), Some(1), Some(0), Some(3)];
    assert_eq!(rt;
        orbit(rt.alloc(), &next, 2)?.as_slice(),
        [2, 4, 0].as_slice()
    );
    assert_eq!(rt;
        orbit(rt.alloc(), &next, 5)?.as_slice(),
        [5, 3, 1].as_slice()
    );
    assert_eq!(rt; orbit(rt.alloc(), &next, 1)?.as_slice(), [1].as_slice());
    Ok(())
}

#[test]
fn joined_numbers_are_marked(rt: HostRuntime) -> Result<(), Fail> {
    let neighbours = [
        [Some(1), None, Some(1), Some(0)],
        [None, Some(3), None, Some(0)],
        [Some(2), None, None, Some(0)],
        [None, None, None, None],
    ];
    let from_first = mark_joined(rt.alloc(), &neighbours, 0)?;
    assert_eq!(rt; from_first.as_slice(), [true, true, false, true].as_slice());
    let from_last = mark_joined(rt.alloc(), &neighbours, 3)?;
    assert_eq!(rt;
        from_last.as_slice(),
        [false, false, false, true].as_slice()
    );
    Ok(())
}

#[test]
fn components_are_listed(rt: HostRuntime) -> Result<(), Fail> {
    let neighbours = [
        [Some(3), None, Some(2), None],
        [None, None, None, None],
        [Some(0), Some(2), None, None],
        [None, Some(0), None, Some(4)],
        [Some(3), None, None, None],
    ];
    let mut marked = [false, true, false, false, false];
    let members = component(rt.alloc(), &neighbours, &mut marked, 3)?;
    assert_eq!(rt; members.as_slice(), [3, 0, 4, 2].as_slice());
    assert_eq!(rt; marked, [true, true, true, true, true]);
    let numbering = classes(rt.alloc(), &neighbours)?;
    assert_eq!(rt; numbering.classes.as_slice(), [0, 1, 0, 0, 0].as_slice());
    assert_eq!(rt; numbering.count, 2);
    Ok(())
}

#[test]
fn rows_of_another_length_are_numbered(rt: HostRuntime) -> Result<(), Fail> {
    let neighbours = [[Some(2), None], [None, None], [None, Some(0)]];
    let numbering = classes(rt.alloc(), &neighbours)?;
    assert_eq!(rt; numbering.classes.as_slice(), [0, 1, 0].as_slice());
    assert_eq!(rt; numbering.count, 2);
    Ok(())
}
