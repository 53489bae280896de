use crate::sample_tables::{BALL, read_table, table_of};
use out_of_memory::Failure;
use signature_census::{Census, NotConnected};
use std::test::Fail;

#[test]
fn classes_are_numbered_as_they_are_visited(rt: HostRuntime) -> Result<(), Fail> {
    let mut census = Census::new(rt.alloc());
    let worked: [(&[u8], u32); 5] = [
        (b"bkaagn", 0),
        (b"bkaagb", 1),
        (b"bkaagj", 0),
        (b"a", 2),
        (b"bkaagb", 1),
    ];
    for (text, class) in worked {
        let table = read_table(rt.alloc(), text)?;
        assert!(rt; census.len() <= 3);
        assert_eq!(rt; census.add(&table).ok(), Some(class));
    }
    assert_eq!(rt; census.len(), 3);
    assert_eq!(rt; census.signature_of(0), b"bkaagj".as_slice());
    assert_eq!(rt; census.signature_of(1), b"bkaagb".as_slice());
    assert_eq!(rt; census.signature_of(2), b"a".as_slice());
    Ok(())
}

#[test]
fn disconnected_tables_are_refused(rt: HostRuntime) -> Result<(), Fail> {
    let mut census = Census::new(rt.alloc());
    let disconnected = table_of(&rt, rt.alloc(), &[BALL, BALL]);
    let added = census.add(&disconnected);
    assert!(rt; matches!(added, Err(Failure::Fault(NotConnected { tet: 1 }))));
    assert_eq!(rt; census.len(), 0);
    Ok(())
}
