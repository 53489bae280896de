use crate::sample_tables::{BALL, read_table, table_of};
use canonical_labelling::{NotConnected, SameFault, Start, lesser, same, signature};
use gluing_table::{Probe, Relabelling, Table};
use out_of_memory::Failure;
use perm_four::Perm4;
use std::alloc::Global;
use std::test::Fail;

#[test]
fn worked_tables_have_their_signatures(rt: HostRuntime) -> Result<(), Fail> {
    let worked: [(&[u8], &[u8]); 5] = [
        (b"a", b"a"),
        (b"bkaagj", b"bkaagj"),
        (b"bkaagn", b"bkaagj"),
        (b"bkaagb", b"bkaagb"),
        (b"cPcbbbiht", b"cPcbbbiht"),
    ];
    for (text, least) in worked {
        let table = read_table(rt.alloc(), text)?;
        let text = signature(rt.alloc(), &table).ok().ok_or("no text")?;
        assert_eq!(rt; text.as_slice(), least);
    }
    Ok(())
}

fn relabelling_of(
    alloc: Global,
    first: &Table,
    second: &Table,
) -> Result<Option<Relabelling>, Fail> {
    Ok(same(alloc, first, second).ok().ok_or("no verdict")?)
}

#[test]
fn the_first_relabelling_is_reported(rt: HostRuntime) -> Result<(), Fail> {
    let first = read_table(rt.alloc(), b"bkaagn")?;
    let second = read_table(rt.alloc(), b"bkaagj")?;
    let other = read_table(rt.alloc(), b"bkaagb")?;
    let empty = read_table(rt.alloc(), b"a")?;
    let Ok(Some(by)) = same(rt.alloc(), &first, &second) else {
        panic!(rt; "a relabelling was expected");
    };
    assert_eq!(rt; by.len(), 1);
    assert_eq!(rt; by.image(0), 0);
    assert_eq!(rt; by.perm(0).word().as_slice(), b"0132".as_slice());
    assert!(rt; relabelling_of(rt.alloc(), &first, &other)?.is_none());
    assert!(rt; relabelling_of(rt.alloc(), &first, &empty)?.is_none());
    assert!(rt; relabelling_of(rt.alloc(), &empty, &empty)?.is_some());
    Ok(())
}

#[test]
fn disconnected_tables_are_refused(rt: HostRuntime) -> Result<(), Fail> {
    let disconnected = table_of(&rt, rt.alloc(), &[BALL, BALL]);
    let one = read_table(rt.alloc(), b"bkaagj")?;
    assert!(rt;
        matches!(
            signature(rt.alloc(), &disconnected),
            Err(Failure::Fault(NotConnected { tet: 1 }))
        )
    );
    assert!(rt;
        matches!(
            same(rt.alloc(), &disconnected, &one),
            Err(SameFault::First { tet: 1 })
        )
    );
    assert!(rt;
        matches!(
            same(rt.alloc(), &one, &disconnected),
            Err(SameFault::Second { tet: 1 })
        )
    );
    Ok(())
}

#[test]
fn walks_are_compared_with_a_bound(rt: HostRuntime) -> Result<(), Fail> {
    // the table, the bound, whether the text is less than it, and the greatest number of faces read
    let compared: [(&[u8], &[u8], bool, u64); 9] = [
        (b"bkaagn", b"bkaagj", false, 4),
        (b"bkaagn", b"bkaagn", false, 4),
        (b"bkaagn", b"bkaagz", true, 4),
        (b"bkaagn", b"bkaagnn", true, 4),
        (b"bkaagn", b"bkaag", false, 4),
        (b"bkaagn", b"c", true, 0),
        (b"bkaagn", b"", false, 0),
        (b"cPcbbbiht", b"cA", false, 3),
        (b"cPcbbbiht", b"b", false, 0),
    ];
    for (text, bound, before, most) in compared {
        let table = read_table(rt.alloc(), text)?;
        assert!(rt; table.len() > 0);
        let mut probe = Probe::new(&table);
        let start = Start {
            tet: 0,
            perm: Perm4::of_index(0).expect(&rt, "the identity"),
        };
        assert_eq!(rt; lesser(rt.alloc(), &mut probe, start, bound)?, before);
        assert!(rt; probe.taken() <= most);
    }
    Ok(())
}
