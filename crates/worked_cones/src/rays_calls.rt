use cone_arithmetic::Limit;
use cone_core::{MAX_ENTRY, Ray, read_cone};
use double_description::NamedOrder;
use std::test::Fail;
use text_io::Lexer;
use vector_text::{write_entries, write_packed_list, write_vector};
use vertex_enumeration::rays;

#[test]
fn writes_the_rays_of_a_cone(rt: HostRuntime) -> Result<(), Fail> {
    let alloc = rt.alloc();
    let mut lexer = Lexer::new(b"cone 3 1\n1 1 -2");
    assert!(rt; lexer.next_line());
    let system = read_cone(alloc, &mut lexer).ok().ok_or("no cone")?;
    let mut out = Vec::from_slice(alloc, b"# rays 2\n")?;
    match rays(alloc, &system, NamedOrder::GIVEN, Limit::MAX) {
        Ok(found) => write_packed_list(alloc, &found, &mut out)?,
        Err(_) => panic!(rt; "a list was expected"),
    }
    assert_eq!(rt;
        out.as_slice(),
        b"# rays 2\nvec 0 2 1\nvec 2 0 1\n".as_slice()
    );
    write_vector(alloc, &[0, MAX_ENTRY], &mut out)?;
    write_vector(alloc, &[], &mut out)?;
    write_entries(alloc, &Ray::unit(alloc, 3, 1)?, &mut out)?;
    let line =
        b"# rays 2\nvec 0 2 1\nvec 2 0 1\nvec 0 170141183460469231731687303715884105727\nvec\n 0 1 0";
    assert_eq!(rt; out.as_slice(), line.as_slice());
    Ok(())
}
