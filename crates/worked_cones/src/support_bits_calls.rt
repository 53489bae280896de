use out_of_memory::NoMemory;
use std::alloc::Global;
use support_bits::Support;

fn large(alloc: Global) -> Result<Vec<u128>, NoMemory> {
    let mut x = vec![in alloc; 0u128; 65]?;
    for i in [0usize, 63, 64] {
        if i < x.len() {
            x[i] = 7;
        }
    }
    Ok(x)
}

#[test]
fn keeps_columns_as_words(rt: HostRuntime) -> Result<(), NoMemory> {
    let x = large(rt.alloc())?;
    assert_eq!(rt; x.len(), 65);
    let support = Support::of(rt.alloc(), &x)?;
    assert_eq!(rt; support.words(), &[9223372036854775809u64, 1][..]);
    assert_eq!(rt; support.columns(), 65);
    let none = Support::of(rt.alloc(), &[])?;
    assert_eq!(rt; none.words().len(), 0);
    assert_eq!(rt; none.columns(), 0);
    Ok(())
}

#[test]
fn distinguishes_supports(rt: HostRuntime) -> Result<(), NoMemory> {
    let a = Support::of(rt.alloc(), &[1, 2, 0])?;
    let b = Support::of(rt.alloc(), &[0, 0, 5])?;
    let c = Support::of(rt.alloc(), &[3, 0, 4])?;
    assert!(rt; a.same(&a) && !a.same(&b));
    assert!(rt; c.inside_union(&a, &b) && !c.inside_union(&a, &a));
    assert!(rt; a.meets(&c) && !a.meets(&b));
    assert!(rt; a.contains(1) && !a.contains(2));
    Ok(())
}
