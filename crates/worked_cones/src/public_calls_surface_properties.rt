//! The calls of `surface_properties`, each once with its type.
use matching_equations::Coords;
use skeleton::Skeleton;
use surface_properties::{Properties, PropertyFault, Sum, properties_of};

#[test]
fn calls_have_their_types(rt: HostRuntime) {
    let _properties_of: fn(&Skeleton, Coords, &[u128]) -> Result<Properties, PropertyFault> =
        properties_of;
    let fault = PropertyFault::Large { sum: Sum::Arcs };
    assert!(rt; matches!(fault, PropertyFault::Large { sum: Sum::Arcs }));
}
