//! Writes the description of a vector.
ghost use Rattle.std.specs.Prelude.{◌≡◌, ◌<◌, ◌++◌, length, None, OnOk};
ghost use Rattle.std.specs.Fmt.{signed_decimal};
ghost use Rattle.std.specs.List.{flat_map, slice_index_or};
ghost use Rattle.text_definitions.specs.Written.{limit};
ghost use Rattle.surface_definitions.specs.Coordinates.{columns};
ghost use Rattle.surface_vector_definitions.specs.Properties as definitions;
ghost use Rattle.surface_vector_definitions.specs.Properties.{AreProperties, first_large};
ghost use Rattle.surface_vector_definitions.specs.Texts as texts;
ghost use Rattle.surface_pieces.specs.ComponentLists.{no_component};
ghost use Rattle.std.proofs.Props.{props};
ghost use Rattle.vector_commands.specs.SmallComponents.{AreSmall};

use command_answers::yes_or_no;
use matching_equations::DiscCoords;
use out_of_memory::NoMemory;
use skeleton::Skeleton;
use std::alloc::Global;
use surface_pieces::Pieces;
use surface_properties::{Properties, properties_of};
use text_io::{append, append_decimal};
use vector_text::write_vector;

fn sides(two_sided: bool) -> &'static [u8]
    ensures { result.now ≡ texts.sides_word two_sided }
{
    if two_sided { b"two" } else { b"one" }
}

/// Appends `word` and an Euler characteristic.
fn append_euler(alloc: Global, out: &mut Vec<u8>, word: &[u8], euler: i128) -> Result<(), NoMemory>
    ensures { OnOk result (out.new.items ≡ out.old.items ++ word.now ++ signed_decimal euler) }
{
    let number = euler.to_string(alloc)?;
    append(out, word)?;
    append(out, number.as_bytes())?;
    Ok(())
}

/// Appends the line of the `properties` of a vector, with the number of its components.
fn append_properties(
    alloc: Global,
    out: &mut Vec<u8>,
    properties: &Properties,
    components: u32,
) -> Result<(), NoMemory>
    ensures { OnOk result (out.new.items ≡ out.old.items ++ texts.properties_line properties.now components) }
{
    append_euler(alloc, out, b"euler ", properties.euler)?;
    append(out, b" linking ")?;
    append(out, yes_or_no(properties.linking))?;
    append(out, b" boundary ")?;
    append(out, yes_or_no(properties.boundary))?;
    append(out, b" components ")?;
    append_decimal(alloc, out, u128::from(components))?;
    append(out, b"\n")?;
    Ok(())
}

/// The Euler characteristic of the surface of `x`, none of whose sums exceeds the limit.
fn characteristic(skeleton: &Skeleton, coords: DiscCoords, x: &[u128]) -> i128
    requires width { length x.now ≡ columns coords.system (length skeleton.now.rows) }
    requires small { first_large limit skeleton.now coords.system x.now ≡ None }
    ensures { result ≡ definitions.characteristic skeleton.now coords.system x.now }
{
    match properties_of(skeleton, coords.system, x) {
        Ok(properties) => properties.euler,
        Err(_) => unreachable!(),
    }
}

/// A surface with what `describe` prints of it. Invariant: `properties` and `pieces` are those of the surface `vector`
/// in the table of `skeleton`, and no sum exceeds the limit.
#[derive(Clone, Copy)]
pub struct Described<'a> {
    pub skeleton: &'a Skeleton,
    pub coords: DiscCoords,
    pub vector: &'a [u128],
    pub properties: &'a Properties,
    pub pieces: &'a Pieces,
    pub ghost whole: { AreProperties skeleton.now coords.system vector.now properties.now },
    pub ghost small: { AreSmall skeleton.now coords.system vector.now pieces.now } by { Prim.hlevel props },
}

impl<'a> Described<'a> {
    /// The Euler characteristic of component `component`.
    fn euler_of(&self, component: u32) -> i128
        requires { component < length self.now.pieces.now }
        ensures { result ≡ definitions.characteristic self.now.skeleton.now self.now.coords.system
            (slice_index_or self.now.pieces.now component no_component).vector }
    {
        // the only component is the surface itself
        let count = self.pieces.components();
        if count == 1 {
            return self.properties.euler;
        }
        characteristic(self.skeleton, self.coords, self.pieces.vector(component))
    }

    /// Appends the line of component `component`.
    fn append_component(
        &self,
        alloc: Global,
        out: &mut Vec<u8>,
        component: u32,
    ) -> Result<(), NoMemory>
        requires { component < length self.now.pieces.now }
        ensures { OnOk result (out.new.items
            ≡ out.old.items ++ texts.component_line self.now.skeleton.now self.now.coords.system
            (slice_index_or self.now.pieces.now component no_component)) }
    {
        append_euler(alloc, out, b"component euler ", self.euler_of(component))?;
        append(out, b" sides ")?;
        append(out, sides(self.pieces.two_sided(component)))?;
        append(out, b" orientable ")?;
        append(out, yes_or_no(self.pieces.orientable(component)))?;
        append(out, b" ")?;
        write_vector(alloc, self.pieces.vector(component), out)?;
        Ok(())
    }

    /// Appends the lines of all components.
    fn append_components(&self, alloc: Global, out: &mut Vec<u8>) -> Result<(), NoMemory>
        ensures { OnOk result (out.new.items
            ≡ out.old.items ++ flat_map (texts.component_line self.now.skeleton.now self.now.coords.system)
            self.now.pieces.now) }
    {
        for component in 0..self.pieces.components() {
            self.append_component(alloc, out, component)?;
        }
        Ok(())
    }

    /// Appends the description to `out`: the vector, its properties, and a line for each component.
    #[tactic(auto, unfolding(surface_vector_definitions::specs::Texts::description_text))]
    pub fn append(&self, alloc: Global, out: &mut Vec<u8>) -> Result<(), NoMemory>
        ensures { OnOk result (out.new.items
            ≡ out.old.items ++ texts.description_text self.now.skeleton.now self.now.coords.system
            (record {
              vector = self.now.vector.now;
              properties = self.now.properties.now;
              components = self.now.pieces.now;
            })) }
    {
        write_vector(alloc, self.vector, out)?;
        append_properties(alloc, out, self.properties, self.pieces.components())?;
        self.append_components(alloc, out)?;
        Ok(())
    }
}
