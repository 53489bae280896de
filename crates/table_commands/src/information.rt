//! The text of `info`.
ghost use Rattle.std.specs.Prelude.{◌≡◌, ◌++◌, IfOk, OnOk, codes, length};
ghost use Rattle.std.specs.Fmt.{signed_decimal};
ghost use Rattle.text_definitions.specs.Written.{line};
ghost use Rattle.outcome_definitions.specs.Information as information;
ghost use Rattle.outcome_definitions.specs.Information.{classes_text};

use command_answers::{append_flag, append_number_line, yes_or_no};
use out_of_memory::NoMemory;
use skeleton::Skeleton;
use std::alloc::Global;
use text_io::{append, append_decimal, append_signed};
use vertex_links::{Link, LinkKind};

fn place_word(in_boundary: bool) -> &'static [u8]
    ensures { result.now ≡ information.place_word in_boundary }
{
    if in_boundary { b"boundary" } else { b"inner" }
}

fn kind_word(kind: LinkKind) -> &'static [u8]
    ensures { result.now ≡ information.kind_word kind }
{
    match kind {
        LinkKind::Sphere => b"sphere",
        LinkKind::Disc => b"disc",
        LinkKind::Torus => b"torus",
        LinkKind::Klein => b"klein",
        LinkKind::Other => b"other",
    }
}

/// Appends the line of vertex class `class`.
fn append_vertex(
    alloc: Global,
    text: &mut Vec<u8>,
    class: u32,
    degree: u32,
    link: &Link,
) -> Result<(), NoMemory>
    ensures { OnOk result (text.new.items ≡ text.old.items ++ information.vertex_line class degree link.now) }
{
    append(text, b"vertex ")?;
    append_decimal(alloc, text, u128::from(class))?;
    append(text, b" degree ")?;
    append_decimal(alloc, text, u128::from(degree))?;
    append(text, b" euler ")?;
    append_signed(alloc, text, link.euler)?;
    append(text, b" closed ")?;
    append(text, yes_or_no(link.closed))?;
    append(text, b" kind ")?;
    append(text, kind_word(link.kind))?;
    append(text, b"\n")?;
    Ok(())
}

/// Appends the line of edge class `class`.
fn append_edge(
    alloc: Global,
    text: &mut Vec<u8>,
    class: u32,
    degree: u32,
    in_boundary: bool,
    valid: bool,
) -> Result<(), NoMemory>
    ensures { OnOk result (text.new.items ≡ text.old.items ++ information.edge_line class degree in_boundary valid) }
{
    append(text, b"edge ")?;
    append_decimal(alloc, text, u128::from(class))?;
    append(text, b" degree ")?;
    append_decimal(alloc, text, u128::from(degree))?;
    append(text, b" place ")?;
    append(text, place_word(in_boundary))?;
    append(text, b" valid ")?;
    append(text, yes_or_no(valid))?;
    append(text, b"\n")?;
    Ok(())
}

fn tetrahedra(skeleton: &Skeleton) -> u32
    ensures { result ≡ length skeleton.now.rows }
{
    skeleton.table().len()
}

/// Appends the number of tetrahedra, and whether the table is `connected`, `orientable` and closed.
fn append_flags(
    alloc: Global,
    text: &mut Vec<u8>,
    skeleton: &Skeleton,
    connected: bool,
    orientable: bool,
) -> Result<(), NoMemory>
    ensures { OnOk result (text.new.items
        ≡ text.old.items ++ information.flags_text skeleton.now connected orientable) }
{
    append_number_line(
        alloc,
        text,
        b"tetrahedra ",
        u128::from(tetrahedra(skeleton)),
    )?;
    append_flag(text, b"connected ", connected)?;
    append_flag(text, b"orientable ", orientable)?;
    append_flag(text, b"closed ", skeleton.is_closed())?;
    Ok(())
}

/// Appends the numbers of classes of `skeleton`, and the Euler characteristic.
fn append_counts(alloc: Global, text: &mut Vec<u8>, skeleton: &Skeleton) -> Result<(), NoMemory>
    ensures { OnOk result (text.new.items ≡ text.old.items ++ information.counts_text skeleton.now) }
{
    append_number_line(alloc, text, b"vertices ", u128::from(skeleton.vertices()))?;
    append_number_line(alloc, text, b"edges ", u128::from(skeleton.edges()))?;
    append_number_line(alloc, text, b"faces ", u128::from(skeleton.faces()))?;
    append_euler(alloc, text, characteristic(skeleton))?;
    Ok(())
}

fn append_euler(alloc: Global, text: &mut Vec<u8>, euler: i64) -> Result<(), NoMemory>
    ensures { OnOk result (text.new.items ≡ text.old.items ++ line (codes "euler " ++ signed_decimal euler)) }
{
    append(text, b"euler ")?;
    append_signed(alloc, text, euler)?;
    append(text, b"\n")?;
    Ok(())
}

/// The Euler characteristic of `skeleton`: vertices less edges plus faces less tetrahedra.
fn characteristic(skeleton: &Skeleton) -> i64
    ensures { result ≡ information.characteristic skeleton.now }
{
    let more = i64::from(skeleton.vertices()) + i64::from(skeleton.faces());
    let less = i64::from(skeleton.edges()) + i64::from(skeleton.table().len());
    more - less
}

/// What `info` prints of a table. Invariant: `links` has one link for each vertex class of `skeleton`, and `valid` one
/// entry for each edge class.
#[derive(Clone, Copy)]
pub struct Information<'a> {
    pub skeleton: &'a Skeleton,
    pub links: &'a [Link],
    pub valid: &'a [bool],
    pub connected: bool,
    pub orientable: bool,
    pub ghost link_each: { length links.now ≡ skeleton.now.vertices.count },
    pub ghost valid_each: { length valid.now ≡ skeleton.now.edges.count },
}

impl<'a> Information<'a> {
    /// Appends the lines of the vertex classes.
    fn append_vertices(&self, alloc: Global, text: &mut Vec<u8>) -> Result<(), NoMemory>
        ensures { OnOk result (text.new.items
            ≡ text.old.items ++ classes_text (information.vertex_text self.now.skeleton.now self.now.links.now)
            self.now.skeleton.now.vertices.count) }
    {
        for class in 0..self.skeleton.vertices() {
            append_vertex(
                alloc,
                text,
                class,
                self.skeleton.vertex_degree(class),
                &self.links[class as usize],
            )?;
        }
        Ok(())
    }

    /// Appends the lines of the edge classes.
    fn append_edges(&self, alloc: Global, text: &mut Vec<u8>) -> Result<(), NoMemory>
        ensures { OnOk result (text.new.items
            ≡ text.old.items ++ classes_text (information.edge_text self.now.skeleton.now self.now.valid.now)
            self.now.skeleton.now.edges.count) }
    {
        for class in 0..self.skeleton.edges() {
            append_edge(
                alloc,
                text,
                class,
                self.skeleton.edge_degree(class),
                self.skeleton.is_boundary_edge(class),
                self.valid[class as usize],
            )?;
        }
        Ok(())
    }

    /// The text of `info`.
    pub fn text(&self, alloc: Global) -> Result<Vec<u8>, NoMemory>
        ensures { IfOk result (λ text. text.items
            ≡ information.information_text (record {
              skeleton = self.now.skeleton.now;
              links = self.now.links.now;
              valid = self.now.valid.now;
              connected = self.now.connected;
              orientable = self.now.orientable;
            })) }
    {
        let mut text = Vec::new(alloc);
        append_flags(
            alloc,
            &mut text,
            self.skeleton,
            self.connected,
            self.orientable,
        )?;
        append_counts(alloc, &mut text, self.skeleton)?;
        self.append_vertices(alloc, &mut text)?;
        self.append_edges(alloc, &mut text)?;
        Ok(text)
    }
}
