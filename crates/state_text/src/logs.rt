//! The text of a recording's totals and logs.
ghost use Rattle.std.specs.Prelude.{◌≡◌, ◌<◌, ◌≤◌, ◌^◌, ◌++◌, ℕ, List, OnOk, IfOk, length, string_bytes, sum_by};
ghost use Rattle.std.specs.List.{flat_map, enumerate_from};
ghost use Rattle.rtr_types.specs.Pairs.{pair_count};
ghost use Rattle.race_log.specs.Counts.{position_count};
ghost use Rattle.state_text.specs.Logs.{params_line, total_line, edge_line, lines_at, reduced_lines, strides_text};
ghost use Rattle.state_text.specs.Logs.{vector_start, vector_line, regulated_lines, logs_lines};
ghost use Rattle.state_text.specs.Logs.{item_count, vector_edges, IsByPair};

use race_log::Recording;
use rtr_types::{Items, Params, pair_of};
use std::alloc::{AllocError, Global};
use stride_vector::StrideVector;

/// An entry of a log: an edge, or a vector of edges.
trait Entry {
    /// Its line, where it goes from one core to another.
    ghost line: { (from to : ℕ) → Self → List ℕ };

    /// Puts its line at the end.
    fn put(&self, text: &mut String, from: u8, to: u8) -> Result<(), AllocError>
        ensures { OnOk result (string_bytes text.new ≡ string_bytes text.old ++ line from to self.now) };
}

impl Entry for (u32, u32) {
    ghost line = { edge_line };

    fn put(&self, text: &mut String, from: u8, to: u8) -> Result<(), AllocError> {
        put_edge(text, from, to, *self)
    }
}

impl Entry for StrideVector {
    ghost line = { vector_line };

    fn put(&self, text: &mut String, from: u8, to: u8) -> Result<(), AllocError> {
        put_vector(text, from, to, self)
    }
}

/// The totals and logs of a recording, as text: its parameters and the length of its image, the
/// total of each core by number, the edges of the reduced log and the vectors of the regulated log,
/// both by pair of cores. A pair's source and target are cores, counts are instructions of a core,
/// and all numbers are decimal. The only refusal is want of memory.
pub fn logs_text(alloc: Global, recording: &Recording) -> Result<Vec<u8>, AllocError>
    requires { IsByPair recording.now }
    ensures { IfOk result (λ text. text.items ≡ logs_lines recording.now) }
{
    let cores = recording.params.cores;
    let reduced = recording.reduced.as_slice();
    let regulated = recording.regulated.as_slice();
    let mut text = String::new(alloc);
    put_params(&mut text, &recording.params, recording.image.len())?;
    put_totals(&mut text, recording.totals.as_slice())?;
    put_reduced(&mut text, cores, reduced)?;
    put_regulated(&mut text, cores, regulated)?;
    Ok(text.into_bytes())
}

// Puts the line of the parameters and of the image's length.
fn put_params(text: &mut String, params: &Params, image: usize) -> Result<(), AllocError>
    ensures { OnOk result (string_bytes text.new ≡ string_bytes text.old ++ params_line params.now image) }
{
    let cores = params.cores;
    let limit = params.limit;
    let words = params.words;
    writeln!(
        text,
        "cores {cores} limit {limit} words {words} image {image}"
    )
}

// Puts the line of each core's total.
fn put_totals(text: &mut String, totals: &[u32]) -> Result<(), AllocError>
    ensures { OnOk result (string_bytes text.new ≡ string_bytes text.old
        ++ flat_map total_line (enumerate_from 0 totals.now)) }
{
    for (core, total) in totals.iter().enumerate() {
        put_total(text, core, *total)?;
    }
    Ok(())
}

// Puts the line of a core's total.
fn put_total(text: &mut String, core: usize, total: u32) -> Result<(), AllocError>
    ensures { OnOk result (string_bytes text.new ≡ string_bytes text.old ++ total_line (core, total)) }
{
    writeln!(text, "total {core} {total}")
}

// Puts the number of edges, and then the edges.
fn put_reduced(
    text: &mut String,
    cores: u8,
    reduced: &[Items<(u32, u32)>],
) -> Result<(), AllocError>
    requires { length reduced.now ≤ pair_count cores }
    ensures { OnOk result (string_bytes text.new ≡ string_bytes text.old ++ reduced_lines cores reduced.now) }
{
    let edges = count_items(reduced);
    writeln!(text, "reduced {edges}")?;
    put_entries(text, cores, reduced)
}

// Puts the line of an edge.
fn put_edge(text: &mut String, from: u8, to: u8, edge: (u32, u32)) -> Result<(), AllocError>
    ensures { OnOk result (string_bytes text.new ≡ string_bytes text.old ++ edge_line from to edge) }
{
    let (a, b) = edge;
    writeln!(text, "edge {from}:{a} {to}:{b}")
}

// Puts the numbers of vectors and of their edges, and then the vectors.
fn put_regulated(
    text: &mut String,
    cores: u8,
    regulated: &[Items<StrideVector>],
) -> Result<(), AllocError>
    requires { length regulated.now ≤ pair_count cores }
    ensures { OnOk result (string_bytes text.new ≡ string_bytes text.old ++ regulated_lines cores regulated.now) }
{
    let vectors = count_items(regulated);
    let edges = count_vector_edges(regulated);
    writeln!(text, "regulated {vectors} vectors {edges} edges")?;
    put_entries(text, cores, regulated)
}

// Puts the entries of each pair.
fn put_entries<T: Entry>(text: &mut String, cores: u8, lists: &[Items<T>]) -> Result<(), AllocError>
    requires { length lists.now ≤ pair_count cores }
    ensures { OnOk result (string_bytes text.new ≡ string_bytes text.old
        ++ flat_map (lines_at T.line cores) (enumerate_from 0 lists.now)) }
{
    for (place, entries) in lists.iter().enumerate() {
        put_entries_at(text, cores, place, entries.as_slice())?;
    }
    Ok(())
}

// Puts the entries of the pair at a place.
fn put_entries_at<T: Entry>(
    text: &mut String,
    cores: u8,
    place: usize,
    entries: &[T],
) -> Result<(), AllocError>
    requires { place < pair_count cores }
    ensures { OnOk result (string_bytes text.new ≡ string_bytes text.old
        ++ lines_at T.line cores (place, entries.now)) }
{
    let (from, to) = pair_of(cores, place);
    for entry in entries {
        entry.put(text, from, to)?;
    }
    Ok(())
}

// Puts the line of a vector.
fn put_vector(text: &mut String, from: u8, to: u8, vector: &StrideVector) -> Result<(), AllocError>
    ensures { OnOk result (string_bytes text.new ≡ string_bytes text.old ++ vector_line from to vector.now) }
{
    put_vector_start(text, from, to, vector)?;
    put_strides(text, vector)?;
    writeln!(text)?;
    Ok(())
}

// Puts the cores of a vector, the number of its edges, and the first of them.
fn put_vector_start(
    text: &mut String,
    from: u8,
    to: u8,
    vector: &StrideVector,
) -> Result<(), AllocError>
    ensures { OnOk result (string_bytes text.new ≡ string_bytes text.old ++ vector_start from to vector.now) }
{
    let StrideVector { n, a0, b0, .. } = *vector;
    write!(text, "vector {from} {to} {n} {a0} {b0}")?;
    Ok(())
}

// Puts the strides of a vector. One of one edge has none.
fn put_strides(text: &mut String, vector: &StrideVector) -> Result<(), AllocError>
    ensures { OnOk result (string_bytes text.new ≡ string_bytes text.old ++ strides_text vector.now) }
{
    let StrideVector { n, sa, sb, .. } = *vector;
    if n > 1 {
        write!(text, " {sa} {sb}")?;
    }
    Ok(())
}

// How many items the lists of all pairs have. There are fewer than 2^16 pairs and no list is so long
// as 2^64, so 128 bits hold the number whatever the lists are.
fn count_items<T>(lists: &[Items<T>]) -> u128
    requires { length lists.now < 2 ^ 16 }
    ensures { result ≡ item_count lists.now }
{
    let mut count = 0;
    for list in lists {
        count += list.len() as u128;
    }
    count
}

// How many edges the vectors of all pairs have.
fn count_vector_edges(regulated: &[Items<StrideVector>]) -> u128
    requires { length regulated.now < 2 ^ 16 }
    ensures { result ≡ vector_edges regulated.now }
{
    let mut count = 0;
    for vectors in regulated {
        count += count_edges(vectors.as_slice());
    }
    count
}

// How many edges the vectors of a pair have.
fn count_edges(vectors: &[StrideVector]) -> u128
    ensures count { result ≡ position_count vectors.now }
    ensures small { result < 2 ^ 96 }
{
    let mut count = 0;
    for vector in vectors {
        count += vector.n as u128;
    }
    count
}
