//! Writing the one spelling of each version.
ghost use Rattle.std.specs.Prelude.{◌≡◌, ◌++◌, ◌<◌, ◌≤◌, ◌^◌, ℕ, [], length, slice_index_or, OnOk, IfOk};
ghost use Rattle.rtr_types.specs.Parameters.{Fits};
ghost use Rattle.rtr_types.specs.Turns.{StandInTurn, follow};
ghost use Rattle.rtr_types.specs.PairEdges.{EdgeRises};
ghost use Rattle.race_log.specs.Validity.{Valid, IsListed};
ghost use Rattle.log_codec.specs.Incoming.{IsLog};
ghost use Rattle.log_codec.specs.Versions.{FitsOld};
ghost use Rattle.log_codec.specs.declared.version.Version.TheVariants.{One};
ghost use Rattle.log_codec.specs.Spelling.{header_text, totals_text, edges_text, pairs_text, reduced_text};
ghost use Rattle.log_codec.specs.Spelling.{strides_text, vector_text, vectors_text, regulated_text, spelling};
ghost use Rattle.log_codec.specs.Spelling.{sizes_text, spelling_in};

use crate::merging::put_targets;
use crate::version::Version;
use race_log::Recording;
use rtr_types::{Items, Params};
use std::alloc::{AllocError, Global};
use stride_vector::StrideVector;
use varint_core::put_u32;

/// The parameters and the length of the image. The only refusal is want of memory.
pub fn put_sizes(out: &mut Vec<u8>, params: &Params, len: u32) -> Result<(), AllocError>
    ensures { OnOk result (out.new.items ≡ out.old.items ++ sizes_text params.now len) }
{
    put_u32(out, params.cores as u32)?;
    put_u32(out, params.limit)?;
    put_u32(out, params.words)?;
    put_u32(out, len)
}

/// The header: the format and its version, the parameters, and the length of the image.
fn put_header(
    out: &mut Vec<u8>,
    version: Version,
    params: &Params,
    len: u32,
) -> Result<(), AllocError>
    ensures { OnOk result (out.new.items ≡ out.old.items ++ header_text version params.now len) }
{
    out.extend_from_slice(&version.magic())?;
    put_sizes(out, params, len)
}

/// The totals of all cores. The only refusal is want of memory.
pub fn put_totals(out: &mut Vec<u8>, totals: &[u32]) -> Result<(), AllocError>
    ensures { OnOk result (out.new.items ≡ out.old.items ++ totals_text totals.now) }
{
    for total in totals {
        put_u32(out, *total)?;
    }
    Ok(())
}

/// The edges of a pair: how many, and how far each rises from the one before it.
fn put_edges(out: &mut Vec<u8>, edges: &[(u32, u32)]) -> Result<(), AllocError>
    requires few { length edges.now < 2 ^ 32 }
    requires rising { StandInTurn EdgeRises follow (0, 0) edges.now }
    ensures { OnOk result (out.new.items ≡ out.old.items ++ edges_text edges.now) }
{
    put_u32(out, edges.len() as u32)?;
    let mut last = (0, 0);
    for edge in edges {
        put_u32(out, edge.1 - last.1)?;
        put_u32(out, edge.0 - last.0)?;
        last = *edge;
    }
    Ok(())
}

/// The edges of all pairs.
fn put_pairs(out: &mut Vec<u8>, reduced: &[Items<(u32, u32)>]) -> Result<(), AllocError>
    requires { (place : ℕ) → place < length reduced.now → IsListed (slice_index_or reduced.now place []) }
    ensures { OnOk result (out.new.items ≡ out.old.items ++ pairs_text reduced.now) }
{
    for edges in reduced {
        put_edges(out, edges.as_slice())?;
    }
    Ok(())
}

/// A vector: the number of positions, the first position, and the strides if there are any.
fn put_vector(out: &mut Vec<u8>, v: &StrideVector) -> Result<(), AllocError>
    ensures { OnOk result (out.new.items ≡ out.old.items ++ vector_text v.now) }
{
    put_u32(out, v.n)?;
    put_u32(out, v.a0)?;
    put_u32(out, v.b0)?;
    if v.n > 1 {
        put_u32(out, v.sa)?;
        put_u32(out, v.sb)?;
    }
    Ok(())
}

/// The vectors of a pair: how many, and these.
fn put_vectors(out: &mut Vec<u8>, vectors: &[StrideVector]) -> Result<(), AllocError>
    requires { length vectors.now < 2 ^ 32 }
    ensures { OnOk result (out.new.items ≡ out.old.items ++ vectors_text vectors.now) }
{
    put_u32(out, vectors.len() as u32)?;
    for v in vectors {
        put_vector(out, v)?;
    }
    Ok(())
}

/// The vectors of all pairs.
fn put_regulated(out: &mut Vec<u8>, regulated: &[Items<StrideVector>]) -> Result<(), AllocError>
    requires { (place : ℕ) → place < length regulated.now → length (slice_index_or regulated.now place []) < 2 ^ 32 }
    ensures { OnOk result (out.new.items ≡ out.old.items ++ regulated_text regulated.now) }
{
    for vectors in regulated {
        put_vectors(out, vectors.as_slice())?;
    }
    Ok(())
}

/// The fourth part, in which the versions differ.
fn put_reduced(
    out: &mut Vec<u8>,
    version: Version,
    cores: u8,
    reduced: &[Items<(u32, u32)>],
) -> Result<(), AllocError>
    requires { IsLog cores reduced.now }
    ensures { OnOk result (out.new.items ≡ out.old.items ++ reduced_text version cores reduced.now) }
{
    match version {
        Version::One => put_pairs(out, reduced),
        Version::Two => put_targets(out, reduced, cores),
    }
}

/// The one spelling of the recording in a version.
#[tactic(auto, unfolding(crate::specs::Spelling::spelling_in))]
fn spell_in(alloc: Global, version: Version, value: &Recording) -> Result<Vec<u8>, AllocError>
    requires { Valid value.now }
    ensures { IfOk result (λ bytes. bytes.items ≡ spelling_in version value.now) }
{
    let mut out = Vec::new(alloc);
    put_header(&mut out, version, &value.params, value.image.len() as u32)?;
    out.extend_from_slice(value.image.as_slice())?;
    put_totals(&mut out, value.totals.as_slice())?;
    put_reduced(
        &mut out,
        version,
        value.params.cores,
        value.reduced.as_slice(),
    )?;
    put_regulated(&mut out, value.regulated.as_slice())?;
    Ok(out)
}

/// The one spelling of the recording in version 2. The only refusal is want of memory.
pub fn spell(alloc: Global, value: &Recording) -> Result<Vec<u8>, AllocError>
    requires { Valid value.now }
    ensures { IfOk result (λ bytes. bytes.items ≡ spelling value.now) }
{
    spell_in(alloc, Version::Two, value)
}

/// The one spelling of the recording in version 1, for recordings within its limits.
/// The only refusal is want of memory.
pub fn spell_v1(alloc: Global, value: &Recording) -> Result<Vec<u8>, AllocError>
    requires valid { Valid value.now }
    requires limits { FitsOld value.now.params }
    ensures { IfOk result (λ bytes. bytes.items ≡ spelling_in One value.now) }
{
    spell_in(alloc, Version::One, value)
}
