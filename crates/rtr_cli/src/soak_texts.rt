//! The text of a soak.
ghost use Rattle.std.specs.Prelude.{◌≡◌, ◌<◌, ◌≤◌, ◌^◌, ◌++◌, IfOk, OnOk, length, string_bytes, sum_by};
ghost use Rattle.race_log.specs.Validity.{Valid};
ghost use Rattle.state_text.specs.Pieces.{line};
ghost use Rattle.rtr_cli.specs.Soaks.{changed_count, log_lines, program_line, retired_line, shape_name, soak_lines};

use image_mem::Image;
use race_log::Recording;
use rtr_types::{Items, WORDS_MAX, Which};
use std::alloc::{AllocError, Global};
use stride_vector::StrideVector;
use trace_gen::Shape;

/// The text of a recorded run of the image of this shape and number: five lines that say the shape, the number and
/// how many cores there are, the instructions that all cores retired, the edges of the reduced log, the vectors and
/// the edges of the regulated log, and how many words of memory don't have their opening values, `changed`. All
/// numbers are decimal. The only refusal is want of memory.
pub fn soak_text(
    alloc: Global,
    shape: Shape,
    number: u64,
    recording: &Recording,
    changed: u32,
) -> Result<Vec<u8>, AllocError>
    requires { Valid recording.now }
    ensures { IfOk result (λ text. text.items ≡ soak_lines shape number recording.now changed) }
{
    let mut text = String::new(alloc);
    put_program(&mut text, shape, number, recording.params.cores)?;
    put_retired(&mut text, recording)?;
    put_logs(&mut text, recording)?;
    writeln!(text, "changed {changed} words")?;
    Ok(text.into_bytes())
}

/// Puts the line of the program and of how many cores ran it.
fn put_program(text: &mut String, shape: Shape, number: u64, cores: u8) -> Result<(), AllocError>
    ensures { OnOk result (string_bytes text.new ≡ string_bytes text.old ++ program_line shape number cores) }
{
    let shape = shape_name(shape);
    writeln!(text, "shape {shape} number {number} cores {cores}")
}

/// Puts the line of the instructions that all cores retired.
fn put_retired(text: &mut String, recording: &Recording) -> Result<(), AllocError>
    ensures { OnOk result (string_bytes text.new ≡ string_bytes text.old ++ retired_line recording.now) }
{
    let retired = sum_of(recording.totals.as_slice());
    writeln!(text, "retired {retired}")
}

/// Puts the lines of both logs.
fn put_logs(text: &mut String, recording: &Recording) -> Result<(), AllocError>
    requires { Valid recording.now }
    ensures { OnOk result (string_bytes text.new ≡ string_bytes text.old ++ log_lines recording.now) }
{
    let reduced = recording.edge_count(Which::Reduced);
    let vectors = vector_count(recording.regulated.as_slice());
    let edges = recording.edge_count(Which::Regulated);
    writeln!(text, "reduced {reduced}")?;
    writeln!(text, "regulated {vectors} vectors {edges} edges")
}

/// The word for a shape.
fn shape_name(shape: Shape) -> &'static str
    ensures { result.now ≡ shape_name shape }
{
    match shape {
        Shape::Mix => "mix",
        Shape::Lock => "lock",
    }
}

/// The instructions that all cores retired. 128 bits hold the sum whatever the totals are.
fn sum_of(totals: &[u32]) -> u128
    ensures { result ≡ sum_by (λ t. t) totals.now }
{
    let mut sum = 0;
    for total in totals {
        sum += *total as u128;
    }
    sum
}

/// The vectors of all pairs. 128 bits hold their number whatever the lists are.
fn vector_count(regulated: &[Items<StrideVector>]) -> u128
    requires { length regulated.now < 2 ^ 16 }
    ensures { result ≡ sum_by length regulated.now }
{
    let mut count = 0;
    for vectors in regulated {
        count += vectors.len() as u128;
    }
    count
}

/// How many words of memory don't have their opening values.
#[tactic(auto, unfolding(crate::specs::Soaks::changed_below))]
pub(crate) fn changed_words(image: &Image, words: &[u32]) -> u32
    requires { length words.now ≤ WORDS_MAX }
    ensures { result ≡ changed_count image.now words.now }
{
    let mut changed = 0;
    for (word, value) in words.iter().enumerate() {
        if *value != image.word(word as u32) {
            changed += 1;
        }
    }
    changed
}
