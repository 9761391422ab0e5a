//! The edges of the reduced log, as one list.
ghost use Rattle.std.specs.Prelude.{◌≡◌, IfOk};
ghost use Rattle.race_log.specs.Validity.{Valid};
ghost use Rattle.certificate_codec.specs.Ends.{reduced_edges};

use part_lists::led_of;
use race_log::Recording;
use rtr_types::{Edge, Items};
use std::alloc::{AllocError, Global};

/// The edges of the reduced log, by pair and then by target.
pub fn edges_of(alloc: Global, recording: &Recording) -> Result<Items<Edge>, AllocError>
    requires { Valid recording.now }
    ensures { IfOk result (λ list. list ≡ reduced_edges recording.now) }
{
    led_of(alloc, recording.params.cores, recording.reduced.as_slice())
}
