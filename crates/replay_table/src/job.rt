//! The recording and the log that a table speaks of.

use std::marker::Brand;

/// A recording and one of its logs, as contracts name them.
pub trait Job {
    ghost use Rattle.race_log.specs.declared.recording.Recording.{Recording};
    ghost use Rattle.rtr_types.specs.declared.pairs.Which.{Which};

    ghost recording: { Recording };

    ghost which: { Which };
}

impl Job for Brand {
    ghost use Rattle.std.specs.Prelude.{[]};
    ghost use Rattle.rtr_types.specs.declared.pairs.Which.TheVariants.{Reduced};

    ghost recording = { record {
      params = record { cores = 0; limit = 0; words = 0 };
      image = [];
      totals = [];
      reduced = [];
      regulated = [];
    } };

    ghost which = { Reduced };
}
