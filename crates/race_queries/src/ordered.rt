//! What comes before what.
ghost use Rattle.std.specs.Prelude.{◌↔◌, IsTrue};
ghost use Rattle.replay_audit.specs.Audits.{IsInstrOf};
ghost use Rattle.race_queries.specs.Queries.{Leads};

use replay_audit::Audited;
use rtr_types::Instr;

/// Whether by the log the one instruction comes before the other. Of two instructions that aren't one, neither may
/// come before the other: then they are unordered.
pub fn leads_to(audited: &Audited, at: Instr, other: Instr) -> bool
    requires at { IsInstrOf audited.now.recording at }
    requires other { IsInstrOf audited.now.recording other }
    ensures { IsTrue result ↔ Leads audited.now at other }
{
    // The audit passed, so no instruction comes before itself.
    let _ = audited.recording();
    let _ = audited.outcome();
    if at == other {
        return false;
    }
    audited.clock(other).covers(at)
}
