//! Whether a recording is determinate, by the accesses of a play in any whole replay order.
ghost use Rattle.std.specs.Prelude.{◌≡◌, ◌≢◌, ◌+◌, ◌<◌, ◌↔◌, ℕ, IfOk, IfSome, IsTrue, Some, false, length};
ghost use Rattle.std.specs.Prelude.{slice_index_or};
ghost use Rattle.std.specs.List.{Contains};
ghost use Rattle.race_log.specs.Validity.{Valid};
ghost use Rattle.replay_core.specs.Plans.{plan_of};
ghost use Rattle.replay_core.specs.Orders.{IsWhole};
ghost use Rattle.replay_audit.specs.Determinate.{IsDeterminate, low_order_of};
ghost use Rattle.replay_audit.specs.declared.touch.Touch.{Touch as SomeTouch};
ghost use Rattle.replay_audit.specs.Touches.{AreRising, ArePlayed, IsAccessOf, IsAt, IsPlaceOf, as_access};
ghost use Rattle.replay_audit.specs.Touches.{touches_of};

use crate::touch::Touch;
use crate::whole_order::WholeOrder;
use race_log::Recording;
use rtr_types::{Access, Instr, Items, Which};
use std::alloc::{AllocError, Global};

/// Whether the recording is determinate by the log, whose low order is whole. `touched` has by core the
/// accesses of the play of any whole replay order, each core's by rising count.
pub fn judge(
    alloc: Global,
    recording: &Recording,
    which: Which,
    touched: &[Items<Touch>],
) -> Result<bool, AllocError>
    requires valid { Valid recording.now }
    requires ordered { IsWhole (plan_of which recording.now) (low_order_of which recording.now) }
    requires touched { ArePlayed which recording.now touched.now }
    ensures { IfOk result (λ verdict. IsTrue verdict ↔ IsDeterminate which recording.now) }
{
    let Some(order) = WholeOrder::of(alloc, recording, which)? else {
        unreachable!()
    };
    order.judge(alloc, touched)
}

/// The access of an instruction, with 0 for its values, if it makes one. The place is that of the instruction in
/// the list of its core's touches, and becomes that of the next one.
#[inline(always)]
pub(crate) fn access_at(touched: &[Items<Touch>], at: Instr, place: &mut usize) -> Option<Access>
    requires core { at.core < length touched.now }
    requires rising { (c : ℕ) → AreRising (touches_of touched.now c) }
    requires place { IsPlaceOf (touches_of touched.now at.core) at.count place.old }
    ensures found { IfSome result (IsAccessOf (touches_of touched.now at.core) at.count) }
    ensures only { (t : SomeTouch) → Contains (touches_of touched.now at.core) t → t.at.count ≡ at.count →
        result ≡ Some (as_access t) }
    ensures place { IsPlaceOf (touches_of touched.now at.core) (at.count + 1) place.new }
{
    match touch_at(touched[at.core as usize].as_slice(), at.count, place) {
        Some(touch) => {
            Some(Access {
                at: touch.at,
                word: touch.word,
                kind: touch.kind,
                before: 0,
                after: 0,
            })
        }
        None => None,
    }
}

/// The touch with this count, of one core's touches, if there is one. The place is that of the count, and becomes
/// that of the next one.
#[inline(always)]
fn touch_at(list: &[Touch], count: u32, place: &mut usize) -> Option<Touch>
    requires rising { AreRising list.now }
    requires place { IsPlaceOf list.now count place.old }
    ensures found { IfSome result (λ t. Contains list.now t × (t.at.count ≡ count)) }
    ensures only { (t : SomeTouch) → Contains list.now t → t.at.count ≡ count → result ≡ Some t }
    ensures place { IsPlaceOf list.now (count + 1) place.new }
{
    let here = *place;
    if is_at(list, count, here) {
        *place = here + 1;
        return Some(list[here]);
    }
    None
}

/// Whether the touch at a place is that with this count.
#[inline(always)]
fn is_at(list: &[Touch], count: u32, place: usize) -> bool
    ensures at { IsTrue result → IsAt list.now count place }
    ensures other { result ≡ false → (d : SomeTouch) → place < length list.now →
        (slice_index_or list.now place d).at.count ≢ count }
{
    place < list.len() && list[place].at.count == count
}
