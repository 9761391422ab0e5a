//! The points that are set: breakpoints, and ranges of memory that are watched.
ghost use Rattle.std.specs.Prelude.{◌≡◌, IfOk, OnErr, OnOk, count_by, filter, not};
ghost use Rattle.gdb_moves.specs.Points.{breaks_at, first_touched, has_break, has_room, has_watch, is_break, is_of_kind, is_point};
ghost use Rattle.gdb_moves.specs.Points.{is_same_kind};
ghost use Rattle.gdb_moves.specs.Points.{is_set, is_watch, kind_digit, meets, point_of, takes, touched, touches};
ghost use Rattle.gdb_moves.specs.Points.{why_of};
ghost use Rattle.gdb_moves.specs.Points.{with_point, without_point};

use crate::POINTS_MAX;
use gdb_packets::{PointKind, Span, Watch, Why};
use rtr_types::{Items, Kind};
use std::alloc::{AllocError, Global};

/// A point.
#[derive(Clone, Copy, Debug, PartialEq, Eq)]
pub struct Point {
    /// What it stops at.
    pub kind: PointKind,
    /// The address of the instruction, or where the watched range begins.
    pub at: u64,
    /// How many bytes are watched; 0 of a breakpoint.
    pub len: u64,
}

/// The point that a packet names.
pub fn point_of(kind: PointKind, span: Span) -> Point
    ensures { result ≡ point_of kind span }
{
    let len = if is_watch(kind) { span.len } else { 0 };
    Point {
        kind,
        at: span.at,
        len,
    }
}

/// Whether points of this kind watch memory.
fn is_watch(kind: PointKind) -> bool
    ensures { result ≡ is_watch kind }
{
    match kind {
        PointKind::Software | PointKind::Hardware => false,
        PointKind::Watch(_) => true,
    }
}

/// The digit of a kind.
fn kind_digit(kind: PointKind) -> u8
    ensures { result ≡ kind_digit kind }
{
    match kind {
        PointKind::Software => 0,
        PointKind::Hardware => 1,
        PointKind::Watch(Watch::Write) => 2,
        PointKind::Watch(Watch::Read) => 3,
        PointKind::Watch(Watch::Access) => 4,
    }
}

/// Whether the two are of one kind.
fn is_same_kind(point: Point, other: Point) -> bool
    ensures { result ≡ is_same_kind point other }
{
    kind_digit(point.kind) == kind_digit(other.kind)
}

/// Whether the two are one point.
fn is_point(point: Point, other: Point) -> bool
    ensures { result ≡ is_point point other }
{
    is_same_kind(point, other) && point.at == other.at && point.len == other.len
}

/// Whether the point is among these.
fn is_set(point: Point, points: &[Point]) -> bool
    ensures { result ≡ is_set point points.now }
{
    points.iter().any(|other| is_point(point, *other))
}

/// How many of these are of the point's kind.
fn count_like(point: Point, points: &[Point]) -> usize
    ensures { result ≡ count_by (is_same_kind point) points.now }
{
    let mut count = 0;
    for other in points {
        if is_same_kind(point, *other) {
            count += 1;
        }
    }
    count
}

/// Whether there is room for one more of the point's kind.
fn has_room(point: Point, points: &[Point]) -> bool
    ensures { result ≡ has_room point points.now }
{
    count_like(point, points) < POINTS_MAX
}

/// Sets a point, unless it is set already or there is no room for it. It answers whether it is set then. After want of
/// memory the points are as they were.
pub fn set_point(points: &mut Items<Point>, point: Point) -> Result<bool, AllocError>
    ensures ok { OnOk result (points.new ≡ with_point point points.old) }
    ensures told { IfOk result (λ set. set ≡ takes point points.old) }
    ensures err { OnErr result (points.new ≡ points.old) }
{
    if is_set(point, points.as_slice()) {
        return Ok(true);
    }
    if !has_room(point, points.as_slice()) {
        return Ok(false);
    }
    points.push(point)?;
    Ok(true)
}

/// Takes a point away, where it is set. After want of memory the points are as they were.
pub fn clear_point(alloc: Global, points: &mut Items<Point>, point: Point) -> Result<(), AllocError>
    ensures ok { OnOk result (points.new ≡ without_point point points.old) }
    ensures err { OnErr result (points.new ≡ points.old) }
{
    let kept = without_point(alloc, points.as_slice(), point)?;
    *points = kept;
    Ok(())
}

/// The points but for this one.
fn without_point(alloc: Global, points: &[Point], point: Point) -> Result<Items<Point>, AllocError>
    ensures { IfOk result (λ kept. kept ≡ without_point point points.now) }
{
    let mut kept = Items::new(alloc);
    for other in points {
        if !is_point(point, *other) {
            kept.push(*other)?;
        }
    }
    Ok(kept)
}

/// Whether the point is a breakpoint at the address.
fn is_break(pc: u32, point: Point) -> bool
    ensures { result ≡ is_break pc point }
{
    !is_watch(point.kind) && point.at == pc as u64
}

/// Whether there is a breakpoint at the address.
pub(crate) fn breaks_at(points: &[Point], pc: u32) -> bool
    ensures { result ≡ breaks_at points.now pc }
{
    points.iter().any(|point| is_break(pc, *point))
}

/// Whether any of them is a breakpoint.
pub(crate) fn has_break(points: &[Point]) -> bool
    ensures { result ≡ has_break points.now }
{
    points.iter().any(|point| !is_watch(point.kind))
}

/// Whether any of them watches memory.
pub(crate) fn has_watch(points: &[Point]) -> bool
    ensures { result ≡ has_watch points.now }
{
    points.iter().any(|point| is_watch(point.kind))
}

/// Whether points of this kind watch for accesses of that one.
fn is_of_kind(kind: PointKind, used: Kind) -> bool
    ensures { result ≡ is_of_kind kind used }
{
    match kind {
        PointKind::Software | PointKind::Hardware => false,
        PointKind::Watch(Watch::Write) => used.is_write(),
        PointKind::Watch(Watch::Read) => used.is_read(),
        PointKind::Watch(Watch::Access) => true,
    }
}

/// Whether the word, by its index, shares a byte with the point's range.
fn meets(point: Point, word: u32) -> bool
    ensures { result ≡ meets point word }
{
    let first = 4 * word as u128;
    (point.at as u128) < first + 4 && first < point.at as u128 + point.len as u128
}

/// Whether an access touches what the point watches.
fn touches(used: (Kind, u32), point: Point) -> bool
    ensures { result ≡ touches used point }
{
    is_of_kind(point.kind, used.0) && meets(point, used.1)
}

/// The first point whose range an access touches, where there is an access.
pub(crate) fn touched(points: &[Point], used: Option<(Kind, u32)>) -> Option<Point>
    ensures { result ≡ touched points.now used }
{
    first_touched(points, used?)
}

/// The first point whose range the access touches.
fn first_touched(points: &[Point], used: (Kind, u32)) -> Option<Point>
    ensures { result ≡ first_touched points.now used }
{
    for point in points {
        if touches(used, *point) {
            return Some(*point);
        }
    }
    None
}

/// What a stop at the point says.
pub(crate) fn why_of(point: Point) -> Why
    ensures { result ≡ why_of point }
{
    match point.kind {
        PointKind::Software | PointKind::Hardware => Why::Breakpoint,
        PointKind::Watch(watch) => Why::Watched(watch, point.at),
    }
}
