//! A session.
ghost use Rattle.std.specs.Prelude.{◌≡◌, ◌∷◌, [], IfOk, IfSome, OnOk};
ghost use Rattle.debug_place.specs.Places.{IsKept, Stands, cut_at};
ghost use Rattle.gdb_packets.specs.Replies.{spelled};
ghost use Rattle.gdb_session.specs.Answers.{Answers, AnswersAgain, AnswersPacket, AnswersPlain, AnswersWith, MovesBy};
ghost use Rattle.gdb_session.specs.Answers.{next_after};
ghost use Rattle.gdb_session.specs.Extended.{AnswersExtended, Outlives, TellsRun};
ghost use Rattle.gdb_session.specs.Ranged.{asked_in};
ghost use Rattle.gdb_moves.specs.Moves.{IsWithin};
ghost use Rattle.gdb_moves.specs.Points.{takes, with_point};
ghost use Rattle.gdb_moves.specs.Sights.{Sees};
ghost use Rattle.gdb_session.specs.Seats.{Begins, Sits, interrupted, seat_of};
ghost use Rattle.gdb_session.specs.Told.{still_reply, there_reply};
ghost use Rattle.gdb_session.specs.Wishes.{Fit, wishes_after};

use crate::answer::{kinds, one, silent};
use crate::commanded::commanded;
use crate::extended::{Extended, begun_payloads, extended_of};
use crate::orders::{go_back_order, ranged_order, step_back_order};
use crate::ranged::asked_in;
use crate::told::{still_reply, there_reply};
use crate::wishes::{Wishes, outliving, told_wishes, wishes_after};
use cut_marks::Marks;
use debug_place::Place;
use gdb_moves::{Order, Point, Range, begin_again, clear_point, obey, point_of, set_point};
use gdb_packets::{Ask, Plain, Reply};
use gdb_server::{Answer, Next, Partner};
use image_mem::Image;
use replay_audit::Audited;
use rtr_types::{Cut, Items};
use std::alloc::{AllocError, Global};
use std::marker::Model;

/// A debugger's session on an audited recording: where it stands in the run, which is always a cut that is closed under
/// the audit's log, what the debugger has asked for, and the cuts that its user has marked.
pub struct Session<'a> {
    audited: &'a Audited,
    image: Image,
    place: Place<'a>,
    wishes: Wishes,
    points: Items<Point>,
    marks: Marks,
}

impl Drop for Session<'_> {
    fn drop(self) {
        let Session {
            audited: _audited,
            image: _image,
            place: _place,
            wishes: _wishes,
            points: _points,
            marks: _marks,
        } = self;
    }
}

impl<'a> Model for Session<'a> {
    ghost use Rattle.gdb_session.specs.Seats.{Seat, Sits, seat_of};

    ghost Value = { Seat };

    ghost view = { λ a. seat_of a.place a.wishes a.points a.marks };

    ghost invariant = { λ a. Sits a.audited.now a.image (seat_of a.place a.wishes a.points a.marks) };
}

impl<'a> Session<'a> {
    /// A session before the first instruction. It is refused for want of memory alone.
    pub fn begin(alloc: Global, audited: &'a Audited) -> Result<Session<'a>, AllocError>
        ensures { IfOk result (λ session. Begins audited.now session) }
    {
        let params = audited.recording().params;
        let bytes = Vec::from_slice(alloc, audited.recording().image.as_slice())?;
        let Ok(image) = Image::flat(bytes, params.words) else {
            unreachable!()
        };
        let place = Place::begin(alloc, audited)?;
        Ok(Session {
            audited,
            image,
            place,
            wishes: Wishes {
                looked: 0,
                told: 0,
                moving: None,
                lead: None,
                interrupted: false,
                extended: false,
            },
            points: Items::new(alloc),
            marks: Marks::new(alloc),
        })
    }

    /// The cut at which it stands: how many instructions of each core are done.
    pub fn cut(&self) -> Cut
        ensures cut { result ≡ cut_at self.now.place }
        ensures stands { Stands self.now.place }
    {
        self.place.cut()
    }
}

impl Partner for Session<'_> {
    ghost answers = { λ old packet new answer. AnswersPacket old packet new answer };

    ghost interrupts = { λ old new. new ≡ interrupted old };

    /// The answer to the packet with this payload. It is refused for want of memory alone; then it stands at a closed
    /// cut still.
    fn answer(&mut self, alloc: Global, packet: &[u8]) -> Result<Answer, AllocError>
        ensures answered { IfOk result (λ answer. AnswersPacket self.old packet.now self.new answer) }
        ensures recording { self.new.place.recording ≡ self.old.place.recording }
        ensures which { self.new.place.which ≡ self.old.place.which }
    {
        match extended_of(packet) {
            Some(asked) => self.answer_again(alloc, asked),
            None => self.answer_ranged(alloc, packet),
        }
    }

    /// An interrupt came. The next move is left out, unless the debugger asks for the threads before.
    fn interrupt(&mut self)
        ensures { self.new ≡ interrupted self.old }
    {
        self.wishes.interrupted = true;
    }
}

/// What is to be done behind an answer.
fn next_after(wishes: Wishes, ask: &Ask) -> Next
    ensures { result ≡ next_after wishes ask.now }
{
    match ask {
        Ask::Plain(Plain::Kill) if wishes.extended => Next::Listen,
        Ask::Plain(Plain::Detach | Plain::Kill | Plain::Quit) => Next::End,
        Ask::Plain(Plain::StopAcks) => Next::StopAcks,
        _ => Next::Listen,
    }
}

impl Session<'_> {
    /// The answer to what may run the program again.
    fn answer_again(&mut self, alloc: Global, asked: Extended) -> Result<Answer, AllocError>
        ensures kept { IsKept self.old.place self.new.place }
        ensures answers { IfOk result (AnswersAgain self.old asked self.new) }
    {
        let payloads = self.answered_again(alloc, asked)?;
        Ok(Answer {
            payloads,
            next: Next::Listen,
        })
    }

    /// Its payloads.
    fn answered_again(
        &mut self,
        alloc: Global,
        asked: Extended,
    ) -> Result<Items<Items<u8>>, AllocError>
        ensures kept { IsKept self.old.place self.new.place }
        ensures answers { IfOk result (AnswersExtended asked self.old self.new) }
    {
        match asked {
            Extended::Stay => self.outlive(alloc),
            Extended::Restart => self.run_again(alloc, Extended::Restart),
            Extended::Run => self.run_again(alloc, Extended::Run),
        }
    }

    /// The session outlives the program from here on.
    fn outlive(&mut self, alloc: Global) -> Result<Items<Items<u8>>, AllocError>
        ensures kept { IsKept self.old.place self.new.place }
        ensures outlives { IfOk result (Outlives self.old self.new) }
    {
        let payloads = one(alloc, &Reply::Done)?;
        self.wishes = outliving(self.wishes, self.place.cores());
        Ok(payloads)
    }

    /// The program runs again: the place comes to the beginning.
    fn run_again(&mut self, alloc: Global, asked: Extended) -> Result<Items<Items<u8>>, AllocError>
        ensures kept { IsKept self.old.place self.new.place }
        ensures runs { IfOk result (TellsRun asked self.old self.new) }
    {
        // A valid recording has at least one core.
        let _ = self.audited.recording();
        let payloads = begun_payloads(alloc, asked)?;
        begin_again(alloc, self.audited, &mut self.place)?;
        self.wishes = told_wishes(self.wishes, 0, self.place.cores());
        Ok(payloads)
    }

    /// The answer to any other packet.
    fn answer_ranged(&mut self, alloc: Global, packet: &[u8]) -> Result<Answer, AllocError>
        ensures kept { IsKept self.old.place self.new.place }
        ensures answers { IfOk result (Answers self.old (asked_in packet.now) self.new) }
    {
        let asked = asked_in(alloc, packet)?;
        let next = next_after(self.wishes, &asked.ask);
        let payloads = self.answered(alloc, asked.range, &asked.ask)?;
        Ok(Answer { payloads, next })
    }

    /// The payloads that a packet is answered.
    fn answered(
        &mut self,
        alloc: Global,
        range: Option<Range>,
        ask: &Ask,
    ) -> Result<Items<Items<u8>>, AllocError>
        ensures kept { IsKept self.old.place self.new.place }
        ensures answers { IfOk result (AnswersWith range ask.now self.old self.new) }
    {
        match ask {
            Ask::Resume(actions) => {
                // A valid recording has no more cores than there may be.
                let _ = self.audited.recording();
                let order = ranged_order(
                    range,
                    self.wishes,
                    self.place.cores(),
                    actions.as_slice(),
                );
                self.moved(alloc, order)
            }
            Ask::Plain(plain) => self.answered_plain(alloc, *plain),
            Ask::Command(text) => commanded(
                alloc,
                self.audited,
                &mut self.place,
                &mut self.marks,
                &mut self.wishes,
                text.as_slice(),
            ),
        }
    }

    /// The payloads that a packet without a list is answered.
    fn answered_plain(
        &mut self,
        alloc: Global,
        plain: Plain,
    ) -> Result<Items<Items<u8>>, AllocError>
        ensures kept { IsKept self.old.place self.new.place }
        ensures answers { IfOk result (AnswersPlain plain self.old self.new) }
    {
        // A valid recording has no more cores than there may be.
        let _ = self.audited.recording();
        match plain {
            Plain::StepBack => {
                let order = step_back_order(self.wishes, self.place.cores());
                self.moved(alloc, Some(order))
            }
            Plain::GoBack => {
                let order = go_back_order(self.wishes, self.place.cores());
                self.moved(alloc, Some(order))
            }
            Plain::SetPoint(kind, span) => set_one(alloc, &mut self.points, point_of(kind, span)),
            Plain::ClearPoint(kind, span) => {
                clear_point(alloc, &mut self.points, point_of(kind, span))?;
                one(alloc, &Reply::Done)
            }
            Plain::Quit => Ok(silent(alloc)),
            Plain::ResumeKinds => kinds(alloc),
            _ => answered_still(
                alloc,
                self.audited,
                &self.image,
                &self.place,
                &mut self.wishes,
                plain,
            ),
        }
    }

    /// Obeys an order, if there is one, and tells the stop.
    fn moved(&mut self, alloc: Global, order: Option<Order>) -> Result<Items<Items<u8>>, AllocError>
        requires { IfSome order (λ order. IsWithin order self.old.place.recording.params.cores) }
        ensures kept { IsKept self.old.place self.new.place }
        ensures moves { IfOk result (MovesBy order self.old self.new) }
    {
        let Some(order) = order else {
            return one(alloc, &Reply::Refused);
        };
        let stop = obey(
            alloc,
            self.audited,
            &self.image,
            &mut self.place,
            self.points.as_slice(),
            order,
        )?;
        let payloads = one(alloc, &Reply::Stopped(stop))?;
        self.wishes = told_wishes(self.wishes, stop.core, self.place.cores());
        Ok(payloads)
    }
}

/// Sets a point.
fn set_one(
    alloc: Global,
    points: &mut Items<Point>,
    point: Point,
) -> Result<Items<Items<u8>>, AllocError>
    ensures points { OnOk result (points.new ≡ with_point point points.old) }
    ensures told { IfOk result (λ payloads. payloads ≡ spelled (there_reply (takes point points.old)) ∷ []) }
{
    let set = set_point(points, point)?;
    one(alloc, &there_reply(set))
}

/// The payload that a packet is answered that moves nothing, sets no point and wants an answer.
fn answered_still(
    alloc: Global,
    audited: &Audited,
    image: &Image,
    place: &Place,
    wishes: &mut Wishes,
    plain: Plain,
) -> Result<Items<Items<u8>>, AllocError>
    requires sees { Sees audited.now image.now place.now }
    requires fit { Fit wishes.old place.now.recording.params.cores }
    ensures fit { Fit wishes.new place.now.recording.params.cores }
    ensures wishes { OnOk result (wishes.new ≡ wishes_after wishes.old plain place.now.recording.params.cores) }
    ensures told { IfOk result (λ payloads. payloads ≡ spelled (still_reply place.now wishes.old plain) ∷ []) }
{
    let reply = still_reply(alloc, audited, image, place, *wishes, plain)?;
    let payloads = one(alloc, &reply)?;
    *wishes = wishes_after(*wishes, plain, place.cores());
    Ok(payloads)
}
