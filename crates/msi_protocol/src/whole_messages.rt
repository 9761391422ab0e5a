//! What the moves of one block have to do with the controllers, whose messages carry words and riders.
ghost use Rattle.std.specs.Prelude.{Bool, ℕ};
ghost use Rattle.msi_cache.specs.declared.line.Line.{Line};
ghost use Rattle.msi_cache.specs.declared.line.State.{State};
ghost use Rattle.msi_cache.specs.declared.messages.FromHome.{FromHome};
ghost use Rattle.msi_cache.specs.declared.messages.Request.{Request};
ghost use Rattle.msi_cache.specs.declared.messages.Response.{Response};
ghost use Rattle.msi_directory.specs.declared.entry.Entry.{Entry};
ghost use Rattle.msi_protocol.specs.Controllers.{AsksAsWished, RequestAsMoved, ResponseAsMoved, TakesAsMoved};

use access_times::Rider;

/// The controllers make these moves: what the home does with a request or a response is the step of its
/// kind, what a cache does with a message from home that has a row is the move of its kind, and what a
/// line asks for an access is what a wish asks.
pub fn controllers_make_these_moves<R: Rider>()
    ensures request { (e : Entry R) (c : ℕ) (request : Request R) → RequestAsMoved R.riding e c request }
    ensures response { (e : Entry R) (c : ℕ) (response : Response R) → ResponseAsMoved R.riding e c response }
    ensures message { (line : Line R) (m : FromHome R) → TakesAsMoved R.riding line m }
    ensures wish { (state : State) (writes : Bool) → AsksAsWished state writes }
{}
