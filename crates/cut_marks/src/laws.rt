//! What is marked is found.
ghost use Rattle.cut_marks.specs.Marks.{FoundLaw};

/// What `put` gave a name `counts` answers.
pub fn put_is_found()
    ensures { FoundLaw }
{}
