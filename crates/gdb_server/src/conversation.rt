//! What is heard and said, in one history.
ghost use Rattle.std.specs.Prelude.{◌≡◌, ℕ, [], ◌∷◌, ◌++◌, IfOk, List, MatchOption, OnErr, OnOk};
ghost use Rattle.rtr_io.specs.Faults.{HasRisen};
ghost use Rattle.gdb_server.specs.Words.{Heard, IsFront, StreamsPassed, Word, saying};
ghost use Rattle.std.specs.Io.KnownBytes.{IsAtEnd};
ghost use Rattle.gdb_server.specs.Passing.{nothing_passed, passed_on};

use rtr_io::{Failed, Sink, Source, WriteFault, write_all};

/// A conversation: bytes are heard and said in turn. Contracts see its history, in which each byte that was heard and
/// each that was said stands where it passed, and two counts of faults, which stand still at 2^64 - 1.
pub trait Conversation {
    /// These words passed between the two states, in order.
    ghost passed: { Self → List Word → Self → Type 0 };

    /// Nothing has passed from a state to itself.
    ghost nothing: { (c : Self) → passed c [] c };

    /// What passed to a state, and then from it on.
    ghost goes_on: { (a b c : Self) (first more : List Word) → passed a first b → passed b more c →
        passed a (first ++ more) c };

    /// No byte is left to be heard, where it tells that.
    ghost is_over: { Self → Type 0 };

    /// How many calls failed to hear.
    ghost read_faults: { Self → ℕ };

    /// How many calls failed to say.
    ghost write_faults: { Self → ℕ };

    /// Hears the next byte; none where no byte is left. `Failed` comes only where the count of read faults rose, and
    /// then nothing was heard.
    fn hear(&mut self) -> Result<Option<u8>, Failed>
        ensures heard { IfOk result (λ heard. MatchOption heard (passed self.old [] self.new × is_over self.new)
            (λ byte. passed self.old (Heard byte ∷ []) self.new)) }
        ensures unheard { OnErr result (passed self.old [] self.new) }
        ensures ok { OnOk result (read_faults self.new ≡ read_faults self.old) }
        ensures failed { OnErr result (HasRisen (read_faults self.old) (read_faults self.new)) }
        ensures other { write_faults self.new ≡ write_faults self.old };

    /// Says all bytes. The fault comes only where the count of write faults rose, and then a front of them was said.
    fn say(&mut self, bytes: &[u8]) -> Result<(), WriteFault>
        ensures said { OnOk result (passed self.old (saying bytes.now) self.new) }
        ensures part { OnErr result ((part : List Word) × IsFront part (saying bytes.now)
            × passed self.old part self.new) }
        ensures ok { OnOk result (write_faults self.new ≡ write_faults self.old) }
        ensures failed { OnErr result (HasRisen (write_faults self.old) (write_faults self.new)) }
        ensures other { read_faults self.new ≡ read_faults self.old };
}

/// A conversation over two streams: what is heard comes from the one, and what is said goes to the other.
#[derive(Drop)]
pub struct Streams<I, O> {
    /// Where bytes are heard from.
    pub input: I,
    /// Where bytes are said to.
    pub output: O,
}

impl<I: Source, O: Sink> Conversation for Streams<I, O> {
    ghost passed = { λ old words new. StreamsPassed (I.left old.input) (I.left new.input) (O.got old.output)
        (O.got new.output) words };

    ghost nothing = { λ c. nothing_passed (I.left c.input) (O.got c.output) };

    ghost goes_on = { λ a b c first more was then. passed_on (I.left a.input) (I.left b.input) (I.left c.input)
        (O.got a.output) (O.got b.output) (O.got c.output) first more was then };

    ghost is_over = { λ c. IsAtEnd (I.left c.input) };

    ghost read_faults = { λ c. I.faults c.input };

    ghost write_faults = { λ c. O.faults c.output };

    fn hear(&mut self) -> Result<Option<u8>, Failed> {
        let mut byte = [0u8; 1];
        match self.input.take(&mut byte) {
            Ok(0) => Ok(None),
            Ok(_) => Ok(Some(byte[0])),
            Err(Failed) => Err(Failed),
        }
    }

    fn say(&mut self, bytes: &[u8]) -> Result<(), WriteFault> {
        write_all(&mut self.output, bytes)
    }
}
