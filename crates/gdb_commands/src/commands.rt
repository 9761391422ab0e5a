//! What a command's text means.
ghost use Rattle.std.specs.Prelude.{◌≡◌, IfOk};
ghost use Rattle.std.specs.Option.{option_map};
ghost use Rattle.gdb_commands.specs.Commands.{alone, command_of, counts_of, goto_of, meaning, named, one_core, only};
ghost use Rattle.gdb_commands.specs.Commands.{lead_of, leader_of, one_instr, one_word, order_of, place_named};
ghost use Rattle.gdb_commands.specs.Commands.{cause_named, decision_of, filter_of, first_word, history_of};
ghost use Rattle.gdb_commands.specs.Commands.{mark_of, near_of, other_of, path_named, run_named, spot_of};
ghost use Rattle.gdb_commands.specs.Commands.{asked_named, one_address, trace_of, two_instrs};
ghost use Rattle.gdb_commands.specs.declared.commands.Command.TheVariants.{Unmeant};

use crate::filters::Filter;
use crate::numbers::{address_of, core_of, count_of, named_instr, word_of};
use crate::words::words_of;
use gdb_packets::is;
use rtr_types::{Instr, Items};
use std::alloc::{AllocError, Global};

/// A command of a debugger's user.
#[derive(Drop)]
pub enum Command {
    /// `cut`: where the place is.
    Cut,
    /// `goto C:N`: to the least closed cut with this instruction.
    GoTo(Instr),
    /// `goto N N ..`: to the cut with these counts, a count for each core.
    GoToCut(Items<u32>),
    /// `goto NAME`: to the cut that was marked by this name.
    GoToMark(Items<u8>),
    /// `mark NAME`: the place's cut has this name from here on.
    Mark(Items<u8>),
    /// `marks`: the cuts that are marked.
    Marks,
    /// `earliest C`: this core stays, and the others go back as far as the log lets them.
    Earliest(u8),
    /// `latest C`: this core stays, and the others go on as far as the log lets them.
    Latest(u8),
    /// `edges C:N`: the edges of the log into this instruction, and out of it.
    Edges(Instr),
    /// `writer ADDR`: the last write of this word, by its index, so far.
    Writer(u32),
    /// `readers ADDR`: the loads of this word since then.
    Readers(u32),
    /// `history ADDR`: all accesses to this word. `history ADDR writes`, `history ADDR core C`: those that write it,
    /// those of this core.
    History(u32, Filter),
    /// `conflicts C:N`: the accesses around this instruction's with which it conflicts.
    Conflicts(Instr),
    /// `order C:N C:N`: which of the two instructions comes before the other.
    Order(Instr, Instr),
    /// `decision C:N C:N`: to a cut at which both instructions come next.
    Decision(Instr, Instr),
    /// `decisions`: the edges of the log by the instructions of the program between which they lead.
    Decisions,
    /// `lead C` and `lead all`: all cores go on, and back, by this core alone, or each goes.
    Lead(Option<u8>),
    /// `last ADDR`: to where the last write of this word, by its index, so far comes next.
    Last(u32),
    /// `slack C`: how far the others may move while this core stays.
    Slack(u8),
    /// `why C:N`: the chain of edges by which this instruction waited.
    Why(Instr),
    /// `other C:N C:N`: what the run comes to if the second instruction goes first where both come next.
    Other(Instr, Instr),
    /// `when`: where each core is.
    When,
    /// `info`: what the session was begun with, and how each core of the recording ends.
    Info,
    /// `trace C:N` and `trace C:N K`: the instructions of the core from so many before this one to so many behind it.
    Trace(Instr, u32),
    /// `calls ADDR`: how often each core came to this pc, and the first and the last time.
    Calls(u32),
    /// Every other text, by its first word.
    Unmeant(Items<u8>),
}

/// What a text means: words between spaces, the command's name first. It is refused for want of memory alone.
pub fn command_of(alloc: Global, text: &[u8]) -> Result<Command, AllocError>
    ensures { IfOk result (λ command. command ≡ command_of text.now) }
{
    let words = words_of(alloc, text)?;
    match meaning(alloc, words.as_slice())? {
        Some(command) => Ok(command),
        None => unmeant(alloc, words.as_slice()),
    }
}

/// Words that mean nothing, by the first of them.
fn unmeant(alloc: Global, words: &[Items<u8>]) -> Result<Command, AllocError>
    ensures { IfOk result (λ command. command ≡ Unmeant (first_word words.now)) }
{
    let first = match words.first() {
        Some(name) => name.as_slice(),
        None => &[],
    };
    Ok(Command::Unmeant(Items::from_vec(Vec::from_slice(alloc, first)?)))
}

/// What words mean, if they mean a command.
fn meaning(alloc: Global, words: &[Items<u8>]) -> Result<Option<Command>, AllocError>
    ensures { IfOk result (λ command. command ≡ meaning words.now) }
{
    match words.split_first() {
        Some((name, arguments)) if is(name.as_slice(), "goto") => goto_of(alloc, arguments),
        Some((name, arguments)) if is(name.as_slice(), "mark") => mark_of(alloc, arguments),
        Some((name, arguments)) => Ok(named(name.as_slice(), arguments)),
        None => Ok(None),
    }
}

/// A command by its name, if it has one that takes no list.
fn named(name: &[u8], arguments: &[Items<u8>]) -> Option<Command>
    ensures { result ≡ named name.now arguments.now }
{
    match place_named(name, arguments) {
        Some(command) => Some(command),
        None => match cause_named(name, arguments) {
            Some(command) => Some(command),
            None => asked_named(name, arguments),
        },
    }
}

/// The commands that ask for a word, an instruction, a pc or the whole of the run.
fn asked_named(name: &[u8], arguments: &[Items<u8>]) -> Option<Command>
    ensures { result ≡ asked_named name.now arguments.now }
{
    match run_named(name, arguments) {
        Some(command) => Some(command),
        None => path_named(name, arguments),
    }
}

/// The commands that ask which instructions cores took.
fn path_named(name: &[u8], arguments: &[Items<u8>]) -> Option<Command>
    ensures { result ≡ path_named name.now arguments.now }
{
    if is(name, "trace") {
        trace_of(arguments)
    } else if is(name, "calls") {
        one_address(arguments).map(Command::Calls)
    } else {
        None
    }
}

/// The commands that say where the place is, or move it, `order`, `decision` and `lead`.
fn place_named(name: &[u8], arguments: &[Items<u8>]) -> Option<Command>
    ensures { result ≡ place_named name.now arguments.now }
{
    if is(name, "cut") {
        alone(Command::Cut, arguments)
    } else if is(name, "earliest") {
        one_core(arguments).map(Command::Earliest)
    } else if is(name, "latest") {
        one_core(arguments).map(Command::Latest)
    } else if is(name, "order") {
        order_of(arguments)
    } else if is(name, "decision") {
        decision_of(arguments)
    } else if is(name, "lead") {
        lead_of(arguments)
    } else {
        None
    }
}

/// The commands that go to a word's last write, or tell how far cores may move, why one waited, what the other order
/// comes to, where all cores are, and which cuts are marked.
fn cause_named(name: &[u8], arguments: &[Items<u8>]) -> Option<Command>
    ensures { result ≡ cause_named name.now arguments.now }
{
    if is(name, "last") {
        one_word(arguments).map(Command::Last)
    } else if is(name, "slack") {
        one_core(arguments).map(Command::Slack)
    } else if is(name, "why") {
        one_instr(arguments).map(Command::Why)
    } else if is(name, "other") {
        other_of(arguments)
    } else if is(name, "when") {
        alone(Command::When, arguments)
    } else if is(name, "marks") {
        alone(Command::Marks, arguments)
    } else {
        None
    }
}

/// The commands that ask for a word or an instruction of the run, `decisions` and `info`.
fn run_named(name: &[u8], arguments: &[Items<u8>]) -> Option<Command>
    ensures { result ≡ run_named name.now arguments.now }
{
    if is(name, "edges") {
        one_instr(arguments).map(Command::Edges)
    } else if is(name, "writer") {
        one_word(arguments).map(Command::Writer)
    } else if is(name, "readers") {
        one_word(arguments).map(Command::Readers)
    } else if is(name, "history") {
        history_of(arguments)
    } else if is(name, "conflicts") {
        one_instr(arguments).map(Command::Conflicts)
    } else if is(name, "decisions") {
        alone(Command::Decisions, arguments)
    } else if is(name, "info") {
        alone(Command::Info, arguments)
    } else {
        None
    }
}

/// A command that has no argument.
fn alone(command: Command, arguments: &[Items<u8>]) -> Option<Command>
    ensures { result ≡ alone command arguments.now }
{
    match arguments {
        [] => Some(command),
        _ => None,
    }
}

/// `goto` with an instruction, with counts, or with a name.
fn goto_of(alloc: Global, arguments: &[Items<u8>]) -> Result<Option<Command>, AllocError>
    ensures { IfOk result (λ command. command ≡ goto_of arguments.now) }
{
    match spot_of(alloc, arguments)? {
        Some(command) => Ok(Some(command)),
        None => Ok(name_of(alloc, arguments)?.map(Command::GoToMark)),
    }
}

/// `mark` with a name that `goto` takes for one.
fn mark_of(alloc: Global, arguments: &[Items<u8>]) -> Result<Option<Command>, AllocError>
    ensures { IfOk result (λ command. command ≡ mark_of arguments.now) }
{
    match spot_of(alloc, arguments)? {
        Some(_) => Ok(None),
        None => Ok(name_of(alloc, arguments)?.map(Command::Mark)),
    }
}

/// `goto` with an instruction, or with counts.
fn spot_of(alloc: Global, arguments: &[Items<u8>]) -> Result<Option<Command>, AllocError>
    ensures { IfOk result (λ command. command ≡ spot_of arguments.now) }
{
    match one_instr(arguments) {
        Some(at) => Ok(Some(Command::GoTo(at))),
        None => Ok(counts_of(alloc, arguments)?.map(Command::GoToCut)),
    }
}

/// The one argument, as a name of its own.
fn name_of(alloc: Global, arguments: &[Items<u8>]) -> Result<Option<Items<u8>>, AllocError>
    ensures { IfOk result (λ name. name ≡ only arguments.now) }
{
    match only(arguments) {
        Some(name) => Ok(Some(Items::from_vec(Vec::from_slice(alloc, name)?))),
        None => Ok(None),
    }
}

/// Two instructions.
fn two_instrs(arguments: &[Items<u8>]) -> Option<(Instr, Instr)>
    ensures { result ≡ two_instrs arguments.now }
{
    match arguments {
        [at, next] => {
            let at = named_instr(at.as_slice())?;
            let next = named_instr(next.as_slice())?;
            Some((at, next))
        }
        _ => None,
    }
}

/// `order` with two instructions.
fn order_of(arguments: &[Items<u8>]) -> Option<Command>
    ensures { result ≡ order_of arguments.now }
{
    let (at, next) = two_instrs(arguments)?;
    Some(Command::Order(at, next))
}

/// `decision` with two instructions.
fn decision_of(arguments: &[Items<u8>]) -> Option<Command>
    ensures { result ≡ decision_of arguments.now }
{
    let (at, next) = two_instrs(arguments)?;
    Some(Command::Decision(at, next))
}

/// `other` with two instructions.
fn other_of(arguments: &[Items<u8>]) -> Option<Command>
    ensures { result ≡ other_of arguments.now }
{
    let (at, next) = two_instrs(arguments)?;
    Some(Command::Other(at, next))
}

/// `history` with a word, and which accesses to it are told.
fn history_of(arguments: &[Items<u8>]) -> Option<Command>
    ensures { result ≡ history_of arguments.now }
{
    match arguments.split_first() {
        Some((word, rest)) => {
            let word = word_of(word.as_slice())?;
            let filter = filter_of(rest)?;
            Some(Command::History(word, filter))
        }
        None => None,
    }
}

/// Which accesses to a word are told.
fn filter_of(arguments: &[Items<u8>]) -> Option<Filter>
    ensures { result ≡ filter_of arguments.now }
{
    match arguments {
        [] => Some(Filter::Every),
        [one] if is(one.as_slice(), "writes") => Some(Filter::Writes),
        [one, next] if is(one.as_slice(), "core") => core_of(next.as_slice()).map(Filter::ByCore),
        _ => None,
    }
}

/// `trace` with an instruction, and how many are told on each side of it.
fn trace_of(arguments: &[Items<u8>]) -> Option<Command>
    ensures { result ≡ trace_of arguments.now }
{
    match arguments.split_first() {
        Some((at, rest)) => {
            let at = named_instr(at.as_slice())?;
            let near = near_of(rest)?;
            Some(Command::Trace(at, near))
        }
        None => None,
    }
}

/// How many instructions are told on each side of one.
fn near_of(arguments: &[Items<u8>]) -> Option<u32>
    ensures { result ≡ near_of arguments.now }
{
    match arguments {
        [] => Some(10),
        [near] => count_of(near.as_slice()),
        _ => None,
    }
}

/// `lead` with a core, or with `all`.
fn lead_of(arguments: &[Items<u8>]) -> Option<Command>
    ensures { result ≡ lead_of arguments.now }
{
    leader_of(only(arguments)?)
}

/// The core that the word says is to lead, or none where it is `all`.
fn leader_of(word: &[u8]) -> Option<Command>
    ensures { result ≡ leader_of word.now }
{
    if is(word, "all") {
        return Some(Command::Lead(None));
    }
    let core = core_of(word)?;
    Some(Command::Lead(Some(core)))
}

/// The one argument, a core.
fn one_core(arguments: &[Items<u8>]) -> Option<u8>
    ensures { result ≡ one_core arguments.now }
{
    core_of(only(arguments)?)
}

/// The one argument, an instruction.
fn one_instr(arguments: &[Items<u8>]) -> Option<Instr>
    ensures { result ≡ one_instr arguments.now }
{
    named_instr(only(arguments)?)
}

/// The one argument, an address: the index of its word.
fn one_word(arguments: &[Items<u8>]) -> Option<u32>
    ensures { result ≡ one_word arguments.now }
{
    word_of(only(arguments)?)
}

/// The one argument, an address.
fn one_address(arguments: &[Items<u8>]) -> Option<u32>
    ensures { result ≡ one_address arguments.now }
{
    address_of(only(arguments)?)
}

/// The one argument.
fn only(arguments: &[Items<u8>]) -> Option<&[u8]>
    ensures { option_map (λ word. word.now) result ≡ only arguments.now }
{
    match arguments {
        [word] => Some(word.as_slice()),
        _ => None,
    }
}

/// The arguments as counts, unless one is none.
fn counts_of(alloc: Global, arguments: &[Items<u8>]) -> Result<Option<Items<u32>>, AllocError>
    ensures { IfOk result (λ counts. counts ≡ counts_of arguments.now) }
{
    let mut counts = Items::new(alloc);
    for word in arguments {
        match count_of(word.as_slice()) {
            Some(count) => counts.push(count)?,
            None => return Ok(None),
        }
    }
    Ok(Some(counts))
}
