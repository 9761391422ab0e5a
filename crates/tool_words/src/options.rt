//! The options, and what their settings come to.
ghost use Rattle.std.specs.Prelude.{◌≡◌, [], ◌∷◌, IfErr, IfOk, Some};
ghost use Rattle.std.specs.Option.{option_map};
ghost use Rattle.tool_words.specs.Settings.{seen};
ghost use Rattle.tool_words.specs.Commands.{named_instr, shaped};
ghost use Rattle.tool_words.specs.Names.{named_by};
ghost use Rattle.tool_words.specs.Options.{are_together_few, is_set, no_settings, option_named, option_of};
ghost use Rattle.tool_words.specs.Options.{params_of, put_new, takes, takes_value, which_of, whole_blocks};
ghost use Rattle.tool_words.specs.Faults.{IsOpen, Refuses, may_have_image, range, refusal};

use crate::choices::are_choices;
use crate::command::Verb;
use crate::faults::Why;
use crate::numerals::{is_numeral, number_between};
use rtr_types::{
    BLOCK_WORDS, CORES_MAX, INSTRUCTIONS_MAX, Instr, LIMIT_MAX, Params, WORDS_MAX, WORDS_MIN, Which,
};
use trace_gen::Shape;

/// The number of cores of a run whose words name none.
pub const CORES_DEFAULT: u8 = 1;

/// The limit of a run whose words name none.
pub const LIMIT_DEFAULT: u32 = 10_000;

/// The words of a memory whose words name none.
pub const WORDS_DEFAULT: u32 = 16_384;

/// The most threads of a replay.
pub const THREADS_MAX: u32 = 8;

/// An option by its name.
#[derive(Clone, Copy)]
pub enum Name {
    /// `--cores`
    Cores,
    /// `--limit`
    Limit,
    /// `--words`
    Words,
    /// `--choices`
    Choices,
    /// `--seed`
    Seed,
    /// `--log`
    Log,
    /// `--shape`
    Shape,
    /// `--number`
    Number,
    /// `--core`
    Core,
    /// `--count`
    Count,
    /// `--threads`
    Threads,
    /// `--loads`, a flag
    Loads,
    /// `--elf`, a flag
    Elf,
    /// `--latest`, a flag
    Latest,
    /// `--certify`, a flag
    Certified,
}

impl Name {
    /// The option that this word names, exactly, where the command takes it.
    pub(crate) fn of(verb: Verb, word: &str) -> Option<Name>
        ensures { result ≡ option_of verb word.now }
    {
        let name = Name::named(word)?;
        if name.is_taken_by(verb) {
            Some(name)
        } else {
            None
        }
    }

    /// The option that this word names, exactly.
    fn named(word: &str) -> Option<Name>
        ensures { result ≡ option_named word.now }
    {
        match word {
            "--cores" => Some(Name::Cores),
            "--limit" => Some(Name::Limit),
            "--words" => Some(Name::Words),
            "--choices" => Some(Name::Choices),
            "--seed" => Some(Name::Seed),
            "--elf" => Some(Name::Elf),
            "--shape" => Some(Name::Shape),
            "--number" => Some(Name::Number),
            "--log" => Some(Name::Log),
            "--loads" => Some(Name::Loads),
            "--certify" => Some(Name::Certified),
            "--threads" => Some(Name::Threads),
            "--core" => Some(Name::Core),
            "--count" => Some(Name::Count),
            "--latest" => Some(Name::Latest),
            _ => None,
        }
    }

    /// Whether the command takes the option.
    fn is_taken_by(self, verb: Verb) -> bool
        ensures { result ≡ takes verb self }
    {
        match self {
            Name::Cores | Name::Limit | Name::Words | Name::Seed => {
                matches!(
                    verb,
                    Verb::Record | Verb::Run | Verb::Soak | Verb::TsoRecord | Verb::TsoRun
                )
            }
            Name::Choices => {
                matches!(
                    verb,
                    Verb::Record | Verb::Run | Verb::TsoRecord | Verb::TsoRun
                )
            }
            Name::Elf => matches!(verb, Verb::Record | Verb::Run),
            Name::Log => matches!(verb, Verb::Replay | Verb::At),
            Name::Loads => {
                matches!(
                    verb,
                    Verb::Run | Verb::Replay | Verb::At | Verb::TsoRun | Verb::TsoReplay
                )
            }
            Name::Shape | Name::Number => matches!(verb, Verb::Gen | Verb::Soak),
            Name::Core | Name::Count | Name::Latest => matches!(verb, Verb::At),
            Name::Certified => matches!(verb, Verb::Thin),
            Name::Threads => matches!(verb, Verb::Replay),
        }
    }

    /// Whether a value follows the name; a flag has none.
    pub(crate) fn takes_value(self) -> bool
        ensures { result ≡ takes_value self }
    {
        !matches!(
            self,
            Name::Loads | Name::Elf | Name::Latest | Name::Certified
        )
    }

    /// The least and the greatest value, where the value is a number.
    fn range(self) -> Option<(u64, u64)>
        ensures { result ≡ range self }
    {
        match self {
            Name::Cores => Some((1, CORES_MAX as u64)),
            Name::Limit | Name::Count => Some((1, LIMIT_MAX as u64)),
            Name::Words => Some((WORDS_MIN as u64, WORDS_MAX as u64)),
            Name::Seed | Name::Number => Some((0, u64::MAX)),
            Name::Core => Some((0, CORES_MAX as u64 - 1)),
            Name::Threads => Some((1, THREADS_MAX as u64)),
            _ => None,
        }
    }

    /// Why the text is no value of the option.
    fn refusal(self, text: &str) -> Why
        ensures { result ≡ refusal self text.now }
    {
        match self.range() {
            Some((least, most)) if is_numeral(text.as_bytes()) => {
                Why::OutOfRange {
                    option: self,
                    least,
                    most,
                }
            }
            Some(_) => Why::NoNumber(self),
            None => Why::NoSuchValue(self),
        }
    }
}

/// What the options have been set to; `None` and `false` where one hasn't. The choices are kept as the
/// text that spells them, so that reading words takes no memory.
#[derive(Clone, Copy)]
pub(crate) struct Settings<'a> {
    pub(crate) cores: Option<u8>,
    pub(crate) limit: Option<u32>,
    pub(crate) words: Option<u32>,
    pub(crate) choices: Option<&'a str>,
    pub(crate) seed: Option<u64>,
    pub(crate) log: Option<Which>,
    pub(crate) shape: Option<Shape>,
    pub(crate) number: Option<u64>,
    pub(crate) core: Option<u8>,
    pub(crate) count: Option<u32>,
    pub(crate) threads: Option<u32>,
    pub(crate) loads: bool,
    pub(crate) elf: bool,
    pub(crate) latest: bool,
    pub(crate) certify: bool,
}

impl<'a> Settings<'a> {
    /// No option is set.
    pub(crate) fn none() -> Settings<'a>
        ensures { seen result ≡ no_settings }
    {
        Settings {
            cores: None,
            limit: None,
            words: None,
            choices: None,
            seed: None,
            log: None,
            shape: None,
            number: None,
            core: None,
            count: None,
            threads: None,
            loads: false,
            elf: false,
            latest: false,
            certify: false,
        }
    }

    /// With this option set too, which isn't set; or why words that set it so can't go on to a command.
    pub(crate) fn with(self, name: Name, text: &'a str) -> Result<Settings<'a>, Why>
        ensures ok { IfOk result (λ s. (put_new (seen self.entry) name text.now ≡ Some (seen s)) × IsOpen (seen s)) }
        ensures err { IfErr result (λ why. Refuses (seen self.entry) name text.now why) }
    {
        let next = match self.put_new(name, text) {
            Some(next) => next,
            None => return Err(name.refusal(text)),
        };
        if !next.are_together_few() {
            Err(Why::TooMany)
        } else if !next.may_have_image() {
            Err(Why::NoImage)
        } else {
            Ok(next)
        }
    }

    /// Whether the option is set.
    pub(crate) fn is_set(&self, name: Name) -> bool
        ensures { result ≡ is_set (seen self.now) name }
    {
        match name {
            Name::Cores => self.cores.is_some(),
            Name::Limit => self.limit.is_some(),
            Name::Words => self.words.is_some(),
            Name::Choices => self.choices.is_some(),
            Name::Seed => self.seed.is_some(),
            Name::Log => self.log.is_some(),
            Name::Shape => self.shape.is_some(),
            Name::Number => self.number.is_some(),
            Name::Core => self.core.is_some(),
            Name::Count => self.count.is_some(),
            Name::Threads => self.threads.is_some(),
            Name::Loads => self.loads,
            Name::Elf => self.elf,
            Name::Latest => self.latest,
            Name::Certified => self.certify,
        }
    }

    /// With this option set; `None` where it has no such value.
    fn put_new(self, name: Name, text: &'a str) -> Option<Settings<'a>>
        ensures { option_map (λ s. seen s) result ≡ put_new (seen self.entry) name text.now }
    {
        let mut next = self;
        match name {
            Name::Cores => next.cores = Some(number_between(1, CORES_MAX as u64, text)? as u8),
            Name::Limit => next.limit = Some(number_between(1, LIMIT_MAX as u64, text)? as u32),
            Name::Words => next.words = Some(whole_blocks(text)?),
            Name::Seed => next.seed = Some(number_between(0, u64::MAX, text)?),
            Name::Log => next.log = Some(one_of(
                text,
                ("reduced", Which::Reduced),
                ("regulated", Which::Regulated),
            )?),
            Name::Shape => next.shape = Some(one_of(
                text,
                ("mix", Shape::Mix),
                ("lock", Shape::Lock),
            )?),
            Name::Number => next.number = Some(number_between(0, u64::MAX, text)?),
            Name::Core => next.core = Some(number_between(0, CORES_MAX as u64 - 1, text)? as u8),
            Name::Count => next.count = Some(number_between(1, LIMIT_MAX as u64, text)? as u32),
            Name::Threads => next.threads = Some(
                number_between(1, THREADS_MAX as u64, text)? as u32,
            ),
            Name::Loads => next.loads = true,
            Name::Elf => next.elf = true,
            Name::Latest => next.latest = true,
            Name::Certified => next.certify = true,
            Name::Choices if are_choices(text.as_bytes()) => next.choices = Some(text),
            Name::Choices => return None,
        }
        Some(next)
    }

    /// The parameters of a run with these settings.
    pub(crate) fn params(&self) -> Params
        ensures { result ≡ params_of (seen self.now) }
    {
        Params {
            cores: self.cores.unwrap_or(CORES_DEFAULT),
            limit: self.limit.unwrap_or(LIMIT_DEFAULT),
            words: self.words.unwrap_or(WORDS_DEFAULT),
        }
    }

    /// The log of a replay with these settings.
    pub(crate) fn which(&self) -> Which
        ensures { result ≡ which_of (seen self.now) }
    {
        self.log.unwrap_or(Which::Reduced)
    }

    /// Whether the cores together are given no more instructions than a run may have.
    fn are_together_few(&self) -> bool
        ensures { result ≡ are_together_few (seen self.now) }
    {
        let params = self.params();
        params.cores as u64 * params.limit as u64 <= INSTRUCTIONS_MAX as u64
    }

    /// Whether the shape has an image of the number, as far as both are set.
    fn may_have_image(&self) -> bool
        ensures { result ≡ may_have_image (seen self.now) }
    {
        match (self.shape, self.number) {
            (Some(shape), Some(number)) => shape.takes(number),
            _ => true,
        }
    }

    /// The shape and the number of an image, where both are set and the shape has an image of this number.
    pub(crate) fn shaped(&self) -> Option<(Shape, u64)>
        ensures { result ≡ shaped (seen self.now) }
    {
        let shape = self.shape?;
        let number = self.number?;
        if shape.takes(number) {
            Some((shape, number))
        } else {
            None
        }
    }

    /// The instruction whose core and count are set, both of them.
    pub(crate) fn instr(&self) -> Option<Instr>
        ensures { result ≡ named_instr (seen self.now) }
    {
        let core = self.core?;
        let count = self.count?;
        Some(Instr { core, count })
    }
}

/// What the text is of two words, exactly, by what each of them means.
fn one_of<T: Copy>(text: &str, first: (&str, T), second: (&str, T)) -> Option<T>
    ensures { result ≡ named_by
        ((first.entry.0.now, first.entry.1) ∷ (second.entry.0.now, second.entry.1) ∷ []) text.now }
{
    if text == first.0 {
        Some(first.1)
    } else if text == second.0 {
        Some(second.1)
    } else {
        None
    }
}

/// The number of words of a memory: in range, and of whole blocks.
pub fn whole_blocks(text: &str) -> Option<u32>
    ensures { result ≡ whole_blocks text.now }
{
    let words = number_between(WORDS_MIN as u64, WORDS_MAX as u64, text)?;
    if words % BLOCK_WORDS as u64 == 0 {
        Some(words as u32)
    } else {
        None
    }
}
