//! Sets of cores, one bit a core.
ghost use Rattle.std.specs.Prelude.{◌≡◌, ℕ, ◌<◌, ◌≢◌, true, false, IsTrue};
ghost use Rattle.rtr_types.specs.CoreSets.{has, with_core, without_core, is_below, is_none, no_cores};
ghost use Rattle.rtr_types.specs.declared.core_set.CoreSet.{CoreSet};

use crate::CORES_MAX;

/// A set of cores: bit `k` of `bits` is set where core `k` is in it.
#[derive(Clone, Copy, Debug, Default, PartialEq, Eq)]
pub struct CoreSet {
    pub bits: u16,
}

impl CoreSet {
    /// The set of no core.
    pub fn empty() -> Self
        ensures { result ≡ no_cores }
    {
        CoreSet { bits: 0 }
    }

    /// Whether the core is in the set.
    pub fn has(self, core: u8) -> bool
        requires { core < CORES_MAX }
        ensures { result ≡ has self core }
    {
        self.bits >> core & 1 == 1
    }

    /// The set and the core.
    pub fn with(self, core: u8) -> Self
        requires { core < CORES_MAX }
        ensures { result ≡ with_core self core }
    {
        CoreSet {
            bits: self.bits | 1 << core,
        }
    }

    /// The set but for the core.
    pub fn without(self, core: u8) -> Self
        requires { core < CORES_MAX }
        ensures { result ≡ without_core self core }
    {
        CoreSet {
            bits: self.bits & !(1 << core),
        }
    }

    /// Whether no core is in the set.
    pub fn is_empty(self) -> bool
        ensures { result ≡ is_none self }
    {
        self.bits == 0
    }
}

/// What the words on sets of cores mean: a core that is put in is in, one that is taken out is not, no
/// other core moves, a set that isn't empty has a core, and no set has a core that there can't be.
pub fn core_set_laws()
    ensures with_same { (s : CoreSet) (c : ℕ) → c < CORES_MAX → has (with_core s c) c ≡ true }
    ensures with_other { (s : CoreSet) (c d : ℕ) → c < CORES_MAX → d ≢ c → has (with_core s c) d ≡ has s d }
    ensures without_same { (s : CoreSet) (c : ℕ) → c < CORES_MAX → has (without_core s c) c ≡ false }
    ensures without_other { (s : CoreSet) (c d : ℕ) → c < CORES_MAX → d < CORES_MAX → d ≢ c → has (without_core s c) d
        ≡ has s d }
    ensures none { (d : ℕ) → has no_cores d ≡ false }
    ensures empty { (s : CoreSet) (d : ℕ) → is_none s ≡ true → has s d ≡ false }
    ensures nonempty { (s : CoreSet) (c : ℕ) → c < CORES_MAX → is_none (with_core s c) ≡ false }
    ensures some { (s : CoreSet) → IsTrue (is_below s) → is_none s ≡ false → (d : ℕ) × (d < CORES_MAX)
        × (has s d ≡ true) }
    ensures below { IsTrue (is_below no_cores) }
    ensures with_below { (s : CoreSet) (c : ℕ) → IsTrue (is_below s) → IsTrue (is_below (with_core s c)) }
    ensures without_below { (s : CoreSet) (c : ℕ) → IsTrue (is_below s) → IsTrue (is_below (without_core s c)) }
{}
