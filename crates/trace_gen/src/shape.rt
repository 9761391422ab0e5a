//! The programs that there are.
ghost use Rattle.std.specs.Prelude.{◌≡◌};
ghost use Rattle.trace_gen.specs.Programs.{takes};

/// Which program an image holds, beside its number.
#[derive(Clone, Copy, Debug, PartialEq, Eq)]
pub enum Shape {
    /// Loads, stores of words and of bytes, and additions, as PCG's generator draws them from the number: 256 of
    /// them, gone through 100 times by every core, on the 256 bytes from address 1280 on.
    Mix,
    /// Peterson's lock for cores 0 and 1 (Peterson 1981), taken as many times by each as the number says. In it a
    /// core adds 1 to the word at address 304.
    Lock,
}

impl Shape {
    /// Whether the shape has an image of this number: the lock from 1 to 2047, the mix of any.
    pub fn takes(self, number: u64) -> bool
        ensures { result ≡ takes self number }
    {
        match self {
            Shape::Mix => true,
            Shape::Lock => 1 <= number && number <= 2047,
        }
    }
}
