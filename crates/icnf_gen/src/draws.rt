//! Literals that are drawn.

ghost use Rattle.std.specs.Prelude.{◌≡◌, ◌≤◌, ◌*◌};
ghost use Rattle.icnf_gen.specs.Draws.{lit_of_number, next_state, number_of};

use sat_base::Lit;
use std::marker::Model;

// The multiplier and the increment of Knuth's generator for MMIX.
const MULTIPLIER: u64 = 6_364_136_223_846_793_005;

const INCREMENT: u64 = 1_442_695_040_888_963_407;

/// A linear congruential generator. Its state starts as the seed.
#[derive(Debug, Drop)]
pub(crate) struct Draws {
    state: u64,
}

impl Model for Draws {
    ghost use Rattle.std.specs.Prelude.{ℕ};

    ghost Value = { ℕ };

    ghost view = { λ draws. draws.state };
}

impl Draws {
    pub(crate) fn new(seed: u64) -> Draws
        ensures { result ≡ seed }
    {
        Draws { state: seed }
    }

    /// The next number, below 2^31: the upper bits of the state behind the draw.
    pub(crate) fn number(&mut self) -> u64
        ensures state { self.new ≡ next_state self.old }
        ensures number { result ≡ number_of self.new }
    {
        self.state = self.state.wrapping_mul(MULTIPLIER).wrapping_add(INCREMENT);
        self.state / 8_589_934_592
    }

    /// The literal that the next number stands for, of a variable from 1 to 100.
    pub(crate) fn lit(&mut self) -> Lit
        ensures state { self.new ≡ next_state self.old }
        ensures lit { result ≡ lit_of_number (number_of self.new) }
    {
        let number = self.number();
        let variable = positive(1 + (number % 100) as u32);
        if number / 100 % 2 == 1 {
            variable.negated()
        } else {
            variable
        }
    }
}

/// The positive literal of a variable.
pub(crate) fn positive(variable: u32) -> Lit
    requires low { 1 ≤ variable }
    requires high { variable ≤ 8388607 }
    ensures { result ≡ 2 * variable }
{
    Lit::of(variable as i32).unwrap()
}
