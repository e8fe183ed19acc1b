// A generator of numbers.
ghost use Rattle.std.specs.Prelude.{◌≡◌, ◌≤◌, ◌%◌};
ghost use Rattle.drill_draws.specs.Draws.{next, nth_draw};

use std::marker::Model;

/// A linear congruential generator: each number makes the next one, and a draw gives the upper 24 bits of it. Contracts
/// see the number.
#[derive(Drop)]
pub struct Generator {
    x: u32,
}

impl Model for Generator {
    ghost use Rattle.std.specs.Prelude.{ℕ};

    ghost Value = { ℕ };

    ghost view = { λ generator. generator.x };
}

impl Generator {
    /// A generator that begins with this number.
    pub fn new(x: u32) -> Generator
        ensures { result ≡ x }
    {
        Generator { x }
    }

    /// The next draw, which has 24 bits.
    pub fn draw(&mut self) -> u32
        ensures value { result ≡ nth_draw 1 self.old }
        ensures state { self.new ≡ next self.old }
    {
        self.x = self.x.wrapping_mul(1664525).wrapping_add(1013904223);
        self.x / 256
    }

    /// The next draw, modulo `bound`.
    pub fn draw_below(&mut self, bound: u32) -> u32
        requires { 1 ≤ bound }
        ensures value { result ≡ nth_draw 1 self.old % bound }
        ensures state { self.new ≡ next self.old }
    {
        self.draw() % bound
    }
}
