//! Numbers that look random, and are the same whenever the program runs.
ghost use Rattle.std.specs.Prelude.{◌≤◌, ◌<◌, length};

/// A linear congruential generator, of whose state the upper half is used.
#[derive(Drop)]
pub struct Dice {
    state: u64,
}

impl Dice {
    pub fn new(seed: u64) -> Dice {
        Dice { state: seed }
    }

    /// A number below this one.
    pub fn below(&mut self, bound: u64) -> u64
        requires { 1 ≤ bound }
        ensures { result < bound }
    {
        self.state = self
            .state
            .wrapping_mul(6_364_136_223_846_793_005)
            .wrapping_add(1_442_695_040_888_963_407);
        (self.state >> 33) % bound
    }

    /// True once in so many times.
    pub fn once_in(&mut self, times: u64) -> bool
        requires { 1 ≤ times }
    {
        self.below(times) == 0
    }

    /// One of these, where there is one.
    pub fn any_of<'a, T>(&mut self, items: &'a [T]) -> Option<&'a T> {
        if items.is_empty() {
            return None;
        }
        let place = self.below(items.len() as u64) as usize;
        items.get(place)
    }
}
