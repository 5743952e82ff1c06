//! Which calls of a source or sink in memory are to fail.
ghost use Rattle.std.specs.Prelude.{◌≡◌};
ghost use Rattle.gcs_io.specs.Failing.{counted, fails_at};

/// The numbers, from 1, of the calls that are to fail, and how many calls there were.
#[derive(Drop)]
pub struct Failing {
    pub numbers: Vec<u32>,
    pub calls: u64,
}

impl Failing {
    pub fn new(numbers: Vec<u32>) -> Failing
        ensures numbers { result.numbers ≡ numbers }
        ensures calls { result.calls ≡ 0 }
    {
        Failing { numbers, calls: 0 }
    }

    /// Counts a call, and says whether it is to fail.
    pub fn next_fails(&mut self) -> bool
        ensures numbers { self.new.numbers ≡ self.old.numbers }
        ensures calls { self.new.calls ≡ counted self.old.calls }
        ensures fails { result ≡ fails_at self.old.numbers.items self.new.calls }
    {
        self.calls = self.calls.saturating_add(1);
        let number = self.calls;
        self.numbers
            .iter()
            .any(|failing| u64::from(*failing) == number)
    }
}
