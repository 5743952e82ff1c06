//! What is put into an index and taken out of it, one change after the other.
use Direction::{Falling, Rising};

/// Some changes of an index that has no keys at first.
pub struct Case {
    pub name: &'static str,
    pub changes: &'static [Change],
}

/// What is done with the keys of a run, one after the other.
pub enum Change {
    PutIn(Run),
    TakeOut(Run),
}

/// So many keys from the first on, each `by` more or less than the one before.
pub struct Run {
    pub direction: Direction,
    pub first: u64,
    pub by: u64,
    pub count: u64,
}

#[derive(Clone, Copy, Debug)]
pub enum Direction {
    Rising,
    Falling,
}

impl Run {
    /// The key of that number, from 0.
    pub fn key(&self, number: u64) -> u64 {
        let distance = number.saturating_mul(self.by);
        match self.direction {
            Rising => self.first.saturating_add(distance),
            Falling => self.first.saturating_sub(distance),
        }
    }
}

const UPPER_HALF: Run = Run {
    direction: Rising,
    first: 1_000,
    by: 1,
    count: 600,
};

const LOWER_HALF: Run = Run {
    direction: Falling,
    first: 999,
    by: 1,
    count: 600,
};

const EVERY_SECOND: Run = Run {
    direction: Rising,
    first: 400,
    by: 2,
    count: 600,
};

const ALL_BACKWARDS: Run = Run {
    direction: Falling,
    first: 1_599,
    by: 1,
    count: 1_200,
};

/// A block has at most 512 keys, and two neighbours more than 256.
pub static CASES: [Case; 8] = [
    Case {
        name: "an_index_without_keys",
        changes: &[Change::TakeOut(EVERY_SECOND)],
    },
    Case {
        name: "a_key_in_and_out",
        changes: &[
            Change::PutIn(Run {
                direction: Rising,
                first: 7,
                by: 1,
                count: 1,
            }),
            Change::TakeOut(Run {
                direction: Rising,
                first: 7,
                by: 1,
                count: 1,
            }),
        ],
    },
    Case {
        name: "rising_keys",
        changes: &[Change::PutIn(UPPER_HALF)],
    },
    Case {
        name: "falling_keys",
        changes: &[Change::PutIn(LOWER_HALF)],
    },
    Case {
        name: "every_second_key_is_taken_out",
        changes: &[
            Change::PutIn(UPPER_HALF),
            Change::PutIn(LOWER_HALF),
            Change::TakeOut(EVERY_SECOND),
        ],
    },
    Case {
        name: "keys_come_between_others",
        changes: &[Change::PutIn(EVERY_SECOND), Change::PutIn(ALL_BACKWARDS)],
    },
    Case {
        name: "keys_that_are_there_are_put_in",
        changes: &[Change::PutIn(UPPER_HALF), Change::PutIn(UPPER_HALF)],
    },
    Case {
        name: "all_keys_are_taken_out_and_come_again",
        changes: &[
            Change::PutIn(UPPER_HALF),
            Change::PutIn(LOWER_HALF),
            Change::TakeOut(EVERY_SECOND),
            Change::TakeOut(ALL_BACKWARDS),
            Change::PutIn(LOWER_HALF),
        ],
    },
];
