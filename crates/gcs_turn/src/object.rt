//! The object that callers take turns on.
ghost use Rattle.std.specs.Prelude.{◌≡◌, ℕ, ◌<◌, ◌^◌, [], ◌∷◌, ◌++◌, List, length, IfOk, IfErr, OnOk};

/// One call in the history of an object: who made it, the number that it has among that caller's calls from 0 on, its
/// moment, and what was asked.
#[derive(Drop)]
pub struct Entry<C> {
    pub caller: u32,
    pub number: u64,
    pub moment: u64,
    pub command: C,
}

/// An object that keeps the history of its calls.
pub trait Object: Send + Drop {
    /// What is asked of the object.
    type Command;

    /// What a call answers.
    type Answer;

    /// The type of what no call changes. Nothing of it has to be there when the program runs.
    type Home;

    ghost use Rattle.gcs_turn.specs.declared.object.Entry.{Entry};

    /// The calls that were made, in order.
    ghost history: { Self → List (Entry Self.Command) };

    /// What no call changes.
    ghost home: { Self → Self.Home };

    /// Which answers a call may get behind a history. That is a relation, since an answer may hold more than is said of it.
    ghost answer: { List (Entry Self.Command) → Entry Self.Command → Self.Answer → Type 0 };

    /// Which commands may be asked of an object of this home.
    ghost fits: { Self.Home → Self.Command → Type 0 };

    /// Which answers an object of this home gives.
    ghost suits: { Self.Home → Self.Answer → Type 0 };

    /// Makes one call, and adds its entry to the history. `Err` is want of memory: the command comes back, and nothing is
    /// changed.
    fn apply(
        &mut self,
        caller: u32,
        number: u64,
        moment: u64,
        command: Self::Command,
    ) -> Result<Self::Answer, Self::Command>
        requires { fits (home self.old) command }
        ensures home { home self.new ≡ home self.old }
        ensures entry { OnOk result (history self.new ≡ history self.old ++ record { caller = caller; number = number; moment = moment; command = command } ∷ []) }
        ensures room { OnOk result (length (history self.new) < 2 ^ 59) }
        ensures answer { IfOk result (λ a. answer (history self.old) record { caller = caller; number = number; moment = moment; command = command } a × suits (home self.old) a) }
        ensures err { IfErr result (λ c. (c ≡ command) × (history self.new ≡ history self.old)) };
}
