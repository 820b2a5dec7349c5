use std::marker::Model;

/// Numbers one on the other, at most 64. It takes no memory.
#[derive(Debug, Drop)]
pub(crate) struct Stack {
    numbers: [u64; 64],
    height: usize,
}

/// The numbers, the one on top first.
impl Model for Stack {
    ghost use Rattle.std.specs.Prelude.{ℕ, List, ◌≤◌};
    ghost use Rattle.ot_job_task.specs.Deeds.{numbers_piled};

    ghost Value = { List ℕ };

    ghost view = { λ s. numbers_piled s.height s.numbers };

    ghost invariant = { λ s. s.height ≤ 64 };
}

impl Stack {
    ghost use Rattle.std.specs.Prelude.{◌≡◌, ◌<◌, ◌∷◌, [], length};

    /// None.
    pub(crate) fn new() -> Stack
        ensures { result ≡ [] }
    {
        Stack {
            numbers: [0; 64],
            height: 0,
        }
    }

    /// Puts a number on top.
    pub(crate) fn push(&mut self, number: u64)
        requires { length self.old < 64 }
        ensures { self.new ≡ number ∷ self.old }
    {
        self.numbers[self.height] = number;
        self.height += 1;
    }

    /// Takes the number on top.
    pub(crate) fn pop(&mut self) -> u64
        requires { 0 < length self.old }
        ensures taken { self.old ≡ result ∷ self.new }
        ensures room { length self.new < 64 }
    {
        self.height -= 1;
        self.numbers[self.height]
    }
}
