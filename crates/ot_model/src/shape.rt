use std::marker::Model;

/// One array of a shape: its name, and how many cells it has.
#[derive(Debug, Drop)]
pub struct ArrayShape {
    pub name: String,
    pub len: u32,
}

/// The arrays that a program may name, in order of creation, and how many task statements it may
/// have.
#[derive(Debug, Drop)]
pub struct Shape {
    arrays: Vec<ArrayShape>,
    tasks: u32,
}

impl Model for Shape {
    ghost use Rattle.ot_model.specs.Programs.{Arrays, AreShort};

    ghost Value = { Arrays };

    ghost use Rattle.ot_model.specs.Programs.{arrays_of};

    ghost view = { λ s. record { arrays = arrays_of s.arrays.items; tasks = s.tasks } };

    ghost invariant = { λ s. AreShort (arrays_of s.arrays.items) };
}

impl Shape {
    ghost use Rattle.std.specs.Prelude.{◌≡◌};
    ghost use Rattle.ot_model.specs.Programs.{AreShort, arrays_of};

    /// The shape of these arrays, fewer than 2^32. It takes no memory.
    pub fn new(arrays: Vec<ArrayShape>, tasks: u32) -> Shape
        requires { AreShort (arrays_of arrays.items) }
        ensures arrays { result.arrays ≡ arrays_of arrays.items }
        ensures tasks { result.tasks ≡ tasks }
    {
        Shape { arrays, tasks }
    }

    /// The arrays in order of creation.
    pub fn arrays(&self) -> &[ArrayShape]
        ensures arrays { arrays_of result.now ≡ self.now.arrays }
        ensures short { AreShort self.now.arrays }
    {
        self.arrays.as_slice()
    }

    /// How many task statements a program may have.
    pub fn tasks(&self) -> u32
        ensures { result ≡ self.now.tasks }
    {
        self.tasks
    }
}
