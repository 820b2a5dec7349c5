use crate::listed::Listed;
use std::alloc::{AllocError, Global};
use std::marker::Model;

/// What is kept of members, so that none has to be passed over.
#[derive(Debug, Drop)]
pub struct Roster {
    /// Of each member, the numbers of its children, in order of their creation.
    children: Vec<Vec<usize>>,
    /// Those that are free. It has room for all.
    free: Listed,
    /// How many are out.
    out: usize,
    /// How many have not ended.
    unended: usize,
}

impl Model for Roster {
    ghost use Rattle.std.specs.Prelude.{◌≤◌, length};
    ghost use Rattle.ot_job_roster.specs.Members.{Kept};
    ghost use Rattle.ot_job_roster.specs.RosterView.{kept_of};

    ghost Value = { Kept };

    ghost view = { kept_of };

    ghost invariant = { λ r. (length r.children.items ≤ r.free.room) × (r.out ≤ length r.children.items) × (r.unended ≤ length r.children.items) };
}

impl Roster {
    ghost use Rattle.std.specs.Prelude.{◌≡◌, ◌<◌, ◌+◌, ◌==◌, ℕ, Bool, [], true, false, not, length, get_or, slice_get, OnOk, IfOk};
    ghost use Rattle.ot_job_roster.specs.Members.{Member, Kept, Tells, Knows, HasRoom, IsAlone, told_put, goes_out, comes_back, ends, with_member};

    /// One member, that is free.
    pub fn alone(alloc: Global) -> Result<Roster, AllocError>
        ensures { IfOk result (λ roster. (s : ℕ → Member) (test : ℕ → Bool) → IsAlone s test → Tells 1 s test roster) }
    {
        let mut children = Vec::with_capacity(alloc, 1)?;
        let mut free = Listed::new(alloc);
        free.make_room_for(0)?;
        children.push_reserved(Vec::new(alloc));
        free.set(0, true);
        Ok(Roster {
            children,
            free,
            out: 0,
            unended: 1,
        })
    }

    /// How many are free.
    pub fn count(&self) -> usize
        ensures { result ≡ length self.now.listed }
    {
        self.free.count()
    }

    /// The free member at this place, in order of their numbers.
    pub fn at(&self, place: usize) -> Option<usize>
        ensures { result ≡ slice_get self.now.listed place }
    {
        self.free.at(place)
    }

    /// Whether some member is out.
    pub fn any_out(&self) -> bool
        ensures { result ≡ not (self.now.out == 0) }
    {
        self.out != 0
    }

    /// Whether each member has ended.
    pub fn all_ended(&self) -> bool
        ensures { result ≡ (self.now.unended == 0) }
    {
        self.unended == 0
    }

    /// The number of a member's child, by its place among the children.
    pub fn child(&self, parent: usize, place: usize) -> usize
        requires known { place < length (get_or self.now.numbers parent []) }
        ensures { result ≡ get_or (get_or self.now.numbers parent []) place 0 }
    {
        self.children[parent][place]
    }

    /// Notes whether a member is free. It takes no memory.
    pub fn mark(&mut self, number: usize, free: bool)
        requires { number < length self.old.numbers }
        ensures { (n : ℕ) (s : ℕ → Member) (test : ℕ → Bool) → Tells n s test self.old → Tells n s (told_put test number free) self.new }
    {
        self.free.set(number, free);
    }

    /// A member goes out, and isn't free. It takes no memory.
    pub fn begin(&mut self, number: usize)
        requires { Knows self.old number (λ m. m.out ≡ false) }
        ensures { (n : ℕ) (s : ℕ → Member) (test : ℕ → Bool) → Tells n s test self.old → (s number).out ≡ false → Tells n (told_put s number (goes_out (s number))) (told_put test number false) self.new }
    {
        self.free.set(number, false);
        self.out += 1;
    }

    /// A member that was out is back, and is free or isn't. It takes no memory.
    pub fn stop(&mut self, number: usize, free: bool)
        requires { Knows self.old number (λ m. m.out ≡ true) }
        ensures { (n : ℕ) (s : ℕ → Member) (test : ℕ → Bool) → Tells n s test self.old → (s number).out ≡ true → Tells n (told_put s number (comes_back (s number))) (told_put test number free) self.new }
    {
        self.free.set(number, free);
        self.out -= 1;
    }

    /// A member has ended. It takes no memory.
    pub fn end(&mut self)
        requires { (number : ℕ) × Knows self.old number (λ m. m.ended ≡ false) }
        ensures { (n : ℕ) (s : ℕ → Member) (test : ℕ → Bool) (number : ℕ) → Tells n s test self.old → number < n → (s number).ended ≡ false → Tells n (told_put s number (ends (s number))) test self.new }
    {
        self.unended -= 1;
    }

    /// Makes room for a further child of a member. Whatever the answer, it tells the same.
    pub fn make_room(&mut self, parent: usize) -> Result<(), AllocError>
        requires { parent < length self.old.numbers }
        ensures room { OnOk result (HasRoom self.new parent) }
        ensures same { (n : ℕ) (s : ℕ → Member) (test : ℕ → Bool) → Tells n s test self.old → Tells n s test self.new }
    {
        self.children[parent].reserve(1)?;
        self.children.reserve(1)?;
        self.free.make_room_for(self.children.len())
    }

    /// A member has a further child, which is free or isn't. It takes no memory.
    pub fn add(&mut self, alloc: Global, parent: usize, free: bool)
        requires known { parent < length self.old.numbers }
        requires room { HasRoom self.old parent }
        ensures { (n : ℕ) (s : ℕ → Member) (test : ℕ → Bool) → Tells n s test self.old → Tells (n + 1) (with_member n parent s) (told_put test n free) self.new }
    {
        let number = self.children.len();
        self.children[parent].push_reserved(number);
        self.children.push_reserved(Vec::new(alloc));
        self.unended += 1;
        self.free.set(number, free);
    }
}
