//! Reasons.

/// Why the language has no form for what stands there.
#[derive(Clone, Copy, Debug, PartialEq, Eq)]
pub enum Reason {
    /// A name that means nothing here.
    Unknown,
    /// A name that the language doesn't have.
    NoName,
    /// A name that is a word of C or of OpenMP's directives.
    Reserved,
    /// A name that means something already.
    Twice,
    /// A pointer to a cell of another type than `uint64_t`.
    OtherType,
    /// A number that what it is assigned to may not hold, by its type.
    Conversion,
    /// A constant, a length or an initial value that isn't a number that its type holds.
    NoConstant,
    /// An array without cells, or with too many, or with more values than cells.
    NoLength,
    /// A place or a bound that isn't made of numbers and loop variables.
    NoSize,
    /// A loop's bounds name its own variable.
    OwnBound,
    /// A loop's variable is narrower than the number that it begins with.
    Narrow,
    /// An array whole, where a number is wanted.
    WholeArray,
    /// A cell of what is no array.
    NoArray,
    /// A loop's variable that is written, or shared, or that a clause of cells names.
    LoopVariable,
    /// A constant that is written, or that a clause names.
    Constant,
    /// Numbers of type `unsigned` that may wrap.
    Wraps,
    /// A test for less, `min`, `max` or a rest of a number that may be negative.
    Signed,
    /// A rest by another number than a power of two.
    Rest,
    /// A shift to the left of what is no `uint64_t` and isn't known, or by what isn't known, or by too much.
    Shift,
    /// A quotient, or a shift to the right, that isn't known.
    Quotient,
    /// What C may leave out, and reads a cell or chooses itself.
    LeftOut,
    /// A name over which an open group combines: a task may only fold into its own copy of it.
    Combined,
    /// A task's own copy that isn't folded into by its operation.
    OwnCopy,
    /// A task takes part in a reduction that no open group has.
    NoGroup,
    /// A group by two operations.
    Operations,
    /// A private copy of what isn't a loop's variable.
    Private,
    /// An iterator over other items than single cells that it counts.
    Iterator,
    /// A task, a wait or a group outside of a parallel region.
    NoRegion,
    /// A pointer by which no open group combines.
    Pointer,
    /// A pointer to what isn't one cell at a constant place, or to different cells in one file.
    Pointee,
    /// A task takes part in a reduction by a pointer, and its cell isn't under `depend(in: ..)`.
    NoDependence,
    /// A function.
    Function,
    /// A function that is called while a group combines, whose cells it may touch.
    CallInGroup,
    /// A name in a region with `default(none)` that its clauses don't list.
    Unlisted,
    /// More statements than a program may have, those of functions at each of their calls.
    TooMany,
}
