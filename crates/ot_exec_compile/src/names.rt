//! Names that mean something: those of the library, and `main`.
use ot_exec_tree::{Expr, Unit};

/// What a function of the library does, as far as memory goes.
#[derive(Clone, Copy, Debug, PartialEq, Eq)]
pub enum Known {
    Main,
    /// It touches no cell, and gives an `int` of which nothing is known.
    Int,
    Long,
    Real(u32),
    Nothing,
    /// A pointer that isn't known.
    Pointer,
    Allocates,
    AllocatesZeros,
    /// The second argument says how much.
    AllocatesAligned,
    Reallocates,
    Frees,
    Fills,
    Copies,
    Ends,
    Asserts,
    /// Its value is the first argument, or what lies as far from 0.
    Absolute,
    AbsoluteLong,
    First,
    /// It writes to where its arguments point, from this one on.
    Writes(u32),
    /// The same, of which each number becomes the second one. It gives how many they are.
    Scans(u32, u32),
    /// It reads the strings that its arguments name.
    Reads,
    /// It puts a string where its first argument leads, and reads those that the others name.
    PutsText,
    /// The same, of at most as many letters as the argument of this number says.
    PutsMost(u32),
    /// It puts as many bytes as two arguments say.
    PutsBytes,
    InFinal,
    ThreadNumber,
    ThreadCount,
    /// How many threads a team has at most.
    ThreadsAtMost,
    /// This number.
    Number(u32),
    /// It writes and reads an array.
    Sorts,
    Draws,
    Seeds,
    /// A lock variable begins, or ends.
    WritesLock,
    SetsLock,
    UnsetsLock,
    /// A lock variable is taken, or it isn't.
    TestsLock,
    /// The first argument says where a pointer is written to what is allocated, the third one how much.
    AllocatesTo,
    /// It isn't modelled.
    Other,
}

/// Names of the library, each with its meaning.
const TABLE: [(&str, Known); 146] = [
    ("main", Known::Main),
    ("malloc", Known::Allocates),
    ("alloca", Known::Allocates),
    ("__builtin_alloca", Known::Allocates),
    ("calloc", Known::AllocatesZeros),
    ("aligned_alloc", Known::AllocatesAligned),
    ("realloc", Known::Reallocates),
    ("free", Known::Frees),
    ("memset", Known::Fills),
    ("memcpy", Known::Copies),
    ("memmove", Known::Copies),
    ("exit", Known::Ends),
    ("_exit", Known::Ends),
    ("abort", Known::Ends),
    ("assert", Known::Asserts),
    ("abs", Known::Absolute),
    ("labs", Known::AbsoluteLong),
    ("__builtin_expect", Known::First),
    ("scanf", Known::Writes(1)),
    ("fscanf", Known::Writes(2)),
    ("sscanf", Known::Writes(2)),
    ("time", Known::Writes(0)),
    ("gettimeofday", Known::Writes(0)),
    ("clock_gettime", Known::Writes(1)),
    ("strlen", Known::Reads),
    ("atoi", Known::Reads),
    ("atol", Known::Reads),
    ("strcmp", Known::Reads),
    ("strtol", Known::Reads),
    ("omp_in_final", Known::InFinal),
    ("omp_get_num_threads", Known::ThreadCount),
    ("omp_get_max_threads", Known::ThreadsAtMost),
    ("qsort", Known::Sorts),
    ("rand", Known::Draws),
    ("srand", Known::Seeds),
    ("printf", Known::Reads),
    ("fprintf", Known::Reads),
    ("puts", Known::Reads),
    ("putchar", Known::Int),
    ("fputs", Known::Reads),
    ("fputc", Known::Int),
    ("putc", Known::Int),
    ("fflush", Known::Int),
    ("fclose", Known::Int),
    ("feof", Known::Int),
    ("sleep", Known::Int),
    ("usleep", Known::Int),
    ("sched_yield", Known::Int),
    ("atexit", Known::Int),
    ("getchar", Known::Int),
    ("fgetc", Known::Int),
    ("getc", Known::Int),
    ("remove", Known::Int),
    ("system", Known::Int),
    ("isdigit", Known::Int),
    ("isalpha", Known::Int),
    ("isspace", Known::Int),
    ("toupper", Known::Int),
    ("tolower", Known::Int),
    ("nanosleep", Known::Int),
    ("omp_get_num_procs", Known::Int),
    ("omp_get_level", Known::Int),
    ("omp_get_dynamic", Known::Int),
    ("omp_get_nested", Known::Int),
    ("omp_get_team_num", Known::Int),
    ("omp_get_thread_num", Known::ThreadNumber),
    ("omp_in_parallel", Known::Int),
    ("random", Known::Long),
    ("clock", Known::Long),
    ("perror", Known::Nothing),
    ("srandom", Known::Nothing),
    ("omp_set_num_threads", Known::Nothing),
    ("omp_set_nested", Known::Nothing),
    ("omp_set_dynamic", Known::Nothing),
    ("omp_set_max_active_levels", Known::Nothing),
    ("omp_set_schedule", Known::Nothing),
    ("rewind", Known::Nothing),
    ("fopen", Known::Pointer),
    ("getenv", Known::Pointer),
    ("omp_get_wtime", Known::Real(8)),
    ("omp_get_wtick", Known::Real(8)),
    ("atof", Known::Real(8)),
    ("drand48", Known::Real(8)),
    ("difftime", Known::Real(8)),
    ("sqrt", Known::Real(8)),
    ("fabs", Known::Real(8)),
    ("sin", Known::Real(8)),
    ("cos", Known::Real(8)),
    ("tan", Known::Real(8)),
    ("exp", Known::Real(8)),
    ("log", Known::Real(8)),
    ("log2", Known::Real(8)),
    ("log10", Known::Real(8)),
    ("pow", Known::Real(8)),
    ("floor", Known::Real(8)),
    ("ceil", Known::Real(8)),
    ("fmod", Known::Real(8)),
    ("fmax", Known::Real(8)),
    ("fmin", Known::Real(8)),
    ("atan", Known::Real(8)),
    ("atan2", Known::Real(8)),
    ("asin", Known::Real(8)),
    ("acos", Known::Real(8)),
    ("sinh", Known::Real(8)),
    ("cosh", Known::Real(8)),
    ("tanh", Known::Real(8)),
    ("cbrt", Known::Real(8)),
    ("hypot", Known::Real(8)),
    ("round", Known::Real(8)),
    ("trunc", Known::Real(8)),
    ("sqrtf", Known::Real(4)),
    ("fabsf", Known::Real(4)),
    ("sinf", Known::Real(4)),
    ("cosf", Known::Real(4)),
    ("expf", Known::Real(4)),
    ("logf", Known::Real(4)),
    ("powf", Known::Real(4)),
    ("fmaxf", Known::Real(4)),
    ("fminf", Known::Real(4)),
    ("floorf", Known::Real(4)),
    ("ceilf", Known::Real(4)),
    ("omp_init_lock", Known::WritesLock),
    ("omp_destroy_lock", Known::WritesLock),
    ("omp_set_lock", Known::SetsLock),
    ("omp_unset_lock", Known::UnsetsLock),
    ("omp_test_lock", Known::TestsLock),
    ("omp_init_nest_lock", Known::Other),
    ("omp_set_nest_lock", Known::Other),
    ("omp_unset_nest_lock", Known::Other),
    ("omp_test_nest_lock", Known::Other),
    ("omp_destroy_nest_lock", Known::Other),
    ("posix_memalign", Known::AllocatesTo),
    ("sprintf", Known::PutsText),
    ("snprintf", Known::PutsMost(1)),
    ("strcpy", Known::PutsText),
    ("strcat", Known::PutsText),
    ("strncpy", Known::PutsMost(2)),
    ("rand_r", Known::Writes(0)),
    ("fgets", Known::PutsMost(1)),
    ("fread", Known::PutsBytes),
    ("pthread_create", Known::Other),
    ("__sync_fetch_and_add", Known::Other),
    ("__sync_add_and_fetch", Known::Other),
    ("__sync_fetch_and_sub", Known::Other),
    ("__atomic_fetch_add", Known::Other),
    ("atomic_fetch_add", Known::Other),
];

/// What the name means.
pub fn meaning_of(name: &[u8]) -> Option<Known> {
    looked_up(&TABLE, name)
}

/// What a table says of a name.
fn looked_up(table: &[(&str, Known)], name: &[u8]) -> Option<Known> {
    for (one, known) in table {
        if one.as_bytes() == name {
            return Some(*known);
        }
    }
    None
}

/// What is called, where it is a function of the library.
pub(crate) fn library_of(unit: &Unit, known: &[Option<Known>], function: &Expr) -> Option<Known> {
    let name = match function {
        Expr::Undeclared(_, name) => *name,
        Expr::Function(_, number) => match unit.functions.get(*number as usize) {
            Some(function) => {
                if function.body.is_some() {
                    return None;
                }
                function.name
            }
            None => return None,
        },
        _ => return None,
    };
    match known.get(name as usize) {
        Some(known) => *known,
        None => None,
    }
}
