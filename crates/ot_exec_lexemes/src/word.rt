//! Words that mean something, by their numbers among the names of each text.

pub const AUTO: u32 = 0;

pub const BREAK: u32 = 1;

pub const CASE: u32 = 2;

pub const CHAR: u32 = 3;

pub const CONST: u32 = 4;

pub const CONTINUE: u32 = 5;

pub const DEFAULT: u32 = 6;

pub const DO: u32 = 7;

pub const DOUBLE: u32 = 8;

pub const ELSE: u32 = 9;

pub const ENUM: u32 = 10;

pub const EXTERN: u32 = 11;

pub const FLOAT: u32 = 12;

pub const FOR: u32 = 13;

pub const GOTO: u32 = 14;

pub const IF: u32 = 15;

pub const INLINE: u32 = 16;

pub const INT: u32 = 17;

pub const LONG: u32 = 18;

pub const REGISTER: u32 = 19;

pub const RESTRICT: u32 = 20;

pub const RETURN: u32 = 21;

pub const SHORT: u32 = 22;

pub const SIGNED: u32 = 23;

pub const SIZEOF: u32 = 24;

pub const STATIC: u32 = 25;

pub const STRUCT: u32 = 26;

pub const SWITCH: u32 = 27;

pub const TYPEDEF: u32 = 28;

pub const UNION: u32 = 29;

pub const UNSIGNED: u32 = 30;

pub const VOID: u32 = 31;

pub const VOLATILE: u32 = 32;

pub const WHILE: u32 = 33;

pub const ALIGNAS: u32 = 34;

pub const ALIGNOF: u32 = 35;

pub const C_ATOMIC: u32 = 36;

pub const BOOL: u32 = 37;

pub const C_COMPLEX: u32 = 38;

pub const GENERIC: u32 = 39;

pub const IMAGINARY: u32 = 40;

pub const NORETURN: u32 = 41;

pub const STATIC_ASSERT: u32 = 42;

pub const THREAD_LOCAL: u32 = 43;

pub const GNU_THREAD: u32 = 44;

pub const ATTRIBUTE: u32 = 45;

pub const GNU_ASM: u32 = 46;

pub const ASM: u32 = 47;

pub const TYPEOF: u32 = 48;

pub const GNU_TYPEOF: u32 = 49;

pub const GNU_SIGNED: u32 = 50;

pub const EXTENSION: u32 = 51;

pub const COMPLEX: u32 = 52;

pub const DEFINE: u32 = 53;

pub const UNDEF: u32 = 54;

pub const INCLUDE: u32 = 55;

pub const IFDEF: u32 = 56;

pub const IFNDEF: u32 = 57;

pub const ELIF: u32 = 58;

pub const ENDIF: u32 = 59;

pub const ERROR: u32 = 60;

pub const PRAGMA: u32 = 61;

pub const LINE: u32 = 62;

pub const WARNING: u32 = 63;

pub const IDENT: u32 = 64;

pub const DEFINED: u32 = 65;

pub const VA_ARGS: u32 = 66;

pub const C_PRAGMA: u32 = 67;

pub const OMP: u32 = 68;

pub const ONCE: u32 = 69;

pub const PARALLEL: u32 = 70;

pub const SECTIONS: u32 = 71;

pub const SECTION: u32 = 72;

pub const SINGLE: u32 = 73;

pub const MASTER: u32 = 74;

pub const MASKED: u32 = 75;

pub const TASK: u32 = 76;

pub const TASKLOOP: u32 = 77;

pub const TASKGROUP: u32 = 78;

pub const TASKWAIT: u32 = 79;

pub const TASKYIELD: u32 = 80;

pub const CRITICAL: u32 = 81;

pub const ATOMIC: u32 = 82;

pub const BARRIER: u32 = 83;

pub const SIMD: u32 = 84;

pub const FLUSH: u32 = 85;

pub const SCOPE: u32 = 86;

pub const LOOP: u32 = 87;

pub const THREADPRIVATE: u32 = 88;

pub const ORDERED: u32 = 89;

pub const TARGET: u32 = 90;

pub const TEAMS: u32 = 91;

pub const DISTRIBUTE: u32 = 92;

pub const DECLARE: u32 = 93;

pub const CANCEL: u32 = 94;

pub const CANCELLATION: u32 = 95;

pub const DEPOBJ: u32 = 96;

pub const REQUIRES: u32 = 97;

pub const INTEROP: u32 = 98;

pub const METADIRECTIVE: u32 = 99;

pub const TILE: u32 = 100;

pub const UNROLL: u32 = 101;

pub const SCAN: u32 = 102;

pub const DISPATCH: u32 = 103;

pub const ALLOCATE: u32 = 104;

pub const ASSUME: u32 = 105;

pub const NOTHING: u32 = 106;

pub const BEGIN: u32 = 107;

pub const END: u32 = 108;

pub const PRIVATE: u32 = 109;

pub const FIRSTPRIVATE: u32 = 110;

pub const LASTPRIVATE: u32 = 111;

pub const SHARED: u32 = 112;

pub const NONE: u32 = 113;

pub const FINAL: u32 = 114;

pub const PRIORITY: u32 = 115;

pub const NUM_THREADS: u32 = 116;

pub const GRAINSIZE: u32 = 117;

pub const NUM_TASKS: u32 = 118;

pub const COLLAPSE: u32 = 119;

pub const REDUCTION: u32 = 120;

pub const IN_REDUCTION: u32 = 121;

pub const TASK_REDUCTION: u32 = 122;

pub const DEPEND: u32 = 123;

pub const IN: u32 = 124;

pub const OUT: u32 = 125;

pub const INOUT: u32 = 126;

pub const MUTEXINOUTSET: u32 = 127;

pub const INOUTSET: u32 = 128;

pub const SOURCE: u32 = 129;

pub const SINK: u32 = 130;

pub const ITERATOR: u32 = 131;

pub const UNTIED: u32 = 132;

pub const MERGEABLE: u32 = 133;

pub const NOWAIT: u32 = 134;

pub const NOGROUP: u32 = 135;

pub const READ: u32 = 136;

pub const WRITE: u32 = 137;

pub const UPDATE: u32 = 138;

pub const CAPTURE: u32 = 139;

pub const COMPARE: u32 = 140;

pub const SEQ_CST: u32 = 141;

pub const ACQ_REL: u32 = 142;

pub const RELEASE: u32 = 143;

pub const ACQUIRE: u32 = 144;

pub const RELAXED: u32 = 145;

pub const WEAK: u32 = 146;

pub const HINT: u32 = 147;

pub const SCHEDULE: u32 = 148;

pub const PROC_BIND: u32 = 149;

pub const AFFINITY: u32 = 150;

pub const SAFELEN: u32 = 151;

pub const SIMDLEN: u32 = 152;

pub const ALIGNED: u32 = 153;

pub const NONTEMPORAL: u32 = 154;

pub const FILTER: u32 = 155;

pub const BIND: u32 = 156;

pub const ORDER: u32 = 157;

pub const DIST_SCHEDULE: u32 = 158;

pub const DETACH: u32 = 159;

pub const COPYIN: u32 = 160;

pub const COPYPRIVATE: u32 = 161;

pub const LINEAR: u32 = 162;

pub const THREAD_LIMIT: u32 = 163;

pub const STRICT: u32 = 164;

pub const CONDITIONAL: u32 = 165;

pub const MIN: u32 = 166;

pub const MAX: u32 = 167;

pub const INSCAN: u32 = 168;

pub const THREADS: u32 = 169;

pub const INBRANCH: u32 = 170;

pub const OMP_ALL_MEMORY: u32 = 171;

pub const MAIN: u32 = 172;

pub const SIZE_T: u32 = 173;

pub const SSIZE_T: u32 = 174;

pub const INT8_T: u32 = 175;

pub const UINT8_T: u32 = 176;

pub const INT16_T: u32 = 177;

pub const UINT16_T: u32 = 178;

pub const INT32_T: u32 = 179;

pub const UINT32_T: u32 = 180;

pub const INT64_T: u32 = 181;

pub const UINT64_T: u32 = 182;

pub const INTPTR_T: u32 = 183;

pub const UINTPTR_T: u32 = 184;

pub const PTRDIFF_T: u32 = 185;

pub const INTMAX_T: u32 = 186;

pub const UINTMAX_T: u32 = 187;

pub const OMP_LOCK_T: u32 = 188;

pub const OMP_NEST_LOCK_T: u32 = 189;

pub const FILE: u32 = 190;

pub const TIME_T: u32 = 191;

pub const CLOCK_T: u32 = 192;

pub const VA_LIST: u32 = 193;

pub const OFF_T: u32 = 194;

pub const USECONDS_T: u32 = 195;

pub const OMP_EVENT_HANDLE_T: u32 = 196;

pub const OMP_DEPEND_T: u32 = 197;

pub const OMP_SCHED_T: u32 = 198;

pub const UINT_FAST64_T: u32 = 199;

pub const ATOMIC_INT: u32 = 200;

pub const ATOMIC_UINT: u32 = 201;

pub const ATOMIC_LONG: u32 = 202;

pub const POINT: u32 = 203;

/// Each at its number.
pub(crate) const WORDS: [&str; 204] = [
    "auto",
    "break",
    "case",
    "char",
    "const",
    "continue",
    "default",
    "do",
    "double",
    "else",
    "enum",
    "extern",
    "float",
    "for",
    "goto",
    "if",
    "inline",
    "int",
    "long",
    "register",
    "restrict",
    "return",
    "short",
    "signed",
    "sizeof",
    "static",
    "struct",
    "switch",
    "typedef",
    "union",
    "unsigned",
    "void",
    "volatile",
    "while",
    "_Alignas",
    "_Alignof",
    "_Atomic",
    "_Bool",
    "_Complex",
    "_Generic",
    "_Imaginary",
    "_Noreturn",
    "_Static_assert",
    "_Thread_local",
    "__thread",
    "__attribute__",
    "__asm__",
    "asm",
    "typeof",
    "__typeof__",
    "__signed__",
    "__extension__",
    "complex",
    "define",
    "undef",
    "include",
    "ifdef",
    "ifndef",
    "elif",
    "endif",
    "error",
    "pragma",
    "line",
    "warning",
    "ident",
    "defined",
    "__VA_ARGS__",
    "_Pragma",
    "omp",
    "once",
    "parallel",
    "sections",
    "section",
    "single",
    "master",
    "masked",
    "task",
    "taskloop",
    "taskgroup",
    "taskwait",
    "taskyield",
    "critical",
    "atomic",
    "barrier",
    "simd",
    "flush",
    "scope",
    "loop",
    "threadprivate",
    "ordered",
    "target",
    "teams",
    "distribute",
    "declare",
    "cancel",
    "cancellation",
    "depobj",
    "requires",
    "interop",
    "metadirective",
    "tile",
    "unroll",
    "scan",
    "dispatch",
    "allocate",
    "assume",
    "nothing",
    "begin",
    "end",
    "private",
    "firstprivate",
    "lastprivate",
    "shared",
    "none",
    "final",
    "priority",
    "num_threads",
    "grainsize",
    "num_tasks",
    "collapse",
    "reduction",
    "in_reduction",
    "task_reduction",
    "depend",
    "in",
    "out",
    "inout",
    "mutexinoutset",
    "inoutset",
    "source",
    "sink",
    "iterator",
    "untied",
    "mergeable",
    "nowait",
    "nogroup",
    "read",
    "write",
    "update",
    "capture",
    "compare",
    "seq_cst",
    "acq_rel",
    "release",
    "acquire",
    "relaxed",
    "weak",
    "hint",
    "schedule",
    "proc_bind",
    "affinity",
    "safelen",
    "simdlen",
    "aligned",
    "nontemporal",
    "filter",
    "bind",
    "order",
    "dist_schedule",
    "detach",
    "copyin",
    "copyprivate",
    "linear",
    "thread_limit",
    "strict",
    "conditional",
    "min",
    "max",
    "inscan",
    "threads",
    "inbranch",
    "omp_all_memory",
    "main",
    "size_t",
    "ssize_t",
    "int8_t",
    "uint8_t",
    "int16_t",
    "uint16_t",
    "int32_t",
    "uint32_t",
    "int64_t",
    "uint64_t",
    "intptr_t",
    "uintptr_t",
    "ptrdiff_t",
    "intmax_t",
    "uintmax_t",
    "omp_lock_t",
    "omp_nest_lock_t",
    "FILE",
    "time_t",
    "clock_t",
    "va_list",
    "off_t",
    "useconds_t",
    "omp_event_handle_t",
    "omp_depend_t",
    "omp_sched_t",
    "uint_fast64_t",
    "atomic_int",
    "atomic_uint",
    "atomic_long",
    "point",
];
