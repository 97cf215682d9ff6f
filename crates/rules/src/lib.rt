// The machine and the job file of 01 as definitions. The types that programs and definitions share are declared here;
// the rules stand in specs/. The numbers are those of specs/Limits, under the same names, as far as code needs them.
#![tactic(auto)]

// "T threads (1 to 4), V shared variables (1 to 8), 4 registers a thread"
pub const MOST_THREADS: u8 = 4;

pub const MOST_VARIABLES: u8 = 8;

pub const REGISTERS_EACH: u8 = 4;

// The values of a byte.
pub const BYTE_VALUES: usize = 256;

// n is 0 to 64: request 2, "Threads are too short".
pub const LONGEST_THREAD: u8 = 64;

// "TSO (model 1, C is 1 to 8)", "PSO (model 2, C is 1 to 8)"
pub const MOST_PENDING: u8 = 8;

// K is 1 to 16: "K at most 16"; request 8, "A blank goal must be refused".
pub const FEWEST_CLAUSES: u8 = 1;

pub const MOST_CLAUSES: u8 = 16;

// "version | 1 | 1"; requests 7 and 10: "refusal 2 now means none of the three".
pub const FIRST_VERSION: u8 = 1;

// The version that brought CMPX and WFENCE.
pub const SECOND_VERSION: u8 = 2;

// The version of sixteen-bit values: request 10.
pub const THIRD_VERSION: u8 = 3;

pub const LAST_VERSION: u8 = THIRD_VERSION;

// "Length first", then the version: "fewer than 3 bytes" are none of a job.
pub const LENGTH_SIZE: usize = 2;

pub const SHORTEST_FILE: usize = LENGTH_SIZE + 1;

// Length, version, and model, C, T, V: the initial values stand behind them.
pub const HEAD_SIZE: usize = SHORTEST_FILE + 4;

// The places and the buffers of a state, a thread each, and its variables: as lengths of arrays.
pub const THREADS: usize = MOST_THREADS as usize;

pub const VARIABLES: usize = MOST_VARIABLES as usize;

// Request 10: a value has two bytes in every slot, and in files of version 3, where an item has five.
pub const WORD_SIZE: usize = 2;

pub const LONGEST_ITEM: usize = 3 + WORD_SIZE;

// "The longest file of version 3 is 1,389 bytes", and no other version's is longer: the head, the variables, the threads, flag, K, the clauses.
pub const LONGEST_FILE: usize = HEAD_SIZE
    + WORD_SIZE * VARIABLES
    + THREADS * (1 + LONGEST_ITEM * LONGEST_THREAD as usize)
    + 1
    + 1
    + LONGEST_ITEM * MOST_CLAUSES as usize;

pub const ALL_REGISTERS: usize = THREADS * REGISTERS_EACH as usize;

// Request 7: "a pending store's variable byte gains 16 times its group number", "The count byte gains 128 while a WFENCE stands after the newest store".
pub const GROUP_UNIT: u8 = 16;

pub const MARK_UNIT: u8 = 128;

// Request 10: "The slot becomes 152 bytes for all versions: 4 places, 32 register bytes, 16 memory bytes, and 25 bytes a thread with three-byte
// pending entries".
pub const REGISTERS_SIZE: usize = WORD_SIZE * ALL_REGISTERS;

pub const MEMORY_SIZE: usize = WORD_SIZE * VARIABLES;

pub const ENTRY_SIZE: usize = 1 + WORD_SIZE;

pub const ENTRIES_SIZE: usize = ENTRY_SIZE * MOST_PENDING as usize;

pub const BUFFER_SIZE: usize = 1 + ENTRIES_SIZE;

pub const SLOT_SIZE: usize = THREADS + REGISTERS_SIZE + MEMORY_SIZE + THREADS * BUFFER_SIZE;

// "N is the smallest of table bytes / 152 rounded down, links, schedule bytes, and 65,536"
pub const MOST_SLOTS: usize = 65536;

// How many bytes a value has, in a job and in its file: request 10. One byte has 256 values, two have 65,536.
#[derive(Clone, Copy)]
pub enum Width {
    One,
    Two,
}

// The memory models: 01, "Memory rules".
#[derive(Clone, Copy)]
pub enum Model {
    Sc,
    Tso,
    Pso,
}

// What a store carries: a register's value or a constant.
#[derive(Clone, Copy)]
pub enum Source {
    Register(u8),
    Constant(u16),
}

// An instruction, decoded: 01, "The machine", and requests 7 and 10. Operands stand in the order of the job file; a store has what it carries and its
// variable, an ADD first how wide its sum is.
#[derive(Clone, Copy)]
pub enum Instr {
    Set(u8, u16),
    Add(Width, u8, u16),
    Load(u8, u8),
    Store(Source, u8),
    Fence,
    Xchg(u8, u8),
    Jeq(u8, u8, u16),
    Jmp(u8),
    Cmpx(u8, u8, u16),
    Wfence,
}

// Where an instruction goes on: the next place; to p; to p if register r is k (in the order r, k, p), else the next place.
#[derive(Clone, Copy)]
pub enum Control {
    On,
    To(u8),
    ToIf(u8, u16, u8),
}

// What an instruction waits for in its thread's own buffer: nothing; room for one store more; that it is empty.
#[derive(Clone, Copy)]
pub enum Wait {
    Never,
    ForRoom,
    UntilEmpty,
}

// Why a step can't be taken, in the order in which the first that applies is given: request 5.
#[derive(Clone, Copy, PartialEq, Eq)]
pub enum Reason {
    NoSuchStep,
    ThreadEnded,
    BufferFull,
    BufferNotEmpty,
    NothingToFlush,
    NotTheOldest,
}

// What an instruction is to the fence check: 01, "Replay and fence check".
#[derive(Clone, Copy)]
pub enum Role {
    Stores,
    Loads,
    Fences,
    Other,
}

// What a walk of the fence check may pass between its ends: any instruction; any but FENCE, XCHG and CMPX.
#[derive(Clone, Copy)]
pub enum Passing {
    Anything,
    NoFence,
}

// A clause of a goal: thread and place; thread, register and value; variable and value.
#[derive(Clone, Copy)]
pub enum Clause {
    PlaceIs(u8, u8),
    RegisterIs(u8, u8, u16),
    MemoryIs(u8, u16),
}
