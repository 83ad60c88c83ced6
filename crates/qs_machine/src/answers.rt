// What a step and a run answer.

/// Why a step is not taken. A trap leaves the state as it was.
#[derive(Clone, Copy, Debug)]
pub enum Cause {
    /// x2 would leave the stack; its base and its top are inside.
    Overflow,
    /// The word at the pc is no instruction.
    IllegalInstruction,
    /// The pc is the address of no word of the code.
    FetchOutside,
    /// A jump or a taken branch goes to an address that is no multiple of 4.
    JumpMisaligned,
    /// The address of a load is no multiple of its width.
    LoadMisaligned,
    /// A load does not lie whole in the code, the data or the stack.
    LoadOutside,
    /// The address of a store is no multiple of its width.
    StoreMisaligned,
    /// A store does not lie whole in the data or the stack.
    StoreOutside,
    /// ECALL with a number that names no call.
    UnknownCall,
    /// EBREAK.
    Breakpoint,
}

/// What a step did.
#[derive(Clone, Copy)]
pub enum StepResult {
    /// It goes on.
    Going,
    /// It put a byte on the output, and goes on.
    Put(u8),
    /// The program has exited with this status.
    Exited(u8),
    /// The step was not taken, for this cause; the pc is that of the instruction.
    Trapped(Cause, u32),
}

/// How a run ended.
#[derive(Clone, Copy)]
pub enum RunEnd {
    /// The program has exited with this status.
    Exited(u8),
    /// A step was not taken, for this cause; the pc is that of the instruction.
    Trapped(Cause, u32),
    /// All steps were taken, and the program goes on.
    StepLimit,
    /// The sink did not take a byte of the output.
    SinkFailed,
}

/// How the machine ended.
#[derive(Clone, Copy, Debug)]
pub enum End {
    Exited(u8),
    Trapped(Cause, u32),
}
