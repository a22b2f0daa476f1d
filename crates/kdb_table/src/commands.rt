/// An entry of the table of the commands.
#[derive(Clone, Copy, Debug, PartialEq, Eq)]
pub enum Entry {
    /// A command that is run at once.
    Run(Command),
    /// `defcmd`, which begins a macro.
    Define,
}

/// A command; `///` shows its usage: E is an expression, N a number, W a width of 1, 2, 4 or 8.
#[derive(Clone, Copy, Debug, PartialEq, Eq)]
pub enum Command {
    /// A command that shows something and changes nothing.
    Show(ShowCommand),
    /// `mm E E`: changes a word of BYTESPERWORD bytes.
    Mm,
    /// `mmW E E`: changes a word of W bytes.
    MmWidth,
    /// `rm REG E`: changes a register.
    Rm,
    /// `bp E`: sets a breakpoint.
    Bp,
    /// `bc N`, `bd N`, `be N`: changes breakpoints.
    Change(BreakpointChange),
    /// `cpu N`: makes a processor the current one.
    Cpu,
    /// `set NAME=VALUE`: sets a variable.
    SetOneWord,
    /// `set NAME VALUE`: sets a variable.
    Set,
    /// `ss`: leaves the session for one instruction.
    Ss,
    /// `go [E]`: leaves the session.
    Go,
}

/// What a command shows.
#[derive(Clone, Copy, Debug, PartialEq, Eq)]
pub enum ShowCommand {
    /// `md E [E]`: lines of memory in words of BYTESPERWORD bytes.
    Md,
    /// `mdW E [E]`: lines of memory in words of W bytes.
    MdWidth,
    /// `mdWcN E`: N words of W bytes.
    MdCount,
    /// `mdr E E`: bytes of memory as digits.
    Mdr,
    /// `mds E [E]`: words of memory with the symbols that they are near.
    Mds,
    /// `id E [E]`: the instructions in memory.
    Id,
    /// `rd`: the registers.
    Rd,
    /// `bp`: the breakpoints that are set.
    BpList,
    /// `bl`: the breakpoints that are set.
    Bl,
    /// `bt`: the frames of the current processor.
    Bt,
    /// `btc`: the frames of each processor in the session.
    Btc,
    /// `cpu`: the processors in the session.
    CpuList,
    /// `env`: the variables.
    Env,
    /// `help`: how the commands are written.
    Help,
}

/// How a breakpoint is changed.
#[derive(Clone, Copy, Debug, PartialEq, Eq)]
pub enum BreakpointChange {
    Clear,
    Disable,
    Enable,
}
