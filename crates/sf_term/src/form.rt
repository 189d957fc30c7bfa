//! The forms of terms, by their shapes.

/// A primitive without constants.
#[derive(Clone, Copy, Debug, PartialEq, Eq)]
pub enum Bare {
    /// `identity`: the input.
    Identity,
    /// `localTime`: the milliseconds since the first sample.
    LocalTime,
    /// `integral`: the sum of the inputs before, each by the milliseconds to the next sample.
    Integral,
    /// `edge`: an event where the input is true and the one before was false.
    Edge,
    /// `notYet`: no event at the first sample, then the input.
    NotYet,
    /// `once`: the first event alone.
    Once,
    /// `count`: at an event, how many there were so far.
    Count,
    /// `pre`: the input before. It stands behind `-->` alone, and makes one primitive with it.
    Pre,
}

/// A primitive with a value.
#[derive(Clone, Copy, Debug, PartialEq, Eq)]
pub enum WithValue {
    /// `constant e`: the value.
    Constant,
    /// `initially e`: the value first, then the input.
    Initially,
    /// `iPre e`: the value first, then the input before.
    InitialPre,
    /// `-->(e, pre)`: the same.
    InitializedPre,
    /// `now e`: an event of the value at the first sample alone.
    Now,
    /// `iEdge e`: an event where the input is true and the one before was false, which the value stands for at the first
    /// sample.
    InitialEdge,
    /// `edgeTag e`: an event of the value where the input is true and the one before was false.
    EdgeTag,
    /// `hold e`: the last payload so far, or the value where there was none.
    Hold,
    /// `dHold e`: the last payload before this sample, or the value where there was none.
    DelayedHold,
}

/// A primitive with a value and a function of pairs: of the value so far and of what comes, or of the last two inputs.
#[derive(Clone, Copy, Debug, PartialEq, Eq)]
pub enum Accumulation {
    /// `edgeBy(e, f)`: the event that the function makes of the input before, or `e`, and the input.
    EdgeBy,
    /// `accumBy(e, f)`: at an event, an event of the next value, made of its payload.
    AccumBy,
    /// `accumHoldBy(e, f)`: the last value made of a payload, or `e`.
    AccumHoldBy,
    /// `sscan(e, f)`: the next value, made of the input.
    Scan,
}

/// A primitive with a time and a value.
#[derive(Clone, Copy, Debug, PartialEq, Eq)]
pub enum Timing {
    /// `after q e`: an event of the value once q milliseconds have passed since the first sample.
    After,
    /// `repeatedly q e`: an event of the value at each sample in whose time a multiple of q milliseconds lies.
    Repeatedly,
    /// `delay q e`: the newest input that is at least q milliseconds old, or the value where none is.
    Delay,
}

/// A primitive with a number, which goes by how many events there were before.
#[derive(Clone, Copy, Debug, PartialEq, Eq)]
pub enum Selection {
    /// `takeEvents n`: the first n events.
    TakeEvents,
    /// `dropEvents n`: the events after the first n.
    DropEvents,
}

/// Two terms joined.
#[derive(Clone, Copy, Debug, PartialEq, Eq)]
pub enum Join {
    /// `(s >>> t)`: the second on the outputs of the first.
    InSequence,
    /// `(s *** t)`: each on its part of a pair.
    InParallel,
    /// `(s &&& t)`: both on the input.
    FannedOut,
}

/// The part of a pair that a term is on.
#[derive(Clone, Copy, Debug, PartialEq, Eq)]
pub enum Side {
    /// `first t`: the first, while the second passes.
    First,
    /// `second t`: the second, while the first passes.
    Second,
}

/// Where a process begins that a name stands for.
#[derive(Clone, Copy, Debug, PartialEq, Eq)]
pub enum Start {
    /// `run k`: where it stood.
    Run,
    /// `fresh k`: where it stood before its first step.
    Fresh,
}

/// A form that is a name alone.
#[derive(Clone, Copy, Debug, PartialEq, Eq)]
pub enum Naming {
    /// `run k` and `fresh k`: the process that the name stands for.
    Process(Start),
    /// `probe p`: the input, which is recorded under the name.
    Probe,
}

/// Whose value shows at the sample of a switch's event.
#[derive(Clone, Copy, Debug, PartialEq, Eq)]
pub enum Observation {
    /// That of what begins there.
    Immediate,
    /// Still that of what ran before.
    Delayed,
}

/// A term that gives way to another at an event, whose payload the other knows.
#[derive(Clone, Copy, Debug, PartialEq, Eq)]
pub enum Switching {
    /// `switch(t, p => u)`, delayed `dSwitch`: at the first event beside the values of `t`, `u` takes over for good.
    Basic(Observation),
    /// `rSwitch(t, p => u)`, delayed `drSwitch`: at each event beside the inputs, `u` begins anew.
    Recurring(Observation),
}

/// A term with an expression at its head.
#[derive(Clone, Copy, Debug, PartialEq, Eq)]
pub enum Heading {
    /// `loopPre(e, t)`: the second output is the second input one sample later, and the value is the first one.
    LoopPre,
    /// `-->(e, t)`: the value of `e` at the first sample, then those of `t`.
    Initialized,
    /// `>--(e, t)`: the values of `t`, with that of `e` in the place of its first input.
    Replaced,
    /// `fby(e, t)`: the value of `e` at the first sample, then what `t` gave at the sample before.
    Followed,
}
