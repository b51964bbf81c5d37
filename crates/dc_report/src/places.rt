/// A place among the lines of a block that come after its first line. A number is that of the dispatcher, slot, port or signal whose line is next, or of the
/// first after it that has one. For timers it is the place in their order, and a message has the number of its port and its place there.
#[derive(Clone, Copy, Debug)]
pub(crate) enum Part {
    Disp(u32),
    Ready,
    Cap(u32),
    Timer(u32),
    PortMessage(u32, u32),
    Signal(u32),
}

/// A place among the lines of a report: the number of the core, block, channel, line or console whose line is next, or of the first after it that has one,
/// and for messages of a channel and words of a console the place there.
#[derive(Clone, Copy, Debug)]
pub(crate) enum Place {
    Core(u32),
    Block(u32),
    Within(u32, Part),
    Channel(u32),
    ChannelMessage(u32, u32),
    Line(u32),
    Offer(u32),
    Out(u32, u32),
}
