//! The lines of a stored session.
ghost use Rattle.std.specs.Prelude.{◌≡◌, ◌++◌, codes};
ghost use Rattle.gdb_transcripts.specs.Lines.{Says};

/// A line of a stored session.
#[derive(Clone, Copy)]
pub enum Line<'a> {
    /// `> PACKET`: gdb sends a packet with this payload.
    Packet(&'a [u8]),
    /// `> (`, and a word on it: gdb interrupts.
    Interrupt,
    /// `< ANSWER`: the answer to the packet before, or the next one of its answers.
    Answer(&'a [u8]),
    /// `< None`: the packet before has no answer.
    Silence,
    /// An empty line.
    Blank,
    /// No line of a session.
    Unknown,
}

impl Line<'_> {
    /// Whether it is a packet.
    pub fn is_packet(&self) -> bool {
        matches!(self, Line::Packet(_))
    }

    /// Whether it is an answer.
    pub fn is_answer(&self) -> bool {
        matches!(self, Line::Answer(_))
    }
}

/// What a line says.
pub fn line_of(text: &[u8]) -> Line<'_>
    ensures { Says text.now result }
{
    if let Some(payload) = text.strip_prefix(b"> ") {
        to_server(payload)
    } else if let Some(payload) = text.strip_prefix(b"< ") {
        to_gdb(payload)
    } else if text.is_empty() {
        Line::Blank
    } else {
        Line::Unknown
    }
}

/// What is sent to the server.
fn to_server(payload: &[u8]) -> Line<'_>
    ensures { Says (codes "> " ++ payload.now) result }
{
    if payload.starts_with(b"(") {
        Line::Interrupt
    } else {
        Line::Packet(payload)
    }
}

/// What is sent to gdb.
fn to_gdb(payload: &[u8]) -> Line<'_>
    ensures { Says (codes "< " ++ payload.now) result }
{
    if payload == b"None".as_slice() {
        Line::Silence
    } else {
        Line::Answer(payload)
    }
}
