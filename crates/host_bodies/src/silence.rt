//! Why a host gives no answer.

ghost use Rattle.std.specs.Prelude.{◌≡◌};
ghost use Rattle.host_bodies.specs.Silences.{silence_text};

/// Why there is no answer of a host.
#[derive(Clone, Copy)]
pub enum Silence {
    /// There is no host.
    NoHost,
    /// The request could not be written whole.
    Unsent,
    /// The host says nothing more.
    Ended,
    /// What it says could not be read.
    Unread,
    /// Its line has no end within the room for a line.
    TooLong,
    /// It said more than a line.
    Unasked,
    /// Its line is no answer to the request.
    NoAnswer,
    /// There was no memory for the answer.
    NoMemory,
}

impl Silence {
    /// What is told of a test to which there is no answer.
    pub fn text(self) -> &'static str
        ensures { result.now ≡ silence_text self }
    {
        match self {
            Silence::NoHost => "there is no host",
            Silence::Unsent => "the host takes nothing",
            Silence::Ended => "the host has ended",
            Silence::Unread => "the host is unreadable",
            Silence::TooLong => "the answer is too long",
            Silence::Unasked => "the host said too much",
            Silence::NoAnswer => "no answer to this test",
            Silence::NoMemory => "no memory",
        }
    }
}
