//! The forms of lines, as they are shown.

ghost use Rattle.std.specs.Prelude.{◌≡◌};
ghost use Rattle.script.specs.Forms.{parts_of};

/// The form of a line.
#[derive(Clone, Copy, Debug)]
pub enum Form {
    /// A member joins.
    Join,
    /// A member leaves.
    Leave,
    /// A member is lost.
    Lose,
    /// A static member joins.
    Keep,
    /// A new member takes over the seat of a static one.
    Return,
    /// A member takes its lease.
    Sync,
    /// A member joins the rebalance.
    Rejoin,
    /// A member reads.
    Poll,
    /// A member sends a commit.
    Send,
    /// A commit is delivered.
    Deliver,
    /// A commit is delivered, and the reply is lost.
    Unanswered,
    /// A record is appended.
    Append,
    /// The group settles.
    Settle,
    /// All logs are read and committed to their ends.
    Drain,
}

/// The forms of the lines of a script.
pub const FORMS: [Form; 14] = [
    Form::Join,
    Form::Leave,
    Form::Lose,
    Form::Keep,
    Form::Return,
    Form::Sync,
    Form::Rejoin,
    Form::Poll,
    Form::Send,
    Form::Deliver,
    Form::Unanswered,
    Form::Append,
    Form::Settle,
    Form::Drain,
];

/// How many of them, from the first on, are forms of the lines of a plan, too.
pub const PLAN_FORMS: usize = 3;

impl Form {
    /// The form as it is shown, in two parts: with topics the name of one stands between them,
    /// unless the second is empty. What differs from line to line is in capitals.
    pub fn parts(self) -> (&'static [u8], &'static [u8])
        ensures { (result.0.now, result.1.now) ≡ parts_of self }
    {
        match self {
            Form::Join => (b"join NAME", b""),
            Form::Leave => (b"leave NAME", b""),
            Form::Lose => (b"lose NAME", b""),
            Form::Keep => (b"keep NAME", b""),
            Form::Return => (b"return NAME", b""),
            Form::Sync => (b"sync NAME", b""),
            Form::Rejoin => (b"rejoin NAME", b""),
            Form::Poll => (b"poll NAME", b" P N"),
            Form::Send => (b"send NAME", b" P"),
            Form::Deliver => (b"deliver C", b""),
            Form::Unanswered => (b"unanswered C", b""),
            Form::Append => (b"append", b" KEY"),
            Form::Settle => (b"settle", b""),
            Form::Drain => (b"drain", b""),
        }
    }
}
