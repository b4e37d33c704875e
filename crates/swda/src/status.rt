//! The answers of the top call.

ghost use Rattle.std.specs.Prelude.{◌≡◌};

use sw_base::Text;
use sw_rules::Refusal;

/// How a call of the program has ended. The number of each is the exit code of the program.
#[derive(Debug, PartialEq, Eq, Drop)]
pub enum Status {
    /// 0: the run was driven to its end, and its report is written.
    Done,
    /// 1: the source breaks a rule. The first that it breaks is written, with its place.
    Refused(Refusal),
    /// 2: the words are none of the forms of the call.
    Usage,
    /// 3: the file of this name could not be loaded.
    LoadFault { name: Text },
    /// 4: the sink failed. It took a prefix of what was to be written.
    WriteFault,
    /// 10: memory was wanted. Nothing is written.
    WantOfMemory,
    /// 11: the source or the plan is beyond what is built so far.
    NotBuilt,
}

impl Status {
    ghost use Rattle.swda.specs.ExitCodes.{code_of};

    /// The exit code of the program.
    pub fn code(&self) -> u8
        ensures { result ≡ code_of self.now }
    {
        match self {
            Status::Done => 0,
            Status::Refused(_) => 1,
            Status::Usage => 2,
            Status::LoadFault { .. } => 3,
            Status::WriteFault => 4,
            Status::WantOfMemory => 10,
            Status::NotBuilt => 11,
        }
    }
}
