ghost use Rattle.std.specs.Prelude.{◌≡◌};
ghost use Rattle.run_top.specs.declared.refusals.Refused.TheVariants as refused;
ghost use Rattle.run_top.specs.Statuses as spec;

use ax_io::ReadError;
use ax_types::{NoMemory, RunEnd, Status, Why};
use command_words::WordsRefused;
use script_run::GivenUp;
use store_opening::OpenRefused;

/// Why nothing is written.
#[derive(Clone, Copy)]
pub enum Refused {
    Usage,
    Script { line: u64, why: Why },
    ReadFault,
    StoreNotEmpty { node: u8 },
    StoreFault { node: u8 },
    NoMemory,
}

impl Refused {
    /// The status of a run that writes nothing.
    pub fn status(self) -> Status
        ensures { result ≡ spec.status_of self }
    {
        match self {
            Refused::Usage => Status::Usage,
            Refused::Script { line, why } => Status::Script { line, why },
            Refused::ReadFault => Status::ReadFault,
            Refused::StoreNotEmpty { node } => Status::StoreNotEmpty { node },
            Refused::StoreFault { node } => Status::StoreFault { node },
            Refused::NoMemory => Status::NoMemory,
        }
    }
}

/// The status of a run that was given up.
pub fn given_up(why: GivenUp) -> Status
    ensures { result ≡ spec.of_given_up why }
{
    match why {
        GivenUp::NoMemory => Status::NoMemory,
        GivenUp::WriteFault => Status::WriteFault,
    }
}

/// The status of a run that ended so.
pub fn ended(end: RunEnd) -> Status
    ensures { result ≡ spec.of_end end }
{
    match end {
        RunEnd::Done => Status::Done,
        RunEnd::StepLimit { line } => Status::StepLimit { line },
    }
}

impl From<NoMemory> for Refused {
    ghost from_gives = { λ _ e. e ≡ refused.NoMemory };

    fn from(_error: NoMemory) -> Refused {
        Refused::NoMemory
    }
}

impl From<WordsRefused> for Refused {
    ghost from_gives = { λ error e. e ≡ spec.of_words error };

    fn from(error: WordsRefused) -> Refused {
        match error {
            WordsRefused::Usage => Refused::Usage,
            WordsRefused::NoMemory => Refused::NoMemory,
        }
    }
}

impl From<ReadError> for Refused {
    ghost from_gives = { λ error e. e ≡ spec.of_read error };

    fn from(error: ReadError) -> Refused {
        match error {
            ReadError::Failed => Refused::ReadFault,
            ReadError::NoMemory => Refused::NoMemory,
        }
    }
}

impl From<OpenRefused> for Refused {
    ghost from_gives = { λ error e. e ≡ spec.of_opening error };

    fn from(error: OpenRefused) -> Refused {
        match error {
            OpenRefused::NotEmpty { node } => Refused::StoreNotEmpty { node },
            OpenRefused::Fault { node } => Refused::StoreFault { node },
            OpenRefused::NoMemory => Refused::NoMemory,
        }
    }
}
