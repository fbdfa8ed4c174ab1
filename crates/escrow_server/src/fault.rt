use crate::stores::OpenFault;
use escrow_free::FreeFault;
use escrow_script::ServeFault;

/// Why the program ends before it has served its script to the end.
#[derive(Clone, Copy)]
pub(crate) enum RunFault {
    /// The store of a database can't be opened. Nothing was read.
    Unopened {
        /// The database's name.
        database: &'static str,
        /// Its place, from 0.
        place: u8,
        /// Why it can't be opened.
        cause: OpenFault,
    },
    /// The script isn't served to its end, one line after another.
    Unserved(ServeFault),
    /// The script isn't served to its end, with its sessions at the same time.
    Unjoined(FreeFault),
}

impl RunFault {
    ghost use Rattle.std.specs.Prelude.{◌≡◌, ◌≤◌};
    ghost use Rattle.escrow_server.specs.Program.{run_status};

    /// Returns the exit status: 3 if a store can't be opened, otherwise 1.
    pub(crate) fn status(self) -> u8
        ensures value { result ≡ run_status self }
        ensures failed { 1 ≤ result }
    {
        match self {
            RunFault::Unopened { .. } => 3,
            RunFault::Unserved(_) | RunFault::Unjoined(_) => 1,
        }
    }
}

impl From<ServeFault> for RunFault {
    ghost use Rattle.std.specs.Prelude.{◌≡◌};
    ghost use Rattle.escrow_server.specs.declared.fault.RunFault.TheVariants.{Unserved};

    ghost from_gives = { λ f e. e ≡ Unserved f };

    fn from(fault: ServeFault) -> RunFault {
        RunFault::Unserved(fault)
    }
}

impl From<FreeFault> for RunFault {
    ghost use Rattle.std.specs.Prelude.{◌≡◌};
    ghost use Rattle.escrow_server.specs.declared.fault.RunFault.TheVariants.{Unjoined};

    ghost from_gives = { λ f e. e ≡ Unjoined f };

    fn from(fault: FreeFault) -> RunFault {
        RunFault::Unjoined(fault)
    }
}
