// Why a table is not installed.
ghost use Rattle.std.specs.Prelude.{◌≡◌};
ghost use Rattle.gateway.specs.declared.fault.InstallFault.TheVariants.{Load, Build};
ghost use Rattle.gateway.specs.Faults.{install_number, install_record};

use grid::build::BuildFault;
use tables::fault::LoadFault;

// The fault of the layer that refuses, whole.
#[derive(Clone, Copy, PartialEq, Eq, Debug)]
pub enum InstallFault {
    // the table is not loaded
    Load(LoadFault),
    // the table is loaded, and its grid is not built
    Build(BuildFault),
}

impl From<LoadFault> for InstallFault {
    ghost from_gives = { λ e r. r ≡ Load e };

    fn from(fault: LoadFault) -> InstallFault {
        InstallFault::Load(fault)
    }
}

impl From<BuildFault> for InstallFault {
    ghost from_gives = { λ e r. r ≡ Build e };

    fn from(fault: BuildFault) -> InstallFault {
        InstallFault::Build(fault)
    }
}

impl InstallFault {
    // The number of the refusal.
    pub fn number(self) -> u8
        ensures { result ≡ install_number self }
    {
        match self {
            InstallFault::Load(fault) => fault.number(),
            InstallFault::Build(fault) => fault.number(),
        }
    }

    // The record that is refused, counted from 1; 0 for the head, and where it is the build that is refused.
    pub fn record(self) -> u16
        ensures { result ≡ install_record self }
    {
        match self {
            InstallFault::Load(fault) => fault.record(),
            InstallFault::Build(_) => 0,
        }
    }
}
