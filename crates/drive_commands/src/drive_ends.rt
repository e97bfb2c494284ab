//! How a command ends by its drive.
ghost use Rattle.std.specs.Prelude.{◌≡◌};
ghost use Rattle.drive_commands.specs.DriveEnds.{ended_by};

use call_ends::Ended;
use meter_run::RunFault;

/// How a command ended that ran its drive.
pub fn ended_of(ran: Result<(), RunFault>) -> Ended
    ensures { result ≡ ended_by ran }
{
    match ran {
        Ok(()) => Ended::Done,
        Err(RunFault::ReadFault) => Ended::ReadFault,
        Err(RunFault::BoardFault) => Ended::BoardFault,
        Err(RunFault::BadDrive(line)) => Ended::BadDrive(line),
        Err(RunFault::TooLong) => Ended::EndlessDrive,
    }
}
