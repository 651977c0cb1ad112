//! How many lines of a kind a script has.

ghost use Rattle.std.specs.Prelude.{◌≡◌, ◌≤◌, ◌-◌};
ghost use Rattle.aft_script.specs.Limits.{one_more, tally_with};

use crate::fault::LineFault;
use aft_model::Command;

/// The most `start` lines.
const MAX_STARTS: u32 = 16;
/// The most `manager` lines, and the most `collect` lines, with the background rounds.
const MAX_ROUNDS: u32 = 20;
/// The most `orphans` lines.
const MAX_ORPHANS: u32 = 10;
/// The most `backup` lines.
const MAX_BACKUPS: u32 = 1;

/// How many lines of each kind that is limited were read.
#[derive(Clone, Copy, Debug)]
pub(crate) struct Tally {
    pub(crate) starts: u32,
    pub(crate) managers: u32,
    pub(crate) collects: u32,
    pub(crate) orphans: u32,
    pub(crate) backups: u32,
}

impl Tally {
    /// The tally with one command more, or the fault where its kind has no room for it.
    pub(crate) fn with(self, rounds: u32, order: &Command) -> Result<Tally, LineFault>
        requires { rounds ≤ 20 }
        ensures { result ≡ tally_with rounds self order.now }
    {
        match order {
            Command::Start { .. } => Ok(Tally {
                starts: one_more(MAX_STARTS, self.starts, LineFault::TooManyStarts)?,
                ..self
            }),
            Command::Manager => Ok(Tally {
                managers: one_more(MAX_ROUNDS - rounds, self.managers, LineFault::TooManyRounds)?,
                ..self
            }),
            Command::Collect => Ok(Tally {
                collects: one_more(MAX_ROUNDS - rounds, self.collects, LineFault::TooManyRounds)?,
                ..self
            }),
            Command::Orphans { .. } => Ok(Tally {
                orphans: one_more(MAX_ORPHANS, self.orphans, LineFault::TooManyRounds)?,
                ..self
            }),
            Command::Backup => Ok(Tally {
                backups: one_more(MAX_BACKUPS, self.backups, LineFault::TooManyRounds)?,
                ..self
            }),
            _ => Ok(self),
        }
    }
}

/// The count with one more, if there may be so many.
fn one_more(most: u32, count: u32, fault: LineFault) -> Result<u32, LineFault>
    ensures { result ≡ one_more most count fault }
{
    if count < most {
        Ok(count + 1)
    } else {
        Err(fault)
    }
}
