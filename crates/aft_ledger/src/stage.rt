//! What a node is doing.

ghost use Rattle.std.specs.Prelude.{◌≡◌, ◌+◌, ◌<◌, ◌^◌};
ghost use Rattle.aft_ledger.specs.Stages.{boots_of, next_of, serves_of, serving_of};

use aft_model::Reply;

/// What a node is doing.
#[derive(Clone, Copy, Debug, PartialEq, Eq)]
pub(crate) enum Stage {
    Down,
    /// It boots an incarnation, by a boot that runs, or after one that was stopped.
    Booting { inc: u32, running: bool },
    Serving { inc: u32 },
}

impl Stage {
    /// The incarnation that serves, if one does.
    pub(crate) fn serving(self) -> Option<u32>
        ensures { result ≡ serving_of self }
    {
        match self {
            Stage::Serving { inc } => Some(inc),
            _ => None,
        }
    }

    /// Whether an incarnation serves.
    pub(crate) fn serves(self, inc: u32) -> bool
        ensures { result ≡ serves_of inc self }
    {
        match self {
            Stage::Serving { inc: serving } => inc == serving,
            _ => false,
        }
    }

    /// Whether an incarnation boots.
    pub(crate) fn boots(self, inc: u32) -> bool
        ensures { result ≡ boots_of inc self }
    {
        match self {
            Stage::Booting { inc: booting, .. } => inc == booting,
            _ => false,
        }
    }

    /// The incarnation that boots next after the newest one, or why none does.
    pub(crate) fn next_boot(self, node: u32, newest: u32) -> Result<u32, Reply>
        requires few { newest < 2 ^ 31 + 2 }
        ensures { result ≡ next_of node newest self }
    {
        match self {
            Stage::Serving { inc } => Err(Reply::IsUp { node, inc }),
            Stage::Booting { inc, running: true } => Err(Reply::IsBooting { node, inc }),
            Stage::Booting {
                inc,
                running: false,
            } => Ok(inc),
            Stage::Down => Ok(newest + 1),
        }
    }
}
