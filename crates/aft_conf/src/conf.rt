//! The settings of a run.

/// The settings of a run.
#[derive(Clone, Copy, Debug, PartialEq, Eq)]
pub struct Conf {
    /// How many nodes there are: 1 to 8.
    pub nodes: u32,
    /// How many values a node's cache keeps: 1 to 4,096.
    pub cache: u32,
    /// How many messages a mailbox holds: 1 to 4,096.
    pub mailbox: u32,
    /// How many background rounds of each kind a run with threads makes: 0 to 20.
    pub rounds: u32,
}

impl Default for Conf {
    ghost use Rattle.std.specs.Prelude.{◌≡◌};
    ghost use Rattle.aft_conf.specs.Settings.{default_settings};

    ghost is_default = { λ conf. conf ≡ default_settings };

    /// The settings where nothing is said: two nodes, 256 values, 256 messages and 4 rounds.
    fn default() -> Conf {
        Conf {
            nodes: 2,
            cache: 256,
            mailbox: 256,
            rounds: 4,
        }
    }
}
