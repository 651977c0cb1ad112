//! What a line claims a UUID for.

ghost use Rattle.aft_begin.specs.View.{spare};
ghost use Rattle.std.specs.Prelude.{◌≡◌, ◌≤◌};

/// What a line claims a UUID for.
#[derive(Clone, Copy, Debug, PartialEq, Eq)]
pub enum Aim {
    /// To begin: an attempt of the UUID is to run.
    Begin,
    /// To forget: the short marker of the UUID is to be deleted.
    Forget,
}

/// How many more turns it takes than a begin.
pub(crate) fn spare(aim: Aim) -> u32
    ensures value { result ≡ spare aim }
    ensures most { result ≤ 1 }
{
    match aim {
        Aim::Begin => 0,
        Aim::Forget => 1,
    }
}
