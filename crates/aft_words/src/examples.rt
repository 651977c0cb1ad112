//! What some command lines ask for, as calls that do nothing and promise it.

ghost use Rattle.std.specs.Prelude.{◌≡◌, ◌∷◌, [], None, Some, codes, false, true};
ghost use Rattle.aft_words.specs.Asked.{Backup, Check, Make, Restore, Run, Session, Step, Upgrade};
ghost use Rattle.aft_words.specs.Reading.{reading};

/// What each command asks for.
pub fn commands()
    ensures runs { reading (codes "run" ∷ codes "a" ∷ []) ≡ Some (Run (codes "a") (record { conf = None; store = None; time = None }) false) }
    ensures steps { reading (codes "step" ∷ codes "a" ∷ codes "b" ∷ []) ≡ Some (Step (codes "a") (codes "b") (record { conf = None; store = None; time = None }) false) }
    ensures makes { reading (codes "make" ∷ codes "5000" ∷ codes "18446744073709551615" ∷ []) ≡ Some (Make 5000 18446744073709551615) }
    ensures upgrades { reading (codes "upgrade" ∷ []) ≡ Some (Upgrade None None) }
    ensures sessions { reading (codes "session" ∷ codes "a" ∷ codes "b" ∷ codes "c" ∷ []) ≡ Some (Session (codes "a") (codes "b") (codes "c") (record { conf = None; store = None; time = None })) }
    ensures backs_up { reading (codes "backup" ∷ codes "a" ∷ codes "b" ∷ []) ≡ Some (Backup (codes "a") (codes "b") (record { conf = None; store = None; time = None })) }
    ensures restores { reading (codes "restore" ∷ codes "a" ∷ codes "--store" ∷ codes "db" ∷ []) ≡ Some (Restore (codes "a") (Some (codes "db"))) }
    ensures checks { reading (codes "check" ∷ codes "a" ∷ []) ≡ Some (Check (codes "a")) }
{}

/// Where options and names may stand, and how they are spelled.
pub fn options()
    ensures behind { reading (codes "step" ∷ codes "a" ∷ codes "b" ∷ codes "--clock" ∷ codes "1000" ∷ []) ≡ Some (Step (codes "a") (codes "b") (record { conf = None; store = None; time = Some 1000 }) false) }
    ensures in_one_word { reading (codes "step" ∷ codes "--clock=1000" ∷ codes "a" ∷ codes "b" ∷ []) ≡ Some (Step (codes "a") (codes "b") (record { conf = None; store = None; time = Some 1000 }) false) }
    ensures between { reading (codes "step" ∷ codes "--conf" ∷ codes "c" ∷ codes "a" ∷ codes "--trace" ∷ codes "b" ∷ codes "--store=db" ∷ []) ≡ Some (Step (codes "a") (codes "b") (record { conf = Some (codes "c"); store = Some (codes "db"); time = None }) true) }
    ensures second_equals { reading (codes "run" ∷ codes "a" ∷ codes "--conf=b=c" ∷ []) ≡ Some (Run (codes "a") (record { conf = Some (codes "b=c"); store = None; time = None }) false) }
    ensures names_only { reading (codes "step" ∷ codes "a" ∷ codes "--" ∷ codes "-b" ∷ []) ≡ Some (Step (codes "a") (codes "-b") (record { conf = None; store = None; time = None }) false) }
    ensures hyphen { reading (codes "run" ∷ codes "-" ∷ codes "--conf=-" ∷ []) ≡ Some (Run (codes "-") (record { conf = Some (codes "-"); store = None; time = None }) false) }
    ensures zeros { reading (codes "make" ∷ codes "--" ∷ codes "0001" ∷ codes "07" ∷ []) ≡ Some (Make 1 7) }
{}

/// Command lines without a reading.
pub fn refused()
    ensures no_words { reading [] ≡ None }
    ensures help { reading (codes "--help" ∷ []) ≡ None }
    ensures late_command { reading (codes "--trace" ∷ codes "run" ∷ codes "a" ∷ []) ≡ None }
    ensures few_names { reading (codes "step" ∷ codes "a" ∷ []) ≡ None }
    ensures many_names { reading (codes "run" ∷ codes "a" ∷ codes "b" ∷ []) ≡ None }
    ensures empty_name { reading (codes "run" ∷ [] ∷ []) ≡ None }
    ensures empty_store { reading (codes "run" ∷ codes "a" ∷ codes "--store=" ∷ []) ≡ None }
    ensures other_option { reading (codes "step" ∷ codes "a" ∷ codes "-b" ∷ []) ≡ None }
    ensures twice { reading (codes "step" ∷ codes "a" ∷ codes "b" ∷ codes "--clock" ∷ codes "1" ∷ codes "--clock" ∷ codes "1" ∷ []) ≡ None }
    ensures no_value { reading (codes "run" ∷ codes "a" ∷ codes "--conf" ∷ []) ≡ None }
    ensures hyphened_value { reading (codes "run" ∷ codes "a" ∷ codes "--conf" ∷ codes "-" ∷ []) ≡ None }
    ensures valued_trace { reading (codes "run" ∷ codes "a" ∷ codes "--trace=" ∷ []) ≡ None }
    ensures late_time { reading (codes "run" ∷ codes "a" ∷ codes "--clock=18446744073709551616" ∷ []) ≡ None }
    ensures none_made { reading (codes "make" ∷ codes "0" ∷ codes "1" ∷ []) ≡ None }
    ensures many_made { reading (codes "make" ∷ codes "5001" ∷ codes "1" ∷ []) ≡ None }
    ensures made_with_option { reading (codes "make" ∷ codes "1" ∷ codes "1" ∷ codes "--trace" ∷ []) ≡ None }
    ensures restored_at { reading (codes "restore" ∷ codes "a" ∷ codes "--clock" ∷ codes "1" ∷ []) ≡ None }
{}
