//! The parts of the promise on gets, as calls that do nothing and promise them.

ghost use Rattle.std.specs.Prelude.{◌≡◌, IsTrue, List, Some, not, ℕ};
ghost use Rattle.std.specs.List.{list_all};
ghost use Rattle.aft_model.specs.declared.script.Command.TheVariants.{Get};
ghost use Rattle.aft_model.specs.declared.script.Line.{Line};
ghost use Rattle.aft_model.specs.Honest.{Honest};
ghost use Rattle.aft_model.proofs.Histories.{In};
ghost use Rattle.aft_lines.specs.Asked.{Asked, Ran};
ghost use Rattle.aft_lines.specs.FinishedText.{answers_of, line_of};
ghost use Rattle.aft_lines.specs.Headline as headline;
ghost use Rattle.aft_lines.specs.LegalTrace.{LegalTrace};
ghost use Rattle.aft_lines.specs.Lines.{lines};
ghost use Rattle.aft_lines.specs.RunsSoFar.{RunsSoFar};
ghost use Rattle.law_boots.specs.Gets as gets;

/// Where the store keeps what it acknowledged, what each attempt has read is atomic at each moment beside all that is committed at
/// the door, in a run so far and in a legal trace.
pub fn reads_atomic()
    ensures so_far { (asked : Asked) (ran : Ran) → RunsSoFar asked ran → Honest ran.trace.door → IsTrue (headline.reads_atomic_sets ran.trace) }
    ensures legal { (asked : Asked) (ran : Ran) → LegalTrace asked ran → Honest ran.trace.door → IsTrue (headline.reads_atomic_sets ran.trace) }
{}

/// Whatever the store keeps, each get reads at an id of a commit that was recorded before, or at that of absent keys.
pub fn reads_recorded()
    ensures so_far { (asked : Asked) (ran : Ran) → RunsSoFar asked ran → IsTrue (gets.reads_recorded_ids ran.trace) }
    ensures legal { (asked : Asked) (ran : Ran) → LegalTrace asked ran → IsTrue (gets.reads_recorded_ids ran.trace) }
{}

/// A get that follows an own put answers it.
pub fn own_puts_answered()
    ensures so_far { (asked : Asked) (ran : Ran) → RunsSoFar asked ran → IsTrue (gets.answers_own ran.trace) }
    ensures legal { (asked : Asked) (ran : Ran) → LegalTrace asked ran → IsTrue (gets.answers_own ran.trace) }
{}

/// Gets of one key with no own put between are answered of one version, or all that the key is absent.
pub fn gets_repeat()
    ensures so_far { (asked : Asked) (ran : Ran) → RunsSoFar asked ran → IsTrue (gets.repeats_versions ran.trace) }
    ensures legal { (asked : Asked) (ran : Ran) → LegalTrace asked ran → IsTrue (gets.repeats_versions ran.trace) }
{}

/// An answer that no version fits names, for each known version of the key, a conflicting earlier read.
pub fn blockers_stay_named()
    ensures so_far { (asked : Asked) (ran : Ran) → RunsSoFar asked ran → IsTrue (headline.names_blockers ran.trace) }
    ensures legal { (asked : Asked) (ran : Ran) → LegalTrace asked ran → IsTrue (headline.names_blockers ran.trace) }
{}

/// Where the store keeps what it acknowledged, each get reads what was recorded before, and each value that it answers, fetched or kept,
/// is that of the version.
pub fn values_are_recorded()
    ensures so_far { (asked : Asked) (ran : Ran) → RunsSoFar asked ran → Honest ran.trace.door → IsTrue (headline.reads_recorded ran.trace) }
    ensures legal { (asked : Asked) (ran : Ran) → LegalTrace asked ran → Honest ran.trace.door → IsTrue (headline.reads_recorded ran.trace) }
{}

/// So a get that follows an own put answers it, and gets of one key with no own put between answer the same.
pub fn own_puts_and_repeats()
    ensures so_far { (asked : Asked) (ran : Ran) → RunsSoFar asked ran → Honest ran.trace.door → IsTrue (headline.reads_own_and_repeats ran.trace) }
    ensures legal { (asked : Asked) (ran : Ran) → LegalTrace asked ran → Honest ran.trace.door → IsTrue (headline.reads_own_and_repeats ran.trace) }
{}

/// And a get of a legal trace answers neither that a version is missing, nor that something is damaged.
pub fn gets_lose_nothing()
    ensures { (asked : Asked) (ran : Ran) (line : Line) (key : List ℕ) → LegalTrace asked ran → Honest ran.trace.door → In line (lines asked) → line.order ≡ Get key → IsTrue (list_all (λ reply. not (headline.tells_loss (Some reply))) (answers_of (line_of line) ran)) }
{}
