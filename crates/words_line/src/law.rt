//! What words mean in the orders in which they are mostly written.
ghost use Rattle.std.specs.Prelude.{◌≡◌, ℕ, ◌≤◌, List, [], ◌∷◌, length, Some, None, Ok, codes};
ghost use Rattle.std.specs.Fmt.{decimal};
ghost use Rattle.trace_rec.specs.declared.view.View.TheVariants.{Journal, Summary};
ghost use Rattle.words_line.specs.Parses.{places};
ghost use Rattle.words_line.specs.Ranges.{IsInRange};
ghost use Rattle.words_line.specs.Usual.{IsPlain};
ghost use Rattle.words_line.specs.Words.{command};
ghost use Rattle.words_line.specs.declared.command.Command.{Command};
ghost use Rattle.words_line.specs.declared.command.Command.TheVariants.{Run, Plan, Gen};

/// What words mean in their usual orders: a command, what it is about, and its options behind them, or
/// between them with `--` before what it is about.
pub fn usual_words()
    ensures places { (a b t v : List ℕ) → IsPlain a → IsPlain b → IsPlain t → IsPlain v
        → places (a ∷ b ∷ codes "--host-ticks" ∷ t ∷ codes "--view" ∷ v ∷ []) ≡ Some (record { command = a; about = b; host_ticks = Some t; view = Some v }) }
    ensures dashes { (a b t v : List ℕ) → IsPlain a → IsPlain t → IsPlain v
        → places (a ∷ codes "--host-ticks" ∷ t ∷ codes "--view" ∷ v ∷ codes "--" ∷ b ∷ [])
        ≡ Some (record { command = a; about = b; host_ticks = Some t; view = Some v }) }
    ensures two { (a b : List ℕ) → IsPlain a → IsPlain b → places (a ∷ b ∷ []) ≡ Some (record { command = a; about = b; host_ticks = None; view = None }) }
    ensures run { (file : List ℕ) (n : ℕ) → IsPlain file → 1 ≤ length file → n ≤ 1000000
        → command (codes "run" ∷ file ∷ codes "--host-ticks" ∷ decimal n ∷ codes "--view" ∷ codes "journal" ∷ []) ≡ Ok (Run file n Journal) }
    ensures any_file { (file : List ℕ) (n : ℕ) → 1 ≤ length file → n ≤ 1000000
        → command (codes "run" ∷ codes "--host-ticks" ∷ decimal n ∷ codes "--view" ∷ codes "journal" ∷ codes "--" ∷ file ∷ []) ≡ Ok (Run file n Journal) }
    ensures summary { (file : List ℕ) (n : ℕ) → IsPlain file → 1 ≤ length file → n ≤ 1000000
        → command (codes "run" ∷ file ∷ codes "--host-ticks" ∷ decimal n ∷ []) ≡ Ok (Run file n Summary) }
    ensures plan { (file : List ℕ) → IsPlain file → 1 ≤ length file → command (codes "plan" ∷ file ∷ []) ≡ Ok (Plan file) }
    ensures load { (n t : ℕ) → 2 ≤ n → n ≤ 32 → t ≤ 1000000 → command (codes "gen" ∷ decimal n ∷ codes "--host-ticks" ∷ decimal t ∷ []) ≡ Ok (Gen n t) }
{}

/// The numbers of every command are in their ranges: at most 1,000,000 host ticks, and 2 to 32 guests of a load.
pub fn commands_are_in_range()
    ensures ranges { (words : List (List ℕ)) (c : Command) → command words ≡ Ok c → IsInRange c }
{}
