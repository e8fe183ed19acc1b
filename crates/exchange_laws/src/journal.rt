// How a journal parts into its lines.
ghost use Rattle.std.specs.Prelude.{◌≡◌, ◌++◌, List, ℕ, flat_map};
ghost use Rattle.ec_model.specs.declared.event.Entry.{Entry};
ghost use Rattle.ec_model.specs.Run.{IsRun, before_mark, segment};
ghost use Rattle.ec_model.specs.Table.{Table};
ghost use Rattle.exchange_laws.specs.Journal.{marked, MarksOnce, RunsLine};

/// A journal that marks no line twice is its entries before the first mark, and then those of its lines in order. The
/// entries of each line stand in it in one piece, and are a run themselves.
pub fn journals_part()
    ensures whole { (entries : List Entry) → MarksOnce entries →
        entries ≡ before_mark entries ++ flat_map (λ line. segment line entries) (marked entries) }
    ensures line { (old : Table) (entries : List Entry) (new : Table) (line : ℕ) → IsRun old entries new →
        RunsLine line old entries new }
{}
