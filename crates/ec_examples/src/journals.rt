// The lines of a journal.
ghost use Rattle.std.specs.Prelude.{◌≡◌, true, [], ◌∷◌};
ghost use Rattle.ec_model.specs.declared.event.Access.TheVariants.{PortIn};
ghost use Rattle.ec_model.specs.declared.event.Event.TheVariants.{Access, Reset, Power};
ghost use Rattle.ec_model.specs.declared.event.WorldReset.TheVariants.{Pin};
ghost use Rattle.ec_model.specs.declared.event.Entry.TheVariants.{Mark};
ghost use Rattle.ec_model.specs.Run.{before_mark, segment};
ghost use Rattle.ec_examples.specs.Entries.{plain, waited};
ghost use Rattle.ec_examples.specs.Journals.{two_lines};

/// What a journal has before its first mark, and behind each of its two, up to the next one. A line with no mark has nothing.
pub fn lines_of_a_journal()
    ensures before { before_mark two_lines ≡ plain (Power true) 0 ∷ [] }
    ensures first { segment 3 two_lines ≡ Mark 3 ∷ plain (Access (PortIn 0x800)) 0 ∷ waited ∷ [] }
    ensures last { segment 5 two_lines ≡ Mark 5 ∷ plain (Reset Pin) 0 ∷ waited ∷ [] }
    ensures none { segment 4 two_lines ≡ [] }
{}

/// Of two marks of one line the first counts.
pub fn line_that_is_marked_twice()
    ensures { segment 3 (Mark 3 ∷ waited ∷ Mark 3 ∷ plain (Reset Pin) 0 ∷ []) ≡ Mark 3 ∷ waited ∷ [] }
{}
