// What is known of the rounds of a drill by their definitions.
ghost use Rattle.std.specs.Prelude.{◌≡◌, ◌<◌, ◌^◌, ℕ};
ghost use Rattle.drill_draws.specs.Rounds.{drill_image};

/// Images that are the same are of one round, whatever flashes they are for and whatever was drawn: so each round of a
/// drill has an image of its own.
pub fn rounds_have_images_of_their_own()
    ensures { (round other size other_size x y : ℕ) → round < 2 ^ 32 → other < 2 ^ 32 →
        drill_image round size x ≡ drill_image other other_size y → round ≡ other }
{}
