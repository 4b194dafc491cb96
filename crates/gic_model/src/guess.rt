//! The limit of a guess.
ghost use Rattle.std.specs.Prelude.{◌≡◌, ◌≤◌, unsigned_abs};
ghost use Rattle.gic_model.specs.Guess.{most_guess, cut};

/// The greatest guess in grains of 2^-36 nanovolt, either way.
pub const MOST_GUESS: i128 = 1 << 96;

/// A guess in grains, cut to [`MOST_GUESS`] either way.
#[inline(always)]
pub fn cut_guess(guess: i128) -> i128
    ensures value { result ≡ cut guess }
    ensures small { unsigned_abs result ≤ most_guess }
{
    guess.min(MOST_GUESS).max(-MOST_GUESS)
}
