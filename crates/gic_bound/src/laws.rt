//! Theorems over the definitions, each the contract of a function that does nothing: a function whose proof rests on a
//! theorem calls it.
ghost use Rattle.gic_bound.specs.Laws.{LeastCappedVectorExists, NoFullEntryIsEarthed, NoFullEntryIsBound, FullEntryIsBelowAll};
ghost use Rattle.gic_bound.specs.StartLaws.{RaisesKeepShifts, ShiftsLeadUnder, HeldAloneIsUnder, HeldAloneIsLeast, HeldIsCapped};
ghost use Rattle.gic_bound.specs.Shares.{IsCaseNetwork};
ghost use Rattle.gic_bound.specs.WorkedShares.{grounds_standing};
ghost use Rattle.gic_bound.specs.Raising.{IsTooSmall};
ghost use Rattle.gic_bound.specs.Starting.{IsHeld, lowered};
ghost use Rattle.gic_bound.specs.WorkedStarts.{loop_ones, loop_full, loop_twice, loop_twice_less};
ghost use Rattle.gic_model.specs.WorkedLoop.{loop, loop_standing, loop_vector};
ghost use Rattle.gic_bound.specs.ShareLaws.{IsEarthedEverywhere, IsEarthedThroughSubstations, EarthedEverywhereIsEarthed};
ghost use Rattle.gic_bound.specs.ShareLaws.{Entries128AreBound, EarthedThroughSubstationsIsEarthed, ShareEntriesAreBound};

/// There is a least capped vector. It has no entry `FULL_WALK` exactly where the network is earthed within
/// `MOST_WALK`, and is then a bound vector; at a node where its entry is `FULL_WALK`, every bound vector is above
/// `MOST_WALK`.
pub fn least_capped_vector_law()
    ensures exists { LeastCappedVectorExists }
    ensures earthed { NoFullEntryIsEarthed }
    ensures bound { NoFullEntryIsBound }
    ensures above { FullEntryIsBelowAll }
{}

/// Raising an entry that is too small keeps it from passing any capped vector by more than it was let to at the start.
/// So a vector to which the one less can be raised is at no node above any capped vector; a capped vector of which this
/// is so is the least one; and sinking leads from capped vectors to capped vectors.
pub fn starts_law()
    ensures raises { RaisesKeepShifts }
    ensures shifts { ShiftsLeadUnder }
    ensures under { HeldAloneIsUnder }
    ensures least { HeldAloneIsLeast }
    ensures held { HeldIsCapped }
{}

/// A network is earthed within `MOST_WALK` where each live node has standing earthings of at least a sixty-fourth of
/// its conductance; 128 at each live node is a bound vector.
pub fn first_share_law()
    ensures earthed { EarthedEverywhereIsEarthed }
    ensures entries { Entries128AreBound }
{}

/// A case network is earthed within `MOST_WALK` where `2 s (t + 1)` is at most `MOST_WALK`, each live substation's
/// standing earthing has at least 1/s of the conductance there, and at each live bus the standing elements that run to
/// substations have at least 1/t of it. The entries are `2 s (t + 1)` at buses, and `2 t` less at substations.
pub fn second_share_law()
    ensures earthed { EarthedThroughSubstationsIsEarthed }
    ensures entries { ShareEntriesAreBound }
{}

/// The loop worked by hand meets what the share theorems ask: it is a case network of two substations, with shares of an
/// eleventh and a half; and with everything open but its earthings it is earthed everywhere.
pub fn worked_shares_law()
    ensures case { IsCaseNetwork 2 loop }
    ensures shares { IsEarthedThroughSubstations loop_standing 2 11 2 }
    ensures everywhere { IsEarthedEverywhere grounds_standing }
{}

/// In the loop worked by hand A's entry is too small where all entries are 1, the bound vector is held from 1 to
/// `FULL_WALK`, and twice that vector isn't held alone, since with 1 less at each node it is held too.
pub fn worked_starts_law()
    ensures small { IsTooSmall loop_standing loop_full loop_ones 0 }
    ensures held { IsHeld loop_standing loop_ones loop_full loop_vector }
    ensures less { IsHeld loop_standing (lowered loop_standing 1 loop_twice) loop_twice loop_twice_less }
{}
