//! Theorems over the definitions, each the contract of a function that does nothing.
ghost use Rattle.std.specs.Prelude.{◌≡◌, pos, neg_ℤ};
ghost use Rattle.gic_model.specs.WorkedLoop.{loop_standing};
ghost use Rattle.gic_varied.specs.Varied.{IsVaried, WithinIsSomeResistance};
ghost use Rattle.gic_varied.specs.VariedLaws.{RangesHoldTolerances, OwnGroundsAreInRanges, SolutionsAreVaried, OwnSolutionsAreVaried};
ghost use Rattle.gic_varied.specs.Certified.{CertifiedEnclosuresHold, GrainsHoldInUnits};
ghost use Rattle.gic_varied.specs.Bounds.{TolerancesAreModest, VariedCurrentsAreBounded};
ghost use Rattle.gic_varied.specs.Enclosure.{EnclosuresHold, ProductsHold, VariedPotentialsHold, LiftVoltsLift};
ghost use Rattle.gic_varied.specs.ExactLifts.{PotentialsAreWithinExactHeights, PotentialsAreWithinExactDepths};
ghost use Rattle.gic_varied.specs.Near.{CertifiedEnclosuresAreNear};
ghost use Rattle.gic_varied.specs.Reach.{LiftsReachNoFurther, PotentialsReachNoFurther, ListedWeightsAddUp};
ghost use Rattle.gic_varied.specs.Sizes.{SumsGiveSizes};
ghost use Rattle.gic_varied.specs.Exact.{VariedCurrentsAreInReferenceEnclosure};
ghost use Rattle.gic_varied.specs.GroundLaws.{OtherGroundsEarthToo, BoundVectorsServeLesserGrounds, LesserGroundsEarthWithin};
ghost use Rattle.gic_varied.specs.GroundLaws.{RangesStayWithinLimits};
ghost use Rattle.gic_varied.specs.Corners.{CornersAreOfRanges};
ghost use Rattle.gic_varied.specs.EachGround.{StandingGroundsAreInRanges, AnyGroundsStayWithinLimits, NetworksAreEarthedAlike};
ghost use Rattle.gic_varied.specs.Lifts.{PotentialsAreRaisedAtMost, PotentialsAreLoweredAtMost};
ghost use Rattle.gic_varied.specs.PotentialRanges.{RaisingGroundsGiveGreatestPotentials, LoweringGroundsGiveLeastPotentials};
ghost use Rattle.gic_varied.specs.PotentialRanges.{CertifiedCornersRaise, CertifiedCornersLower};
ghost use Rattle.gic_varied.specs.OneNetwork.{VariedNetworksAreSolved};
ghost use Rattle.gic_varied.specs.AdjointForm.{VariedCurrentsAreOffByAdjointPower, AdjointEnclosuresHold};
ghost use Rattle.gic_varied.specs.Parts.{RaisingPartsHaveTheGreatest, LoweringPartsHaveTheLeast};
ghost use Rattle.gic_varied.specs.Strays.{StrayPowersAreBounded};
ghost use Rattle.gic_varied.specs.Reciprocal.{VariedCurrentsAreReciprocal, CurrentsAreReciprocal, VariedCurrentsAreOffByStrayPower};
ghost use Rattle.gic_varied.specs.Reciprocal.{ListedWeightsCount};
ghost use Rattle.gic_varied.specs.Corners.{corner_ohm};
ghost use Rattle.gic_varied.specs.PotentialRanges.{AreRaising, AreLowering};
ghost use Rattle.gic_varied.specs.OneNetwork.{AreOfOneNetwork};
ghost use Rattle.gic_varied.specs.Reciprocal.{all_stray_power};
ghost use Rattle.gic_varied.specs.Parts.{AreRaisingParts};
ghost use Rattle.gic_varied.specs.WorkedRanges.{most_at_a, most_at_b, highest_solution, lowest_solution, IsLoopSolution, LoopPotentialsAreInRange, both_least};
ghost use Rattle.gic_varied.specs.WorkedGrounds.{loop_ranges, line_of_800_volts, weak_solution, strong_solution, LoopCurrentsAreBounded};

/// A loop of two grounds worked by hand at 20 per cent: both corners are varied solutions, and the current of every
/// varied solution lies between theirs.
pub fn worked_grounds_law()
    ensures weak { IsVaried loop_standing loop_ranges line_of_800_volts weak_solution }
    ensures strong { IsVaried loop_standing loop_ranges line_of_800_volts strong_solution }
    ensures bounds { LoopCurrentsAreBounded }
{}

/// The ranges of that loop's potentials by hand: they are those of two corners. By the adjoint form 2000/9 amperes are 2000/7 less
/// what the stray power says, and with both grounds turned to their least resistances 2000/7 amperes flow.
pub fn worked_ranges_law()
    ensures highest { IsLoopSolution most_at_b highest_solution }
    ensures raising { AreRaising loop_standing loop_ranges (corner_ohm loop_ranges most_at_b) highest_solution.potential }
    ensures lowest { IsLoopSolution most_at_a lowest_solution }
    ensures lowering { AreLowering loop_standing loop_ranges (corner_ohm loop_ranges most_at_a) lowest_solution.potential }
    ensures potentials { LoopPotentialsAreInRange }
    ensures power { all_stray_power loop_standing weak_solution strong_solution ≡ neg_ℤ (pos 3200000000000000000000000) }
    ensures parts { AreRaisingParts loop_standing loop_ranges both_least line_of_800_volts line_of_800_volts }
    ensures turned { IsVaried loop_standing both_least line_of_800_volts strong_solution }
{}

/// The range of a resistance holds every resistance within the tolerance, whole or not, that a case can have; in a
/// network within the limits it holds the resistance itself.
pub fn range_law()
    ensures tolerance { RangesHoldTolerances }
    ensures own { OwnGroundsAreInRanges }
{}

/// Each solution of each network whose grounds lie within their ranges is a varied solution, and so is each solution
/// of the network itself. In a varied solution some resistance of its range, whole or not, has Ohm's law at each ground.
pub fn varied_law()
    ensures some { WithinIsSomeResistance }
    ensures others { SolutionsAreVaried }
    ensures own { OwnSolutionsAreVaried }
{}

/// Reciprocity: a weighted sum of the currents of a varied solution is that of any solution of a network with other
/// grounds, and the stray power of the adjoint solution at the grounds, which their ranges bound. Weights that are
/// listed by elements, as those of a transformer's windings, give the sum of these elements' currents.
pub fn reciprocity_law()
    ensures varied { VariedCurrentsAreReciprocal }
    ensures own { CurrentsAreReciprocal }
    ensures off { VariedCurrentsAreOffByStrayPower }
    ensures bounded { StrayPowersAreBounded }
    ensures listed { ListedWeightsCount }
{}

/// How far the potentials of varied solutions lie from those of a reference: above by at most a lift, and below by at
/// most another.
pub fn lift_law()
    ensures above { PotentialsAreRaisedAtMost }
    ensures below { PotentialsAreLoweredAtMost }
{}

/// The weighted current of every varied solution is in the reference enclosure, in exact numbers, and lies in the
/// enclosure that intervals with whole ends give.
pub fn enclosure_law()
    ensures exact { VariedCurrentsAreInReferenceEnclosure }
    ensures holds { EnclosuresHold }
    ensures products { ProductsHold }
    ensures potentials { VariedPotentialsHold }
    ensures lifts { LiftVoltsLift }
{}

/// A network with other grounds has the same chains to earth, one with lesser grounds keeps each bound vector, and
/// those with the least and the greatest grounds of tolerances are within the limits.
pub fn other_grounds_law()
    ensures earthed { OtherGroundsEarthToo }
    ensures bound { BoundVectorsServeLesserGrounds }
    ensures within { LesserGroundsEarthWithin }
    ensures limits { RangesStayWithinLimits }
{}

/// A network with any resistances of their ranges at its grounds is within the limits where the network is, and of two
/// networks that differ in their grounds alone one is earthed where the other is.
pub fn any_grounds_law()
    ensures standing { StandingGroundsAreInRanges }
    ensures limits { AnyGroundsStayWithinLimits }
    ensures earthed { NetworksAreEarthedAlike }
{}

/// At each corner of the ranges that tolerances give, the network is within the limits, its grounds have resistances of their
/// ranges, and none is above the greatest.
pub fn corner_law()
    ensures { CornersAreOfRanges }
{}

/// The enclosure that is made of certain intervals of a reference and an adjoint solution at a corner of the ranges and of two
/// lifts, as the solver certifies them, and of an interval of the reference's weighted current, holds the weighted current of
/// every varied solution.
pub fn certified_enclosure_law()
    ensures holds { CertifiedEnclosuresHold }
    ensures grains { GrainsHoldInUnits }
{}

/// With tolerances up to 90 per cent no element but a ground carries more than 2^80 nanoamperes in a varied solution.
pub fn varied_bound_law()
    ensures modest { TolerancesAreModest }
    ensures bounded { VariedCurrentsAreBounded }
{}

/// Where each interval of a potential that it is made of ends within two units of that potential, and the one of the
/// reference's own current is at most 401 wide, the certified enclosure ends within the slack of the reference enclosure in
/// exact numbers: within a few units times what the field and the weights drive.
pub fn near_enclosure_law()
    ensures near { CertifiedEnclosuresAreNear }
{}

/// Where every live node is earthed, no potential is further from 0 than what all voltages add up to; voltages that lift, which
/// are at grounds alone, give no potential below 0, and none above the greatest of them. Listed weights add up to what the list
/// adds up to.
pub fn reach_law()
    ensures lifts { LiftsReachNoFurther }
    ensures potentials { PotentialsReachNoFurther }
    ensures listed { ListedWeightsAddUp }
{}

/// What the voltages of the field and the weights add up to gives sizes, by which an enclosure's slack is known.
pub fn sizes_law()
    ensures { SumsGiveSizes }
{}

/// The range of all potentials is that of two networks: where each ground raises its node the most, no varied potential is
/// above that network's, at any live node; where each lowers it the most, none is below. At a corner whose certain intervals
/// leave signs open at the grounds, a varied potential is beyond them by at most 20 times what they leave open.
pub fn greatest_potentials_law()
    ensures greatest { RaisingGroundsGiveGreatestPotentials }
    ensures least { LoweringGroundsGiveLeastPotentials }
    ensures certified_above { CertifiedCornersRaise }
    ensures certified_below { CertifiedCornersLower }
{}

/// The network of a varied solution, which has one resistance of its range at each ground, whole or not, has a solution for any
/// other voltages too.
pub fn one_network_law()
    ensures { VariedNetworksAreSolved }
{}

/// The adjoint form of reciprocity, with the two networks in each other's place: a varied weighted current is the reference's,
/// and the stray power of the reference's own potentials and the varied network's adjoint ones. The enclosure that ranges of
/// those adjoint potentials give holds the weighted current of every varied solution.
pub fn adjoint_form_law()
    ensures off { VariedCurrentsAreOffByAdjointPower }
    ensures holds { AdjointEnclosuresHold }
{}

/// Turning grounds: where the adjoint potential times the potential at a ground has one sign in all varied networks, be they two,
/// one end of the ground's range has the greatest weighted current, and the other the least. So these are found among the varied
/// solutions of parts of the ranges, in one step for any number of grounds.
pub fn turning_law()
    ensures greatest { RaisingPartsHaveTheGreatest }
    ensures least { LoweringPartsHaveTheLeast }
{}

/// The range of all potentials lies within the lifts of the reference enclosure, in exact numbers: so with that range in their
/// place the enclosure gets no wider.
pub fn exact_lift_law()
    ensures above { PotentialsAreWithinExactHeights }
    ensures below { PotentialsAreWithinExactDepths }
{}
