//! Theorems over the definitions, each the contract of a function that does nothing.
ghost use Rattle.std.specs.Prelude.{◌≡◌, IsSome, List, [], ◌∷◌, codes, pos, negsuc, Some, None, Ok, Err};
ghost use Rattle.clap.specs.Words.{Row};
ghost use Rattle.gic_words.specs.declared.mode.Use.TheVariants.{Required};
ghost use Rattle.gic_words.specs.declared.option.Opt.{Opt};
ghost use Rattle.gic_words.specs.declared.option.Opt.TheVariants.{Case, Switch, North, Event, Tolerance};
ghost use Rattle.gic_criteria.specs.declared.event.Event.TheVariants.{Supplemental};
ghost use Rattle.gic_criteria.specs.Questions.{usual_criteria};
ghost use Rattle.gic_words.specs.declared.fault.Usage.TheVariants as usage;
ghost use Rattle.gic_words.specs.Command.{given};
ghost use Rattle.gic_words.specs.Table.{ModeRow, all_options, use_of};
ghost use Rattle.gic_words.specs.Requests.{first_fault, request_of};
ghost use Rattle.gic_words.specs.Accepted.{MadeInRange, RequiredIsGiven};
ghost use Rattle.gic_words.specs.declared.mode.NetworkMode.TheVariants as network;
ghost use Rattle.gic_words.specs.declared.request.Request.TheVariants as request;

/// Where no fault is found, each option that the mode requires is given, so that no default stands for it.
pub fn required_law()
    ensures { (r : ModeRow) (rows : List Row) (o : Opt) →
        use_of r o ≡ Required → first_fault r rows all_options ≡ None → IsSome (given rows o) }
{}

/// Words without a fault give all that their mode's request is made of, so no request is refused for what is missing but by
/// the first fault, and an event that they give is one by its name.
pub fn required_given_law()
    ensures { (rows : List Row) → RequiredIsGiven rows }
{}

/// Accepted words give numbers in their ranges for a made case.
pub fn made_in_range_law()
    ensures { MadeInRange }
{}

/// What some words give that are refused.
pub fn refused_words_law()
    ensures option_twice { request_of (codes "volts" ∷ codes "--case=p" ∷ codes "--case=p" ∷ []) ≡ Err usage.Words }
    ensures mode_before_options { request_of (codes "fly" ∷ codes "--north=x" ∷ []) ≡ Err usage.Mode }
    ensures case_before_north { request_of (codes "volts" ∷ codes "--north=x" ∷ []) ≡ Err (usage.Missing Case) }
    ensures switch_before_north { request_of (codes "volts" ∷ codes "--case=p" ∷ codes "--north=x" ∷ codes "--switch=s" ∷ []) ≡ Err (usage.Extra Switch) }
    ensures north_too_far { request_of (codes "volts" ∷ codes "--case=p" ∷ codes "--north=20001" ∷ []) ≡ Err (usage.Number North) }
    ensures tolerance_too_wide { request_of (codes "robust" ∷ codes "--case=p" ∷ codes "--tolerance=91" ∷ []) ≡ Err (usage.Number Tolerance) }
    ensures tolerance_of_no_use { request_of (codes "screen" ∷ codes "--case=p" ∷ codes "--tolerance=20" ∷ []) ≡ Err (usage.Extra Tolerance) }
    ensures no_such_event { request_of (codes "field" ∷ codes "--case=p" ∷ codes "--event=storm" ∷ []) ≡ Err (usage.Value Event) }
{}

/// What some words ask for that are accepted.
pub fn accepted_words_law()
    ensures both_fields { request_of (codes "volts" ∷ codes "--case=p" ∷ codes "--north=-500" ∷ codes "--east" ∷ codes "7" ∷ [])
        ≡ Ok (request.Network network.Volts (record { case = codes "p"; switch = None; question = record { field = record { north = negsuc 499; east = pos 7 }; criteria = usual_criteria } })) }
    ensures whole_field { request_of (codes "field" ∷ codes "--case=p" ∷ codes "--north=8000" ∷ codes "--east=-1" ∷ codes "--switch=s" ∷ codes "--width=10" ∷ codes "--event=supplemental" ∷ [])
        ≡ Ok (request.Network network.Field (record { case = codes "p"; switch = Some (codes "s"); question = record { field = record { north = pos 8000; east = negsuc 0 }; criteria = record { width = 10; event = Supplemental } } })) }
    ensures studied { request_of (codes "study" ∷ codes "--case=p" ∷ codes "--storm=s" ∷ codes "--switch=w" ∷ codes "--width=10" ∷ codes "--detail=20000" ∷ [])
        ≡ Ok (request.Study (record { case = codes "p"; storm = codes "s"; switch = Some (codes "w"); criteria = record usual_criteria { width = 10 }; detail = Some 20000 })) }
    ensures made { request_of (codes "make" ∷ codes "--seed=0" ∷ codes "--size=1000" ∷ []) ≡ Ok (request.Make (record { seed = 0; size = 1000 })) }
    ensures rechecked { request_of (codes "recheck" ∷ codes "--case=p" ∷ codes "--cert=" ∷ codes "--switch=s" ∷ [])
        ≡ Ok (request.Recheck (record { case = codes "p"; switch = Some (codes "s"); cert = [] })) }
    ensures whole_series { request_of (codes "series" ∷ codes "--transformer=TA" ∷ codes "--width=10" ∷ codes "--switch=w" ∷ codes "--storm=s" ∷ codes "--case=p" ∷ [])
        ≡ Ok (request.Series (record { case = codes "p"; storm = codes "s"; switch = Some (codes "w"); width = 10; transformer = codes "TA" })) }
    ensures whole_robust { request_of (codes "robust" ∷ codes "--tolerance=90" ∷ codes "--event=supplemental" ∷ codes "--width=10" ∷ codes "--switch=w" ∷ codes "--case=p" ∷ [])
        ≡ Ok (request.Robust (record { case = codes "p"; switch = Some (codes "w"); criteria = record { criteria = record { width = 10; event = Supplemental }; tolerance = 90 } })) }
{}
