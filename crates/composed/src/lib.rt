// Composition: what is right above a judge is right above every machine that keeps to it. Shown once, used at every layer. Each contract
// says that a statement of `compose` has this proof.
#![tactic(auto)]

ghost use Rattle.composed.specs.Held.{LayersHeld, WithinHeld, HousesHeld, HousesWithinHeld, HousesBusyHeld, HousesAnswerHeld, AlongHeld, ManyHeld, AnyHeld, TakenHeld, TakenToldHeld, TakenBusyHeld, TakenManyHeld, PastHeld, OneInsertedHeld, CarriesHeld, CarriesWithinHeld, CarriesForHeld, CarriesWithinForHeld, CarriesAnswersHeld, CarriesAnswersWithinHeld};

// A layer on a machine: it keeps to its judge, and stays within the device.
pub fn layers_compose()
    ensures compose { LayersHeld }
    ensures within { WithinHeld }
{}

// Houses on machines: they are as one place, stay within their devices, say busy only where they may, and answer.
pub fn houses_compose()
    ensures compose { HousesHeld }
    ensures within { HousesWithinHeld }
    ensures busy { HousesBusyHeld }
    ensures answers { HousesAnswerHeld }
{}

// Histories of one place: along a simulation, many calls at once, and any that waits, with the same falls and cuts.
pub fn histories_hold()
    ensures along { AlongHeld }
    ensures many { ManyHeld }
    ensures any { AnyHeld }
{}

// Their steps by which call is taken, in place of where it stands, and calls that change nothing done in the past.
pub fn calls_are_taken()
    ensures done { TakenHeld }
    ensures told { TakenToldHeld }
    ensures busy { TakenBusyHeld }
    ensures taken { TakenManyHeld }
    ensures past { PastHeld }
    ensures inserted { OneInsertedHeld }
{}

// A house on a device that simulates a pure house: it is as one place, busy only at nine, and within its device, as the pure house is.
pub fn pure_houses_carry()
    ensures carries { CarriesHeld }
    ensures within { CarriesWithinHeld }
{}

// One that does so for as many steps as a limit says: the same, and it answers, as the pure house does,
// be it only from what comes to be in fewer than 2^56 steps.
pub fn pure_houses_carry_for()
    ensures carries { CarriesForHeld }
    ensures within { CarriesWithinForHeld }
    ensures answers { CarriesAnswersHeld }
    ensures answers_within { CarriesAnswersWithinHeld }
{}
